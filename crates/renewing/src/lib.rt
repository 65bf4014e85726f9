// The state after a move, written to the front of the output buffer; what the plan takes out is carried to a buffer of its own first. On the bytes of an accepted state.
#![tactic(auto)]

ghost use Rattle.std.specs.Prelude.{false, List, ◌≡◌, ℕ, ◌<◌, ◌+◌, length};
ghost use Rattle.format.specs.Spelling.{word_limit};
ghost use Rattle.machine.specs.Elements.{Elements, state as state_of};
ghost use Rattle.buffers.specs.Buffers.{Left};
ghost use Rattle.elements.specs.Spelling.{encode_elements, encode_state};
ghost use Rattle.calculus.specs.Processes.{Reference};
ghost use Rattle.substituting.specs.Substituting.{SpellsNames};
ghost use Rattle.rewriting.specs.Editing.{edit, Suits};
ghost use Rattle.planning.specs.Choices.{SetDown};
ghost use Rattle.renewing.specs.Renewing.{SpellsState, Renewing, Replanting};

use machine::BYTE_LIMIT;
use rewriting::Plan;

// The state after a move, at the front of `out`: the header, F, the next unused name, and the root list as the plan changes it; `moved` is what is set down, and `handed` spells the names that are put for variables.
fn write_state(
    state: &[u8],
    names: usize,
    moved: &[u8],
    handed: &[u8],
    out: &mut [u8],
    k: Plan,
) -> usize
    requires renewing { Renewing state.now moved.now handed.now k (length out.old) }
    requires names_lt_word_limit { names < word_limit }
    ensures { (F N : ℕ) (L Z : Elements) (ns : List Reference) → SpellsState state.now F N L → moved.now ≡ encode_elements Z
        → SpellsNames handed.now ns → Suits k ns 7 L → Left (encode_state (state_of F names (edit k ns Z false 7 L))) out.old out.new result }
{
    let n = applying::rewrite(&state[7..], 7, moved, handed, &mut out[7..], k, false);
    elements::start_state(out, n, format::word(state, 3), names);
    7 + n
}

// The same where the plan says what is set down: nothing, or the ambient that it takes out, which is written to a buffer of its own first. It is a part of the result, so that it has no more bytes than a state.
pub fn write_result(state: &[u8], names: usize, handed: &[u8], out: &mut [u8], k: Plan) -> usize
    requires replanting { Replanting state.now handed.now k (length out.old) }
    requires names_lt_word_limit { names < word_limit }
    ensures { (F N : ℕ) (L Z : Elements) (ns : List Reference) → SpellsState state.now F N L → SpellsNames handed.now ns → Suits k ns 7 L → SetDown L k ns Z
        → Left (encode_state (state_of F names (edit k ns Z false 7 L))) out.old out.new result }
{
    let Some(at) = k.cut else {
        return write_state(state, names, &state[..0], handed, out, k);
    };
    let ambient = &state[at..];
    let end = 3 + format::word(ambient, 1);
    let mut buffer = [0u8; BYTE_LIMIT];
    let n = applying::carry(&ambient[..end], at, handed, &mut buffer, k);
    write_state(state, names, &buffer[..n], handed, out, k)
}
