// Performing a move on the bytes of an accepted state: refused with 13, or the state after it at the front of the output buffer.
#![tactic(auto)]

ghost use Rattle.std.specs.Prelude.{ℕ, length};
ghost use Rattle.machine.specs.Limits.{byte_limit};
ghost use Rattle.machine.specs.Elements.{Elements, state as state_of};
ghost use Rattle.buffers.specs.Buffers.{fitting, Answered};
ghost use Rattle.elements.specs.Spelling.{encode_state};
ghost use Rattle.planning.specs.Choices.{Drawn};
ghost use Rattle.renewing.specs.Renewing.{SpellsState};
ghost use Rattle.performing.specs.Performing.{Performing, reply_in};
ghost use Rattle.calls.specs.Calls.{reply_of};

use machine::BYTE_LIMIT;
use planning::Move;
use refusals::Refusal;
use renewing::write_result;

// A step that was taken: its rule, and how many bytes were written.
#[derive(Clone, Copy)]
pub struct Step {
    pub rule: u8,
    pub length: usize,
}

// Performs a move, or refuses it with 13: the length is known before a byte is written.
pub fn perform(state: &[u8], m: Move, out: &mut [u8]) -> Result<Step, Refusal>
    requires { Performing state.now m }
    ensures { (F N : ℕ) (L L' : Elements) → SpellsState state.now F N L → Drawn F N L m L'
        → Answered reply_of (fitting byte_limit (length out.old) m.rule (encode_state (state_of F m.names L'))) out.old (reply_in result) out.new }
{
    if !buffers::fits(m.length, BYTE_LIMIT, out.len()) {
        return Err(Refusal::NoRoom);
    }
    let plan = m.plan;
    write_result(state, m.names, &state[plan.sent..plan.past], out, plan);
    Ok(Step {
        rule: m.rule,
        length: m.length,
    })
}
