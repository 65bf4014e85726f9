// Sweeps states: empty ambients whose names stand nowhere else are removed. `sweep` assumes nothing of its input.
#![tactic(auto)]

ghost use Rattle.std.specs.Prelude.{length};
ghost use Rattle.buffers.specs.Buffers.{Answered, written_answer};
ghost use Rattle.sweeping.specs.Sweeping.{sweep_bytes};

use machine::{BYTE_LIMIT, NAME_LIMIT};
use refusals::Refusal;

// The state without the ambients that go, at the front of the output buffer; a refusal leaves every byte of it.
pub fn sweep(state: &[u8], out: &mut [u8]) -> Result<usize, Refusal>
    ensures { Answered written_answer (sweep_bytes state.now (length out.old)) out.old result out.new }
{
    let names = states::read_state(state)?;
    let root = &state[7..];
    let mut table = [0u8; NAME_LIMIT];
    referring::count_names(root, &mut table);
    let n = clearing::list_left(root, names.free, &table);
    if !buffers::fits(7 + n, BYTE_LIMIT, out.len()) {
        return Err(Refusal::NoRoom);
    }
    elements::start_state(out, n, names.free, names.next);
    clearing::sweep_list(root, names.free, &table, &mut out[7..]);
    Ok(7 + n)
}
