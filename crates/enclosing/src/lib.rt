// Writes a process into the cabinet.
#![tactic(auto)]

ghost use Rattle.std.specs.Prelude.{◌+◌, ◌≤◌, ◌<◌, length};
ghost use Rattle.format.specs.Spelling.{word_limit};
ghost use Rattle.buffers.specs.Buffers.{Left};
ghost use Rattle.enclosing.specs.Pieces.{ambient_bytes, loaded_bytes};

use machine::CABINET_NAME;

// An ambient of this name that holds one process, at the front of the part that is lent for it; how many bytes that is.
fn write_cabinet(name: u16, process: &[u8], out: &mut [u8]) -> usize
    requires process_in_bounds { 8 + length process.now ≤ length out.old }
    requires process_bound { 5 + length process.now < word_limit }
    ensures { Left (ambient_bytes name process.now) out.old out.new result }
{
    let len = 5 + process.len();
    buffers::write_header(out, 0x40, len);
    let inside = buffers::append_word(name as usize, out, 3);
    inside + buffers::write_field(&mut out[inside..], 0x42, process)
}

// The state of `free` names with a process in the cabinet, at the front of a buffer that holds it.
pub fn write_loaded(free: usize, process: &[u8], out: &mut [u8])
    requires process_in_bounds { 15 + length process.now ≤ length out.old }
    requires process_bound { (12 + length process.now < word_limit) × (free < word_limit) }
    ensures { Left (loaded_bytes free process.now) out.old out.new (15 + length process.now) }
{
    elements::start_state(out, 8 + process.len(), free, free);
    write_cabinet(CABINET_NAME, process, &mut out[7..]);
}
