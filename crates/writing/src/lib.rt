// Writes jobs. Assumes nothing of its input.
#![tactic(auto)]

ghost use Rattle.std.specs.Prelude.{◌≡◌, ◌++◌, ◌+◌, ◌<◌, length};
ghost use Rattle.buffers.specs.Words.{word};
ghost use Rattle.buffers.specs.Buffers.{Answered, written_answer};
ghost use Rattle.format.specs.Spelling.{word_limit};
ghost use Rattle.writing.specs.Writing.{write_job};

use format::Cursor;
use machine::{BYTE_LIMIT, FREE_NAME_LEAST, FREE_NAME_LIMIT, JOB_DEPTH_LIMIT};
use refusals::Refusal;

// The body of a job, F and the process, in the part of the output that is lent for it.
fn write_body(free: usize, process: &[u8], body: &mut [u8])
    requires free_lt_word_limit { free < word_limit }
    requires body_len { length body.old ≡ 2 + length process.now }
    ensures { body.new ≡ word free ++ process.now }
{
    let next = buffers::append_word(free, body, 0);
    buffers::append(process, body, next);
}

// The job of F and of a process, at the front of the output buffer; a refusal leaves every byte of it.
pub fn write_job(free: u16, process: &[u8], out: &mut [u8]) -> Result<usize, Refusal>
    ensures { Answered written_answer (write_job free process.now (length out.old)) out.old result out.new }
{
    if BYTE_LIMIT < process.len() {
        return Err(Refusal::TooLong);
    }
    let names = usize::from(free);
    if !(FREE_NAME_LEAST..=FREE_NAME_LIMIT).contains(&names) {
        return Err(Refusal::OutOfRange);
    }
    let last = processes::process(process, Cursor { at: 0 }, JOB_DEPTH_LIMIT, names)?;
    let end = last.at;
    if end != process.len() {
        return Err(Refusal::LeftOver);
    }
    let n = end + 5;
    if !buffers::fits(n, BYTE_LIMIT, out.len()) {
        return Err(Refusal::NoRoom);
    }
    buffers::write_header(out, 0x10, n - 3);
    write_body(names, process, &mut out[3..n]);
    Ok(n)
}
