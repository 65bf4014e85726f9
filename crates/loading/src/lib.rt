// Loads jobs. `load` assumes nothing of its input.
#![tactic(auto)]

ghost use Rattle.std.specs.Prelude.{length};
ghost use Rattle.buffers.specs.Buffers.{Answered, written_answer};
ghost use Rattle.loaded.specs.Loading.{load as load_written};

use machine::BYTE_LIMIT;
use refusals::Refusal;

// The state of a job, at the front of the output buffer: the process of the job in the cabinet. A refusal leaves every byte of the buffer.
pub fn load(job: &[u8], out: &mut [u8]) -> Result<usize, Refusal>
    ensures { Answered written_answer (load_written job.now (length out.old)) out.old result out.new }
{
    let free = states::read_job(job)?;
    let process = &job[5..];
    if judging::is_mixed(process) {
        return Err(Refusal::MixedUses);
    }
    let n = job.len() + 10;
    if !buffers::fits(n, BYTE_LIMIT, out.len()) {
        return Err(Refusal::NoRoom);
    }
    enclosing::write_loaded(free, process, out);
    Ok(n)
}
