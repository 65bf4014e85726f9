// The program: prints the session of the job on standard input (document 01, "Examples on the line"). The text is that of `sessions`, handed on piece by piece.
#![tactic(auto)]

ghost use Rattle.std.specs.Prelude.{IfSome, OnOk};
ghost use Rattle.std.specs.Io.KnownBytes.{Appends};
ghost use Rattle.telling.specs.Sessions.{session_text};

use machine::BYTE_LIMIT;
use std::io;
use std::io::{Read, Write};
use streams::read_full;

// Prints the session of a job. `present` holds its present state, `text` the piece to be printed.
fn print_session<W: Write>(job: &[u8], out: &mut W) -> io::Result<()>
    ensures { OnOk result (Appends (W.contents out.old) (W.contents out.new) (session_text job.now)) }
{
    let mut present = [0u8; BYTE_LIMIT];
    let mut text = [0u8; 4096];
    let mut session = sessions::begin(job, &mut present);
    while sessions::goes_on(session) {
        let piece = sessions::next_piece(session, &mut present, &mut text);
        let n = piece.length;
        out.write_all(&text[..n])?;
        session = piece.session;
    }
    Ok(())
}

// Prints the session of the job that is all that is left of a stream. A job of more than 32,768 bytes is cut behind the first byte too many, and refused with 1 as the whole would be.
fn hold_session<R: Read, W: Write>(input: &mut R, out: &mut W) -> io::Result<()>
    ensures { OnOk result (IfSome (R.remaining input.old) (λ job. Appends (W.contents out.old) (W.contents out.new) (session_text job))) }
{
    let mut job = [0u8; BYTE_LIMIT + 1];
    let n = read_full(input, &mut job)?;
    print_session(&job[..n], out)
}

fn main(rt: HostRuntime) -> io::Result<()> {
    hold_session(&mut rt.stdin(), &mut rt.stdout())
}
