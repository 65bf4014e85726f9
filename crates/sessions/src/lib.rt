// The session of a job over lent bytes, piece by piece. `begin` takes any job, `next_piece` a session that one of the two made.
#![tactic(auto)]

ghost use Rattle.std.specs.Prelude.{◌≡◌, ◌≤◌, ltb, length};
ghost use Rattle.machine.specs.Limits.{byte_limit};
ghost use Rattle.lines.specs.Lines.{line_limit};
ghost use Rattle.telling.specs.Pieces.{lines_left, Stands, Begun, Told};

use lines::append_refusal;
use telling::{Piece, Session};

// Begins the session of a job: its state is at the front of `present`, or it is refused. A job of more than 32,768 bytes is refused with 1.
pub fn begin(job: &[u8], present: &mut [u8]) -> Session
    requires { length present.old ≡ byte_limit }
    ensures { Begun job.now result present.new }
{
    match loading::load(job, present) {
        Err(refusal) => Session::Refused(refusal.number()),
        Ok(n) => Session::Running(0, n),
    }
}

// Whether some of the text is still to come.
pub fn goes_on(session: Session) -> bool
    ensures { result ≡ ltb 0 (lines_left session) }
{
    !matches!(session, Session::Over)
}

// The next piece of the text, at the front of `text`: as many whole lines as there is room for. `present` is the buffer of the calls before.
pub fn next_piece(session: Session, present: &mut [u8], text: &mut [u8]) -> Piece
    requires { Stands session present.old × (line_limit ≤ length text.old) }
    ensures { Told session present.old text.old result present.new text.new }
{
    match session {
        Session::Refused(number) => Piece {
            session: Session::Over,
            length: append_refusal(number, text, 0),
        },
        Session::Running(steps, n) => telling::tell_steps(steps, n, present, text),
        Session::Over => Piece {
            session: Session::Over,
            length: 0,
        },
    }
}
