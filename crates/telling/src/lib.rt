// The text of a session, and what tells its steps: the record of a session so far, and the turns of its run with a line for each.
#![tactic(auto)]

ghost use Rattle.std.specs.Prelude.{◌≡◌, ◌≤◌, length};
ghost use Rattle.weighing.specs.Weighing.{weigh};
ghost use Rattle.lines.specs.Lines.{line_limit};
ghost use Rattle.telling.specs.Sessions.{weight_in};
ghost use Rattle.telling.specs.declared.Session.TheVariants.{Running};
ghost use Rattle.telling.specs.Pieces.{StandsAt, Told};

use lines::{append_last, append_step};
use machine::BYTE_LIMIT;

// At most so many steps are run.
const BUDGET: usize = 65535;

// No line has more bytes.
const LINE_LIMIT: usize = 84;

// A session so far.
#[derive(Clone, Copy)]
pub enum Session {
    // the job was refused, with this number, which is still to be told
    Refused(u8),
    // how many steps were taken, and how long the present state is
    Running(usize, usize),
    // all is told
    Over,
}

// What a call tells: the session after it, and how many bytes of text it wrote.
#[derive(Clone, Copy)]
pub struct Piece {
    pub session: Session,
    pub length: usize,
}

// The weight of an accepted state.
fn weight_of(state: &[u8]) -> usize
    ensures { result ≡ weight_in (weigh state.now) }
{
    weighing::weight(state).unwrap_or(0)
}

// Takes steps and writes their lines while there is room for a line, and the last line where the run ends. `present` holds the state reached after each.
pub fn tell_steps(steps: usize, size: usize, present: &mut [u8], text: &mut [u8]) -> Piece
    requires { StandsAt steps size present.old × (line_limit ≤ length text.old) }
    ensures { Told (Running steps size) present.old text.old result present.new text.new }
{
    let mut next = [0u8; BYTE_LIMIT];
    let mut taken = steps;
    let mut end = size;
    let mut at = 0;
    while text.len() - at >= LINE_LIMIT {
        match advancing::take_turn(&present[..end], taken == BUDGET, false, &mut next) {
            Err(ending) => {
                let weight = weight_of(&present[..end]);
                return Piece {
                    session: Session::Over,
                    length: append_last(ending, taken, weight, text, at),
                };
            }
            Ok(turn) => {
                at = append_step(turn, text, at);
                end = turn.length;
                buffers::copy(&next[..end], present);
                taken += 1;
            }
        }
    }
    Piece {
        session: Session::Running(taken, end),
        length: at,
    }
}
