// The run over lent bytes. `run` assumes nothing of its input.
#![tactic(auto)]

ghost use Rattle.std.specs.Prelude.{◌≡◌, ◌-◌, ◌≤◌, ◌<◌, length, take};
ghost use Rattle.machine.specs.Limits.{byte_limit};
ghost use Rattle.machine.specs.Elements.{State};
ghost use Rattle.buffers.specs.Buffers.{Answered};
ghost use Rattle.runs.specs.Runs.{run_bytes};
ghost use Rattle.runs.specs.Turns.{turn};
ghost use Rattle.advancing.specs.Answers.{Present, SpellsAdmitted};
ghost use Rattle.running.specs.Answers.{run_answer, record_after, Played};

use advancing::{Ending, take_turn};
use machine::BYTE_LIMIT;
use refusals::Refusal;

// A run so far: how many steps were taken, how it ended if it has, and how long its last state is.
#[derive(Clone, Copy)]
pub struct Progress {
    pub count: usize,
    pub ending: Option<Ending<Refusal>>,
    pub length: usize,
}

impl Progress {
    // The record after one more turn. `present` is the last state; the one after it is written to the front of `next`.
    fn next(self, present: &[u8], next: &mut [u8], budget: usize) -> Progress
        requires spells_admitted { SpellsAdmitted present.now }
        requires count_le_budget { (self.count ≤ budget) × (budget < 65536) }
        ensures { (S : State) → Present present.now S
            → Answered (record_after self) (turn (length next.old) (budget - self.count) S) next.old result next.new }
    {
        match take_turn(present, self.count == budget, true, next) {
            Err(ending) => Progress {
                ending: Some(ending),
                ..self
            },
            Ok(turn) => Progress {
                count: self.count + 1,
                ending: None,
                length: turn.length,
            },
        }
    }
}

// A run that has ended: how, after how many steps, and how long its last state is.
#[derive(Clone, Copy)]
pub struct Finished<E> {
    pub ending: Ending<E>,
    pub steps: usize,
    pub length: usize,
}

// Plays turns from the state at the front of `present`, which holds the one reached after each, until the run ends.
fn play(present: &mut [u8], size: usize, budget: usize, room: usize) -> Finished<Refusal>
    requires spells_admitted { SpellsAdmitted (take size present.old) }
    requires present_len { (length present.old ≡ byte_limit) × (budget < 65536) × (size ≤ room) × (room ≤ byte_limit) }
    ensures { (S : State) → Present (take size present.old) S → Played room budget S result present.new }
{
    let mut next = [0u8; BYTE_LIMIT];
    let mut reached = Progress {
        count: 0,
        ending: None,
        length: size,
    };
    loop {
        let end = reached.length;
        reached = reached.next(&present[..end], &mut next[..room], budget);
        if let Some(ending) = reached.ending {
            return Finished {
                ending,
                steps: reached.count,
                length: reached.length,
            };
        }
        buffers::copy(&next[..reached.length], present);
    }
}

// Runs a state to its end: its last good state at the front of `out`, and the bytes behind as they were. A refusal leaves every byte.
pub fn run(state: &[u8], budget: u16, out: &mut [u8]) -> Result<Finished<Refusal>, Refusal>
    ensures { Answered run_answer (run_bytes state.now budget (length out.old)) out.old result out.new }
{
    states::read_state(state)?;
    let size = state.len();
    if !buffers::fits(size, BYTE_LIMIT, out.len()) {
        return Err(Refusal::NoRoom);
    }
    let mut present = [0u8; BYTE_LIMIT];
    buffers::copy(state, &mut present);
    let room = buffers::least(BYTE_LIMIT, out.len());
    let last = play(&mut present, size, usize::from(budget), room);
    buffers::copy(&present[..last.length], out);
    Ok(last)
}
