// The step over lent bytes: reading, the choice, the move performed. Assumes nothing of its input.
#![tactic(auto)]

ghost use Rattle.std.specs.Prelude.{◌≡◌};
ghost use Rattle.machine.specs.Lowest.{partner_of};
ghost use Rattle.format.specs.Answers.{meant};
ghost use Rattle.calls.specs.Calls.{StepContract};
ghost use Rattle.performing.specs.Performing.{reply_in};

use choosing::choose;
use machine::{ABSENT, NESTING_LIMIT};
use performing::{Step, perform};
use refusals::Refusal;

// A partner's place, or none at 65,535.
fn partner(other: u16) -> Option<usize>
    ensures { meant result ≡ partner_of other }
{
    let place = usize::from(other);
    if place == ABSENT { None } else { Some(place) }
}

// One step of a state: at a place, with a partner's place or 65,535 for none. A refusal leaves every byte of `out`.
pub fn step(state: &[u8], place: u16, other: u16, out: &mut [u8]) -> Result<Step, Refusal>
    ensures { StepContract state.now place other out.old (reply_in result) out.new }
{
    let names = states::read_state(state)?;
    let root = &state[7..];
    let m = choose(
        root,
        names.next,
        NESTING_LIMIT,
        usize::from(place),
        partner(other),
    )?;
    perform(state, m, out)
}
