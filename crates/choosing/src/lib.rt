// The choice of a place and of a partner's place in the root list of an accepted state.
#![tactic(auto)]

ghost use Rattle.std.specs.Prelude.{◌≡◌, ℕ, Some};
ghost use Rattle.machine.specs.Elements.{Elements};
ghost use Rattle.places.specs.Offsets.{meant};
ghost use Rattle.planning.specs.Choices.{byte_at, Admitting, ChoiceOf, Chooses, ChoosesAt, ChosenAt};

use alone::{alone, turn_alone};
use meeting::meet;
use places::all_blocked;
use planning::Move;
use refusals::Refusal;

// The choice of a place and of a partner's place or none, where ambients nest at most `nest` deep.
pub fn choose(
    list: &[u8],
    names: usize,
    nest: u8,
    place: usize,
    other: Option<usize>,
) -> Result<Move, Refusal>
    requires { Chooses nest list.now names }
    ensures { (F : ℕ) (L : Elements) → Admitting nest list.now F names L → ChoiceOf nest F names L place (meant other) result }
{
    let at = places::find(list, place).ok_or(Refusal::CannotAct)?;
    choose_at(list, names, nest, at, other)
}

// The same of the element at an offset.
pub fn choose_at(
    list: &[u8],
    names: usize,
    nest: u8,
    at: usize,
    other: Option<usize>,
) -> Result<Move, Refusal>
    requires { ChoosesAt nest list.now names at }
    ensures { ChosenAt nest list.now names at other result }
{
    let rest = &list[at..];
    match rest[0] {
        0x42 => choose_process(list, names, nest, at, other),
        0x40 => {
            let end = 3 + format::word(rest, 1);
            if !all_blocked(&rest[5..end]) {
                return Err(Refusal::CannotAct);
            }
            match other {
                None => Ok(alone(29, names, list.len() + 7, 7 + at, 7)),
                Some(_) => Err(Refusal::NotPartner),
            }
        }
        _ => Err(Refusal::CannotAct),
    }
}

// The same of a process.
fn choose_process(
    list: &[u8],
    names: usize,
    nest: u8,
    at: usize,
    other: Option<usize>,
) -> Result<Move, Refusal>
    requires chooses_at { ChoosesAt nest list.now names at }
    requires at_value { byte_at list.now at 0 ≡ 0x42 }
    ensures { ChosenAt nest list.now names at other result }
{
    let rest = &list[at..];
    if rest[3] == 0x24 {
        return choose_action(list, names, nest, at, other);
    }
    match other {
        None => turn_alone(list, names, nest, at),
        Some(_) => Err(Refusal::NotPartner),
    }
}

// The choice of an action: it blocks where no partner is named and none exists, and meets the one that is named.
fn choose_action(
    list: &[u8],
    names: usize,
    nest: u8,
    at: usize,
    other: Option<usize>,
) -> Result<Move, Refusal>
    requires chooses_at { ChoosesAt nest list.now names at }
    requires at_value { (byte_at list.now at 0 ≡ 0x42) × (byte_at list.now at 3 ≡ 0x24) }
    ensures { ChosenAt nest list.now names at other result }
{
    match other {
        Some(place) => meet_named(list, names, nest, at, place),
        None => {
            let spot = places::spot_at(list, at);
            let tally = searching::count_answers(list, spot, true);
            if tally.number == 0 {
                return Ok(alone(43, names, list.len() + 4, 7 + at, 7));
            }
            Err(Refusal::HasPartner)
        }
    }
}

// The choice of an action with a partner's place.
fn meet_named(list: &[u8], names: usize, nest: u8, at: usize, other: usize) -> Result<Move, Refusal>
    requires chooses_at { ChoosesAt nest list.now names at }
    requires at_value { (byte_at list.now at 0 ≡ 0x42) × (byte_at list.now at 3 ≡ 0x24) }
    ensures { ChosenAt nest list.now names at (Some other) result }
{
    let there = places::find(list, other).ok_or(Refusal::NotPartner)?;
    let spot = places::spot_at(list, at);
    if !searching::is_one(list, spot, there) {
        return Err(Refusal::NotPartner);
    }
    meet(list, names, nest, spot, places::spot_at(list, there))
}
