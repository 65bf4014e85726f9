// The choice of a run in the root list of an accepted state: the lowest place that can act, with its lowest partner.
#![tactic(auto)]

ghost use Rattle.std.specs.Prelude.{◌≡◌, ℕ};
ghost use Rattle.machine.specs.Elements.{Elements};
ghost use Rattle.planning.specs.Choices.{byte_at, Admitting, Chooses, ChoosesAt};
ghost use Rattle.selecting.specs.Selecting.{LowestOf, LowestAt};

use alone::alone;
use choosing::choose_at;
use meeting::meet;
use places::{can_act, place_of, places_of};
use planning::Move;
use refusals::Refusal;

// The lowest place that can act, its lowest partner's place or none, how many partners it has, and what that choice comes to.
#[derive(Clone, Copy)]
pub struct Next {
    pub place: usize,
    pub other: Option<usize>,
    pub partners: usize,
    pub choice: Result<Move, Refusal>,
}

// The choice at the lowest place that can act, where an action stands, at the offset `at`: its lowest partner, or none. `once` leaves the search there, and 1 stands for any number of partners.
fn lowest_action(list: &[u8], names: usize, nest: u8, at: usize, place: usize, once: bool) -> Next
    requires chooses_at { ChoosesAt nest list.now names at }
    requires at_value { (byte_at list.now at 0 ≡ 0x42) × (byte_at list.now at 3 ≡ 0x24) }
    ensures { LowestAt nest list.now names at place once result }
{
    let spot = places::spot_at(list, at);
    let tally = searching::count_answers(list, spot, once);
    match tally.lowest {
        None => Next {
            place,
            other: None,
            partners: 0,
            choice: Ok(alone(43, names, list.len() + 4, 7 + at, 7)),
        },
        Some(lowest) => Next {
            place,
            other: Some(place_of(list, lowest)),
            partners: tally.number,
            choice: meet(list, names, nest, spot, places::spot_at(list, lowest)),
        },
    }
}

// The same of any element.
fn lowest_at(list: &[u8], names: usize, nest: u8, at: usize, place: usize, once: bool) -> Next
    requires { ChoosesAt nest list.now names at }
    ensures { LowestAt nest list.now names at place once result }
{
    let rest = &list[at..];
    if rest[0] == 0x42 && rest[3] == 0x24 {
        return lowest_action(list, names, nest, at, place, once);
    }
    Next {
        place,
        other: None,
        partners: 0,
        choice: choose_at(list, names, nest, at, None),
    }
}

// The choice of a run in the root list of an accepted state, or none where no place can act. Partners are counted unless `once` leaves the search at the first.
pub fn choose_lowest(list: &[u8], names: usize, nest: u8, once: bool) -> Option<Next>
    requires { Chooses nest list.now names }
    ensures { (F : ℕ) (L : Elements) → Admitting nest list.now F names L → LowestOf nest F names L once result }
{
    for (place, (at, rest)) in places_of(list).enumerate() {
        if can_act(rest) {
            return Some(lowest_at(list, names, nest, at, place, once));
        }
    }
    None
}
