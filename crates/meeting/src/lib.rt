// Two actions that meet: rules 35 to 42 in the bytes of an accepted state's root list.
#![tactic(auto)]

ghost use Rattle.std.specs.Prelude.{ℕ};
ghost use Rattle.machine.specs.Elements.{Elements};
ghost use Rattle.meeting.specs.Meeting.{MeetingAt, MetAt, Joining, Joinable, JoinedBy};

use measuring::{growth, nested};
use places::Spot;
use planning::Move;
use refusals::Refusal;
use rewriting::Plan;

// A sender or mover and its partner, whichever acts. `handing` is their move where nothing is set down, with the length of the state without the two actions. Of a mover that was blocked three bytes fewer are unblocked than its ambient has.
fn join(list: &[u8], nest: u8, handing: Move, sender: Spot, other: Spot) -> Result<Move, Refusal>
    requires { Joinable nest list.now handing sender other }
    ensures { (F : ℕ) (L L' : Elements) → Joining nest list.now F L L' handing sender other → JoinedBy nest F handing.names handing.rule L L' result }
{
    let rule = handing.rule;
    if rule < 39 {
        return Ok(handing);
    }
    let within = sender.within;
    let length = handing.length + growth(list, within) - 3 * (1 - usize::from(rule % 2));
    let after = if 40 < rule {
        other.within
    } else {
        if usize::from(nest) < sender.level + 1 + nested(list, within) {
            return Err(Refusal::ResultTooDeep);
        }
        other.at
    };
    let plan = Plan {
        cut: Some(7 + within),
        after: Some(7 + after),
        ..handing.plan
    };
    Ok(Move {
        length,
        plan,
        ..handing
    })
}

// An action at a spot and its blocked partner at another, where ambients nest at most `nest` deep.
pub fn meet(list: &[u8], names: usize, nest: u8, spot: Spot, other: Spot) -> Result<Move, Refusal>
    requires { MeetingAt nest list.now names spot other }
    ensures { MetAt nest list.now names spot other result }
{
    let here = spot.at + 6;
    let there = other.at + 3;
    let acts = layouts::extent_of(&list[here..]);
    let answers = layouts::extent_of(&list[there..]);
    let (sender, taker, at, handed) = if acts.rule % 2 == 1 {
        (spot, other, here, acts)
    } else {
        (other, spot, there, answers)
    };
    let handing = Move {
        rule: acts.rule,
        names,
        length: 4 + list.len() - acts.end - answers.end,
        plan: Plan {
            first: 7 + sender.at,
            second: Some(7 + taker.at),
            cut: None,
            after: None,
            block: false,
            sent: 7 + at + handed.sent,
            past: 7 + at + handed.end,
        },
    };
    join(list, nest, handing, sender, taker)
}
