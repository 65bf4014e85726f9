// The move of an element by itself: rules 29 to 34 and 43 in the bytes of an accepted state's root list.
#![tactic(auto)]

ghost use Rattle.std.specs.Prelude.{◌≡◌, ltb, ◌+◌, None};
ghost use Rattle.calculus.specs.Processes.{Process};
ghost use Rattle.machine.specs.Limits.{state_depth_limit};
ghost use Rattle.machine.specs.Elements.{depth};
ghost use Rattle.format.specs.Spelling.{encode};
ghost use Rattle.format.specs.Spellable.{Counted};
ghost use Rattle.measuring.specs.Measuring.{CountedProcess};
ghost use Rattle.planning.specs.Choices.{byte_at, ChoosesAt, ChosenAt};
ghost use Rattle.alone.specs.Alone.{alone_move};

use machine::{NAME_LIMIT, STATE_DEPTH_LIMIT};
use measuring::process_depth;
use planning::Move;
use refusals::Refusal;
use rewriting::Plan;

// The move of an element by itself, at an offset from the first byte of the state. The name for the variable of a restriction is the next unused one, in the two bytes from 5 on, in front of the root list; other elements take no name, from 7 on.
pub fn alone(rule: u8, names: usize, length: usize, at: usize, sent: usize) -> Move
    ensures { result ≡ alone_move rule names length at sent }
{
    Move {
        rule,
        names,
        length,
        plan: Plan {
            first: at,
            second: None,
            cut: None,
            after: None,
            block: true,
            sent,
            past: 7,
        },
    }
}

// Whether a process is within the limit of depth with two more levels around it.
fn is_shallow(process: &[u8]) -> bool
    requires { CountedProcess process.now }
    ensures { (P : Process) → process.now ≡ encode P → Counted P → result ≡ ltb (depth P + 1) state_depth_limit }
{
    // a process has a header of three bytes for each level, so that a short one is not too deep
    if process.len() + 3 < 3 * usize::from(STATE_DEPTH_LIMIT) {
        return true;
    }
    process_depth(process) + 1 < usize::from(STATE_DEPTH_LIMIT)
}

// The rule of a process that is no action.
pub fn turn_alone(list: &[u8], names: usize, nest: u8, at: usize) -> Result<Move, Refusal>
    requires chooses_at { ChoosesAt nest list.now names at }
    requires at_value { byte_at list.now at 0 ≡ 0x42 }
    requires fact { byte_at list.now at 3 ≡ 0x24 → ⊥ }
    ensures { ChosenAt nest list.now names at None result }
{
    let rest = &list[at..];
    let here = 7 + at;
    let total = list.len() + 7;
    match rest[3] {
        0x20 => Ok(alone(31, names, total - 6, here, 7)),
        0x21 => Ok(alone(32, names, total, here, 7)),
        0x22 if names < NAME_LIMIT => Ok(alone(33, names + 1, total - 3, here, 5)),
        0x22 => Err(Refusal::NoNameLeft),
        0x23 if places::spot_at(list, at).level < usize::from(nest) => {
            Ok(alone(34, names, total, here, 7))
        }
        0x23 => Err(Refusal::ResultTooDeep),
        _ => {
            let end = 3 + format::word(rest, 1);
            if is_shallow(&rest[3..end]) {
                Ok(alone(30, names, total + end, here, 7))
            } else {
                Err(Refusal::ResultTooDeep)
            }
        }
    }
}
