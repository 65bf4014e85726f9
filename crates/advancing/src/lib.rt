// One turn of a run over the bytes of an accepted state.
#![tactic(auto)]

ghost use Rattle.std.specs.Prelude.{◌≡◌, length};
ghost use Rattle.machine.specs.Elements.{State};
ghost use Rattle.buffers.specs.Buffers.{Answered};
ghost use Rattle.runs.specs.Turns.{turn};
ghost use Rattle.advancing.specs.declared.Ending.TheVariants.{Limit};
ghost use Rattle.advancing.specs.Answers.{turn_answer, left_of, Present, SpellsAdmitted};

use machine::NESTING_LIMIT;
use refusals::Refusal;

// How a run ends, where a limit is what refuses the next step.
#[derive(Clone, Copy)]
pub enum Ending<E> {
    // no place can act
    Blocked,
    // the budget is spent
    Spent,
    // 11, 12 or 13
    Limit(E),
}

impl From<Refusal> for Ending<Refusal> {
    ghost from_gives = { λ x e. e ≡ Limit x };

    fn from(refusal: Refusal) -> Ending<Refusal> {
        Ending::Limit(refusal)
    }
}

// A turn that was taken: the place, its partner's place or none, the rule, how many partners the place had, and how long the state after it is.
#[derive(Clone, Copy)]
pub struct Turn {
    pub place: usize,
    pub other: Option<usize>,
    pub rule: u8,
    pub partners: usize,
    pub length: usize,
}

// One turn of a run: the lowest place that can act, its lowest partner or none. The state after it is written to the front of `out`, and no other byte. All blocked outranks a spent budget, and a spent budget 11, 12 and 13.
// The partners are counted unless `once` leaves the search at the first; then 1 stands for any number.
pub fn take_turn(
    state: &[u8],
    spent: bool,
    once: bool,
    out: &mut [u8],
) -> Result<Turn, Ending<Refusal>>
    requires { SpellsAdmitted state.now }
    ensures { (S : State) → Present state.now S
        → Answered (turn_answer once) (turn (length out.old) (left_of spent) S) out.old result out.new }
{
    let names = format::word(state, 5);
    let root = &state[7..];
    let next = selecting::choose_lowest(root, names, NESTING_LIMIT, once).ok_or(Ending::Blocked)?;
    if spent {
        return Err(Ending::Spent);
    }
    let m = next.choice?;
    let step = performing::perform(state, m, out)?;
    Ok(Turn {
        place: next.place,
        other: next.other,
        rule: step.rule,
        partners: next.partners,
        length: step.length,
    })
}
