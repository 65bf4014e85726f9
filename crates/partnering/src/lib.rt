// The partners of a place: which is the lowest, and how many there are. `partners` assumes nothing of its input.
#![tactic(auto)]

ghost use Rattle.std.specs.Prelude.{true, ◌≡◌, ℕ, Ok};
ghost use Rattle.std.proofs.Math.Option.{some};
ghost use Rattle.calculus.specs.Processes.{Action, Process, action};
ghost use Rattle.machine.specs.Elements.{Elements, Element, process_element, Position, place, element_at};
ghost use Rattle.machine.specs.Kinds.{side_of};
ghost use Rattle.machine.specs.Lowest.{partners_at, able};
ghost use Rattle.machine.specs.Meetings.{partners as partners_of_action};
ghost use Rattle.machine.specs.Ordered.{member};
ghost use Rattle.machine.specs.Validity.{Graded};
ghost use Rattle.elements.specs.Spelled.{Spells};
ghost use Rattle.places.specs.Offsets.{offset};
ghost use Rattle.partnering.specs.Partnering.{told, partners_bytes};
ghost use Rattle.partnering.specs.Answers.{partners_answer, ActionAt, ElementAt};

use refusals::Refusal;

// The partners of a place that can act: the lowest one's place, and how many there are.
#[derive(Clone, Copy)]
pub struct PartnerCount {
    pub lowest: Option<usize>,
    pub count: usize,
}

// The partners of the action to be executed at an offset.
fn action_partners(list: &[u8], at: usize) -> PartnerCount
    requires { ActionAt list.now at }
    ensures { (L : Elements) (π : Position) (α : Action) (P : Process) (n : ℕ) → Spells list.now L → element_at L π ≡ some (process_element (action α P)) → offset 0 L π ≡ at
        → Ok result ≡ partners_answer (told true (partners_of_action (side_of α) L π) n) }
{
    let tally = searching::count_answers(list, places::spot_at(list, at), false);
    match tally.lowest {
        None => PartnerCount {
            lowest: None,
            count: 0,
        },
        Some(lowest) => PartnerCount {
            lowest: Some(places::place_of(list, lowest)),
            count: tally.number,
        },
    }
}

// The partners of the element at an offset, where it can act. Only an action has any.
fn partners_at(list: &[u8], at: usize) -> Result<PartnerCount, Refusal>
    requires { ElementAt list.now at }
    ensures { (L : Elements) (π : Position) (E : Element) (n : ℕ) → Spells list.now L → Graded L → element_at L π ≡ some E → offset 0 L π ≡ at
        → result ≡ partners_answer (told (member (place L π) (able 0 L)) (partners_at L (place L π)) n) }
{
    let rest = &list[at..];
    if !places::can_act(rest) {
        return Err(Refusal::CannotAct);
    }
    if rest[0] == 0x42 && rest[3] == 0x24 {
        return Ok(action_partners(list, at));
    }
    Ok(PartnerCount {
        lowest: None,
        count: 0,
    })
}

// The lowest partner of a place of a state, and how many it has; 8 where the place cannot act.
pub fn partners(state: &[u8], place: u16) -> Result<PartnerCount, Refusal>
    ensures { result ≡ partners_answer (partners_bytes state.now place) }
{
    states::read_state(state)?;
    let root = &state[7..];
    let at = places::find(root, usize::from(place)).ok_or(Refusal::CannotAct)?;
    partners_at(root, at)
}
