// What the first element of a list is to a question.
ghost use Rattle.std.specs.Prelude.{◌≡◌, suc, ◌≤◌, ◌<◌, length};
ghost use Rattle.machine.specs.Limits.{absent};
ghost use Rattle.machine.specs.Elements.{Element, Elements, ◌before◌};
ghost use Rattle.machine.specs.Answers.{Want as Wish};
ghost use Rattle.machine.specs.Questions.{asks as asked, settled, note as noted};
ghost use Rattle.elements.specs.Spelled.{Spells, SpelledList};
ghost use Rattle.tallying.specs.Numbers.{question_of, tally_of, Sought, agrees, wanted_here};

use crate::{Question, Tally, Want};
use layouts::Layout;

// An action of the wanted kind and channel is wanted.
fn is_such(action: Layout, want: Want) -> bool
    ensures { result ≡ agrees want action }
{
    want.count == action.count && (want.target.is_none() || want.target == action.target)
}

// The first element is a blocked action that is wanted. Its tag and channel are compared before the rest of its action is read.
pub fn is_wanted(list: &[u8], want: Want) -> bool
    requires list_nonzero { 0 < length list.now }
    requires spelled_list { SpelledList list.now }
    ensures { (w : Wish) (E : Element) (C : Elements) → Sought want w → Spells list.now (E before C) → result ≡ wanted_here w E }
{
    if list[0] < 0x43 {
        return false;
    }
    if want.tag == list[3] {
        if want.channel == format::word(list, want.at) {
            return is_such(layouts::action_at(&list[3..]), want);
        }
    }
    false
}

// An answer at this offset counts.
fn counts(question: Question, at: usize) -> bool
    ensures { result ≡ asked (question_of question) at }
{
    if at < question.from {
        return false;
    }
    match question.to {
        None => true,
        Some(to) => at <= to,
    }
}

// Nothing more can change the answer to the question.
#[tactic(auto, unfolding(machine::specs::Questions::settled, machine::specs::Questions::only_once, crate::specs::Numbers::question_of, crate::specs::Numbers::tally_of))]
pub fn is_settled(question: Question, tally: Tally) -> bool
    ensures { result ≡ settled (question_of question) (tally_of tally) }
{
    question.once && 0 < tally.number
}

// The tally with one more answer, at this offset.
pub fn note(question: Question, tally: Tally, at: usize) -> Tally
    requires number_lt_absent { tally.number < absent }
    ensures { (tally_of result ≡ noted (question_of question) (tally_of tally) at) × (result.number ≤ suc tally.number) }
{
    if is_settled(question, tally) || !counts(question, at) {
        return tally;
    }
    Tally {
        lowest: tally.lowest.or(Some(at)),
        number: tally.number + 1,
    }
}
