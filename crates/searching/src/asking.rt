// The engine: where the answers to an action stand, and what they have to be.
ghost use Rattle.std.specs.Prelude.{true, false, ◌≡◌, ◌<◌, ltb};
ghost use Rattle.machine.specs.Elements.{Elements};
ghost use Rattle.machine.specs.Questions.{every, is_one};
ghost use Rattle.layouts.specs.Layouts.{layout_of};
ghost use Rattle.elements.specs.Spelling.{encode_elements};
ghost use Rattle.tallying.specs.Numbers.{question_of, tally_numbers, wanted_by, Beside};
ghost use Rattle.searching.specs.Lists.{ListAt, span_of, Enclosed, Acting};
ghost use Rattle.searching.specs.Asking.{OfAction, asked, Asked, DirectlyAt, AmbientsAt};

use crate::Span;
use layouts::{Layout, Standing};
use looking::{tally_among, tally_in};
use places::Spot;
use tallying::{Question, Tally, Want};

// Where a list stands: the root list where no ambient is around, otherwise the contents of the ambient at the offset `ambient`.
fn span_of(list: &[u8], level: usize, ambient: usize) -> Span
    requires { Enclosed list.now level ambient }
    ensures { (L B : Elements) → list.now ≡ encode_elements L → ListAt L level ambient B → result ≡ span_of level ambient B }
{
    if level == 0 {
        return Span {
            start: 0,
            end: list.len(),
        };
    }
    let rest = &list[ambient..];
    Span {
        start: ambient + 5,
        end: ambient + (3 + format::word(rest, 1)),
    }
}

// The answers directly in such a list.
fn directly(list: &[u8], level: usize, ambient: usize, want: Want, question: Question) -> Tally
    requires { Enclosed list.now level ambient }
    ensures { DirectlyAt list.now level ambient want question result }
{
    let span = span_of(list, level, ambient);
    let start = span.start;
    let end = span.end;
    tally_in(&list[start..end], start, want, question)
}

// The answers in the ambients of such a list.
fn in_ambients(
    list: &[u8],
    level: usize,
    ambient: usize,
    skip: Option<usize>,
    name: Option<usize>,
    want: Want,
    question: Question,
) -> Tally
    requires { Enclosed list.now level ambient }
    ensures { AmbientsAt list.now level ambient skip name want question result }
{
    let span = span_of(list, level, ambient);
    let start = span.start;
    let end = span.end;
    tally_among(&list[start..end], start, skip, name, want, question)
}

// The action at a spot, to be executed or blocked.
fn doing(list: &[u8], spot: Spot) -> Layout
    requires { Acting list.now spot }
    ensures { OfAction list.now spot (λ L π α. result ≡ layout_of α) }
{
    let at = spot.at;
    let element = &list[at..];
    if element[0] == 0x42 {
        return layouts::action_at(&element[6..]);
    }
    layouts::action_at(&element[3..])
}

// What answers an action, where the answer has to name this ambient, or none for any.
fn wanted(action: Layout, target: Option<usize>) -> Want
    ensures { result ≡ wanted_by action target }
{
    Want {
        tag: action.answer,
        at: action.opposite,
        channel: action.channel,
        count: action.count,
        target,
    }
}

// The answers to the action at a spot in the ambients beside the one that holds it.
fn ask_beside(list: &[u8], spot: Spot, action: Layout, question: Question) -> Tally
    requires acting { Acting list.now spot }
    requires level_nonzero { 0 < spot.level }
    ensures { OfAction list.now spot (λ L π α. Beside α action → result ≡ tally_numbers (asked (question_of question) L π α)) }
{
    let level = spot.level - 1;
    // an action that goes to no ambient is answered by one that goes to its own
    let holder = match action.target {
        None => Some(format::word(&list[spot.within..], 3)),
        Some(_) => None,
    };
    let want = wanted(action, holder);
    in_ambients(
        list,
        level,
        spot.around,
        Some(spot.within),
        action.target,
        want,
        question,
    )
}

// A leave or a release, which meet only inside an ambient, where no ambient is around the list in which it would be answered.
fn is_shut(action: Layout, level: usize) -> bool
    ensures shut { result ≡ true → (40 < action.rule) × (level ≡ 0) }
    ensures open { result ≡ false → 40 < action.rule → 0 < level }
{
    40 < action.rule && level == 0
}

// The answers to the action at a spot. Outside every ambient only an internal input has any, and a leave and a release meet only inside an ambient.
pub fn ask(list: &[u8], spot: Spot, question: Question) -> Tally
    requires { Acting list.now spot }
    ensures { Asked list.now spot (question_of question) result }
{
    let none = Tally {
        lowest: None,
        number: 0,
    };
    let action = doing(list, spot);
    let want = wanted(action, None);
    match action.standing {
        Standing::Child => {
            if is_shut(action, spot.level) {
                return none;
            }
            in_ambients(list, spot.level, spot.within, None, None, want, question)
        }
        Standing::Sibling => {
            if spot.level == 0 {
                return none;
            }
            ask_beside(list, spot, action, question)
        }
        Standing::Outside => {
            if spot.level == 0 || is_shut(action, spot.level - 1) {
                return none;
            }
            directly(list, spot.level - 1, spot.around, want, question)
        }
    }
}

// The lowest answer, and how many there are. Where it leaves at the first, 1 stands for any number.
pub fn count_answers(list: &[u8], spot: Spot, once: bool) -> Tally
    requires { Acting list.now spot }
    ensures { Asked list.now spot (every once) result }
{
    ask(
        list,
        spot,
        Question {
            from: 0,
            to: None,
            once,
        },
    )
}

// Whether what stands at the offset `at` is an answer.
pub fn is_one(list: &[u8], spot: Spot, at: usize) -> bool
    requires { Acting list.now spot }
    ensures { OfAction list.now spot (λ L π α. result ≡ ltb 0 (asked (is_one at) L π α).number) }
{
    let tally = ask(
        list,
        spot,
        Question {
            from: at,
            to: Some(at),
            once: true,
        },
    );
    0 < tally.number
}
