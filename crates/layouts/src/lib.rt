// Where the parts of an action and of a process stand in the bytes that spell it, by the table of kinds.
#![tactic(auto)]

ghost use Rattle.std.specs.Prelude.{◌≡◌, List, ◌++◌, ℕ, ◌+◌, ◌*◌, ◌≤◌, ◌<◌, length, get_or};
ghost use Rattle.calculus.specs.Processes.{Action, Process, binders};
ghost use Rattle.machine.specs.Kinds.{Standing as Stands, rule_of, answering, kind_of, kind_number};
ghost use Rattle.format.specs.Kinds.{directed_of, action_tag, spelled_count, standing_number};
ghost use Rattle.format.specs.Spelling.{word_limit, encode_action, encode};
ghost use Rattle.format.specs.Spellable.{Counted};
ghost use Rattle.layouts.specs.Layouts.{SpelledAction, standing_answer, target_of, layout_of, extent_of, SpelledProcess, Laid};
ghost use Rattle.layouts.specs.Openings.{form_of, form_answer, Opening, whole, encode_opening, SpelledOpening, opened_of};

use counting::{binder_count, count_in};
use format::{FIRST_COUNTED, wide, word};
use kinds::{Row, kind_row};

// Where the answer to an action stands: directly in an ambient beside the one that holds the action, directly in the list around that ambient, or directly in an ambient beside the action.
#[derive(Clone, Copy)]
pub enum Standing {
    Sibling,
    Outside,
    Child,
}

// What the bytes of an action say.
#[derive(Clone, Copy)]
pub struct Layout {
    // the tag of the actions that answer it, where their channel stands in the element of a blocked one, and where they stand
    pub answer: u8,
    pub opposite: usize,
    pub standing: Standing,
    // the rule by which it meets a blocked partner
    pub rule: u8,
    // the ambient that it goes to, if it goes to one
    pub target: Option<usize>,
    pub channel: usize,
    // how many names it hands over or takes
    pub count: usize,
}

// Of an action: its rule, where the names that it hands over start, and where the process behind it starts.
#[derive(Clone, Copy)]
pub struct Extent {
    pub rule: u8,
    pub sent: usize,
    pub end: usize,
}

// Of a process: its references from `start` to `middle` and from `next` to `end`, and how many variables it binds in the process behind them.
#[derive(Clone, Copy)]
pub struct Inside {
    pub start: usize,
    pub middle: usize,
    pub next: usize,
    pub end: usize,
    pub bound: usize,
}

// Of the opening of a field: its references from 3 to `middle` and from `next` to `end`, where the next opening starts.
#[derive(Clone, Copy)]
pub struct Opened {
    pub middle: usize,
    pub next: usize,
    pub end: usize,
}

// Where the channel of an action of this row stands: behind its header, and behind its target where it has one.
fn channel_place(row: Row) -> usize
    ensures { (result ≡ 3 + 2 * row.directed) × (result < word_limit) }
{
    3 + 2 * wide(row.directed)
}

// How many bytes the count of an action of this tag takes.
fn count_width(tag: u8) -> usize
    ensures { ((α : Action) → tag ≡ action_tag α → result ≡ length (spelled_count α)) × (result ≤ 1) }
{
    if tag < FIRST_COUNTED {
        return 0;
    }
    1
}

// The rule by which an action of a kind meets a blocked partner: from 35 on two for each sender or mover, whose kind is below its answer's.
fn rule_by(kind: u8, answer: u8) -> u8
    requires { (kind < 8) × (answer < 8) }
    ensures { (α : Action) → kind ≡ kind_number (kind_of α) → answer ≡ kind_number (answering (kind_of α)) → result ≡ rule_of α }
{
    if kind < answer {
        return 35 + (kind + kind % 4);
    }
    36 + (answer + answer % 4)
}

// The same of an action of this tag.
pub fn rule_of(tag: u8) -> u8
    ensures { (α : Action) → tag ≡ action_tag α → result ≡ rule_of α }
{
    rule_by(tag % 8, kind_row(tag).answer)
}

// Where the answer stands, by the number in the table of kinds.
fn standing_of(number: u8) -> Standing
    ensures { (d : Stands) → number ≡ standing_number d → result ≡ standing_answer d }
{
    match number {
        0 => Standing::Sibling,
        1 => Standing::Outside,
        _ => Standing::Child,
    }
}

// The ambient that the action at the front goes to, where its row says so.
fn target_at(s: &[u8], directed: u8) -> Option<usize>
    ensures { (α : Action) (rest : List ℕ) → s.now ≡ encode_action α ++ rest → directed ≡ directed_of (kind_of α) → result ≡ target_of α }
{
    if directed == 0 {
        return None;
    }
    Some(word(s, 3))
}

// What the bytes of the action at the front say.
pub fn action_at(s: &[u8]) -> Layout
    requires { SpelledAction s.now }
    ensures { (α : Action) (rest : List ℕ) → s.now ≡ encode_action α ++ rest → result ≡ layout_of α }
{
    let tag = s[0];
    let row = kind_row(tag);
    let other = kind_row(row.answer);
    Layout {
        answer: tag - tag % 8 + row.answer,
        opposite: 3 + channel_place(other),
        standing: standing_of(row.standing),
        rule: rule_by(tag % 8, row.answer),
        target: target_at(s, row.directed),
        channel: word(s, channel_place(row)),
        count: count_in(&s[3..], tag),
    }
}

// Its rule, where the names that it hands over start, and where it ends.
pub fn extent_of(s: &[u8]) -> Extent
    requires { SpelledAction s.now }
    ensures { ((α : Action) (rest : List ℕ) → s.now ≡ encode_action α ++ rest → result ≡ extent_of α) × (result.end < 3 + word_limit) × (result.sent < 3 + word_limit) }
{
    let tag = s[0];
    let row = kind_row(tag);
    Extent {
        rule: rule_by(tag % 8, row.answer),
        sent: channel_place(row) + 2 + count_width(tag),
        end: 3 + word(s, 1),
    }
}

// The form of the opening of a field: a header alone, a header and the name of an ambient, or an action.
#[derive(Clone, Copy, PartialEq, Eq)]
pub enum Form {
    Bare,
    Naming,
    Acting,
}

// The form of the opening of a field of this tag.
#[tactic(auto, using(crate::proofs::Openings::form_ambient, crate::proofs::Openings::form_process, crate::proofs::Openings::form_action, crate::proofs::Openings::form_box, crate::proofs::Openings::form_element), unfolding(crate::specs::Openings::form_answer))]
pub fn form_of(tag: u8) -> Form
    ensures { result ≡ form_answer (form_of tag) }
{
    match tag {
        0x23 | 0x40..=0x41 => Form::Naming,
        0x30..=0x3F => Form::Acting,
        _ => Form::Bare,
    }
}

// The opening of a field whose references end at `end`, with no count between them.
fn opened_to(end: usize) -> Opened
    ensures { (result.middle ≡ end) × (result.next ≡ end) × (result.end ≡ end) }
{
    Opened {
        middle: end,
        next: end,
        end,
    }
}

// The opening that is the whole of the action at the front.
fn opened_action(s: &[u8]) -> Opened
    requires { SpelledAction s.now }
    ensures { ((α : Action) (rest : List ℕ) → s.now ≡ encode_action α ++ rest → result ≡ opened_of (whole α)) × (result.middle < 3 + word_limit) × (result.next < 3 + word_limit) × (result.end < 3 + word_limit) }
{
    let extent = extent_of(s);
    let next = extent.sent;
    Opened {
        middle: next - count_width(s[0]),
        next,
        end: extent.end,
    }
}

// Where the references of the opening at the front stand.
pub fn opening_of(s: &[u8]) -> Opened
    requires { SpelledOpening s.now }
    ensures { (o : Opening) (rest : List ℕ) → s.now ≡ encode_opening o ++ rest → result ≡ opened_of o }
{
    match form_of(s[0]) {
        Form::Bare => opened_to(3),
        Form::Naming => opened_to(5),
        Form::Acting => opened_action(s),
    }
}

// How many variables it binds in the process behind it.
pub fn binders_of(s: &[u8]) -> usize
    requires { SpelledAction s.now }
    ensures { (α : Action) (rest : List ℕ) → s.now ≡ encode_action α ++ rest → result ≡ binders α }
{
    binder_count(&s[3..], s[0])
}

// The parts of a process that is neither null nor a parallel.
pub fn parts_of(s: &[u8]) -> Inside
    requires spelled_process { SpelledProcess s.now }
    requires bound { 0x21 < get_or s.now 0 0 }
    ensures { (P : Process) → s.now ≡ encode P → Counted P → Laid s.now P result.start result.middle result.next result.end result.bound }
{
    let tag = s[0];
    if tag == 0x22 {
        return Inside {
            start: 3,
            middle: 3,
            next: 3,
            end: 3,
            bound: 1,
        };
    }
    if tag == 0x23 {
        return Inside {
            start: 3,
            middle: 5,
            next: 5,
            end: 5,
            bound: 0,
        };
    }
    let action = &s[3..];
    let opened = opened_action(action);
    Inside {
        start: 6,
        middle: 3 + opened.middle,
        next: 3 + opened.next,
        end: 3 + opened.end,
        bound: binders_of(action),
    }
}
