// The lines of a session, each written behind the `at` bytes of text that are there already; how many are there then.
#![tactic(auto)]

ghost use Rattle.std.specs.Prelude.{List, ◌++◌, ◌≡◌, ℕ, ◌+◌, ◌≤◌, length};
ghost use Rattle.buffers.specs.Buffers.{Left};
ghost use Rattle.lines.specs.Lines.{decimal, next_field, ending_text, last_line, refusal_line, line_limit};
ghost use Rattle.lines.specs.Endings.{ended_by, partner_shown, turn_line};

use advancing::{Ending, Turn};
use refusals::Numbered;

// Appends a number in decimal digits.
fn append_number(number: usize, text: &mut [u8], at: usize) -> usize
    requires { at + 20 ≤ length text.old }
    ensures { (result ≤ at + 20)
        × ((new old : List ℕ) → Left new old text.old at → Left (new ++ decimal number) old text.new result) }
{
    let mut digits = [0u8; 20];
    let n = io::decimal(number as u64, &mut digits);
    buffers::append(&digits[..n], text, at)
}

// Appends a space and a number.
fn append_field(number: usize, text: &mut [u8], at: usize) -> usize
    requires { at + 21 ≤ length text.old }
    ensures { (result ≤ at + 21)
        × ((new old : List ℕ) → Left new old text.old at → Left (new ++ next_field number) old text.new result) }
{
    let behind_space = buffers::append(b" ", text, at);
    append_number(number, text, behind_space)
}

// Appends the partner's place, or - for none.
fn append_partner(other: Option<usize>, text: &mut [u8], at: usize) -> usize
    requires { at + 20 ≤ length text.old }
    ensures { (result ≤ at + 20)
        × ((new old : List ℕ) → Left new old text.old at → Left (new ++ partner_shown other) old text.new result) }
{
    match other {
        None => buffers::append(b"-", text, at),
        Some(place) => append_number(place, text, at),
    }
}

// Appends blocked, spent or the number of a limit.
fn append_ending<E: Numbered>(ending: Ending<E>, text: &mut [u8], at: usize) -> usize
    requires { at + 20 ≤ length text.old }
    ensures { (result ≤ at + 20)
        × ((new old : List ℕ) → Left new old text.old at → Left (new ++ ending_text (ended_by E.told ending)) old text.new result) }
{
    match ending {
        Ending::Blocked => buffers::append(b"blocked", text, at),
        Ending::Spent => buffers::append(b"spent", text, at),
        Ending::Limit(refusal) => append_number(usize::from(refusal.told_number()), text, at),
    }
}

// Appends the line of a step: the place, the partner's place or -, the rule, how many partners there were.
pub fn append_step(turn: Turn, text: &mut [u8], at: usize) -> usize
    requires { at + line_limit ≤ length text.old }
    ensures { (result ≤ at + line_limit)
        × ((new old : List ℕ) → Left new old text.old at → Left (new ++ turn_line turn) old text.new result) }
{
    let behind_place = append_number(turn.place, text, at);
    let partner = buffers::append(b" ", text, behind_place);
    let behind_partner = append_partner(turn.other, text, partner);
    let behind_rule = append_field(usize::from(turn.rule), text, behind_partner);
    let end = append_field(turn.partners, text, behind_rule);
    buffers::append(b"\n", text, end)
}

// Appends the last line: the ending, the steps taken, the weight of the last state.
pub fn append_last<E: Numbered>(
    ending: Ending<E>,
    steps: usize,
    weight: usize,
    text: &mut [u8],
    at: usize,
) -> usize
    requires { at + line_limit ≤ length text.old }
    ensures { (new old : List ℕ) → Left new old text.old at → Left (new ++ last_line (ended_by E.told ending) steps weight) old text.new result }
{
    let behind_ending = append_ending(ending, text, at);
    let behind_steps = append_field(steps, text, behind_ending);
    let end = append_field(weight, text, behind_steps);
    buffers::append(b"\n", text, end)
}

// Appends the only line of a job that is refused.
pub fn append_refusal<E: Numbered>(refusal: E, text: &mut [u8], at: usize) -> usize
    requires { at + line_limit ≤ length text.old }
    ensures { (new old : List ℕ) → Left new old text.old at → Left (new ++ refusal_line (E.told refusal)) old text.new result }
{
    let end = append_number(usize::from(refusal.told_number()), text, at);
    buffers::append(b"\n", text, end)
}
