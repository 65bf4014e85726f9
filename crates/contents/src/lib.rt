// Reads elements, in the order of their bytes: siblings by a loop, what is in an ambient by recursion. Assumes nothing of its input.
#![tactic(auto)]

ghost use Rattle.std.specs.Prelude.{◌≡◌, drop};
ghost use Rattle.format.specs.Answers.{answer, field_at};
ghost use Rattle.contents.specs.Reading.{open_element, read_element, element_parts, element_shape, read_elements, read_ambient};
ghost use Rattle.contents.specs.Answers.{status_of};

use format::{Cursor, Field};
use machine::{BLOCKED_DEPTH_LIMIT, STATE_DEPTH_LIMIT};
use refusals::Refusal;

// The header of the element at the cursor; in a blocked ambient only 41 and 43 are due.
fn element_header(s: &[u8], c: Cursor, blocked: bool) -> Result<Field, Refusal>
    ensures { result ≡ field_at c.at (open_element (status_of blocked) (drop c.at s.now)) }
{
    if blocked {
        let at = c.at;
        if format::remaining(s, at) < 3 {
            return Err(Refusal::CutShort);
        }
        if s[at] == 0x42 {
            return Err(Refusal::WrongTag);
        }
        return format::header(s, c, 0x41, 0x43);
    }
    format::header(s, c, 0x40, 0x43)
}

// Elements from the cursor to the end of the slice.
#[cycle(ambient_element_element_parts_elements)]
pub fn elements(
    s: &[u8],
    c: Cursor,
    nest: u8,
    names: usize,
    blocked: bool,
) -> Result<Cursor, Refusal>
    ensures { result ≡ answer c.at (read_elements (read_ambient nest names) (status_of blocked) names (drop c.at s.now)) }
{
    let mut next = c;
    while next.at < s.len() {
        next = element(s, next, nest, names, blocked)?;
    }
    Ok(next)
}

#[cycle(ambient_element_element_parts_elements)]
fn element(s: &[u8], c: Cursor, nest: u8, names: usize, blocked: bool) -> Result<Cursor, Refusal>
    ensures { result ≡ answer c.at (read_element (read_ambient nest names) (status_of blocked) names (drop c.at s.now)) }
{
    let field = element_header(s, c, blocked)?;
    let start = field.start;
    let end = field.end;
    let body = &s[start..end];
    format::finish(
        element_parts(body, field.tag, nest, names),
        end - start,
        end,
    )
}

// The parts of an element of this tag, from the front of its body.
#[cycle(ambient_element_element_parts_elements)]
fn element_parts(s: &[u8], tag: u8, nest: u8, names: usize) -> Result<Cursor, Refusal>
    ensures { result ≡ answer 0 (element_parts (element_shape tag) (read_ambient nest names) names s.now) }
{
    let c = Cursor { at: 0 };
    match tag {
        0x40 => ambient(s, nest, names, false),
        0x41 => ambient(s, nest, names, true),
        0x42 => processes::process(s, c, STATE_DEPTH_LIMIT, names),
        _ => processes::acting(s, c, BLOCKED_DEPTH_LIMIT, names),
    }
}

// The body of an ambient: its name and its contents.
#[cycle(ambient_element_element_parts_elements)]
fn ambient(s: &[u8], nest: u8, names: usize, blocked: bool) -> Result<Cursor, Refusal>
    ensures { result ≡ answer 0 (read_ambient nest names (status_of blocked) s.now) }
{
    if nest == 0 {
        return Err(Refusal::TooDeep);
    }
    let next = processes::reference(s, Cursor { at: 0 }, names, 0)?;
    elements(s, next, nest - 1, names, blocked)
}
