// Reads processes and actions spelled in fields, over the words and headers of `format` and the counts of `counting`. Assumes nothing of its input.
#![tactic(auto)]

ghost use Rattle.std.specs.Prelude.{◌≡◌, ◌+◌, ◌*◌, ◌<◌, drop};
ghost use Rattle.format.specs.Spelling.{word_limit};
ghost use Rattle.format.specs.Reading.{read_reference, read_references, read_spelled_count, read_action_parts, read_process, read_parts, read_acting, shape_of};
ghost use Rattle.format.specs.Answers.{answer, count_outcome};

use counting::{binder_count, handed};
use format::{Count, Cursor, FIRST_COUNTED, FIRST_VARIABLE, finish, header, remaining, wide, word};
use kinds::kind_row;
use machine::{COUNT_LIMIT, NAME_LIMIT};
use refusals::Refusal;

// The reference at the cursor: a name below `names`, or a variable of one of the binders.
pub fn reference(s: &[u8], c: Cursor, names: usize, binders: usize) -> Result<Cursor, Refusal>
    ensures { result ≡ answer c.at (read_reference names binders (drop c.at s.now)) }
{
    let at = c.at;
    if remaining(s, at) < 2 {
        return Err(Refusal::CutShort);
    }
    let v = word(s, at);
    if v < NAME_LIMIT {
        if v < names {
            return Ok(Cursor { at: at + 2 });
        }
        return Err(Refusal::OutOfRange);
    }
    if v < FIRST_VARIABLE {
        return Err(Refusal::OutOfRange);
    }
    if v - FIRST_VARIABLE < binders {
        return Ok(Cursor { at: at + 2 });
    }
    Err(Refusal::OutOfRange)
}

// As many references in a row.
fn references(
    s: &[u8],
    c: Cursor,
    count: usize,
    names: usize,
    binders: usize,
) -> Result<Cursor, Refusal>
    ensures { result ≡ answer c.at (read_references count names binders (drop c.at s.now)) }
{
    if count == 0 {
        return Ok(c);
    }
    let next = reference(s, c, names, binders)?;
    references(s, next, count - 1, names, binders)
}

// The count at the cursor, where it is spelled.
fn spelled_count(s: &[u8], c: Cursor) -> Result<Count, Refusal>
    ensures { result ≡ count_outcome c.at (read_spelled_count (drop c.at s.now)) }
{
    let at = c.at;
    if s.len() <= at {
        return Err(Refusal::CutShort);
    }
    let n = s[at];
    if n == 1 {
        return Err(Refusal::WrongCount);
    }
    if COUNT_LIMIT < n {
        return Err(Refusal::WrongCount);
    }
    Ok(Count {
        value: wide(n),
        next: Cursor { at: at + 1 },
    })
}

// The parts of an action of this tag, from the front of its body: target and channel, the count, the names. Where no count is spelled they are references in a row.
fn action_parts(s: &[u8], tag: u8, names: usize, binders: usize) -> Result<Cursor, Refusal>
    ensures { result ≡ answer 0 (read_action_parts tag names binders s.now) }
{
    let row = kind_row(tag);
    let first = Cursor { at: 0 };
    if tag < FIRST_COUNTED {
        return references(s, first, wide(row.references), names, binders);
    }
    let address = references(s, first, 1 + wide(row.directed), names, binders)?;
    let count = spelled_count(s, address)?;
    references(s, count.next, count.value * handed(row), names, binders)
}

// The process at the cursor, of at most this depth, with names below `names`, under no binder.
pub fn process(s: &[u8], c: Cursor, depth: u8, names: usize) -> Result<Cursor, Refusal>
    ensures { result ≡ answer c.at (read_process depth names 0 (drop c.at s.now)) }
{
    process_under(s, c, depth, names, 0)
}

// The action at the cursor and the process after it, which is of at most this depth, under no binder.
pub fn acting(s: &[u8], c: Cursor, depth: u8, names: usize) -> Result<Cursor, Refusal>
    ensures { result ≡ answer c.at (read_acting (read_process depth names) names 0 (drop c.at s.now)) }
{
    acting_under(s, c, depth, names, 0)
}

// The process at the cursor, under binders. Each level has as many more as one byte counts at most.
#[cycle(acting_under_parts_process_under)]
fn process_under(
    s: &[u8],
    c: Cursor,
    depth: u8,
    names: usize,
    binders: usize,
) -> Result<Cursor, Refusal>
    requires { 256 * depth + binders < 2 * word_limit }
    ensures { result ≡ answer c.at (read_process depth names binders (drop c.at s.now)) }
{
    let field = header(s, c, 0x20, 0x25)?;
    if depth == 0 {
        return Err(Refusal::TooDeep);
    }
    let start = field.start;
    let end = field.end;
    let body = &s[start..end];
    finish(
        parts(body, field.tag, depth - 1, names, binders),
        end - start,
        end,
    )
}

// The parts of a process of this tag, from the front of its body.
#[cycle(acting_under_parts_process_under)]
fn parts(s: &[u8], tag: u8, depth: u8, names: usize, binders: usize) -> Result<Cursor, Refusal>
    requires { 256 * (1 + depth) + binders < 2 * word_limit }
    ensures { result ≡ answer 0 (read_parts (shape_of tag) (read_process depth names) names binders s.now) }
{
    let c = Cursor { at: 0 };
    match tag {
        0x20 => Ok(c),
        0x21 => {
            let next = process_under(s, c, depth, names, binders)?;
            process_under(s, next, depth, names, binders)
        }
        0x22 => process_under(s, c, depth, names, binders + 1),
        0x23 => {
            let next = reference(s, c, names, binders)?;
            process_under(s, next, depth, names, binders)
        }
        _ => acting_under(s, c, depth, names, binders),
    }
}

// The action at the cursor, and the process after it, under binders.
#[cycle(acting_under_parts_process_under)]
fn acting_under(
    s: &[u8],
    c: Cursor,
    depth: u8,
    names: usize,
    binders: usize,
) -> Result<Cursor, Refusal>
    requires { 256 * (1 + depth) + binders < 2 * word_limit }
    ensures { result ≡ answer c.at (read_acting (read_process depth names) names binders (drop c.at s.now)) }
{
    let field = header(s, c, 0x30, 0x3B)?;
    let start = field.start;
    let end = field.end;
    let body = &s[start..end];
    let next = finish(
        action_parts(body, field.tag, names, binders),
        end - start,
        end,
    )?;
    let bound = binder_count(body, field.tag);
    process_under(s, next, depth, names, binders + bound)
}
