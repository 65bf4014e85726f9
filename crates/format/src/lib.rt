// The words, headers and counts of fields: a tag byte, two length bytes, a body. Assumes nothing of its input.
#![tactic(auto)]

ghost use Rattle.std.specs.Prelude.{◌≡◌, ◌+◌, ◌-◌, ◌*◌, ◌≤◌, ◌<◌, length, drop};
ghost use Rattle.format.specs.Spelling.{word_limit};
ghost use Rattle.format.specs.Reading.{word_at, open_field, read_count};
ghost use Rattle.format.specs.Answers.{field_at, finish_at, count_outcome};

use refusals::Refusal;

// The number of the innermost variable.
pub const FIRST_VARIABLE: usize = 32768;

// The first of the tags with a count.
pub const FIRST_COUNTED: u8 = 0x38;

// A position in a slice, handed on by each field to the next.
#[derive(Clone, Copy)]
pub struct Cursor {
    pub at: usize,
}

// A field: its tag, and where its body starts and ends.
#[derive(Clone, Copy)]
pub struct Field {
    pub tag: u8,
    pub start: usize,
    pub end: usize,
}

// A count, and the position behind it.
#[derive(Clone, Copy)]
pub struct Count {
    pub value: usize,
    pub next: Cursor,
}

pub fn wide(x: u8) -> usize
    ensures { (result ≡ x) × (result < 256) }
{
    x as usize
}

// The two bytes at a position, the most significant first; 0 stands for a byte past the end.
pub fn word(s: &[u8], at: usize) -> usize
    ensures { (result ≡ word_at s.now at) × (result < word_limit) }
{
    let n = s.len();
    if n <= at {
        return 0;
    }
    let high = wide(s[at]) * 256;
    if n - at < 2 {
        return high;
    }
    high + wide(s[at + 1])
}

// The same where both bytes are known to be there.
pub fn word_within(s: &[u8], at: usize) -> usize
    requires { at + 2 ≤ length s.now }
    ensures { (result ≡ word_at s.now at) × (result < word_limit) }
{
    wide(s[at]) * 256 + wide(s[at + 1])
}

// How many bytes are left from a position on.
pub fn remaining(s: &[u8], at: usize) -> usize
    ensures { result ≡ length s.now - at }
{
    s.len().saturating_sub(at)
}

// The field at the cursor, whose tag must be from `low` to `high`.
pub fn header(s: &[u8], c: Cursor, low: u8, high: u8) -> Result<Field, Refusal>
    ensures { result ≡ field_at c.at (open_field low high (drop c.at s.now)) }
{
    let at = c.at;
    let left = remaining(s, at);
    if left < 3 {
        return Err(Refusal::CutShort);
    }
    let tag = s[at];
    if tag < low {
        return Err(Refusal::WrongTag);
    }
    if high < tag {
        return Err(Refusal::WrongTag);
    }
    let len = word(s, at + 1);
    if left - 3 < len {
        return Err(Refusal::CutShort);
    }
    Ok(Field {
        tag,
        start: at + 3,
        end: at + 3 + len,
    })
}

// What a field's parts say of the whole field, which ends at `end`: bytes left over in it are refused.
pub fn finish(inner: Result<Cursor, Refusal>, len: usize, end: usize) -> Result<Cursor, Refusal>
    ensures { result ≡ finish_at inner len end }
{
    let reached = inner?;
    if reached.at == len {
        return Ok(Cursor { at: end });
    }
    Err(Refusal::LeftOver)
}

// The count at the cursor, from `least` to `most`.
pub fn read_count(s: &[u8], c: Cursor, least: usize, most: usize) -> Result<Count, Refusal>
    ensures { result ≡ count_outcome c.at (read_count least most (drop c.at s.now)) }
{
    let at = c.at;
    if remaining(s, at) < 2 {
        return Err(Refusal::CutShort);
    }
    let v = word(s, at);
    if v < least {
        return Err(Refusal::OutOfRange);
    }
    if most < v {
        return Err(Refusal::OutOfRange);
    }
    Ok(Count {
        value: v,
        next: Cursor { at: at + 2 },
    })
}
