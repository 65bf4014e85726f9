// A reader that holds its input and what it has reached in it, and is handed on by each part to the next, over the readers of `format`. Assumes nothing of its input.
#![tactic(auto)]

ghost use Rattle.std.specs.Prelude.{◌≡◌, take};
ghost use Rattle.reading.specs.Parts.{begun, entered, counted, passed, header_from, count_from, process_from, parts_by, whole_of};

use format::{Count, Cursor, Field};
use refusals::Refusal;

#[derive(Clone, Copy)]
pub struct Position {
    pub at: usize,
    // the end of the field around
    pub end: usize,
    // the count read last, below which names are, and the one before it; before any count, the least that the first may be
    pub names: usize,
    pub before: usize,
}

#[derive(Clone, Copy)]
pub struct Reader<'a> {
    pub source: &'a [u8],
    pub reached: Result<Position, Refusal>,
}

// The front of the bytes, before any part.
fn front(source: &[u8], least: usize) -> Result<Position, Refusal>
    ensures { result ≡ begun source.now least }
{
    Ok(Position {
        at: 0,
        end: source.len(),
        names: least,
        before: 0,
    })
}

// The bytes up to the end of a field.
pub fn up_to(source: &[u8], end: usize) -> &[u8]
    ensures { result.now ≡ take end source.now }
{
    if source.len() < end {
        return source;
    }
    &source[..end]
}

// Behind a header, in the field that it opens.
fn entered(p: Position, field: Result<Field, Refusal>) -> Result<Position, Refusal>
    ensures { result ≡ entered p field }
{
    let field = field?;
    Ok(Position {
        at: field.start,
        end: field.end,
        ..p
    })
}

// Behind a count.
fn counted(p: Position, count: Result<Count, Refusal>) -> Result<Position, Refusal>
    ensures { result ≡ counted p count }
{
    let count = count?;
    Ok(Position {
        at: count.next.at,
        names: count.value,
        before: p.names,
        ..p
    })
}

// Behind what counts nothing.
pub fn passed(p: Position, read: Result<Cursor, Refusal>) -> Result<Position, Refusal>
    ensures { result ≡ passed p read }
{
    let next = read?;
    Ok(Position { at: next.at, ..p })
}

// Nothing may be left in the field, or behind it.
pub fn whole(reached: Result<Position, Refusal>, size: usize) -> Result<Position, Refusal>
    ensures { result ≡ whole_of size reached }
{
    let p = reached?;
    if p.at == p.end {
        if p.end == size {
            return Ok(p);
        }
    }
    Err(Refusal::LeftOver)
}

impl<'a> Reader<'a> {
    // A reader at the front of the bytes, whose first count is at least this.
    pub fn start(source: &'a [u8], least: usize) -> Reader<'a>
        ensures { (result.source ≡ source.entry) × (result.reached ≡ begun source.now least) }
    {
        Reader {
            source,
            reached: front(source, least),
        }
    }

    // Behind a header of this tag.
    pub fn header(self, tag: u8) -> Reader<'a>
        ensures { (result.source ≡ self.entry.source) × (result.reached ≡ header_from self.entry.source.now self.entry.reached tag) }
    {
        Reader {
            reached: self.reached.and_then(|p| {
                let field = up_to(self.source, p.end);
                entered(p, format::header(field, Cursor { at: p.at }, tag, tag))
            }),
            ..self
        }
    }

    // Behind a count of at most `most`.
    pub fn count(self, most: usize) -> Reader<'a>
        ensures { (result.source ≡ self.entry.source) × (result.reached ≡ count_from self.entry.source.now self.entry.reached most) }
    {
        Reader {
            reached: self.reached.and_then(|p| {
                let field = up_to(self.source, p.end);
                counted(
                    p,
                    format::read_count(field, Cursor { at: p.at }, p.names, most),
                )
            }),
            ..self
        }
    }

    // Behind a process of at most this depth.
    pub fn process(self, depth: u8) -> Reader<'a>
        ensures { (result.source ≡ self.entry.source) × (result.reached ≡ process_from self.entry.source.now self.entry.reached depth) }
    {
        Reader {
            reached: self.reached.and_then(|p| {
                let field = up_to(self.source, p.end);
                passed(
                    p,
                    processes::process(field, Cursor { at: p.at }, depth, p.names),
                )
            }),
            ..self
        }
    }
}

// A field of this tag: a count from `least` to `most`, and a process behind it.
pub fn job(
    source: &[u8],
    tag: u8,
    least: usize,
    most: usize,
    depth: u8,
) -> Result<Position, Refusal>
    ensures { result ≡ parts_by process_from source.now tag least most depth }
{
    Reader::start(source, least)
        .header(tag)
        .count(most)
        .process(depth)
        .reached
}
