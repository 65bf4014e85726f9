// Reads jobs and states, in the order of their bytes. The public functions assume nothing of their input.
ghost use Rattle.std.specs.Prelude.{◌≡◌};
ghost use Rattle.reading.specs.Parts.{parts_by};
ghost use Rattle.states.specs.Reading.{read_job, parse_state, read_within, read_state};
ghost use Rattle.states.specs.Answers.{elements_from, rest_from, job_answer, state_answer};

use super::Names;
use format::Cursor;
use machine::{
    BYTE_LIMIT, FREE_NAME_LEAST, FREE_NAME_LIMIT, JOB_DEPTH_LIMIT, NAME_LIMIT, NESTING_LIMIT,
};
use reading::{Position, Reader};
use refusals::Refusal;

// A job, with refusals 1 to 6 and 14. The cabinet's name is one of its free names.
pub fn read_job(s: &[u8]) -> Result<usize, Refusal>
    ensures { result ≡ job_answer (read_job s.now) }
{
    if BYTE_LIMIT < s.len() {
        return Err(Refusal::TooLong);
    }
    let reached = reading::job(s, 0x10, FREE_NAME_LEAST, FREE_NAME_LIMIT, JOB_DEPTH_LIMIT);
    let p = reading::whole(reached, s.len())?;
    Ok(p.names)
}

// Behind elements to the end of the field.
fn read_elements<'a>(r: Reader<'a>, nest: u8) -> Reader<'a>
    ensures { (result.source ≡ r.entry.source) × (result.reached ≡ elements_from r.entry.source.now r.entry.reached nest) }
{
    Reader {
        reached: r.reached.and_then(|p| {
            let field = reading::up_to(r.source, p.end);
            let read = contents::elements(field, Cursor { at: p.at }, nest, p.names, false);
            reading::passed(p, read)
        }),
        ..r
    }
}

// N and the elements of a state, from behind F.
fn read_rest<'a>(r: Reader<'a>, nest: u8) -> Reader<'a>
    ensures { (result.source ≡ r.entry.source) × (result.reached ≡ rest_from r.entry.source.now r.entry.reached nest) }
{
    read_elements(r.count(NAME_LIMIT), nest)
}

// The header, F, and the rest behind it.
fn state(source: &[u8], tag: u8, least: usize, most: usize, nest: u8) -> Result<Position, Refusal>
    ensures { result ≡ parts_by rest_from source.now tag least most nest }
{
    read_rest(Reader::start(source, least).header(tag).count(most), nest).reached
}

// A state, with refusals 1 to 6 and 14, with ambients nested at most so deep.
fn parse_state(s: &[u8], nest: u8) -> Result<Names, Refusal>
    ensures { result ≡ state_answer (parse_state nest s.now) }
{
    if BYTE_LIMIT < s.len() {
        return Err(Refusal::TooLong);
    }
    let reached = state(s, 0x11, 0, FREE_NAME_LIMIT, nest);
    let p = reading::whole(reached, s.len())?;
    Ok(Names {
        free: p.before,
        next: p.names,
    })
}

// A state, with refusals 1 to 7 and 14, with ambients nested at most so deep.
pub fn read_within(s: &[u8], nest: u8) -> Result<Names, Refusal>
    ensures { result ≡ state_answer (read_within nest s.now) }
{
    let names = parse_state(s, nest)?;
    if searching::paired(&s[7..]) {
        return Err(Refusal::BlockedPair);
    }
    Ok(names)
}

// A state as every call but the listing reads it.
pub fn read_state(s: &[u8]) -> Result<Names, Refusal>
    ensures { result ≡ state_answer (read_state s.now) }
{
    read_within(s, NESTING_LIMIT)
}
