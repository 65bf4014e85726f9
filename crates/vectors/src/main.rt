// Runs the stored cases on standard input and prints for each group how many cases it has and how many differ. `reference/` makes them.
#![tactic(auto)]

use answers::LengthAnswer;
use comparing::Answer;
use groups::Group;
use std::io;
use std::io::Read;
use streams::read_full;

// The answer of a call that tells a refusal and a length.
fn of_length(told: LengthAnswer) -> Answer {
    Answer {
        refusal: told.refusal,
        length: told.length,
        ..Answer::default()
    }
}

// Steps at a place with a partner.
fn step(input: &[u8], place: u16, partner: u16, out: &mut [u8]) -> Answer {
    let stepped = cabinet::cabinet_step(input, place, partner, out);
    Answer {
        refusal: stepped.refusal,
        outcome: stepped.rule,
        length: stepped.length,
        ..Answer::default()
    }
}

// Runs with a budget.
fn run(input: &[u8], budget: u16, out: &mut [u8]) -> Answer {
    let ran = cabinet::cabinet_run(input, budget, out);
    Answer {
        refusal: ran.refusal,
        outcome: ran.ending,
        count: ran.steps,
        length: ran.length,
    }
}

// Weighs.
fn weigh(input: &[u8]) -> Answer {
    let weighed = cabinet::cabinet_weight(input);
    Answer {
        refusal: weighed.refusal,
        count: weighed.weight,
        ..Answer::default()
    }
}

// The partners of a place.
fn partners(input: &[u8], place: u16) -> Answer {
    let told = cabinet::cabinet_partners(input, place);
    Answer {
        refusal: told.refusal,
        outcome: told.lowest,
        count: told.count,
        ..Answer::default()
    }
}

// Makes a call by its number: 0 weight, 1 load, 2 list, 3 step with place and partner, 4 run with a budget, 5 write a job with F, 7 partners of a place, 8 sweep.
fn call_by_number(call: usize, input: &[u8], first: u16, second: u16, out: &mut [u8]) -> Answer {
    match call {
        0 => weigh(input),
        1 => of_length(cabinet::cabinet_load(input, out)),
        2 => of_length(cabinet::cabinet_list(input, out)),
        3 => step(input, first, second, out),
        4 => run(input, first, out),
        7 => partners(input, first),
        8 => of_length(cabinet::cabinet_sweep(input, out)),
        _ => of_length(cabinet::cabinet_write_job(first, input, out)),
    }
}

// Makes the call of a case, into as much of a buffer as the case has room.
fn make_call(header: &[u8], input: &[u8], out: &mut [u8]) -> Answer {
    let call = format::word(header, 2);
    let first = format::word(header, 6) as u16;
    let second = format::word(header, 8) as u16;
    let room = format::word(header, 10).min(out.len());
    call_by_number(call, input, first, second, &mut out[..room])
}

// Makes the call of a case. The numbers are those due. Call 6 is a list of accesses to the front panel, which has no numbers beside its bytes.
fn is_answered(header: &[u8], input: &[u8], out: &mut [u8]) -> bool {
    if format::word(header, 2) == 6 {
        playing::make_accesses(header, input, out);
        return true;
    }
    comparing::agrees(header, make_call(header, input, out))
}

// A case passes if the numbers are those due and the buffer holds the result, and behind it what it held before.
fn passes(header: &[u8], input: &[u8], res: &[u8]) -> bool {
    let mut out = [0xA5; 40960];
    let mut due = [0xA5; 40960];
    buffers::copy(res, &mut due);
    is_answered(header, input, &mut out) && comparing::same(&out, &due)
}

// The same, where the result is behind the input.
fn parts_pass(header: &[u8], parts: &[u8]) -> bool {
    let (input, res) = parts.split_at(format::word(header, 4).min(parts.len()));
    passes(header, input, res)
}

// Takes the input and the result of a case from a stream into a buffer. One that is cut short does not pass.
fn rest_passes<R: Read>(header: &[u8], parts: &mut [u8], stream: &mut R) -> io::Result<bool> {
    let due = format::word(header, 4) + format::word(header, 18);
    let whole = due.min(parts.len());
    if read_full(stream, &mut parts[..whole])? != whole {
        return Ok(false);
    }
    Ok(parts_pass(header, &parts[..whole]))
}

// Takes the next case from a stream, ten words, the input, the result: the number of its group, and whether it passes. Nothing where no case is left.
fn take_case<R: Read>(stream: &mut R) -> io::Result<Option<(usize, bool)>> {
    let mut header = [0; 20];
    if read_full(stream, &mut header)? == 0 {
        return Ok(None);
    }
    let mut parts = [0; 131072];
    let passed = rest_passes(&header, &mut parts, stream)?;
    Ok(Some((format::word(&header, 0), passed)))
}

// At most a million cases.
fn main(rt: HostRuntime) -> io::Result<()> {
    let mut input = rt.stdin();
    let mut out = rt.stdout();
    let mut group = Group::default();
    for _ in 0..1000000usize {
        let Some((number, passed)) = take_case(&mut input)? else {
            break;
        };
        group = groups::counted(groups::begun(group, number, &mut out)?, passed);
    }
    groups::print_group(group, &mut out)
}
