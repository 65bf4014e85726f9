// What stands for an element that turns. Each function writes to the front of `out`; a field in the body of another is written to the part of it that is lent on.
#![tactic(auto)]

ghost use Rattle.std.specs.Prelude.{List, ◌++◌, ◌≡◌, ◌≤◌, ◌<◌, ◌+◌, length, set};
ghost use Rattle.calculus.specs.Processes.{Reference, Process, receive, rename, Action};
ghost use Rattle.machine.specs.Elements.{Element, process_element, only};
ghost use Rattle.format.specs.Spelling.{word_limit, encode};
ghost use Rattle.format.specs.Spellable.{Spellable};
ghost use Rattle.buffers.specs.Words.{field};
ghost use Rattle.elements.specs.Spelled.{Spells};
ghost use Rattle.elements.specs.Spelling.{encode_elements};
ghost use Rattle.substituting.specs.Substituting.{SpellsNames, Receiving};
ghost use Rattle.turning.specs.Turning.{given, turned, Takes, Suited, Turning};
ghost use Rattle.buffers.specs.Buffers.{Left};
ghost use Rattle.turning.specs.Parts.{SpellsProcess, SpellsAction, TurningProcess, Meeting};

use buffers::{append, start_field, write_field, write_header};
use substituting::substitute;

// Two processes, each in an element of its own.
fn split(first: &[u8], second: &[u8], out: &mut [u8]) -> usize
    requires second_in_bounds { 6 + (length first.now + length second.now) ≤ length out.old }
    requires second_len_bound { length first.now + length second.now < word_limit }
    ensures { Left (field 0x42 first.now ++ field 0x42 second.now) out.old out.new result }
{
    let n = write_field(out, 0x42, first);
    n + write_field(&mut out[n..], 0x42, second)
}

// An ambient that holds one process.
fn opened(called: &[u8], process: &[u8], out: &mut [u8]) -> usize
    requires process_in_bounds { 6 + (length called.now + length process.now) ≤ length out.old }
    requires process_bound { 3 + (length called.now + length process.now) < word_limit }
    ensures { Left (field 0x40 (called.now ++ field 0x42 process.now)) out.old out.new result }
{
    let len = 3 + (called.len() + process.len());
    let n = start_field(out, 0x40, len, called);
    n + write_field(&mut out[n..], 0x42, process)
}

// Two processes in parallel.
fn in_parallel(first: &[u8], second: &[u8], out: &mut [u8]) -> usize
    requires second_in_bounds { 3 + (length first.now + length second.now) ≤ length out.old }
    requires second_len_bound { length first.now + length second.now < word_limit }
    ensures { Left (field 0x21 (first.now ++ second.now)) out.old out.new result }
{
    let n = start_field(out, 0x21, first.len() + second.len(), first);
    append(second, out, n)
}

// An action, and behind it two processes in parallel.
fn behind_action(action: &[u8], first: &[u8], second: &[u8], out: &mut [u8]) -> usize
    requires second_in_bounds { 6 + (length action.now + (length first.now + length second.now)) ≤ length out.old }
    requires second_bound { 3 + (length action.now + (length first.now + length second.now)) < word_limit }
    ensures { Left (field 0x24 (action.now ++ field 0x21 (first.now ++ second.now)))
        out.old out.new result }
{
    let len = 3 + (action.len() + (first.len() + second.len()));
    let n = start_field(out, 0x24, len, action);
    n + in_parallel(first, second, &mut out[n..])
}

// A replication's action, and behind it the process beside the replication.
fn unfolded(action: &[u8], process: &[u8], replication: &[u8], out: &mut [u8]) -> usize
    requires replication_in_bounds { 9 + (length action.now + (length process.now + length replication.now)) ≤ length out.old }
    requires replication_bound { 6 + (length action.now + (length process.now + length replication.now)) < word_limit }
    ensures { Left (field 0x42 (field 0x24 (action.now ++ field 0x21 (process.now ++ replication.now))))
        out.old out.new result }
{
    let len = 6 + (action.len() + (process.len() + replication.len()));
    write_header(out, 0x42, len);
    3 + behind_action(action, process, replication, &mut out[3..])
}

// A process in an element of its own, with names for the variables of the binders that were around it.
fn received(process: &[u8], names: &[u8], out: &mut [u8]) -> usize
    requires receiving { Receiving process.now names.now 0 }
    requires process_in_bounds { 3 + length process.now ≤ length out.old }
    ensures { (ns : List Reference) (P : Process) → SpellsNames names.now ns → process.now ≡ encode P → Spellable (length ns) P
        → Left (field 0x42 (encode (rename (receive ns) P))) out.old out.new result }
{
    let end = write_field(out, 0x42, process);
    substitute(&mut out[3..end], 0, names);
    end
}

// The process behind an action, in an element of its own, with names for the variables that it binds.
fn met(acting: &[u8], names: &[u8], out: &mut [u8]) -> usize
    requires { Meeting acting.now names.now (length out.old) }
    ensures { (ns : List Reference) (α : Action) (P : Process) → SpellsNames names.now ns → SpellsAction acting.now α P → Takes ns α
        → Left (encode_elements (only (process_element (given ns α P)))) out.old out.new result }
{
    let end = 3 + format::word(acting, 1);
    let process = &acting[end..];
    if layouts::binders_of(acting) == 0 {
        return write_field(out, 0x42, process);
    }
    received(process, names, out)
}

// What stands for one process.
fn turn_process(process: &[u8], names: &[u8], out: &mut [u8], block: bool) -> usize
    requires { TurningProcess process.now names.now block (length out.old) }
    ensures { (ns : List Reference) (P : Process) → SpellsNames names.now ns → SpellsProcess process.now P → Suited block ns (process_element P)
        → Left (encode_elements (turned block ns (process_element P))) out.old out.new result }
{
    match process[0] {
        0x20 => 0,
        0x21 => {
            let mid = 6 + format::word(process, 4);
            split(&process[3..mid], &process[mid..], out)
        }
        0x22 => received(&process[3..], names, out),
        0x23 => opened(&process[3..5], &process[5..], out),
        0x24 if block => write_field(out, 0x43, &process[3..]),
        0x24 => met(&process[3..], names, out),
        _ => {
            let mid = 6 + format::word(process, 4);
            unfolded(&process[3..mid], &process[mid..], process, out)
        }
    }
}

// An ambient's bytes with the tag of a blocked one.
fn blocked_ambient(element: &[u8], out: &mut [u8]) -> usize
    requires element_nonzero { 0 < length element.now }
    requires element_in_bounds { length element.now ≤ length out.old }
    ensures { Left (set element.now 0 0x41) out.old out.new result }
{
    let end = append(element, out, 0);
    out[0] = 0x41;
    end
}

// What stands for one element, at the front of `out`, with names for its variables.
pub fn turn(element: &[u8], names: &[u8], out: &mut [u8], block: bool) -> usize
    requires { Turning element.now names.now block (length out.old) }
    ensures { (ns : List Reference) (E : Element) → SpellsNames names.now ns → Spells element.now (only E) → Suited block ns E
        → Left (encode_elements (turned block ns E)) out.old out.new result }
{
    match element[0] {
        ..0x42 => blocked_ambient(element, out),
        0x42 => turn_process(&element[3..], names, out, block),
        _ => met(&element[3..], names, out),
    }
}
