// Which ambients go, how long the list is without them, and the list written without them, by the table of names.
#![tactic(auto)]

ghost use Rattle.std.specs.Prelude.{◌≡◌, ◌+◌, ◌≤◌, ◌<◌, length};
ghost use Rattle.calculus.specs.Processes.{name};
ghost use Rattle.machine.specs.Elements.{Elements, Element, only};
ghost use Rattle.format.specs.Reading.{word_at};
ghost use Rattle.format.specs.Spelling.{word_limit};
ghost use Rattle.buffers.specs.Buffers.{Left};
ghost use Rattle.elements.specs.Spelling.{encode_elements};
ghost use Rattle.elements.specs.Spelled.{Spells, SpelledList};
ghost use Rattle.removals.specs.Sweeping.{sweep_by};
ghost use Rattle.clearing.specs.Clears.{is_cleared_by, width_left, AmbientKept, SpelledElement, Clearable, ElementClearable};

use elements::elements_of;

// Whether an ambient of this name may be removed where it is empty.
#[tactic(auto, unfolding(crate::specs::Clears::is_cleared_by))]
fn is_cleared(number: usize, free: usize, table: &[u8]) -> bool
    ensures { result ≡ is_cleared_by free table.now (name number) }
{
    number >= free && table.get(number) == Some(&1)
}

// How many bytes an ambient of this name takes with `n` bytes of its contents left.
#[tactic(auto, unfolding(crate::specs::Clears::width_left))]
fn width_left(n: usize, number: usize, free: usize, table: &[u8]) -> usize
    requires { n < word_limit }
    ensures { result ≡ width_left (is_cleared_by free table.now (name number)) n }
{
    if n == 0 && is_cleared(number, free, table) {
        return 0;
    }
    5 + n
}

// How many bytes are left of an element.
#[cycle(element_left_list_left)]
fn element_left(element: &[u8], free: usize, table: &[u8]) -> usize
    requires { SpelledElement element.now }
    ensures { (E : Element) → Spells element.now (only E) → result ≡ length (encode_elements (sweep_by (is_cleared_by free table.now) (only E))) }
{
    if element[0] < 0x42 {
        let n = list_left(&element[5..], free, table);
        return width_left(n, format::word(element, 3), free, table);
    }
    element.len()
}

// How many bytes are left of a list.
#[cycle(element_left_list_left)]
pub fn list_left(list: &[u8], free: usize, table: &[u8]) -> usize
    requires { SpelledList list.now }
    ensures { (A : Elements) → Spells list.now A → result ≡ length (encode_elements (sweep_by (is_cleared_by free table.now) A)) }
{
    let mut left = 0;
    for element in elements_of(list) {
        left += element_left(element, free, table);
    }
    left
}

// The header and the name of an ambient in front of `n` bytes of its contents, if it is kept; how many bytes it takes.
fn keep_ambient(ambient: &[u8], n: usize, free: usize, table: &[u8], out: &mut [u8]) -> usize
    requires in_bounds { 5 ≤ length ambient.now }
    requires n_bound { 2 + n < word_limit }
    requires n_in_bounds { width_left (is_cleared_by free table.now (name (word_at ambient.now 3))) n ≤ length out.old }
    ensures { AmbientKept ambient.now n (width_left (is_cleared_by free table.now (name (word_at ambient.now 3))) n) out.old out.new result }
{
    let width = width_left(n, format::word(ambient, 3), free, table);
    if width == 0 {
        return 0;
    }
    buffers::start_field(out, ambient[0], 2 + n, &ambient[3..5]);
    width
}

// What is left of an element, at the front of `out`. Of an ambient the contents come first, behind room for its header and its name; where there is no such room, nothing is left of it.
#[cycle(sweep_element_sweep_list)]
fn sweep_element(element: &[u8], free: usize, table: &[u8], out: &mut [u8]) -> usize
    requires { ElementClearable element.now free table.now (length out.old) }
    ensures { (E : Element) → Spells element.now (only E)
        → Left (encode_elements (sweep_by (is_cleared_by free table.now) (only E))) out.old out.new result }
{
    if element[0] > 0x41 {
        return buffers::append(element, out, 0);
    }
    let front = out.len().min(5);
    let n = sweep_list(&element[5..], free, table, &mut out[front..]);
    keep_ambient(element, n, free, table, out)
}

// What is left of a list, at the front of `out`.
#[cycle(sweep_element_sweep_list)]
pub fn sweep_list(list: &[u8], free: usize, table: &[u8], out: &mut [u8]) -> usize
    requires { Clearable list.now free table.now (length out.old) }
    ensures { (A : Elements) → Spells list.now A
        → Left (encode_elements (sweep_by (is_cleared_by free table.now) A)) out.old out.new result }
{
    let mut done = 0;
    for element in elements_of(list) {
        done += sweep_element(element, free, table, &mut out[done..]);
    }
    done
}
