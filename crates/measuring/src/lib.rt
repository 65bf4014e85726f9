// Measures of spelled bytes: how many actions are blocked in a list, how deep its ambients nest, both of the contents of an ambient at an offset, and how deep a process is.
#![tactic(auto)]

ghost use Rattle.std.specs.Prelude.{◌≡◌, ◌≤◌, ◌*◌, length};
ghost use Rattle.calculus.specs.Processes.{Process};
ghost use Rattle.machine.specs.Elements.{Elements, depth, nesting, blocked_actions};
ghost use Rattle.format.specs.Spelling.{encode};
ghost use Rattle.format.specs.Spellable.{Counted};
ghost use Rattle.elements.specs.Spelled.{SpelledList};
ghost use Rattle.elements.specs.Spelling.{encode_elements};
ghost use Rattle.measuring.specs.Measuring.{Holding, Contents, GrowsBy, NestsBy, CountedProcess};

use elements::elements_of;

// How many blocked actions stand directly in a list.
fn blocked_count(list: &[u8]) -> usize
    requires { SpelledList list.now }
    ensures { ((A : Elements) → list.now ≡ encode_elements A → result ≡ blocked_actions A) × (3 * result ≤ length list.now) }
{
    elements_of(list)
        .filter(|element| element[0] == 0x43)
        .count()
}

// How deep ambients nest in a list.
fn nesting_depth(list: &[u8]) -> usize
    requires { SpelledList list.now }
    ensures { ((A : Elements) → list.now ≡ encode_elements A → result ≡ nesting A) × (result ≤ length list.now) }
{
    let mut deepest = 0usize;
    for element in elements_of(list) {
        if element[0] < 0x42 {
            deepest = deepest.max(1 + nesting_depth(&element[5..]));
        }
    }
    deepest
}

// Where the contents of the ambient at an offset end. They start five bytes behind the offset.
fn contents_end(list: &[u8], at: usize) -> usize
    requires { Holding list.now at }
    ensures { Contents list.now at result }
{
    let ambient = &list[at..];
    at + (3 + format::word(ambient, 1))
}

// How many bytes the ambient at an offset grows by when the blocked actions directly in it are unblocked.
pub fn growth(list: &[u8], at: usize) -> usize
    requires { Holding list.now at }
    ensures { GrowsBy list.now at result × (result ≤ length list.now) }
{
    let end = contents_end(list, at);
    let start = at + 5;
    3 * blocked_count(&list[start..end])
}

// How deep ambients nest in the ambient at an offset.
pub fn nested(list: &[u8], at: usize) -> usize
    requires { Holding list.now at }
    ensures { NestsBy list.now at result × (result ≤ length list.now) }
{
    let end = contents_end(list, at);
    let start = at + 5;
    nesting_depth(&list[start..end])
}

// The depth of a process.
pub fn process_depth(s: &[u8]) -> usize
    requires { CountedProcess s.now }
    ensures { ((P : Process) → s.now ≡ encode P → Counted P → result ≡ depth P) × (result ≤ length s.now) }
{
    let tag = s[0];
    if tag < 0x21 {
        return 1;
    }
    if tag == 0x21 {
        let mid = 6 + format::word(s, 4);
        let first = process_depth(&s[3..mid]);
        let second = process_depth(&s[mid..]);
        return 1 + first.max(second);
    }
    let inside = layouts::parts_of(s);
    let end = inside.end;
    1 + process_depth(&s[end..])
}
