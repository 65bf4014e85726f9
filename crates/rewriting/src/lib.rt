// What a plan is, what it makes of a list, and the pieces that are written for it, on the bytes of an accepted state. `applying` goes through the list.
#![tactic(auto)]

ghost use Rattle.std.specs.Prelude.{[], ◌∷◌, ◌++◌, ◌≡◌, ◌≤◌, ◌<◌, ◌+◌, length, take, drop};
ghost use Rattle.machine.specs.Tests.{pick};
ghost use Rattle.buffers.specs.Words.{word, field};
ghost use Rattle.format.specs.Spelling.{word_limit};
ghost use Rattle.buffers.specs.Buffers.{Left};
ghost use Rattle.rewriting.specs.Editing.{stands_at, marked, between, holds};

// What a step changes, by offsets from the first byte of the state: the elements that are turned, the ambient that is taken out, and the element behind which it is set down.
#[derive(Clone, Copy)]
pub struct Plan {
    pub first: usize,
    pub second: Option<usize>,
    pub cut: Option<usize>,
    pub after: Option<usize>,
    // an action is blocked, and not met
    pub block: bool,
    // where the names that are put for variables start and end
    pub sent: usize,
    pub past: usize,
}

// The element at this offset is turned.
#[tactic(auto, unfolding(crate::specs::Editing::marked))]
pub fn is_marked(at: usize, k: Plan) -> bool
    ensures { result ≡ marked k at }
{
    at == k.first || k.second == Some(at)
}

#[tactic(auto, unfolding(crate::specs::Editing::between))]
fn is_between(low: usize, at: usize, high: usize) -> bool
    ensures { result ≡ between low at high }
{
    low < at && at < high
}

// An element that is turned stands inside the ambient from `low` to `high`.
#[tactic(auto, unfolding(crate::specs::Editing::holds, crate::specs::Editing::lies_between))]
pub fn holds_mark(low: usize, high: usize, k: Plan) -> bool
    ensures { result ≡ holds k low high }
{
    is_between(low, k.first, high)
        || matches!(k.second, Some(second) if is_between(low, second, high))
}

// Bytes as they are.
pub fn keep(bytes: &[u8], out: &mut [u8]) -> usize
    requires { length bytes.now ≤ length out.old }
    ensures { Left bytes.now out.old out.new result }
{
    buffers::copy(bytes, out);
    bytes.len()
}

// What is set down behind the element at this offset.
pub fn set_behind(moved: &[u8], at: usize, out: &mut [u8], k: Plan) -> usize
    requires { length (pick (stands_at k.after at) moved.now []) ≤ length out.old }
    ensures { Left (pick (stands_at k.after at) moved.now []) out.old out.new result }
{
    if k.after == Some(at) {
        keep(moved, out)
    } else {
        0
    }
}

// A blocked action as a process: 43 [..] becomes 42 [24 [..]].
pub fn unblock_action(action: &[u8], out: &mut [u8]) -> usize
    requires in_bounds { 3 ≤ length action.now }
    requires action_len_bound { length action.now < word_limit }
    requires action_in_bounds { 3 + length action.now ≤ length out.old }
    ensures { Left (field 0x42 (field 0x24 (drop 3 action.now))) out.old out.new result }
{
    buffers::write_header(out, 0x42, action.len());
    3 + buffers::write_field(&mut out[3..], 0x24, &action[3..])
}

// The header and the name of an unblocked ambient, in front of `n` bytes of contents.
pub fn name_ambient(ambient: &[u8], out: &mut [u8], n: usize)
    requires in_bounds { 5 ≤ length ambient.now }
    requires in_bounds_2 { 5 ≤ length out.old }
    requires n_bound { 2 + n < word_limit }
    ensures { out.new ≡ ((0x40 ∷ word (2 + n)) ++ take 2 (drop 3 ambient.now)) ++ drop 5 out.old }
{
    buffers::start_field(out, 0x40, 2 + n, &ambient[3..5]);
}
