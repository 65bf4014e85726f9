// The two loops of the search: directly in a list, and in the ambients of one.
#![tactic(auto)]

ghost use Rattle.std.specs.Prelude.{true, ◌≡◌, ◌+◌, ◌<◌, length, get_or};
ghost use Rattle.machine.specs.Limits.{byte_limit};
ghost use Rattle.elements.specs.Spelled.{SpelledList};
ghost use Rattle.tallying.specs.Tallying.{Opened, TalliedIn, TalliedAmong};

use elements::elements_of;
use tallying::{Question, Tally, Want, is_settled, is_wanted, note};

// The first element, which stands at the offset `at`, is an ambient to be looked into: not the one at `skip`, and with the name, if there is one.
fn is_opened(list: &[u8], skip: Option<usize>, name: Option<usize>, at: usize) -> bool
    requires list_nonzero { 0 < length list.now }
    requires spelled_list { SpelledList list.now }
    ensures { Opened list.now skip name at result × (result ≡ true → get_or list.now 0 0 < 0x42) }
{
    if 0x41 < list[0] {
        return false;
    }
    if skip == Some(at) {
        return false;
    }
    match name {
        None => true,
        Some(name) => name == format::word_within(list, 3),
    }
}

// The answers directly in a list, which starts at the offset `start`.
pub fn tally_in(list: &[u8], start: usize, want: Want, question: Question) -> Tally
    requires spelled_list { SpelledList list.now }
    requires list_bound { start + length list.now < byte_limit }
    ensures { TalliedIn list.now start want question result }
{
    let mut tally = Tally {
        lowest: None,
        number: 0,
    };
    let mut at = start;
    for element in elements_of(list) {
        if is_wanted(element, want) {
            tally = note(question, tally, at);
            if is_settled(question, tally) {
                return tally;
            }
        }
        at += element.len();
    }
    tally
}

// The answers directly in an ambient of the list: not in the one at `skip`, and only where it has the name, if there is one.
pub fn tally_among(
    list: &[u8],
    start: usize,
    skip: Option<usize>,
    name: Option<usize>,
    want: Want,
    question: Question,
) -> Tally
    requires spelled_list { SpelledList list.now }
    requires list_bound { start + length list.now < byte_limit }
    ensures { TalliedAmong list.now start skip name want question result }
{
    let mut tally = Tally {
        lowest: None,
        number: 0,
    };
    let mut at = start;
    'search: for element in elements_of(list) {
        if is_opened(element, skip, name, at) {
            let mut inner = at + 5;
            for inside in elements_of(&element[5..]) {
                if is_wanted(inside, want) {
                    tally = note(question, tally, inner);
                    if is_settled(question, tally) {
                        break 'search;
                    }
                }
                inner += inside.len();
            }
        }
        at += element.len();
    }
    tally
}
