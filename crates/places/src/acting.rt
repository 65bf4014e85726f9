// Which elements can act, on bytes that spell a list.
ghost use Rattle.std.specs.Prelude.{◌≡◌, ◌<◌, length};
ghost use Rattle.machine.specs.Elements.{Elements};
ghost use Rattle.machine.specs.Tests.{all_blocked};
ghost use Rattle.machine.specs.Validity.{Graded};
ghost use Rattle.elements.specs.Spelled.{SpelledList};
ghost use Rattle.elements.specs.Spelling.{encode_elements};
ghost use Rattle.machine.specs.Lowest.{first_able};

use elements::elements_of;

// Every element of the list is blocked. What is in a blocked ambient is.
pub fn all_blocked(list: &[u8]) -> bool
    requires { SpelledList list.now }
    ensures { (A : Elements) → list.now ≡ encode_elements A → Graded A → result ≡ all_blocked A }
{
    elements_of(list).all(|element| matches!(element[0], 0x41 | 0x43))
}

// The first element can act.
pub fn can_act(list: &[u8]) -> bool
    requires list_nonzero { 0 < length list.now }
    requires spelled_list { SpelledList list.now }
    ensures { (A : Elements) → list.now ≡ encode_elements A → Graded A → result ≡ first_able A }
{
    let first = list[0];
    if first == 0x42 {
        return true;
    }
    if first == 0x40 {
        let end = 3 + format::word_within(list, 1);
        return all_blocked(&list[5..end]);
    }
    false
}
