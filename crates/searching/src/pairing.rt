// Blocked pairs: each blocked sender or mover of a list asks whether it has an answer.
ghost use Rattle.std.proofs.Math.Option.{some};
ghost use Rattle.std.specs.Prelude.{◌≡◌, ◌<◌, length};
ghost use Rattle.machine.specs.Limits.{byte_limit};
ghost use Rattle.machine.specs.Elements.{Element, Elements, Position, here, element_at};
ghost use Rattle.machine.specs.Frames.{Frame, frame_of};
ghost use Rattle.machine.specs.Pairs.{blocked_pair};
ghost use Rattle.machine.specs.Questions.{pairs_from};
ghost use Rattle.machine.specs.Search.{pair_at};
ghost use Rattle.elements.specs.Spelled.{Spells, SpelledList};
ghost use Rattle.places.specs.Offsets.{by_bytes, spot_of};
ghost use Rattle.searching.specs.Lists.{OtherAt, Walked, Walking};

use crate::asking::count_answers;
use elements::elements_of;
use places::Spot;

// What stands at the spot, which is no ambient, is a blocked sender or mover with an answer.
fn is_answered(list: &[u8], spot: Spot) -> bool
    requires { OtherAt list.now spot }
    ensures { (L : Elements) (π : Position) (E : Element) → Spells list.now L → element_at L π ≡ some E → spot ≡ spot_of L π → result ≡ pair_at by_bytes (frame_of L π) E }
{
    let at = spot.at;
    let element = &list[at..];
    if element[0] == 0x43 {
        if layouts::rule_of(element[3]) % 2 == 1 {
            let tally = count_answers(list, spot, true);
            return 0 < tally.number;
        }
    }
    false
}

// A blocked pair in a list of the root list, or in an ambient of it. The list is the contents of the ambient at `within`, which stands in the one at
// `around`, where so many ambients are around it.
fn pairs_from(
    list: &[u8],
    start: usize,
    end: usize,
    within: usize,
    around: usize,
    level: usize,
) -> bool
    requires { Walking list.now start end level within around }
    ensures { (L : Elements) (f : Position → Frame) (A : Elements) → Spells list.now L → Walked L f A start end level within around → result ≡ pairs_from by_bytes f here A }
{
    let mut at = start;
    for element in elements_of(&list[start..end]) {
        let next = at + element.len();
        if element[0] < 0x42 {
            if pairs_from(list, at + 5, next, at, within, level + 1) {
                return true;
            }
        } else {
            let spot = Spot {
                at,
                within,
                around,
                level,
            };
            if is_answered(list, spot) {
                return true;
            }
        }
        at = next;
    }
    false
}

// A blocked pair in the root list.
pub fn paired(list: &[u8]) -> bool
    requires spelled_list { SpelledList list.now }
    requires list_len_bound { length list.now < byte_limit }
    ensures { (L : Elements) → Spells list.now L → result ≡ blocked_pair L }
{
    pairs_from(list, 0, list.len(), 0, 0, 0)
}
