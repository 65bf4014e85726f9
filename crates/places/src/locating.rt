// Places and spots, in the bytes of a list of elements.
ghost use Rattle.std.proofs.Math.Option.{some};
ghost use Rattle.std.specs.Prelude.{◌≡◌, ◌<◌, length};
ghost use Rattle.machine.specs.Elements.{Elements, Element, Position, element_at, place};
ghost use Rattle.elements.specs.Spelled.{SpelledList};
ghost use Rattle.elements.specs.Spelling.{encode_elements};
ghost use Rattle.places.specs.Offsets.{offset, place_offset, spot_of, Standing};

use crate::{Spot, places_of};

// The offset of a place, where an element stands there.
pub fn find(list: &[u8], place: usize) -> Option<usize>
    requires { SpelledList list.now }
    ensures { (A : Elements) → list.now ≡ encode_elements A → result ≡ place_offset A place }
{
    places_of(list).nth(place).map(|(at, _)| at)
}

// The spot of the element at an offset.
pub fn spot_at(list: &[u8], at: usize) -> Spot
    requires { Standing list.now at }
    ensures { (A : Elements) (π : Position) (E : Element) → list.now ≡ encode_elements A → element_at A π ≡ some E → offset 0 A π ≡ at → result ≡ spot_of A π }
{
    let mut current = 0;
    let mut within = 0;
    let mut around = 0;
    let mut level = 0;
    while current < at {
        let rest = &list[current..];
        let end = current + (3 + format::word_within(rest, 1));
        if at < end {
            around = within;
            within = current;
            level = level + 1;
            current = current + 5;
        } else {
            current = end;
        }
    }
    Spot {
        at: at,
        within: within,
        around: around,
        level: level,
    }
}

// The place of the element at an offset.
pub fn place_of(list: &[u8], at: usize) -> usize
    requires { Standing list.now at }
    ensures { (A : Elements) (π : Position) (E : Element) → list.now ≡ encode_elements A → element_at A π ≡ some E → offset 0 A π ≡ at → result ≡ place A π }
{
    places_of(list).take_while(|(here, _)| *here < at).count()
}
