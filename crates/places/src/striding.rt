// The elements of a list in the order of tags: the contents of an ambient come before what stands behind it.
ghost use Rattle.std.specs.Prelude.{◌≡◌, ◌-◌, ◌<◌, length};
ghost use Rattle.std.specs.Iterator.{at_most};
ghost use Rattle.machine.specs.Elements.{Elements};
ghost use Rattle.elements.specs.Spelled.{SpelledList};
ghost use Rattle.elements.specs.Spelling.{encode_elements};
ghost use Rattle.places.specs.Offsets.{stride_of};
ghost use Rattle.places.specs.Places.{ListFrom, GivesPlace};

// How far it is to the next element in the order of tags, from the first one.
pub fn stride(list: &[u8]) -> usize
    requires list_nonzero { 0 < length list.now }
    requires spelled_list { SpelledList list.now }
    ensures { (A : Elements) → list.now ≡ encode_elements A → result ≡ stride_of A }
{
    if list[0] < 0x42 {
        return 5;
    }
    3 + format::word_within(list, 1)
}

// The elements of a list from an offset on.
#[derive(Drop)]
pub struct PlacesOf<'a> {
    list: &'a [u8],
    at: usize,
}

impl<'a> Iterator for PlacesOf<'a> {
    type Item = (usize, &'a [u8]);

    ghost can_next = { λ s. ListFrom s.list.now s.at };

    ghost next_gives = { λ s r t. GivesPlace s.list.now s.at r t.list.now t.at };

    ghost remaining = { λ s. at_most (length s.list.now - s.at) };

    fn next(&mut self) -> Option<(usize, &'a [u8])> {
        let at = self.at;
        if at >= self.list.len() {
            return None;
        }
        let rest = &self.list[at..];
        self.at += stride(rest);
        Some((at, rest))
    }
}

// The elements of a list in the order of tags, each as its offset and the bytes from it on.
pub fn places_of(list: &[u8]) -> PlacesOf<'_>
    ensures { (result.list.now ≡ list.now) × (result.at ≡ 0) }
{
    PlacesOf { list, at: 0 }
}
