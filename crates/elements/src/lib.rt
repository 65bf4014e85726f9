// Elements in bytes: the elements of a list one by one, and the front of every state that is written.
#![tactic(auto)]

ghost use Rattle.std.specs.Prelude.{◌≡◌, ◌+◌, ◌≤◌, ◌<◌, length};
ghost use Rattle.std.specs.Iterator.{at_most};
ghost use Rattle.buffers.specs.Buffers.{Left};
ghost use Rattle.format.specs.Spelling.{word_limit};
ghost use Rattle.elements.specs.Spelling.{state_front};
ghost use Rattle.elements.specs.Spelled.{SpelledList};
ghost use Rattle.elements.specs.Each.{GivesFirst};

// The elements of a list, of which these bytes are left.
#[derive(Drop)]
pub struct ElementsOf<'a> {
    rest: &'a [u8],
}

impl<'a> Iterator for ElementsOf<'a> {
    type Item = &'a [u8];

    ghost can_next = { λ s. SpelledList s.rest.now };

    ghost next_gives = { λ s r t. GivesFirst s.rest.now r t.rest.now };

    ghost remaining = { λ s. at_most (length s.rest.now) };

    fn next(&mut self) -> Option<&'a [u8]> {
        if self.rest.is_empty() {
            return None;
        }
        let end = 3 + format::word_within(self.rest, 1);
        let (element, rest) = self.rest.split_at(end);
        self.rest = rest;
        Some(element)
    }
}

// The elements of a list one by one, each as the bytes that spell it.
pub fn elements_of(list: &[u8]) -> ElementsOf<'_>
    ensures { result.rest.now ≡ list.now }
{
    ElementsOf { rest: list }
}

// The front of a state, before `n` bytes of elements: the header, F and the next unused name.
pub fn start_state(out: &mut [u8], n: usize, free: usize, names: usize)
    requires in_bounds { 7 ≤ length out.old }
    requires n_bound { (4 + n < word_limit) × (free < word_limit) × (names < word_limit) }
    ensures { Left (state_front free names n) out.old out.new 7 }
{
    buffers::write_header(out, 0x11, 4 + n);
    let next = buffers::append_word(free, out, 3);
    buffers::append_word(names, out, next);
}
