// The table of the eight action kinds, a byte for each.
#![tactic(auto)]

ghost use Rattle.std.specs.Prelude.{◌≡◌, ◌%◌};
ghost use Rattle.kinds.specs.Kinds.{tag_kind, row_of, kind_byte};

// Of an action kind: the kind that answers it, how the two stand, how many references it has where it hands over or takes one name or none, and 1 where the first of them names the ambient that it goes to.
#[derive(Clone, Copy)]
pub struct Row {
    pub answer: u8,
    pub standing: u8,
    pub references: u8,
    pub directed: u8,
}

// Sibling output, parent output, internal input, external input, enter, leave, accept, release: tags 30 to 37, and with a count 38 to 3B for the first four.
// The row of each in a byte, from its lowest bit: three for the answer, two for the standing, two for the references, one for directed.
const KINDS: [u8; 8] = [0xE3, 0x4A, 0x31, 0x20, 0xC6, 0x2F, 0x24, 0x35];

// The byte of an action's tag.
fn kind_byte(tag: u8) -> u8
    ensures { result ≡ kind_byte (tag_kind tag) }
{
    KINDS[usize::from(tag % 8)]
}

// The row of an action's tag.
pub fn kind_row(tag: u8) -> Row
    ensures { result ≡ row_of (tag % 8) }
{
    let byte = kind_byte(tag);
    Row {
        answer: byte % 8,
        standing: byte / 8 % 4,
        references: byte / 32 % 4,
        directed: byte / 128,
    }
}
