// What is compared of a stored case: the numbers of an answer with those of the case, and two buffers byte by byte. Assumes nothing of its input.
#![tactic(auto)]

ghost use Rattle.std.specs.Prelude.{◌≡◌};
ghost use Rattle.format.specs.Reading.{word_at};
ghost use Rattle.comparing.specs.Comparisons.{equal, due_in, agreeing};

// What a call answered: its refusal or 0; the rule of a step, the ending of a run or the lowest partner; the steps of a run, the weight or the number of partners; and how many bytes it wrote.
#[derive(Clone, Copy, Default, PartialEq, Eq)]
pub struct Answer {
    pub refusal: u32,
    pub outcome: u32,
    pub count: u32,
    pub length: u32,
}

// Both hold the same bytes.
pub fn same(left: &[u8], right: &[u8]) -> bool
    ensures { result ≡ equal left.now right.now }
{
    left == right
}

// The number that stands at a position of a header.
fn number_at(header: &[u8], at: usize) -> u32
    ensures { result ≡ word_at header.now at }
{
    format::word(header, at) as u32
}

// The answer that the case names in its header.
fn due(header: &[u8]) -> Answer
    ensures { result ≡ due_in header.now }
{
    Answer {
        refusal: number_at(header, 12),
        outcome: number_at(header, 14),
        count: number_at(header, 16),
        length: number_at(header, 18),
    }
}

// The numbers of the answer are those that the case names in its header.
pub fn agrees(header: &[u8], found: Answer) -> bool
    ensures { result ≡ agreeing header.now found }
{
    found == due(header)
}
