// Finds in the opening of a field what is used as a box and what as a channel.
#![tactic(auto)]

ghost use Rattle.std.specs.Prelude.{◌≡◌, List, ◌++◌, ℕ, ◌+◌, ◌≤◌, length, drop};
ghost use Rattle.calculus.specs.Processes.{Reference};
ghost use Rattle.format.specs.Spelling.{encode_references};
ghost use Rattle.layouts.specs.Openings.{Opening, encode_opening, SpelledOpening};
ghost use Rattle.using.specs.Using.{number_of, written_in};

use format::word_within;
use layouts::Form;

// Of the opening of a field: the number of the reference that is written as an ambient's name or target, and of the one written as a channel, if there are such; where the next opening starts.
#[derive(Clone, Copy)]
pub struct Written {
    pub boxed: Option<usize>,
    pub channel: Option<usize>,
    pub end: usize,
}

// The target of an action whose channel starts at `start`, if it has one.
#[tactic(auto, using(crate::proofs::Openings::no_target, crate::proofs::Openings::target_there))]
fn target_before(s: &[u8], start: usize) -> Option<usize>
    requires { start ≤ length s.now }
    ensures { (rs : List Reference) (rest : List ℕ) → drop 3 s.now ≡ encode_references rs ++ rest → start ≡ 3 + length (encode_references rs) → result ≡ number_of rs }
{
    if start < 5 {
        return None;
    }
    Some(word_within(s, 3))
}

// What is written in the opening at the front. In an action the channel is the last reference in front of the count.
pub fn written_in(s: &[u8]) -> Written
    requires { SpelledOpening s.now }
    ensures { (o : Opening) (rest : List ℕ) → s.now ≡ encode_opening o ++ rest → result ≡ written_in o }
{
    match layouts::form_of(s[0]) {
        Form::Bare => Written {
            boxed: None,
            channel: None,
            end: 3,
        },
        Form::Naming => Written {
            boxed: Some(word_within(s, 3)),
            channel: None,
            end: 5,
        },
        Form::Acting => {
            let opened = layouts::opening_of(s);
            let start = opened.middle - 2;
            Written {
                boxed: target_before(s, start),
                channel: Some(word_within(s, start)),
                end: opened.end,
            }
        }
    }
}
