// Weighs processes and elements, on bytes that spell them, and states, of which it assumes nothing.
#![tactic(auto)]

ghost use Rattle.std.specs.Prelude.{◌≡◌, ◌≤◌, ◌<◌, length, Ok};
ghost use Rattle.calculus.specs.Processes.{Process};
ghost use Rattle.machine.specs.Elements.{Elements, weight as weight_of, weight_process};
ghost use Rattle.format.specs.Spelling.{encode};
ghost use Rattle.elements.specs.Spelling.{encode_elements};
ghost use Rattle.layouts.specs.Layouts.{SpelledProcess};
ghost use Rattle.elements.specs.Spelled.{SpelledList};
ghost use Rattle.machine.specs.Limits.{byte_limit};
ghost use Rattle.weighing.specs.Weighing.{weigh, weight_answer};
ghost use Rattle.states.specs.Reading.{Accepted};

use elements::elements_of;
use refusals::Refusal;

fn process_weight(s: &[u8]) -> usize
    requires { SpelledProcess s.now }
    ensures { ((P : Process) → s.now ≡ encode P → result ≡ weight_process P) × (result ≤ length s.now) }
{
    match s[0] {
        0x21 => {
            let mid = 6 + format::word(s, 4);
            1 + process_weight(&s[3..mid]) + process_weight(&s[mid..])
        }
        0x22 => 1 + process_weight(&s[3..]),
        0x23 => 2 + process_weight(&s[5..]),
        0x25 => 2,
        _ => 1,
    }
}

fn elements_weight(list: &[u8]) -> usize
    requires { SpelledList list.now }
    ensures { ((A : Elements) → list.now ≡ encode_elements A → result ≡ weight_of A) × (result ≤ length list.now) }
{
    let mut total = 0;
    for element in elements_of(list) {
        total += match element[0] {
            0x40 => 1 + elements_weight(&element[5..]),
            0x42 => process_weight(&element[3..]),
            _ => 0,
        };
    }
    total
}

// The weight of a state that is known to be accepted.
pub fn accepted_weight(s: &[u8]) -> usize
    requires { Accepted s.now }
    ensures { (Ok result ≡ weight_answer (weigh s.now)) × (result < byte_limit) }
{
    elements_weight(&s[7..])
}

// The weight of a state, or why it is refused.
pub fn weight(s: &[u8]) -> Result<usize, Refusal>
    ensures { result ≡ weight_answer (weigh s.now) }
{
    states::read_state(s)?;
    Ok(accepted_weight(s))
}
