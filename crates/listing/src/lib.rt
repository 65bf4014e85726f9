// The listing: the places that can act at the front of the output buffer. `list` assumes nothing of its input, and reads states deeper than other calls do.
#![tactic(auto)]

ghost use Rattle.std.specs.Prelude.{◌++◌, ◌≡◌, ◌≤◌, ◌<◌, length, drop};
ghost use Rattle.machine.specs.Elements.{Elements};
ghost use Rattle.machine.specs.Validity.{Graded};
ghost use Rattle.buffers.specs.Buffers.{Answered, written_answer};
ghost use Rattle.elements.specs.Spelled.{SpelledList};
ghost use Rattle.elements.specs.Spelling.{encode_elements};
ghost use Rattle.machine.specs.Lowest.{able};
ghost use Rattle.listing.specs.Listing.{words, Listable, list_bytes};

use machine::{BYTE_LIMIT, LISTING_NESTING_LIMIT};
use places::{can_act, places_of};
use refusals::Refusal;

// How many places can act.
fn able_count(list: &[u8]) -> usize
    requires { SpelledList list.now }
    ensures { ((A : Elements) → list.now ≡ encode_elements A → Graded A → result ≡ length (able 0 A)) × (result ≤ length list.now) }
{
    let mut count = 0;
    for (_, rest) in places_of(list) {
        if can_act(rest) {
            count += 1;
        }
    }
    count
}

// The places that can act, two bytes each, at the front of the output buffer.
fn write_able(list: &[u8], out: &mut [u8])
    requires { Listable list.now (length out.old) }
    ensures { (A : Elements) → list.now ≡ encode_elements A → Graded A
        → out.new ≡ words (able 0 A) ++ drop (length (words (able 0 A))) out.old }
{
    let mut end = 0;
    for (place, (_, rest)) in places_of(list).enumerate() {
        if can_act(rest) {
            end = buffers::append_word(place, out, end);
        }
    }
}

// The places that can act, ascending, two bytes each, at the front of the output buffer; a refusal leaves every byte of it.
pub fn list(state: &[u8], out: &mut [u8]) -> Result<usize, Refusal>
    ensures { Answered written_answer (list_bytes state.now (length out.old)) out.old result out.new }
{
    states::read_within(state, LISTING_NESTING_LIMIT)?;
    let root = &state[7..];
    let n = 2 * able_count(root);
    if !buffers::fits(n, BYTE_LIMIT, out.len()) {
        return Err(Refusal::NoRoom);
    }
    write_able(root, out);
    Ok(n)
}
