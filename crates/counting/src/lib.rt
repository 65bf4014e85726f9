// What an action's tag says of its counts, by the table of kinds. Assumes nothing of its input.
#![tactic(auto)]

ghost use Rattle.std.specs.Prelude.{◌≡◌, ◌+◌, ◌-◌, ◌*◌, ◌≤◌, ◌<◌};
ghost use Rattle.format.specs.Kinds.{tag_kind, handed_count, binder_count, implied_count};
ghost use Rattle.format.specs.Answers.{count_in};

use format::FIRST_COUNTED;
use kinds::{Row, kind_row};

// How many of the names of a message an action of this row hands over, 1 for all or 0: the references behind its channel.
pub fn handed(row: Row) -> usize
    requires { row.directed < row.references }
    ensures { result ≡ row.references - (1 + row.directed) }
{
    usize::from(row.references) - (1 + usize::from(row.directed))
}

// The same of the kind that answers it.
fn handed_back(row: Row) -> usize
    ensures { result ≡ handed_count (tag_kind row.answer) }
{
    handed(kind_row(row.answer))
}

// How many variables an action of this tag binds for each of them: 1 where its answer hands names over.
fn taken(tag: u8) -> usize
    ensures { (result ≡ binder_count (tag_kind tag)) × (result ≤ 1) }
{
    handed_back(kind_row(tag))
}

// The count that a tag from 30 to 37 means.
fn implied_count(tag: u8) -> usize
    ensures { (result ≡ implied_count (tag_kind tag)) × (result < 256) }
{
    let row = kind_row(tag);
    handed(row) + handed_back(row)
}

// The count of an action of this tag, whose field has this body: what the tag means, or the byte behind its target and channel.
pub fn count_in(body: &[u8], tag: u8) -> usize
    ensures { (result ≡ count_in tag body.now) × (result < 256) }
{
    if tag < FIRST_COUNTED {
        return implied_count(tag);
    }
    let at = 2 * (1 + usize::from(kind_row(tag).directed));
    usize::from(body.get(at).copied().unwrap_or(0))
}

// How many variables it binds.
pub fn binder_count(body: &[u8], tag: u8) -> usize
    ensures { (result ≡ count_in tag body.now * binder_count (tag_kind tag)) × (result < 256) }
{
    let each = taken(tag);
    if tag < FIRST_COUNTED {
        return each;
    }
    count_in(body, tag) * each
}
