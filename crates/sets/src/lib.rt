// Sets of free names, a bit for each.
#![tactic(auto)]

ghost use Rattle.std.specs.Prelude.{◌≡◌, ◌<◌, length};
ghost use Rattle.machine.specs.Limits.{free_name_limit};
ghost use Rattle.sets.specs.Sets.{set_words, holds_name, with_name, holds_given, with_given};

use machine::FREE_NAME_LIMIT;

// A bit for each free name, those of names in a row in different words.
pub const SET_WORDS: usize = FREE_NAME_LIMIT / 64;

// Whether a name is in a set.
fn holds(names: &[u64], name: usize) -> bool
    requires names_len { length names.now ≡ set_words }
    requires name_lt_free_name_limit { name < free_name_limit }
    ensures { result ≡ holds_name names.now name }
{
    (names[name % SET_WORDS] >> (name / SET_WORDS)) % 2 == 1
}

// Puts a name into a set.
pub fn put(names: &mut [u64], name: usize)
    requires names_len { length names.old ≡ set_words }
    requires name_lt_free_name_limit { name < free_name_limit }
    ensures { names.new ≡ with_name names.old name }
{
    if !holds(names, name) {
        names[name % SET_WORDS] = names[name % SET_WORDS] + (1 << (name / SET_WORDS));
    }
}

// Puts a name into one set, if there is one and it is a free name's: whether it is in the other set too.
pub fn note(own: &mut [u64], other: &[u64], name: Option<usize>) -> bool
    requires own_len { length own.old ≡ set_words }
    requires other_len { length other.now ≡ set_words }
    ensures { (result ≡ holds_given other.now name) × (own.new ≡ with_given own.old name) }
{
    match name {
        Some(name) if name < FREE_NAME_LIMIT => {
            put(own, name);
            holds(other, name)
        }
        _ => false,
    }
}
