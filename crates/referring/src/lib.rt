// Goes along all references of a list: the names that stand in it, counted in a table with an entry for each: 0, 1, or 2 for more than once.
#![tactic(auto)]

ghost use Rattle.std.specs.Prelude.{◌≡◌, List, ◌++◌, ℕ, ◌≤◌, length};
ghost use Rattle.calculus.specs.Processes.{Reference};
ghost use Rattle.calculus.specs.Names.{names_of_reference, names_of_all};
ghost use Rattle.machine.specs.Elements.{Elements};
ghost use Rattle.machine.specs.Names.{names};
ghost use Rattle.format.specs.Spelling.{first_variable, encode_reference, encode_references};
ghost use Rattle.layouts.specs.Openings.{Opening, first_of, second_of, encode_opening, SpelledOpening, opened_of};
ghost use Rattle.elements.specs.Spelling.{encode_elements};
ghost use Rattle.elements.specs.Spelled.{SpelledList};
ghost use Rattle.referring.specs.Tables.{counted};

// The name of the reference at the front, if it is one, stands once more.
fn count_reference(s: &[u8], table: &mut [u8])
    requires { length table.old ≤ first_variable }
    ensures { (a : Reference) (rest : List ℕ) → s.now ≡ encode_reference a ++ rest → table.new ≡ counted (names_of_reference a) table.old }
{
    let number = format::word(s, 0);
    if number < table.len() {
        table[number] = if table[number] == 0 { 1 } else { 2 };
    }
}

// The names of all references of s.
fn count_references(s: &[u8], table: &mut [u8])
    requires { length table.old ≤ first_variable }
    ensures { (rs : List Reference) → s.now ≡ encode_references rs → table.new ≡ counted (names_of_all rs) table.old }
{
    for reference in s.chunks_exact(2) {
        count_reference(reference, table);
    }
}

// The names of the opening at the front; where the next one starts.
fn count_opening(s: &[u8], table: &mut [u8]) -> usize
    requires spelled_opening { SpelledOpening s.now }
    requires table_len_bound { length table.old ≤ first_variable }
    ensures { (o : Opening) (rest : List ℕ) → s.now ≡ encode_opening o ++ rest
        → (result ≡ (opened_of o).end) × (table.new ≡ counted (names_of_all (first_of o) ++ names_of_all (second_of o)) table.old) }
{
    let opened = layouts::opening_of(s);
    count_references(&s[3..opened.middle], table);
    count_references(&s[opened.next..opened.end], table);
    opened.end
}

// The names of all elements of a list, opening by opening.
pub fn count_names(list: &[u8], table: &mut [u8])
    requires spelled_list { SpelledList list.now }
    requires table_len_bound { length table.old ≤ first_variable }
    ensures { (A : Elements) → list.now ≡ encode_elements A → table.new ≡ counted (names A) table.old }
{
    let mut at = 0;
    while at < list.len() {
        at += count_opening(&list[at..], table);
    }
}
