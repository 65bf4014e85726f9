// Substitution: names put for variables, in the bytes of a process, in place.
#![tactic(auto)]

ghost use Rattle.std.specs.Prelude.{List, ◌++◌, ◌≡◌, ℕ, ◌+◌, ◌≤◌, length};
ghost use Rattle.calculus.specs.Processes.{Reference, Process, lift_by, receive, rename_all, rename};
ghost use Rattle.machine.specs.Limits.{name_limit};
ghost use Rattle.machine.specs.Validity.{ReferenceScoped, AllScoped};
ghost use Rattle.format.specs.Spelling.{encode_reference, encode_references, encode};
ghost use Rattle.format.specs.Spellable.{Spellable};
ghost use Rattle.substituting.specs.Substituting.{SpellsNames, Referring, Receiving};

// Puts names for the variables of the binders so many levels out, the last for the innermost of them, in the reference at the front.
fn substitute_reference(s: &mut [u8], binders: usize, names: &[u8])
    requires referring { Referring s.old names.now binders }
    requires in_bounds { 2 ≤ length s.old }
    ensures { (ns : List Reference) (a : Reference) (rest : List ℕ) → SpellsNames names.now ns → s.old ≡ encode_reference a ++ rest
        → ReferenceScoped name_limit (length ns + binders) a → s.new ≡ encode_reference (lift_by binders (receive ns) a) ++ rest }
{
    let number = format::word(s, 0);
    let first = format::FIRST_VARIABLE + binders;
    if number < first {
        return;
    }
    let at = names.len() - 2 * (1 + (number - first));
    [s[0], s[1]] = [names[at], names[at + 1]];
}

// The same in all references of s.
fn substitute_references(s: &mut [u8], binders: usize, names: &[u8])
    requires { Referring s.old names.now binders }
    ensures { (ns rs : List Reference) → SpellsNames names.now ns → s.old ≡ encode_references rs
        → AllScoped name_limit (length ns + binders) rs → s.new ≡ encode_references (rename_all (lift_by binders (receive ns)) rs) }
{
    if s.len() < 2 {
        return;
    }
    substitute_reference(s, binders, names);
    substitute_references(&mut s[2..], binders, names);
}

// The same in the process that s spells.
pub fn substitute(s: &mut [u8], binders: usize, names: &[u8])
    requires { Receiving s.old names.now binders }
    ensures { (ns : List Reference) (P : Process) → SpellsNames names.now ns → s.old ≡ encode P
        → Spellable (length ns + binders) P → s.new ≡ encode (rename (lift_by binders (receive ns)) P) }
{
    match s[0] {
        ..0x21 => {}
        0x21 => {
            let mid = 6 + format::word(s, 4);
            substitute(&mut s[3..mid], binders, names);
            substitute(&mut s[mid..], binders, names);
        }
        _ => {
            let inside = layouts::parts_of(s);
            substitute_references(&mut s[inside.start..inside.middle], binders, names);
            substitute_references(&mut s[inside.next..inside.end], binders, names);
            substitute(&mut s[inside.end..], binders + inside.bound, names);
        }
    }
}
