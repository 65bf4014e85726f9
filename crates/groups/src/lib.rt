// The groups of stored cases: how many cases each has and how many of them differ, and the line that tells it.
#![tactic(auto)]

ghost use Rattle.std.specs.Prelude.{◌≡◌, ◌≢◌, ◌+◌, ◌≤◌, ◌<◌, length, IfOk, if◌then◌else◌};

use std::io;
use std::io::Write;

// A group of cases: its number, how many of them came so far and how many of these differ.
#[derive(Clone, Copy, Default)]
pub struct Group {
    pub number: usize,
    pub cases: usize,
    pub differences: usize,
}

// The name of a group by its number.
fn name(number: usize) -> &'static str {
    match number {
        0 => "reading",
        1 => "loading",
        2 => "listing",
        3 => "stepping",
        4 => "running",
        5 => "writing",
        7 => "panel",
        8 => "partners",
        9 => "sweeping",
        _ => "controls",
    }
}

// The line of a group, where it has a case: its name, how many cases, how many differences.
pub fn print_group<W: Write>(group: Group, out: &mut W) -> io::Result<()> {
    if group.cases == 0 {
        return Ok(());
    }
    let name = name(group.number);
    let Group {
        cases,
        differences,
        ..
    } = group;
    writeln!(out, "{name}: {cases} cases, {differences} differences")
}

// The group of a case by its number: the present one, or another that begins, where the line of the present one is printed.
pub fn begun<W: Write>(group: Group, number: usize, out: &mut W) -> io::Result<Group>
    requires { group.differences ≤ group.cases }
    ensures few { IfOk result (λ r. (r.differences ≤ r.cases) × (r.cases ≤ group.cases)) }
    ensures present { number ≡ group.number → result ≡ Ok group }
    ensures another { number ≢ group.number → IfOk result (λ r. r ≡ record { number = number; cases = 0; differences = 0 }) }
{
    if number == group.number {
        return Ok(group);
    }
    print_group(group, out)?;
    Ok(Group {
        number,
        ..Group::default()
    })
}

// The group after one more case.
pub fn counted(group: Group, passed: bool) -> Group
    requires { (group.differences ≤ group.cases) × (group.cases < 1000000) }
    ensures few { (result.differences ≤ result.cases) × (result.cases ≡ group.cases + 1) }
    ensures number { result.number ≡ group.number }
    ensures differences { result.differences ≡ (if passed then group.differences else group.differences + 1) }
{
    Group {
        cases: group.cases + 1,
        differences: group.differences + usize::from(!passed),
        ..group
    }
}

#[cfg(test)]
mod tests {
    use super::*;
    use std::test::Fail;

    #[test]
    fn tells_groups_with_cases(rt: HostRuntime) -> Result<(), Fail> {
        let mut text = [b'.'; 64];
        let mut rest = text.as_mut_slice();
        let empty = Group {
            number: 3,
            cases: 0,
            differences: 0,
        };
        let stepping = counted(counted(empty, true), false);
        print_group(empty, &mut rest)?;
        print_group(stepping, &mut rest)?;
        let left = rest.len();
        assert_eq!(rt; left, 31);
        assert_eq!(rt;
            text.as_slice(),
            b"stepping: 2 cases, 1 differences\n...............................".as_slice()
        );
        Ok(())
    }
}
