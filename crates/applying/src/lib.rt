// A plan applied to a list, in one pass, on the bytes of an accepted state; and the ambient that is moved.
#![tactic(auto)]

ghost use Rattle.std.specs.Prelude.{length};
ghost use Rattle.applying.specs.Applying.{Rewriting, Replacing, Changing, Carrying, Rewritten, Replaced, ContentsChanged, CarriedOut};

use elements::elements_of;
use rewriting::{Plan, holds_mark, is_marked, keep, name_ambient, set_behind, unblock_action};
use turning::turn;

// An unblocked ambient of the same name with its contents changed; `unblocks` at the top level of a moved ambient.
#[cycle(rewrite_rewrite_ambient_rewrite_element)]
fn rewrite_ambient(
    ambient: &[u8],
    at: usize,
    moved: &[u8],
    names: &[u8],
    out: &mut [u8],
    k: Plan,
    unblocks: bool,
) -> usize
    requires { Changing ambient.now moved.now names.now k unblocks at (length out.old) }
    ensures { ContentsChanged ambient.now moved.now names.now k unblocks at out.old out.new result }
{
    let n = rewrite(
        &ambient[5..],
        at + 5,
        moved,
        names,
        &mut out[5..],
        k,
        unblocks,
    );
    name_ambient(ambient, out, n);
    5 + n
}

// What stands for one element: turned where it is marked, nothing where it is cut, changed where it is an ambient that holds a mark. Any other is copied; in a moved ambient a blocked action is unblocked.
#[cycle(rewrite_rewrite_ambient_rewrite_element)]
fn rewrite_element(
    element: &[u8],
    at: usize,
    moved: &[u8],
    names: &[u8],
    out: &mut [u8],
    k: Plan,
    unblocks: bool,
) -> usize
    requires { Replacing element.now moved.now names.now k unblocks at (length out.old) }
    ensures { Replaced element.now moved.now names.now k unblocks at out.old out.new result }
{
    if is_marked(at, k) {
        return turn(element, names, out, k.block);
    }
    let tag = element[0];
    if tag < 0x42 {
        if k.cut == Some(at) {
            return 0;
        }
        if holds_mark(at, at + element.len(), k) {
            return rewrite_ambient(element, at, moved, names, out, k, false);
        }
        return keep(element, out);
    }
    if unblocks && tag == 0x43 {
        return unblock_action(element, out);
    }
    keep(element, out)
}

// The elements of a list that starts at the offset `start`, as the plan changes them, at the front of `out`; `moved` is what is set down, and `names` what is put for variables.
#[cycle(rewrite_rewrite_ambient_rewrite_element)]
pub fn rewrite(
    list: &[u8],
    start: usize,
    moved: &[u8],
    names: &[u8],
    out: &mut [u8],
    k: Plan,
    unblocks: bool,
) -> usize
    requires { Rewriting list.now moved.now names.now k unblocks start (length out.old) }
    ensures { Rewritten list.now moved.now names.now k unblocks start out.old out.new result }
{
    let mut at = start;
    let mut done = 0;
    for element in elements_of(list) {
        let mid = done + rewrite_element(element, at, moved, names, &mut out[done..], k, unblocks);
        done = mid + set_behind(moved, at, &mut out[mid..], k);
        at += element.len();
    }
    done
}

// The ambient that is moved, unblocked at its top level, at the front of `out`.
pub fn carry(ambient: &[u8], at: usize, names: &[u8], out: &mut [u8], k: Plan) -> usize
    requires { Carrying ambient.now names.now k at (length out.old) }
    ensures { CarriedOut ambient.now names.now k at out.old out.new result }
{
    rewrite_ambient(ambient, at, &ambient[..0], names, out, k, true)
}
