// Two trees of any heights in lent memory, joined by a node (shape's Clear).
// What is left of a node's two sides after a sweep need not be of like heights: a balance alone is not enough.
#![tactic(auto)]

ghost use Rattle.turning.specs.Turns.{Both};
ghost use Rattle.joining.specs.Joins.{Hangs, Joins};

use node::{copy, far, load, near};
use summing::mend;
use turning::balance;

// Puts a node at seat s over the two trees at place w, of which the one on the side named is higher, as far down its inner edge as their
// heights ask.
fn hang(mem: &mut [u8], s: usize, w: u64, left: bool)
    requires { Both mem.old s w }
    ensures { Hangs left s w mem.old mem.new }
{
    let high = near(left, w);
    let n = load(mem, high);
    if n.height <= load(mem, far(left, w)).height + 1 {
        mend(mem, s, w);
        return;
    }
    // the inner child goes beside the lower tree, and what comes of the two to where it was
    let inner = far(left, n.place);
    copy(mem, inner, high);
    hang(mem, inner, w, left);
    balance(mem, s, n.place);
}

// Puts a node at seat s over the two trees at place w, of any heights.
pub fn join(mem: &mut [u8], s: usize, w: u64)
    requires { Both mem.old s w }
    ensures { Joins s w mem.old mem.new }
{
    let l = load(mem, near(true, w)).height;
    let r = load(mem, far(true, w)).height;
    hang(mem, s, w, r <= l);
}
