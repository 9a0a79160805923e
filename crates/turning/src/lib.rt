// Turns and balances in lent memory: a node is put over the two trees at a place, turned where one is too high (shape's Arrange).
// Left and right are one parameter, so that one function serves both sides. A place is known by its left seat.
#![tactic(auto)]

ghost use Rattle.std.specs.Prelude.{◌+◌, ◌*◌, ◌≤◌};
ghost use Rattle.shape.specs.Side.{near, far};
ghost use Rattle.node.specs.Layout.{node_at};
ghost use Rattle.turning.specs.Turns.{Both, Turns, Balances};

use node::{copy, far, load, near};
use summing::mend;

// Puts a node at seat s over the two trees at place w, of which the one on the side named is too high, by a single or a double turn.
fn turn(mem: &mut [u8], s: usize, w: u64, left: bool)
    requires w_bound { (node_at mem.old (far left w (w + 4))).height + 2 ≤ (node_at mem.old (near left w (w + 4))).height }
    requires both { Both mem.old s w }
    ensures { Turns left s w mem.old mem.new }
{
    let high = near(left, w);
    let x = load(mem, high).place;
    let inner = far(left, x);
    let i = load(mem, inner);
    let o = load(mem, near(left, x));
    if i.height <= o.height {
        copy(mem, inner, high);
        mend(mem, inner, w);
        mend(mem, s, x);
        return;
    }
    let y = i.place;
    let first = near(left, y);
    let second = far(left, y);
    copy(mem, first, inner);
    copy(mem, second, high);
    mend(mem, first, x);
    mend(mem, second, w);
    mend(mem, s, y);
}

// Puts a node at seat s over the two trees at place w, turned where one is too high.
pub fn balance(mem: &mut [u8], s: usize, w: u64)
    requires { Both mem.old s w }
    ensures { Balances s w mem.old mem.new }
{
    let l = load(mem, near(true, w)).height;
    let r = load(mem, far(true, w)).height;
    if r + 2 <= l {
        turn(mem, s, w, true);
        return;
    }
    if l + 2 <= r {
        turn(mem, s, w, false);
        return;
    }
    mend(mem, s, w);
}
