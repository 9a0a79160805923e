// Clearing a link: the voids that end before a bound go in one pass over the tree (shape's specs/Clear.antt).
// A part that has none is not looked into; what is left of a node's two sides is joined by that node, or goes where the node was.
#![tactic(auto)]

ghost use Rattle.std.specs.Prelude.{◌≡◌};
ghost use Rattle.clearing.specs.Clears.{Clearable, Cleans, Lasts, Clears};

use node::{PLACE_WORDS, copy, far, near};
use numbers::words::{get, put};

// Clears the tree at seat s, each place that comes free being given back to the spare ones, of which there are so many. Whether nothing
// is left. The number is lent, not returned: what returns fits a register (docs/DECISIONS.md).
fn below(mem: &mut [u8], s: usize, bound: u64, spare: &mut u64) -> bool
    requires { Clearable mem.old s spare.old }
    ensures { Cleans bound s spare.old (record { gone = result; spare = spare.new }) mem.old mem.new }
{
    let n = node::load(mem, s);
    if bound <= n.low {
        return false;
    }
    if n.height == 0 {
        return true;
    }
    let left = near(true, n.place);
    let right = far(true, n.place);
    let left_gone = below(mem, left, bound, spare);
    let right_gone = below(mem, right, bound, spare);
    if left_gone {
        copy(mem, right, s);
        memory::give_spare(mem, n.place / PLACE_WORDS, *spare);
        *spare += 1;
        return right_gone;
    }
    if right_gone {
        copy(mem, left, s);
        memory::give_spare(mem, n.place / PLACE_WORDS, *spare);
        *spare += 1;
        return false;
    }
    joining::join(mem, s, n.place);
    false
}

// The voids of a link that end before the bound go. How many.
pub fn clear(mem: &mut [u8], bound: u64) -> u64
    requires { Lasts bound mem.old }
    ensures { Clears bound result mem.old mem.new }
{
    let kept = get(mem, memory::KEPT);
    let room = get(mem, memory::ROOM);
    let spare = room + 1 - kept;
    let mut many = spare;
    let _ = below(mem, node::ROOT, bound, &mut many);
    let dropped = many - spare;
    put(mem, memory::KEPT, kept - dropped);
    dropped
}
