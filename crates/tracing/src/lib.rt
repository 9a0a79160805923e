// The way down a tree in lent memory, noted seat by seat: to the leaf that a key leads to.
// Whoever changes the leaf goes up again by it.
#![tactic(auto)]

ghost use Rattle.std.specs.Prelude.{◌≤◌, length};
ghost use Rattle.node.specs.Paths.{longest_way};
ghost use Rattle.tracing.specs.Alone.{Alone};
ghost use Rattle.tracing.specs.Ways.{Way, Begins, Traces};

// The longest way from a root down to a leaf, in seats (node's specs/Paths.antt).
pub const LONGEST_WAY: usize = 32;

// From the seat noted last, the seats down to the leaf that the key leads to. How many steps below the root that is.
pub fn trace_on(mem: &[u8], way: &mut [u16], noted: usize, key: u64) -> usize
    requires { Begins mem.now key noted way.old }
    ensures { Traces mem.now key noted result way.old way.new }
{
    let mut depth = noted;
    let mut n = node::load(mem, way[noted] as usize);
    while n.height != 0 {
        let split = node::load(mem, node::far(true, n.place)).lo;
        let at = node::near(key < split, n.place);
        depth += 1;
        way[depth] = at as u16;
        n = node::load(mem, at);
    }
    depth
}

// The seats from the root down to the leaf that the key leads to. How many steps that is.
pub fn trace(mem: &[u8], root: usize, key: u64, way: &mut [u16]) -> usize
    requires longest_way_in_bounds { longest_way ≤ length way.old }
    requires alone { Alone mem.now root }
    ensures { Way mem.now root key result way.new }
{
    way[0] = root as u16;
    trace_on(mem, way, 0, key)
}
