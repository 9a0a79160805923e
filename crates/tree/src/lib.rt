// The tree of voids in lent memory: insert, remove, set an end (the arrangement is that of shape's Arrange).
// A change goes down by a way that it notes (tracing), and up again as far as anything changes (rising).
#![tactic(auto)]

ghost use Rattle.std.specs.Prelude.{◌≤◌};
ghost use Rattle.node.specs.Layout.{node_at};
ghost use Rattle.tracing.specs.Alone.{Alone};
ghost use Rattle.tracing.specs.Ways.{Begins};
ghost use Rattle.rising.specs.Changes.{adding, ending, Becomes};
ghost use Rattle.tree.specs.OnWays.{SetsOn, Insertable, Growable, Grows, Removes, Cuttable, Cuts, Grafting};

use node::{PLACE_WORDS, far, near};
use rising::{rise, settle};
use tracing::{LONGEST_WAY, trace, trace_on};

// Gives the leaf that the key leads to the end `end`, the key's way being noted in part.
pub fn set_end_on(mem: &mut [u8], way: &mut [u16], noted: usize, key: u64, end: u64)
    requires { Begins mem.old key noted way.old }
    ensures { SetsOn way.old noted key end mem.old mem.new }
{
    let depth = trace_on(mem, way, noted, key);
    let leaf = way[depth] as usize;
    let n = node::load(mem, leaf);
    node::save(mem, leaf, node::leaf(n.lo, end));
    settle(mem, way, depth);
}

// Gives the leaf that the key leads to the end `end`.
pub fn set_end(mem: &mut [u8], t: usize, key: u64, end: u64)
    requires { Alone mem.old t }
    ensures { Becomes (ending key end) t mem.old mem.new }
{
    let mut way = [0u16; LONGEST_WAY];
    way[0] = t as u16;
    set_end_on(mem, &mut way, 0, key, end);
}

// Puts a leaf beside the one at seat s, both at place q, and a node over them at s: from the two as they are here, not as they were
// just written.
fn graft(mem: &mut [u8], s: usize, key: u64, end: u64, q: u64)
    requires { Grafting mem.old s key end q }
    ensures { Becomes (adding key end q) s mem.old mem.new }
{
    let n = node::load(mem, s);
    let left = key < n.lo;
    let leaf = node::leaf(key, end);
    let first = PLACE_WORDS * q;
    node::copy(mem, s, far(left, first));
    node::save(mem, near(left, first), leaf);
    node::save(mem, s, summing::over(left, leaf, n, first));
}

// Puts a leaf into a tree, at the end of the way that its key leads, under a new node whose children stand at place q.
pub fn insert_on(mem: &mut [u8], way: &[u16], depth: usize, key: u64, end: u64, q: u64)
    requires { Growable way.now depth key end q mem.old }
    ensures { Grows way.now depth key end q mem.old mem.new }
{
    graft(mem, way[depth] as usize, key, end, q);
    rise(mem, way, depth);
}

// Puts a leaf into the tree at t, under a new node whose children stand at place q.
pub fn insert(mem: &mut [u8], t: usize, key: u64, end: u64, q: u64)
    requires { Insertable mem.old t key end q }
    ensures { Becomes (adding key end q) t mem.old mem.new }
{
    let mut way = [0u16; LONGEST_WAY];
    let depth = trace(mem, t, key, &mut way);
    insert_on(mem, &way, depth, key, end, q);
}

// Takes the leaf at the end of the key's way out of the tree: what is beside it goes where the node above them was. The place that is free.
fn take_out(mem: &mut [u8], way: &[u16], depth: usize, key: u64) -> u64
    requires { Cuttable way.now depth key mem.old }
    ensures { Cuts way.now depth key result mem.old mem.new }
{
    let leaf = way[depth] as u64;
    let q = leaf / PLACE_WORDS;
    let above = depth - 1;
    node::copy(
        mem,
        far(leaf % PLACE_WORDS == 0, PLACE_WORDS * q),
        way[above] as usize,
    );
    rise(mem, way, above);
    q
}

// Takes the leaf that the key leads to out of the tree at t, which is no leaf itself. The place that is free.
pub fn remove(mem: &mut [u8], t: usize, key: u64) -> u64
    requires bound { 1 ≤ (node_at mem.old t).height }
    requires alone { Alone mem.old t }
    ensures { Removes t key result mem.old mem.new }
{
    let mut way = [0u16; LONGEST_WAY];
    let depth = trace(mem, t, key, &mut way);
    take_out(mem, &way, depth, key)
}
