// Taking a void: it is replaced by its pieces, if they are kept; or refused under 8, if it leaves two and the room is full.
// Which void is taken, and from when, is the crate seeking's.
#![tactic(auto)]

ghost use Rattle.std.specs.Prelude.{◌≡◌, true, ◌≤◌, ◌<◌};
ghost use Rattle.rule.specs.Moments.{last_moment};
ghost use Rattle.state.specs.State.{State};
ghost use Rattle.memory.specs.Holds.{Holds, Whole};
ghost use Rattle.node.specs.Layout.{root_seat};
ghost use Rattle.tracing.specs.Ways.{Way};
ghost use Rattle.memory.specs.Steps.{Pointed, Roomy, Adds};
ghost use Rattle.taking.specs.Take.{Puts, Splits, Splittable, Ahead, overfull};

use numbers::words::get;
use search::{Foreseen, Leaf};

// One void more, by the way noted if it is the key's, else by one of its own.
fn put_in(mem: &mut [u8], far: &[u16], ahead: Foreseen, key: u64, end: u64)
    requires roomy { Roomy mem.old }
    requires way { key < ahead.after → Way mem.old root_seat key ahead.deep far.now }
    ensures { Adds key end mem.old mem.new }
{
    if key < ahead.after {
        memory::add_on(mem, far, ahead.deep, key, end);
    } else {
        memory::add(mem, key, end);
    }
}

// One void more, if its piece is kept.
fn put_behind(mem: &mut [u8], kept: bool, key: u64, end: u64)
    requires { kept ≡ true → Roomy mem.old }
    ensures { Puts kept key end mem.old mem.new }
{
    if kept {
        memory::add(mem, key, end);
    }
}

// The void of the leaf gives the time from r up to f: its pieces stay, if they are kept. The way to it is noted, and in `far` one
// that every key from f's first on and below `ahead.after` leads: the piece behind is put in by it.
pub fn split(
    mem: &mut [u8],
    way: &mut [u16],
    leaf: Leaf,
    r: u64,
    f: u64,
    far: &[u16],
    ahead: Foreseen,
)
    requires splittable { Splittable leaf.key leaf.end r f mem.old }
    requires f_le_last_moment { (f ≤ last_moment) × Pointed mem.old way.old leaf.noted leaf.key leaf.end }
    requires ahead { Ahead f ahead.deep ahead.after far.now mem.old }
    ensures { Splits leaf.key leaf.end r f mem.old mem.new }
{
    let floor = memory::floor(mem);
    let behind = ruling::kept::kept(floor, f, leaf.end);
    let next = ruling::key::key(f, ruling::key::channel(leaf.key));
    let front = ruling::kept::kept(floor, ruling::key::start(leaf.key), r);
    if front {
        memory::shorten(mem, way, leaf.noted, leaf.key, r);
        if behind {
            put_in(mem, far, ahead, next, leaf.end);
        }
        return;
    }
    put_behind(mem, behind, next, leaf.end);
    memory::drop(mem, leaf.key);
}

// Whether the void taken leaves two pieces and the room is full.
pub fn too_many(mem: &[u8], leaf: Leaf, r: u64, f: u64) -> bool
    requires { Whole mem.now }
    ensures { (s : State) → Holds mem.now s → result ≡ overfull s leaf.key leaf.end r f }
{
    let floor = memory::floor(mem);
    if ruling::kept::kept(floor, ruling::key::start(leaf.key), r) {
        if ruling::kept::kept(floor, f, leaf.end) {
            return get(mem, memory::ROOM) <= get(mem, memory::KEPT);
        }
    }
    false
}
