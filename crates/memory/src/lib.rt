// A link's state in lent memory: header, tree, spare places; the three steps that change it.
// Above this crate nobody speaks of places.
#![tactic(auto)]

ghost use Rattle.std.specs.Prelude.{◌≡◌, ◌+◌, ◌*◌, ◌≤◌, ◌<◌};
ghost use Rattle.numbers.specs.Words.{word, store};
ghost use Rattle.rule.specs.Settings.{most_room};
ghost use Rattle.node.specs.Layout.{Within, node_at};
ghost use Rattle.memory.specs.Header.{need};
ghost use Rattle.memory.specs.Holds.{Gives, Whole};
ghost use Rattle.memory.specs.Steps.{Some, Noted, Roomy, Led, Several, CutOut, GivesBack, Shortens, Adds, Drops, Refloors};

use node::{PLACE_WORDS, far, near};
use numbers::words::{get, put};
use rule::moments::Moment;

// The words of the header (specs/Header.antt).
pub const ROOM: usize = 0;

pub const CHANNELS: usize = 1;

pub const LINES: usize = 2;

pub const LEAP: usize = 3;

pub const FLOOR: usize = 4;

// The one that says nothing: it is 0.
pub const UNUSED: usize = 5;

pub const KEPT: usize = 6;

pub const SPARE: usize = 7;

pub const DELAYS: usize = 8;

// The longest way from a root down to a leaf, in seats.
pub const LONGEST_WAY: usize = tracing::LONGEST_WAY;

// The height that marks a spare node.
pub const SPARE_MARK: u64 = 2147483648;

// Takes the first spare place off the list.
fn take_spare(mem: &mut [u8]) -> u64
    requires { Within mem.old (8 * word mem.old 7) }
    ensures { (result ≡ word mem.old 7) × (mem.new ≡ store mem.old 7 (node_at mem.old (8 * result)).place) }
{
    let p = get(mem, SPARE);
    let n = node::load(mem, near(true, PLACE_WORDS * p));
    put(mem, SPARE, n.place);
    p
}

// Puts a place in front of the k spare ones.
pub fn give_spare(mem: &mut [u8], p: u64, k: u64)
    requires { (Within mem.old (8 * p)) × (Within mem.old (8 * p + 4)) × (word mem.old 7 < 65536) }
    ensures { Gives p k mem.old mem.new }
{
    let next = get(mem, SPARE);
    put(mem, SPARE, p);
    let n = node::Node {
        height: SPARE_MARK,
        lo: 0,
        top: 0,
        low: k,
        place: next,
    };
    node::save(mem, near(true, PLACE_WORDS * p), n);
    node::save(mem, far(true, PLACE_WORDS * p), node::leaf(0, 0));
}

// Another end for the void of the key, to which the way noted leads, at least in part.
pub fn shorten(mem: &mut [u8], way: &mut [u16], noted: usize, key: u64, end: u64)
    requires { Noted way.old noted key mem.old }
    ensures { Shortens key end mem.old mem.new }
{
    tree::set_end_on(mem, way, noted, key, end);
}

// One void more, to which the way noted leads. The way is handed on as a slice of its own: so it stays in registers here, and
// nothing waits for its two halves to be written and read again as one (docs/DECISIONS.md).
pub fn add_on(mem: &mut [u8], way: &[u16], depth: usize, key: u64, end: u64)
    requires { Led way.now depth key mem.old }
    ensures { Adds key end mem.old mem.new }
{
    let q = take_spare(mem);
    tree::insert_on(mem, &way[0..], depth, key, end, q);
    let kept = get(mem, KEPT);
    put(mem, KEPT, kept + 1);
}

// One void more.
pub fn add(mem: &mut [u8], key: u64, end: u64)
    requires { Roomy mem.old }
    ensures { Adds key end mem.old mem.new }
{
    let mut way = [0u16; LONGEST_WAY];
    let depth = tracing::trace(mem, node::ROOT, key, &mut way);
    add_on(mem, &way, depth, key, end);
}

// After a removal: its place is spare again, and one void less is kept.
fn give_back(mem: &mut [u8], q: u64)
    requires { CutOut q mem.old }
    ensures { GivesBack q mem.old mem.new }
{
    let kept = get(mem, KEPT);
    let room = get(mem, ROOM);
    give_spare(mem, q, room + 1 - kept);
    put(mem, KEPT, kept - 1);
}

// One void less: the one of the key.
pub fn drop(mem: &mut [u8], key: u64)
    requires { Several mem.old }
    ensures { Drops key mem.old mem.new }
{
    let q = tree::remove(mem, node::ROOT, key);
    give_back(mem, q);
}

// The floor of a whole link.
#[tactic(auto, using(crate::proofs::Whole::floor_low))]
pub fn floor(mem: &[u8]) -> Moment
    requires { Whole mem.now }
    ensures { result.ticks ≡ word mem.now 4 }
{
    let ticks = get(mem, FLOOR);
    Moment { ticks }
}

// Another floor.
pub fn refloor(mem: &mut [u8], moment: u64)
    requires { Some mem.old }
    ensures { Refloors moment mem.old mem.new }
{
    put(mem, FLOOR, moment);
}

// The bytes that a link with that room needs.
pub fn need(room: u64) -> usize
    requires { room ≤ most_room }
    ensures { result ≡ need room }
{
    let seats = (2 * room + 1) as usize;
    node::HEADER_BYTES + node::NODE_BYTES * seats
}
