// The walk over a tree that may be spoiled: a survey of its nodes, from left to right, of any memory whatever (specs/Survey.antt, specs/Planted.antt).
// A budget of visits falls by one at each node and a child is lower than its parent, so that the survey ends, and soon, in a
// hostile memory too: a whole tree of m leaves has 2 * m - 1 nodes, and no more are looked at.
#![tactic(auto)]

ghost use Rattle.std.specs.Prelude.{◌≡◌, ℕ, ◌+◌, ◌*◌, ◌≤◌, ◌<◌, length, get_or};
ghost use Rattle.rule.specs.Moments.{open_end};
ghost use Rattle.node.specs.Layout.{most_places};
ghost use Rattle.settled.specs.Says.{Says};
ghost use Rattle.settled.specs.Settled.{Settled};
ghost use Rattle.survey.specs.Survey.{Surveyed, Reach, Seated};
ghost use Rattle.survey.specs.Planted.{Planted};

use rule::moments::{Moment, OPEN_END};

// What the header says that a survey goes by.
#[derive(Clone, Copy)]
struct Header {
    places: u64,
    channels: u64,
    floor: Moment,
}

// Whether a node's children stand at a place of the link's, of which there are so many: it has the left seat there.
fn placed(places: u64, first: u64) -> bool
    requires { places ≤ most_places }
    ensures { Says (Seated places first) result }
{
    first != 0 && first % node::PLACE_WORDS == 0 && first < node::PLACE_WORDS * places
}

// Surveys the tree at a seat, of a height below the limit, with keys from `after` on: one more than its last key, if there is such a tree.
// Each node looked at takes one from the visits, also where there is no such tree.
fn survey(
    mem: &[u8],
    header: &Header,
    ends: &mut [u64],
    visits: &mut u64,
    seat: usize,
    limit: u64,
    after: u64,
) -> Option<u64>
    requires { Reach mem.now ends.old header.now.places header.now.channels seat }
    ensures { Surveyed mem.now header.now.places header.now.channels header.now.floor.ticks ends.old ends.new seat limit after visits.old visits.new result }
{
    if *visits == 0 {
        return None;
    }
    *visits -= 1;
    let n = node::load(mem, seat);
    let h = n.height;
    if limit <= h {
        return None;
    }
    if h == 0 {
        return inspect::leaf(ends, header.channels, header.floor, after, n).then(|| n.lo + 1);
    }
    if !placed(header.places, n.place) {
        return None;
    }
    let l = node::near(true, n.place);
    let r = node::far(true, n.place);
    // no `?`: LLVM takes what follows one for unlikely, and two of them keep `load` from being inlined below
    let Some(middle) = survey(mem, header, ends, visits, l, h, after) else {
        return None;
    };
    let Some(next) = survey(mem, header, ends, visits, r, h, middle) else {
        return None;
    };
    inspect::joined(n, node::load(mem, l), node::load(mem, r)).then_some(next)
}

// Whether the last void of each channel has no end.
fn open_ends(ends: &[u64], channels: usize) -> bool
    requires { channels ≤ length ends.now }
    ensures { Says ((c : ℕ) → c < channels → get_or ends.now c 0 ≡ open_end + 1) result }
{
    ends[..channels].iter().all(|&end| end == OPEN_END + 1)
}

// Whether the tree at the root's seat is a whole link's.
pub fn tree(mem: &[u8]) -> bool
    requires { Settled mem.now }
    ensures { Says (Planted mem.now) result }
{
    let room = numbers::words::get(mem, memory::ROOM);
    let channels = numbers::words::get(mem, memory::CHANNELS);
    let floor = numbers::words::get(mem, memory::FLOOR);
    let kept = numbers::words::get(mem, memory::KEPT);
    let header = Header {
        places: room + 1,
        channels,
        floor: Moment { ticks: floor },
    };
    let limit = ruling::height::allowed(kept) + 1;
    // one for each channel that a link may have
    let mut ends = [0u64; ruling::bounds::MOST_CHANNELS as usize];
    let mut visits = 2 * kept - 1;
    let last = survey(mem, &header, &mut ends, &mut visits, node::ROOT, limit, 0);
    last.is_some() && visits == 0 && open_ends(&ends, channels as usize)
}
