// The search over the starts tried of a booking, in their order, up to the first that has a fit.
// It changes nothing; what it finds is answered and taken apart in the crates booking and taking.
#![tactic(auto)]

ghost use Rattle.std.specs.Prelude.{◌+◌, ◌≤◌, length};
ghost use Rattle.numbers.specs.Words.{word};
ghost use Rattle.rule.specs.Moments.{last_moment};
ghost use Rattle.rule.specs.Settings.{longest};
ghost use Rattle.node.specs.Paths.{longest_way};
ghost use Rattle.memory.specs.Holds.{Whole};
ghost use Rattle.seeking.specs.Seek.{StartsOn, Seeks, Points, Foresees};

use numbers::words::get;
use rule::moments::Moment;
use search::{Foreseen, Leaf};

// What is taken: the line, the start, the void, as the search found it; and what is noted of the way of the keys from the burst's
// end on.
#[derive(Clone, Copy)]
pub struct Taken {
    pub line: u64,
    pub start: u64,
    pub leaf: Leaf,
    pub ahead: Foreseen,
}

// What trying the starts came to: what is taken, or nothing, and the visits.
#[derive(Clone, Copy)]
pub struct Tried {
    pub taken: Option<Taken>,
    pub count: u64,
}

// The start on a line, if it is tried: line 0 is the undelayed one.
fn start_on(mem: &[u8], line: usize, arrival: Moment, hold: u64, permitted: u64) -> Option<u64>
    requires hold_bound { (arrival.ticks + hold ≤ last_moment) × (hold ≤ longest) }
    requires whole { Whole mem.now × (line ≤ word mem.now 2) }
    ensures { StartsOn line arrival.ticks hold permitted result mem.now }
{
    if line == 0 {
        return Some(arrival.ticks);
    }
    let before = line - 1;
    let d = get(mem, memory::DELAYS + before);
    if ruling::starts::tried(arrival, hold, permitted, before as u64, d) {
        return Some(arrival.ticks + d);
    }
    None
}

// The starts tried, in their order, up to the first that has a fit: the undelayed one, which is line 0, then each line's. The
// search is called at one place, so that it is built in there.
pub fn seek(
    mem: &[u8],
    arrival: Moment,
    hold: u64,
    permitted: u64,
    way: &mut [u16],
    far: &mut [u16],
) -> Tried
    requires hold_bound { (arrival.ticks + hold ≤ last_moment) × (hold ≤ longest) × (longest_way ≤ length way.old) × (longest_way ≤ length far.old) }
    requires whole { Whole mem.now }
    ensures { Seeks arrival.ticks hold permitted result mem.now × Points mem.now way.new result × Foresees hold mem.now far.new result }
{
    let lines = get(mem, memory::LINES) as usize;
    let mut count = 0;
    for line in 0..=lines {
        if let Some(start) = start_on(mem, line, arrival, hold, permitted) {
            let x = search::search(mem, node::ROOT, start, start + hold, way, far);
            count += x.visits;
            if let Some(leaf) = x.leaf {
                let taken = Taken {
                    line: line as u64,
                    start,
                    leaf,
                    ahead: x.ahead,
                };
                return Tried {
                    taken: Some(taken),
                    count,
                };
            }
        }
    }
    Tried { taken: None, count }
}
