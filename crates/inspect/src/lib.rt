// One node of a tree that may be spoiled: whether it is a leaf that comes next, or sums up two others (specs/Inspect.antt).
// Nothing here follows a link; the walk from node to node is crate survey.
#![tactic(auto)]

ghost use Rattle.std.specs.Prelude.{◌≡◌, ◌≤◌, ◌<◌, length};
ghost use Rattle.state.specs.Sound.{Lawful};
ghost use Rattle.settled.specs.Says.{Says};
ghost use Rattle.inspect.specs.Inspect.{Single, Joined, Leaf};

use node::Node;
use rule::moments::{Moment, OPEN_END};

// Whether n is a leaf's node, but for its key and its end.
fn single(n: Node) -> bool
    ensures { Says (Single n) result }
{
    n == node::leaf(n.lo, n.top)
}

// Whether n sums up x and y, and their heights are balanced.
pub fn joined(n: Node, x: Node, y: Node) -> bool
    requires { (x.height < 18446744073709551615) × (y.height < 18446744073709551615) }
    ensures { Says (Joined n x y) result }
{
    let over = Node {
        height: x.height.max(y.height) + 1,
        lo: x.lo,
        top: x.top.max(y.top),
        low: x.low.min(y.low),
        place: n.place,
    };
    n == over && x.height <= y.height + 1 && y.height <= x.height + 1
}

// Whether a link may have a void with that key and end.
fn lawful(channels: u64, floor: Moment, key: u64, end: u64) -> bool
    ensures { Says (Lawful channels floor.ticks key end) result }
{
    ruling::key::channel(key) < channels
        && ruling::key::start(key) < end
        && end <= OPEN_END
        && ruling::kept::stays(floor, end)
}

// Whether n is a leaf that comes next; its end is then its channel's last.
pub fn leaf(ends: &mut [u64], channels: u64, floor: Moment, after: u64, n: Node) -> bool
    requires { channels ≤ length ends.old }
    ensures { Leaf channels floor.ticks after ends.old ends.new n result }
{
    let channel = ruling::key::channel(n.lo) as usize;
    let next = single(n)
        && after <= n.lo
        && lawful(channels, floor, n.lo, n.top)
        && ends[channel] <= ruling::key::start(n.lo);
    if next {
        ends[channel] = n.top + 1;
    }
    next
}
