// The header: its numbers in bounds, its delays rising, its other words 0 (specs/Settled.antt).
// It is the first part of the whole-link check (crate whole), and the other two count on it.
#![tactic(auto)]

ghost use Rattle.std.specs.Prelude.{◌≡◌, ◌+◌, ◌*◌, ◌≤◌, ◌<◌, length};
ghost use Rattle.rule.specs.Settings.{most_lines, rising};
ghost use Rattle.settled.specs.Says.{Says};
ghost use Rattle.settled.specs.Settled.{Bounded, listed, Zeros, Settled};

use numbers::words::get;
use ruling::bounds::{LONGEST, MOST_CHANNELS, MOST_LINES, MOST_ROOM};

// Whether the header's numbers are in bounds.
fn bounded(room: u64, channels: u64, lines: u64, leap: u64, floor: u64, kept: u64) -> bool
    ensures { Says (Bounded room channels lines leap floor kept) result }
{
    (1..=MOST_CHANNELS).contains(&channels)
        && channels <= room
        && room <= MOST_ROOM
        && lines <= MOST_LINES
        && (1..=LONGEST).contains(&leap)
        && floor <= rule::moments::LAST_MOMENT
        && 1 <= kept
        && kept <= room
}

// Whether the delays of so many lines rise strictly, from 1 to the longest.
fn rises(mem: &[u8], lines: usize) -> bool
    requires { (224 ≤ length mem.now) × (lines ≤ most_lines) }
    ensures { result ≡ rising 0 (listed lines mem.now 8) }
{
    ruling::bounds::rising((0..lines).map(|i| get(mem, memory::DELAYS + i)))
}

// Whether the words of the header from one on are 0.
fn zeros(mem: &[u8], from: usize) -> bool
    requires { (224 ≤ length mem.now) × (from ≤ 28) }
    ensures { Says (Zeros mem.now from) result }
{
    (from..node::HEADER_WORDS).all(|i| get(mem, i) == 0)
}

// Whether the header is a whole link's, and the memory as long as its room needs.
pub fn settled(mem: &[u8]) -> bool
    requires { 224 ≤ length mem.now }
    ensures { Says (Settled mem.now) result }
{
    let room = get(mem, memory::ROOM);
    let channels = get(mem, memory::CHANNELS);
    let lines = get(mem, memory::LINES);
    let leap = get(mem, memory::LEAP);
    let floor = get(mem, memory::FLOOR);
    let kept = get(mem, memory::KEPT);
    bounded(room, channels, lines, leap, floor, kept)
        && memory::need(room) <= mem.len()
        && get(mem, memory::UNUSED) == 0
        && rises(mem, lines as usize)
        && zeros(mem, memory::DELAYS + lines as usize)
}
