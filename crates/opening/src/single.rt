// A link of one channel, written into memory of any content: header, one leaf at the root's seat, all other places spare.
ghost use Rattle.std.specs.Prelude.{◌≡◌, ◌+◌, ◌≤◌, ◌<◌, length, get_or};
ghost use Rattle.numbers.specs.Words.{word};
ghost use Rattle.rule.specs.Settings.{most_lines, most_room};
ghost use Rattle.ruling.specs.Settings.{settings_of};
ghost use Rattle.node.specs.Layout.{most_places};
ghost use Rattle.state.specs.Open.{single};
ghost use Rattle.memory.specs.Header.{need};
ghost use Rattle.memory.specs.Holds.{After};
ghost use Rattle.opening.specs.Stages.{Tail, bare_header, Draft, Laid};

use numbers::words::put;
use rule::moments::{Moment, OPEN_END};
use ruling::bounds::Settings;

// The delay of line i + 1, and 0 where there is none.
fn delay(delays: &[u64], i: usize) -> u64
    ensures { result ≡ get_or delays.now i 0 }
{
    delays.get(i).copied().unwrap_or(0)
}

// The header's last twenty words: the delays, then zeros.
fn put_delays(mem: &mut [u8], delays: &[u64])
    requires { 224 ≤ length mem.old }
    ensures { Tail 20 delays.now mem.old mem.new }
{
    for i in 0..20 {
        put(mem, memory::DELAYS + i, delay(delays, i));
    }
}

// The header of a link with one channel, one void and no spare place yet.
fn put_header(mem: &mut [u8], settings: &Settings, floor: u64)
    requires { (224 ≤ length mem.old) × (length settings.now.delays.now ≤ most_lines) }
    ensures { Draft (bare_header (settings_of settings.now) floor) mem.old mem.new }
{
    put_delays(mem, settings.delays);
    put(mem, memory::ROOM, settings.room);
    put(mem, memory::CHANNELS, 1);
    put(mem, memory::LINES, settings.delays.len() as u64);
    put(mem, memory::LEAP, settings.leap);
    put(mem, memory::FLOOR, floor);
    put(mem, memory::UNUSED, 0);
    put(mem, memory::KEPT, 1);
    put(mem, memory::SPARE, 0);
}

// The n places from 1 to n become the spare ones, the last one first.
fn lay(mem: &mut [u8], n: u64)
    requires { (need n ≤ length mem.old) × (n < most_places) × (word mem.old 7 < 65536) }
    ensures { Laid n n mem.old mem.new }
{
    for k in 0..n {
        memory::give_spare(mem, n - k, k);
    }
}

// The link of these settings with one channel in place of theirs.
pub fn open_single(mem: &mut [u8], settings: &Settings, floor: Moment)
    requires { (need settings.now.room ≤ length mem.old) × (settings.now.room ≤ most_room) × (length settings.now.delays.now ≤ most_lines) }
    ensures { After mem.old mem.new (single (settings_of settings.now) floor.ticks) }
{
    put_header(mem, settings, floor.ticks);
    let key = ruling::key::key(floor.ticks, 0);
    node::save(mem, node::ROOT, node::leaf(key, OPEN_END));
    lay(mem, settings.room);
}
