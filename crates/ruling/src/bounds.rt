// The table of bounds as one test (01, Bounds; rule/specs/Settings.antt). The one place where the code has its numbers.
ghost use Rattle.std.specs.Prelude.{◌≡◌, List, ℕ, suc};
ghost use Rattle.std.specs.Iterator.{IsFinite, AlwaysYields};
ghost use Rattle.rule.specs.Settings.{longest, between, rising, in_bounds};
ghost use Rattle.ruling.specs.Settings.{settings_of};

pub const MOST_CHANNELS: u64 = 64;

pub const MOST_LINES: u64 = 16;

pub const MOST_ROOM: u64 = 4096;

// The longest delay, burst and leap.
pub const LONGEST: u64 = 4294967295;

// Whether a delay may come next: it is no shorter than the least that may, and not too long.
fn rises(least: u64, delay: u64) -> bool
    ensures { result ≡ between least longest delay }
{
    (least..=LONGEST).contains(&delay)
}

// Whether the delays rise from 1 on, and none is too long.
pub fn rising<I: Iterator<Item = u64>>(delays: I) -> bool
    requires can { I.can_next delays }
    requires ends { IsFinite (I.remaining delays) }
    ensures { (xs : List ℕ) → AlwaysYields I.next_gives (λ x. x) delays xs → result ≡ rising 0 xs }
{
    let mut least: u64 = 1;
    for delay in delays {
        if !rises(least, delay) {
            return false;
        }
        least = delay + 1;
    }
    true
}

// What a link is opened with, beside its floor.
#[derive(Clone, Copy)]
pub struct Settings<'a> {
    pub room: u64,
    pub channels: u64,
    pub leap: u64,
    // The delay of each line, the first one's first.
    pub delays: &'a [u64],
}

impl Settings<'_> {
    // Whether the delays rise.
    fn delays_rise(&self) -> bool
        ensures { result ≡ rising 0 self.now.delays.now }
    {
        rising(self.delays.iter().copied())
    }

    // Whether each is in its bounds.
    pub fn in_bounds(&self) -> bool
        ensures { result ≡ in_bounds (settings_of self.now) }
    {
        (1..=MOST_CHANNELS).contains(&self.channels)
            && self.delays.len() as u64 <= MOST_LINES
            && self.delays_rise()
            && (1..=LONGEST).contains(&self.leap)
            && (self.channels..=MOST_ROOM).contains(&self.room)
    }
}
