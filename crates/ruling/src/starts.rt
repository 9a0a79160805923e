// Which delayed starts are tried (rule/specs/Starts.antt).
ghost use Rattle.std.specs.Prelude.{◌≡◌, ◌≤◌, ◌<◌};
ghost use Rattle.rule.specs.Settings.{longest, most_lines};
ghost use Rattle.rule.specs.Starts.{tried};

use rule::moments::{LAST_MOMENT, Moment};

// Whether the start that line i + 1 delays by d is tried, for a burst that holds its channel for h ticks.
pub fn tried(r: Moment, h: u64, permitted: u64, i: u64, d: u64) -> bool
    requires { (h ≤ longest) × (d ≤ longest) × (i < most_lines) }
    ensures { result ≡ tried r.ticks h permitted i d }
{
    (permitted >> i) % 2 == 1 && r.ticks + d + h <= LAST_MOMENT
}
