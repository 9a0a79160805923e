// Moments: the one place where the code has 2^48 (specs/Moments.antt).
ghost use Rattle.std.specs.Prelude.{◌≤◌};
ghost use Rattle.rule.specs.Moments.{last_moment};

pub const OPEN_END: u64 = 281474976710656;

pub const LAST_MOMENT: u64 = 281474976710655;

// "A moment is a whole number of ticks from 0 to 2^48 - 1"
#[derive(Clone, Copy)]
pub struct Moment {
    pub ticks: u64,
    ghost in_bounds: { ticks ≤ last_moment },
}
