// Which voids are kept: at a floor, and of a booking's pieces (rule/specs/Kept.antt).
ghost use Rattle.std.specs.Prelude.{◌≡◌, ◌≤◌};
ghost use Rattle.rule.specs.Moments.{open_end};
ghost use Rattle.rule.specs.Kept.{least, stays, kept};

use rule::moments::Moment;

// The least end of a void that stays at the floor: one that ends there has ended.
#[tactic(auto, unfolding(rule::specs::Kept::least))]
pub fn least(floor: Moment) -> u64
    ensures { (result ≡ least floor.ticks) × (result ≤ open_end) }
{
    floor.ticks + 1
}

// Whether a void with the end e stays at the floor.
pub fn stays(floor: Moment, e: u64) -> bool
    ensures { result ≡ stays floor.ticks e }
{
    least(floor) <= e
}

// Whether a piece from s up to e is kept: it has a tick, and stays.
pub fn kept(floor: Moment, s: u64, e: u64) -> bool
    ensures { result ≡ kept floor.ticks s e }
{
    s < e && stays(floor, e)
}
