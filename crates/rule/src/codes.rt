// The codes 3 to 6 of a booking, 9 and 10 of a sweep (specs/Codes.antt).
ghost use Rattle.std.specs.Prelude.{◌≡◌, ◌≤◌, length};
ghost use Rattle.rule.specs.Settings.{Settings, longest, most_lines};
ghost use Rattle.rule.specs.Codes.{booking_code, sweep_code};
ghost use Rattle.rule.specs.Refusal.{code_of};

use crate::fit;
use crate::moments::{LAST_MOMENT, Moment};
use crate::refusal::Refusal;

// Whether a booking on a link with so many lines is refused by 3 to 6, before any void is looked at.
pub fn check_booking(
    floor: u64,
    lines: u64,
    arrival: Moment,
    burst: u64,
    permitted: u64,
) -> Result<(), Refusal>
    requires { (burst ≤ longest) × (lines ≤ most_lines) }
    ensures { (g : Settings) → length g.delays ≡ lines → code_of result ≡ booking_code g floor arrival.ticks burst permitted }
{
    if burst == 0 {
        return Err(Refusal::NoLength);
    }
    if arrival.ticks < floor {
        return Err(Refusal::BeforeFloor);
    }
    if 1 <= permitted >> lines {
        return Err(Refusal::LineLacked);
    }
    if LAST_MOMENT < arrival.ticks + fit::hold(burst) {
        return Err(Refusal::PastLastMoment);
    }
    Ok(())
}

// Whether a sweep is refused by 9 or 10.
pub fn check_sweep(floor: Moment, leap: u64, moment: u64) -> Result<(), Refusal>
    requires { leap ≤ longest }
    ensures { (g : Settings) → g.leap ≡ leap → code_of result ≡ sweep_code g floor.ticks moment }
{
    if moment < floor.ticks {
        return Err(Refusal::SweepBeforeFloor);
    }
    if floor.ticks + leap < moment {
        return Err(Refusal::PastLeap);
    }
    Ok(())
}
