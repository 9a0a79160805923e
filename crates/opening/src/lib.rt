// Opening a link: the table of bounds, the need, then a link of one channel and a void more for each further channel.
#![tactic(auto)]

ghost use Rattle.std.specs.Prelude.{◌≡◌};
ghost use Rattle.ruling.specs.Settings.{settings_of};
ghost use Rattle.opening.specs.Opening.{Opens, opened_code};
ghost use Rattle.opening.specs.Stages.{Narrow, Widens};

use rule::moments::{Moment, OPEN_END};
use rule::refusal::Unopened;
use ruling::bounds::Settings;

pub mod single;

// A link of one channel gets the others, each with its void.
fn widen(mem: &mut [u8], channels: u64, floor: u64)
    requires { Narrow channels floor mem.old }
    ensures { Widens channels floor mem.old mem.new }
{
    for channel in 1..channels {
        numbers::words::put(mem, memory::CHANNELS, channel + 1);
        memory::add(mem, ruling::key::key(floor, channel), OPEN_END);
    }
}

// Opens a link in memory of any content; refused, it is as it was.
pub fn open(mem: &mut [u8], settings: &Settings, floor: Moment) -> Result<(), Unopened>
    ensures { Opens (settings_of settings.now) floor.ticks mem.old mem.new (opened_code result) }
{
    if !settings.in_bounds() || mem.len() < memory::need(settings.room) {
        return Err(Unopened::OutOfBounds);
    }
    single::open_single(mem, settings, floor);
    widen(mem, settings.channels, floor.ticks);
    Ok(())
}
