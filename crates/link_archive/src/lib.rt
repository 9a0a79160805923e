// The link's own booking, sweeping and whole-link check as an archive, for the benchmark (bench/link) only: no record, no tally.
// No door: these ask what the link's functions ask and promise what those promise, and are not in `make lib`.
#![tactic(auto)]

ghost use Rattle.std.specs.Prelude.{◌≡◌, ◌≤◌};
ghost use Rattle.rule.specs.Moments.{last_moment};
ghost use Rattle.rule.specs.Settings.{longest};
ghost use Rattle.state.specs.State.{State};
ghost use Rattle.state.specs.Sound.{Sound};
ghost use Rattle.memory.specs.Holds.{Holds, Whole};
ghost use Rattle.settled.specs.Says.{Says};
ghost use Rattle.booking.specs.Book.{Books};
ghost use Rattle.sweeping.specs.Swept.{Sweeps};

use rule::answer::Answer;
use rule::moments::Moment;

#[unsafe(no_mangle)]
pub extern "C" fn link_book(mem: &mut [u8], arrival: u64, burst: u64, lines: u64) -> Answer
    requires arrival_le_last_moment { (arrival ≤ last_moment) × (burst ≤ longest) }
    requires whole { Whole mem.old }
    ensures { (s : State) → Sound s → Holds mem.old s → Books arrival burst lines result mem.old mem.new s }
{
    Answer::of(booking::book(mem, Moment { ticks: arrival }, burst, lines))
}

#[unsafe(no_mangle)]
pub extern "C" fn link_sweep(mem: &mut [u8], moment: u64) -> Answer
    requires moment_le_last_moment { moment ≤ last_moment }
    requires whole { Whole mem.old }
    ensures { (s : State) → Sound s → Holds mem.old s → Sweeps moment result mem.old mem.new s }
{
    Answer::of(sweeping::sweep(mem, Moment { ticks: moment }))
}

#[unsafe(no_mangle)]
pub extern "C" fn link_whole(mem: &[u8]) -> bool
    ensures { Says (Whole mem.now) result }
{
    whole::whole(mem)
}
