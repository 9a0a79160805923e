// Sweeping one link: the voids that end at or before the moment go (crate clearing), and the floor is set.
#![tactic(auto)]

ghost use Rattle.std.specs.Prelude.{◌≡◌, IfOk};
ghost use Rattle.rule.specs.Answer.{answer_of};
ghost use Rattle.state.specs.State.{State};
ghost use Rattle.state.specs.Sound.{Sound};
ghost use Rattle.memory.specs.Holds.{Holds, Whole};
ghost use Rattle.sweeping.specs.Swept.{Sweeps};

use numbers::words::get;
use rule::answer::{Answer, Refused};
use rule::moments::Moment;

// Sweeps a whole link to a moment. A refusal leaves it as it was.
pub fn sweep(mem: &mut [u8], moment: Moment) -> Result<Answer, Refused>
    requires whole { Whole mem.old }
    ensures sweeps { (s : State) → Sound s → Holds mem.old s → Sweeps moment.ticks (answer_of result) mem.old mem.new s }
    ensures accepted { IfOk result (λ answer. answer.code ≡ 0) }
{
    let floor = memory::floor(mem);
    let leap = get(mem, memory::LEAP);
    rule::codes::check_sweep(floor, leap, moment.ticks)?;
    let dropped = clearing::clear(mem, ruling::kept::least(moment));
    memory::refloor(mem, moment.ticks);
    Ok(Answer {
        code: 0,
        channel: 0,
        line: 0,
        start: 0,
        finish: 0,
        count: 0,
        dropped,
    })
}
