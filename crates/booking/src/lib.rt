// Booking on one link: the codes that need no search, the void found (crate seeking) taken apart (crate taking), the answer.
// The starts tried, the room and the pieces are proved there; here they come together.
#![tactic(auto)]

ghost use Rattle.std.specs.Prelude.{◌≡◌, ◌≤◌, IfOk};
ghost use Rattle.rule.specs.Settings.{longest};
ghost use Rattle.rule.specs.Answer.{answer_of};
ghost use Rattle.state.specs.State.{State};
ghost use Rattle.state.specs.Sound.{Sound};
ghost use Rattle.memory.specs.Holds.{Holds, Whole};
ghost use Rattle.booking.specs.Book.{Books};

use numbers::words::get;
use rule::answer::{Answer, Refused};
use rule::moments::Moment;
use rule::refusal::Refusal;

// Books a burst on a whole link. A refusal leaves it as it was.
pub fn book(mem: &mut [u8], arrival: Moment, burst: u64, permitted: u64) -> Result<Answer, Refused>
    requires burst_le_longest { burst ≤ longest }
    requires whole { Whole mem.old }
    ensures books { (s : State) → Sound s → Holds mem.old s → Books arrival.ticks burst permitted (answer_of result) mem.old mem.new s }
    ensures accepted { IfOk result (λ answer. answer.code ≡ 0) }
{
    let floor = memory::floor(mem);
    let lines = get(mem, memory::LINES);
    rule::codes::check_booking(floor.ticks, lines, arrival, burst, permitted)?;
    let hold = rule::fit::hold(burst);
    let mut way = [0u16; memory::LONGEST_WAY];
    let mut far = [0u16; memory::LONGEST_WAY];
    let tried = seeking::seek(mem, arrival, hold, permitted, &mut way, &mut far);
    let count = tried.count;
    let Some(x) = tried.taken else {
        let why = Refusal::NothingFits;
        return Err(Refused { why, count });
    };
    let start = x.start;
    let free = start + hold;
    if taking::too_many(mem, x.leaf, start, free) {
        let why = Refusal::RoomFull;
        return Err(Refused { why, count });
    }
    taking::split(mem, &mut way, x.leaf, start, free, &far, x.ahead);
    Ok(Answer {
        code: 0,
        channel: ruling::key::channel(x.leaf.key),
        line: x.line,
        start,
        finish: start + burst,
        count,
        dropped: 0,
    })
}
