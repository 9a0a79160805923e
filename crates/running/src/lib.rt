// A run of records, the tally by value, seven numbers of answer for each (specs/Runs.antt, `Runs`). The memory is checked
// once, at the start; nothing is asked of the caller. Crate `calls` acts on one record by it, crate `door` exports it.
#![tactic(auto)]

ghost use Rattle.std.specs.Prelude.{◌≡◌};
ghost use Rattle.running.specs.Runs.{Runs, end_of};

use rule::refusal::Ending;
use tally::Tally;

// What a run gives: the code that ended it, the place of the first byte not acted on, the records answered.
#[repr(C)]
#[derive(Clone, Copy)]
pub struct Ran {
    pub code: u64,
    pub place: usize,
    pub answered: usize,
}

// The same, with the tally after it.
#[derive(Clone, Copy)]
pub struct RunDone {
    pub tally: Tally,
    pub ran: Ran,
}

// What a run gives where it ends, and what ended it.
fn ended(tally: Tally, end: Result<(), Ending>, place: usize, answered: usize) -> RunDone
    ensures { result ≡ record { tally = tally; ran = record { code = end_of end; place = place; answered = answered } } }
{
    let code = match end {
        Ok(()) => 0,
        Err(why) => why.into(),
    };
    RunDone {
        tally,
        ran: Ran {
            code,
            place,
            answered,
        },
    }
}

// Record after record on a whole link, until the bytes are at their end, an answer has no room or a record cannot be read.
pub fn run(mem: &mut [u8], tally: Tally, records: &[u8], answers: &mut [u64]) -> RunDone
    ensures { Runs tally records.now result mem.old mem.new answers.old answers.new }
{
    if !whole::whole(mem) {
        return ended(tally, Err(Ending::NotWhole), 0, 0);
    }
    let mut t = tally;
    let mut place = 0;
    let mut answered = 0;
    let mut written = 0;
    while place < records.len() {
        if answers.len() - written < 7 {
            return ended(t, Err(Ending::NoRoomForAnswer), place, answered);
        }
        let Ok(x) = stepping::step(mem, &records[place..]) else {
            return ended(t, Err(Ending::Unread), place, answered);
        };
        seven::write(answers, written, x.answer);
        t = tally::raise(t, x.row.into());
        place += x.used;
        answered += 1;
        written += 7;
    }
    ended(t, Ok(()), place, answered)
}
