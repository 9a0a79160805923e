// Acting on the single record at the start of a buffer (specs/Calls.antt, `Acts`): a run with room for one answer.
ghost use Rattle.rule.specs.Refusal.{ending_of};
ghost use Rattle.calls.specs.Calls.{Unused, Acts};

use rule::answer::Answer;
use rule::refusal::Ending;
use tally::Tally;

// What a single order gives: the seven numbers and the bytes used.
#[repr(C)]
#[derive(Clone, Copy)]
pub struct Acted {
    pub answer: Answer,
    pub used: usize,
}

// The same, with the tally after it.
#[derive(Clone, Copy)]
pub struct Done {
    pub tally: Tally,
    pub acted: Acted,
}

// A refusal that is no order: nothing used, no count raised.
fn refused(why: Ending, tally: Tally) -> Done
    ensures { Unused (ending_of why) tally result }
{
    let answer = Answer {
        code: why.into(),
        channel: 0,
        line: 0,
        start: 0,
        finish: 0,
        count: 0,
        dropped: 0,
    };
    Done {
        tally,
        acted: Acted { answer, used: 0 },
    }
}

// With room for seven numbers a run ends after the first record: no byte after it is read.
pub fn act(mem: &mut [u8], tally: Tally, bytes: &[u8]) -> Done
    ensures { Acts tally bytes.now result mem.old mem.new }
{
    let mut numbers = [0u64; 7];
    let done = running::run(mem, tally, bytes, &mut numbers);
    let ran = done.ran;
    if ran.code == u64::from(Ending::NotWhole) {
        return refused(Ending::NotWhole, tally);
    }
    if ran.answered == 0 {
        return refused(Ending::Unread, tally);
    }
    let after = done.tally;
    Done {
        tally: after,
        acted: Acted {
            answer: seven::read(&numbers),
            used: ran.place,
        },
    }
}
