// One record acted on, on a whole link (specs/Steps.antt): what is read decides between the booking, the sweep and `Unread`.
// That the link is whole its caller has checked, once for all records of a run.
#![tactic(auto)]

ghost use Rattle.std.specs.Prelude.{◌≡◌, IfOk};
ghost use Rattle.rule.specs.Answer.{answer_of};
ghost use Rattle.tally.specs.Counts.{index_of, row_at};
ghost use Rattle.memory.specs.Holds.{Whole};
ghost use Rattle.stepping.specs.Steps.{Steps};

use order::{Record, Unread};
use rule::answer::{Answer, Refused};
use tally::rows::Row;

// What one order gives: the seven numbers, the bytes used, and the row of the tally that it raises.
#[derive(Clone, Copy)]
pub struct Single {
    pub answer: Answer,
    pub used: usize,
    pub row: Row,
}

// What an order of so many bytes gives, which is counted in the row named if it is accepted.
fn told(outcome: Result<Answer, Refused>, used: usize, accepted: Row) -> Single
    requires { IfOk outcome (λ answer. answer.code ≡ 0) }
    ensures answer { result.answer ≡ answer_of outcome }
    ensures used { result.used ≡ used }
    ensures row { index_of result.row ≡ row_at (answer_of outcome).code (index_of accepted) }
{
    match outcome {
        Ok(answer) => Single {
            answer,
            used,
            row: accepted,
        },
        Err(refused) => Single {
            answer: refused.into(),
            used,
            row: refused.why.into(),
        },
    }
}

// One record on a whole link; what is no order leaves the link as it was. It has one caller, the loop of `running::run`, and
// leaves the tally to it: so both are compiled into one loop that copies neither an answer nor a tally (docs/DECISIONS.md).
pub fn step(mem: &mut [u8], bytes: &[u8]) -> Result<Single, Unread>
    requires { Whole mem.old }
    ensures { Steps bytes.now result mem.old mem.new }
{
    match order::read(bytes)? {
        Record::Booking {
            arrival,
            length,
            lines,
            used,
        } => {
            let outcome = booking::book(mem, arrival, length, lines);
            Ok(told(outcome, used, Row::Bookings))
        }
        Record::Sweep { moment, used } => {
            let outcome = sweeping::sweep(mem, moment);
            Ok(told(outcome, used, Row::Sweeps))
        }
        Record::Opening { .. } => Err(Unread),
    }
}
