// The seven numbers of an answer (specs/Answer.antt).
ghost use Rattle.std.specs.Prelude.{◌≡◌, Err};
ghost use Rattle.rule.specs.Answer.{numbers_of, answer_of};

use crate::refusal::Refusal;

#[repr(C)]
#[derive(Clone, Copy)]
pub struct Answer {
    pub code: u64,
    pub channel: u64,
    pub line: u64,
    pub start: u64,
    pub finish: u64,
    pub count: u64,
    pub dropped: u64,
}

// An order refused, after so many visits.
#[derive(Clone, Copy)]
pub struct Refused {
    pub why: Refusal,
    pub count: u64,
}

// An order's count "is 0 under every other refusal" than 7 and 8.
impl From<Refusal> for Refused {
    ghost from_gives = { λ why r. r ≡ record { why = why; count = 0 } };

    fn from(why: Refusal) -> Refused {
        Refused { why, count: 0 }
    }
}

// "A refusal has 0 in all but code and count"
impl From<Refused> for Answer {
    ghost from_gives = { λ r a. a ≡ answer_of (Err r) };

    fn from(refused: Refused) -> Answer {
        Answer {
            code: refused.why.into(),
            channel: 0,
            line: 0,
            start: 0,
            finish: 0,
            count: refused.count,
            dropped: 0,
        }
    }
}

impl Answer {
    // What an order comes to: the answer that accepts it, or its refusal's.
    pub fn of(outcome: Result<Answer, Refused>) -> Answer
        ensures { result ≡ answer_of outcome }
    {
        match outcome {
            Ok(answer) => answer,
            Err(refused) => refused.into(),
        }
    }
}

// The answer whose seven numbers these are, in the order of the statement.
impl From<[u64; 7]> for Answer {
    ghost from_gives = { λ numbers answer. numbers_of answer ≡ numbers };

    fn from(numbers: [u64; 7]) -> Answer {
        let [code, channel, line, start, finish, count, dropped] = numbers;
        Answer {
            code,
            channel,
            line,
            start,
            finish,
            count,
            dropped,
        }
    }
}
