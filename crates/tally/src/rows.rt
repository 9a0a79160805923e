// The tally's rows, the row of each refusal, and the number of each row (specs/Counts.antt).
#![tactic(auto)]

ghost use Rattle.std.specs.Prelude.{◌≡◌, ◌-◌};
ghost use Rattle.rule.specs.Refusal.{number_of};
ghost use Rattle.tally.specs.Counts.{index_of};

use rule::refusal::Refusal;

// The counts of a tally, in their order.
#[derive(Clone, Copy, PartialEq, Eq)]
pub enum Row {
    Bookings,
    Sweeps,
    Code3,
    Code4,
    Code5,
    Code6,
    Code7,
    Code8,
    Code9,
    Code10,
}

// "one for each of codes 3 to 10"
impl From<Refusal> for Row {
    ghost from_gives = { λ why row. index_of row ≡ number_of why - 1 };

    fn from(why: Refusal) -> Row {
        match why {
            Refusal::NoLength => Row::Code3,
            Refusal::BeforeFloor => Row::Code4,
            Refusal::LineLacked => Row::Code5,
            Refusal::PastLastMoment => Row::Code6,
            Refusal::NothingFits => Row::Code7,
            Refusal::RoomFull => Row::Code8,
            Refusal::SweepBeforeFloor => Row::Code9,
            Refusal::PastLeap => Row::Code10,
        }
    }
}

// The place of a row among the counts.
impl From<Row> for u64 {
    ghost from_gives = { λ row n. n ≡ index_of row };

    fn from(row: Row) -> u64 {
        row as u64
    }
}
