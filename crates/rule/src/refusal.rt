// Why something is refused, and the number that says so (specs/Refusal.antt). What an order is refused by is answered and
// counted; what ends a run, and what an opening is refused by, is not.
ghost use Rattle.std.specs.Prelude.{◌≡◌};
ghost use Rattle.rule.specs.Refusal.{number_of, ending_of, unopened_of};

// The refusals of an order, codes 3 to 10.
#[derive(Clone, Copy, PartialEq, Eq)]
pub enum Refusal {
    NoLength = 3,
    BeforeFloor = 4,
    LineLacked = 5,
    PastLastMoment = 6,
    NothingFits = 7,
    RoomFull = 8,
    SweepBeforeFloor = 9,
    PastLeap = 10,
}

// What ends a run before its end.
#[derive(Clone, Copy, PartialEq, Eq)]
pub enum Ending {
    NotWhole = 2,
    Unread = 11,
    NoRoomForAnswer = 12,
}

// Why nothing is opened.
#[derive(Clone, Copy, PartialEq, Eq)]
pub enum Unopened {
    OutOfBounds = 1,
    Unread = 11,
}

impl From<Refusal> for u64 {
    ghost from_gives = { λ why n. n ≡ number_of why };

    fn from(why: Refusal) -> u64 {
        why as u64
    }
}

impl From<Ending> for u64 {
    ghost from_gives = { λ why n. n ≡ ending_of why };

    fn from(why: Ending) -> u64 {
        why as u64
    }
}

impl From<Unopened> for u64 {
    ghost from_gives = { λ why n. n ≡ unopened_of why };

    fn from(why: Unopened) -> u64 {
        why as u64
    }
}
