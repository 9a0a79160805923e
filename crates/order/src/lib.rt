// The record reader: the bytes at the start of a buffer, as a record or `Unread`.
// Every byte string is answered; nothing here knows a link.
#![tactic(auto)]

ghost use Rattle.std.specs.Prelude.{◌≡◌, ◌+◌, ◌*◌, ◌^◌, ◌≤◌, ◌<◌, ◌↔◌, IsOk, length, take};
ghost use Rattle.digits.specs.Digits.{field};
ghost use Rattle.rule.specs.Refusal.{unopened_of};
ghost use Rattle.order.specs.Records.{delays_at, opening_of, booking_of, compact_of, sweep_of};
ghost use Rattle.order.specs.Read.{meant, Narrow, Reads, ReadsOpening, delay_of};

use digits::field;
use rule::moments::Moment;
use rule::refusal::Unopened;

// What a record says, with its length. A compact booking is a booking with no line permitted; an opening's delays stay
// in the record (`delay`).
#[derive(Clone, Copy)]
pub enum Record {
    Opening {
        channels: u64,
        lines: u64,
        leap: u64,
        floor: Moment,
        used: usize,
    },
    Booking {
        arrival: Moment,
        length: u64,
        lines: u64,
        used: usize,
    },
    Sweep {
        moment: Moment,
        used: usize,
    },
}

// The bytes say no record: "unknown mark, .. record cut short, or no byte at all".
#[derive(Clone, Copy)]
pub struct Unread;

impl From<Unread> for Unopened {
    ghost from_gives = { λ _ why. unopened_of why ≡ 11 };

    fn from(_: Unread) -> Unopened {
        Unopened::Unread
    }
}

// "record cut short": a record of n bytes is to be there whole.
fn whole(s: &[u8], n: usize) -> Result<(), Unread>
    ensures { IsOk result ↔ (n ≤ length s.now) }
{
    if s.len() < n {
        return Err(Unread);
    }
    Ok(())
}

// The moment in the six bytes from a place on.
fn moment_at(s: &[u8], place: usize) -> Moment
    requires { place + 6 ≤ length s.now }
    ensures { result.ticks ≡ field place 6 s.now }
{
    Moment {
        ticks: field(s, place, 6),
    }
}

#[tactic(auto, unfolding(crate::specs::Records::opening_of))]
fn opening(s: &[u8]) -> Result<Record, Unread>
    ensures { (meant s.now result ≡ opening_of s.now) × Narrow result }
{
    whole(s, 14)?;
    let lines = field(s, 3, 1);
    let used = 14 + 4 * (lines as usize);
    whole(s, used)?;
    let channels = field(s, 2, 1);
    let leap = field(s, 4, 4);
    let floor = moment_at(s, 8);
    Ok(Record::Opening {
        channels,
        lines,
        leap,
        floor,
        used,
    })
}

#[tactic(auto, unfolding(crate::specs::Records::booking_of))]
fn booking(s: &[u8]) -> Result<Record, Unread>
    ensures { (meant s.now result ≡ booking_of s.now) × Narrow result }
{
    whole(s, 14)?;
    let arrival = moment_at(s, 2);
    let length = field(s, 8, 4);
    let lines = field(s, 12, 2);
    Ok(Record::Booking {
        arrival,
        length,
        lines,
        used: 14,
    })
}

#[tactic(auto, unfolding(crate::specs::Records::compact_of))]
fn compact(s: &[u8]) -> Result<Record, Unread>
    ensures { (meant s.now result ≡ compact_of s.now) × Narrow result }
{
    whole(s, 10)?;
    let arrival = moment_at(s, 2);
    let length = field(s, 8, 2);
    Ok(Record::Booking {
        arrival,
        length,
        lines: 0,
        used: 10,
    })
}

#[tactic(auto, unfolding(crate::specs::Records::sweep_of))]
fn sweep(s: &[u8]) -> Result<Record, Unread>
    ensures { (meant s.now result ≡ sweep_of s.now) × Narrow result }
{
    whole(s, 8)?;
    let moment = moment_at(s, 2);
    Ok(Record::Sweep { moment, used: 8 })
}

// What the record at the start of the bytes says.
pub fn read(s: &[u8]) -> Result<Record, Unread>
    ensures { Reads s.now result }
{
    whole(s, 2)?;
    let mark = field(s, 0, 2) as u16;
    match mark {
        0x4F4C => opening(s),
        0x4F42 => booking(s),
        0x4F43 => compact(s),
        0x4F53 => sweep(s),
        _ => Err(Unread),
    }
}

// What an opening at the start of the bytes says; any other mark is refused. Opening has a reader of its own so that `read`,
// called by a run's loop alone, is compiled into that loop (docs/DECISIONS.md).
pub fn read_opening(s: &[u8]) -> Result<Record, Unread>
    ensures { ReadsOpening s.now result }
{
    whole(s, 2)?;
    let mark = field(s, 0, 2) as u16;
    match mark {
        0x4F4C => opening(s),
        _ => Err(Unread),
    }
}

// The delay of line i + 1 in an opening's record; 0 where the bytes do not reach so far.
pub fn delay(s: &[u8], i: usize) -> u64
    ensures { (result ≡ delay_of i s.now) × (result < 2 ^ 32) }
{
    if 256 <= i {
        return 0;
    }
    let at = 14 + 4 * i;
    if s.len() < at + 4 {
        return 0;
    }
    field(s, at, 4)
}

// The delays of an opening with n lines, at most 16, in an array.
pub fn delays_of(bytes: &[u8], n: usize) -> [u64; 16]
    requires { (n ≤ 16) × (14 + 4 * n ≤ length bytes.now) }
    ensures { (length result ≡ 16) × (take n result ≡ delays_at 14 n bytes.now) }
{
    let mut delays = [0u64; 16];
    for i in 0..n {
        delays[i] = delay(bytes, i);
    }
    delays
}
