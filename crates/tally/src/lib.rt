// The tally by value, the row of an answer's code, and the raising of one of its counts (specs/Counts.antt).
#![tactic(auto)]

ghost use Rattle.std.specs.Prelude.{◌≡◌};
ghost use Rattle.tally.specs.Counts.{row_at, up, raised};

pub mod rows;

#[repr(C)]
#[derive(Clone, Copy, Default)]
pub struct Tally {
    pub bookings: u64,
    pub sweeps: u64,
    pub code3: u64,
    pub code4: u64,
    pub code5: u64,
    pub code6: u64,
    pub code7: u64,
    pub code8: u64,
    pub code9: u64,
    pub code10: u64,
}

// The tally's row of an answer, by numbers: that of what is accepted, or that of its code.
pub fn row(code: u64, accepted: u64) -> u64
    ensures { result ≡ row_at code accepted }
{
    if code == 0 { accepted } else { code - 1 }
}

// One more, and no more than the largest number.
#[tactic(auto, unfolding(crate::specs::Counts::up))]
fn up(n: u64) -> u64
    ensures { result ≡ up n }
{
    n.saturating_add(1)
}

// The tally with one row raised; no row has a number from 10 on.
#[tactic(auto, unfolding(crate::specs::Counts::raised))]
pub fn raise(t: Tally, row: u64) -> Tally
    ensures { result ≡ raised t row }
{
    let mut u = t;
    match row {
        0 => u.bookings = up(t.bookings),
        1 => u.sweeps = up(t.sweeps),
        2 => u.code3 = up(t.code3),
        3 => u.code4 = up(t.code4),
        4 => u.code5 = up(t.code5),
        5 => u.code6 = up(t.code6),
        6 => u.code7 = up(t.code7),
        7 => u.code8 = up(t.code8),
        8 => u.code9 = up(t.code9),
        9 => u.code10 = up(t.code10),
        _ => {}
    }
    u
}
