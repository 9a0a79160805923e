// Numbers in a record, most significant byte first: one function for every width.
#![tactic(auto)]

ghost use Rattle.std.specs.Prelude.{◌≡◌, ◌+◌, ◌≤◌, ◌*◌, ◌<◌, ◌^◌, length};
ghost use Rattle.digits.specs.Digits.{digits, field};

// The number that up to eight bytes write: a part of a record, as wide as its field.
pub fn number(s: &[u8]) -> u64
    requires { length s.now ≤ 8 }
    ensures { (result ≡ digits s.now) × (result < 2 ^ (8 * length s.now)) }
{
    let mut so_far: u64 = 0;
    for &byte in s {
        so_far = so_far * 256 + u64::from(byte);
    }
    so_far
}

// The number in the bytes from a place on, so many wide.
pub fn field(s: &[u8], place: usize, width: usize) -> u64
    requires { (width ≤ 8) × (place + width ≤ length s.now) }
    ensures { (result ≡ field place width s.now) × (result < 2 ^ (8 * width)) }
{
    let end = place + width;
    number(&s[place..end])
}
