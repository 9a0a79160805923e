// The whole part of log2 m, from the leading zeros of m.
// It allows the tree's height and bounds the visits of a search.
ghost use Rattle.std.specs.Prelude.{◌≤◌};
ghost use Rattle.numbers.specs.Powers.{Log2};

pub fn log2_floor(m: u64) -> u64
    requires { 1 ≤ m }
    ensures { Log2 m result }
{
    let zeros = u64::leading_zeros(m);
    (63 - zeros) as u64
}
