// Words of 64 bits in lent memory, the lowest byte first, at any alignment: each of the two compiles to a single move
// (docs/DECISIONS.md).
ghost use Rattle.std.specs.Prelude.{◌≡◌, ◌+◌, ◌*◌, ◌≤◌, length};
ghost use Rattle.numbers.specs.Words.{word, store};

// Word i.
pub fn get(mem: &[u8], i: usize) -> u64
    requires { 8 * i + 8 ≤ length mem.now }
    ensures { result ≡ word mem.now i }
{
    let at = 8 * i;
    u64::from_le_bytes(mem[at..at + 8].try_into().unwrap())
}

// Makes v word i. Byte by byte, for the sake of speed: `copy_from_slice` tests at run time whether the two overlap (docs/DECISIONS.md).
pub fn put(mem: &mut [u8], i: usize, v: u64)
    requires { 8 * i + 8 ≤ length mem.old }
    ensures { mem.new ≡ store mem.old i v }
{
    let at = 8 * i;
    let bytes = v.to_le_bytes();
    mem[at] = bytes[0];
    mem[at + 1] = bytes[1];
    mem[at + 2] = bytes[2];
    mem[at + 3] = bytes[3];
    mem[at + 4] = bytes[4];
    mem[at + 5] = bytes[5];
    mem[at + 6] = bytes[6];
    mem[at + 7] = bytes[7];
}
