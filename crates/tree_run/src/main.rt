// The tree at work: builds a tree of 2,000 voids by a fixed rule, searches it, takes voids out and puts others in their
// places, and prints a digest of every answer. What is compared is the compiled code; that it is safe is proved.
#![tactic(auto)]

ghost use Rattle.std.specs.Prelude.{◌≤◌, ◌<◌, length};
ghost use Rattle.node.specs.Layout.{root_seat, Within};
ghost use Rattle.node.specs.Paths.{longest_way};
ghost use Rattle.tree_run.specs.Grown.{bytes, voids, Has};

use node::ROOT;

const VOIDS: u64 = 2000;

// The memory: the root's node, and two at each of the places from 1 to VOIDS - 1.
const BYTES: usize = node::HEADER_BYTES + node::NODE_BYTES * (2 * VOIDS as usize - 1);

const ROUNDS: u64 = 10000;

// Two numbers made one, below 2^32.
fn mix(digest: u64, v: u64) -> u64
    ensures { result < 4294967296 }
{
    (digest % 4294967296 * 33 + v % 4294967296) % 4294967296
}

// The i-th moment, below 65,536.
fn moment(i: u64) -> u64
    ensures { result < 65536 }
{
    i % 65536 * 40503 % 65536
}

// The i-th key: a start and one of 64 channels.
fn key(i: u64) -> u64
    ensures { result < 67108864 }
{
    moment(i) * 1024 + 1023 - i % 64
}

// The end of the i-th void.
fn end(i: u64) -> u64 {
    moment(i) + 1 + i % 65536 * 7919 % 5000
}

// One void, at the root's seat.
fn plant(mem: &mut [u8])
    requires { Within mem.old root_seat }
    ensures { Has mem.new 1 }
{
    node::save(mem, ROOT, node::leaf(key(0), end(0)));
}

// VOIDS voids, the i-th of which takes the place i.
fn grow(mem: &mut [u8])
    requires { bytes ≤ length mem.old }
    ensures { Has mem.new voids }
{
    plant(mem);
    for i in 1..VOIDS {
        tree::insert(mem, ROOT, key(i), end(i), i);
    }
}

// Searches for ROUNDS bursts. The digest of the answers.
#[tactic(auto, using(crate::proofs::Steps::searchable))]
fn look(mem: &[u8], way: &mut [u16], far: &mut [u16]) -> u64
    requires has { Has mem.now voids }
    requires longest_way_in_bounds { (longest_way ≤ length way.old) × (longest_way ≤ length far.old) }
{
    let mut digest = 0;
    for i in 0..ROUNDS {
        let r = moment(i * 3 + 1);
        let x = search::search(mem, ROOT, r, r + i % 900, way, far);
        digest = mix(mix(digest, x.visits), x.leaf.map_or(0, |leaf| leaf.key));
    }
    digest
}

// The void that a key leads to goes, another takes the place that is free then, and a third ends elsewhere.
fn exchange_one(mem: &mut [u8], i: u64)
    requires { (i < 10000) × Has mem.old voids }
    ensures { Has mem.new voids }
{
    let q = tree::remove(mem, ROOT, key(i * 5));
    tree::insert(mem, ROOT, key(i * 7 + 3), end(i * 7 + 3), q);
    tree::set_end(mem, ROOT, key(i * 11), end(i * 11));
}

// ROUNDS times.
fn exchange(mem: &mut [u8])
    requires { Has mem.old voids }
    ensures { Has mem.new voids }
{
    for i in 0..ROUNDS {
        exchange_one(mem, i);
    }
}

fn say(v: u64) {
    io::print_decimal(1, v);
    io::write_all(1, b"\n");
}

// A digest of the searches before the exchanges, one of those after, and the least end at last.
fn main() {
    let mut mem = [0u8; BYTES];
    let mut way = [0u16; tracing::LONGEST_WAY];
    let mut far = [0u16; tracing::LONGEST_WAY];
    grow(&mut mem);
    say(look(&mem, &mut way, &mut far));
    exchange(&mut mem);
    say(look(&mem, &mut way, &mut far));
    say(node::load(&mem, ROOT).low);
}
