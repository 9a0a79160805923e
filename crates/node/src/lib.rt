// A node of the tree in lent memory: its words, after the header (docs/ARCHITECTURE.md).
// Above this crate nobody speaks of a node's words: only of the node at a seat.
#![tactic(auto)]

ghost use Rattle.std.specs.Prelude.{◌≡◌, ◌+◌, ◌*◌, ◌<◌};
ghost use Rattle.shape.specs.Side.{near, far};
ghost use Rattle.node.specs.Layout.{half_word, Within, Fits, node_at, leaf_node, with_sums, sums_saved, Saved, Copied};

// The layout: the words and bytes of the header, and those of each node after it. A seat is known by its first word, counted so that the root's is the first after the header.
pub const HEADER_WORDS: usize = 28;

pub const HEADER_BYTES: usize = 8 * HEADER_WORDS;

pub const NODE_WORDS: usize = 4;

pub const NODE_BYTES: usize = 8 * NODE_WORDS;

pub const BEFORE_SEATS: usize = HEADER_WORDS - NODE_WORDS;

// The root's seat.
pub const ROOT: usize = NODE_WORDS;

// A place has the seats of two siblings: the left one's is this many times the place's number.
pub const PLACE_WORDS: u64 = 8;

// A node's links are one word: its height in the upper half, in the lower the left seat of its place, where its children are.
pub const HALF_WORD: u64 = 4294967296;

// A node's height, its sums, and the place of its children, known by its left seat (of a spare place: the number of the next one).
#[derive(Clone, Copy, PartialEq, Eq)]
pub struct Node {
    pub height: u64,
    pub lo: u64,
    pub top: u64,
    pub low: u64,
    pub place: u64,
}

// The node of a void with that key and end.
pub fn leaf(key: u64, end: u64) -> Node
    ensures { result ≡ leaf_node key end }
{
    Node {
        height: 0,
        lo: key,
        top: end,
        low: end,
        place: 0,
    }
}

// Of the two seats of a place, the left one given, the one on the side named, and the other.
pub fn near(left: bool, first: u64) -> usize
    requires { first < half_word }
    ensures { result ≡ near left first (first + 4) }
{
    let at = first as usize;
    if left { at } else { at + NODE_WORDS }
}

pub fn far(left: bool, first: u64) -> usize
    requires { first < half_word }
    ensures { result ≡ far left first (first + 4) }
{
    near(!left, first)
}

// The node at seat s.
pub fn load(mem: &[u8], s: usize) -> Node
    requires { Within mem.now s }
    ensures { result ≡ node_at mem.now s }
{
    let b = s + BEFORE_SEATS;
    let links = numbers::words::get(mem, b + 3);
    Node {
        height: links / HALF_WORD,
        lo: numbers::words::get(mem, b),
        top: numbers::words::get(mem, b + 1),
        low: numbers::words::get(mem, b + 2),
        place: links % HALF_WORD,
    }
}

// Writes the sums of n at seat s; height and place stay.
pub fn save_sums(mem: &mut [u8], s: usize, n: Node)
    requires { Within mem.old s }
    ensures { (mem.new ≡ sums_saved mem.old s n) × Saved s (with_sums n (node_at mem.old s)) mem.old mem.new }
{
    let b = s + BEFORE_SEATS;
    numbers::words::put(mem, b, n.lo);
    numbers::words::put(mem, b + 1, n.top);
    numbers::words::put(mem, b + 2, n.low);
}

// Makes n the node at seat s.
pub fn save(mem: &mut [u8], s: usize, n: Node)
    requires within { Within mem.old s }
    requires fits { Fits n }
    ensures { Saved s n mem.old mem.new }
{
    save_sums(mem, s, n);
    let b = s + BEFORE_SEATS;
    numbers::words::put(mem, b + 3, n.height * HALF_WORD + n.place);
}

// Makes the node at one seat that at another too.
pub fn copy(mem: &mut [u8], from: usize, to: usize)
    requires within { Within mem.old from }
    requires within_2 { Within mem.old to }
    ensures { Copied from to mem.old mem.new }
{
    let a = from + BEFORE_SEATS;
    let links = numbers::words::get(mem, a + 3);
    let sums = Node {
        height: 0,
        lo: numbers::words::get(mem, a),
        top: numbers::words::get(mem, a + 1),
        low: numbers::words::get(mem, a + 2),
        place: 0,
    };
    save_sums(mem, to, sums);
    let b = to + BEFORE_SEATS;
    numbers::words::put(mem, b + 3, links);
}
