// The search of voids in lent memory (01, The tree and its visits): the walk down from the root, the descent from the
// deepest marked node, both counting their visits as they go.
#![tactic(auto)]

ghost use Rattle.std.specs.Prelude.{◌≡◌, ◌*◌, ◌≤◌, length};
ghost use Rattle.numbers.specs.Case.{pick};
ghost use Rattle.rule.specs.Key.{per_tick};
ghost use Rattle.rule.specs.Moments.{last_moment};
ghost use Rattle.shape.specs.Tree.{Tree};
ghost use Rattle.shape.specs.Visits.{published};
ghost use Rattle.node.specs.Rep.{Stands};
ghost use Rattle.node.specs.Paths.{longest_way};
ghost use Rattle.search.specs.Trails.{Followable, Begun, Follows, FollowsOn, Ahead};
ghost use Rattle.search.specs.Search.{Descendable, Descends, Lowers, Searchable, Walked, Trodden, found_of, Notes};

// The seat of the leaf where a descent ends, and the visits on the way to it.
#[derive(Clone, Copy)]
pub struct Descent {
    pub seat: usize,
    pub visits: u64,
}

// How far down the way of the keys from f on is noted, and the first key that it is not the way of: the least that it turned
// left at.
#[derive(Clone, Copy)]
pub struct Foreseen {
    pub deep: usize,
    pub after: u64,
}

// That way, on its way down, and the place reached.
#[derive(Drop)]
struct Trail {
    place: u64,
    ahead: Foreseen,
}

// Where the walk from the root ends: the leaf reached is so many steps down; the deepest marked node is the left sibling of
// the node `mark` steps down (0 where none is marked), and its children's place is `below`; the visits. Where the second way ends.
#[derive(Drop)]
struct Way {
    depth: usize,
    mark: usize,
    below: u64,
    visits: u64,
    ahead: Foreseen,
}

// The leaf where the search ends: its key and end, and how far down the way to it is noted.
#[derive(Clone, Copy)]
pub struct Leaf {
    pub key: u64,
    pub end: u64,
    pub noted: usize,
}

// Where the search ends: at a leaf, or at none, and its visits. Where the second way ends.
#[derive(Clone, Copy)]
pub struct Found {
    pub leaf: Option<Leaf>,
    pub visits: u64,
    pub ahead: Foreseen,
}

// The visits of a step down: one, or two where both children are looked at.
fn step_visits(both: bool) -> u64
    ensures { (result ≡ pick both 2 1) × (result ≤ 2) }
{
    if both { 2 } else { 1 }
}

// The deepest mark, after a step to `depth`: there if the left child was passed and has an end late enough, else as before.
fn step_mark(passed: bool, late: bool, depth: usize, mark: usize) -> usize
    ensures { result ≡ pick passed (pick late depth mark) mark }
{
    if passed {
        if late { depth } else { mark }
    } else {
        mark
    }
}

// Of two numbers, the one for a turn to the right, or the one for a turn to the left.
fn by_turn(right: bool, y: u64, x: u64) -> u64
    ensures { result ≡ pick right y x }
{
    if right { y } else { x }
}

// A step of a descent: the place reached, and the visits.
#[derive(Drop)]
struct Lowered {
    place: u64,
    visits: u64,
}

// One step down from the node noted `depth` steps down, whose children's place is given, towards the last leaf that ends at f or later:
// right if the right child has such an end, else left. It is noted. The left child is loaded after the note, so that neither place
// waits for the choice between them (docs/DECISIONS.md).
fn step_down(mem: &[u8], place: u64, f: u64, way: &mut [u16], depth: usize) -> Lowered
    requires { Descendable mem.now place way.old depth × (place ≡ 0 → ⊥) }
    ensures { Lowers mem.now f depth way.old way.new result }
{
    let right = node::load(mem, node::far(true, place));
    let late = f <= right.top;
    way[depth + 1] = node::near(!late, place) as u16;
    let left = node::load(mem, node::near(true, place));
    Lowered {
        place: by_turn(late, right.place, left.place),
        visits: step_visits(!late),
    }
}

// From the node noted `depth` steps down, whose children's place is given (0 for a leaf), down to the last leaf that ends at f or later,
// two steps a call. The way is noted on to the leaf; how far down that is goes to `noted` at once, so that nobody waits for what is
// returned call by call.
pub fn descend(
    mem: &[u8],
    place: u64,
    f: u64,
    way: &mut [u16],
    depth: usize,
    noted: &mut usize,
) -> Descent
    requires { Descendable mem.now place way.old depth }
    ensures { Descends mem.now f depth way.old way.new noted.new result }
{
    if place == 0 {
        *noted = depth;
        return Descent {
            seat: way[depth] as usize,
            visits: 0,
        };
    }
    let a = step_down(mem, place, f, way, depth);
    let below = depth + 1;
    if a.place == 0 {
        *noted = below;
        return Descent {
            seat: way[below] as usize,
            visits: a.visits,
        };
    }
    let b = step_down(mem, a.place, f, way, below);
    let d = descend(&mem[0..], b.place, f, way, below + 1, noted);
    Descent {
        seat: d.seat,
        visits: d.visits + b.visits + a.visits,
    }
}

// The second way, at the root.
fn begin(root: usize, place: u64, far: &mut [u16]) -> Trail
    requires { (root ≤ 65535) × (1 ≤ length far.old) }
    ensures { Begun root place result far.old far.new }
{
    far[0] = root as u16;
    Trail {
        place,
        ahead: Foreseen {
            deep: 0,
            after: u64::MAX,
        },
    }
}

// A step down of the second way, if it is not at a leaf: right if the least key there is at or before `behind`. The left
// child is loaded after the note, as in `descend`.
fn follow(mem: &[u8], behind: u64, far: &mut [u16], t: Trail) -> Trail
    requires { Followable mem.now far.old t }
    ensures { Follows mem.now behind t result far.old far.new }
{
    if t.place == 0 {
        return t;
    }
    let v = node::load(mem, node::far(true, t.place));
    let turn = v.lo <= behind;
    let deep = t.ahead.deep + 1;
    far[deep] = node::near(!turn, t.place) as u16;
    let u = node::load(mem, node::near(true, t.place));
    Trail {
        place: by_turn(turn, v.place, u.place),
        ahead: Foreseen {
            deep,
            after: by_turn(turn, t.ahead.after, v.lo),
        },
    }
}

// The rest of its steps.
fn follow_on(mem: &[u8], behind: u64, far: &mut [u16], t: Trail) -> Trail
    requires { Followable mem.now far.old t }
    ensures { FollowsOn mem.now behind t result far.old far.new }
{
    let mut u = t;
    while u.place != 0 {
        u = follow(mem, behind, far, u);
    }
    u
}

// From the root down to a leaf: right exactly if the earliest start there is at or before r. The left child passed at
// a right turn is marked if it has an end at f or later; the last one marked is the deepest. The way is noted.
// Both children's places are used, x's for the mark too: both are loaded at once, and the next one is chosen without a load.
// The way of the keys from f on is followed beside it, and noted in `far`: neither waits for the other.
fn walk(mem: &[u8], root: usize, r: u64, f: u64, way: &mut [u16], far: &mut [u16]) -> Way
    requires { Searchable mem.now root way.old × (longest_way ≤ length far.old) × (r ≤ last_moment) × (f ≤ last_moment) }
    ensures { ((t : Tree) → Stands mem.now root t → Walked mem.now r f t way.new result) × Trodden mem.now root way.new result × Ahead mem.now root (f * per_tick) result.ahead.deep result.ahead.after far.new }
{
    let bound = (r + 1) * ruling::key::PER_TICK;
    let behind = f * ruling::key::PER_TICK;
    let mut depth: usize = 0;
    let mut mark: usize = 0;
    let mut below: u64 = 0;
    let mut visits = 0;
    way[0] = root as u16;
    let mut place = node::load(mem, root).place;
    let mut t = begin(root, place, far);
    while place != 0 {
        let y = node::load(mem, node::far(true, place));
        let x = node::load(mem, node::near(true, place));
        let right = y.lo < bound;
        let late = f <= x.top;
        depth += 1;
        mark = step_mark(right, late, depth, mark);
        below = by_turn(right, by_turn(late, x.place, below), below);
        visits += step_visits(right);
        way[depth] = node::near(!right, place) as u16;
        place = by_turn(right, y.place, x.place);
        t = follow(mem, behind, far, t);
    }
    let e = follow_on(mem, behind, far, t);
    Way {
        depth,
        mark,
        below,
        visits: visits + 1,
        ahead: e.ahead,
    }
}

// The answer at the leaf with the node n.
fn found_at(n: node::Node, visits: u64, noted: usize, ahead: Foreseen) -> Found
    ensures { result ≡ record { leaf = Some (record { key = n.lo; end = n.top; noted = noted }); visits = visits; ahead = ahead } }
{
    let leaf = Leaf {
        key: n.lo,
        end: n.top,
        noted,
    };
    Found {
        leaf: Some(leaf),
        visits,
        ahead,
    }
}

// The leaf that fits r and f with the greatest key, where one fits, and the visits of 01's search for it. The way to it is
// noted; and in `far` that of every key from f on and below `ahead.after`.
pub fn search(mem: &[u8], root: usize, r: u64, f: u64, way: &mut [u16], far: &mut [u16]) -> Found
    requires searchable { Searchable mem.now root way.old }
    requires longest_way_in_bounds { (longest_way ≤ length far.old) × (r ≤ last_moment) × (f ≤ last_moment) }
    ensures { ((t : Tree) → Stands mem.now root t → result ≡ found_of result (published r f t)) × Notes mem.now root way.new result × Ahead mem.now root (f * per_tick) result.ahead.deep result.ahead.after far.new }
{
    let w = walk(mem, root, r, f, way, far);
    let depth = w.depth;
    let n = node::load(mem, way[depth] as usize);
    if rule::fit::fits(ruling::key::start(n.lo), n.top, r, f) {
        return found_at(n, w.visits, depth, w.ahead);
    }
    let mark = w.mark;
    if mark != 0 {
        let seat = way[mark] as usize - node::NODE_WORDS;
        way[mark] = seat as u16;
        let mut noted = mark;
        let d = descend(mem, w.below, f, way, mark, &mut noted);
        let b = node::load(mem, d.seat);
        return found_at(b, w.visits + d.visits, noted, w.ahead);
    }
    Found {
        leaf: None,
        visits: w.visits,
        ahead: w.ahead,
    }
}
