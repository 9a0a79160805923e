// A node over two others in lent memory: its sums, written with it or taken anew.
// What the sums are is node's specs/Layout.antt.
#![tactic(auto)]

ghost use Rattle.std.specs.Prelude.{◌≡◌, ◌-◌, ◌<◌};
ghost use Rattle.shape.specs.Side.{near, far};
ghost use Rattle.node.specs.Layout.{half_word, over_node, summed_node, Over, Mendable, Summable, Sums};

use node::{Node, far, load, near, save, save_sums};

// The least key below two nodes, of which x is on the side named.
fn least(left: bool, x: Node, y: Node) -> u64
    ensures { result ≡ near left x.lo y.lo }
{
    if left { x.lo } else { y.lo }
}

// The node n over two others, of which x is on the side named, its sums taken anew.
fn summed(left: bool, n: Node, x: Node, y: Node) -> Node
    ensures { result ≡ summed_node n (near left x y) (far left x y) }
{
    Node {
        height: n.height,
        lo: least(left, x, y),
        top: x.top.max(y.top),
        low: x.low.min(y.low),
        place: n.place,
    }
}

// The node over two others, x on the side named, which stand at the place with the left seat q.
pub fn over(left: bool, x: Node, y: Node, q: u64) -> Node
    requires { (x.height < half_word - 1) × (y.height < half_word - 1) }
    ensures { result ≡ over_node (near left x y) (far left x y) q }
{
    let bare = Node {
        height: x.height.max(y.height) + 1,
        lo: 0,
        top: 0,
        low: 0,
        place: q,
    };
    summed(left, bare, x, y)
}

// Writes the node at seat s over the nodes at seat q and beside it.
pub fn mend(mem: &mut [u8], s: usize, q: u64)
    requires { Mendable mem.old s q }
    ensures { Over s q mem.old mem.new }
{
    let n = over(true, load(mem, near(true, q)), load(mem, far(true, q)), q);
    save(mem, s, n);
}

// Sums up the nodes at seat q and beside it anew, in the node at seat s over them. Whether that changed anything: height and place stay.
pub fn sum_up(mem: &mut [u8], s: usize, q: u64) -> bool
    requires { Summable mem.old s q }
    ensures { Sums s q result mem.old mem.new }
{
    let n = load(mem, s);
    let x = load(mem, near(true, q));
    let y = load(mem, far(true, q));
    let t = summed(true, n, x, y);
    if t == n {
        return false;
    }
    save_sums(mem, s, t);
    true
}
