// The spare places: a list threaded through them, each marked with the number of those after it (specs/Parts.antt).
ghost use Rattle.std.specs.Prelude.{◌≡◌};
ghost use Rattle.memory.specs.Holds.{spare_node};
ghost use Rattle.node.specs.declared.Node.{Node};
ghost use Rattle.node.specs.Layout.{leaf_node};
ghost use Rattle.settled.specs.Says.{Says};
ghost use Rattle.settled.specs.Settled.{Settled};
ghost use Rattle.whole.specs.Parts.{Spared};

use node::Node;

// Whether n is the left node of a spare place with so many after it.
fn spare(n: Node, after: u64) -> bool
    ensures { Says (n ≡ spare_node after n.place) result }
{
    let marked = Node {
        height: memory::SPARE_MARK,
        lo: 0,
        top: 0,
        low: after,
        place: n.place,
    };
    n == marked
}

// Whether n is all 0, as the right node of a spare place.
fn blank(n: Node) -> bool
    ensures { Says (n ≡ leaf_node 0 0) result }
{
    n == node::leaf(0, 0)
}

// Whether the spare places are all there, from the header's first one on.
pub fn spared(mem: &[u8]) -> bool
    requires { Settled mem.now }
    ensures { Says (Spared mem.now) result }
{
    let room = numbers::words::get(mem, memory::ROOM);
    let kept = numbers::words::get(mem, memory::KEPT);
    let mut at = numbers::words::get(mem, memory::SPARE);
    for after in (0..room + 1 - kept).rev() {
        if !(1..=room).contains(&at) {
            return false;
        }
        let n = node::load(mem, node::near(true, node::PLACE_WORDS * at));
        let beside = node::load(mem, node::far(true, node::PLACE_WORDS * at));
        if !spare(n, after) || !blank(beside) {
            return false;
        }
        at = n.place;
    }
    at == 0
}
