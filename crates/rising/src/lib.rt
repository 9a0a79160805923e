// The way up again, after a change at its end: summed up or balanced node after node, as far as anything changes.
// Which change it is only the contracts say (specs/Rises.antt): the code is the same for all three.
#![tactic(auto)]

ghost use Rattle.rising.specs.Rises.{Settled, Settles, Risen, Rises};

use node::PLACE_WORDS;

// Sums up the way anew from a seat upward, as far as anything changes. The seat below a node tells its children's place.
pub fn settle(mem: &mut [u8], way: &[u16], from: usize)
    requires { Settled way.now from mem.old }
    ensures { Settles way.now from mem.old mem.new }
{
    for i in (0..from).rev() {
        let q = way[i + 1] as u64 / PLACE_WORDS * PLACE_WORDS;
        if !summing::sum_up(mem, way[i] as usize, q) {
            return;
        }
    }
}

// Balances the way upward from a seat whose tree has changed, as far as heights change, and settles the rest.
pub fn rise(mem: &mut [u8], way: &[u16], from: usize)
    requires { Risen way.now from mem.old }
    ensures { Rises way.now from mem.old mem.new }
{
    for i in (0..from).rev() {
        let q = way[i + 1] as u64 / PLACE_WORDS * PLACE_WORDS;
        let s = way[i] as usize;
        let was = node::load(mem, s).height;
        turning::balance(mem, s, q);
        if node::load(mem, s).height == was {
            settle(mem, way, i);
            return;
        }
    }
}
