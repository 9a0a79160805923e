// The tree's functions as an archive, for the benchmark (bench/tree): each asks what the tree's own function asks.
#![tactic(auto)]

ghost use Rattle.std.specs.Prelude.{◌≤◌};
ghost use Rattle.rule.specs.Moments.{last_moment};
ghost use Rattle.node.specs.Layout.{Within, node_at};
ghost use Rattle.tracing.specs.Alone.{Alone};
ghost use Rattle.tree.specs.OnWays.{Insertable};

#[unsafe(no_mangle)]
pub extern "C" fn tree_plant(mem: &mut [u8], s: usize, key: u64, end: u64)
    requires { Within mem.old s }
{
    node::save(mem, s, node::leaf(key, end));
}

#[unsafe(no_mangle)]
pub extern "C" fn tree_insert(mem: &mut [u8], root: usize, key: u64, end: u64, q: u64)
    requires { Insertable mem.old root key end q }
{
    tree::insert(mem, root, key, end, q);
}

#[unsafe(no_mangle)]
pub extern "C" fn tree_remove(mem: &mut [u8], root: usize, key: u64) -> u64
    requires bound { 1 ≤ (node_at mem.old root).height }
    requires alone { Alone mem.old root }
{
    tree::remove(mem, root, key)
}

#[unsafe(no_mangle)]
pub extern "C" fn tree_set_end(mem: &mut [u8], root: usize, key: u64, end: u64)
    requires { Alone mem.old root }
{
    tree::set_end(mem, root, key, end);
}

#[unsafe(no_mangle)]
pub extern "C" fn tree_search(mem: &[u8], root: usize, r: u64, f: u64) -> u64
    requires alone { Alone mem.now root }
    requires r_le_last_moment { (r ≤ last_moment) × (f ≤ last_moment) }
{
    let mut way = [0u16; tracing::LONGEST_WAY];
    let mut far = [0u16; tracing::LONGEST_WAY];
    let x = search::search(mem, root, r, f, &mut way, &mut far);
    x.visits
}
