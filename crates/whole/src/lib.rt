// Whether lent memory holds a whole link, for every content and every length (01, What comes back, code 2). Three parts: the header
// (crate settled), the tree (crate survey), the spare places. That no place is used twice follows, and is not checked.
#![tactic(auto)]

ghost use Rattle.memory.specs.Holds.{Whole};
ghost use Rattle.settled.specs.Says.{Says};

pub mod spares;

pub fn whole(mem: &[u8]) -> bool
    ensures { Says (Whole mem.now) result }
{
    node::HEADER_BYTES <= mem.len()
        && settled::settled(mem)
        && survey::tree(mem)
        && spares::spared(mem)
}
