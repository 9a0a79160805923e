// Telling the number of voids kept (specs/Calls.antt, `Tells`).
ghost use Rattle.calls.specs.Calls.{Tells};

use rule::refusal::Ending;

#[repr(C)]
#[derive(Clone, Copy)]
pub struct Told {
    pub code: u64,
    pub voids: u64,
}

pub fn tell(mem: &[u8]) -> Told
    ensures { Tells result mem.now }
{
    if !whole::whole(mem) {
        return Told {
            code: Ending::NotWhole.into(),
            voids: 0,
        };
    }
    Told {
        code: 0,
        voids: numbers::words::get(mem, memory::KEPT),
    }
}
