// Opening from the OL record at the start of a buffer (specs/Opens.antt).
ghost use Rattle.calls.specs.Opens.{Opens, opened_of};

use order::Record;
use rule::refusal::Unopened;
use ruling::bounds::{MOST_LINES, Settings};

#[repr(C)]
#[derive(Clone, Copy)]
pub struct Opened {
    pub code: u64,
    pub used: usize,
}

// The bytes used by an opening that is accepted.
fn try_open(mem: &mut [u8], room: u64, bytes: &[u8]) -> Result<usize, Unopened>
    ensures { Opens room bytes.now (opened_of result) mem.old mem.new }
{
    let Record::Opening {
        channels,
        lines,
        leap,
        floor,
        used,
    } = order::read_opening(bytes)?
    else {
        return Err(Unopened::Unread);
    };
    if MOST_LINES < lines {
        return Err(Unopened::OutOfBounds);
    }
    let n = lines as usize;
    let delays = order::delays_of(bytes, n);
    let settings = Settings {
        room,
        channels,
        leap,
        delays: &delays[..n],
    };
    opening::open(mem, &settings, floor)?;
    Ok(used)
}

pub fn open(mem: &mut [u8], room: u64, bytes: &[u8]) -> Opened
    ensures { Opens room bytes.now result mem.old mem.new }
{
    match try_open(mem, room, bytes) {
        Ok(used) => Opened { code: 0, used },
        Err(why) => Opened {
            code: why.into(),
            used: 0,
        },
    }
}
