// The doors: the four public calls as C sees them, over one lent memory. Each is the call of crate `calls`, the run that of
// crate `running`; the tally, which those take and give back by value, is taken here by reference.
#![tactic(auto)]

ghost use Rattle.door.specs.Doors.{ActsAt, RunsAt};
ghost use Rattle.calls.specs.Opens.{Opens};
ghost use Rattle.calls.specs.Calls.{Tells};

use calls::act::Acted;
use calls::open::Opened;
use calls::tell::Told;
use running::Ran;
use tally::Tally;

#[unsafe(no_mangle)]
pub extern "C" fn curlywether_open(memory: &mut [u8], room: u64, bytes: &[u8]) -> Opened
    ensures { Opens room bytes.now result memory.old memory.new }
{
    calls::open::open(memory, room, bytes)
}

#[unsafe(no_mangle)]
pub extern "C" fn curlywether_act(memory: &mut [u8], tally: &mut Tally, bytes: &[u8]) -> Acted
    ensures { ActsAt tally.old bytes.now tally.new result memory.old memory.new }
{
    let done = calls::act::act(memory, *tally, bytes);
    *tally = done.tally;
    done.acted
}

#[unsafe(no_mangle)]
pub extern "C" fn curlywether_run(
    memory: &mut [u8],
    tally: &mut Tally,
    records: &[u8],
    answers: &mut [u64],
) -> Ran
    ensures { RunsAt tally.old records.now tally.new result memory.old memory.new answers.old answers.new }
{
    let done = running::run(memory, *tally, records, answers);
    *tally = done.tally;
    done.ran
}

#[unsafe(no_mangle)]
pub extern "C" fn curlywether_tell(memory: &[u8]) -> Told
    ensures { Tells result memory.now }
{
    calls::tell::tell(memory)
}
