// The packed key of a void's start and channel, and back (rule/specs/Key.antt).
ghost use Rattle.std.specs.Prelude.{◌≡◌, ◌≤◌, ◌<◌};
ghost use Rattle.rule.specs.Moments.{open_end};
ghost use Rattle.rule.specs.Key.{key_of, start_of, channel_of, per_tick};

pub const PER_TICK: u64 = 1024;

pub fn key(start: u64, channel: u64) -> u64
    requires { (start < open_end) × (channel < per_tick) }
    ensures { result ≡ key_of start channel }
{
    start * PER_TICK + (PER_TICK - 1 - channel)
}

pub fn start(key: u64) -> u64
    ensures { result ≡ start_of key }
{
    key / PER_TICK
}

pub fn channel(key: u64) -> u64
    ensures { result ≡ channel_of key }
{
    PER_TICK - 1 - key % PER_TICK
}
