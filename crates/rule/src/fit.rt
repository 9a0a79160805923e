// The fit of a void, and for how long a burst holds its channel (specs/Fit.antt).
ghost use Rattle.std.specs.Prelude.{◌≡◌, ◌≤◌};
ghost use Rattle.rule.specs.Settings.{Settings, longest};
ghost use Rattle.rule.specs.Fit.{hold, fits};

// For how many ticks a burst holds its channel.
pub fn hold(length: u64) -> u64
    requires { length ≤ longest }
    ensures { ((g : Settings) → result ≡ hold g length) × (result ≤ longest) }
{
    length
}

// Whether a void from s up to e fits a burst that holds its channel from r up to f.
pub fn fits(s: u64, e: u64, r: u64, f: u64) -> bool
    ensures { result ≡ fits s e r f }
{
    s <= r && f <= e
}
