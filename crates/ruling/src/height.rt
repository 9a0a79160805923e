// The height allowed, from the leading zeros of the number of leaves (rule/specs/Height.antt).
ghost use Rattle.std.specs.Prelude.{◌≤◌};
ghost use Rattle.rule.specs.Height.{Allowed};

pub fn allowed(leaves: u64) -> u64
    requires { 1 ≤ leaves }
    ensures { Allowed leaves result }
{
    2 * numbers::powers::log2_floor(leaves)
}
