// Laws for the crates above: each is the contract of a function with an empty body.
ghost use Rattle.std.specs.Prelude.{List, ℕ};
ghost use Rattle.ctl_tunnels.specs.Halves.{IsHalfName, half_named};

/// A name is read as the half that has this name.
pub fn half_names_are_read()
    ensures { (name : List ℕ) → IsHalfName name (half_named name) }
{}
