// A value held to one side of a bound. With these a routine's last step keeps a rule by its form, on every input.
// One function with the comparison as a closure would be no shorter than the two.
ghost use Rattle.std.specs.Prelude.{◌≡◌};
ghost use Rattle.routines.specs.Held.{at_least, at_most};

// v where it is above the bound; otherwise, and for a NaN, the bound.
#[tactic(auto, unfolding(crate::specs::Held::at_least))]
pub fn at_least(v: f64, bound: f64) -> f64
    ensures { result ≡ at_least v bound }
{
    if v > bound { v } else { bound }
}

// v where it is below the bound; otherwise, and for a NaN, the bound.
#[tactic(auto, unfolding(crate::specs::Held::at_most))]
pub fn at_most(v: f64, bound: f64) -> f64
    ensures { result ≡ at_most v bound }
{
    if v < bound { v } else { bound }
}
