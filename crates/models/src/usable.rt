// Whether the model can use a list's parameters.
// Ported from src/preprocessing/models.rs of bacpop/sparrowhawk-asm, f1f8af1232, Apache-2.0; ported and changed.
ghost use Rattle.std.specs.Prelude.{◌≡◌};
ghost use Rattle.models.specs.Usable.{shape_usable, error_usable, shelf_usable, params_usable};

use crate::errors::ErrorParams;
use crate::params::Params;
use crate::shelf_rules::shelf_is_valid;
use helpers::shelves::Shelf;
use routines::pick::is_finite;

fn shape_usable(shape: Option<f64>) -> bool
    ensures { result ≡ shape_usable shape }
{
    match shape {
        None => true,
        Some(beta) => is_finite(beta),
    }
}

#[tactic(auto, unfolding(crate::specs::Usable::error_usable))]
fn error_usable(p: ErrorParams) -> bool
    ensures { result ≡ error_usable p }
{
    let shape = p.weibull_shape;
    is_finite(p.tail_exponent)
        && !(p.tail_exponent <= 0.0)
        && 0.0 <= p.singleton_probability
        && p.singleton_probability < 1.0
        && shape_usable(shape)
}

fn shelf_usable(shelf: Option<Shelf>) -> bool
    ensures { result ≡ shelf_usable shelf }
{
    match shelf {
        None => true,
        Some(s) => shelf_is_valid(s),
    }
}

#[tactic(auto, unfolding(crate::specs::Usable::params_usable))]
pub(crate) fn params_usable(p: Params) -> bool
    ensures { result ≡ params_usable p }
{
    let shelf = p.shelf;
    is_finite(p.mean)
        && is_finite(p.dispersion)
        && is_finite(p.target_mode)
        && !(p.mean <= 0.0)
        && error_usable(p.error_params)
        && shelf_usable(shelf)
}
