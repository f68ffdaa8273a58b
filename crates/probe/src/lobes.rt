// The Poisson, and a lobe as a value.
ghost use Rattle.std.specs.Prelude.{◌≡◌};
ghost use Rattle.helpers.specs.Lobes.{ln_dpois_of};
ghost use Rattle.helpers.specs.Hoists.{lobe_of, density_of};
ghost use Rattle.probe.specs.Flat.{of_lobe, to_lobe};

use helpers::hoists::{Lobe, density, lobe_of};
use helpers::lobes::ln_dpois;
use meaning::flags::{byte_of, is_set};

#[repr(C)]
#[derive(Clone, Copy)]
pub struct FlatLobe {
    // 0, or any other byte.
    pub poisson: u8,
    pub mean: f64,
    pub rate: f64,
    pub size: f64,
    pub gamma: f64,
    pub start: f64,
    pub slope: f64,
}

fn to_lobe(lobe: FlatLobe) -> Lobe
    ensures { result ≡ to_lobe lobe }
{
    Lobe {
        poisson: is_set(lobe.poisson),
        mean: lobe.mean,
        rate: lobe.rate,
        size: lobe.size,
        gamma: lobe.gamma,
        start: lobe.start,
        slope: lobe.slope,
    }
}

pub fn fog_ln_dpois(x: f64, lambda: f64) -> f64
    ensures { result ≡ ln_dpois_of x lambda }
{
    ln_dpois(x, lambda)
}

pub fn fog_lobe_of(mean: f64, dispersion: f64) -> FlatLobe
    ensures { result ≡ of_lobe (lobe_of mean dispersion) }
{
    let lobe = lobe_of(mean, dispersion);
    FlatLobe {
        poisson: byte_of(lobe.poisson),
        mean: lobe.mean,
        rate: lobe.rate,
        size: lobe.size,
        gamma: lobe.gamma,
        start: lobe.start,
        slope: lobe.slope,
    }
}

pub fn fog_density(lobe: FlatLobe, x: f64) -> f64
    ensures { result ≡ density_of (to_lobe lobe) x }
{
    density(to_lobe(lobe), x)
}
