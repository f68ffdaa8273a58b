// The Poisson, and a lobe as a value.
ghost use Rattle.std.specs.Prelude.{◌≡◌};
ghost use Rattle.helpers.specs.Lobes.{ln_dpois_of};
ghost use Rattle.helpers.specs.Hoists.{lobe_of, density_of};
ghost use Rattle.probe.specs.Flat.{of_lobe, to_lobe};

use probe::lobes::FlatLobe;

#[unsafe(no_mangle)]
pub extern "C" fn fog_ln_dpois(x: f64, lambda: f64) -> f64
    ensures { result ≡ ln_dpois_of x lambda }
{
    probe::lobes::fog_ln_dpois(x, lambda)
}

#[unsafe(no_mangle)]
pub extern "C" fn fog_lobe_of(mean: f64, dispersion: f64) -> FlatLobe
    ensures { result ≡ of_lobe (lobe_of mean dispersion) }
{
    probe::lobes::fog_lobe_of(mean, dispersion)
}

#[unsafe(no_mangle)]
pub extern "C" fn fog_density(lobe: FlatLobe, x: f64) -> f64
    ensures { result ≡ density_of (to_lobe lobe) x }
{
    probe::lobes::fog_density(lobe, x)
}
