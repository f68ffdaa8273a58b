// What was asked, what the spectrum has, and what is refused, as lines.
ghost use Rattle.std.specs.Prelude.{◌≡◌, length};
ghost use Rattle.templates.specs.Cut.{put_at, end_at};
ghost use Rattle.record.specs.Heads.{window_number, options_text, seeds_text, shapes_text, configuration_text};
ghost use Rattle.record.specs.Heads.{configurations_text, odd_of, warnings_text, asked_text, spectrum_text};
ghost use Rattle.record.specs.Heads.{refusal_text, place_text};

use fitter::asking::{Asked, SEEDS, SHAPES, WindowKind, configuration, window_end_of, window_kind};
use routines::bits::pattern;
use templates::filling::fill;

// It goes up with every change of the record or of what it says.
pub const VERSION: u64 = 2;

// The part of `{cut|full|given}`: a match, since the definition has the numbers.
fn window_number(kind: WindowKind) -> u64
    ensures { result ≡ window_number kind }
{
    match kind {
        WindowKind::Cut => 0,
        WindowKind::Full => 1,
        WindowKind::Given => 2,
    }
}

fn put_options(out: &mut [u8], at: usize, a: Asked) -> usize
    ensures value { result ≡ end_at at (options_text a) (length out.old) }
    ensures out_after { out.new ≡ put_at at (options_text a) out.old }
{
    let values = [
        VERSION,
        a.valley as u64,
        a.peak as u64,
        pattern(a.budget),
        pattern(a.scale),
        pattern(a.hint),
        pattern(a.mass_limit),
        u64::from(a.window_end.is_some()),
        a.window_end.unwrap_or(0) as u64,
    ];
    fill(
        out,
        at,
        b"fogatise pick
version #
valley #
peak #
budget ~
scale ~
hint ~
mass_limit ~
window_end_asked {-|#}
",
        &values,
    )
}

fn put_seeds(out: &mut [u8], at: usize) -> usize
    ensures value { result ≡ end_at at seeds_text (length out.old) }
    ensures out_after { out.new ≡ put_at at seeds_text out.old }
{
    let values = SEEDS.map(pattern);
    fill(
        out,
        at,
        b"seed.1 ~
seed.2 ~
seed.3 ~
",
        &values,
    )
}

fn put_shapes(out: &mut [u8], at: usize) -> usize
    ensures value { result ≡ end_at at shapes_text (length out.old) }
    ensures out_after { out.new ≡ put_at at shapes_text out.old }
{
    let values = SHAPES.map(pattern);
    fill(
        out,
        at,
        b"shape.1.retained ~
shape.1.concentration ~
shape.2.retained ~
shape.2.concentration ~
",
        &values,
    )
}

fn put_configuration(out: &mut [u8], at: usize, k: u64) -> usize
    ensures value { result ≡ end_at at (configuration_text k) (length out.old) }
    ensures out_after { out.new ≡ put_at at (configuration_text k) out.old }
{
    let families = configuration(k);
    let values = [
        k,
        u64::from(u8::from(families.error)),
        u64::from(u8::from(families.genome)),
    ];
    fill(
        out,
        at,
        b"configuration.# {FreeSingletonWeibull|SingletonPareto} {NegativeBinomial|ShelfNegativeBinomial}
",
        &values,
    )
}

#[tactic(auto, using(crate::proofs::Joins::joins), unfolding(crate::specs::Heads::configurations_text))]
fn put_configurations(out: &mut [u8], at: usize) -> usize
    ensures value { result ≡ end_at at configurations_text (length out.old) }
    ensures out_after { out.new ≡ put_at at configurations_text out.old }
{
    let first = put_configuration(out, at, 1);
    let second = put_configuration(out, first, 2);
    let third = put_configuration(out, second, 3);
    put_configuration(out, third, 4)
}

// What is odd in what was asked: the valley, the scale, the hint.
#[tactic(auto, unfolding(crate::specs::Heads::odd_of))]
fn odd(a: Asked) -> [u64; 3]
    ensures { result ≡ odd_of a }
{
    [
        u64::from(a.peak <= a.valley),
        u64::from(!(a.scale >= 1.0)),
        u64::from(!(a.hint > 1.0)),
    ]
}

fn put_warnings(out: &mut [u8], at: usize, a: Asked) -> usize
    ensures value { result ≡ end_at at (warnings_text a) (length out.old) }
    ensures out_after { out.new ≡ put_at at (warnings_text a) out.old }
{
    let values = odd(a);
    fill(
        out,
        at,
        b"{|warning.valley it is not below the peak
}{|warning.scale it is below 1, and 1 is used
}{|warning.hint it is not above 1, and 2 is used
}",
        &values,
    )
}

#[tactic(auto, using(crate::proofs::Joins::joins), unfolding(crate::specs::Heads::asked_text))]
pub(crate) fn put_asked(out: &mut [u8], at: usize, a: Asked) -> usize
    ensures value { result ≡ end_at at (asked_text a) (length out.old) }
    ensures out_after { out.new ≡ put_at at (asked_text a) out.old }
{
    let options = put_options(out, at, a);
    let seeds = put_seeds(out, options);
    let shapes = put_shapes(out, seeds);
    let configurations = put_configurations(out, shapes);
    put_warnings(out, configurations, a)
}

pub(crate) fn put_spectrum(out: &mut [u8], at: usize, a: Asked, bins: usize) -> usize
    ensures value { result ≡ end_at at (spectrum_text a bins) (length out.old) }
    ensures out_after { out.new ≡ put_at at (spectrum_text a bins) out.old }
{
    let end = window_end_of(a, bins);
    let values = [
        bins as u64,
        end as u64,
        window_number(window_kind(a, bins)),
        u64::from(end < a.peak),
    ];
    fill(
        out,
        at,
        b"bins #
window_end #
window {cut|full|given}{|
warning.peak it lies beyond the window}
",
        &values,
    )
}

pub(crate) fn put_refusal(out: &mut [u8], at: usize, n: u8) -> usize
    ensures value { result ≡ end_at at (refusal_text n) (length out.old) }
    ensures out_after { out.new ≡ put_at at (refusal_text n) out.old }
{
    let values = [u64::from(n); 2];
    fill(
        out,
        at,
        b"refusal # {|the peak, the valley or the number of bins is below 2|the peak, the valley, the number of bins or the window end is above 65535|the file breaks the layout of a histogram file|all bins are zero|the window end is 0 or beyond the bins|every recovered bin in the window is zero|a parameter list has a wrong length|a log probability is NaN|the mass limit is not finite or is below 1|a lent buffer is too short}
",
        &values,
    )
}

pub(crate) fn put_place(out: &mut [u8], at: usize, place: usize) -> usize
    ensures value { result ≡ end_at at (place_text place) (length out.old) }
    ensures out_after { out.new ≡ put_at at (place_text place) out.old }
{
    let values = [place as u64];
    fill(
        out,
        at,
        b"place #
",
        &values,
    )
}
