// The lines of the selected fit: every field, by the Rust's name.
ghost use Rattle.std.specs.Prelude.{◌≡◌, length};
ghost use Rattle.templates.specs.Cut.{put_at, end_at};
ghost use Rattle.record.specs.Fits.{shape_values, shelf_values, weights_text, lobe_text, shape_text, shelf_text};
ghost use Rattle.record.specs.Fits.{kmers_text, scores_text, three_of, masses_text, totals_text, sums_text};
ghost use Rattle.record.specs.Fits.{results_text, fit_text};

use helpers::shelves::Shelf;
use models::fit::SpectrumFit;
use routines::bits::pattern;
use templates::filling::fill;

#[derive(Clone, Copy)]
pub struct ShapeValues {
    pub present: u64,
    pub shape: u64,
}

#[derive(Clone, Copy)]
pub struct ShelfValues {
    pub present: u64,
    pub share: u64,
    pub alpha: u64,
    pub beta: u64,
}

fn shape_values(part: Option<f64>) -> ShapeValues
    ensures { result ≡ shape_values part }
{
    match part {
        None => ShapeValues {
            present: 0,
            shape: 0,
        },
        Some(x) => ShapeValues {
            present: 1,
            shape: pattern(x),
        },
    }
}

fn shelf_values(part: Option<Shelf>) -> ShelfValues
    ensures { result ≡ shelf_values part }
{
    match part {
        None => ShelfValues {
            present: 0,
            share: 0,
            alpha: 0,
            beta: 0,
        },
        Some(s) => ShelfValues {
            present: 1,
            share: pattern(s.share),
            alpha: pattern(s.alpha),
            beta: pattern(s.beta),
        },
    }
}

// The families, and the weights.
fn put_weights(out: &mut [u8], at: usize, f: SpectrumFit) -> usize
    ensures value { result ≡ end_at at (weights_text f) (length out.old) }
    ensures out_after { out.new ≡ put_at at (weights_text f) out.old }
{
    let values = [
        u64::from(u8::from(f.error_model)),
        u64::from(u8::from(f.genome_model)),
        pattern(f.w_error),
        pattern(f.w_single),
        pattern(f.w_repeat),
    ];
    fill(
        out,
        at,
        b"fit.error_model {FreeSingletonWeibull|SingletonPareto}
fit.genome_model {NegativeBinomial|ShelfNegativeBinomial}
fit.w_error ~
fit.w_single ~
fit.w_repeat ~
",
        &values,
    )
}

// The single-copy lobe, and what every error family has.
fn put_lobe(out: &mut [u8], at: usize, f: SpectrumFit) -> usize
    ensures value { result ≡ end_at at (lobe_text f) (length out.old) }
    ensures out_after { out.new ≡ put_at at (lobe_text f) out.old }
{
    let errors = f.error_params;
    let values = [
        pattern(f.mean),
        pattern(f.dispersion),
        pattern(f.target_mode),
        pattern(errors.singleton_probability),
        pattern(errors.tail_exponent),
    ];
    fill(
        out,
        at,
        b"fit.mean ~
fit.dispersion ~
fit.target_mode ~
fit.error_params.singleton_probability ~
fit.error_params.tail_exponent ~
",
        &values,
    )
}

fn put_shape(out: &mut [u8], at: usize, f: SpectrumFit) -> usize
    ensures value { result ≡ end_at at (shape_text f) (length out.old) }
    ensures out_after { out.new ≡ put_at at (shape_text f) out.old }
{
    let errors = f.error_params;
    let weibull = errors.weibull_shape;
    let shape = shape_values(weibull);
    let values = [shape.present, shape.shape];
    fill(
        out,
        at,
        b"fit.error_params.weibull_shape {-|~}
",
        &values,
    )
}

fn put_shelf(out: &mut [u8], at: usize, f: SpectrumFit) -> usize
    ensures value { result ≡ end_at at (shelf_text f) (length out.old) }
    ensures out_after { out.new ≡ put_at at (shelf_text f) out.old }
{
    let part = f.shelf;
    let shelf = shelf_values(part);
    let values = [
        shelf.present,
        shelf.share,
        shelf.present,
        shelf.alpha,
        shelf.present,
        shelf.beta,
    ];
    fill(
        out,
        at,
        b"fit.shelf.share {-|~}
fit.shelf.alpha {-|~}
fit.shelf.beta {-|~}
",
        &values,
    )
}

fn put_kmers(out: &mut [u8], at: usize, f: SpectrumFit) -> usize
    ensures value { result ≡ end_at at (kmers_text f) (length out.old) }
    ensures out_after { out.new ≡ put_at at (kmers_text f) out.old }
{
    let values = [
        pattern(f.repeat_ratio),
        pattern(f.genome_kmers),
        pattern(f.error_kmers),
        pattern(f.repeat_kmers),
    ];
    fill(
        out,
        at,
        b"fit.repeat_ratio ~
fit.genome_kmers ~
fit.error_kmers ~
fit.repeat_kmers ~
",
        &values,
    )
}

fn put_scores(out: &mut [u8], at: usize, f: SpectrumFit) -> usize
    ensures value { result ≡ end_at at (scores_text f) (length out.old) }
    ensures out_after { out.new ≡ put_at at (scores_text f) out.old }
{
    let values = [
        pattern(f.log_likelihood),
        pattern(f.bic),
        pattern(f.deviance),
        f.fit_window_end as u64,
        f.best_iterations,
    ];
    fill(
        out,
        at,
        b"fit.log_likelihood ~
fit.bic ~
fit.deviance ~
fit.fit_window_end #
fit.best_iterations #
",
        &values,
    )
}

#[tactic(auto, unfolding(crate::specs::Fits::three_of))]
fn three(x: [f64; 3]) -> [u64; 3]
    ensures { result ≡ three_of x }
{
    x.map(pattern)
}

// No twin of `put_totals`: each clause names its own text.
fn put_masses(out: &mut [u8], at: usize, f: SpectrumFit) -> usize
    ensures value { result ≡ end_at at (masses_text f) (length out.old) }
    ensures out_after { out.new ≡ put_at at (masses_text f) out.old }
{
    let masses = f.component_log_window_masses;
    let values = three(masses);
    fill(
        out,
        at,
        b"fit.component_log_window_masses.0 ~
fit.component_log_window_masses.1 ~
fit.component_log_window_masses.2 ~
",
        &values,
    )
}

fn put_totals(out: &mut [u8], at: usize, f: SpectrumFit) -> usize
    ensures value { result ≡ end_at at (totals_text f) (length out.old) }
    ensures out_after { out.new ≡ put_at at (totals_text f) out.old }
{
    let totals = f.component_log_totals;
    let values = three(totals);
    fill(
        out,
        at,
        b"fit.component_log_totals.0 ~
fit.component_log_totals.1 ~
fit.component_log_totals.2 ~
",
        &values,
    )
}

#[tactic(auto, unfolding(crate::specs::Fits::sums_text))]
fn put_sums(out: &mut [u8], at: usize, f: SpectrumFit) -> usize
    ensures value { result ≡ end_at at (sums_text f) (length out.old) }
    ensures out_after { out.new ≡ put_at at (sums_text f) out.old }
{
    let values = [pattern(f.observed_total), pattern(f.full_distinct_total)];
    fill(
        out,
        at,
        b"fit.observed_total ~
fit.full_distinct_total ~
",
        &values,
    )
}

#[tactic(auto, using(crate::proofs::Joins::joins), unfolding(crate::specs::Fits::results_text))]
fn put_results(out: &mut [u8], at: usize, f: SpectrumFit) -> usize
    ensures value { result ≡ end_at at (results_text f) (length out.old) }
    ensures out_after { out.new ≡ put_at at (results_text f) out.old }
{
    let kmers = put_kmers(out, at, f);
    let scores = put_scores(out, kmers, f);
    let masses = put_masses(out, scores, f);
    let totals = put_totals(out, masses, f);
    put_sums(out, totals, f)
}

#[tactic(auto, using(crate::proofs::Joins::joins), unfolding(crate::specs::Fits::fit_text))]
pub(crate) fn put_fit(out: &mut [u8], at: usize, f: SpectrumFit) -> usize
    ensures value { result ≡ end_at at (fit_text f) (length out.old) }
    ensures out_after { out.new ≡ put_at at (fit_text f) out.old }
{
    let weights = put_weights(out, at, f);
    let lobe = put_lobe(out, weights, f);
    let shape = put_shape(out, lobe, f);
    let shelf = put_shelf(out, shape, f);
    put_results(out, shelf, f)
}
