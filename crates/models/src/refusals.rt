// What a fit's calls refuse, lowest number first, before anything is worked out.
ghost use Rattle.std.specs.Prelude.{◌≡◌};
ghost use Rattle.meaning.specs.Answers.{number_in, reply_as};
ghost use Rattle.meaning.specs.Reply.{first_of, give, chain};
ghost use Rattle.models.specs.Refusals.{spectrum_tests, bins_tests, short_table, table_tests, fit_tests};

use crate::families::{ErrorModel, GenomeModel, list_length};
use crate::recovery::used_scale;
use crate::spectra::{all_zero, none_recovered};
use helpers::window_ends::{self, WindowEnd};
use meaning::limits::MOST;
use meaning::refusals::Refusal;

// 4, 5 or 6 for the spectrum in a window, or none.
#[tactic(auto, unfolding(crate::specs::Refusals::spectrum_tests))]
fn window_refusal(bins: &[u32], scale: f64, window_end: usize) -> Result<(), Refusal>
    ensures { number_in result ≡ first_of (spectrum_tests bins.now scale window_end) }
{
    if all_zero(bins) {
        return Err(Refusal::AllBinsZero);
    }
    if window_end == 0 || window_end > bins.len() {
        return Err(Refusal::NoWindow);
    }
    if none_recovered(bins, used_scale(scale), window_end) {
        return Err(Refusal::NothingRecovered);
    }
    Ok(())
}

// The first number of 1, 2, 4, 5, 6 that applies to bins and a window end, or none.
#[tactic(auto, unfolding(crate::specs::Refusals::bins_tests, crate::specs::Refusals::spectrum_tests))]
pub fn spectrum_refusal(bins: &[u32], scale: f64, window_end: usize) -> Result<(), Refusal>
    ensures { number_in result ≡ first_of (bins_tests bins.now scale window_end) }
{
    if bins.len() < 2 {
        return Err(Refusal::TooSmall);
    }
    if bins.len() > MOST || window_end > MOST {
        return Err(Refusal::TooLarge);
    }
    window_refusal(bins, scale, window_end)
}

// 10 for a lent table of fewer than window end + 1 entries with a shelf family, or none.
fn short_refusal(genome: GenomeModel, window_end: usize, room: usize) -> Result<(), Refusal>
    ensures { number_in result ≡ first_of (short_table genome window_end room) }
{
    match genome {
        GenomeModel::ShelfNegativeBinomial if room <= window_end => Err(Refusal::TooShort),
        _ => Ok(()),
    }
}

// 2 or 5 for the window end, 10 for a lent table that is too short for it, or none.
pub fn table_refusal(genome: GenomeModel, window_end: usize, room: usize) -> Result<(), Refusal>
    ensures { number_in result ≡ first_of (table_tests genome window_end room) }
{
    window_ends::window_end(window_end)?;
    short_refusal(genome, window_end, room)
}

// The window end; the first number of 1, 2, 4, 5, 6, 7, 10 that applies to cost and unpack instead.
#[tactic(auto, unfolding(crate::specs::Refusals::fit_tests, crate::specs::Refusals::spectrum_tests))]
pub(crate) fn fit_refusal(
    bins: &[u32],
    scale: f64,
    window_end: usize,
    peak: usize,
    error: ErrorModel,
    genome: GenomeModel,
    listed: usize,
    room: usize,
) -> Result<WindowEnd, Refusal>
    ensures { reply_as (λ end. end.count) result
        ≡ chain (fit_tests bins.now scale window_end peak error genome listed room) (give window_end) }
{
    if peak < 2 || bins.len() < 2 {
        return Err(Refusal::TooSmall);
    }
    if bins.len() > MOST || peak > MOST || window_end > MOST {
        return Err(Refusal::TooLarge);
    }
    window_refusal(bins, scale, window_end)?;
    if listed != list_length(error, genome) {
        return Err(Refusal::WrongLength);
    }
    short_refusal(genome, window_end, room)?;
    window_ends::window_end(window_end)
}
