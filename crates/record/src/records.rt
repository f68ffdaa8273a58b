// The record of a pick, and its last line.
ghost use Rattle.std.specs.Prelude.{◌≡◌, [], ◌∷◌, length};
ghost use Rattle.fitter.specs.Selection.{select_of};
ghost use Rattle.templates.specs.Cut.{put_at, end_at};
ghost use Rattle.record.specs.Record.{cutoff_text, least_numbers, answer_text, doubts_text, found_text, end_part};
ghost use Rattle.record.specs.Record.{leaning_text, chosen_of, last_of, last_text, chosen_text, selected_text};
ghost use Rattle.record.specs.Record.{attempts_text, head_text, recorded_of, record_of, refused_of, broken_of};

use crate::answers::{
    Answer, Last, answer_of, is_low, last_in, last_number, last_place, least_kind, least_removed,
};
use crate::attempt_lines::{Cutoffs, cutoff_numbers, cutoffs_of, put_attempt};
use crate::fit_lines::put_fit;
use crate::heads::{put_asked, put_place, put_refusal, put_spectrum};
use crate::leaning::{Leaning, NO_WALK, NONE, leaning_of, vote};
use crate::values::{HowSure, Place, place_numbers, sure_number};
use fitter::asking::Asked;
use fitter::attempts::FitAttempt;
use fitter::selection::select_fit;
use meaning::refusals::Refusal;
use models::fit::SpectrumFit;
use routines::bits::pattern;
use templates::filling::fill;

// What is made of the selected fit.
#[derive(Clone, Copy)]
pub struct Chosen {
    pub cutoffs: Cutoffs,
    pub answer: Answer,
    pub leaning: Leaning,
    pub last: Last,
}

// At 2: whether the budget is kept, and how many times what 2 removes exceeds it.
#[derive(Clone, Copy)]
pub struct LeastNumbers {
    pub kind: u64,
    pub times: u64,
}

// How many bytes the record takes in the lent ones, and its last line.
#[derive(Clone, Copy)]
pub struct Recorded {
    pub size: usize,
    pub last: Last,
}

// 0 for a count, 1 for none, 2 where no valid attempt has a walk: the parts of `{#|none|-}`, as in the definition.
#[tactic(auto, unfolding(crate::specs::Record::end_part))]
fn end_part(l: Leaning, v: u64) -> u64
    ensures { result ≡ end_part l v }
{
    if l.least == NO_WALK {
        return 2;
    }
    u64::from(v == NONE)
}

// No twin of `put_own_cutoffs`: another template, with a line and a value more, and other values between.
#[tactic(auto, unfolding(crate::specs::Record::cutoff_text))]
fn put_cutoffs(out: &mut [u8], at: usize, share: f64, c: Cutoffs) -> usize
    ensures value { result ≡ end_at at (cutoff_text share c) (length out.old) }
    ensures out_after { out.new ≡ put_at at (cutoff_text share c) out.old }
{
    let n = cutoff_numbers(c);
    let hole = n.hole;
    let over = n.crossover;
    let under = n.floor;
    let values = [
        hole.part,
        hole.at,
        n.how,
        pattern(share),
        over.part,
        over.at,
        under.part,
        under.at,
    ];
    fill(
        out,
        at,
        b"hole {none|#|-}{ sure| unsure: the allowed share is not finite| unsure: a probability is not from 0 to 2| no walk| refused|}
allowed_share ~
crossover {none|#|-}
error_floor {none|#|-}
",
        &values,
    )
}

#[tactic(auto, unfolding(crate::specs::Record::least_numbers))]
fn least_numbers(fit: SpectrumFit, budget: f64, answer: Place) -> LeastNumbers
    ensures { result ≡ least_numbers fit budget answer }
{
    let share = budget / fit.genome_kmers;
    let removed = least_removed(fit);
    LeastNumbers {
        kind: least_kind(answer, share, removed),
        times: pattern(removed / share),
    }
}

fn put_answer(out: &mut [u8], at: usize, fit: SpectrumFit, budget: f64, a: Answer) -> usize
    ensures value { result ≡ end_at at (answer_text fit budget a) (length out.old) }
    ensures out_after { out.new ≡ put_at at (answer_text fit budget a) out.old }
{
    let place = a.place;
    let least = least_numbers(fit, budget, place);
    let values = [
        u64::from(a.hole),
        u64::from(a.below),
        least.kind,
        least.times,
    ];
    fill(
        out,
        at,
        b"answer {valley|hole}{|
below floor}{|
least_cutoff kept|
least_cutoff broken ~}
",
        &values,
    )
}

#[tactic(auto, unfolding(crate::specs::Record::doubts_text))]
fn put_doubts(out: &mut [u8], at: usize, how: HowSure, a: Answer) -> usize
    ensures value { result ≡ end_at at (doubts_text how a) (length out.old) }
    ensures out_after { out.new ≡ put_at at (doubts_text how a) out.old }
{
    let values = [sure_number(how), u64::from(is_low(a))];
    fill(
        out,
        at,
        b"{|doubt.share it is not finite
|doubt.probability one is not from 0 to 2
|doubt.walk there is none, so no cutoff is known to keep the budget
}{|doubt.floor the answer lies under it
}",
        &values,
    )
}

#[tactic(auto, unfolding(crate::specs::Record::leaning_text))]
fn put_leaning(out: &mut [u8], at: usize, l: Leaning) -> usize
    ensures value { result ≡ end_at at (leaning_text l) (length out.old) }
    ensures out_after { out.new ≡ put_at at (leaning_text l) out.old }
{
    let values = [
        u64::from(l.valid),
        u64::from(l.same),
        end_part(l, l.least),
        l.least,
        end_part(l, l.largest),
        l.largest,
    ];
    fill(
        out,
        at,
        b"valid_attempts #
same_hole #
least_hole {#|none|-}
largest_hole {#|none|-}
",
        &values,
    )
}

#[tactic(auto, unfolding(crate::specs::Record::last_text))]
fn put_last(out: &mut [u8], at: usize, l: Last) -> usize
    ensures value { result ≡ end_at at (last_text l) (length out.old) }
    ensures out_after { out.new ≡ put_at at (last_text l) out.old }
{
    let place = place_numbers(last_place(l));
    let values = [last_number(l), place.part, place.at];
    fill(
        out,
        at,
        b"{cutoff |unsure |no fit|refused }{none|#|}
",
        &values,
    )
}

fn choose(asked: Asked, attempts: [FitAttempt; 4], fit: SpectrumFit) -> Chosen
    ensures { result ≡ chosen_of asked attempts fit }
{
    let budget = asked.budget;
    let cutoffs = cutoffs_of(fit, budget);
    let hole = cutoffs.hole;
    let how = hole.how;
    let answer = answer_of(asked.valley as u64, cutoffs);
    Chosen {
        cutoffs,
        answer,
        leaning: leaning_of(budget, vote(hole), attempts),
        last: last_in(how, answer),
    }
}

#[tactic(auto, using(crate::proofs::Joins::joins), unfolding(crate::specs::Record::found_text))]
fn put_found(
    out: &mut [u8],
    at: usize,
    budget: f64,
    fit: SpectrumFit,
    c: Cutoffs,
    a: Answer,
) -> usize
    ensures value { result ≡ end_at at (found_text budget fit c a) (length out.old) }
    ensures out_after { out.new ≡ put_at at (found_text budget fit c a) out.old }
{
    let hole = c.hole;
    let how = hole.how;
    let first = put_cutoffs(out, at, budget / fit.genome_kmers, c);
    let second = put_answer(out, first, fit, budget, a);
    put_doubts(out, second, how, a)
}

// Every line of the selected fit.
#[tactic(auto, using(crate::proofs::Joins::joins), unfolding(crate::specs::Record::chosen_text))]
fn put_chosen(out: &mut [u8], at: usize, budget: f64, fit: SpectrumFit, x: Chosen) -> usize
    ensures value { result ≡ end_at at (chosen_text budget fit x) (length out.old) }
    ensures out_after { out.new ≡ put_at at (chosen_text budget fit x) out.old }
{
    let last = x.last;
    let first = put_fit(out, at, fit);
    let second = put_found(out, first, budget, fit, x.cutoffs, x.answer);
    let third = put_leaning(out, second, x.leaning);
    put_last(out, third, last)
}

#[tactic(auto, unfolding(crate::specs::Record::selected_text, crate::specs::Record::chosen_of))]
fn put_selected(
    out: &mut [u8],
    at: usize,
    asked: Asked,
    attempts: [FitAttempt; 4],
    selected: Option<SpectrumFit>,
) -> Recorded
    ensures size_value { result.size ≡ end_at at (selected_text asked attempts selected) (length out.old) }
    ensures out_after { out.new ≡ put_at at (selected_text asked attempts selected) out.old }
    ensures last_value { result.last ≡ last_of asked selected }
{
    match selected {
        Some(fit) => {
            let chosen = choose(asked, attempts, fit);
            Recorded {
                size: put_chosen(out, at, asked.budget, fit, chosen),
                last: chosen.last,
            }
        }
        None => Recorded {
            size: put_last(out, at, Last::NoFit),
            last: Last::NoFit,
        },
    }
}

// Four, each by its number: `attempts_text` takes them one by one.
#[tactic(auto, using(crate::proofs::Joins::joins), unfolding(crate::specs::Record::attempts_text))]
fn put_attempts(
    out: &mut [u8],
    at: usize,
    a: FitAttempt,
    b: FitAttempt,
    c: FitAttempt,
    d: FitAttempt,
    budget: f64,
) -> usize
    ensures value { result ≡ end_at at (attempts_text a b c d budget) (length out.old) }
    ensures out_after { out.new ≡ put_at at (attempts_text a b c d budget) out.old }
{
    let first = put_attempt(out, at, 1, a, budget);
    let second = put_attempt(out, first, 2, b, budget);
    let third = put_attempt(out, second, 3, c, budget);
    put_attempt(out, third, 4, d, budget)
}

#[tactic(auto, using(crate::proofs::Joins::joins), unfolding(crate::specs::Record::head_text))]
fn put_head(out: &mut [u8], at: usize, asked: Asked, bins: usize) -> usize
    ensures value { result ≡ end_at at (head_text asked bins) (length out.old) }
    ensures out_after { out.new ≡ put_at at (head_text asked bins) out.old }
{
    let first = put_asked(out, at, asked);
    put_spectrum(out, first, asked, bins)
}

// The record of four attempts at a spectrum of so many bins, into the lent bytes, as far as there is room. The size is
// how many bytes that is: where it is less than there are, the record is whole (`whole-text`).
pub fn write_record(
    asked: Asked,
    bins: usize,
    a: FitAttempt,
    b: FitAttempt,
    c: FitAttempt,
    d: FitAttempt,
    out: &mut [u8],
) -> Recorded
    ensures result_value { let last = last_of asked (select_of (a ∷ b ∷ c ∷ d ∷ [])) in
        result ≡ recorded_of (record_of asked bins a b c d) last (length out.old) }
    ensures out_after { out.new ≡ put_at 0 (record_of asked bins a b c d) out.old }
{
    let budget = asked.budget;
    let selected = select_fit([a, b, c, d]);
    let first = put_head(out, 0, asked, bins);
    let second = put_attempts(out, first, a, b, c, d, budget);
    put_selected(out, second, asked, [a, b, c, d], selected)
}

// The record of a spectrum that is refused. The number is a u8: a `Refusal` would ask more of who calls it.
#[tactic(auto, using(crate::proofs::Joins::joins), unfolding(crate::specs::Record::refused_of))]
pub fn write_refused(asked: Asked, bins: usize, n: u8, out: &mut [u8]) -> Recorded
    ensures value { result ≡ recorded_of (refused_of asked bins n) (Last.Refused n) (length out.old) }
    ensures out_after { out.new ≡ put_at 0 (refused_of asked bins n) out.old }
{
    let last = Last::Refused(u64::from(n));
    let first = put_head(out, 0, asked, bins);
    let second = put_refusal(out, first, n);
    Recorded {
        size: put_last(out, second, last),
        last,
    }
}

// The record of a file that is refused at a place.
#[tactic(auto, using(crate::proofs::Joins::joins), unfolding(crate::specs::Record::broken_of))]
pub fn write_broken(asked: Asked, place: usize, out: &mut [u8]) -> Recorded
    ensures value { result ≡ recorded_of (broken_of asked place) (Last.Refused 3) (length out.old) }
    ensures out_after { out.new ≡ put_at 0 (broken_of asked place) out.old }
{
    let last = Last::Refused(3);
    let first = put_asked(out, 0, asked);
    let second = put_refusal(out, first, u8::from(Refusal::BrokenFile));
    let third = put_place(out, second, place);
    Recorded {
        size: put_last(out, third, last),
        last,
    }
}
