// Layer 2: the port's answer to a row, behind its arguments. The calls' numbers are those of oracle/src/layer2/.
use crate::parts::{shelf, shelf_part};
use crate::puts::*;
use crate::slices::floats;
use crate::words::*;
use helpers::{hoists, lobes, log_sums, masses, shelves};

// ---- structs

fn softmax(row: &[u64], out: &mut [u64]) -> Option<usize> {
    let logs = log_sums::ln_softmax3(number(row, 1), number(row, 2), number(row, 3));
    put_floats(out, 4, &[logs.first, logs.second, logs.third])
}

fn lobe(x: f64, y: f64, out: &mut [u64]) -> Option<usize> {
    let l = hoists::lobe_of(x, y);
    let n = put_flag(out, 3, l.poisson)?;
    put_floats(out, n, &[l.mean, l.rate, l.size, l.gamma, l.start, l.slope])
}

fn density(row: &[u64]) -> f64 {
    let lobe = hoists::Lobe {
        poisson: word(row, 1) != 0,
        mean: number(row, 2),
        rate: number(row, 3),
        size: number(row, 4),
        gamma: number(row, 5),
        start: number(row, 6),
        slope: number(row, 7),
    };
    hoists::density(lobe, number(row, 8))
}

fn logs(row: &[u64], out: &mut [u64]) -> Option<usize> {
    let logs = shelves::shelf_logs(shelf_part(row, 1));
    put_pair(out, 5, logs.rest, logs.share)
}

// ---- tables

fn log_table(row: &[u64], out: &mut [u64]) -> Option<usize> {
    let mut room = [0.0; MOST];
    let table = floats(row, 6, &mut room);
    let x = number(row, 1);
    let got = shelves::shelf_log_table(x, shelf(row, 2), size(row, 5), table);
    put_lent(out, past(row, 6), got, table)
}

fn entry(row: &[u64], table: &[f64]) -> f64 {
    let logs = shelves::ShelfLogs {
        rest: number(row, 1),
        share: number(row, 2),
    };
    let y = number(row, 4);
    shelves::mix_entry(number(row, 3), y, shelf_part(row, 5), logs, table)
}

fn of_table(row: &[u64], table: &[f64], at: usize, out: &mut [u64]) -> Option<usize> {
    let x = number(row, 1);
    let y = number(row, 2);
    let part = shelf_part(row, 3);
    let n = size(row, 7);
    match word(row, 0) {
        49 => put_float(out, at, shelves::mix_single_copy(x, y, part, table)),
        50 => put_number(out, at, masses::single_copy_log_mass(x, y, part, table, n)),
        _ => put_float(out, at, entry(row, table)),
    }
}

fn with_table(row: &[u64], at: usize, out: &mut [u64]) -> Option<usize> {
    let mut room = [0.0; MOST];
    let table = floats(row, at, &mut room);
    of_table(row, table, past(row, at), out)
}

pub(crate) fn answer(row: &[u64], out: &mut [u64]) -> Option<usize> {
    let x = number(row, 1);
    let y = number(row, 2);
    let z = number(row, 3);
    let t = number(row, 4);
    match word(row, 0) {
        32 => put_float(out, 3, log_sums::lse2(x, y)),
        33 => put_float(out, 4, log_sums::lse3(x, y, z)),
        34 => softmax(row, out),
        35 => put_float(out, 3, log_sums::ln_sub_exp(x, y)),
        36 => put_float(out, 2, log_sums::sigmoid(x)),
        37 => put_float(out, 3, lobes::ln_dpois(x, y)),
        38 => put_float(out, 4, lobes::ln_dnbinom(x, y, z)),
        39 => lobe(x, y, out),
        40 => put_float(out, 9, density(row)),
        41 => put(out, 3, lobes::discrete_nb_mode(x, y)),
        42 => put_number(out, 4, masses::log_nb_mass(x, y, size(row, 3))),
        44 => put_float(out, 2, shelves::shelf_trials(x)),
        45 => put_float(out, 5, shelves::ln_dbetabinom(x, y, z, t)),
        46 => log_table(row, out),
        47 => put_float(out, 8, shelves::ln_single_copy(x, y, z, shelf_part(row, 4))),
        48 => put_float(out, 6, shelves::mix_shelf(x, shelf(row, 2), number(row, 5))),
        49 => with_table(row, 7, out),
        50 => with_table(row, 8, out),
        52 => logs(row, out),
        53 => with_table(row, 9, out),
        _ => None,
    }
}
