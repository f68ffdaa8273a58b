// What a spectrum is fitted with, beside its bins.
use crate::families::{ErrorModel, GenomeModel};

#[derive(Clone, Copy)]
pub struct Problem {
    pub scale: f64,
    // The last count that is fitted.
    pub window_end: usize,
    // Asked by the validator: where errors end and single copies stand.
    pub valley: usize,
    pub peak: usize,
    pub error: ErrorModel,
    pub genome: GenomeModel,
    // How far the components' totals may exceed the spectrum's.
    pub mass_limit: f64,
}
