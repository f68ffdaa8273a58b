// What bins, peak, valley, a count, a window end and the number of runs may be at most; `most` of specs/Rows.antt.
pub const MOST: usize = 65535;
