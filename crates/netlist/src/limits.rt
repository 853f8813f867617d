// What a load works with: a cell for each net, and a link for each listed fault, as many as the limits allow.
use bench::limits::{NETS, PINS};

pub const CELLS: usize = NETS;

pub const LINKS: usize = 2 * (NETS + PINS);
