// Bytes, whatever they are part of: rows of them compared and looked for, decimal digits over the greatest number of them, and their sum.
#![tactic(auto)]

mod compare;
mod find;
mod numbers;
mod sums;

pub use compare::{matched, stands, word};
pub use find::{byte_from, calm, has, holds, next_start};
pub use numbers::{Num, digits, number, row};
pub use sums::checksum;
