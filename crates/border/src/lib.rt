// How the C side's memory is held, one file for each layout: a session's record in bytes and words, the writer's values in words, an answer in numbers.
#![tactic(auto)]

mod answer;
mod record;
mod values;

pub use answer::{delivered, number_of};
pub use record::{leave, load, refuse, replied, save_new};
pub use values::values_of;
