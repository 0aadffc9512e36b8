// The report on a sheet file.
#![tactic(auto)]

mod lines;
mod whole;

pub use whole::{LONGEST, report};
