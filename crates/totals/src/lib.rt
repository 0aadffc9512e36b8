// Totals by inclusion-exclusion, for every kind of need and every algebra.
#![tactic(auto)]

mod by_depth;
mod chances;
mod joined;
mod total;

pub use chances::Chances;
