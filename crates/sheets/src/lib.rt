// Sheets: the needs and chances of one trailer, changed in the bay and asked on the road.
#![tactic(auto)]

mod bay;
mod clutter;
mod refusal;
mod road;
mod sheet;
mod supposed;

pub use bay::BaySheet;
pub use refusal::Refusal;
pub use road::RoadSheet;
pub use supposed::Supposed;
