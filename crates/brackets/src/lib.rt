// Brackets around the reliability of a sheet, and verdicts on them.
#![tactic(auto)]

mod bracket;
mod depth;
mod ends;
mod screen;
mod threshold;
mod trial;
mod verdict;

pub use bracket::bracket_ends;
pub use depth::{BadDepth, Depth};
pub use ends::Ends;
pub use screen::Screen;
pub use threshold::{BadThreshold, Threshold};
pub use trial::tried_ends;
pub use verdict::Verdict;
