// Sheet files: how a sheet is read from bytes.
#![tactic(auto)]

mod fault;
mod filed;
mod kind;
mod reader;

pub use fault::{Fault, Layer};
pub use filed::{Filed, FiledWeights};
pub use kind::{FileKind, UnknownKind};
pub use reader::read;
