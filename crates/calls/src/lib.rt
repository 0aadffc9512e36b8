// Lists of calls, sent to one sheet one after another, and the law that every list keeps.
#![tactic(auto)]

ghost use Rattle.calls.specs.Pages.{OneBookOf};

use algebras::Algebra;
use needs::Kind;

mod answer;
mod call;
mod list;
mod send;
mod sheet;

pub use answer::Answer;
pub use call::{AlgebraName, Call};
pub use list::replay;

// There is one book to a list of calls.
pub fn one_book<K: Kind, A: Algebra>()
    ensures theorem { OneBookOf K.Kind A.Algebra }
{}
