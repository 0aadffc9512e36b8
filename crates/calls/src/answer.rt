// What a call is answered.
use algebras::{Coefficients, Residue};
use brackets::Verdict;
use sheets::Refusal;

#[derive(Clone, Copy, PartialEq, Eq, Debug)]
pub enum Answer<K, V> {
    // size, both sets, put out, call in
    Done,
    // fit
    Place(usize),
    // strike
    Need(K),
    // find
    Found(Option<usize>),
    // total
    Fixed(Residue),
    Polynomial(Coefficients),
    Count(Residue),
    Own(V),
    // bracket, try
    Bracket((u64, u64)),
    // judge
    Verdict(Verdict),
    Refused(Refusal),
    // the bay or the road, where the sheet stands, does not take the call
    Elsewhere,
}
