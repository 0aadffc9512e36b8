// The exact ends of a bracket, in units of 2^-48 of certainty.

#[derive(Clone, Copy, Debug, PartialEq, Eq)]
pub struct Ends {
    pub low: i64,
    pub high: i64,
}
