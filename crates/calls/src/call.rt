// Calls as values: what a sheet may be asked, with what it is asked for.
use readings::Readings;
use sheets::Supposed;
use weights::Row;

// The algebra of a total: one of three, or the caller's own.
#[derive(Clone, Copy, PartialEq, Eq, Debug)]
pub enum AlgebraName {
    Fixed,
    Polynomial,
    Count,
    Own,
}

#[derive(Clone, Copy, PartialEq, Debug)]
pub enum Call<K> {
    // in the bay
    Size(usize),
    Set(usize, Row),
    SetByReadings(usize, Readings),
    Fit(K),
    Strike(usize),
    PutOut,
    // on the road
    Find(K),
    Total(AlgebraName, u8),
    Bracket(u8),
    Judge(u8, u16),
    Try(usize, Supposed, u8),
    CallIn,
}
