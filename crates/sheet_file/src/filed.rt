// How each kind of need stands in a sheet file.
ghost use Rattle.std.specs.Prelude.{◌≡◌, ℕ, ◌+◌, ◌*◌, ◌<◌, List, ◌∷◌, ◌++◌, length, MatchOption, slice_index};
ghost use Rattle.sheet_file.specs.Layout.{big_endian, row_of, words};

use needs::Kind;
use std::array;
use weights::Row;

// The fields of a record of weights, and the bytes behind them.
#[derive(Clone, Copy, Debug, PartialEq, Eq)]
pub struct FiledWeights<'a> {
    pub component: u8,
    pub row: Row,
    pub rest: &'a [u8],
}

// The weight that two bytes spell at a place, or 0 where no weight is filed.
fn filed_weight(weights: &[u8], place: usize) -> u16
    ensures answer { result ≡ slice_index (words weights.now) place }
{
    match weights.as_chunks::<2>().0.get(place) {
        Some(word) => u16::from_be_bytes(*word),
        None => 0,
    }
}

// A kind of need that a file can hold.
pub trait Filed: Kind {
    // the byte that a file tells the kind by
    const BYTE: u8;

    // the same number, for clauses
    ghost BYTE: { ℕ };

    // how many bytes a need takes, and the need that they code
    ghost width: { ℕ };

    ghost coded: { List ℕ → Self };

    // The need that stands first, and the bytes behind it.
    fn split_need(fields: &[u8]) -> Option<(Self, &[u8])>
        ensures answer { MatchOption result (length fields.now < width) (λ x. (xs : List ℕ) × (fields.now ≡ xs ++ x.1.now) × (length xs ≡ width) × (x.0 ≡ coded xs)) };

    // The component and the row that stand first, and the bytes behind them.
    fn split_weights(fields: &[u8]) -> Option<FiledWeights<'_>>
        ensures answer { MatchOption result (length fields.now < 1 + 2 * Self.Kind.TOP) (λ x. (ws : List ℕ) × (fields.now ≡ x.component ∷ ws ++ x.rest.now) × (length ws ≡ 2 * Self.Kind.TOP) × (x.row ≡ row_of Self.Kind.TOP ws)) }
    {
        let (component, behind) = fields.split_first()?;
        let (weights, rest) = behind.split_at_checked(2 * usize::from(Self::TOP))?;
        Some(FiledWeights {
            component: *component,
            row: array::from_fn(|level| filed_weight(weights, level)),
            rest,
        })
    }
}

impl Filed for u16 {
    const BYTE: u8 = 1;

    ghost BYTE = { 1 };

    ghost width = { 2 };

    ghost coded = { big_endian };

    fn split_need(fields: &[u8]) -> Option<(u16, &[u8])> {
        let (code, rest) = fields.split_first_chunk::<2>()?;
        Some((u16::from_be_bytes(*code), rest))
    }
}

impl Filed for u32 {
    const BYTE: u8 = 2;

    ghost BYTE = { 2 };

    ghost width = { 4 };

    ghost coded = { big_endian };

    fn split_need(fields: &[u8]) -> Option<(u32, &[u8])> {
        let (code, rest) = fields.split_first_chunk::<4>()?;
        Some((u32::from_be_bytes(*code), rest))
    }
}
