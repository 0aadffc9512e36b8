// A clutter of needs in storage that the caller lends: none of them covers another.
ghost use Rattle.std.specs.Prelude.{◌≡◌, ℕ, ◌+◌, ◌-◌, ◌≤◌, [], ◌∷◌, map, length, is_ok, IfOk, if◌then◌else◌, Decides, MatchOption, MatchResult, slice_index_or, slice_set};
ghost use Rattle.sheets.specs.Causes.{Comparable, ComparableAt, LowestComparable, ToldPlace, clutter_causes};
ghost use Rattle.sheets.specs.Standings.{capacity, struck_storage};
ghost use Rattle.sheets.specs.Refusals.{place as place_of};

use crate::refusal::Refusal;
use clutters::close_up;
use needs::Kind;

// The most needs that are ever held.
const MOST_NEEDS: usize = 12;

// The held needs stand in the first places.
#[derive(Drop)]
pub(crate) struct Clutter<'a, K: Kind> {
    pub(crate) places: &'a mut [K],
    pub(crate) held: usize,
    ghost within: { held ≤ length places.now },
    ghost few: { held ≤ 12 },
}

impl<'a, K: Kind> Clutter<'a, K> {
    ghost use Rattle.sheets.specs.Sheets.{held as held_needs, Outcome};

    pub(crate) fn open(places: &'a mut [K]) -> Clutter<'a, K>
        ensures standing { result.held ≡ 0 }
        ensures storage { result.places.now ≡ places.old }
    {
        Clutter { places, held: 0 }
    }

    pub(crate) fn needs(&self) -> &[K]
        ensures answer { result.now ≡ held_needs self.now }
    {
        &self.places[..self.held]
    }

    // One need more, in the next place, unless it is comparable with a held one or the capacity is used up.
    pub(crate) fn fit(&mut self, need: K) -> Result<usize, Refusal>
        ensures refused { Outcome result (clutter_causes (map K.Kind.levels (held_needs self.old)) (capacity self.old.places.now) (K.Kind.levels need)) }
        ensures answer { MatchResult result (λ p. p ≡ self.old.held) (λ e. ToldPlace (map K.Kind.levels (held_needs self.old)) (K.Kind.levels need) (place_of e)) }
        ensures standing { self.new.held ≡ (if is_ok result then self.old.held + 1 else self.old.held) }
        ensures storage { self.new.places.now ≡ (if is_ok result then slice_set self.old.places.now self.old.held need else self.old.places.now) }
    {
        if let Some(place) = comparable_place(self.needs(), need) {
            return Err(Refusal::Comparable(place));
        }
        let place = self.held;
        if place >= self.places.len().min(MOST_NEEDS) {
            return Err(Refusal::Full);
        }
        self.places[place] = need;
        self.held = place + 1;
        Ok(place)
    }

    // Takes out the need in a place and moves the later ones down by one; the place that falls free keeps what it holds.
    pub(crate) fn strike(&mut self, place: usize) -> Result<K, Refusal>
        ensures refused { Outcome result ((7, self.old.held ≤ place) ∷ []) }
        ensures answer { IfOk result (λ d. d ≡ slice_index_or (held_needs self.old) place d) }
        ensures standing { self.new.held ≡ (if is_ok result then self.old.held - 1 else self.old.held) }
        ensures storage { self.new.places.now ≡ (if is_ok result then struck_storage self.old.held place self.old.places.now else self.old.places.now) }
    {
        let held = self.held;
        if place >= held {
            return Err(Refusal::NotHeld);
        }
        let struck = self.places[place];
        close_up(&mut self.places[..held], place);
        self.held = held - 1;
        Ok(struck)
    }
}

// Whether one of two needs covers the other.
fn comparable<K: Kind>(a: K, b: K) -> bool
    ensures answer { Decides result (Comparable (K.Kind.levels a) (K.Kind.levels b)) }
{
    a.covers(b) || b.covers(a)
}

// The lowest place of a need that covers the new one or is covered by it.
fn comparable_place<K: Kind>(held: &[K], need: K) -> Option<usize>
    ensures answer { MatchOption result ((p : ℕ) → ComparableAt (map K.Kind.levels held.now) (K.Kind.levels need) p → ⊥) (LowestComparable (map K.Kind.levels held.now) (K.Kind.levels need)) }
{
    held.iter().position(|other| comparable(need, *other))
}
