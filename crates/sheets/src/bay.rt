// A sheet in the bay, where it may be changed.
ghost use Rattle.std.specs.Prelude.{◌≡◌, [], map, length, ◌≤ℤ◌, is_ok, IfOk, if◌then◌else◌, Decides, MatchResult, slice_index_or, slice_set};
ghost use Rattle.readings.specs.Readings.{sixty_fourths};
ghost use Rattle.inclusion_exclusion.specs.Changes.{Raises, Lowers};
ghost use Rattle.sheets.specs.Standings.{opened, sized, fitted, struck, struck_storage, weighted};
ghost use Rattle.sheets.specs.Causes.{AsksFrom, ToldPlace};
ghost use Rattle.sheets.specs.Causes.Call.{size as size_call, set as set_call, set_by_readings as readings_call, fit as fit_call, strike as strike_call};
ghost use Rattle.sheets.specs.Refusals.{place as place_of};
ghost use Rattle.sheets.specs.Sheets.{bay_standing, bay_storage, bay_causes, bay_reliability, road_standing, road_storage, Outcome};

use crate::clutter::Clutter;
use crate::refusal::Refusal;
use crate::road::RoadSheet;
use crate::sheet::Sheet;
use needs::{Kind, WIDTH};
use readings::{Readings, row_of};
use weights::{COMPONENTS, Card, Row, falls, trimmed};

#[derive(Drop)]
pub struct BaySheet<'a, K: Kind> {
    pub(crate) sheet: Sheet<'a, K>,
}

// Whether a need asks for a level above 0 from a component on.
fn asks_from<K: Kind>(need: K, first: usize) -> bool
    ensures answer { Decides result (AsksFrom first (K.Kind.levels need)) }
{
    (first..WIDTH).any(|i| need.level(i) > 0)
}

impl<'a, K: Kind> BaySheet<'a, K> {
    pub fn open(places: &'a mut [K]) -> BaySheet<'a, K>
        ensures standing { bay_standing result ≡ opened }
        ensures storage { bay_storage result ≡ places.old }
    {
        BaySheet {
            sheet: Sheet {
                needs: Clutter::open(places),
                components: 1,
                card: Card::blank(),
            },
        }
    }

    // Gives the sheet a number of components, and takes all chances away.
    pub fn size(&mut self, components: usize) -> Result<(), Refusal>
        ensures refused { Outcome result (bay_causes K.Kind self.old (size_call components)) }
        ensures standing { bay_standing self.new ≡ (if is_ok result then sized components (bay_standing self.old) else bay_standing self.old) }
        ensures storage { bay_storage self.new ≡ bay_storage self.old }
    {
        let sheet = &mut self.sheet;
        if !(1..=COMPONENTS).contains(&components) {
            return Err(Refusal::BadSize);
        }
        if sheet.needs.held > 0 {
            return Err(Refusal::NeedsHeld);
        }
        sheet.components = components;
        sheet.card = Card::blank();
        Ok(())
    }

    // Puts the sheet back to its opening; storage keeps what it holds.
    pub fn reopen(&mut self)
        ensures standing { bay_standing self.new ≡ opened }
        ensures storage { bay_storage self.new ≡ bay_storage self.old }
    {
        let sheet = &mut self.sheet;
        sheet.needs.held = 0;
        sheet.components = 1;
        sheet.card = Card::blank();
    }

    // Replaces all weights of a component; what the row has above the top level is not read.
    pub fn set(&mut self, component: usize, row: Row) -> Result<(), Refusal>
        ensures refused { Outcome result (bay_causes K.Kind self.old (set_call component row)) }
        ensures standing { bay_standing self.new ≡ (if is_ok result then weighted K.Kind.TOP component row (bay_standing self.old) else bay_standing self.old) }
        ensures storage { bay_storage self.new ≡ bay_storage self.old }
        ensures raising { Raises K.Kind.TOP (slice_index_or (bay_standing self.old).card component []) row → bay_reliability K.Kind self.old ≤ℤ bay_reliability K.Kind self.new }
        ensures lowering { Lowers K.Kind.TOP (slice_index_or (bay_standing self.old).card component []) row → bay_reliability K.Kind self.new ≤ℤ bay_reliability K.Kind self.old }
    {
        let sheet = &mut self.sheet;
        if component >= sheet.components {
            return Err(Refusal::UnknownComponent);
        }
        let top = K::TOP;
        if !falls(&row, top) {
            return Err(Refusal::RisingWeights);
        }
        sheet.card.write(component, trimmed(row, top));
        Ok(())
    }

    // Replaces all weights of a component by those of its readings; what these have above the top level is not read.
    pub fn set_by_readings(&mut self, component: usize, readings: Readings) -> Result<(), Refusal>
        ensures refused { Outcome result (bay_causes K.Kind self.old (readings_call component readings)) }
        ensures standing { bay_standing self.new ≡ (if is_ok result then weighted K.Kind.TOP component (map sixty_fourths readings) (bay_standing self.old) else bay_standing self.old) }
        ensures storage { bay_storage self.new ≡ bay_storage self.old }
        ensures raising { Raises K.Kind.TOP (slice_index_or (bay_standing self.old).card component []) (map sixty_fourths readings) → bay_reliability K.Kind self.old ≤ℤ bay_reliability K.Kind self.new }
        ensures lowering { Lowers K.Kind.TOP (slice_index_or (bay_standing self.old).card component []) (map sixty_fourths readings) → bay_reliability K.Kind self.new ≤ℤ bay_reliability K.Kind self.old }
    {
        if component >= self.sheet.components {
            return Err(Refusal::UnknownComponent);
        }
        let row = row_of(&readings, K::TOP).ok_or(Refusal::BadReading)?;
        self.set(component, row)
    }

    // Adds a need in the next place, and answers the place.
    pub fn fit(&mut self, need: K) -> Result<usize, Refusal>
        ensures refused { Outcome result (bay_causes K.Kind self.old (fit_call need)) }
        ensures answer { MatchResult result (λ p. p ≡ length (bay_standing self.old).needs) (λ e. ToldPlace (map K.Kind.levels (bay_standing self.old).needs) (K.Kind.levels need) (place_of e)) }
        ensures standing { bay_standing self.new ≡ (if is_ok result then fitted need (bay_standing self.old) else bay_standing self.old) }
        ensures storage { bay_storage self.new ≡ (if is_ok result then slice_set (bay_storage self.old) (length (bay_standing self.old).needs) need else bay_storage self.old) }
        ensures never_lowers { bay_reliability K.Kind self.old ≤ℤ bay_reliability K.Kind self.new }
    {
        let sheet = &mut self.sheet;
        if asks_from(need, sheet.components) {
            return Err(Refusal::UnknownComponent);
        }
        if !asks_from(need, 0) {
            return Err(Refusal::EmptyNeed);
        }
        sheet.needs.fit(need)
    }

    // Takes out the need in a place, moves the later ones down by one, and answers the need.
    pub fn strike(&mut self, place: usize) -> Result<K, Refusal>
        ensures refused { Outcome result (bay_causes K.Kind self.old (strike_call place)) }
        ensures answer { IfOk result (λ d. d ≡ slice_index_or (bay_standing self.old).needs place d) }
        ensures standing { bay_standing self.new ≡ (if is_ok result then struck place (bay_standing self.old) else bay_standing self.old) }
        ensures storage { bay_storage self.new ≡ (if is_ok result then struck_storage (length (bay_standing self.old).needs) place (bay_storage self.old) else bay_storage self.old) }
        ensures never_raises { bay_reliability K.Kind self.new ≤ℤ bay_reliability K.Kind self.old }
    {
        let sheet = &mut self.sheet;
        sheet.needs.strike(place)
    }

    // Moves the sheet onto the road.
    pub fn put_out(self) -> RoadSheet<'a, K>
        ensures standing { road_standing result ≡ bay_standing self.entry }
        ensures storage { road_storage result ≡ bay_storage self.entry }
    {
        let BaySheet { sheet } = self;
        RoadSheet { sheet }
    }
}
