// A sheet on the road, where it is asked.
ghost use Rattle.std.specs.Prelude.{◌≡◌, ℕ, ◌^◌, ◌≤◌, length, IfOk, MatchResult, OnOk};
ghost use Rattle.sheets.specs.Causes.Call.{total as total_call, bracket as bracket_call, judge as judge_call, try_with as try_call};
ghost use Rattle.brackets.specs.Brackets.{pair as pair_of, verdict as verdict_of, Tells, Decided};
ghost use Rattle.inclusion_exclusion.specs.Reliability.{Bounded};
ghost use Rattle.inclusion_exclusion.specs.Bonferroni.{Holds, Inside};
ghost use Rattle.sheets.specs.Answers.{setting_of, needs_of, Found, road_total, road_counted, road_ends, reliability_of};
ghost use Rattle.sheets.specs.Tries.{tried};
ghost use Rattle.sheets.specs.Sheets.{bay_standing, bay_storage, road_standing, road_storage, road_causes, road_reliability, Outcome};

use crate::bay::BaySheet;
use crate::refusal::Refusal;
use crate::sheet::Sheet;
use crate::supposed::Supposed;
use algebras::Algebra;
use brackets::{Depth, Ends, Threshold, Verdict, bracket_ends, tried_ends};
use clutters::same_place;
use needs::Kind;
use weights::{LEVELS, trimmed};

#[derive(Drop)]
pub struct RoadSheet<'a, K: Kind> {
    pub(crate) sheet: Sheet<'a, K>,
}

impl<'a, K: Kind> RoadSheet<'a, K> {
    pub fn components(&self) -> usize
        ensures answer { result ≡ (road_standing self.now).components }
        ensures bound { result ≤ 8 }
    {
        self.sheet.components
    }

    // How many needs are held.
    pub fn held(&self) -> usize
        ensures answer { result ≡ length (road_standing self.now).needs }
        ensures bound { result ≤ 12 }
    {
        self.sheet.needs.held
    }

    // Moves the sheet into the bay.
    pub fn call_in(self) -> BaySheet<'a, K>
        ensures standing { bay_standing result ≡ road_standing self.entry }
        ensures storage { bay_storage result ≡ road_storage self.entry }
    {
        let RoadSheet { sheet } = self;
        BaySheet { sheet }
    }

    // The place of a need that is the same as the given one, if one is held.
    pub fn find(&self, need: K) -> Option<usize>
        ensures answer { Found K.Kind.levels K.Kind.TOP (road_standing self.now) need result }
    {
        same_place(self.sheet.needs.needs(), need)
    }

    // The total to a depth, in any algebra.
    pub fn total_at<A: Algebra>(&self, depth: Depth) -> A::Value
        ensures answer { A.Algebra.means result ≡ road_total K.Kind.levels K.Kind.TOP (road_standing self.now) A.Algebra.model depth.of }
        ensures counts_states { A.Algebra.means result ≡ road_counted K.Kind.levels K.Kind.TOP (road_standing self.now) A.Algebra.model depth.of }
    {
        let sheet = &self.sheet;
        sheet
            .chances()
            .total::<K, A>(sheet.needs.needs(), usize::from(depth))
    }

    // The same to a depth that is looked at first, written into `answer`; a refusal leaves that as it was.
    pub fn total<A: Algebra>(&self, depth: u8, answer: &mut A::Value) -> Result<(), Refusal>
        ensures refused { Outcome result (road_causes K.Kind self.now (total_call depth)) }
        ensures answer { MatchResult result (λ _. A.Algebra.means answer.new ≡ road_total K.Kind.levels K.Kind.TOP (road_standing self.now) A.Algebra.model depth) (λ _. answer.new ≡ answer.old) }
        ensures counts_states { OnOk result (A.Algebra.means answer.new ≡ road_counted K.Kind.levels K.Kind.TOP (road_standing self.now) A.Algebra.model depth) }
    {
        let depth = Depth::try_from(depth)?;
        *answer = self.total_at::<A>(depth);
        Ok(())
    }

    fn ends(&self, depth: Depth) -> Ends
        ensures answer { result ≡ road_ends K.Kind.levels K.Kind.TOP (road_standing self.now) depth.of }
    {
        let sheet = &self.sheet;
        bracket_ends(sheet.needs.needs(), sheet.chances(), depth)
    }

    // The bracket around the reliability, in units of 2^-32 of certainty.
    pub fn bracket_at(&self, depth: Depth) -> (u64, u64)
        ensures answer { result ≡ pair_of (road_ends K.Kind.levels K.Kind.TOP (road_standing self.now) depth.of) }
        ensures holds_reliability { Holds result (road_reliability K.Kind self.now) }
        ensures deeper_lies_inside { (deeper : ℕ) → depth.of ≤ deeper → Inside (pair_of (road_ends K.Kind.levels K.Kind.TOP (road_standing self.now) deeper)) result }
        ensures bound { (result.0 ≤ 2 ^ 32) × (result.1 ≤ 2 ^ 32) }
        ensures totals_bound_reliability { Bounded (setting_of K.Kind.levels K.Kind.TOP (road_standing self.now)) (needs_of K.Kind.levels K.Kind.TOP (road_standing self.now)) }
    {
        self.ends(depth).pair()
    }

    // The same at a depth that is looked at first.
    pub fn bracket(&self, depth: u8) -> Result<(u64, u64), Refusal>
        ensures refused { Outcome result (road_causes K.Kind self.now (bracket_call depth)) }
        ensures answer { IfOk result (λ p. p ≡ pair_of (road_ends K.Kind.levels K.Kind.TOP (road_standing self.now) depth)) }
        ensures holds_reliability { IfOk result (λ p. Holds p (road_reliability K.Kind self.now)) }
        ensures deeper_lies_inside { IfOk result (λ p. (deeper : ℕ) → depth ≤ deeper → Inside (pair_of (road_ends K.Kind.levels K.Kind.TOP (road_standing self.now) deeper)) p) }
        ensures bound { IfOk result (λ p. (p.0 ≤ 2 ^ 32) × (p.1 ≤ 2 ^ 32)) }
        ensures totals_bound_reliability { Bounded (setting_of K.Kind.levels K.Kind.TOP (road_standing self.now)) (needs_of K.Kind.levels K.Kind.TOP (road_standing self.now)) }
    {
        Ok(self.bracket_at(Depth::try_from(depth)?))
    }

    // The verdict on the bracket's exact ends.
    pub fn judge_at(&self, depth: Depth, threshold: Threshold) -> Verdict
        ensures answer { result ≡ verdict_of (road_ends K.Kind.levels K.Kind.TOP (road_standing self.now) depth.of) threshold.of }
        ensures tells_reliability { Tells (road_reliability K.Kind self.now) threshold.of result }
        ensures decides_at_full_depth { length (road_standing self.now).needs ≤ depth.of → Decided result }
    {
        self.ends(depth).verdict(threshold)
    }

    // The same at a depth and a threshold that are looked at first.
    pub fn judge(&self, depth: u8, threshold: u16) -> Result<Verdict, Refusal>
        ensures refused { Outcome result (road_causes K.Kind self.now (judge_call depth threshold)) }
        ensures answer { IfOk result (λ v. v ≡ verdict_of (road_ends K.Kind.levels K.Kind.TOP (road_standing self.now) depth) threshold) }
        ensures tells_reliability { IfOk result (λ v. Tells (road_reliability K.Kind self.now) threshold v) }
        ensures decides_at_full_depth { IfOk result (λ v. length (road_standing self.now).needs ≤ depth → Decided v) }
    {
        let at = Depth::try_from(depth)?;
        let asked = Threshold::try_from(threshold)?;
        Ok(self.judge_at(at, asked))
    }

    // The bracket with one component dead or sure; the sheet has its own card back, however the try ends.
    pub fn try_with(
        &mut self,
        component: usize,
        supposed: Supposed,
        depth: u8,
    ) -> Result<(u64, u64), Refusal>
        ensures refused { Outcome result (road_causes K.Kind self.old (try_call component supposed depth)) }
        ensures answer { IfOk result (λ p. p ≡ pair_of (road_ends K.Kind.levels K.Kind.TOP (tried K.Kind.TOP component supposed (road_standing self.old)) depth)) }
        ensures holds_reliability { IfOk result (λ p. Holds p (reliability_of K.Kind.levels K.Kind.TOP (tried K.Kind.TOP component supposed (road_standing self.old)))) }
        ensures deeper_lies_inside { IfOk result (λ p. (deeper : ℕ) → depth ≤ deeper → Inside (pair_of (road_ends K.Kind.levels K.Kind.TOP (tried K.Kind.TOP component supposed (road_standing self.old)) deeper)) p) }
        ensures bound { IfOk result (λ p. (p.0 ≤ 2 ^ 32) × (p.1 ≤ 2 ^ 32)) }
        ensures standing { road_standing self.new ≡ road_standing self.old }
        ensures storage { road_storage self.new ≡ road_storage self.old }
    {
        let sheet = &mut self.sheet;
        if component >= sheet.components {
            return Err(Refusal::UnknownComponent);
        }
        let row = trimmed([supposed.weight(); LEVELS], K::TOP);
        let needs = sheet.needs.needs();
        let mut card = sheet.card;
        let ends = tried_ends(
            needs,
            sheet.components,
            &mut card.rows,
            component,
            row,
            depth,
        );
        sheet.card = card;
        Ok(ends?.pair())
    }
}
