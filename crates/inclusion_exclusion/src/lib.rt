// What totals, brackets, verdicts and changes of a sheet mean: theorems over all settings and needs.
#![tactic(auto)]

ghost use Rattle.inclusion_exclusion.specs.States.{TotalsCountStates};
ghost use Rattle.inclusion_exclusion.specs.Reliability.{TotalsBoundReliability};
ghost use Rattle.inclusion_exclusion.specs.Bonferroni.{BracketsHoldReliability, VerdictsTellReliability};
ghost use Rattle.inclusion_exclusion.specs.Changes.{FitsRaiseReliability, StrikesLowerReliability, SetsFollowWeights};

use algebras::Algebra;

// A total is a sum over states, in any algebra.
pub fn totals_count_states<A: Algebra>()
    ensures theorem { TotalsCountStates A.Algebra.model }
{}

// The totals of the fixed algebra lie around the reliability.
pub fn totals_bound_reliability()
    ensures theorem { TotalsBoundReliability }
{}

// Brackets hold the reliability, the deeper inside the others.
pub fn brackets_hold_reliability()
    ensures theorem { BracketsHoldReliability }
{}

// Verdicts tell of the reliability, and full depth decides.
pub fn verdicts_tell_reliability()
    ensures theorem { VerdictsTellReliability }
{}

// A need more never lowers the reliability.
pub fn fits_raise_reliability()
    ensures theorem { FitsRaiseReliability }
{}

// A need less never raises the reliability.
pub fn strikes_lower_reliability()
    ensures theorem { StrikesLowerReliability }
{}

// The reliability moves with the weights.
pub fn sets_follow_weights()
    ensures theorem { SetsFollowWeights }
{}
