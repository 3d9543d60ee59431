ghost use Rattle.reducers.specs.Calls.{KeepAllKnowsNothing, PairwiseKnowsTheLargest, ExactMeetsEveryBound, NoneKnowsMoreThanExact};
ghost use Rattle.reducers.specs.Decided.{Decides, exactly, nothing};
ghost use Rattle.reducers.specs.Rows.{known_only};
ghost use Rattle.reducers.specs.Vectors.{Knowing};

use crate::exact::Exact;
use crate::interface::Reducer;
use crate::keep_all::KeepAll;
use crate::pairwise::Pairwise;

// Holds the law that keep-all knows nothing after any list of calls.
pub fn keep_all_knows_nothing()
    ensures { KeepAllKnowsNothing }
{}

// Holds the law that pairwise knows the largest source count taken since reset.
pub fn pairwise_knows_the_largest_count_taken()
    ensures { PairwiseKnowsTheLargest }
{}

// Holds the laws that exact meets every bound with equality over any list of calls, and that no reducer within its bounds knows more.
pub fn exact_meets_every_bound()
    ensures equal { ExactMeetsEveryBound }
    ensures greatest { NoneKnowsMoreThanExact }
{}

// Holds what is known after some calls where every bound is met with equality.
pub fn what_calls_make_known()
    ensures { Knowing }
{}

// Holds what each of the three types makes of a bound: exact the bound itself, pairwise what it knows, keep-all zeros.
pub fn what_each_reducer_makes_of_a_bound()
    ensures exact { Decides ⟦<Exact as Reducer>⟧.meets exactly }
    ensures pairwise { Decides ⟦<Pairwise as Reducer>⟧.meets known_only }
    ensures keep_all { Decides ⟦<KeepAll as Reducer>⟧.meets nothing }
{}
