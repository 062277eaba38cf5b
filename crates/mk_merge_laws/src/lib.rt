//! The laws of the merge: what a base is composed of.
//!
//! They are said of the definition alone, for the promises that count. The functions do nothing: what they promise is the
//! law.
#![tactic(auto)]

ghost use Rattle.mk_merge_laws.specs.Composition.{OldFatesStay, FinalFatesStay, AcceptedFatesStay, UnsettledFates, NothingElse, StandsInOrder, RejectedConflict, CandidatesFit, OkReportsMean, ConflictIsMutual};
ghost use Rattle.mk_merge_laws.specs.Marks.{MarksAreGreatest};
ghost use Rattle.std.specs.Prelude.{ℕ, List};
ghost use Rattle.mk_words.specs.Promises.{PromiseState};

/// Where the outcome of each attempt in a base comes from.
pub fn fates_are_composed()
    ensures old_stay { (f epoch : ℕ) (promises : List PromiseState) → OldFatesStay f epoch promises }
    ensures final_stay { (f epoch : ℕ) (promises : List PromiseState) → FinalFatesStay f epoch promises }
    ensures accepted_stay { (f epoch : ℕ) (promises : List PromiseState) → AcceptedFatesStay f epoch promises }
    ensures unsettled { (f epoch : ℕ) (promises : List PromiseState) → UnsettledFates f epoch promises }
    ensures nothing_else { (f epoch : ℕ) (promises : List PromiseState) → NothingElse f epoch promises }
    ensures in_order { (f epoch : ℕ) (promises : List PromiseState) → StandsInOrder f epoch promises }
    ensures marks { (promises : List PromiseState) → MarksAreGreatest promises }
{}

/// Which candidates of a merge commit, and which are rejected.
pub fn candidates_give_way()
    ensures rejected_conflict { (f epoch : ℕ) (promises : List PromiseState) → RejectedConflict f epoch promises }
    ensures candidates_fit { (f epoch : ℕ) (promises : List PromiseState) → CandidatesFit f epoch promises }
    ensures ok_reports_mean { (f : ℕ) (promises : List PromiseState) → OkReportsMean f promises }
    ensures conflict_is_mutual { ConflictIsMutual }
{}
