//! Texts and runs stand for one another, and what a reader of pieces stands for.
ghost use Rattle.std.specs.Prelude.{◌≡◌, ◌≤◌, ◌++◌, ℕ, List, Some, Ok, length};
ghost use Rattle.mk_history.specs.Histories.{History};
ghost use Rattle.mk_history.specs.declared.RoundLog.{RoundLog as Round};
ghost use Rattle.mk_history.specs.Shape.{HasShape};
ghost use Rattle.mk_kept.specs.declared.head.Head.{Head};
ghost use Rattle.mk_kept.specs.Heads.{history};
ghost use Rattle.mk_trace_text.specs.Grammar.{state_text, head_of};
ghost use Rattle.mk_trace.specs.Pieces.{Reading, started, fed, finished};
ghost use Rattle.mk_trace.specs.Answers.{with_rounds, run_of, run_text, answer_with};
ghost use Rattle.mk_trace_text.specs.Traces.{trace_text};

/// A trace that comes in pieces is answered as the whole text is, wherever it is cut.
#[tactic(auto, using(crate::proofs::PieceLaws::finished_text))]
pub fn pieces_are_the_text()
    ensures { (bytes : List ℕ) → finished (fed started bytes) ≡ state_text bytes }
{}

/// A reader that stands for a text, some of whose rounds were handed out, stands behind a piece for the text and the piece.
#[tactic(auto, using(crate::proofs::HandedOut::piece_behind))]
pub fn a_piece_follows_the_text()
    ensures { (text piece : List ℕ) (taken : List Round) (r : Reading) → fed started text ≡ with_rounds taken r →
        fed started (text ++ piece) ≡ with_rounds taken (fed r piece) }
{}

/// At the end of a text that is read, the head and the rounds, those that were handed out and those that were not, have the shape of a run.
pub fn read_rounds_are_a_run()
    ensures { (text : List ℕ) (taken : List Round) (r : Reading) → fed started text ≡ with_rounds taken r → finished r ≡ Ok r.state →
        HasShape (history r.state.head (taken ++ r.state.rounds)) }
{}

/// Also before the end of a text, the rounds that were read to theirs have the shape of a run with the head, which is told by then.
pub fn rounds_so_far_are_a_run()
    ensures { (text : List ℕ) (taken : List Round) (r : Reading) → fed started text ≡ with_rounds taken r → 1 ≤ length (taken ++ r.state.rounds) →
        HasShape (history r.state.head (taken ++ r.state.rounds)) × (head_of r.state ≡ Some r.state.head) }
{}

/// A head that was told stays.
pub fn the_head_stays()
    ensures { (text piece : List ℕ) (taken : List Round) (r : Reading) (head : Head) → fed started text ≡ with_rounds taken r → head_of r.state ≡ Some head →
        head_of (fed r piece).state ≡ Some head }
{}

/// What a reader answers at the end of a text, with the rounds that were handed out in front, is what the whole text is answered.
pub fn a_reader_answers_the_text()
    ensures { (text : List ℕ) (taken : List Round) (r : Reading) → fed started text ≡ with_rounds taken r → run_text text ≡ run_of (answer_with taken (finished r)) }
{}

/// The trace of a run is read, and gives that run.
#[tactic(auto, using(crate::proofs::BothWays::read_back))]
pub fn a_trace_gives_its_run()
    ensures { (run : History) → HasShape run → run_text (trace_text run) ≡ Ok run }
{}

/// There is no second spelling: a text that gives a run is the trace of that run.
#[tactic(auto, using(crate::proofs::OneSpelling::one_spelling))]
pub fn a_run_has_one_trace()
    ensures { (bytes : List ℕ) (run : History) → run_text bytes ≡ Ok run → bytes ≡ trace_text run }
{}
