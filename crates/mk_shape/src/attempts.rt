//! How many attempts the rounds of a run begin.
ghost use Rattle.std.specs.Prelude.{◌≡◌, ◌==◌, ◌≤◌, ◌++◌, ◌∷◌, ◌↔◌, IsTrue, List, [], length, count_by, nat_le};
ghost use Rattle.std.specs.List.{list_all};
ghost use Rattle.mk_lists.specs.Among.{Each};
ghost use Rattle.mk_history.specs.declared.RoundLog.{RoundLog as Round};
ghost use Rattle.mk_history.specs.Histories.{History};
ghost use Rattle.mk_history.specs.Shape.{IsRoundShape, begins_of, begins_in};
ghost use Rattle.mk_shape.specs.AttemptCounts.{Adds, Counts, FewAttempts, one_where};

use mk_kept::{RoundLog, Step};
use std::marker::Model;

/// How many attempts each client begins in the rounds that were taken.
#[derive(Drop)]
pub struct Attempts {
    counts: [u32; 64],
}

impl Model for Attempts {
    ghost use Rattle.std.specs.Prelude.{ℕ, List};

    ghost Value = { List ℕ };

    ghost view = { λ attempts. attempts.counts };
}

impl Attempts {
    /// No round was taken.
    pub fn new() -> Attempts
        ensures { Counts result [] }
    {
        Attempts { counts: [0; 64] }
    }

    /// Takes the next round.
    pub fn take(&mut self, round: &RoundLog)
        ensures { (rounds : List Round) → Counts self.old rounds → Counts self.new (rounds ++ round.now ∷ []) }
    {
        count_round(&mut self.counts, round);
    }

    /// Whether no client begins more than 16384 attempts in the rounds that were taken, where each has the shape of a round
    /// of a run of at most 64 clients.
    pub fn are_few(&self) -> bool
        ensures { (run : History) (rounds : List Round) → Counts self.now rounds →
            length run.client_names ≤ 64 → Each (IsRoundShape run) rounds → (IsTrue result ↔ FewAttempts rounds) }
    {
        are_few(&self.counts)
    }
}

fn are_few(counts: &[u32]) -> bool
    ensures { result ≡ list_all (λ count. nat_le count 16384) counts.now }
{
    counts.iter().all(|count| *count <= 16384)
}

/// One attempt more of the client of this number, which counts from 1.
fn count_client(counts: &mut [u32], client: u32)
    ensures { Adds counts.old counts.new (λ number. one_where (client == number)) }
{
    if client == 0 || client as usize > counts.len() {
        return;
    }
    let place = client as usize - 1;
    counts[place] = counts[place].saturating_add(1);
}

fn count_step(counts: &mut [u32], step: &Step)
    ensures { Adds counts.old counts.new (λ client. one_where (begins_of client step.now)) }
{
    match step {
        Step::Begin { client, .. } | Step::Unread { client } => count_client(counts, *client),
        _ => {}
    }
}

fn count_log(counts: &mut [u32], log: &[Step])
    ensures { Adds counts.old counts.new (λ client. count_by (begins_of client) log.now) }
{
    for step in log.iter() {
        count_step(counts, step);
    }
}

fn count_round(counts: &mut [u32], round: &RoundLog)
    ensures { Adds counts.old counts.new (λ client. begins_in client round.now) }
{
    let logs = round.logs.as_slice();
    for log in logs.iter() {
        count_log(counts, log.as_slice());
    }
}
