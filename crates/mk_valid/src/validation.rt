//! A validation, one act at a time.
ghost use Rattle.std.specs.Prelude.{◌≡◌, IfOk};
ghost use Rattle.mk_words.specs.Validations.{validation_of, next_act as next_of, after_answer, vote_so_far};

use crate::acts::{Kind, acts_of, release};
use mk_txn::{Conflict, NoMemory, Txn, Vote};
use mk_words::{Act, Answer};
use std::alloc::Global;
use std::marker::Model;

/// The checks of a transaction at a replica's keys up to the first refusal, then a release of each check that was
/// passed, in their order.
#[derive(Drop)]
pub struct Validation {
    checks: Vec<(u32, Act)>,
    passed: usize,
    given_up: usize,
    refusal: Option<Conflict>,
}

impl Model for Validation {
    ghost use Rattle.mk_words.specs.Validations.{ValidationState};
    ghost use Rattle.mk_valid.specs.Progress.{validation_at};

    ghost Value = { ValidationState };

    ghost view = { λ validation. validation_at validation.checks.items validation.passed validation.given_up validation.refusal };
}

impl Validation {
    pub fn start(alloc: Global, txn: &Txn) -> Result<Validation, NoMemory>
        ensures { IfOk result (λ validation. validation ≡ validation_of txn.now) }
    {
        let checks = acts_of(alloc, Kind::Check, txn)?;
        Ok(Validation {
            checks,
            passed: 0,
            given_up: 0,
            refusal: None,
        })
    }

    /// The act that is to be done next, with its key, and None once nothing is left.
    pub fn next_act(&self) -> Option<(u32, Act)>
        ensures { result ≡ next_of self.now }
    {
        match self.refusal {
            None => self.checks.get(self.passed).copied(),
            Some(_) => {
                if self.given_up < self.passed {
                    let check = self.checks.get(self.given_up).copied()?;
                    Some(release(check))
                } else {
                    None
                }
            }
        }
    }

    /// Takes the answer to the next act. Nothing changes where nothing is left, or where a check is answered neither
    /// Okay nor Refused.
    pub fn take(&mut self, answer: Answer)
        ensures { self.new ≡ after_answer self.old answer }
    {
        match self.refusal {
            None => {
                if let Some(check) = self.checks.get(self.passed).copied() {
                    match answer {
                        Answer::Okay => self.passed += 1,
                        Answer::Refused { reason, stamp } => {
                            self.given_up = 0;
                            self.refusal = Some(Conflict {
                                key: check.0,
                                reason,
                                stamp,
                            });
                        }
                        Answer::Version { .. } | Answer::Done => {}
                    }
                }
            }
            Some(_) => {
                if self.given_up < self.passed {
                    self.given_up += 1;
                }
            }
        }
    }

    /// The vote, which there is once nothing is left to be done.
    pub fn vote(&self) -> Option<Vote>
        ensures { result ≡ vote_so_far self.now }
    {
        if self.next_act().is_some() {
            return None;
        }
        match self.refusal {
            None => Some(Vote::Ok),
            Some(conflict) => Some(Vote::Abort(conflict)),
        }
    }
}
