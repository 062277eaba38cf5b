//! What is kept of one change of epoch.
ghost use Rattle.std.specs.Prelude.{◌≡◌, ◌<◌, Option, option_copied, OnOk, OnErr, IfErr};
ghost use Rattle.mk_quorum.specs.Sizes.{members};
ghost use Rattle.mk_quorum.specs.Counts.{count_below};
ghost use Rattle.mk_quorum.specs.ReplicaSets.{has_replica};
ghost use Rattle.mk_epoch.specs.declared.EpochError.TheVariants as errors;
ghost use Rattle.mk_epoch.specs.Changes.{no_change, asked_for, promised_to, made_as, adopted_by};
ghost use Rattle.mk_epoch.specs.Words.{IsWritten};
ghost use Rattle.mk_epoch.specs.Standing.{IsFault};

use crate::EpochError;
use mk_io::EpochWord;
use mk_merge::Promise;
use mk_quorum::{ReplicaSet, Size};
use std::alloc::Global;
use std::marker::Model;

/// Whether a change was asked for, its promises in order, its base where it was made, and who ever adopted it.
#[derive(Drop)]
pub struct Change<B> {
    asked: bool,
    promises: Vec<Promise<B>>,
    made: Option<B>,
    adopters: ReplicaSet,
}

impl<B> Model for Change<B> {
    ghost use Rattle.mk_epoch.specs.Changes.{ChangeView};

    ghost Value = { ChangeView B };

    ghost view = { λ change. record { asked = change.asked; promises = change.promises.items; made = change.made; adopters = change.adopters } };
}

impl<B: Drop> Change<B> {
    // Nobody asked for it.
    pub fn new(alloc: Global) -> Change<B>
        ensures { result ≡ no_change }
    {
        Change {
            asked: false,
            promises: Vec::new(alloc),
            made: None,
            adopters: ReplicaSet::new(),
        }
    }

    pub fn ask(&mut self)
        ensures { self.new ≡ asked_for self.old }
    {
        self.asked = true;
    }

    pub fn is_asked(&self) -> bool
        ensures { result ≡ self.now.asked }
    {
        self.asked
    }

    pub fn promises(&self) -> &[Promise<B>]
        ensures { result.now ≡ self.now.promises }
    {
        self.promises.as_slice()
    }

    // Writes the epoch to the word of the replica that promises, and keeps its promise.
    pub fn promise<W: EpochWord>(
        &mut self,
        epoch: u32,
        promise: Promise<B>,
        word: &mut W,
    ) -> Result<(), EpochError>
        ensures ok { OnOk result (self.new ≡ promised_to promise self.old) }
        ensures err { OnErr result (self.new ≡ self.old) }
        ensures word { IsWritten W.kept W.sets W.faults epoch word.old word.new result }
        ensures told { IfErr result IsFault }
    {
        if self.promises.reserve(1).is_err() {
            return Err(EpochError::NoMemory);
        }
        write_word(word, epoch)?;
        self.promises.push_reserved(promise);
        Ok(())
    }

    pub fn made(&self) -> Option<&B>
        ensures { option_copied result ≡ self.now.made }
    {
        self.made.as_ref()
    }

    pub fn make(&mut self, base: B)
        ensures { self.new ≡ made_as base self.old }
    {
        self.made = Some(base);
    }

    pub fn adopt(&mut self, replica: u32)
        requires { replica < 7 }
        ensures { self.new ≡ adopted_by replica self.old }
    {
        self.adopters.insert(replica);
    }

    // How many replicas ever adopted it.
    pub fn adopters(&self, size: Size) -> u32
        ensures { result ≡ count_below (members size) (has_replica self.now.adopters) }
    {
        let mut count = 0;
        for replica in 0..size.n() {
            if self.adopters.contains(replica) {
                count += 1;
            }
        }
        count
    }
}

// Writes the epoch to the word.
pub fn write_word<W: EpochWord>(word: &mut W, epoch: u32) -> Result<(), EpochError>
    ensures word { IsWritten W.kept W.sets W.faults epoch word.old word.new result }
    ensures told { IfErr result (λ error. error ≡ errors.WordFault) }
{
    if word.set(epoch).is_err() {
        return Err(EpochError::WordFault);
    }
    Ok(())
}
