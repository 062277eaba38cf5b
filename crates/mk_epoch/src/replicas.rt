//! The replicas as an epoch change sees them, and what each step of one does.
ghost use Rattle.std.specs.Prelude.{◌≡◌, ℕ, ◌<◌, ◌≤◌, ◌∷◌, ◌++◌, ◌-◌, ⊤, true, false, nat_le, List, length, map, replicate, slice_get, slice_set, Option, Some, None, option_copied, option_map, IsSome, IfSome, IfOk, IfErr, OnOk, OnErr, if◌then◌else◌};
ghost use Rattle.mk_lists.specs.Changed.{change as change_all};
ghost use Rattle.std.specs.Prelude.{◌==◌};
ghost use Rattle.std.specs.List.{list_any};
ghost use Rattle.mk_quorum.specs.Sizes.{members, majority_of};
ghost use Rattle.mk_merge.specs.declared.Promise.{Promise as KeptPromise};
ghost use Rattle.mk_words.specs.declared.Phase.TheVariants.{Adopted, Lacking, Paused};
ghost use Rattle.mk_words.specs.Bases.{BaseState};
ghost use Rattle.mk_words.specs.Promises.{PromiseState, ArePromises, can_merge, leader_of};
ghost use Rattle.mk_words.specs.Merging.{merged as merged_base};
ghost use Rattle.mk_merge.specs.Keepings.{Stand};
ghost use Rattle.mk_words.specs.declared.Entry.{Entry as KeptEntry};
ghost use Rattle.mk_words.specs.declared.GlobalLine.TheVariants.{Wipe as WipeLine, Ask as AskLine, Promise as PromiseLine, Adopt as AdoptLine, Enter as EnterLine, Merge as MergeLine};
ghost use Rattle.mk_words.specs.declared.GlobalAnswer.TheVariants.{Ok as Done, Entered};
ghost use Rattle.mk_epoch.specs.declared.replica.Replica.{Replica as KeptReplica};
ghost use Rattle.mk_model.specs.EpochState.{EpochState, ReplicaState, first_epochs, first_replica, promises_for, made_for, adopters as adopters_of};
ghost use Rattle.mk_model.specs.GlobalAnswers.{global_answer, counts_of};
ghost use Rattle.mk_model.specs.GlobalSteps.{HandedIn, nothing_handed};
ghost use Rattle.mk_epoch.specs.Changes.{ChangeView, no_change, change_for, with_asked, promised_to, made_as, adopted_by};
ghost use Rattle.mk_epoch.specs.Words.{IsWritten};
ghost use Rattle.mk_epoch.specs.Standing.{ReplicasView, ReplicaStands, StandsFor, MadeStands, word_at, waits_for, now_serving, IsRefusal, IsEarly, IsFault, IsHandedIn, told, done, counts, Does, Merges};

use crate::EpochError;
use crate::change::{Change, write_word};
use crate::replica::Replica;
use mk_io::EpochWord;
use mk_merge::{Entries, Keeping, MergeError, Promise};
use mk_quorum::Size;
use mk_record::copies;
use mk_txn::{Marks, NoMemory};
use mk_words::{Entry, Phase};
use std::alloc::Global;
use std::marker::Model;

/// The replicas' words, phases, epochs and bases, and what was asked, promised, made and adopted.
///
/// Epochs are 1 to 1,000, and replicas 0 to 2f.
#[derive(Drop)]
pub struct Replicas<B> {
    size: Size,
    replicas: Vec<Replica<B>>,
    // by epoch; that of epoch 0 is never asked for
    changes: Vec<Change<B>>,
}

impl<B> Model for Replicas<B> {
    ghost use Rattle.mk_epoch.specs.Standing.{ReplicasView, IsKept};

    ghost Value = { ReplicasView B };

    ghost view = { λ r. record { faults = r.size; replicas = r.replicas.items; changes = r.changes.items } };

    ghost invariant = { λ r. IsKept (record { faults = r.size; replicas = r.replicas.items; changes = r.changes.items }) };
}

impl<B: Keeping> Replicas<B> {
    /// At the start each replica serves epoch 0 with the empty base, and its word reads 0.
    pub fn new(alloc: Global, size: Size) -> Result<Replicas<B>, NoMemory>
        ensures stands { IfOk result (λ r. StandsFor B.stands r (first_epochs size)) }
        ensures size { IfOk result (λ r. r.faults ≡ size) }
    {
        let mut replicas = Vec::new(alloc);
        for _ in 0..2 * size.f() + 1 {
            replicas.push(first::<B>(alloc))?;
        }
        Ok(Replicas {
            size,
            replicas,
            changes: Vec::new(alloc),
        })
    }

    /// The number that the calls so far left in the replica's word, 0 at the start.
    pub fn word(&self, replica: u32) -> u32
        requires { replica < members self.now.faults }
        ensures value { result ≡ word_at self.now.replicas replica }
        ensures stands { (state : EpochState) → StandsFor B.stands self.now state → option_map (λ (r : ReplicaState). r.word) (slice_get state.replicas replica) ≡ Some result }
    {
        self.replica(replica).word
    }

    pub fn phase(&self, replica: u32) -> Phase
        requires { replica < members self.now.faults }
        ensures { (state : EpochState) → StandsFor B.stands self.now state → option_map (λ (r : ReplicaState). r.phase) (slice_get state.replicas replica) ≡ Some result }
    {
        self.replica(replica).phase
    }

    /// The epoch that the replica has adopted, 0 for one that lacks its state.
    pub fn adopted(&self, replica: u32) -> u32
        requires { replica < members self.now.faults }
        ensures { (state : EpochState) → StandsFor B.stands self.now state → option_map (λ (r : ReplicaState). r.adopted) (slice_get state.replicas replica) ≡ Some result }
    {
        self.replica(replica).adopted
    }

    /// The base of that epoch, the empty one for a replica that lacks its state.
    pub fn base(&self, replica: u32) -> &B
        requires { replica < members self.now.faults }
        ensures { (state : EpochState) → StandsFor B.stands self.now state → (r : ReplicaState) × (slice_get state.replicas replica ≡ Some r) × B.stands result.now r.base }
    {
        &self.replica(replica).base
    }

    /// The epoch's base, None exactly where it was not made.
    pub fn made(&self, epoch: u32) -> Option<&B>
        ensures { (state : EpochState) → StandsFor B.stands self.now state → MadeStands B.stands (option_copied result) (made_for epoch state) }
    {
        self.change(epoch)?.made()
    }

    /// The first reason for which the replica's promise for the epoch would be refused: [`EpochError::Unasked`],
    /// [`EpochError::Lacking`], [`EpochError::Old`].
    pub fn may_promise(&self, epoch: u32, replica: u32) -> Result<(), EpochError>
        requires { replica < members self.now.faults }
        ensures answer { (state : EpochState) → StandsFor B.stands self.now state → told done result ≡ Some (global_answer state (PromiseLine epoch replica)) }
        ensures early { IfErr result IsEarly }
    {
        self.check_promise(epoch, replica)
    }

    /// The first reason for which the replica would not adopt the epoch: [`EpochError::Unmade`], [`EpochError::Old`].
    pub fn may_adopt(&self, epoch: u32, replica: u32) -> Result<(), EpochError>
        requires { replica < members self.now.faults }
        ensures answer { (state : EpochState) → StandsFor B.stands self.now state → told done result ≡ Some (global_answer state (AdoptLine epoch replica)) }
        ensures early { IfErr result IsEarly }
    {
        self.check_adopt(epoch, replica)
    }

    /// Asks for a change to this epoch.
    ///
    /// # Errors
    /// [`EpochError::NoMemory`]; nothing is changed then.
    pub fn ask(&mut self, epoch: u32) -> Result<(), EpochError>
        requires { (1 ≤ epoch) × (epoch ≤ 1000) }
        ensures does { Does B.stands self.old self.new nothing_handed (AskLine epoch) (told done result) }
        ensures size { self.new.faults ≡ self.old.faults }
        ensures err { IfErr result (λ error. error ≡ EpochError.NoMemory) }
    {
        self.keep_asked(epoch)?;
        Ok(())
    }

    /// The replica writes the epoch to its word, pauses, and hands in its epoch, its base and what is given here. All
    /// memory is taken before the word is written.
    ///
    /// # Errors
    /// In this order, and nothing is changed then: [`EpochError::Unasked`], [`EpochError::Lacking`],
    /// [`EpochError::Old`] where the word is not below the epoch, [`EpochError::NoMemory`], [`EpochError::WordFault`].
    pub fn promise<W: EpochWord>(
        &mut self,
        epoch: u32,
        replica: u32,
        entries: &[Entry],
        marks: &Marks,
        word: &mut W,
    ) -> Result<(), EpochError>
        requires there { replica < members self.old.faults }
        requires range { (1 ≤ epoch) × (epoch ≤ 1000) }
        requires word { W.kept word.old ≡ word_at self.old.replicas replica }
        ensures does { Does B.stands self.old self.new (record { entries = entries.now; marks = marks.now }) (PromiseLine epoch replica) (told done result) }
        ensures size { self.new.faults ≡ self.old.faults }
        ensures err { OnErr result (self.new ≡ self.old) }
        ensures word { IsWritten W.kept W.sets W.faults epoch word.old word.new result }
    {
        self.check_promise(epoch, replica)?;
        let promise = self.handed_in(replica, entries, marks)?;
        self.keep_promise(epoch, replica, promise, word)
    }

    /// The epoch's leader makes the epoch's base of the promises, where it was not made yet. Answers how many of its
    /// outcomes that its marks do not cover are commits, and how many aborts. `word` is the leader's.
    ///
    /// # Errors
    /// In this order, where the base was not made, and nothing is changed then: [`EpochError::Short`] with the number
    /// of promises where fewer than a majority promised or the leader did not, [`EpochError::Lacking`] and
    /// [`EpochError::Old`] of the leader where its word is above the epoch, [`EpochError::NoMemory`].
    pub fn merge<W: EpochWord>(&mut self, epoch: u32, word: &W) -> Result<(u64, u64), EpochError>
        requires range { (1 ≤ epoch) × (epoch ≤ 1000) }
        requires word { W.kept word.now ≡ word_at self.old.replicas (leader_of self.old.faults epoch) }
        requires fit { (state : EpochState) × StandsFor B.stands self.old state × ArePromises (promises_for epoch state) }
        ensures does { Merges B.stands self.old self.new epoch (told counts result) }
        ensures size { self.new.faults ≡ self.old.faults }
        ensures err { OnErr result (self.new ≡ self.old) }
    {
        if let Some(base) = self.made_base(epoch) {
            return Ok(counted(base));
        }
        self.may_merge(epoch, word.get())?;
        let base = self.merged(epoch)?;
        let counts = counted(&base);
        self.keep_base(epoch, base);
        Ok(counts)
    }

    /// The replica writes the epoch to its word and takes over the epoch's base. All memory is taken before the word
    /// is written.
    ///
    /// # Errors
    /// In this order, and nothing is changed then: [`EpochError::Unmade`], [`EpochError::Old`] where the word is above
    /// the epoch or the epoch was adopted (of a replica that lacks its state: where the word is not below the epoch),
    /// [`EpochError::NoMemory`], [`EpochError::WordFault`].
    pub fn adopt<W: EpochWord>(
        &mut self,
        epoch: u32,
        replica: u32,
        word: &mut W,
    ) -> Result<(), EpochError>
        requires there { replica < members self.old.faults }
        requires range { (1 ≤ epoch) × (epoch ≤ 1000) }
        requires word { W.kept word.old ≡ word_at self.old.replicas replica }
        ensures does { Does B.stands self.old self.new nothing_handed (AdoptLine epoch replica) (told done result) }
        ensures size { self.new.faults ≡ self.old.faults }
        ensures err { OnErr result (self.new ≡ self.old) }
        ensures word { IsWritten W.kept W.sets W.faults epoch word.old word.new result }
    {
        self.check_adopt(epoch, replica)?;
        let base = self.base_of(epoch)?;
        write_word(word, epoch)?;
        self.keep_adopted(epoch, replica, base);
        Ok(())
    }

    /// Each replica that has adopted the epoch and waits serves it. Answers how many replicas ever adopted it.
    ///
    /// # Errors
    /// [`EpochError::Short`] with their number where they are fewer than a majority; nothing is changed then.
    pub fn enter(&mut self, epoch: u32) -> Result<u32, EpochError>
        requires { (1 ≤ epoch) × (epoch ≤ 1000) }
        ensures does { Does B.stands self.old self.new nothing_handed (EnterLine epoch) (told Entered result) }
        ensures size { self.new.faults ≡ self.old.faults }
        ensures err { OnErr result (self.new ≡ self.old) }
        ensures early { IfErr result IsEarly }
    {
        let count = self.adopters(epoch);
        if count < self.size.majority() {
            return Err(EpochError::Short(count));
        }
        self.serve(epoch);
        Ok(count)
    }

    /// The replica loses all but its word.
    pub fn wipe(&mut self, replica: u32)
        requires { replica < members self.old.faults }
        ensures does { Does B.stands self.old self.new nothing_handed (WipeLine replica) (Some Done) }
        ensures size { self.new.faults ≡ self.old.faults }
    {
        let empty = B::empty(*self.replicas.allocator());
        self.keep_lost(replica, empty);
    }

    // The first reason for which the replica's promise for the epoch would be refused.
    fn check_promise(&self, epoch: u32, replica: u32) -> Result<(), EpochError>
        requires { replica < members self.now.faults }
        ensures answer { (state : EpochState) → StandsFor B.stands self.now state → told done result ≡ Some (global_answer state (PromiseLine epoch replica)) }
        ensures early { IfErr result IsEarly }
        ensures row { OnOk result (epoch < length self.now.changes) }
        ensures above { OnOk result (word_at self.now.replicas replica < epoch) }
    {
        if !self.is_asked(epoch) {
            return Err(EpochError::Unasked);
        }
        let replica = self.replica(replica);
        if replica.lacks() {
            return Err(EpochError::Lacking);
        }
        if epoch <= replica.word {
            return Err(EpochError::Old(replica.word));
        }
        Ok(())
    }

    // The first reason for which the replica would not adopt the epoch.
    fn check_adopt(&self, epoch: u32, replica: u32) -> Result<(), EpochError>
        requires { replica < members self.now.faults }
        ensures answer { (state : EpochState) → StandsFor B.stands self.now state → told done result ≡ Some (global_answer state (AdoptLine epoch replica)) }
        ensures early { IfErr result IsEarly }
        ensures row { OnOk result (epoch < length self.now.changes) }
        ensures above { OnOk result (word_at self.now.replicas replica ≤ epoch) }
        ensures made { OnOk result (IsSome (change_for epoch self.now.changes).made) }
    {
        if self.made_base(epoch).is_none() {
            return Err(EpochError::Unmade);
        }
        let replica = self.replica(replica);
        if replica.is_past(epoch) {
            return Err(EpochError::Old(replica.word));
        }
        Ok(())
    }

    fn replica(&self, replica: u32) -> &Replica<B>
        requires { replica < members self.now.faults }
        ensures { slice_get self.now.replicas replica ≡ Some result.now }
    {
        &self.replicas[replica as usize]
    }

    // The change to the epoch, where it or a later one was asked for.
    fn change(&self, epoch: u32) -> Option<&Change<B>>
        ensures { option_copied result ≡ slice_get self.now.changes epoch }
    {
        self.changes.get(epoch as usize)
    }

    // The base that was made for the epoch.
    fn made_base(&self, epoch: u32) -> Option<&B>
        ensures { option_copied result ≡ (change_for epoch self.now.changes).made }
    {
        self.change(epoch)?.made()
    }

    fn is_asked(&self, epoch: u32) -> bool
        ensures { result ≡ (change_for epoch self.now.changes).asked }
    {
        match self.change(epoch) {
            Some(change) => change.is_asked(),
            None => false,
        }
    }

    fn promises(&self, epoch: u32) -> &[Promise<B>]
        ensures { result.now ≡ (change_for epoch self.now.changes).promises }
    {
        match self.change(epoch) {
            Some(change) => change.promises(),
            None => &[],
        }
    }

    // How many replicas ever adopted the epoch.
    fn adopters(&self, epoch: u32) -> u32
        ensures { (state : EpochState) → StandsFor B.stands self.now state → result ≡ adopters_of epoch state }
    {
        match self.change(epoch) {
            Some(change) => change.adopters(self.size),
            None => 0,
        }
    }

    // What the replica hands in.
    fn handed_in(
        &self,
        replica: u32,
        entries: &[Entry],
        marks: &Marks,
    ) -> Result<Promise<B>, NoMemory>
        requires { replica < members self.now.faults }
        ensures { IfOk result (λ promise. IsHandedIn B.stands self.now.replicas replica (record { entries = entries.now; marks = marks.now }) promise) }
    {
        let alloc = *self.replicas.allocator();
        let kept = self.replica(replica);
        Ok(Promise {
            replica,
            adopted: kept.adopted,
            base: kept.base.copy()?,
            entries: Entries::of(alloc, copies(alloc, entries)?),
            marks: marks.copy()?,
        })
    }

    // The first reason for which no base is made; the leader's word reads this number.
    fn may_merge(&self, epoch: u32, word: u32) -> Result<(), EpochError>
        requires word { word ≡ word_at self.now.replicas (leader_of self.now.faults epoch) }
        requires made { (change_for epoch self.now.changes).made ≡ None }
        ensures ok { OnOk result ((state : EpochState) → StandsFor B.stands self.now state → (can_merge state.faults epoch (promises_for epoch state) ≡ true) × (global_answer state (MergeLine epoch) ≡ counts_of (merged_base state.faults epoch (promises_for epoch state)))) }
        ensures row { OnOk result (epoch < length self.now.changes) }
        ensures err { IfErr result (λ error. (state : EpochState) → StandsFor B.stands self.now state → IsRefusal error (global_answer state (MergeLine epoch))) }
        ensures early { IfErr result IsEarly }
    {
        let promises = self.promises(epoch);
        if !is_enough(self.size, promises) || !is_led(self.size, epoch, promises) {
            return Err(EpochError::Short(promises.len() as u32));
        }
        if self.replica(epoch % self.size.n()).lacks() {
            return Err(EpochError::Lacking);
        }
        if epoch < word {
            return Err(EpochError::Old(word));
        }
        Ok(())
    }

    // The base made of the epoch's promises.
    fn merged(&self, epoch: u32) -> Result<B, EpochError>
        requires fit { (state : EpochState) × StandsFor B.stands self.now state × ArePromises (promises_for epoch state) × (can_merge state.faults epoch (promises_for epoch state) ≡ true) }
        ensures ok { IfOk result (λ base. (state : EpochState) → StandsFor B.stands self.now state → ArePromises (promises_for epoch state) → B.stands base (merged_base state.faults epoch (promises_for epoch state))) }
        ensures err { IfErr result (λ error. error ≡ EpochError.NoMemory) }
    {
        let alloc = *self.replicas.allocator();
        match B::merge(alloc, self.size, epoch, self.promises(epoch)) {
            Ok(base) => Ok(base),
            Err(_) => Err(EpochError::NoMemory),
        }
    }

    // A copy of the base that was made for the epoch.
    fn base_of(&self, epoch: u32) -> Result<B, NoMemory>
        requires { IsSome (change_for epoch self.now.changes).made }
        ensures { IfOk result (λ copy. (made : B) → (change_for epoch self.now.changes).made ≡ Some made → (base : BaseState) → B.stands made base → B.stands copy base) }
    {
        match self.made_base(epoch) {
            Some(base) => base.copy(),
            None => unreachable!(),
        }
    }

    fn keep_asked(&mut self, epoch: u32) -> Result<(), NoMemory>
        requires { epoch ≤ 1000 }
        ensures ok { OnOk result (self.new ≡ record self.old { changes = with_asked epoch self.old.changes }) }
        ensures err { OnErr result (self.new ≡ self.old) }
    {
        let alloc = *self.replicas.allocator();
        grow(alloc, &mut self.changes, epoch as usize + 1)?;
        self.changes[epoch as usize].ask();
        Ok(())
    }

    fn keep_promise<W: EpochWord>(
        &mut self,
        epoch: u32,
        replica: u32,
        promise: Promise<B>,
        word: &mut W,
    ) -> Result<(), EpochError>
        requires there { replica < members self.old.faults }
        requires row { epoch < length self.old.changes }
        requires above { word_at self.old.replicas replica < epoch }
        ensures ok { OnOk result ((kept : KeptReplica B) × (slice_get self.old.replicas replica ≡ Some kept) × (self.new ≡ record self.old { replicas = slice_set self.old.replicas replica (record kept { word = epoch; phase = Paused }); changes = slice_set self.old.changes epoch (promised_to promise (change_for epoch self.old.changes)) })) }
        ensures err { OnErr result (self.new ≡ self.old) }
        ensures word { IsWritten W.kept W.sets W.faults epoch word.old word.new result }
        ensures told { IfErr result IsFault }
    {
        self.changes[epoch as usize].promise(epoch, promise, word)?;
        self.replicas[replica as usize].pause(epoch);
        Ok(())
    }

    fn keep_base(&mut self, epoch: u32, base: B)
        requires { epoch < length self.old.changes }
        ensures { self.new ≡ record self.old { changes = slice_set self.old.changes epoch (made_as base (change_for epoch self.old.changes)) } }
    {
        self.changes[epoch as usize].make(base);
    }

    fn keep_adopted(&mut self, epoch: u32, replica: u32, base: B)
        requires there { replica < members self.old.faults }
        requires row { epoch < length self.old.changes }
        requires above { word_at self.old.replicas replica ≤ epoch }
        ensures kept { (kept : KeptReplica B) × (slice_get self.old.replicas replica ≡ Some kept) × (self.new ≡ record self.old { replicas = slice_set self.old.replicas replica (record { word = epoch; phase = Adopted; adopted = epoch; base = base }); changes = slice_set self.old.changes epoch (adopted_by replica (change_for epoch self.old.changes)) }) }
        ensures few { (replica < 7) × (length (change_for epoch self.old.changes).adopters ≡ 7) }
    {
        self.replicas[replica as usize] = Replica {
            word: epoch,
            phase: Phase::Adopted,
            adopted: epoch,
            base,
        };
        self.changes[epoch as usize].adopt(replica);
    }

    fn keep_lost(&mut self, replica: u32, empty: B)
        requires { replica < members self.old.faults }
        ensures { (kept : KeptReplica B) × (slice_get self.old.replicas replica ≡ Some kept) × (self.new ≡ record self.old { replicas = slice_set self.old.replicas replica (record kept { phase = Lacking; adopted = 0; base = empty }) }) }
    {
        self.replicas[replica as usize].lose(empty);
    }

    fn serve(&mut self, epoch: u32)
        ensures { self.new ≡ record self.old { replicas = change_all (waits_for epoch) now_serving self.old.replicas } }
    {
        serve_all(&mut self.replicas, epoch);
    }
}

// A replica at the start.
fn first<B: Keeping>(alloc: Global) -> Replica<B>
    ensures { ReplicaStands B.stands result first_replica }
{
    Replica {
        word: 0,
        phase: Phase::Serving,
        adopted: 0,
        base: B::empty(alloc),
    }
}

// So many changes have their place.
fn grow<B: Drop>(alloc: Global, changes: &mut Vec<Change<B>>, count: usize) -> Result<(), NoMemory>
    ensures ok { OnOk result (changes.new.items ≡ changes.old.items ++ replicate (count - length changes.old.items) no_change) }
    ensures err { OnErr result (changes.new.items ≡ changes.old.items) }
{
    let missing = count.saturating_sub(changes.len());
    changes.reserve(missing)?;
    for _ in 0..missing {
        changes.push_reserved(Change::new(alloc));
    }
    Ok(())
}

fn serve_all<B>(replicas: &mut Vec<Replica<B>>, epoch: u32)
    ensures { replicas.new.items ≡ change_all (waits_for epoch) now_serving replicas.old.items }
{
    for replica in replicas.iter_mut() {
        replica.serve(epoch);
    }
}

// The commits and the aborts of a base that its marks do not cover.
fn counted<B: Keeping>(base: &B) -> (u64, u64)
    ensures { (state : BaseState) → B.stands base.now state → counts result ≡ counts_of state }
{
    let fates = base.fates();
    (fates.commits(), fates.aborts())
}

// Whether a majority has promised.
fn is_enough<B>(size: Size, promises: &[Promise<B>]) -> bool
    ensures { result ≡ nat_le (majority_of size) (length promises.now) }
{
    size.majority() as usize <= promises.len()
}

// Whether the leader has promised.
fn is_led<B>(size: Size, epoch: u32, promises: &[Promise<B>]) -> bool
    ensures { result ≡ list_any (λ (promise : KeptPromise B). promise.replica == leader_of size epoch) promises.now }
{
    let leader = epoch % size.n();
    promises.iter().any(|promise| promise.replica == leader)
}
