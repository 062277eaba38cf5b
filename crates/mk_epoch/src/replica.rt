//! What is kept of one replica.
ghost use Rattle.std.specs.Prelude.{◌≡◌, ℕ, ◌||◌, nat_le, nat_lt, if◌then◌else◌};
ghost use Rattle.mk_words.specs.declared.Phase.TheVariants.{Paused, Lacking};
ghost use Rattle.mk_model.specs.GlobalAnswers.{lacks as lacks_state};
ghost use Rattle.mk_epoch.specs.Standing.{waits_for, now_serving};

use mk_words::Phase;

/// A replica: the number in its word, its phase, the epoch that it has adopted, and that epoch's base.
#[derive(Drop)]
pub struct Replica<B> {
    pub word: u32,
    pub phase: Phase,
    pub adopted: u32,
    pub base: B,
}

impl<B> Replica<B> {
    pub fn lacks(&self) -> bool
        ensures { result ≡ lacks_state self.now.phase }
    {
        match self.phase {
            Phase::Lacking => true,
            Phase::Serving => false,
            Phase::Paused => false,
            Phase::Adopted => false,
        }
    }

    // Whether it may not adopt this epoch any more.
    pub fn is_past(&self, epoch: u32) -> bool
        ensures { result ≡ (if lacks_state self.now.phase then nat_le epoch self.now.word else nat_lt epoch self.now.word || nat_le epoch self.now.adopted) }
    {
        if self.lacks() {
            epoch <= self.word
        } else {
            epoch < self.word || epoch <= self.adopted
        }
    }

    // One that waits for this epoch serves it.
    pub fn serve(&mut self, epoch: u32)
        ensures { self.new ≡ (if waits_for epoch self.old then now_serving self.old else self.old) }
    {
        if self.phase == Phase::Adopted && self.adopted == epoch {
            self.phase = Phase::Serving;
        }
    }

    // It promises the epoch, which its word reads now.
    pub fn pause(&mut self, epoch: u32)
        ensures { self.new ≡ record self.old { word = epoch; phase = Paused } }
    {
        self.word = epoch;
        self.phase = Phase::Paused;
    }
}

impl<B: Drop> Replica<B> {
    // It keeps its word alone.
    pub fn lose(&mut self, empty: B)
        ensures { self.new ≡ record self.old { phase = Lacking; adopted = 0; base = empty } }
    {
        self.phase = Phase::Lacking;
        self.adopted = 0;
        self.base = empty;
    }
}
