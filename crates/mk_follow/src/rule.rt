//! Which keys a follower shows.
ghost use Rattle.std.specs.Prelude.{◌≡◌, ◌<◌, ℕ, Bool};
ghost use Rattle.mk_follow.specs.Rules.{picks};

use std::marker::Model;

/// How many keys there are.
pub const KEYS: usize = 256;

/// The keys that are shown.
#[derive(Clone, Copy)]
pub enum PickRule {
    All,
    /// Smaller key numbers.
    Below(u32),
    /// Key numbers with this rest by the modulus, which is at least 1.
    Rest { modulus: u32, rest: u32 },
}

/// The answers of a test that picks keys by a rule. Contracts see the rule.
#[derive(Drop)]
pub struct Subscription {
    rule: PickRule,
    picked: [bool; KEYS],
}

impl Model for Subscription {
    ghost use Rattle.std.specs.Prelude.{◌≡◌, ◌<◌, ℕ, length, false, slice_index_or};
    ghost use Rattle.mk_follow.specs.declared.rule.PickRule.{PickRule};

    ghost Value = { PickRule };

    ghost use Rattle.mk_follow.specs.Rules.{picks};

    ghost view = { λ s. s.rule };

    ghost invariant = { λ s. (length s.picked ≡ 256) × ((key : ℕ) → key < 256 → slice_index_or s.picked key false ≡ picks s.rule key) };
}

impl Subscription {
    /// Asks the test about every key.
    pub fn new<F: Fn(u32) -> bool + Drop>(rule: PickRule, test: F) -> Subscription
        requires { (key : ℕ) → key < 256 → F.pre test key × ((answer : Bool) → F.post test key answer → answer ≡ picks rule key) }
        ensures { result ≡ rule }
    {
        let mut picked = [false; KEYS];
        for key in 0..KEYS {
            picked[key] = test(key as u32);
        }
        Subscription { rule, picked }
    }

    /// Whether the key, a number below 256, is shown.
    pub fn picks(&self, key: u32) -> bool
        requires { key < 256 }
        ensures { result ≡ picks self.now key }
    {
        self.picked[key as usize]
    }

    /// The rule that the test goes by.
    pub fn rule(&self) -> PickRule
        ensures { result ≡ self.now }
    {
        self.rule
    }
}
