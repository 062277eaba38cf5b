//! Sets of replicas.
ghost use Rattle.std.specs.Prelude.{◌≡◌, ◌<◌, ◌==◌, count_by};

use std::marker::Model;

/// A set of replicas, by their numbers 0 to 6.
#[derive(Clone, Copy)]
pub struct ReplicaSet {
    present: [bool; 7],
}

impl Model for ReplicaSet {
    ghost use Rattle.std.specs.Prelude.{◌≡◌, List, Bool, length};

    ghost Value = { List Bool };

    ghost view = { λ set. set.present };

    ghost invariant = { λ set. length set.present ≡ 7 };

    ghost inverse = { λ present. record { present = present } };
}

impl ReplicaSet {
    ghost use Rattle.mk_quorum.specs.ReplicaSets.{no_replicas, has_replica, with_replica, number_of};

    /// No replicas.
    pub fn new() -> ReplicaSet
        ensures { result ≡ no_replicas }
    {
        ReplicaSet {
            present: [false; 7],
        }
    }

    pub fn insert(&mut self, replica: u32)
        requires { replica < 7 }
        ensures { self.new ≡ with_replica replica self.old }
    {
        self.present[replica as usize] = true;
    }

    pub fn contains(&self, replica: u32) -> bool
        ensures { result ≡ has_replica self.now replica }
    {
        replica < 7 && self.present[replica as usize]
    }

    /// How many different replicas are in the set.
    pub fn len(&self) -> u32
        ensures { result ≡ number_of self.now }
    {
        count_present(&self.present) as u32
    }

    pub fn is_empty(&self) -> bool
        ensures { result ≡ (number_of self.now == 0) }
    {
        self.len() == 0
    }
}

fn count_present(present: &[bool]) -> usize
    ensures { result ≡ count_by (λ is_in. is_in) present.now }
{
    present.iter().filter(|is_in| **is_in).count()
}
