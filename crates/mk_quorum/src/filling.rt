//! Slots for what the replicas give, one for each by its number.
ghost use Rattle.std.specs.Prelude.{◌≡◌, ◌<◌, length, count_by};
ghost use Rattle.mk_quorum.specs.Slots.{filled, passes};

/// Puts what a replica gave into its slot, where what it gave first stays.
pub fn fill<T: Copy>(slots: &mut [Option<T>], replica: u32, given: T)
    requires { replica < length slots.old }
    ensures { slots.new ≡ filled slots.old replica given }
{
    if slots[replica as usize].is_none() {
        slots[replica as usize] = Some(given);
    }
}

fn is_accepted(slot: &Option<bool>) -> bool
    ensures { result ≡ passes (λ accepted. accepted) slot.now }
{
    matches!(slot, Some(true))
}

/// How many replicas accepted.
pub fn count_accepts(accepts: &[Option<bool>]) -> usize
    ensures { result ≡ count_by (passes (λ accepted. accepted)) accepts.now }
{
    accepts.iter().filter(|slot| is_accepted(slot)).count()
}
