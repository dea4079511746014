ghost use Rattle.std.specs.Prelude.{◌≡◌, ℕ, Bool, true, cond, Option, Some, None, OnOk, OnErr, IfOk, IfSome, IfNone, IsOk, IsSome};
ghost use Rattle.std.specs.BTreeMap.{is_at};
ghost use Rattle.std.specs.Cmp.{IsTotalOrder};
ghost use Rattle.std.specs.declared.cmp.Ordering.{Ordering};
ghost use Rattle.dubp_journal.specs.Slots.{IsFirstHeld, HasNoneHeld};

use dubp_costs::NoMemory;
use std::ops::Bound;

/// What finds the slot of a key.
///
/// `cmp` is an order of the keys, in which equal keys are one; `slot_of f k` is the slot of the key k, or `None` where it has none.
pub trait Finder<K>: Drop {
    ghost cmp: { K → K → Ordering };

    ghost slot_of: { Self → K → Option ℕ };

    /// The slot of the key, or `None` where it has none.
    fn slot(&self, k: K) -> Option<usize>
        ensures { result ≡ slot_of self.now k };

    /// The slot that the key has; a key that has none gets the slot `next`, and the answer is `None`.
    ///
    /// `NoMemory` comes only where the key has none; all is as it was then.
    fn place(&mut self, k: K, next: usize) -> Result<Option<usize>, NoMemory>
        ensures was { IfOk result (λ was. was ≡ slot_of self.old k) }
        ensures placed { OnOk result (slot_of self.old k ≡ None → (q : K) → slot_of self.new q ≡ cond (is_at (cmp k) q) (Some next) (slot_of self.old q)) }
        ensures stays { IsSome (slot_of self.old k) → (q : K) → slot_of self.new q ≡ slot_of self.old q }
        ensures refused { OnErr result ((q : K) → slot_of self.new q ≡ slot_of self.old q) }
        ensures succeeds { IsSome (slot_of self.old k) → IsOk result };

    /// Takes the slot of the key away. It takes no memory.
    fn remove(&mut self, k: K)
        ensures { (q : K) → slot_of self.new q ≡ cond (is_at (cmp k) q) None (slot_of self.old q) };

    ghost total: { IsTotalOrder cmp };

    ghost respects: { (f : Self) (q k : K) → is_at (cmp q) k ≡ true → slot_of f q ≡ slot_of f k };
}

/// What also goes through the keys in their order.
pub trait OrderedFinder<K>: Finder<K> {
    /// The least key from a bound on whose slot holds something, with that. `None` where there is none. `slots` has what each slot holds.
    ///
    /// It steps over the keys between whose slots hold nothing.
    fn next_held<V: Copy>(&self, from: Bound<K>, slots: &[Option<V>]) -> Option<(K, V)>
        ensures found { IfSome result (IsFirstHeld Self.cmp (Self.slot_of self.now) slots.now from) }
        ensures none { IfNone result (HasNoneHeld Self.cmp (Self.slot_of self.now) slots.now from) };
}
