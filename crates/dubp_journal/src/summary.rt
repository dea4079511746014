ghost use Rattle.std.specs.Prelude.{◌≡◌, ◌<◌, ◌+◌, ◌∷◌, ◌++◌, [], ℕ, List, Option, length, slice_set, OnOk, IsOk, IfSome, IfNone, ⊤};
ghost use Rattle.std.specs.declared.option.Option.TheVariants.{None};
ghost use Rattle.dubp_journal.specs.Least.{IsLeast, HasNone};

use dubp_costs::NoMemory;

/// What a table keeps over the values of all its slots. It does not hold the values: the table shows them at each call.
///
/// `sums s values`: s is the summary of the values. `has_room s n`: there is room for n slots.
pub trait Summary<V>: Drop {
    // s is the summary of the values
    ghost sums: { Self → List (Option V) → Type 0 };

    // there is room for n slots
    ghost has_room: { Self → ℕ → Type 0 };

    /// The summary once more, after the value of one slot changed. It takes no memory.
    fn change(&mut self, values: &[Option<V>], slot: usize)
        requires within { slot < length values.now }
        requires was { (v : Option V) × sums self.old (slice_set values.now slot v) }
        ensures sums { sums self.new values.now }
        ensures room { (n : ℕ) → has_room self.old n → has_room self.new n };

    /// Makes room for one slot more. `NoMemory` where there is none; it is the summary of the same values in either case.
    fn make_room(&mut self, values: &[Option<V>]) -> Result<(), NoMemory>
        requires sums { sums self.old values.now }
        ensures sums { sums self.new values.now }
        ensures room { OnOk result (has_room self.new (length values.now + 1)) }
        ensures ready { has_room self.old (length values.now + 1) → IsOk result };

    // a slot more that holds nothing changes no summary, where there is room for it
    ghost grows: { (s : Self) (values : List (Option V)) → sums s values → has_room s (length values + 1) → sums s (values ++ None ∷ []) };
}

/// A summary that tells which slot has the value with the least measure.
pub trait TellsLeast<V>: Summary<V> {
    ghost measure: { V → ℕ };

    /// The first of the slots whose value has the least measure, in one look. `None` where no slot holds anything.
    fn least_slot(&self, values: &[Option<V>]) -> Option<usize>
        requires { Self.sums self.now values.now }
        ensures found { IfSome result (IsLeast measure values.now) }
        ensures none { IfNone result (HasNone values.now) };
}

/// No summary: nothing is kept over the values.
#[derive(Drop)]
pub struct NoSummary;

impl<V> Summary<V> for NoSummary {
    ghost sums = { λ s values. ⊤ };

    ghost has_room = { λ s n. ⊤ };

    fn change(&mut self, _values: &[Option<V>], _slot: usize) {}

    fn make_room(&mut self, _values: &[Option<V>]) -> Result<(), NoMemory> {
        Ok(())
    }

    ghost grows = { λ s values is room. tt };
}
