ghost use Rattle.std.specs.Prelude.{◌≡◌, MatchOption, IfSome, IfNone};
ghost use Rattle.std.specs.declared.ops.Bound.TheVariants.{Excluded};
ghost use Rattle.std.specs.BTreeMap.Range.{IsFromStart};
ghost use Rattle.dubp_journal.specs.MovingTable.{IsLeast, HasNone};
ghost use Rattle.dubp_journal.specs.Walking.{Walking, IsLeft, IsStep};

use crate::by_order::held;
use crate::table::UndoTable;
use std::collections::btree_map::Range;
use std::marker::Model;
use std::ops::Bound;
use std::snapshot::Snapshot;

/// A walk over the entries of a table in the order of their keys. It keeps its place: no step seeks a key, and none takes memory.
///
/// Contracts see it as a `Walking`: the map that it walks over, and the bound from which it goes on.
#[derive(Drop)]
pub struct Walk<'a, K: Ord + Copy, V> {
    // the keys that are left, each with its slot, and what stands in the slots
    left: Range<'a, K, usize>,
    values: &'a [Option<V>],
    table: Snapshot<UndoTable<K, V>>,
    from: Snapshot<Bound<K>>,
}

impl<'a, K: Ord + Copy, V> Model for Walk<'a, K, V> {
    ghost use Rattle.dubp_journal.specs.Walking.{Walking, IsLeft};

    ghost Value = { Walking K V };

    ghost view = { λ w. record { map = w.table.value.now; from = w.from.value } };

    ghost invariant = { λ w. IsLeft K.cmp (record { map = w.table.value.now; from = w.from.value }) w.values.now w.left };
}

impl<'a, K: Ord + Copy, V: Copy> Walk<'a, K, V> {
    /// The walk from a bound on, of which this is left. `values` has what stands in each slot.
    pub(crate) fn over(
        table: Snapshot<UndoTable<K, V>>,
        from: Bound<K>,
        left: Range<'a, K, usize>,
        values: &'a [Option<V>],
    ) -> Walk<'a, K, V>
        requires { IsLeft K.cmp (record { map = table.value.now; from = from }) values.now left }
        ensures { result ≡ record { map = table.value.now; from = from } }
    {
        let from = Snapshot::of(&from);
        Walk {
            left,
            values,
            table,
            from,
        }
    }

    /// The next entry of the map, behind which the walk goes on; or `None` where there is none, and the walk stays where it is.
    /// It steps over placed keys without a value.
    pub fn next(&mut self) -> Option<(K, V)>
        ensures found { IfSome result (IsLeast K.cmp self.old.map (IsFromStart K.cmp self.old.from)) }
        ensures none { IfNone result (HasNone K.cmp self.old.map (IsFromStart K.cmp self.old.from)) }
        ensures map { self.new.map ≡ self.old.map }
        ensures from { MatchOption result (self.new.from ≡ self.old.from) (λ e. self.new.from ≡ Excluded e.0) }
    {
        let (k, v) = next_held(&mut self.left, self.values)?;
        self.from = Snapshot::of(&Bound::Excluded(k));
        Some((k, v))
    }
}

// The next key whose slot holds something, with that.
fn next_held<'a, K: Ord + Copy, V: Copy>(
    left: &mut Range<'a, K, usize>,
    values: &[Option<V>],
) -> Option<(K, V)>
    ensures { (w : Walking K V) → IsLeft K.cmp w values.now left.old → IsStep K.cmp w values.now left.new result }
{
    while let Some((k, slot)) = left.next() {
        if let Some(v) = held(values, *slot) {
            return Some((*k, v));
        }
    }
    None
}
