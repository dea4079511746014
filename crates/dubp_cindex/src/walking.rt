ghost use Rattle.std.specs.Prelude.{◌≡◌, Option, Some, IfSome};
ghost use Rattle.std.specs.declared.ops.Bound.TheVariants.{Excluded};
ghost use Rattle.dubp_atoms.specs.Same.{Text};
ghost use Rattle.dubp_cindex.specs.Following.{Follows};

use dubp_atoms::Key;
use dubp_undo::{Definition, Leaf, Walk};
use std::marker::Model;
use std::ops::Bound;

/// A place in a table of pairs: a key and another, which may be absent. Absent, it is before all others.
///
/// Contracts see it as the pair of both.
#[derive(Clone, Copy, PartialEq, Eq, PartialOrd, Ord)]
pub struct Place {
    pub owner: Key,
    pub other: Option<Key>,
}

impl Model for Place {
    ghost use Rattle.std.specs.Prelude.{Option};
    ghost use Rattle.dubp_atoms.specs.Same.{Text};

    ghost Value = { Text × Option Text };

    ghost view = { λ p. (p.owner, p.other) };

    ghost inverse = { λ v. record { owner = v.0; other = v.1 } };
}

/// The next entry of the owner whose other key is above `after`, or its first.
pub fn next_of<B, V: Copy + Eq, D: Definition<B, Place, V>>(
    table: &Leaf<B, Place, V, D>,
    owner: &Key,
    after: &Option<Key>,
) -> Option<(Key, V)>
    ensures { Follows table.now.table.now owner.now after.now result }
{
    let behind = Place {
        owner: *owner,
        other: *after,
    };
    let mut walk = table.walk_from(Bound::Excluded(behind));
    next_in(&mut walk, owner)
}

/// The next entry of the owner in a walk that stands behind a place of this owner.
pub fn next_in<'a, V: Copy>(walk: &mut Walk<'a, Place, V>, owner: &Key) -> Option<(Key, V)>
    ensures follows { (after : Option Text) → walk.old.from ≡ Excluded (owner.now, after) → Follows walk.old.map owner.now after result }
    ensures map { walk.new.map ≡ walk.old.map }
    ensures from { IfSome result (λ e. walk.new.from ≡ Excluded (owner.now, Some e.0)) }
{
    let (place, value) = walk.next()?;
    if place.owner != *owner {
        return None;
    }
    let other = place.other?;
    Some((other, value))
}
