ghost use Rattle.std.specs.Prelude.{◌≡◌, [], ◌∷◌};

use crate::entry::Entry;
use std::marker::Model;
use std::mem;
use std::snapshot::Snapshot;

/// Entries in the order in which they came. It is made for contracts alone: what is kept of it is a `Snapshot`, which has no bytes.
///
/// Contracts see the list of its verdicts, the newest first.
#[derive(Drop)]
pub(crate) struct Order {
    newest: Option<(Entry, Snapshot<Order>)>,
}

impl Model for Order {
    ghost use Rattle.std.specs.Prelude.{List, [], ◌∷◌, length};
    ghost use Rattle.std.specs.Option.{option_map_or};
    ghost use Rattle.std.proofs.Common.{arith};
    ghost use Rattle.dubp_verdict.specs.Verdicts.{Verdict};

    ghost Value = { List Verdict };

    ghost view = { λ o. option_map_or (λ p. p.0 ∷ p.1.value) o.newest [] };

    ghost size = { length };

    ghost size_decreases = { λ o h. Prim.grind (arith) };
}

impl Order {
    pub(crate) fn new() -> Order
        ensures { result ≡ [] }
    {
        Order { newest: None }
    }
}

/// Puts an entry behind those that came before it.
pub(crate) fn note(order: &mut Snapshot<Order>, entry: Entry)
    ensures { order.new.value ≡ entry ∷ order.old.value }
{
    let before = mem::replace(order, Snapshot::of(&Order::new()));
    *order = Snapshot::of(&Order {
        newest: Some((entry, before)),
    });
}
