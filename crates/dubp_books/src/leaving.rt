ghost use Rattle.std.specs.Prelude.{◌≡◌, IfOk, map};
ghost use Rattle.dubp_docs.specs.declared.hashing.TxHashes.{TxHashes as TxHashesValue};

use dubp_atoms::{Hash, Items, Key, NoMemory};
use dubp_docs::TxHashes;
use dubp_kept::LeftBehind;
use dubp_validity::Record;
use std::alloc::Global;

/// What a block leaves behind: the records of what ended with it, the keys that it pays, the records of what it clears and the hashes by which
/// its transactions are named.
///
/// Each list gets room of its own length; where there is no memory for that, it keeps the room that it has.
pub(crate) fn left_of(
    ended: Vec<Record>,
    paid: Vec<Key>,
    cleared: Vec<Record>,
    transactions: Vec<Hash>,
) -> LeftBehind
    ensures ended { result.ended ≡ ended.items }
    ensures paid { result.paid ≡ paid.items }
    ensures cleared { result.cleared ≡ cleared.items }
    ensures transactions { result.transactions ≡ transactions.items }
{
    LeftBehind {
        ended: fitted(ended),
        paid: fitted(paid),
        cleared: fitted(cleared),
        transactions: fitted(transactions),
    }
}

/// Of these hashes of transactions those by which the transactions are named, in order. Where there is none it takes no memory.
///
/// `NoMemory` where there is no room for the list.
pub(crate) fn names_of(alloc: Global, hashes: &[TxHashes]) -> Result<Vec<Hash>, NoMemory>
    ensures { IfOk result (λ names. names.items ≡ map (λ (h : TxHashesValue). h.whole) hashes.now) }
{
    let found = hashes.iter().map(|both| both.whole).collect(alloc);
    let names: Vec<Hash> = found.map_err(|_| NoMemory)?;
    Ok(names)
}

/// The elements, and no more room than they need.
fn fitted<T: Drop>(list: Vec<T>) -> Items<T>
    ensures { result ≡ list.items }
{
    let mut fitted = list;
    fitted.shrink_to_fit();
    Items::from_vec(fitted)
}
