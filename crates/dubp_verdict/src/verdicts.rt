ghost use Rattle.std.specs.Prelude.{◌≡◌, ◌↔◌, true, Ok, [], ◌∷◌, IsTrue, OnOk, OnErr};
ghost use Rattle.std.specs.List.{list_any};
ghost use Rattle.std.specs.List.Sorted.{IsPermutation};
ghost use Rattle.dubp_verdict.specs.Verdicts.{HasHash, HasVerdict, same_verdict, verdict_of, with_verdict};

use crate::entry::Entry;
use crate::order::{Order, note};
use dubp_atoms::{Hash, Key, NoMemory, Secret, Sig};
use std::alloc::Global;
use std::collections::HashSet;
use std::marker::Model;
use std::snapshot::Snapshot;

/// A set of verdicts.
///
/// Contracts see it as the list of its verdicts, the newest first and each once.
#[derive(Drop)]
pub struct Verdicts {
    entries: HashSet<Entry, Secret>,
    // The same entries in the order in which they came.
    order: Snapshot<Order>,
}

impl Model for Verdicts {
    ghost use Rattle.std.specs.Prelude.{List};
    ghost use Rattle.std.specs.List.Sorted.{IsPermutation};
    ghost use Rattle.dubp_verdict.specs.Verdicts.{Verdict};

    ghost Value = { List Verdict };

    ghost view = { λ v. v.order.value };

    ghost invariant = { λ v. IsPermutation v.order.value v.entries.keys };
}

impl Verdicts {
    /// No verdict. It takes no memory. Who is let in to choose verdicts can make some that are slow to keep: `with_secret` is for them.
    pub fn new(alloc: Global) -> Verdicts
        ensures { result ≡ [] }
    {
        Verdicts::with_secret(alloc, Secret::known())
    }

    /// No verdict, to be kept by this secret: who does not know it makes no verdicts that are slower to keep than others. It takes no memory.
    pub fn with_secret(alloc: Global, secret: Secret) -> Verdicts
        ensures { result ≡ [] }
    {
        Verdicts {
            entries: HashSet::with_hasher(alloc, secret),
            order: Snapshot::of(&Order::new()),
        }
    }

    /// Adds the verdict that the signature by the key of a message with this hash is right.
    ///
    /// `NoMemory` where there is no memory for it; then the set stays as it was. One that it has already is never refused,
    /// changes nothing and takes no memory.
    pub fn add(&mut self, key: Key, hash: Hash, sig: Sig) -> Result<(), NoMemory>
        ensures added { OnOk result (self.new ≡ with_verdict (verdict_of key hash sig) self.old) }
        ensures refused { OnErr result (self.new ≡ self.old) }
        ensures repeat { HasHash self.old key hash sig → (result ≡ Ok tt) × (self.new ≡ self.old) }
    {
        insert(&mut self.entries, &mut self.order, Entry { key, hash, sig })
    }

    /// Whether the signature by the key of the message has a verdict. It takes no memory.
    pub fn has(&self, key: &Key, message: &[u8], sig: &Sig) -> bool
        ensures { IsTrue result ↔ HasVerdict self.now key.now message.now sig.now }
    {
        self.has_hash(key, &Hash::of(message), sig)
    }

    /// The same for a message whose hash is at hand. It takes no memory.
    pub fn has_hash(&self, key: &Key, hash: &Hash, sig: &Sig) -> bool
        ensures { IsTrue result ↔ HasHash self.now key.now hash.now sig.now }
    {
        self.entries.contains(&Entry {
            key: *key,
            hash: *hash,
            sig: *sig,
        })
    }

    /// The secret that they are kept by, for sets that strangers fill and that live as long as a question.
    pub fn secret(&self) -> Secret {
        *self.entries.hasher()
    }
}

/// Puts an entry, the newest. One that is there already leaves the whole set, its memory too, as it was.
fn insert(
    entries: &mut HashSet<Entry, Secret>,
    order: &mut Snapshot<Order>,
    entry: Entry,
) -> Result<(), NoMemory>
    requires { IsPermutation order.old.value entries.old.keys }
    ensures same { IsPermutation order.new.value entries.new.keys }
    ensures there { IsTrue (list_any (same_verdict entry) entries.old.keys) → (result ≡ Ok tt) × (entries.new ≡ entries.old) × (order.new.value ≡ order.old.value) }
    ensures added { OnOk result (order.new.value ≡ with_verdict entry order.old.value) }
    ensures refused { OnErr result (order.new.value ≡ order.old.value) }
{
    if entries.contains(&entry) {
        return Ok(());
    }
    entries.insert(entry).map_err(|_| NoMemory)?;
    note(order, entry);
    Ok(())
}
