ghost use Rattle.std.specs.Prelude.{◌≡◌, ◌∷◌, ◌||◌, ◌<◌, ◌≤◌, true, cond, is_some, Some, IfOk, IsTrue, OnOk, ℕ};
ghost use Rattle.std.specs.List.{list_any};
ghost use Rattle.indexmap.specs.IndexMap.{get};
ghost use Rattle.dubp_atoms.specs.Same.{Text, same_text};
ghost use Rattle.dubp_block.specs.declared.block.Block.{Block as BlockValue};
ghost use Rattle.dubp_chain.specs.Chains.{Chain};
ghost use Rattle.dubp_expiry.specs.Entries.{Has};
ghost use Rattle.dubp_expiry.specs.declared.due.Due.{Due as DueValue};
ghost use Rattle.dubp_left.specs.Left.{queue_left};
ghost use Rattle.dubp_left.specs.OfSteps.{now_of};
ghost use Rattle.dubp_left.specs.OfSteps.{is_end};
ghost use Rattle.dubp_people_distance.specs.Certified.{AreCertified, OthersAreKept};
ghost use Rattle.dubp_people_distance.specs.Ends.{is_end_of_line, is_end_of_due};

use crate::certified::Certified;
use crate::two_chains::TwoChains;
use dubp_atoms::{Key, NoMemory, Secret};
use dubp_block::{Block, CertLine};
use dubp_expiry::{Behind, Due};
use indexmap::IndexMap;
use std::alloc::Global;

/// The live certifications, on the chain with the block, of each key for which the block may change them: of the ends of its lines
/// of Certifications, and of those of each certification that has its end up to the time of the block.
pub(crate) fn changed_by<T: TwoChains>(
    alloc: Global,
    chains: &T,
    block: &Block,
) -> Result<IndexMap<Key, Certified, Secret>, NoMemory>
    ensures certified { IfOk result (λ known. (c : Chain) → T.stand chains.now c block.now → AreCertified (block.now ∷ c) (get same_text known)) }
    ensures kept { IfOk result (λ known. (c : Chain) → T.stand chains.now c block.now → OthersAreKept c block.now (get same_text known)) }
{
    let mut known = IndexMap::with_hasher(alloc, chains.secret());
    put_lines(alloc, chains, block.certifications.as_slice(), &mut known)?;
    put_dues(alloc, chains, &mut known)?;
    Ok(known)
}

/// Makes known the ends of the lines.
fn put_lines<T: TwoChains>(
    alloc: Global,
    chains: &T,
    lines: &[CertLine],
    known: &mut IndexMap<Key, Certified, Secret>,
) -> Result<(), NoMemory>
    ensures certified { OnOk result ((c : Chain) (b : BlockValue) → T.stand chains.now c b → AreCertified (b ∷ c) (get same_text known.old) → AreCertified (b ∷ c) (get same_text known.new)) }
    ensures has { OnOk result ((k : Text) → is_some (get same_text known.new k) ≡ (is_some (get same_text known.old k) || list_any (is_end_of_line k) lines.now)) }
{
    for line in lines {
        put_both(alloc, chains, line.from, line.to, known)?;
    }
    Ok(())
}

/// Makes known the ends of each certification that has its end up to the time of the block.
fn put_dues<T: TwoChains>(
    alloc: Global,
    chains: &T,
    known: &mut IndexMap<Key, Certified, Secret>,
) -> Result<(), NoMemory>
    ensures certified { OnOk result ((c : Chain) (b : BlockValue) → T.stand chains.now c b → AreCertified (b ∷ c) (get same_text known.old) → AreCertified (b ∷ c) (get same_text known.new)) }
    ensures stays { OnOk result ((k : Text) → IsTrue (is_some (get same_text known.old k)) → IsTrue (is_some (get same_text known.new k))) }
    ensures has { OnOk result ((c : Chain) (b : BlockValue) → T.stand chains.now c b → (time : ℕ) (due : DueValue) → Has (queue_left c) (time, due) → 0 < time → time ≤ now_of c b
        → (k : Text) → IsTrue (is_end_of_due k due) → IsTrue (is_some (get same_text known.new k))) }
{
    // no certification has its end at 0
    let mut behind = Behind::Time(0);
    // one entry a turn: no queue has as many
    'dues: for _turn in 0..u64::MAX {
        let Some((time, due)) = chains.due_behind(behind) else {
            return Ok(());
        };
        put_due(alloc, chains, &due, known)?;
        behind = Behind::Entry(time, due);
    }
    Err(NoMemory)
}

/// Makes known the ends of what falls due, where it is a certification.
fn put_due<T: TwoChains>(
    alloc: Global,
    chains: &T,
    due: &Due,
    known: &mut IndexMap<Key, Certified, Secret>,
) -> Result<(), NoMemory>
    ensures certified { OnOk result ((c : Chain) (b : BlockValue) → T.stand chains.now c b → AreCertified (b ∷ c) (get same_text known.old) → AreCertified (b ∷ c) (get same_text known.new)) }
    ensures has { OnOk result ((k : Text) → is_some (get same_text known.new k) ≡ (is_some (get same_text known.old k) || is_end_of_due k due.now)) }
{
    match due {
        Due::Certification(from, to) => {
            put_both(alloc, chains, *from, *to, known)?;
            Ok(())
        }
        Due::Membership(_) => Ok(()),
        Due::Revocation(_) => Ok(()),
    }
}

/// Makes known both keys.
fn put_both<T: TwoChains>(
    alloc: Global,
    chains: &T,
    from: Key,
    to: Key,
    known: &mut IndexMap<Key, Certified, Secret>,
) -> Result<(), NoMemory>
    ensures certified { OnOk result ((c : Chain) (b : BlockValue) → T.stand chains.now c b → AreCertified (b ∷ c) (get same_text known.old) → AreCertified (b ∷ c) (get same_text known.new)) }
    ensures has { OnOk result ((k : Text) → is_some (get same_text known.new k) ≡ (is_some (get same_text known.old k) || is_end from to k)) }
{
    put_key(alloc, chains, from, known)?;
    put_key(alloc, chains, to, known)?;
    Ok(())
}

/// Makes known the live certifications of the key, unless they are.
fn put_key<T: TwoChains>(
    alloc: Global,
    chains: &T,
    key: Key,
    known: &mut IndexMap<Key, Certified, Secret>,
) -> Result<(), NoMemory>
    ensures certified { OnOk result ((c : Chain) (b : BlockValue) → T.stand chains.now c b → AreCertified (b ∷ c) (get same_text known.old) → AreCertified (b ∷ c) (get same_text known.new)) }
    ensures has { OnOk result ((k : Text) → is_some (get same_text known.new k) ≡ cond (same_text key k) true (is_some (get same_text known.old k))) }
{
    if known.contains_key(&key) {
        return Ok(());
    }
    let found = chains.certified(alloc, key)?;
    put_found(key, found, known)?;
    Ok(())
}

/// Puts what was found under the key.
fn put_found(
    key: Key,
    found: Certified,
    known: &mut IndexMap<Key, Certified, Secret>,
) -> Result<(), NoMemory>
    ensures { OnOk result ((k : Text) → get same_text known.new k ≡ cond (same_text key k) (Some found) (get same_text known.old k)) }
{
    known.insert(key, found).map_err(|_| NoMemory)?;
    Ok(())
}
