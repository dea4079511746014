//! Places of keys, over the fields of a table: a key gets a slot, and its slot is given up.
ghost use Rattle.std.specs.Prelude.{◌≡◌, ◌<◌, ◌∷◌, ◌++◌, [], None, Some, length, get_or, IfSome, OnOk, OnErr, IfOk, IsOk, IsSome};
ghost use Rattle.dubp_journal.specs.Slots.{Finds, HasOneMore, Widens, Grows, GivesUp};

use crate::finder::Finder;
use crate::hints::Hints;
use crate::slots::Slots;
use crate::summary::Summary;
use dubp_costs::NoMemory;

/// A slot without a key, where the hints have one.
fn free_slot<K: Copy>(keys: &[Option<K>], hints: &Hints) -> Option<usize>
    ensures within { IfSome result (λ i. i < length keys.now) }
    ensures free { IfSome result (λ i. get_or keys.now i None ≡ None) }
{
    let slot = hints.first_free()?;
    if slot < keys.len() && keys[slot].is_none() {
        Some(slot)
    } else {
        None
    }
}

/// One slot more, which has no key and holds nothing, and its number. `NoMemory` where there is no room for it, and then nothing
/// has changed.
fn push_slot<K: Copy, V: Copy, S: Summary<V>>(
    keys: &mut Vec<Option<K>>,
    uses: &mut Vec<usize>,
    slots: &mut Slots<V, S>,
    hints: &mut Hints,
) -> Result<usize, NoMemory>
    ensures slot { IfOk result (λ i. i ≡ length keys.old.items) }
    ensures keys { OnOk result (keys.new.items ≡ keys.old.items ++ None ∷ []) }
    ensures uses { OnOk result (uses.new.items ≡ uses.old.items ++ 0 ∷ []) }
    ensures slots { OnOk result (slots.new ≡ slots.old ++ None ∷ []) }
    ensures refused_keys { OnErr result (keys.new.items ≡ keys.old.items) }
    ensures refused_uses { OnErr result (uses.new.items ≡ uses.old.items) }
    ensures refused_slots { OnErr result (slots.new ≡ slots.old) }
{
    keys.reserve(1).map_err(|_| NoMemory)?;
    uses.reserve(1).map_err(|_| NoMemory)?;
    hints.make_room()?;
    slots.push()?;
    let slot = keys.len();
    keys.push_reserved(None);
    uses.push_reserved(0);
    hints.grow();
    hints.note_free(slot);
    Ok(slot)
}

/// A slot without a key: one that was given up, or one more. `NoMemory` where there is no room for it, and then nothing has changed.
fn next_slot<K: Copy, V: Copy, S: Summary<V>>(
    keys: &mut Vec<Option<K>>,
    uses: &mut Vec<usize>,
    slots: &mut Slots<V, S>,
    hints: &mut Hints,
) -> Result<usize, NoMemory>
    requires keys_each { length keys.old.items ≡ length slots.old }
    requires uses_each { length uses.old.items ≡ length slots.old }
    ensures within { IfOk result (λ i. i < length keys.new.items) }
    ensures free { IfOk result (λ i. get_or keys.new.items i None ≡ None) }
    ensures pushed { HasOneMore keys.old.items uses.old.items slots.old keys.new.items uses.new.items slots.new }
{
    match free_slot(keys, hints) {
        Some(slot) => Ok(slot),
        None => push_slot(keys, uses, slots, hints),
    }
}

/// The slot of a key. A key that has none gets one with nothing in it; `NoMemory` where there is no room for it, and then no key has
/// another slot than before.
pub(crate) fn place<K: Copy, V: Copy, F: Finder<K>, S: Summary<V>>(
    finder: &mut F,
    keys: &mut Vec<Option<K>>,
    uses: &mut Vec<usize>,
    slots: &mut Slots<V, S>,
    hints: &mut Hints,
    k: K,
) -> Result<usize, NoMemory>
    requires finds { Finds F.cmp (F.slot_of finder.old) keys.old.items }
    requires keys_each { length keys.old.items ≡ length slots.old }
    requires uses_each { length uses.old.items ≡ length slots.old }
    ensures grown { IfOk result (λ i. Grows F.cmp keys.old.items (F.slot_of finder.old) uses.old.items slots.old k keys.new.items (F.slot_of finder.new) uses.new.items slots.new i) }
    ensures refused { OnErr result (Widens F.cmp (λ x. ⊥) keys.old.items uses.old.items slots.old keys.new.items (F.slot_of finder.new) uses.new.items slots.new) }
    ensures succeeds { IsSome (F.slot_of finder.old k) → IsOk result }
{
    let next = match next_slot(keys, uses, slots, hints) {
        Ok(next) => next,
        Err(error) => {
            // a key that has a slot needs no other
            return match finder.slot(k) {
                Some(slot) => Ok(slot),
                None => Err(error),
            };
        }
    };
    if let Some(slot) = finder.place(k, next)? {
        return Ok(slot);
    }
    keys[next] = Some(k);
    hints.take_free();
    Ok(next)
}

/// Gives up the key of the slot, where it holds nothing and no change names it.
pub(crate) fn give_up<K: Copy, V: Copy, F: Finder<K>, S: Summary<V>>(
    finder: &mut F,
    keys: &mut Vec<Option<K>>,
    uses: &[usize],
    slots: &Slots<V, S>,
    hints: &mut Hints,
    slot: usize,
)
    requires finds { Finds F.cmp (F.slot_of finder.old) keys.old.items }
    requires keys_each { length keys.old.items ≡ length slots.now }
    requires uses_each { length uses.now ≡ length slots.now }
    ensures { GivesUp F.cmp uses.now slots.now keys.old.items (F.slot_of finder.old) keys.new.items (F.slot_of finder.new) }
{
    if slot < slots.len() && uses[slot] == 0 && slots.get(slot).is_none() {
        if let Some(k) = keys[slot] {
            finder.remove(k);
            keys[slot] = None;
            hints.note_free(slot);
        }
    }
}

/// Gives up the keys of the idle slots that hold nothing and that no change names.
pub(crate) fn give_up_idle<K: Copy, V: Copy, F: Finder<K>, S: Summary<V>>(
    finder: &mut F,
    keys: &mut Vec<Option<K>>,
    uses: &[usize],
    slots: &Slots<V, S>,
    hints: &mut Hints,
)
    requires finds { Finds F.cmp (F.slot_of finder.old) keys.old.items }
    requires keys_each { length keys.old.items ≡ length slots.now }
    requires uses_each { length uses.now ≡ length slots.now }
    ensures { GivesUp F.cmp uses.now slots.now keys.old.items (F.slot_of finder.old) keys.new.items (F.slot_of finder.new) }
{
    for _done in 0..slots.len() {
        let Some(slot) = hints.take_idle() else {
            return;
        };
        give_up(finder, keys, uses, slots, hints, slot);
    }
}
