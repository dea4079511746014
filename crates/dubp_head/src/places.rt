ghost use Rattle.std.specs.Prelude.{◌≡◌, ◌+◌, ◌<◌, ◌≤◌, [], length, None, Some, if◌then◌else◌, is_some, IfOk, IfErr, OnOk};
ghost use Rattle.std.specs.Map.{lookup};
ghost use Rattle.dubp_atoms.specs.Same.{Text, same_text};
ghost use Rattle.dubp_head.specs.Entries.{IsAt, IsGapFor};

use dubp_atoms::{Key, NoMemory};
use std::alloc::Global;
use std::marker::Model;

/// The place of a block for each of some keys.
///
/// Contracts see the pairs of a key and its place, in the order of the keys, and how many fit without memory. A look goes by halves;
/// a key that comes or goes moves those behind it.
#[derive(Drop)]
pub(crate) struct Places {
    pairs: Vec<(Key, usize)>,
}

impl Model for Places {
    ghost use Rattle.std.specs.Prelude.{vec_capacity};
    ghost use Rattle.dubp_head.specs.Entries.{PlacesState, IsRising};

    ghost Value = { PlacesState };

    ghost view = { λ p. record {
      entries = p.pairs.items;
      capacity = vec_capacity p.pairs;
    } };

    ghost invariant = { λ p. IsRising p.pairs.items };
}

impl Places {
    /// No places. It takes no memory.
    pub(crate) fn new(alloc: Global) -> Places
        ensures { result.entries ≡ [] }
    {
        Places {
            pairs: Vec::new(alloc),
        }
    }

    /// Takes memory for so many keys.
    pub(crate) fn reserve(&mut self, count: usize) -> Result<(), NoMemory>
        ensures entries { self.new.entries ≡ self.old.entries }
        ensures reserved { OnOk result (count ≤ self.new.capacity) }
        ensures capacity { self.old.capacity ≤ self.new.capacity }
    {
        let more = count.saturating_sub(self.pairs.len());
        self.pairs.reserve(more).map_err(|_| NoMemory)
    }

    /// The place of the key.
    pub(crate) fn get(&self, key: &Key) -> Option<usize>
        ensures { result ≡ lookup (same_text key.now) self.now.entries }
    {
        match self.search(key) {
            Ok(at) => Some(self.pairs[at].1),
            Err(_) => None,
        }
    }

    /// Gives the key this place, and tells the one that it had; none where it had none. There is room for it where it has none yet.
    /// It takes no memory, and looks the key up once.
    pub(crate) fn replace(&mut self, key: Key, place: usize) -> Option<usize>
        requires { lookup (same_text key) self.old.entries ≡ None → length self.old.entries < self.old.capacity }
        ensures earlier { result ≡ lookup (same_text key) self.old.entries }
        ensures places { (k : Text) → lookup (same_text k) self.new.entries
            ≡ (if same_text k key then Some place else lookup (same_text k) self.old.entries) }
        ensures len { length self.new.entries ≡ length self.old.entries + (if is_some (lookup (same_text key) self.old.entries) then 0 else 1) }
        ensures capacity { self.new.capacity ≡ self.old.capacity }
    {
        match self.search(&key) {
            Ok(at) => {
                let earlier = self.pairs[at].1;
                self.pairs[at] = (key, place);
                Some(earlier)
            }
            Err(at) => {
                let inserted = self.pairs.insert(at, (key, place));
                prove!(inserted.is_ok());
                None
            }
        }
    }

    /// Takes the place of the key away. It takes no memory.
    pub(crate) fn remove(&mut self, key: &Key)
        ensures places { (k : Text) → lookup (same_text k) self.new.entries
            ≡ (if same_text k key.now then None else lookup (same_text k) self.old.entries) }
        ensures len { length self.new.entries + (if is_some (lookup (same_text key.now) self.old.entries) then 1 else 0) ≡ length self.old.entries }
        ensures capacity { self.new.capacity ≡ self.old.capacity }
    {
        if let Ok(at) = self.search(key) {
            self.pairs.remove(at);
        }
    }

    // Where the key is, or where it would go.
    fn search(&self, key: &Key) -> Result<usize, usize>
        ensures found { IfOk result (IsAt self.now.entries key.now) }
        ensures absent { IfErr result (IsGapFor self.now.entries key.now) }
    {
        self.pairs.binary_search_by_key(key, |&(k, _)| k)
    }
}
