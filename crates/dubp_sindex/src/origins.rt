ghost use Rattle.std.specs.Prelude.{◌≡◌, List, Some, IfOk, OnOk, OnErr};
ghost use Rattle.std.specs.List.{position_or_len};
ghost use Rattle.dubp_atoms.specs.Same.{Text, same_text};
ghost use Rattle.dubp_sindex.specs.Numbering.{with_text};
ghost use Rattle.dubp_sindex.specs.Origins.{Keeps, name_in, no_origins, source_in, with_origin};

use dubp_atoms::{Hash, Key, NoMemory, Secret};
use dubp_cond::SourceId;
use indexmap::IndexSet;
use std::alloc::Global;
use std::marker::Model;

/// The name of a source within the tables: as its `SourceId`, with the number of the key or of the hash in place of it.
#[derive(Clone, Copy, Debug, PartialEq, Eq, PartialOrd, Ord, Hash)]
pub enum Name {
    Dividend { key: usize, block: u64 },
    Output { tx: usize, index: u64 },
}

/// The keys and the hashes of transactions that name sources, each with its place in the order in which they came as its number.
///
/// Contracts see it as the lists of their texts.
#[derive(Drop)]
pub struct Origins {
    keys: IndexSet<Key, Secret>,
    hashes: IndexSet<Hash, Secret>,
}

impl Model for Origins {
    ghost use Rattle.dubp_sindex.specs.Origins.{OriginTexts};

    ghost Value = { OriginTexts };

    ghost view = { λ o. record { keys = o.keys.keys; hashes = o.hashes.keys } };
}

impl Origins {
    /// No origin. The secret is what the origins are hashed by. It takes no memory.
    pub fn new(alloc: Global, secret: Secret) -> Origins
        ensures { result ≡ no_origins }
    {
        Origins {
            keys: IndexSet::with_hasher(alloc, secret),
            hashes: IndexSet::with_hasher(alloc, secret),
        }
    }

    /// The name of the source, or `None` where its origin has no number. It takes no memory.
    pub fn find(&self, id: &SourceId) -> Option<Name>
        ensures { result ≡ name_in self.now id.now }
    {
        match id {
            SourceId::D { key, block } => {
                let number = self.keys.get_index_of(key)?;
                Some(Name::Dividend {
                    key: number,
                    block: *block,
                })
            }
            SourceId::T { tx, index } => {
                let number = self.hashes.get_index_of(tx)?;
                Some(Name::Output {
                    tx: number,
                    index: *index,
                })
            }
        }
    }

    /// The source of this name, or `None` where no origin has its number. It takes no memory.
    pub fn source(&self, name: Name) -> Option<SourceId>
        ensures { result ≡ source_in self.now name }
    {
        match name {
            Name::Dividend { key, block } => {
                let key = self.keys.get_index(key)?;
                Some(SourceId::D { key: *key, block })
            }
            Name::Output { tx, index } => {
                let tx = self.hashes.get_index(tx)?;
                Some(SourceId::T { tx: *tx, index })
            }
        }
    }

    /// The name of the source, whose origin gets the next number where it has none.
    ///
    /// `NoMemory` where there is no memory for a new origin; then all is as it was.
    pub fn add(&mut self, id: &SourceId) -> Result<Name, NoMemory>
        ensures name { IfOk result (λ name. name_in self.new id.now ≡ Some name) }
        ensures added { OnOk result (self.new ≡ with_origin self.old id.now) }
        ensures keeps { Keeps self.old self.new }
        ensures refused { OnErr result (self.new ≡ self.old) }
    {
        match id {
            SourceId::D { key, block } => {
                let number = add_key(&mut self.keys, key)?;
                Ok(Name::Dividend {
                    key: number,
                    block: *block,
                })
            }
            SourceId::T { tx, index } => {
                let number = add_hash(&mut self.hashes, tx)?;
                Ok(Name::Output {
                    tx: number,
                    index: *index,
                })
            }
        }
    }
}

// The number of the key, which goes last where it is new.
fn add_key(keys: &mut IndexSet<Key, Secret>, key: &Key) -> Result<usize, NoMemory>
    ensures number { IfOk result (λ n. n ≡ position_or_len (same_text key.now) keys.old.keys) }
    ensures added { OnOk result (keys.new.keys ≡ with_text keys.old.keys key.now) }
    ensures refused { OnErr result (keys.new.keys ≡ keys.old.keys) }
{
    match keys.insert_full(*key) {
        Ok((number, _)) => Ok(number),
        Err(_) => Err(NoMemory),
    }
}

// The number of the hash, which goes last where it is new.
fn add_hash(hashes: &mut IndexSet<Hash, Secret>, hash: &Hash) -> Result<usize, NoMemory>
    ensures number { IfOk result (λ n. n ≡ position_or_len (same_text hash.now) hashes.old.keys) }
    ensures added { OnOk result (hashes.new.keys ≡ with_text hashes.old.keys hash.now) }
    ensures refused { OnErr result (hashes.new.keys ≡ hashes.old.keys) }
{
    match hashes.insert_full(*hash) {
        Ok((number, _)) => Ok(number),
        Err(_) => Err(NoMemory),
    }
}
