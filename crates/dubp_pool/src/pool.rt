ghost use Rattle.std.specs.Prelude.{◌≡◌, ◌<◌, [], Some, length, slice_get};
ghost use Rattle.dubp_docs.specs.Spelling.{IsDoc};
ghost use Rattle.dubp_docs.specs.declared.doc.Doc.{Doc as DocValue};
ghost use Rattle.dubp_pool.specs.Pools.{ArePending, Keeps, Pends, doc_hash, differs, is_pending, without};

use crate::refusal::PendRefusal;
use dubp_atoms::{Hash, Secret};
use dubp_docs::{Doc, read_doc};
use indexmap::IndexMap;
use std::alloc::Global;
use std::marker::Model;

/// How many documents wait at most.
pub const MOST_PENDING: usize = 1024;

/// The documents that wait for a block, each with the SHA-256 of its text.
///
/// Contracts see their list, in the order in which they came: at most 1,024, and no two of one text.
#[derive(Drop)]
pub struct Pool {
    alloc: Global,
    documents: IndexMap<Hash, Doc, Secret>,
}

impl Model for Pool {
    ghost use Rattle.std.specs.Prelude.{List};
    ghost use Rattle.dubp_docs.specs.declared.doc.Doc.{Doc as DocValue};

    ghost Value = { List DocValue };

    ghost use Rattle.std.specs.Coded.{codes};
    ghost use Rattle.dubp_docs.specs.contracts.doc.Doc as doc;

    ghost coded = { Prim.hlevel (codes, doc.the_row.coded) };

    ghost use Rattle.dubp_pool.specs.Pools.{AreKept, documents_in};

    ghost view = { λ p. documents_in p.documents.entries };

    ghost invariant = { λ p. AreKept p.documents.entries };
}

impl Pool {
    /// No document waits. It takes no memory. Who is let in to choose documents can make some that are slow to keep: `with_secret` is for them.
    pub fn new(alloc: Global) -> Pool
        ensures { result ≡ [] }
    {
        Pool::with_secret(alloc, Secret::known())
    }

    /// No document waits. Those that come are kept by this secret: who does not know it makes none that are slower to keep than others. It takes no
    /// memory.
    pub fn with_secret(alloc: Global, secret: Secret) -> Pool
        ensures { result ≡ [] }
    {
        Pool {
            alloc,
            documents: IndexMap::with_hasher(alloc, secret),
        }
    }

    /// How many documents wait: at most 1,024. It takes no memory.
    pub fn held(&self) -> usize
        ensures { result ≡ length self.now }
    {
        self.documents.len()
    }

    /// Does nothing. Its clause says what holds of the documents at any time.
    pub fn laws(&self)
        ensures { ArePending self.now }
    {
        let _ = &self.documents;
    }

    /// The document of this text waits from now on, behind the others. Told is the SHA-256 of the text.
    ///
    /// `Unread` where the bytes are the text of no document; `Known` where a document of this text waits; `Full` where 1,024 wait; `NoMemory` where
    /// there is no room. On each refusal the pool is as before.
    pub fn add(&mut self, text: &[u8]) -> Result<Hash, PendRefusal>
        ensures { Pends self.old text.now result self.new }
    {
        match read_doc(self.alloc, text) {
            Ok(Some(document)) => self.keep(Hash::of(text), document),
            Ok(None) => Err(PendRefusal::Unread),
            Err(_) => Err(PendRefusal::NoMemory),
        }
    }

    // The document waits, unless it does so already or as many wait as may.
    fn keep(&mut self, hash: Hash, document: Doc) -> Result<Hash, PendRefusal>
        requires is { hash ≡ doc_hash document }
        requires text { IsDoc document }
        ensures { Keeps self.old document result self.new }
    {
        if self.documents.contains_key(&hash) {
            return Err(PendRefusal::Known(hash));
        }
        let held = self.documents.len();
        if held >= MOST_PENDING {
            return Err(PendRefusal::Full { held });
        }
        match self.documents.insert(hash, document) {
            Ok(_) => Ok(hash),
            Err(_) => Err(PendRefusal::NoMemory),
        }
    }

    /// The document whose text has this SHA-256 waits no longer. False where none has it; then nothing changes. It takes no memory.
    pub fn remove(&mut self, hash: Hash) -> bool
        ensures was { result ≡ is_pending self.old hash }
        ensures left { self.new ≡ without hash self.old }
    {
        let was = self.documents.contains_key(&hash);
        self.documents.retain(
            |key: &Hash, document: &mut Doc| -> bool
                ensures { (result ≡ differs hash key.now) × (document.new ≡ document.old) }
            { *key != hash },
        );
        was
    }

    /// The document at this place, counted from 0 in the order in which they came. It takes no memory.
    pub fn at(&self, place: usize) -> &Doc
        requires { place < length self.now }
        ensures { slice_get self.now place ≡ Some result.now }
    {
        let (_, document) = self.documents.get_index(place).unwrap();
        document
    }

    /// The SHA-256 of the text of the document at this place. It takes no memory.
    pub fn hash_at(&self, place: usize) -> Hash
        requires { place < length self.now }
        ensures { (d : DocValue) → slice_get self.now place ≡ Some d → result ≡ doc_hash d }
    {
        let (hash, _) = self.documents.get_index(place).unwrap();
        *hash
    }
}
