ghost use Rattle.std.specs.Prelude.{OnOk, ◌≡◌, ◌<◌, ◌≤◌, [], None, Some, is_some, length, slice_get};
ghost use Rattle.std.specs.List.{list_any};
ghost use Rattle.dubp_atoms.specs.Hashing.{hash_of};
ghost use Rattle.dubp_block.specs.Text.{IsBlock, block_text, inner_text, stamp_of as block_stamp};
ghost use Rattle.dubp_block.specs.declared.block.Block.{Block as BlockValue};
ghost use Rattle.dubp_validity.specs.Rules.{longest_block};
ghost use Rattle.dubp_verdict.specs.Verdicts.{Verdicts as VerdictsValue};
ghost use Rattle.dubp_replay.specs.Turns.{is_stamped, previous_stamp, stored, without};
ghost use Rattle.dubp_forks.specs.Offering.{Added, Checked};
ghost use Rattle.dubp_forks.specs.Offers.{Offered};
ghost use Rattle.dubp_forks.specs.Switches.{Switched, TakesFew};
ghost use Rattle.dubp_forks.specs.Stores.{AreOutside, AreStored, state_of};

use crate::entries::put_text;
use crate::path::path_from;
use crate::refusals::{OfferRefusal, SwitchRefusal};
use crate::stored::Stored;
use crate::switching::{check_room, count_behind, replace};
use dubp_atoms::{Hash, NoMemory, Secret, Stamp, Steps};
use dubp_block::{Block, ReadRefusal, read_hashed_block, stamp_of};
use dubp_ledger::{Ledger, PeopleAndMoney};
use dubp_verdict::Verdicts;
use indexmap::IndexMap;
use std::alloc::Global;
use std::marker::Model;
use std::sync::ledger::Ledger as StepBook;

/// How many blocks are stored at most.
pub const MOST_STORED: usize = 1024;

/// The stored blocks of branches.
///
/// Contracts see their list, in the order in which they came: at most 1,024, each of another stamp and with a text of at most 1,048,576
/// bytes. No block that is stored is in the chain. Each is kept as its text.
#[derive(Drop)]
pub struct Store {
    pub(crate) alloc: Global,
    pub(crate) blocks: IndexMap<Stamp, Stored, Secret>,
}

impl Model for Store {
    ghost use Rattle.std.specs.Prelude.{List};
    ghost use Rattle.dubp_block.specs.declared.block.Block.{Block as BlockValue};

    ghost Value = { List BlockValue };

    ghost use Rattle.std.specs.Coded.{codes};
    ghost use Rattle.dubp_block.specs.contracts.block.Block as block;

    ghost coded = { Prim.hlevel (codes, block.the_row.coded) };

    ghost use Rattle.dubp_forks.specs.Entries.{AreKept, blocks_in};

    ghost view = { λ s. blocks_in s.blocks.entries };

    ghost invariant = { λ s. AreKept s.blocks.entries };
}

impl Store {
    /// A store of no block. The secret is what the stamps of blocks are hashed by. It takes no memory.
    pub fn new(alloc: Global, secret: Secret) -> Store
        ensures { result ≡ [] }
    {
        Store {
            alloc,
            blocks: IndexMap::with_hasher(alloc, secret),
        }
    }

    /// What the stamps of blocks are hashed by.
    pub fn secret(&self) -> Secret {
        *self.blocks.hasher()
    }

    /// How many blocks are stored: at most 1,024. It takes no memory.
    pub fn held(&self) -> usize
        ensures { result ≡ length self.now }
    {
        self.blocks.len()
    }

    /// Whether a stored block has this stamp. It takes no memory.
    pub fn has(&self, stamp: &Stamp) -> bool
        ensures { result ≡ list_any (is_stamped stamp.now) self.now }
    {
        self.blocks.contains_key(stamp)
    }

    /// Does nothing. Its clause says what holds of the stored blocks at any time.
    pub fn laws(&self)
        ensures { AreStored self.now }
    {
        let _ = &self.blocks;
    }

    /// Forgets the block of this stamp. False where none is stored; then nothing changes. It takes no memory.
    pub fn forget(&mut self, stamp: Stamp) -> bool
        ensures was { result ≡ is_some (stored self.old stamp) }
        ensures left { self.new ≡ without stamp self.old }
    {
        self.blocks.shift_remove(&stamp).is_some()
    }

    /// The stamp of the block at this place, counted from 0 in the order in which the blocks came, and that of the block before it, which
    /// block 0 has not. It takes no memory.
    pub fn entry(&self, place: usize) -> (Stamp, Option<Stamp>)
        requires { place < length self.now }
        ensures { (b : BlockValue) → slice_get self.now place ≡ Some b → (result.0 ≡ block_stamp b) × (result.1 ≡ previous_stamp b) }
    {
        let (stamp, stored) = self.blocks.get_index(place).unwrap();
        (*stamp, stored.previous())
    }

    /// Stores the block of these bytes, which are at most 1,048,576, and tells its stamp.
    ///
    /// `Unread` where the bytes are no block; `Local` where the block breaks one of the rules before `G51`, of which the first is named;
    /// `Known` where a block of its stamp is stored or in the chain; `Full` where 1,024 blocks are stored; `NoMemory` where there is no
    /// room. On each refusal the store is as before.
    pub fn offer<T: PeopleAndMoney>(
        &mut self,
        bytes: &[u8],
        ledger: &Ledger<T>,
        verdicts: &Verdicts,
    ) -> Result<Stamp, OfferRefusal>
        requires short { length bytes.now ≤ longest_block }
        requires outside { AreOutside self.old ledger.now.chain }
        ensures offered { Offered (state_of verdicts.now ledger.now self.old) bytes.now result self.new }
        ensures outside { AreOutside self.new ledger.now.chain }
    {
        match read_hashed_block(self.alloc, bytes) {
            Ok(read) => self.check(&read.block, &read.inner, bytes, ledger, verdicts),
            Err(ReadRefusal::NotABlock { line }) => Err(OfferRefusal::Unread { line }),
            Err(ReadRefusal::NoMemory) => Err(OfferRefusal::NoMemory),
        }
    }

    /// Puts the branch that ends at the stored block of this stamp in the place of the chain's last blocks. Those go to the end of the store, in
    /// ascending number, and the blocks of the branch leave it.
    ///
    /// `Unknown` where no stored block has the stamp; `Detached` where the branch begins behind a stamp that is neither stored nor in the
    /// chain; `TooDeep` where more blocks would be reversed than can be; `Full` where more than 1,024 would be stored then; `Refused` where a
    /// block of the branch breaks a rule, of which the lowest and its first rule are named; `NoMemory` where there is no room, for the texts
    /// of the chain's last blocks too. On each refusal ledger and store are as before; the way back takes no memory. No block is held.
    pub fn switch<T: PeopleAndMoney, L: StepBook>(
        &mut self,
        stamp: Stamp,
        ledger: &mut Ledger<T>,
        verdicts: &Verdicts,
        steps: &mut Steps<L>,
    ) -> Result<(), SwitchRefusal>
        requires alone { ledger.old.out ≡ None }
        requires outside { AreOutside self.old ledger.old.chain }
        ensures switched { Switched (state_of verdicts.now ledger.old self.old) stamp result (state_of verdicts.now ledger.new self.new) }
        ensures out { ledger.new.out ≡ None }
        ensures outside { AreOutside self.new ledger.new.chain }
        ensures steps { OnOk result (TakesFew (state_of verdicts.now ledger.old self.old) stamp ledger.new.chain steps.old steps.new) }
    {
        ledger.laws();
        let Ok(path) = path_from(self.alloc, &self.blocks, stamp) else {
            return Err(SwitchRefusal::NoMemory);
        };
        if path.stamps.is_empty() {
            return Err(SwitchRefusal::Unknown);
        }
        let count = match count_behind(ledger, path.end) {
            Ok(count) => count,
            Err(refusal) => return Err(refusal),
        };
        if let Err(refusal) = check_room(
            ledger.kept(),
            count,
            self.blocks.len(),
            path.stamps.len(),
        ) {
            return Err(refusal);
        }
        replace(
            self.alloc,
            &mut self.blocks,
            path.stamps.as_slice(),
            count,
            ledger,
            verdicts,
            steps,
        )
    }

    // Stores the block of this text, whose inner hash is at hand, where it breaks no rule before `G51`.
    fn check<T: PeopleAndMoney>(
        &mut self,
        block: &Block,
        inner: &Hash,
        text: &[u8],
        ledger: &Ledger<T>,
        verdicts: &Verdicts,
    ) -> Result<Stamp, OfferRefusal>
        requires range { IsBlock block.now }
        requires inner { inner.now ≡ hash_of (inner_text block.now) }
        requires text { text.now ≡ block_text block.now }
        requires short { length text.now ≤ longest_block }
        requires outside { AreOutside self.old ledger.now.chain }
        ensures checked { Checked (state_of verdicts.now ledger.now self.old) block.now result self.new }
        ensures outside { AreOutside self.new ledger.now.chain }
    {
        match ledger.first_local(block, inner, verdicts) {
            Ok(None) => self.add(block, text, ledger),
            Ok(Some(rule)) => Err(OfferRefusal::Local(rule)),
            Err(NoMemory) => Err(OfferRefusal::NoMemory),
        }
    }

    // Stores the block of this text, unless it is known or the store is full.
    fn add<T: PeopleAndMoney>(
        &mut self,
        block: &Block,
        text: &[u8],
        ledger: &Ledger<T>,
    ) -> Result<Stamp, OfferRefusal>
        requires range { IsBlock block.now }
        requires text { text.now ≡ block_text block.now }
        requires short { length text.now ≤ longest_block }
        requires outside { AreOutside self.old ledger.now.chain }
        ensures added { (v : VerdictsValue) → Added (state_of v ledger.now self.old) block.now result self.new }
        ensures outside { AreOutside self.new ledger.now.chain }
    {
        let stamp = stamp_of(block);
        if self.blocks.contains_key(&stamp) || ledger.place_of(&stamp).is_some() {
            return Err(OfferRefusal::Known(stamp));
        }
        let held = self.blocks.len();
        if held >= MOST_STORED {
            return Err(OfferRefusal::Full { held });
        }
        match put_text(self.alloc, &mut self.blocks, stamp, text, block) {
            Ok(()) => Ok(stamp),
            Err(NoMemory) => Err(OfferRefusal::NoMemory),
        }
    }
}
