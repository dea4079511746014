ghost use Rattle.std.specs.Prelude.{◌≡◌, ◌≤◌, IfOk, OnOk, length};
ghost use Rattle.dubp_block.specs.Text.{IsBlock};
ghost use Rattle.dubp_chain.specs.Members.{member};
ghost use Rattle.dubp_validity.specs.LocalRules.{InnerHashIsRight};
ghost use Rattle.dubp_forging.specs.Drafts.{FirstBad, IsDraftOf};
ghost use Rattle.dubp_forging.specs.Forged.{Forging, IsTried};
ghost use Rattle.dubp_forge.specs.Steps.{IsBlank, Stands, docs_of};

use crate::draft::Draft;
use dubp_atoms::{Items, Key, NoMemory};
use dubp_block::{Block, put_block};
use dubp_ledger::{Ledger, PeopleAndMoney};
use dubp_pool::Pool;
use dubp_rules::Rule;
use dubp_verdict::Verdicts;
use std::alloc::Global;
use std::marker::Model;
use std::mem;

/// The most bytes that the text of a block has.
const LONGEST_BLOCK: usize = 1_048_576;

/// What a block is forged from: a ledger whose chain has a block, the documents that wait, the verdicts; who issues it, and when.
#[derive(Drop)]
pub(crate) struct Forge<'a, T: PeopleAndMoney> {
    pub alloc: Global,
    pub ledger: &'a Ledger<T>,
    pub pool: &'a Pool,
    pub verdicts: &'a Verdicts,
    pub issuer: Key,
    pub time: u64,
}

impl<'a, T: PeopleAndMoney> Model for Forge<'a, T> {
    ghost use Rattle.dubp_forging.specs.Forged.{Forging};
    ghost use Rattle.dubp_forge.specs.Steps.{IsGiven, forging};

    ghost Value = { Forging };

    ghost use Rattle.std.specs.Coded.{codes};
    ghost use Rattle.dubp_block.specs.contracts.block.Block as block;
    ghost use Rattle.dubp_docs.specs.contracts.doc.Doc as doc;

    ghost coded = { Prim.hlevel (codes, block.the_row.coded, doc.the_row.coded) };

    ghost view = { λ f. forging f.verdicts.now f.ledger.now.chain f.issuer f.time f.pool.now };

    ghost invariant = { λ f. IsGiven (forging f.verdicts.now f.ledger.now.chain f.issuer f.time f.pool.now) };
}

impl<'a, T: PeopleAndMoney> Forge<'a, T> {
    /// Whether the key is that of a member of the chain.
    pub fn is_member(&self, key: Key) -> bool
        ensures { result ≡ member self.now.chain key }
    {
        self.ledger.laws();
        self.ledger.tables().is_member(key)
    }

    /// A block of this issuer at this time, without lines. It takes no memory.
    pub fn blank(&self) -> Block
        ensures { IsBlank self.now result }
    {
        let last = self.ledger.len() - 1;
        let last = self.ledger.block_at(last as u64).unwrap();
        Block {
            version: 10,
            currency: last.currency,
            number: 0,
            pow_min: 0,
            time: self.time,
            median_time: 0,
            dividend: None,
            unit_base: 0,
            issuer: self.issuer,
            frame: 0,
            frame_var: 0,
            issuers: 0,
            previous: None,
            params: None,
            members: 0,
            identities: Items::new(self.alloc),
            joiners: Items::new(self.alloc),
            actives: Items::new(self.alloc),
            leavers: Items::new(self.alloc),
            revoked: Items::new(self.alloc),
            excluded: Items::new(self.alloc),
            certifications: Items::new(self.alloc),
            transactions: Items::new(self.alloc),
            inner_hash: last.inner_hash,
            nonce: 0,
            sig: last.sig,
        }
    }

    /// Gives the draft its header and its exclusions.
    pub fn fill(&self, draft: &mut Draft) -> Result<(), NoMemory>
        requires { Stands self.now draft.old }
        ensures stands { OnOk result (Stands self.now draft.new) }
        ensures places { draft.new.places ≡ draft.old.places }
        ensures marks { draft.new.marks ≡ draft.old.marks }
        ensures filled { OnOk result (IsDraftOf self.now.chain self.now.issuer self.now.time (docs_of self.now draft.old) draft.new.block) }
        ensures block { OnOk result (IsBlock draft.new.block) }
    {
        self.pool.laws();
        let block = mem::replace(&mut draft.block, self.blank());
        let filled = self.ledger.fill(block)?;
        draft.block = filled;
        Ok(())
    }

    /// The first rule that the draft breaks, once it has its header, but for `L05` and `G62`.
    pub fn test(&self, draft: &mut Draft) -> Result<Option<Rule>, NoMemory>
        requires { Stands self.now draft.old }
        ensures stands { OnOk result (Stands self.now draft.new) }
        ensures places { draft.new.places ≡ draft.old.places }
        ensures marks { draft.new.marks ≡ draft.old.marks }
        ensures tried { IfOk result (IsTried self.now (docs_of self.now draft.old)) }
    {
        self.fill(draft)?;
        self.first_bad(&draft.block)
    }

    // The first rule that the block, whose InnerHash is right, breaks, but for `L05` and `G62`.
    fn first_bad(&self, block: &Block) -> Result<Option<Rule>, NoMemory>
        requires text { IsBlock block.now }
        requires inner { InnerHashIsRight block.now }
        ensures { IfOk result (FirstBad self.now.verdicts self.now.chain block.now) }
    {
        let text = put_block(self.alloc, block)?;
        if text.len() > LONGEST_BLOCK {
            return Ok(Some(Rule::X01));
        }
        self.ledger.trial_hashed(block, self.verdicts)
    }
}
