ghost use Rattle.std.specs.Prelude.{◌≡◌, ◌≤◌, ◌++◌, ◌∷◌, IfOk, OnOk, List, [], false, length, replicate};
ghost use Rattle.dubp_atoms.specs.Spelling.{IsNumber};
ghost use Rattle.dubp_docs.specs.declared.doc.Doc.{Doc as DocValue};
ghost use Rattle.dubp_forging.specs.Forged.{LeavesOut, Passes, Settles};
ghost use Rattle.dubp_forge.specs.Forgings.{IsForging};
ghost use Rattle.dubp_forge.specs.Steps.{Stands, docs_of, forging};

use crate::asking::Forge;
use crate::draft::Draft;
use crate::forged::{ForgeRefusal, Forged};
use dubp_atoms::{Hash, Key, NoMemory};
use dubp_ledger::{Ledger, PeopleAndMoney};
use dubp_pool::Pool;
use dubp_rules::Rule;
use dubp_verdict::Verdicts;
use std::alloc::Global;

/// The next block with the documents of the pool that it may have: passes go through the pool in order and take each that the draft may have
/// with those taken before, until one takes nothing. The time is below 2^53.
///
/// The block breaks no rule but `L05` and `G62`, and has no signature yet. Each document that is left out is told with the rule that the block with
/// it breaks. `NoChain` exactly where the chain is empty; `Refused` exactly where the draft without documents breaks this rule; `NoMemory` where
/// there is no room for the draft, for what is left out, or to try the draft.
pub fn forge<T: PeopleAndMoney>(
    alloc: Global,
    ledger: &Ledger<T>,
    pool: &Pool,
    verdicts: &Verdicts,
    issuer: Key,
    time: u64,
) -> Result<Forged, ForgeRefusal>
    requires { IsNumber time }
    ensures { IsForging (forging verdicts.now ledger.now.chain issuer time pool.now) result }
{
    if ledger.len() == 0 {
        return Err(ForgeRefusal::NoChain);
    }
    let forge = Forge {
        alloc,
        ledger,
        pool,
        verdicts,
        issuer,
        time,
    };
    forge.forged()
}

impl<'a, T: PeopleAndMoney> Forge<'a, T> {
    // The next block with the documents that it may have.
    fn forged(&self) -> Result<Forged, ForgeRefusal>
        ensures { IsForging self.now result }
    {
        let Ok(mut draft) = self.begin() else {
            return Err(ForgeRefusal::NoMemory);
        };
        match self.test(&mut draft) {
            Ok(None) => {}
            Ok(Some(rule)) => return Err(ForgeRefusal::Refused(rule)),
            Err(NoMemory) => return Err(ForgeRefusal::NoMemory),
        }
        let Ok(left) = self.settle(&mut draft) else {
            return Err(ForgeRefusal::NoMemory);
        };
        let Ok(()) = self.fill(&mut draft) else {
            return Err(ForgeRefusal::NoMemory);
        };
        Ok(Forged {
            block: draft.block,
            left,
        })
    }

    // The draft without documents.
    fn begin(&self) -> Result<Draft, NoMemory>
        ensures stands { IfOk result (Stands self.now) }
        ensures empty { IfOk result (λ draft. docs_of self.now draft ≡ []) }
    {
        let marks = unmarked(self.alloc, self.pool.held())?;
        Ok(Draft {
            block: self.blank(),
            places: Vec::new(self.alloc),
            marks,
        })
    }

    // Goes through the pool, pass after pass, until one takes nothing; then what is left out is told.
    fn settle(&self, draft: &mut Draft) -> Result<Vec<(Hash, Rule)>, NoMemory>
        requires { Stands self.now draft.old }
        ensures stands { OnOk result (Stands self.now draft.new) }
        ensures settles { OnOk result ((passes : List (List DocValue)) × Settles self.now passes (docs_of self.now draft.old) (docs_of self.now draft.new)) }
        ensures leaves { IfOk result (λ left. LeavesOut self.now (docs_of self.now draft.new) self.now.pool left.items) }
    {
        loop {
            let count = draft.places.len();
            let left = self.pass(draft)?;
            if draft.places.len() == count {
                return Ok(left);
            }
        }
    }

    // Goes through the pool once and takes each document that the draft may have; transactions that follow one another are tried together, twice as
    // many each time that all fit. What the others break is told; it stands where none was taken.
    fn pass(&self, draft: &mut Draft) -> Result<Vec<(Hash, Rule)>, NoMemory>
        requires { Stands self.now draft.old }
        ensures stands { OnOk result (Stands self.now draft.new) }
        ensures passes { OnOk result (Passes self.now self.now.pool (docs_of self.now draft.old) (docs_of self.now draft.new)) }
        ensures grows { OnOk result (length draft.old.places.items ≤ length draft.new.places.items) }
        ensures same { OnOk result (length draft.new.places.items ≤ length draft.old.places.items → draft.new.places.items ≡ draft.old.places.items) }
        ensures leaves { IfOk result (λ left. length draft.new.places.items ≤ length draft.old.places.items → LeavesOut self.now (docs_of self.now draft.new) self.now.pool left.items) }
    {
        let mut left = Vec::new(self.alloc);
        self.pool.laws();
        let mut place = 0;
        let mut most: usize = 1;
        while place < self.pool.held() {
            if draft.marks[place] {
                place += 1;
                continue;
            }
            let end = self.take_many(draft, place, most)?;
            if end > place {
                most = most.saturating_mul(2);
                place = end;
                continue;
            }
            let found = self.ask(draft, place)?;
            match found {
                None => {
                    most = 2;
                    place += 1;
                    continue;
                }
                Some(rule) => push_left(&mut left, self.pool.hash_at(place), rule)?,
            }
            most = 1;
            place += 1;
        }
        Ok(left)
    }
}

// As many marks as are wanted, none of them set.
fn unmarked(alloc: Global, count: usize) -> Result<Vec<bool>, NoMemory>
    ensures { IfOk result (λ marks. marks.items ≡ replicate count false) }
{
    vec![in alloc; false; count].map_err(|_| NoMemory)
}

// Puts what a document breaks behind the others that are left out.
fn push_left(left: &mut Vec<(Hash, Rule)>, hash: Hash, rule: Rule) -> Result<(), NoMemory>
    ensures { OnOk result (left.new.items ≡ left.old.items ++ (hash, rule) ∷ []) }
{
    left.push((hash, rule)).map_err(|_| NoMemory)
}
