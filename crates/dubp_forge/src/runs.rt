ghost use Rattle.std.specs.Prelude.{◌≡◌, ◌≤◌, ◌<◌, ◌++◌, IfOk, IsTrue, MatchBool, OnOk, Some, [], ◌∷◌, length, slice_get};
ghost use Rattle.std.specs.List.{AllByRecursion};
ghost use Rattle.dubp_docs.specs.declared.doc.Doc.{Doc as DocValue};
ghost use Rattle.dubp_forging_laws.specs.Laws.{IsTransaction};
ghost use Rattle.dubp_forge.specs.Runs.{TakesRun, is_transaction as the_transaction, outside, run_of};
ghost use Rattle.dubp_forge.specs.Steps.{Extends, IsFree, Stands, docs_of};

use crate::asking::Forge;
use crate::draft::Draft;
use dubp_atoms::NoMemory;
use dubp_docs::Doc;
use dubp_ledger::PeopleAndMoney;

impl<'a, T: PeopleAndMoney> Forge<'a, T> {
    /// Takes transactions together that begin at this place, whose document is not in the draft: at most so many, where these are two or more and the
    /// draft with all of them breaks no rule. Told is the place behind them; it is this place where none was taken, and then all is as before.
    pub fn take_many(&self, draft: &mut Draft, place: usize, most: usize) -> Result<usize, NoMemory>
        requires stands { Stands self.now draft.old }
        requires free { IsFree draft.old place }
        ensures stands { OnOk result (Stands self.now draft.new) }
        ensures end { IfOk result (λ end. (place ≤ end) × (end ≤ length self.now.pool)) }
        ensures taken { IfOk result (λ end. place < end → TakesRun self.now draft.old place end draft.new) }
        ensures same { IfOk result (λ end. end ≤ place → draft.new.places.items ≡ draft.old.places.items) }
    {
        if most < 2 {
            return Ok(place);
        }
        let end = self.run_end(draft, place, most);
        if end > place && self.take_run(draft, place, end)? {
            Ok(end)
        } else {
            Ok(place)
        }
    }

    // The place behind a run of documents that begins at this place of the pool: those of it that are not in the draft are transactions, and it has at
    // most so many. It takes no memory.
    fn run_end(&self, draft: &Draft, place: usize, most: usize) -> usize
        requires stands { Stands self.now draft.now }
        requires within { place ≤ length self.now.pool }
        ensures behind { place ≤ result }
        ensures within { result ≤ length self.now.pool }
        ensures run { AllByRecursion IsTransaction (run_of self.now draft.now place result) }
    {
        let last = self.pool.held().min(place.saturating_add(most));
        for end in place..last {
            if !self.may_run(draft, end) {
                return end;
            }
        }
        last
    }

    // Whether the document at this place is in the draft, or a transaction.
    fn may_run(&self, draft: &Draft, place: usize) -> bool
        requires stands { Stands self.now draft.now }
        requires within { place < length self.now.pool }
        ensures { IsTrue result → (d : DocValue) → slice_get self.now.pool place ≡ Some d → AllByRecursion IsTransaction (outside (docs_of self.now draft.now) (d ∷ [])) }
    {
        draft.marks[place] || is_transaction(self.pool.at(place))
    }

    // Adds the documents of the run that are not in the draft, and tells whether they stay: they do where the draft with all of them breaks no
    // rule. Else it is as before.
    fn take_run(&self, draft: &mut Draft, place: usize, end: usize) -> Result<bool, NoMemory>
        requires stands { Stands self.now draft.old }
        requires behind { place ≤ end }
        requires within { end ≤ length self.now.pool }
        requires run { AllByRecursion IsTransaction (run_of self.now draft.old place end) }
        ensures stands { OnOk result (Stands self.now draft.new) }
        ensures taken { IfOk result (λ taken. MatchBool taken (TakesRun self.now draft.old place end draft.new) (draft.new.places.items ≡ draft.old.places.items)) }
    {
        let count = draft.places.len();
        self.add_run(draft, place, end)?;
        match self.test(draft)? {
            None => Ok(true),
            Some(_) => {
                self.take_back(draft, count);
                Ok(false)
            }
        }
    }

    // Adds the documents of the run that are not in the draft, in their order.
    fn add_run(&self, draft: &mut Draft, place: usize, end: usize) -> Result<(), NoMemory>
        requires stands { Stands self.now draft.old }
        requires behind { place ≤ end }
        requires within { end ≤ length self.now.pool }
        ensures stands { OnOk result (Stands self.now draft.new) }
        ensures docs { OnOk result (docs_of self.now draft.new ≡ docs_of self.now draft.old ++ run_of self.now draft.old place end) }
        ensures grows { OnOk result (Extends draft.old.places.items draft.new.places.items) }
    {
        self.pool.laws();
        for next in place..end {
            if draft.marks[next] {
                continue;
            }
            self.add(draft, next)?;
        }
        Ok(())
    }
}

/// Whether the document is a transaction.
fn is_transaction(document: &Doc) -> bool
    ensures { result ≡ the_transaction document.now }
{
    matches!(document, Doc::Transaction(_))
}
