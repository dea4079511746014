ghost use Rattle.std.specs.Prelude.{◌≡◌, ◌≤◌, ◌<◌, ◌++◌, ◌∷◌, [], IfOk, OnOk, MatchOption, None, Some, length, slice_get, take};
ghost use Rattle.dubp_docs.specs.declared.doc.Doc.{Doc as DocValue};
ghost use Rattle.dubp_docs.specs.declared.doc.Doc.TheVariants.{Membership};
ghost use Rattle.dubp_forging.specs.Forged.{Adds, Certifies, is_certifying as the_certifying, is_joining as the_joining, is_mendable as the_mendable, with_membership as the_with_membership};
ghost use Rattle.dubp_forge.specs.Steps.{Asks, Extends, IsFree, IsJoining, Offers, Stands, all_but_last, docs_of, with_line, without_line};

use crate::asking::Forge;
use crate::draft::Draft;
use crate::lines::{certification_line, identity_line, membership_line, pop, push, revoked_line};
use dubp_atoms::{Key, NoMemory};
use dubp_block::Block;
use dubp_cond::copy_tx;
use dubp_docs::{Doc, IdentityDoc, MembershipDoc};
use dubp_ledger::PeopleAndMoney;
use dubp_rules::Rule;

impl<'a, T: PeopleAndMoney> Forge<'a, T> {
    /// Tries the draft with the document at this place, which is not in it, and with what comes with that. They stay where the draft breaks no
    /// rule; else it is as before, and the rule is told.
    pub fn ask(&self, draft: &mut Draft, place: usize) -> Result<Option<Rule>, NoMemory>
        requires stands { Stands self.now draft.old }
        requires free { IsFree draft.old place }
        ensures stands { OnOk result (Stands self.now draft.new) }
        ensures asks { IfOk result (λ found. (d : DocValue) → slice_get self.now.pool place ≡ Some d → Asks self.now (docs_of self.now draft.old) d found (docs_of self.now draft.new)) }
        ensures grows { IfOk result (λ found. MatchOption found (length draft.old.places.items < length draft.new.places.items) (λ rule. draft.new.places.items ≡ draft.old.places.items)) }
    {
        let count = draft.places.len();
        self.add_all(draft, place)?;
        match self.test(draft)? {
            None => Ok(None),
            Some(rule) => {
                self.take_back(draft, count);
                Ok(Some(rule))
            }
        }
    }

    // Adds the document at this place; an identity with the membership and the certifications that bring it in.
    fn add_all(&self, draft: &mut Draft, place: usize) -> Result<(), NoMemory>
        requires stands { Stands self.now draft.old }
        requires free { IsFree draft.old place }
        ensures stands { OnOk result (Stands self.now draft.new) }
        ensures adds { OnOk result ((d : DocValue) → slice_get self.now.pool place ≡ Some d → Adds self.now (docs_of self.now draft.old) d (docs_of self.now draft.new)) }
        ensures grows { OnOk result (Extends (draft.old.places.items ++ place ∷ []) draft.new.places.items) }
    {
        self.add(draft, place)?;
        match self.pool.at(place) {
            Doc::Identity(identity) => {
                self.add_membership(draft, identity)?;
                self.add_certifications(draft, &identity.issuer)?;
                Ok(())
            }
            _ => Ok(()),
        }
    }

    // Adds the first membership that is not in the draft and by which the key of this identity asks to be a member.
    fn add_membership(&self, draft: &mut Draft, identity: &IdentityDoc) -> Result<(), NoMemory>
        requires { Stands self.now draft.old }
        ensures stands { OnOk result (Stands self.now draft.new) }
        ensures joins { OnOk result (docs_of self.now draft.new ≡ the_with_membership self.now identity.now (docs_of self.now draft.old)) }
        ensures grows { OnOk result (Extends draft.old.places.items draft.new.places.items) }
    {
        match self.joining(draft, identity) {
            Some(place) => {
                self.add(draft, place)?;
                Ok(())
            }
            None => Ok(()),
        }
    }

    // The place of that membership.
    fn joining(&self, draft: &Draft, identity: &IdentityDoc) -> Option<usize>
        requires { Stands self.now draft.now }
        ensures { IsJoining self.now draft.now identity.now result }
    {
        for place in 0..self.pool.held() {
            if draft.marks[place] {
                continue;
            }
            if is_joining(identity, self.pool.at(place)) {
                return Some(place);
            }
        }
        None
    }

    // Adds the certifications of the identity of this key one by one, those that stay.
    fn add_certifications(&self, draft: &mut Draft, key: &Key) -> Result<(), NoMemory>
        requires { Stands self.now draft.old }
        ensures stands { OnOk result (Stands self.now draft.new) }
        ensures certifies { OnOk result (Certifies self.now key.now self.now.pool (docs_of self.now draft.old) (docs_of self.now draft.new)) }
        ensures grows { OnOk result (Extends draft.old.places.items draft.new.places.items) }
    {
        for place in 0..self.pool.held() {
            if draft.marks[place] {
                continue;
            }
            if !is_certifying(key, self.pool.at(place)) {
                continue;
            }
            self.offer(draft, place)?;
        }
        Ok(())
    }

    // Adds the certification at this place. It stays where the draft with it breaks no rule, or one that further certifications can mend.
    fn offer(&self, draft: &mut Draft, place: usize) -> Result<(), NoMemory>
        requires stands { Stands self.now draft.old }
        requires free { IsFree draft.old place }
        ensures stands { OnOk result (Stands self.now draft.new) }
        ensures offers { OnOk result ((d : DocValue) → slice_get self.now.pool place ≡ Some d → Offers self.now (docs_of self.now draft.old) d (docs_of self.now draft.new)) }
        ensures grows { OnOk result (Extends draft.old.places.items draft.new.places.items) }
    {
        let count = draft.places.len();
        self.add(draft, place)?;
        let found = self.test(draft)?;
        if is_mendable(found) {
            return Ok(());
        }
        self.take_back(draft, count);
        Ok(())
    }

    /// Adds the document at this place alone.
    pub fn add(&self, draft: &mut Draft, place: usize) -> Result<(), NoMemory>
        requires stands { Stands self.now draft.old }
        requires free { IsFree draft.old place }
        ensures stands { OnOk result (Stands self.now draft.new) }
        ensures places { OnOk result (draft.new.places.items ≡ draft.old.places.items ++ place ∷ []) }
    {
        self.pool.laws();
        self.add_line(&mut draft.block, self.pool.at(place))?;
        push_place(&mut draft.places, place)?;
        draft.marks[place] = true;
        Ok(())
    }

    /// Takes documents back, the last first, until so many are left. It takes no memory.
    pub fn take_back(&self, draft: &mut Draft, count: usize)
        requires stands { Stands self.now draft.old }
        requires some { count ≤ length draft.old.places.items }
        ensures stands { Stands self.now draft.new }
        ensures places { draft.new.places.items ≡ take count draft.old.places.items }
    {
        while draft.places.len() > count {
            self.take_last(draft);
        }
    }

    // Takes the last document back. It takes no memory.
    fn take_last(&self, draft: &mut Draft)
        requires stands { Stands self.now draft.old }
        requires some { 0 < length draft.old.places.items }
        ensures stands { Stands self.now draft.new }
        ensures places { draft.new.places.items ≡ all_but_last draft.old.places.items }
    {
        self.pool.laws();
        let place = draft.places.pop().unwrap();
        self.remove_line(&mut draft.block, self.pool.at(place));
        draft.marks[place] = false;
    }

    // Puts the line of the document into the block.
    fn add_line(&self, block: &mut Block, document: &Doc) -> Result<(), NoMemory>
        ensures { OnOk result (block.new ≡ with_line self.now.chain document.now block.old) }
    {
        match document {
            Doc::Identity(d) => push(self.alloc, &mut block.identities, identity_line(d)),
            Doc::Revocation(d) => push(self.alloc, &mut block.revoked, revoked_line(d)),
            Doc::Certification(d) => {
                push(self.alloc, &mut block.certifications, certification_line(d))
            }
            Doc::Membership(d) => self.add_member_line(block, d),
            Doc::Transaction(d) => {
                let tx = copy_tx(self.alloc, &d.tx)?;
                push(self.alloc, &mut block.transactions, tx)
            }
        }
    }

    // Puts the line of the membership into its section.
    fn add_member_line(&self, block: &mut Block, document: &MembershipDoc) -> Result<(), NoMemory>
        ensures { OnOk result (block.new ≡ with_line self.now.chain (Membership document.now) block.old) }
    {
        let line = membership_line(document);
        if !document.membership {
            push(self.alloc, &mut block.leavers, line)
        } else if self.is_member(document.issuer) {
            push(self.alloc, &mut block.actives, line)
        } else {
            push(self.alloc, &mut block.joiners, line)
        }
    }

    // Takes the last line of the section of the document off the block. It takes no memory.
    fn remove_line(&self, block: &mut Block, document: &Doc)
        ensures { block.new ≡ without_line self.now.chain document.now block.old }
    {
        match document {
            Doc::Identity(_) => pop(self.alloc, &mut block.identities),
            Doc::Revocation(_) => pop(self.alloc, &mut block.revoked),
            Doc::Certification(_) => pop(self.alloc, &mut block.certifications),
            Doc::Membership(d) => self.remove_member_line(block, d),
            Doc::Transaction(_) => pop(self.alloc, &mut block.transactions),
        }
    }

    // Takes the last line of the section of the membership off the block. It takes no memory.
    fn remove_member_line(&self, block: &mut Block, document: &MembershipDoc)
        ensures { block.new ≡ without_line self.now.chain (Membership document.now) block.old }
    {
        if !document.membership {
            pop(self.alloc, &mut block.leavers)
        } else if self.is_member(document.issuer) {
            pop(self.alloc, &mut block.actives)
        } else {
            pop(self.alloc, &mut block.joiners)
        }
    }
}

/// Puts a place behind the others.
fn push_place(places: &mut Vec<usize>, place: usize) -> Result<(), NoMemory>
    ensures { OnOk result (places.new.items ≡ places.old.items ++ place ∷ []) }
{
    places.push(place).map_err(|_| NoMemory)
}

/// Whether by this document the key of the identity asks to be a member.
fn is_joining(identity: &IdentityDoc, document: &Doc) -> bool
    ensures { result ≡ the_joining identity.now document.now }
{
    match document {
        Doc::Membership(d) => {
            d.membership
                && identity.issuer == d.issuer
                && identity.unique_id == d.user_id
                && identity.timestamp == d.cert_ts
        }
        _ => false,
    }
}

/// Whether the document certifies the identity of this key.
fn is_certifying(key: &Key, document: &Doc) -> bool
    ensures { result ≡ the_certifying key.now document.now }
{
    match document {
        Doc::Certification(d) => *key == d.idty_issuer,
        _ => false,
    }
}

/// Whether further certifications can mend what was found.
fn is_mendable(found: Option<Rule>) -> bool
    ensures { result ≡ the_mendable found }
{
    matches!(found, None | Some(Rule::G79 | Rule::G76))
}
