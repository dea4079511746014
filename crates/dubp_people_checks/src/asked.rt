ghost use Rattle.std.specs.Prelude.{◌↔◌, IsTrue, IfOk};
ghost use Rattle.dubp_chain.specs.Chains.{Chain};
ghost use Rattle.dubp_validity.specs.PeopleRules.{IdentitiesAreFew, IdentitiesAreInTime, UidsAreNew, IdentitiesAreNew, MembershipsAreInTime, MembershipsAreNewer, MembershipsAreApart, MembershipsHaveIdentities, JoinersAreNoMembers, ActivesAreMembers, LeaversMayLeave, NobodyRevokedMoves, RevokedHaveIdentities, RevocationsAreSigned, CertificationsAreInTime, StocksAreKept, IssuersWaited, IssuersAreMembers, ReceiversAreMembers, ReceiversStay, LivePairsAreRenewed, CertificationsAreSigned, JoinersAreCertified, ComersPass, ExcludedAreKicked, KickedAreExcluded};
ghost use Rattle.dubp_people_checks.specs.Asking.{IsAskedOf};

use crate::Next;
use dubp_atoms::NoMemory;
use dubp_block::Block;
use dubp_moving::Tables;
use dubp_people_after::{After, Registry, WithBlock};
use dubp_verdict::Verdicts;
use std::alloc::Global;

/// A block that stands to be judged on the chain of a registry, with what it changes there.
#[derive(Drop)]
pub(crate) struct Asked<'a> {
    pub(crate) alloc: Global,
    pub(crate) registry: &'a Registry,
    pub(crate) after: &'a After<'a>,
    pub(crate) block: &'a Block,
    pub(crate) next: &'a Next,
    pub(crate) verdicts: &'a Verdicts,
}

impl<'a> Asked<'a> {
    /// The chain and the block have at most 1,000,000 lines of Identities together: rule `X06`.
    pub(crate) fn identities_are_few(&self) -> bool
        ensures { (c : Chain) → IsAskedOf self.now c → (IsTrue result ↔ IdentitiesAreFew c self.now.block.now) }
    {
        dubp_people_rules::identities_are_few(self.registry, self.block)
    }

    /// The stamp of each identity has a time, and is not too old: rule `G63`.
    pub(crate) fn identities_are_in_time(&self) -> bool
        ensures { (c : Chain) → IsAskedOf self.now c → (IsTrue result ↔ IdentitiesAreInTime c self.now.block.now) }
    {
        dubp_people_rules::identities_are_in_time(self.registry, self.next, self.block)
    }

    /// No UID of Identities stands in an Identities line of the chain: rule `G73`.
    pub(crate) fn uids_are_new(&self) -> bool
        ensures { (c : Chain) → IsAskedOf self.now c → (IsTrue result ↔ UidsAreNew c self.now.block.now) }
    {
        dubp_people_rules::uids_are_new(self.registry, self.block)
    }

    /// No key of Identities stands in an Identities line of the chain: rule `G74`.
    pub(crate) fn identities_are_new(&self) -> bool
        ensures { (c : Chain) → IsAskedOf self.now c → (IsTrue result ↔ IdentitiesAreNew c self.now.block.now) }
    {
        dubp_people_rules::identities_are_new(self.registry, self.block)
    }

    /// The stamp of each membership has a time, and is not too old: rule `G64`.
    pub(crate) fn memberships_are_in_time(&self) -> bool
        ensures { (c : Chain) → IsAskedOf self.now c → (IsTrue result ↔ MembershipsAreInTime c self.now.block.now) }
    {
        dubp_people_rules::memberships_are_in_time(self.registry, self.next, self.block)
    }

    /// Each membership is on a later block than the last one of its key: rule `G75`.
    pub(crate) fn memberships_are_newer(&self) -> bool
        ensures { (c : Chain) → IsAskedOf self.now c → (IsTrue result ↔ MembershipsAreNewer c self.now.block.now) }
    {
        dubp_people_rules::memberships_are_newer(self.registry, self.block)
    }

    /// Version is 10, or each membership is msWindow behind the last one of its key: rule `G108`.
    pub(crate) fn memberships_are_apart(&self) -> bool
        ensures { (c : Chain) → IsAskedOf self.now c → (IsTrue result ↔ MembershipsAreApart c self.now.block.now) }
    {
        dubp_people_rules::memberships_are_apart(self.registry, self.next, self.block)
    }

    /// Each membership has a line of Identities, in the chain or in the block: rule `G82`.
    pub(crate) fn memberships_have_identities(&self) -> bool
        ensures { (c : Chain) → IsAskedOf self.now c → (IsTrue result ↔ MembershipsHaveIdentities c self.now.block.now) }
    {
        dubp_people_after::memberships_have_identities(self.after, self.block)
    }

    /// No key of Joiners is a member of the chain: rule `G78`.
    pub(crate) fn joiners_are_no_members(&self) -> bool
        ensures { (c : Chain) → IsAskedOf self.now c → (IsTrue result ↔ JoinersAreNoMembers c self.now.block.now) }
    {
        dubp_people_rules::joiners_are_no_members(self.registry, self.block)
    }

    /// Each key of Actives is a member of the chain: rule `G81`.
    pub(crate) fn actives_are_members(&self) -> bool
        ensures { (c : Chain) → IsAskedOf self.now c → (IsTrue result ↔ ActivesAreMembers c self.now.block.now) }
    {
        dubp_people_rules::actives_are_members(self.registry, self.block)
    }

    /// Each key of Leavers is a member of the chain and not leaving in it: rule `G80`.
    pub(crate) fn leavers_may_leave(&self) -> bool
        ensures { (c : Chain) → IsAskedOf self.now c → (IsTrue result ↔ LeaversMayLeave c self.now.block.now) }
    {
        dubp_people_rules::leavers_may_leave(self.registry, self.block)
    }

    /// No key of Joiners, Actives or Leavers is revoked in the chain: rule `G77`.
    pub(crate) fn nobody_revoked_moves(&self) -> bool
        ensures { (c : Chain) → IsAskedOf self.now c → (IsTrue result ↔ NobodyRevokedMoves c self.now.block.now) }
    {
        dubp_people_rules::nobody_revoked_moves(self.registry, self.block)
    }

    /// Each key of Revoked has an identity in the chain and is not revoked in it: rule `G83`.
    pub(crate) fn revoked_have_identities(&self) -> bool
        ensures { (c : Chain) → IsAskedOf self.now c → (IsTrue result ↔ RevokedHaveIdentities c self.now.block.now) }
    {
        dubp_people_rules::revoked_have_identities(self.registry, self.block)
    }

    /// Each line of Revoked has a verdict by its key: rule `G84`.
    pub(crate) fn revocations_are_signed(&self) -> bool
        ensures { (c : Chain) → IsAskedOf self.now c → (IsTrue result ↔ RevocationsAreSigned self.now.verdicts.now c self.now.block.now) }
    {
        dubp_people_rules::revocations_are_signed(self.registry, self.block, self.verdicts)
    }

    /// The stamp of each certification has a time, and is not too old: rule `G65`.
    pub(crate) fn certifications_are_in_time(&self) -> bool
        ensures { (c : Chain) → IsAskedOf self.now c → (IsTrue result ↔ CertificationsAreInTime c self.now.block.now) }
    {
        dubp_people_rules::certifications_are_in_time(self.registry, self.next, self.block)
    }

    /// Each issuer of a certification has at most sigStock live certifications issued: rule `G66`.
    pub(crate) fn stocks_are_kept(&self) -> Result<bool, NoMemory>
        ensures { IfOk result (λ holds. (c : Chain) → IsAskedOf self.now c → (IsTrue holds ↔ StocksAreKept c self.now.block.now)) }
    {
        let holds = dubp_people_after::stocks_are_kept(self.alloc, self.after, self.block)?;
        Ok(holds)
    }

    /// Each issuer of a certification is sigPeriod behind its last one: rule `G67`.
    pub(crate) fn issuers_waited(&self) -> bool
        ensures { (c : Chain) → IsAskedOf self.now c → (IsTrue result ↔ IssuersWaited c self.now.block.now) }
    {
        dubp_people_rules::issuers_waited(self.registry, self.next, self.block)
    }

    /// Each issuer of a certification is a member: rule `G68`.
    pub(crate) fn issuers_are_members(&self) -> bool
        ensures { (c : Chain) → IsAskedOf self.now c → (IsTrue result ↔ IssuersAreMembers c self.now.block.now) }
    {
        dubp_people_after::issuers_are_members(self.after, self.block)
    }

    /// Each receiver of a certification is a member of the new chain: rule `G69`.
    pub(crate) fn receivers_are_members(&self) -> bool
        ensures { (c : Chain) → IsAskedOf self.now c → (IsTrue result ↔ ReceiversAreMembers c self.now.block.now) }
    {
        dubp_people_after::receivers_are_members(self.after, self.block)
    }

    /// No receiver of a certification is leaving in the new chain: rule `G70`.
    pub(crate) fn receivers_stay(&self) -> bool
        ensures { (c : Chain) → IsAskedOf self.now c → (IsTrue result ↔ ReceiversStay c self.now.block.now) }
    {
        dubp_people_after::receivers_stay(self.after, self.block)
    }

    /// Each certification of a live pair may renew its last one: rule `G71`.
    pub(crate) fn live_pairs_are_renewed(&self) -> bool
        ensures { (c : Chain) → IsAskedOf self.now c → (IsTrue result ↔ LivePairsAreRenewed c self.now.block.now) }
    {
        dubp_people_rules::live_pairs_are_renewed(self.registry, self.next, self.block)
    }

    /// Each certification has a verdict by its issuer: rule `G72`.
    pub(crate) fn certifications_are_signed(&self) -> bool
        ensures { (c : Chain) → IsAskedOf self.now c → (IsTrue result ↔ CertificationsAreSigned self.now.verdicts.now c self.now.block.now) }
    {
        dubp_people_after::certifications_are_signed(self.after, self.block, self.verdicts)
    }

    /// Each key of Joiners has at least sigQty live certifications received: rule `G79`.
    pub(crate) fn joiners_are_certified(&self) -> Result<bool, NoMemory>
        ensures { IfOk result (λ holds. (c : Chain) → IsAskedOf self.now c → (IsTrue holds ↔ JoinersAreCertified c self.now.block.now)) }
    {
        let holds = dubp_people_after::joiners_are_certified(self.alloc, self.after, self.block)?;
        Ok(holds)
    }

    /// Each key of Joiners and Actives passes the distance rule: rule `G76`.
    pub(crate) fn comers_pass(&self) -> Result<bool, NoMemory>
        requires { (c : Chain) × (IsAskedOf self.now c × (IdentitiesAreFew c self.now.block.now × MembershipsHaveIdentities c self.now.block.now)) }
        ensures { IfOk result (λ holds. (c : Chain) → IsAskedOf self.now c → (IsTrue holds ↔ ComersPass c self.now.block.now)) }
    {
        let holds = crate::judged::comers_pass(
            self.alloc,
            self.registry,
            self.after,
            self.block,
            self.next,
        )?;
        Ok(holds)
    }

    /// Each key of Excluded is one that the chain has to exclude: rule `G85`.
    pub(crate) fn excluded_are_kicked(&self) -> bool
        ensures { (c : Chain) → IsAskedOf self.now c → (IsTrue result ↔ ExcludedAreKicked c self.now.block.now) }
    {
        dubp_people_rules::excluded_are_kicked(self.registry, self.block)
    }

    /// Each key that the chain has to exclude stands in Excluded: rule `G86`.
    pub(crate) fn kicked_are_excluded(&self) -> Result<bool, NoMemory>
        ensures { IfOk result (λ holds. (c : Chain) → IsAskedOf self.now c → (IsTrue holds ↔ KickedAreExcluded c self.now.block.now)) }
    {
        let holds = dubp_people_rules::kicked_are_excluded(self.alloc, self.registry, self.block)?;
        Ok(holds)
    }
}
