ghost use Rattle.std.specs.Prelude.{IfOk};
ghost use Rattle.dubp_rules.specs.First.{FirstOf};
ghost use Rattle.dubp_chain.specs.Chains.{Chain};
ghost use Rattle.dubp_validity.specs.Rules.{Holds};
ghost use Rattle.dubp_validity.specs.PeopleRules.{IdentitiesAreFew, MembershipsHaveIdentities};
ghost use Rattle.dubp_people_after.specs.PeopleRules.{people_rules};
ghost use Rattle.dubp_people_checks.specs.Asking.{IsAskedOf};
ghost use Rattle.dubp_people_checks.specs.RuleParts.{identity_rules, membership_rules, certification_rules, comer_rules};

use crate::asked::Asked;
use dubp_atoms::NoMemory;
use dubp_rules::{Rule, first_of};

/// The first of the rules on people, in the order of the table, whose check fails. None where each holds.
///
/// `NoMemory` where there is none for a check; then no rule before that check's is broken.
pub(crate) fn first_broken(checks: &Asked) -> Result<Option<Rule>, NoMemory>
    requires { (c : Chain) × IsAskedOf checks.now c }
    ensures { IfOk result (λ found. (c : Chain) → IsAskedOf checks.now c → FirstOf (Holds checks.now.verdicts.now c checks.now.block.now) people_rules found) }
{
    if let Some(rule) = first_of_identities(checks) {
        return Ok(Some(rule));
    }
    if let Some(rule) = first_of_memberships(checks) {
        return Ok(Some(rule));
    }
    if let Some(rule) = first_of_certifications(checks)? {
        return Ok(Some(rule));
    }
    let found = first_of_comers(checks)?;
    Ok(found)
}

fn first_of_identities(checks: &Asked) -> Option<Rule>
    ensures { (c : Chain) → IsAskedOf checks.now c → FirstOf (Holds checks.now.verdicts.now c checks.now.block.now) identity_rules result }
{
    first_of!(
        Rule::X06 => checks.identities_are_few(),
        Rule::G63 => checks.identities_are_in_time(),
        Rule::G73 => checks.uids_are_new(),
        Rule::G74 => checks.identities_are_new(),
    )
}

fn first_of_memberships(checks: &Asked) -> Option<Rule>
    ensures { (c : Chain) → IsAskedOf checks.now c → FirstOf (Holds checks.now.verdicts.now c checks.now.block.now) membership_rules result }
{
    first_of!(
        Rule::G64 => checks.memberships_are_in_time(),
        Rule::G75 => checks.memberships_are_newer(),
        Rule::G108 => checks.memberships_are_apart(),
        Rule::G82 => checks.memberships_have_identities(),
        Rule::G78 => checks.joiners_are_no_members(),
        Rule::G81 => checks.actives_are_members(),
        Rule::G80 => checks.leavers_may_leave(),
        Rule::G77 => checks.nobody_revoked_moves(),
        Rule::G83 => checks.revoked_have_identities(),
        Rule::G84 => checks.revocations_are_signed(),
    )
}

fn first_of_certifications(checks: &Asked) -> Result<Option<Rule>, NoMemory>
    ensures { IfOk result (λ found. (c : Chain) → IsAskedOf checks.now c → FirstOf (Holds checks.now.verdicts.now c checks.now.block.now) certification_rules found) }
{
    Ok(first_of!(
        Rule::G65 => checks.certifications_are_in_time(),
        Rule::G66 => checks.stocks_are_kept()?,
        Rule::G67 => checks.issuers_waited(),
        Rule::G68 => checks.issuers_are_members(),
        Rule::G69 => checks.receivers_are_members(),
        Rule::G70 => checks.receivers_stay(),
        Rule::G71 => checks.live_pairs_are_renewed(),
        Rule::G72 => checks.certifications_are_signed(),
    ))
}

fn first_of_comers(checks: &Asked) -> Result<Option<Rule>, NoMemory>
    requires few { (c : Chain) × (IsAskedOf checks.now c × (IdentitiesAreFew c checks.now.block.now × MembershipsHaveIdentities c checks.now.block.now)) }
    ensures { IfOk result (λ found. (c : Chain) → IsAskedOf checks.now c → FirstOf (Holds checks.now.verdicts.now c checks.now.block.now) comer_rules found) }
{
    Ok(first_of!(
        Rule::G79 => checks.joiners_are_certified()?,
        Rule::G76 => checks.comers_pass()?,
        Rule::G85 => checks.excluded_are_kicked(),
        Rule::G86 => checks.kicked_are_excluded()?,
    ))
}
