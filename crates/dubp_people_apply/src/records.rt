ghost use Rattle.std.specs.Prelude.{◌≡◌, [], ◌∷◌, ◌++◌, map, unwrap_or, take, length, OnOk};
ghost use Rattle.std.specs.List.{flat_map};
ghost use Rattle.dubp_chain.specs.Chains.{Chain};
ghost use Rattle.dubp_steps.specs.AfterLines.{certification_time};
ghost use Rattle.dubp_validity.specs.Records.{membership_time, line_records};
ghost use Rattle.dubp_validity.specs.Rules.{IsSound};
ghost use Rattle.dubp_validity.specs.declared.record.Record.TheVariants.{Create, Enter, Exit, Join, Active, Leave, Revoke, Cert};

use dubp_atoms::{Key, NoMemory};
use dubp_block::{Block, CertLine, IdentityLine, MemberLine, RevokedLine};
use dubp_left::Facts;
use dubp_moving::Tables;
use dubp_validity::Record;

/// When the membership of the line was made, in seconds: 0 where no block has its stamp.
pub(crate) fn time_of_membership(facts: &Facts, block: &Block, line: &MemberLine) -> u64
    ensures { (c : Chain) → ⟦<Facts as Tables<Block>>⟧.at facts.now c → IsSound c → result ≡ membership_time c block.now line.now }
{
    facts.made(block, &line.stamp).unwrap_or(0)
}

/// When the certification of the line was made, in seconds: 0 where no block has its number.
pub(crate) fn time_of_certification(facts: &Facts, block: &Block, line: &CertLine) -> u64
    ensures { (c : Chain) → ⟦<Facts as Tables<Block>>⟧.at facts.now c → result ≡ certification_time c block.now line.now }
{
    facts.certification_made(block, line).unwrap_or(0)
}

/// The record is the last.
pub(crate) fn put(out: &mut Vec<Record>, last: Record) -> Result<(), NoMemory>
    ensures appended { OnOk result (out.new.items ≡ out.old.items ++ last ∷ []) }
    ensures begins { take (length out.old.items) out.new.items ≡ out.old.items }
{
    out.push(last).map_err(|_| NoMemory)
}

#[tactic(auto, using(crate::proofs::Begins::begins_behind))]
fn put_identities(lines: &[IdentityLine], out: &mut Vec<Record>) -> Result<(), NoMemory>
    ensures appended { OnOk result (out.new.items ≡ out.old.items ++ map (λ line. Create line.key line.uid line.stamp) lines.now) }
    ensures begins { take (length out.old.items) out.new.items ≡ out.old.items }
{
    for line in lines {
        let create = Record::Create {
            key: line.key,
            uid: line.uid,
            stamp: line.stamp,
        };
        put(out, create)?;
    }
    Ok(())
}

// The two records of a line of Joiners.
#[tactic(auto, using(crate::proofs::Begins::begins_on))]
fn put_joiner(
    facts: &Facts,
    block: &Block,
    line: &MemberLine,
    out: &mut Vec<Record>,
) -> Result<(), NoMemory>
    ensures appended { OnOk result ((c : Chain) → ⟦<Facts as Tables<Block>>⟧.at facts.now c → IsSound c
        → out.new.items ≡ out.old.items ++ (Enter line.now.key ∷ Join line.now.key (membership_time c block.now line.now) ∷ [])) }
    ensures begins { take (length out.old.items) out.new.items ≡ out.old.items }
{
    put(out, Record::Enter { key: line.key })?;
    let made = time_of_membership(facts, block, line);
    put(
        out,
        Record::Join {
            key: line.key,
            made,
        },
    )
}

#[tactic(auto, using(crate::proofs::Begins::begins_on))]
fn put_joiners(
    facts: &Facts,
    block: &Block,
    lines: &[MemberLine],
    out: &mut Vec<Record>,
) -> Result<(), NoMemory>
    ensures appended { OnOk result ((c : Chain) → ⟦<Facts as Tables<Block>>⟧.at facts.now c → IsSound c
        → out.new.items ≡ out.old.items ++ flat_map (λ line. Enter line.key ∷ Join line.key (membership_time c block.now line) ∷ []) lines.now) }
    ensures begins { take (length out.old.items) out.new.items ≡ out.old.items }
{
    for line in lines {
        put_joiner(facts, block, line, out)?;
    }
    Ok(())
}

#[tactic(auto, using(crate::proofs::Begins::begins_on))]
fn put_actives(
    facts: &Facts,
    block: &Block,
    lines: &[MemberLine],
    out: &mut Vec<Record>,
) -> Result<(), NoMemory>
    ensures appended { OnOk result ((c : Chain) → ⟦<Facts as Tables<Block>>⟧.at facts.now c → IsSound c
        → out.new.items ≡ out.old.items ++ map (λ line. Active line.key (membership_time c block.now line)) lines.now) }
    ensures begins { take (length out.old.items) out.new.items ≡ out.old.items }
{
    for line in lines {
        let made = time_of_membership(facts, block, line);
        put(
            out,
            Record::Active {
                key: line.key,
                made,
            },
        )?;
    }
    Ok(())
}

#[tactic(auto, using(crate::proofs::Begins::begins_on))]
fn put_leavers(
    facts: &Facts,
    block: &Block,
    lines: &[MemberLine],
    out: &mut Vec<Record>,
) -> Result<(), NoMemory>
    ensures appended { OnOk result ((c : Chain) → ⟦<Facts as Tables<Block>>⟧.at facts.now c → IsSound c
        → out.new.items ≡ out.old.items ++ map (λ line. Leave line.key (membership_time c block.now line)) lines.now) }
    ensures begins { take (length out.old.items) out.new.items ≡ out.old.items }
{
    for line in lines {
        let made = time_of_membership(facts, block, line);
        put(
            out,
            Record::Leave {
                key: line.key,
                made,
            },
        )?;
    }
    Ok(())
}

#[tactic(auto, using(crate::proofs::Begins::begins_behind))]
fn put_revoked(lines: &[RevokedLine], out: &mut Vec<Record>) -> Result<(), NoMemory>
    ensures appended { OnOk result (out.new.items ≡ out.old.items ++ map (λ line. Revoke line.key) lines.now) }
    ensures begins { take (length out.old.items) out.new.items ≡ out.old.items }
{
    for line in lines {
        put(out, Record::Revoke { key: line.key })?;
    }
    Ok(())
}

#[tactic(auto, using(crate::proofs::Begins::begins_behind))]
fn put_excluded(keys: &[Key], out: &mut Vec<Record>) -> Result<(), NoMemory>
    ensures appended { OnOk result (out.new.items ≡ out.old.items ++ map Exit keys.now) }
    ensures begins { take (length out.old.items) out.new.items ≡ out.old.items }
{
    for key in keys {
        put(out, Record::Exit { key: *key })?;
    }
    Ok(())
}

#[tactic(auto, using(crate::proofs::Begins::begins_on))]
fn put_certifications(
    facts: &Facts,
    block: &Block,
    lines: &[CertLine],
    out: &mut Vec<Record>,
) -> Result<(), NoMemory>
    ensures appended { OnOk result ((c : Chain) → ⟦<Facts as Tables<Block>>⟧.at facts.now c
        → out.new.items ≡ out.old.items ++ map (λ line. Cert line.from line.to (certification_time c block.now line)) lines.now) }
    ensures begins { take (length out.old.items) out.new.items ≡ out.old.items }
{
    for line in lines {
        let made = time_of_certification(facts, block, line);
        let cert = Record::Cert {
            from: line.from,
            to: line.to,
            made,
        };
        put(out, cert)?;
    }
    Ok(())
}

// The records of the sections of memberships.
#[tactic(auto, using(crate::proofs::Begins::begins_on))]
fn put_memberships(facts: &Facts, block: &Block, out: &mut Vec<Record>) -> Result<(), NoMemory>
    ensures appended { OnOk result ((c : Chain) → ⟦<Facts as Tables<Block>>⟧.at facts.now c → IsSound c
        → out.new.items ≡ ((out.old.items ++ flat_map (λ line. Enter line.key ∷ Join line.key (membership_time c block.now line) ∷ []) block.now.joiners)
        ++ map (λ line. Active line.key (membership_time c block.now line)) block.now.actives)
        ++ map (λ line. Leave line.key (membership_time c block.now line)) block.now.leavers) }
    ensures begins { take (length out.old.items) out.new.items ≡ out.old.items }
{
    put_joiners(facts, block, block.joiners.as_slice(), out)?;
    put_actives(facts, block, block.actives.as_slice(), out)?;
    put_leavers(facts, block, block.leavers.as_slice(), out)
}

/// Appends the records of the lines of the block, section by section, where the facts are those of the chain below it.
///
/// `NoMemory` where there is no room for them; some may have been appended then, behind what was there.
#[tactic(auto, using(crate::proofs::Begins::begins_on))]
pub fn put_line_records(facts: &Facts, block: &Block, out: &mut Vec<Record>) -> Result<(), NoMemory>
    ensures appended { OnOk result ((c : Chain) → ⟦<Facts as Tables<Block>>⟧.at facts.now c → IsSound c → out.new.items ≡ out.old.items ++ line_records c block.now) }
    ensures begins { take (length out.old.items) out.new.items ≡ out.old.items }
{
    put_identities(block.identities.as_slice(), out)?;
    put_memberships(facts, block, out)?;
    put_revoked(block.revoked.as_slice(), out)?;
    put_excluded(block.excluded.as_slice(), out)?;
    put_certifications(facts, block, block.certifications.as_slice(), out)
}
