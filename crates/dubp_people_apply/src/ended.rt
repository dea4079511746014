ghost use Rattle.std.specs.Prelude.{◌≡◌, ◌∷◌, ◌++◌, map, take, length, OnOk};
ghost use Rattle.dubp_block.specs.declared.block.Block.{Block as BlockValue};
ghost use Rattle.dubp_chain.specs.Chains.{Chain};
ghost use Rattle.dubp_validity.specs.Records.{expiry_records, revocation_records, ended_records};
ghost use Rattle.dubp_validity.specs.Rules.{IsSound};
ghost use Rattle.dubp_validity.specs.declared.record.Record.TheVariants.{Expire, ExpireRev, CertExpire};
ghost use Rattle.dubp_people_apply.specs.Counting.{HasLengths};
ghost use Rattle.dubp_people_apply.specs.Taking.{AreRecorded};

use crate::records::put;
use dubp_atoms::{Key, NoMemory};
use dubp_validity::Record;
use std::collections::BTreeSet;

/// Of whom there is a record that no line names: whose membership is over, who is revoked by time, and which pairs are ended.
#[derive(Drop)]
pub struct Ended {
    pub expired: BTreeSet<Key>,
    pub revoked: BTreeSet<Key>,
    pub ended: BTreeSet<(Key, Key)>,
}

#[tactic(auto, using(crate::proofs::Begins::begins_on))]
fn put_expired(set: &mut BTreeSet<Key>, out: &mut Vec<Record>) -> Result<(), NoMemory>
    ensures appended { OnOk result (out.new.items ≡ out.old.items ++ map Expire set.old.keys) }
    ensures begins { take (length out.old.items) out.new.items ≡ out.old.items }
{
    while let Some(key) = set.pop_first() {
        put(out, Record::Expire { key })?;
    }
    Ok(())
}

#[tactic(auto, using(crate::proofs::Begins::begins_on))]
fn put_revoked(set: &mut BTreeSet<Key>, out: &mut Vec<Record>) -> Result<(), NoMemory>
    ensures appended { OnOk result (out.new.items ≡ out.old.items ++ map ExpireRev set.old.keys) }
    ensures begins { take (length out.old.items) out.new.items ≡ out.old.items }
{
    while let Some(key) = set.pop_first() {
        put(out, Record::ExpireRev { key })?;
    }
    Ok(())
}

#[tactic(auto, using(crate::proofs::Begins::begins_on))]
fn put_pairs(set: &mut BTreeSet<(Key, Key)>, out: &mut Vec<Record>) -> Result<(), NoMemory>
    ensures appended { OnOk result (out.new.items ≡ out.old.items ++ map (λ p. CertExpire p.0 p.1) set.old.keys) }
    ensures begins { take (length out.old.items) out.new.items ≡ out.old.items }
{
    while let Some((from, to)) = set.pop_first() {
        put(out, Record::CertExpire { from, to })?;
    }
    Ok(())
}

/// Appends the records that no line names, each list by key. The sets are empty then.
#[tactic(auto, using(crate::proofs::Begins::begins_on))]
pub(crate) fn put_ended(ended: &mut Ended, out: &mut Vec<Record>) -> Result<(), NoMemory>
    ensures lengths { OnOk result ((c : Chain) (b : BlockValue) → IsSound (b ∷ c) → AreRecorded c b ended.old → HasLengths c b ended.old) }
    ensures records { OnOk result ((c : Chain) (b : BlockValue) → IsSound (b ∷ c) → AreRecorded c b ended.old
        → out.new.items ≡ out.old.items ++ (expiry_records c b ++ (revocation_records c b ++ ended_records c b))) }
    ensures begins { take (length out.old.items) out.new.items ≡ out.old.items }
{
    // That a set is in order is a clause of `len`.
    let _expired = ended.expired.len();
    let _revoked = ended.revoked.len();
    let _ended = ended.ended.len();
    put_expired(&mut ended.expired, out)?;
    put_revoked(&mut ended.revoked, out)?;
    put_pairs(&mut ended.ended, out)
}
