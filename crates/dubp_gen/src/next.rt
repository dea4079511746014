ghost use Rattle.std.specs.Prelude.{◌≡◌, ◌^◌, ◌<◌, ◌≤◌, ◌∷◌, ◌++◌, [], ℕ, length, Err, IfOk, IfErr, OnOk};
ghost use Rattle.dubp_block.specs.Text.{IsBlock, size_of};
ghost use Rattle.dubp_block.specs.declared.block.Block.{Block as BlockValue};
ghost use Rattle.dubp_drafts.specs.Drafting.{with_parameters};
ghost use Rattle.dubp_drafts.specs.Sealing.{IsSealed, IsSealing};
ghost use Rattle.dubp_gen.specs.declared.chain.GenRefusal.TheVariants.{NoNonce};
ghost use Rattle.dubp_gen.specs.Generated.{EndsWith, HasNoNonce, HasNoSeal, IsMadeNext, IsRefused, next_draft, next_given, number_at, with_given};
ghost use Rattle.dubp_gen.specs.Making.{HasGrown, IsOfMade, IsSealedBlock, Joins, made_in};
ghost use Rattle.dubp_ledger.specs.OfKept.{with_block};
ghost use Rattle.dubp_validity.specs.LocalRules.{InnerHashIsRight};

use crate::chain::GenRefusal;
use crate::spending::first_source;
use dubp_atoms::{Hash, Key, NoMemory, Sig, Steps};
use dubp_block::{Block, put_block};
use dubp_drafts::{Draft, SealRefusal, Sealed, draft, first_draft, payer, seal, seal_hashed};
use dubp_ledger::{Ledger, PeopleAndMoney, SubmitRefusal};
use dubp_rules::Rule;
use dubp_verdict::Verdicts;
use std::alloc::Global;
use std::sync::ledger::Ledger as StepBook;

/// The most bytes that the text of a block has.
const LONGEST_BLOCK: usize = 1_048_576;

/// Makes the next block, whose number in the run is `x`, in the ledger, and notes its verdicts behind those of the blocks before it. The
/// verdicts are those that were noted. After a refusal none of the three is of use.
pub(crate) fn make_next<T: PeopleAndMoney, L: StepBook>(
    alloc: Global,
    ledger: &mut Ledger<T>,
    verdicts: &mut Verdicts,
    x: u64,
    noted: &mut Vec<(Key, Hash, Sig)>,
    steps: &mut Steps<L>,
) -> Result<(), GenRefusal>
    requires few { length ledger.old.chain < 5000 }
    ensures made { OnOk result ((start : ℕ) → IsOfMade start ledger.old verdicts.old x noted.old.items → (b : BlockValue) × IsMadeNext start (made_in ledger.old noted.old.items) b (made_in ledger.new noted.new.items)) }
    ensures ledger { OnOk result (HasGrown ledger.old ledger.new) }
    ensures verdicts { OnOk result ((start : ℕ) → IsOfMade start ledger.old verdicts.old x noted.old.items → verdicts.new ≡ with_given [] noted.new.items) }
    ensures ended { IfErr result (λ refusal. (start : ℕ) → IsOfMade start ledger.old verdicts.old x noted.old.items → EndsWith start (made_in ledger.old noted.old.items) refusal) }
{
    let Ok(drafted) = draft_next(alloc, ledger, x) else {
        return Err(GenRefusal::NoMemory);
    };
    let Draft {
        block,
        verdicts: given,
    } = drafted;
    let sealed = seal_next(ledger, block)?;
    let Ok(()) = note_all(verdicts, noted, given.as_slice()) else {
        return Err(GenRefusal::NoMemory);
    };
    let own = (sealed.key, sealed.message, sealed.sig);
    let Ok(()) = note(verdicts, noted, own) else {
        return Err(GenRefusal::NoMemory);
    };
    join(alloc, ledger, verdicts, sealed.block, steps)
}

/// What the next block says before it gets its header.
fn draft_next<T: PeopleAndMoney>(
    alloc: Global,
    ledger: &Ledger<T>,
    x: u64,
) -> Result<Draft, NoMemory>
    requires few { length ledger.now.chain < 5000 }
    ensures block { IfOk result (λ d. (start : ℕ) → x ≡ number_at start (length ledger.now.chain) → d.block ≡ next_draft start ledger.now.chain) }
    ensures given { IfOk result (λ d. (start : ℕ) → x ≡ number_at start (length ledger.now.chain) → d.verdicts.items ≡ next_given start ledger.now.chain) }
    ensures valid { IfOk result (λ d. IsBlock (with_parameters d.block)) }
    ensures size { IfOk result (λ d. size_of d.block < 2 ^ 53) }
    ensures joiners { IfOk result (λ d. length d.block.joiners ≤ 65536) }
    ensures first { IfOk result (λ d. ledger.now.chain ≡ [] → IsBlock d.block) }
{
    ledger.laws();
    match ledger.stamp_before(0) {
        None => {
            let drafted = first_draft(alloc)?;
            Ok(drafted)
        }
        Some(stamp) => {
            let source = first_source(ledger.tables(), payer(x));
            let drafted = draft(alloc, ledger.len() as u64, x, &stamp, source)?;
            Ok(drafted)
        }
    }
}

/// The next block, sealed: the draft as it is for an empty chain, else filled, for the difficulty of its issuer.
fn seal_next<T: PeopleAndMoney>(ledger: &Ledger<T>, draft: Block) -> Result<Sealed, GenRefusal>
    requires valid { IsBlock (with_parameters draft) }
    requires size { size_of draft < 2 ^ 53 }
    requires joiners { length draft.joiners ≤ 65536 }
    requires first { ledger.now.chain ≡ [] → IsBlock draft }
    ensures sealed { IfOk result (IsSealedBlock ledger.now.chain draft) }
    ensures block { IfOk result (λ s. IsBlock s.block) }
    ensures ended { IfErr result (HasNoSeal ledger.now.chain draft) }
{
    if ledger.len() == 0 {
        seal_first(ledger, draft)
    } else {
        seal_later(ledger, draft)
    }
}

/// The same for an empty chain.
fn seal_first<T: PeopleAndMoney>(ledger: &Ledger<T>, draft: Block) -> Result<Sealed, GenRefusal>
    requires empty { ledger.now.chain ≡ [] }
    requires block { IsBlock draft }
    ensures sealed { IfOk result (IsSealedBlock ledger.now.chain draft) }
    ensures block { IfOk result (λ s. IsBlock s.block) }
    ensures ended { IfErr result (HasNoSeal ledger.now.chain draft) }
{
    match seal(draft, 0) {
        Ok(sealed) => Ok(sealed),
        Err(refusal) => Err(unsealed(refusal, ledger.len() as u64)),
    }
}

/// The same for a chain that has blocks.
fn seal_later<T: PeopleAndMoney>(ledger: &Ledger<T>, draft: Block) -> Result<Sealed, GenRefusal>
    requires some { 1 ≤ length ledger.now.chain }
    requires valid { IsBlock (with_parameters draft) }
    requires size { size_of draft < 2 ^ 53 }
    requires joiners { length draft.joiners ≤ 65536 }
    ensures sealed { IfOk result (IsSealedBlock ledger.now.chain draft) }
    ensures block { IfOk result (λ s. IsBlock s.block) }
    ensures ended { IfErr result (HasNoSeal ledger.now.chain draft) }
{
    let number = ledger.len() as u64;
    let Ok(block) = ledger.fill(draft) else {
        return Err(GenRefusal::NoMemory);
    };
    match ledger.difficulty(block.issuer) {
        Ok(Some(difficulty)) => seal_for(block, difficulty, number),
        Ok(None) => Err(GenRefusal::Invalid {
            block: number,
            rule: Rule::G101,
        }),
        Err(NoMemory) => Err(GenRefusal::NoMemory),
    }
}

/// Seals the block of this number, which has its inner hash, for a difficulty.
fn seal_for(block: Block, difficulty: u128, number: u64) -> Result<Sealed, GenRefusal>
    requires text { IsBlock block }
    requires inner { InnerHashIsRight block }
    ensures sealed { IfOk result (IsSealed block difficulty) }
    ensures block { IfOk result (λ s. IsBlock s.block) }
    ensures ended { IfErr result (λ refusal. (refusal ≡ NoNonce number) × HasNoNonce block difficulty) }
{
    match seal_hashed(block, difficulty) {
        Ok(sealed) => Ok(sealed),
        Err(refusal) => Err(unsealed(refusal, number)),
    }
}

/// The refusal of the chain, where the block of this number got no seal.
fn unsealed(refusal: SealRefusal, number: u64) -> GenRefusal
    ensures { (draft : BlockValue) (d : ℕ) → IsSealing draft d (Err refusal) → (result ≡ NoNonce number) × HasNoNonce draft d }
{
    match refusal {
        SealRefusal::NoNonce => GenRefusal::NoNonce { block: number },
        SealRefusal::NoMemory => GenRefusal::NoMemory,
    }
}

/// Gives these verdicts, and notes that they were given.
fn note_all(
    verdicts: &mut Verdicts,
    noted: &mut Vec<(Key, Hash, Sig)>,
    given: &[(Key, Hash, Sig)],
) -> Result<(), NoMemory>
    ensures given { OnOk result (verdicts.new ≡ with_given verdicts.old given.now) }
    ensures noted { OnOk result (noted.new.items ≡ noted.old.items ++ given.now) }
{
    for verdict in given {
        note(verdicts, noted, *verdict)?;
    }
    Ok(())
}

fn note(
    verdicts: &mut Verdicts,
    noted: &mut Vec<(Key, Hash, Sig)>,
    given: (Key, Hash, Sig),
) -> Result<(), NoMemory>
    ensures given { OnOk result (verdicts.new ≡ with_given verdicts.old (given ∷ [])) }
    ensures noted { OnOk result (noted.new.items ≡ noted.old.items ++ given ∷ []) }
{
    let (key, hash, sig) = given;
    verdicts.add(key, hash, sig)?;
    noted.push((key, hash, sig)).map_err(|_| NoMemory)
}

/// The block, which has its inner hash, joins the ledger, where it is not too long and breaks no rule.
fn join<T: PeopleAndMoney, L: StepBook>(
    alloc: Global,
    ledger: &mut Ledger<T>,
    verdicts: &Verdicts,
    block: Block,
    steps: &mut Steps<L>,
) -> Result<(), GenRefusal>
    requires text { IsBlock block }
    requires inner { InnerHashIsRight block }
    ensures joined { OnOk result (Joins verdicts.now ledger.old.chain block) }
    ensures ledger { OnOk result (ledger.new ≡ with_block block ledger.old) }
    ensures ended { IfErr result (IsRefused verdicts.now ledger.old.chain block) }
{
    let number = ledger.len() as u64;
    let Ok(text) = put_block(alloc, &block) else {
        return Err(GenRefusal::NoMemory);
    };
    if text.len() > LONGEST_BLOCK {
        return Err(GenRefusal::Invalid {
            block: number,
            rule: Rule::X01,
        });
    }
    let inner = block.inner_hash;
    match ledger.submit_read(block, &inner, verdicts, steps) {
        Ok(_) => Ok(()),
        Err(SubmitRefusal::Refused { rule, .. }) => Err(GenRefusal::Invalid {
            block: number,
            rule,
        }),
        Err(SubmitRefusal::NoMemory { .. }) => Err(GenRefusal::NoMemory),
    }
}
