ghost use Rattle.std.specs.Prelude.{◌≡◌, ◌+◌, ◌*◌, ◌≤◌, ◌∷◌, List, Some, map, length, OnOk, IfOk};
ghost use Rattle.dubp_atoms.specs.Same.{Text};
ghost use Rattle.dubp_block.specs.Text.{IsBlock};
ghost use Rattle.dubp_docs.specs.declared.hashing.TxHashes.{TxHashes as TxHashesValue};
ghost use Rattle.dubp_chain.specs.Chains.{Chain};
ghost use Rattle.dubp_chain.specs.Money.{hashes_in, made_sources, dividends_at};
ghost use Rattle.dubp_facts.specs.Facts.{IsNext};
ghost use Rattle.dubp_sindex.specs.Accounts.{accounts};
ghost use Rattle.dubp_money_steps.specs.Steps.{cleared_units_by};
ghost use Rattle.dubp_money_steps.specs.Clearing.{clear_record};
ghost use Rattle.dubp_validity.specs.Records.{clearing_records};
ghost use Rattle.dubp_money.specs.Index.{StandsFor, Stays};
ghost use Rattle.dubp_money.specs.Texts.{Grows};
ghost use Rattle.dubp_money.specs.Blocks.{paid};
ghost use Rattle.dubp_money.specs.Tables.{totals_of};
ghost use Rattle.dubp_money.specs.Applied.{IsApplied, ArePaid, Follows, money_records};

use crate::beside::write_beside;
use crate::blocks::{clear_block, spend_and_make};
use crate::counting::{count_made, units, units_of};
use crate::money::{HashesAndTotals, Totals};
use crate::paying::Payment;
use crate::sources::Sources;
use dubp_atoms::{Key, NoMemory, Steps};
use dubp_block::Block;
use dubp_chain::Head;
use dubp_cond::SourceId;
use dubp_docs::TxHashes;
use dubp_facts::Facts;
use dubp_sindex::{SIndex, SourceRow, SourceRows};
use dubp_undo::Tables;
use std::alloc::Global;
use std::sync::ledger::Ledger as StepBook;

/// What a block wrote into the index of sources: how many sources the chain with it made, and which it cleared, in the order of making,
/// with their units.
#[derive(Drop)]
pub(crate) struct Written {
    pub made: u64,
    pub cleared: u128,
    pub taken: Vec<(SourceId, SourceRow)>,
}

/// What the block, whose head this is, pays to each member.
pub(crate) fn payment_of(block: &Block, head: &Head) -> Option<Payment>
    ensures { (keys : List Text) → paid result keys ≡ dividends_at block.now.number (Some head.now) keys }
{
    match head.ud {
        Some(amount) => {
            Some(Payment {
                amount,
                base: head.unit_base,
                number: block.number,
                time: head.median_time,
            })
        }
        None => None,
    }
}

/// Writes the block, whose head this is, into the index of sources. At most five sets a record of money.
///
/// `made` is how many sources the chain made. What is handed out is exact behind a chain for which the index stands.
fn write_index<L: StepBook>(
    index: &mut SIndex,
    alloc: Global,
    block: &Block,
    head: &Head,
    members: &[Key],
    hashes: &[TxHashes],
    made: u64,
    steps: &mut Steps<L>,
) -> Result<Written, NoMemory>
    requires block { IsBlock block.now }
    requires hashes { map (λ (h : TxHashesValue). h.whole) hashes.now ≡ hashes_in block.now }
    ensures at { OnOk result ((c : Chain) → Follows c block.now head.now members.now made → StandsFor index.old c → StandsFor index.new (block.now ∷ c)) }
    ensures made { IfOk result (λ w. (c : Chain) → Follows c block.now head.now members.now made → StandsFor index.old c → w.made ≡ length (made_sources (block.now ∷ c))) }
    ensures cleared { IfOk result (λ w. (c : Chain) → Follows c block.now head.now members.now made → StandsFor index.old c → w.cleared ≡ cleared_units_by c block.now) }
    ensures taken { IfOk result (λ w. (c : Chain) → Follows c block.now head.now members.now made → StandsFor index.old c → map clear_record w.taken.items ≡ clearing_records c block.now) }
    ensures steps { OnOk result ((c : Chain) → Follows c block.now head.now members.now made → StandsFor index.old c → steps.new ≤ steps.old + 5 * length (money_records c block.now)) }
    ensures texts { Grows (accounts index.old) (accounts index.new) }
    ensures stays { Stays index.old index.new }
    ensures others { ⟦<SIndex as Tables<SourceRows>>⟧.others index.new ≡ ⟦<SIndex as Tables<SourceRows>>⟧.others index.old }
    ensures count { ⟦<SIndex as Tables<SourceRows>>⟧.count index.new + steps.old ≤ ⟦<SIndex as Tables<SourceRows>>⟧.count index.old + steps.new }
{
    let payment = payment_of(block, head);
    let behind = count_made(block, payment, members, made);
    let limit = units(100, head.unit_base);
    spend_and_make(
        index,
        block,
        hashes,
        head.median_time,
        payment,
        members,
        made,
        steps,
    )?;
    let taken = clear_block(index, alloc, limit, steps)?;
    let cleared = units_of(taken.as_slice());
    Ok(Written {
        made: behind,
        cleared,
        taken,
    })
}

/// The same in the tables of the sources. What is kept stays so.
fn write_sources<L: StepBook>(
    sources: &mut Sources,
    alloc: Global,
    block: &Block,
    head: &Head,
    members: &[Key],
    hashes: &[TxHashes],
    made: u64,
    steps: &mut Steps<L>,
) -> Result<Written, NoMemory>
    requires block { IsBlock block.now }
    requires hashes { map (λ (h : TxHashesValue). h.whole) hashes.now ≡ hashes_in block.now }
    ensures at { OnOk result ((c : Chain) → Follows c block.now head.now members.now made → ⟦<Sources as Tables<Block>>⟧.at sources.old c → ⟦<Sources as Tables<Block>>⟧.at sources.new (block.now ∷ c)) }
    ensures made { IfOk result (λ w. (c : Chain) → Follows c block.now head.now members.now made → ⟦<Sources as Tables<Block>>⟧.at sources.old c → w.made ≡ length (made_sources (block.now ∷ c))) }
    ensures cleared { IfOk result (λ w. (c : Chain) → Follows c block.now head.now members.now made → ⟦<Sources as Tables<Block>>⟧.at sources.old c → w.cleared ≡ cleared_units_by c block.now) }
    ensures taken { IfOk result (λ w. (c : Chain) → Follows c block.now head.now members.now made → ⟦<Sources as Tables<Block>>⟧.at sources.old c → map clear_record w.taken.items ≡ clearing_records c block.now) }
    ensures others { ⟦<Sources as Tables<Block>>⟧.others sources.new ≡ ⟦<Sources as Tables<Block>>⟧.others sources.old }
    ensures count { ⟦<Sources as Tables<Block>>⟧.count sources.new + steps.old ≤ ⟦<Sources as Tables<Block>>⟧.count sources.old + steps.new }
    ensures stays { (n : ⟦<Sources as Tables<Block>>⟧.Now) (c : Chain) → ⟦<Sources as Tables<Block>>⟧.is (⟦<Sources as Tables<Block>>⟧.names sources.old) n c → ⟦<Sources as Tables<Block>>⟧.is (⟦<Sources as Tables<Block>>⟧.names sources.new) n c }
    ensures steps { OnOk result ((c : Chain) → Follows c block.now head.now members.now made → ⟦<Sources as Tables<Block>>⟧.at sources.old c → steps.new ≤ steps.old + 5 * length (money_records c block.now)) }
{
    write_index(
        &mut sources.index,
        alloc,
        block,
        head,
        members,
        hashes,
        made,
        steps,
    )
}

/// The totals of a chain with a block, whose head this is, from the units that the chain cleared, those that the block cleared and how many
/// sources were made, where no more was cleared than the head says was issued.
fn totals_with(before: u128, head: &Head, cleared: u128, made: u64) -> Totals
    ensures issued { result.issued ≡ head.now.mass }
    ensures whole { before + cleared ≤ head.now.mass → head.now.mass ≡ result.unspent + result.cleared }
    ensures cleared { before + cleared ≤ head.now.mass → result.cleared ≡ before + cleared }
    ensures made { result.made ≡ made }
{
    let cleared = before.saturating_add(cleared);
    Totals {
        issued: head.mass,
        unspent: head.mass.saturating_sub(cleared),
        cleared,
        made,
    }
}

/// Writes the block, whose head this is, into the facts.
fn write_facts<L: StepBook>(
    facts: &mut Facts,
    block: &Block,
    head: &Head,
    steps: &mut Steps<L>,
) -> Result<(), NoMemory>
    ensures at { OnOk result ((c : Chain) → ⟦<Facts as Tables<Block>>⟧.at facts.old c → IsNext c block.now head.now → ⟦<Facts as Tables<Block>>⟧.at facts.new (block.now ∷ c)) }
    ensures others { ⟦<Facts as Tables<Block>>⟧.others facts.new ≡ ⟦<Facts as Tables<Block>>⟧.others facts.old }
    ensures count { ⟦<Facts as Tables<Block>>⟧.count facts.new + steps.old ≤ ⟦<Facts as Tables<Block>>⟧.count facts.old + steps.new }
    ensures steps { OnOk result (steps.new ≤ steps.old + 2) }
{
    facts.write(block, head, steps)?;
    Ok(())
}

/// Writes the block, whose head this is, into the sources, the tables beside them and the facts, and hands out the sources that it clears,
/// in the order of making.
///
/// `before` are the totals of the chain. What is kept stays so.
pub(crate) fn write_all<L: StepBook>(
    sources: &mut Sources,
    beside: &mut HashesAndTotals,
    facts: &mut Facts,
    alloc: Global,
    block: &Block,
    head: &Head,
    members: &[Key],
    hashes: &[TxHashes],
    before: Totals,
    steps: &mut Steps<L>,
) -> Result<Vec<(SourceId, SourceRow)>, NoMemory>
    requires block { IsBlock block.now }
    requires hashes { map (λ (h : TxHashesValue). h.whole) hashes.now ≡ hashes_in block.now }
    ensures at { OnOk result ((c : Chain) → IsApplied c block.now head.now → ArePaid (block.now ∷ c) head.now members.now → before ≡ totals_of c → ⟦<Sources as Tables<Block>>⟧.at sources.old c → ⟦<HashesAndTotals as Tables<Block>>⟧.at beside.old c → ⟦<Facts as Tables<Block>>⟧.at facts.old c → ⟦<Sources as Tables<Block>>⟧.at sources.new (block.now ∷ c) × ⟦<HashesAndTotals as Tables<Block>>⟧.at beside.new (block.now ∷ c) × ⟦<Facts as Tables<Block>>⟧.at facts.new (block.now ∷ c)) }
    ensures taken { IfOk result (λ taken. (c : Chain) → IsApplied c block.now head.now → ArePaid (block.now ∷ c) head.now members.now → before ≡ totals_of c → ⟦<Sources as Tables<Block>>⟧.at sources.old c → map clear_record taken.items ≡ clearing_records c block.now) }
    ensures sources_others { ⟦<Sources as Tables<Block>>⟧.others sources.new ≡ ⟦<Sources as Tables<Block>>⟧.others sources.old }
    ensures beside_others { ⟦<HashesAndTotals as Tables<Block>>⟧.others beside.new ≡ ⟦<HashesAndTotals as Tables<Block>>⟧.others beside.old }
    ensures facts_others { ⟦<Facts as Tables<Block>>⟧.others facts.new ≡ ⟦<Facts as Tables<Block>>⟧.others facts.old }
    ensures count { ⟦<Sources as Tables<Block>>⟧.count sources.new + ⟦<HashesAndTotals as Tables<Block>>⟧.count beside.new + ⟦<Facts as Tables<Block>>⟧.count facts.new + steps.old ≤ ⟦<Sources as Tables<Block>>⟧.count sources.old + ⟦<HashesAndTotals as Tables<Block>>⟧.count beside.old + ⟦<Facts as Tables<Block>>⟧.count facts.old + steps.new }
    ensures stays { (n : ⟦<Sources as Tables<Block>>⟧.Now) (c : Chain) → ⟦<Sources as Tables<Block>>⟧.is (⟦<Sources as Tables<Block>>⟧.names sources.old) n c → ⟦<Sources as Tables<Block>>⟧.is (⟦<Sources as Tables<Block>>⟧.names sources.new) n c }
    ensures steps { OnOk result ((c : Chain) → IsApplied c block.now head.now → ArePaid (block.now ∷ c) head.now members.now → before ≡ totals_of c → ⟦<Sources as Tables<Block>>⟧.at sources.old c → steps.new ≤ steps.old + (5 * length (money_records c block.now) + (length hashes.now + 3))) }
{
    let written = write_sources(
        sources,
        alloc,
        block,
        head,
        members,
        hashes,
        before.made,
        steps,
    )?;
    let totals = totals_with(before.cleared, head, written.cleared, written.made);
    write_beside(beside, hashes, totals, steps)?;
    write_facts(facts, block, head, steps)?;
    Ok(written.taken)
}
