ghost use Rattle.std.specs.Prelude.{◌≡◌, ◌≤◌, ◌++◌, List, ℕ, Option, None, OnOk, OnErr, IfOk, length, map, min, reverse};
ghost use Rattle.std.specs.List.{AllByRecursion};
ghost use Rattle.dubp_block.specs.Text.{IsBlock};
ghost use Rattle.dubp_gen.specs.OfLedger.{IsShort};
ghost use Rattle.dubp_validity.specs.LocalRules.{InnerHashIsRight};
ghost use Rattle.dubp_gen.specs.Generated.{Ends, IsMade};
ghost use Rattle.dubp_gen.specs.Making.{made_in, made_of};
ghost use Rattle.dubp_entries.specs.Run.{at};
ghost use Rattle.dubp_session.specs.Forms.{GenEnds, GenFaults, IsWritten};
ghost use Rattle.dubp_replay.specs.Turns.{State, branches_of};
ghost use Rattle.dubp_turns.specs.Given.{IsGivenAll, block_given, verdict_given};
ghost use Rattle.dubp_turns.specs.TakenOver.{HasNoBlock};
ghost use Rattle.dubp_session.specs.Generating.{IsGivenFront, IsGivenWhole, commands_of, shown_text};

use crate::texts::{asked_for, no_block, no_nonce};
use arrayvec::ArrayVec;
use dubp_atoms::{Hash, Key, Line, NoMemory, Sig, Steps};
use dubp_block::Block;
use dubp_block::laws::blocks_have_one_text;
use dubp_gen::{Chain, GenRefusal, Ledger, PeopleAndMoney, make_chain, make_ledger};
use dubp_outside::{Sink, write_whole};
use dubp_turns::{Node, head_line};
use std::alloc::Global;
use std::sync::ledger::Ledger as StepBook;

/// How a run that generates ends.
#[derive(Clone, Copy, PartialEq, Eq)]
pub enum GenEnding {
    /// The three lines were written, or the one that says at which block the making ends.
    Written,
    WriteFault,
    /// There was no room, and nothing was written.
    NoRoom,
}

/// Makes the chain of `n` blocks that begins with the number `start`, gives it to the node, and writes its head and its money; or writes at
/// which block the making ends.
pub fn generate<T: PeopleAndMoney, K: Sink, L: StepBook>(
    alloc: Global,
    n: u64,
    start: u64,
    sink: &mut K,
    node: &mut Node<T>,
    steps: &mut Steps<L>,
) -> GenEnding
    requires { n ≤ 5000 }
    ensures ends { (left : Option (List ℕ)) → GenEnds n start (at node.old left (K.held sink.old)) (at node.new left (K.held sink.new)) result }
    ensures faults { GenFaults (K.faults sink.old) (K.faults sink.new) result }
{
    if node.is_empty() {
        generate_first(alloc, n, start, sink, node, steps)
    } else {
        generate_behind(alloc, n, start, sink, node, steps)
    }
}

/// The same for a node that has no block: it takes over the ledger in which the blocks were made, so each of them is judged once.
fn generate_first<T: PeopleAndMoney, K: Sink, L: StepBook>(
    alloc: Global,
    n: u64,
    start: u64,
    sink: &mut K,
    node: &mut Node<T>,
    steps: &mut Steps<L>,
) -> GenEnding
    requires few { n ≤ 5000 }
    requires empty { HasNoBlock (branches_of node.old) }
    ensures ends { (left : Option (List ℕ)) → GenEnds n start (at node.old left (K.held sink.old)) (at node.new left (K.held sink.new)) result }
    ensures faults { GenFaults (K.faults sink.old) (K.faults sink.new) result }
{
    let mut ledger = Ledger::with_secret(alloc, node.secret());
    match make_ledger(alloc, n, start, &mut ledger, steps) {
        Ok(verdicts) => match hand_over(node, verdicts.as_slice(), ledger) {
            Ok(()) => show(alloc, n, start, sink, node),
            Err(NoMemory) => GenEnding::NoRoom,
        },
        Err(refusal) => write_end(sink, refusal),
    }
}

/// The same for any node: the blocks are made in a ledger of their own, and take their turns behind those of the node.
fn generate_behind<T: PeopleAndMoney, K: Sink, L: StepBook>(
    alloc: Global,
    n: u64,
    start: u64,
    sink: &mut K,
    node: &mut Node<T>,
    steps: &mut Steps<L>,
) -> GenEnding
    requires { n ≤ 5000 }
    ensures ends { (left : Option (List ℕ)) → GenEnds n start (at node.old left (K.held sink.old)) (at node.new left (K.held sink.new)) result }
    ensures faults { GenFaults (K.faults sink.old) (K.faults sink.new) result }
{
    match make_chain::<T, L>(alloc, n, start, steps) {
        Ok(chain) => match give(node, chain, steps) {
            Ok(()) => show(alloc, n, start, sink, node),
            Err(NoMemory) => GenEnding::NoRoom,
        },
        Err(refusal) => write_end(sink, refusal),
    }
}

/// Writes the head and the money of a node to which a chain was given.
fn show<T: PeopleAndMoney, K: Sink>(
    alloc: Global,
    n: u64,
    start: u64,
    sink: &mut K,
    node: &Node<T>,
) -> GenEnding
    ensures ends { (old : State) → (left : Option (List ℕ)) → IsGivenWhole n start old node.now → GenEnds n start (at old left (K.held sink.old)) (at node.now left (K.held sink.new)) result }
    ensures faults { GenFaults (K.faults sink.old) (K.faults sink.new) result }
{
    let Ok(text) = shown(alloc, n, start, node.ledger()) else {
        return GenEnding::NoRoom;
    };
    write_text(sink, text.as_slice())
}

/// Writes at which block the making ended. Where it ended for want of memory, nothing is written.
fn write_end<K: Sink>(sink: &mut K, refusal: GenRefusal) -> GenEnding
    ensures ends { (n start : ℕ) (state : State) (left : Option (List ℕ)) → Ends start n refusal → GenEnds n start (at state left (K.held sink.old)) (at state left (K.held sink.new)) result }
    ensures faults { GenFaults (K.faults sink.old) (K.faults sink.new) result }
{
    match refusal {
        GenRefusal::NoNonce { block } => write_text(sink, no_nonce(block).as_slice()),
        GenRefusal::Invalid { block, rule } => {
            write_text(sink, no_block(block, rule).as_slice())
        }
        GenRefusal::NoMemory => GenEnding::NoRoom,
    }
}

/// Gives the verdicts of the chain that was made in this ledger to the node, which has no block, and then the ledger.
fn hand_over<T: PeopleAndMoney>(
    node: &mut Node<T>,
    verdicts: &[(Key, Hash, Sig)],
    ledger: Ledger<T>,
) -> Result<(), NoMemory>
    requires empty { HasNoBlock (branches_of node.old) }
    requires made { (start : ℕ) × (n : ℕ) × IsMade start n (made_in ledger verdicts.now) }
    requires kept { ledger.kept ≡ min (length ledger.chain) 100 }
    requires whole { ledger.out ≡ None }
    ensures all { OnOk result (IsGivenAll (commands_of (made_in ledger verdicts.now)) node.old node.new) }
    ensures front { OnErr result (IsGivenFront (commands_of (made_in ledger verdicts.now)) node.old node.new) }
{
    node.laws();
    blocks_have_one_text();
    ledger.laws();
    give_verdicts(node, verdicts)?;
    node.take_over(ledger);
    Ok(())
}

/// Gives the verdicts of the chain to the node, and then its blocks.
fn give<T: PeopleAndMoney, L: StepBook>(
    node: &mut Node<T>,
    chain: Chain,
    steps: &mut Steps<L>,
) -> Result<(), NoMemory>
    requires blocks { AllByRecursion IsBlock (reverse chain.blocks.items) }
    requires short { AllByRecursion IsShort (reverse chain.blocks.items) }
    requires hashed { AllByRecursion InnerHashIsRight (reverse chain.blocks.items) }
    ensures all { OnOk result (IsGivenAll (commands_of (made_of chain)) node.old node.new) }
    ensures front { OnErr result (IsGivenFront (commands_of (made_of chain)) node.old node.new) }
{
    let Chain {
        mut blocks,
        verdicts,
    } = chain;
    give_verdicts(node, verdicts.as_slice())?;
    blocks.reverse();
    give_blocks(node, blocks, steps)
}

fn give_verdicts<T: PeopleAndMoney>(
    node: &mut Node<T>,
    verdicts: &[(Key, Hash, Sig)],
) -> Result<(), NoMemory>
    ensures all { OnOk result (IsGivenAll (map verdict_given verdicts.now) node.old node.new) }
    ensures front { OnErr result (IsGivenFront (map verdict_given verdicts.now) node.old node.new) }
{
    for verdict in verdicts {
        node.give_verdict(*verdict)?;
    }
    Ok(())
}

/// Gives the blocks, which stand newest first, in ascending number.
fn give_blocks<T: PeopleAndMoney, L: StepBook>(
    node: &mut Node<T>,
    mut blocks: Vec<Block>,
    steps: &mut Steps<L>,
) -> Result<(), NoMemory>
    requires blocks { AllByRecursion IsBlock blocks.items }
    requires short { AllByRecursion IsShort blocks.items }
    requires hashed { AllByRecursion InnerHashIsRight blocks.items }
    ensures all { OnOk result (IsGivenAll (map block_given (reverse blocks.items)) node.old node.new) }
    ensures front { OnErr result (IsGivenFront (map block_given (reverse blocks.items)) node.old node.new) }
{
    while let Some(block) = blocks.pop() {
        node.give_block(block, steps)?;
    }
    Ok(())
}

/// The three lines: what was asked for, the head, and the money.
fn shown<T: PeopleAndMoney>(
    alloc: Global,
    n: u64,
    start: u64,
    ledger: &Ledger<T>,
) -> Result<Vec<u8>, NoMemory>
    ensures { IfOk result (λ text. text.items ≡ shown_text n start ledger.now.chain) }
{
    ledger.laws();
    let mut text = Vec::new(alloc);
    append(&mut text, asked_for(n, start).as_slice())?;
    append(&mut text, head_line(ledger).as_slice())?;
    let mut money: Line = ArrayVec::new();
    ledger.tables().put_money(&mut money);
    append(&mut text, money.as_slice())?;
    Ok(text)
}

fn append(text: &mut Vec<u8>, line: &[u8]) -> Result<(), NoMemory>
    ensures { OnOk result (text.new.items ≡ text.old.items ++ line.now) }
{
    text.extend_from_slice(line).map_err(|_| NoMemory)
}

/// Writes the text whole, or a front of it.
fn write_text<K: Sink>(sink: &mut K, text: &[u8]) -> GenEnding
    ensures written { IsWritten (K.held sink.old) (K.held sink.new) text.now result }
    ensures faults { GenFaults (K.faults sink.old) (K.faults sink.new) result }
{
    match write_whole(sink, text) {
        Ok(()) => GenEnding::Written,
        Err(_) => GenEnding::WriteFault,
    }
}
