//! What is known of a condition's account, block by block.
ghost use Rattle.std.specs.Prelude.{◌≡◌, ◌-◌, ◌<◌, ◌^◌, ◌||◌, ◌++◌, ◌∷◌, [], min, take, length, OnOk};
ghost use Rattle.std.specs.List.{list_any};
ghost use Rattle.dubp_chain.specs.Heads.{units as units_of};
ghost use Rattle.dubp_chain.specs.Money.{same_source};
ghost use Rattle.dubp_chain.specs.OfCond.{SourceId as SourceIdValue};
ghost use Rattle.dubp_replay.specs.OfMoves.{Account, balance_behind, no_account, with_gone};
ghost use Rattle.dubp_statement.specs.Tallies.{AreNumbers, IsTallyOf, moves_of, with_move, with_source};

use dubp_atoms::{NoMemory, Secret};
use dubp_cond::{Input, SourceId};
use dubp_replay::{Kind, Move};
use std::alloc::Global;
use std::collections::HashSet;

/// What is known of a condition's account so far: the names of its sources that were made, its moves, and the units behind the last.
#[derive(Drop)]
pub struct Tally {
    names: HashSet<SourceId, Secret>,
    moves: Vec<Move>,
    balance: u128,
}

impl Tally {
    /// That of an account without any move. The secret is what the names of its sources are hashed by. It takes no memory.
    pub fn new(alloc: Global, secret: Secret) -> Tally
        ensures { IsTallyOf no_account result }
    {
        Tally {
            names: HashSet::with_hasher(alloc, secret),
            moves: Vec::new(alloc),
            balance: 0,
        }
    }

    /// The moves, in order.
    pub fn into_moves(self) -> Vec<Move>
        ensures account { (a : Account) → IsTallyOf a self → AreNumbers a.moves → result.items ≡ a.moves }
        ensures moves { result.items ≡ moves_of self }
    {
        self.moves
    }

    /// A source of the condition is made in the block of this number.
    ///
    /// `NoMemory` where there is no room.
    pub(crate) fn make(&mut self, number: u64, input: &Input) -> Result<(), NoMemory>
        ensures account { OnOk result ((a : Account) → IsTallyOf a self.old → IsTallyOf (with_source number a input.now) self.new) }
        ensures begins { take (length (moves_of self.old)) (moves_of self.new) ≡ moves_of self.old }
    {
        insert(&mut self.names, input.source)?;
        self.note(number, Kind::Made, input)
    }

    /// A source is spent or cleared in the block of this number: a move where it is one of the condition.
    ///
    /// `NoMemory` where there is no room.
    pub(crate) fn take(&mut self, number: u64, kind: Kind, input: &Input) -> Result<(), NoMemory>
        ensures account { OnOk result ((a : Account) → IsTallyOf a self.old → IsTallyOf (with_gone kind number a input.now) self.new) }
        ensures begins { take (length (moves_of self.old)) (moves_of self.new) ≡ moves_of self.old }
    {
        if !has(&self.names, &input.source) {
            return Ok(());
        }
        self.note(number, kind, input)
    }

    // One move more.
    fn note(&mut self, number: u64, kind: Kind, input: &Input) -> Result<(), NoMemory>
        ensures account { OnOk result ((a : Account) → IsTallyOf a self.old → IsTallyOf (with_move kind number a input.now) self.new) }
        ensures begins { take (length (moves_of self.old)) (moves_of self.new) ≡ moves_of self.old }
    {
        let balance = balance_after(self.balance, kind, input);
        let next = Move {
            number,
            kind,
            amount: input.amount,
            base: input.base,
            source: input.source,
            balance,
        };
        push(&mut self.moves, next)?;
        self.balance = balance;
        Ok(())
    }
}

// Appends the value.
fn push<T: Drop>(list: &mut Vec<T>, value: T) -> Result<(), NoMemory>
    ensures appended { OnOk result (list.new.items ≡ list.old.items ++ value ∷ []) }
    ensures begins { take (length list.old.items) list.new.items ≡ list.old.items }
{
    list.push(value).map_err(|_| NoMemory)
}

// One name more.
fn insert(names: &mut HashSet<SourceId, Secret>, source: SourceId) -> Result<(), NoMemory>
    ensures { OnOk result ((x : SourceIdValue) → list_any (λ name. same_source name x) names.new.keys ≡ (list_any (λ name. same_source name x) names.old.keys || same_source source x)) }
{
    match names.insert(source) {
        Ok(_) => Ok(()),
        Err(_) => Err(NoMemory),
    }
}

// Whether the source has one of the names. Where there is none, its own is not hashed.
fn has(names: &HashSet<SourceId, Secret>, source: &SourceId) -> bool
    ensures { result ≡ list_any (λ name. same_source name source.now) names.now.keys }
{
    !names.is_empty() && names.contains(source)
}

// The units behind a move, where they are a number of 128 bits.
fn balance_after(balance: u128, kind: Kind, input: &Input) -> u128
    ensures { balance_behind balance kind input.now < 2 ^ 128 → result ≡ balance_behind balance kind input.now }
{
    let units = units(input.amount, input.base);
    match kind {
        Kind::Made => balance.saturating_add(units),
        Kind::Spent => balance.saturating_sub(units),
        Kind::Cleared => balance.saturating_sub(units),
    }
}

// The units of an amount, or the greatest number of 128 bits where they are more.
fn units(amount: u64, base: u8) -> u128
    ensures { result ≡ min (units_of amount base) (2 ^ 128 - 1) }
{
    (amount as u128).saturating_mul(10u128.saturating_pow(base as u32))
}
