ghost use Rattle.std.specs.Prelude.{◌≡◌, ◌≤◌, [], IsOk, OnErr, OnOk, length};
ghost use Rattle.dubp_replay.specs.Answers.{IsAnswered, diff_answer};
ghost use Rattle.dubp_replay.specs.OneLine.{IsShort, query_of};
ghost use Rattle.dubp_replay.specs.declared.query.Query.TheVariants as asked;
ghost use Rattle.dubp_query.specs.Asked.{IsTold};

use crate::lines::put_head_line;
use dubp_answers::put_diff_line;
use dubp_atoms::{Key, Line, NoMemory, Uid};
use dubp_replay::{Asked, filled};
use dubp_statement::{Ledger, PeopleAndMoney};
use std::alloc::Global;

/// Puts the answer to a query that is answered in one line into an empty line. HEAD, MONEY, IDENTITY, UID, BALANCE and DIFF take no memory
/// and are never refused.
///
/// `NoMemory` leaves the line empty.
pub fn put_answer<T: PeopleAndMoney>(
    alloc: Global,
    ledger: &Ledger<T>,
    asked: &Asked<'_>,
    line: &mut Line,
) -> Result<(), NoMemory>
    requires short { IsShort asked.now }
    requires empty { line.old.items ≡ [] }
    ensures told { IsTold ledger.now.chain (query_of asked.now) line.new.items result }
    ensures refused { OnErr result (line.new.items ≡ []) }
{
    match asked {
        Asked::Head => {
            put_head_line(ledger, line);
            Ok(())
        }
        Asked::Money => {
            put_money(ledger, line);
            Ok(())
        }
        Asked::Identity { key } => {
            put_identity(ledger, *key, line);
            Ok(())
        }
        Asked::Uid { uid } => {
            put_uid(ledger, *uid, line);
            Ok(())
        }
        Asked::Balance { cond } => {
            put_balance(ledger, cond, line);
            Ok(())
        }
        Asked::Distance { key } => put_distance(alloc, ledger, *key, line),
        Asked::Diff { key } => put_difficulty(ledger, *key, line),
    }
}

// MONEY.
fn put_money<T: PeopleAndMoney>(ledger: &Ledger<T>, line: &mut Line)
    requires { line.old.items ≡ [] }
    ensures { IsAnswered ledger.now.chain asked.Money line.new.items }
{
    ledger.laws();
    ledger.tables().put_money(line);
}

// IDENTITY.
fn put_identity<T: PeopleAndMoney>(ledger: &Ledger<T>, key: Key, line: &mut Line)
    requires { line.old.items ≡ [] }
    ensures { IsAnswered ledger.now.chain (asked.Identity key) line.new.items }
{
    ledger.laws();
    ledger.tables().put_identity(key, line);
}

// UID.
fn put_uid<T: PeopleAndMoney>(ledger: &Ledger<T>, uid: Uid, line: &mut Line)
    requires { line.old.items ≡ [] }
    ensures { IsAnswered ledger.now.chain (asked.Uid uid) line.new.items }
{
    ledger.laws();
    ledger.tables().put_uid(uid, line);
}

// BALANCE. The text of the condition is kept here alone, since it takes a thousand bytes.
fn put_balance<T: PeopleAndMoney>(ledger: &Ledger<T>, cond: &[u8], line: &mut Line)
    requires short { length cond.now ≤ 1000 }
    requires empty { line.old.items ≡ [] }
    ensures { IsAnswered ledger.now.chain (asked.Balance (record { items = cond.now })) line.new.items }
{
    ledger.laws();
    let kept = filled(cond);
    ledger.tables().put_balance(&kept, line);
}

// DISTANCE.
fn put_distance<T: PeopleAndMoney>(
    alloc: Global,
    ledger: &Ledger<T>,
    key: Key,
    line: &mut Line,
) -> Result<(), NoMemory>
    requires { line.old.items ≡ [] }
    ensures told { IsTold ledger.now.chain (asked.Distance key) line.new.items result }
    ensures refused { OnErr result (line.new.items ≡ []) }
{
    ledger.laws();
    ledger.tables().put_distance(alloc, key, line)?;
    Ok(())
}

// DIFF.
fn put_difficulty<T: PeopleAndMoney>(
    ledger: &Ledger<T>,
    key: Key,
    line: &mut Line,
) -> Result<(), NoMemory>
    requires { line.old.items ≡ [] }
    ensures told { IsTold ledger.now.chain (asked.Diff key) line.new.items result }
    ensures refused { OnErr result (line.new.items ≡ []) }
    ensures always { IsOk result }
{
    put_difficulty_line(ledger, key, line)?;
    Ok(())
}

/// Puts the answer to DIFF into an empty line: the difficulty that the key would have for the next block, or `NONE` where it is no member.
/// It takes no memory, and is never refused.
pub fn put_difficulty_line<T: PeopleAndMoney>(
    ledger: &Ledger<T>,
    key: Key,
    line: &mut Line,
) -> Result<(), NoMemory>
    requires { line.old.items ≡ [] }
    ensures told { OnOk result (line.new.items ≡ diff_answer ledger.now.chain key) }
    ensures refused { OnErr result (line.new.items ≡ []) }
    ensures always { IsOk result }
{
    let difficulty = ledger.difficulty(key)?;
    put_diff_line(difficulty, line);
    Ok(())
}
