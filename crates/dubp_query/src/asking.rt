ghost use Rattle.std.specs.Prelude.{◌≡◌, IfOk};
ghost use Rattle.dubp_replay.specs.Answers.{records_answer, show_answer};
ghost use Rattle.dubp_replay.specs.OneLine.{IsShort, query_of};
ghost use Rattle.dubp_replay.specs.declared.query.Query.TheVariants as asked;
ghost use Rattle.dubp_query.specs.Asked.{IsAnswer};

use crate::telling::put_answer;
use arrayvec::ArrayVec;
use dubp_answers::{records_text, show_text};
use dubp_atoms::{Key, Line, NoMemory};
use dubp_replay::{Answer, Asked, Query};
use dubp_statement::{CondText, Ledger, PeopleAndMoney};
use std::alloc::Global;

/// The answer to a query. HEAD, MONEY, IDENTITY, UID, BALANCE and DIFF take no memory.
pub fn answer<T: PeopleAndMoney>(
    alloc: Global,
    ledger: &Ledger<T>,
    query: &Query,
) -> Result<Answer, NoMemory>
    ensures { IsAnswer ledger.now.chain query.now result }
{
    match query {
        Query::Head => answer_line(alloc, ledger, &Asked::Head),
        Query::Money => answer_line(alloc, ledger, &Asked::Money),
        Query::Identity { key } => answer_line(alloc, ledger, &Asked::Identity { key: *key }),
        Query::Uid { uid } => answer_line(alloc, ledger, &Asked::Uid { uid: *uid }),
        Query::Balance { cond } => answer_balance(ledger, cond),
        Query::Certs { key } => answer_certs(alloc, ledger, *key),
        Query::Sources { cond } => answer_sources(alloc, ledger, cond),
        Query::Distance { key } => answer_line(alloc, ledger, &Asked::Distance { key: *key }),
        Query::Diff { key } => answer_line(alloc, ledger, &Asked::Diff { key: *key }),
        Query::Show { number } => answer_show(alloc, ledger, *number),
        Query::Records { number } => answer_records(alloc, ledger, *number),
    }
}

// The answer to a query that is answered in one line.
fn answer_line<T: PeopleAndMoney>(
    alloc: Global,
    ledger: &Ledger<T>,
    asked: &Asked<'_>,
) -> Result<Answer, NoMemory>
    requires { IsShort asked.now }
    ensures { IsAnswer ledger.now.chain (query_of asked.now) result }
{
    let mut line: Line = ArrayVec::new();
    put_answer(alloc, ledger, asked, &mut line)?;
    Ok(Answer::One(line))
}

// BALANCE.
fn answer_balance<T: PeopleAndMoney>(
    ledger: &Ledger<T>,
    cond: &CondText,
) -> Result<Answer, NoMemory>
    ensures { IsAnswer ledger.now.chain (asked.Balance cond.now) result }
{
    let mut line: Line = ArrayVec::new();
    ledger.tables().put_balance(cond, &mut line);
    Ok(Answer::One(line))
}

// CERTS.
fn answer_certs<T: PeopleAndMoney>(
    alloc: Global,
    ledger: &Ledger<T>,
    key: Key,
) -> Result<Answer, NoMemory>
    ensures { IsAnswer ledger.now.chain (asked.Certs key) result }
{
    ledger.laws();
    Ok(Answer::Many(ledger.tables().certs(alloc, key)?))
}

// SOURCES.
fn answer_sources<T: PeopleAndMoney>(
    alloc: Global,
    ledger: &Ledger<T>,
    cond: &CondText,
) -> Result<Answer, NoMemory>
    ensures { IsAnswer ledger.now.chain (asked.Sources cond.now) result }
{
    ledger.laws();
    Ok(Answer::Many(ledger.tables().sources(alloc, cond)?))
}

// SHOW.
fn answer_show<T: PeopleAndMoney>(
    alloc: Global,
    ledger: &Ledger<T>,
    number: u64,
) -> Result<Answer, NoMemory>
    ensures { IsAnswer ledger.now.chain (asked.Show number) result }
{
    ledger.laws();
    Ok(Answer::Many(block_text_of(alloc, ledger, number)?))
}

// RECORDS.
fn answer_records<T: PeopleAndMoney>(
    alloc: Global,
    ledger: &Ledger<T>,
    number: u64,
) -> Result<Answer, NoMemory>
    ensures { IsAnswer ledger.now.chain (asked.Records number) result }
{
    ledger.laws();
    Ok(Answer::Many(records_of(alloc, ledger, number)?))
}

// The text of the block of this number.
fn block_text_of<T: PeopleAndMoney>(
    alloc: Global,
    ledger: &Ledger<T>,
    number: u64,
) -> Result<Vec<u8>, NoMemory>
    ensures { IfOk result (λ text. text.items ≡ show_answer ledger.now.chain number) }
{
    let text = show_text(alloc, ledger.block_at(number))?;
    Ok(text)
}

// The records of the block of this number.
fn records_of<T: PeopleAndMoney>(
    alloc: Global,
    ledger: &Ledger<T>,
    number: u64,
) -> Result<Vec<u8>, NoMemory>
    ensures { IfOk result (λ text. text.items ≡ records_answer ledger.now.chain number) }
{
    ledger.laws();
    let rows = ledger.rows_at(number)?;
    let text = records_text(alloc, rows.as_deref())?;
    Ok(text)
}
