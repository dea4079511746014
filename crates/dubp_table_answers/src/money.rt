//! What is said of the money of a chain in one line.
ghost use Rattle.std.specs.Prelude.{◌≡◌, [], ◌∷◌, codes, decimal};
ghost use Rattle.dubp_chain.specs.Chains.{Chain};
ghost use Rattle.dubp_replay.specs.Answers.{balance_answer, money_answer, values_line};

use crate::Money;
use crate::money_views::balance;
use arrayvec::ArrayVec;
use dubp_answers::put_spaced;
use dubp_atoms::{Line, put_bytes};
use dubp_block::Block;
use dubp_cond::CondText;
use dubp_moving::Tables;

/// The answer to MONEY: the units that the chain issued, those that are unspent and those that were cleared; each is 0 where the
/// chain is empty. It takes no memory.
pub fn money_line(money: &Money) -> Line
    ensures { (c : Chain) → ⟦<Money as Tables<Block>>⟧.at money.now c → result.items ≡ money_answer c }
{
    let mut line: Line = ArrayVec::new();
    put_money_line(money, &mut line);
    line
}

/// The same answer, put into an empty line.
pub fn put_money_line(money: &Money, line: &mut Line)
    requires { line.old.items ≡ [] }
    ensures { (c : Chain) → ⟦<Money as Tables<Block>>⟧.at money.now c → line.new.items ≡ money_answer c }
{
    match money.totals() {
        Some(totals) => put_totals(totals.issued, totals.unspent, totals.cleared, line),
        None => put_totals(0, 0, 0, line),
    }
}

/// The answer to BALANCE: the units that the condition of this text has. It takes no memory.
pub fn balance_line(money: &Money, cond: &CondText) -> Line
    ensures { (c : Chain) → ⟦<Money as Tables<Block>>⟧.at money.now c → result.items ≡ balance_answer c cond.now.items }
{
    let mut line: Line = ArrayVec::new();
    put_balance_line(money, cond, &mut line);
    line
}

/// The same answer, put into an empty line.
pub fn put_balance_line(money: &Money, cond: &CondText, line: &mut Line)
    requires { line.old.items ≡ [] }
    ensures { (c : Chain) → ⟦<Money as Tables<Block>>⟧.at money.now c → line.new.items ≡ balance_answer c cond.now.items }
{
    put_units(balance(money, cond), line);
}

fn put_totals(issued: u128, unspent: u128, cleared: u128, line: &mut Line)
    requires { line.old.items ≡ [] }
    ensures { line.new.items ≡ values_line (codes "MONEY") (decimal issued ∷ decimal unspent ∷ decimal cleared ∷ []) }
{
    put_bytes(line, b"MONEY");
    put_spaced(issued, line);
    put_spaced(unspent, line);
    put_spaced(cleared, line);
    put_bytes(line, b"\n");
}

fn put_units(units: u128, line: &mut Line)
    requires { line.old.items ≡ [] }
    ensures { line.new.items ≡ values_line (codes "BALANCE") (decimal units ∷ []) }
{
    put_bytes(line, b"BALANCE");
    put_spaced(units, line);
    put_bytes(line, b"\n");
}
