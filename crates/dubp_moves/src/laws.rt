//! The laws of statements, proved for every chain. Each function here is a law: it does nothing, and its contract is the law.
ghost use Rattle.std.specs.Prelude.{◌≡◌, ◌<◌, ◌^◌};
ghost use Rattle.std.specs.List.{AllByRecursion};
ghost use Rattle.dubp_verdict.specs.OfAtoms.{Text};
ghost use Rattle.dubp_chain.specs.Chains.{Chain};
ghost use Rattle.dubp_validity.specs.Rules.{IsSound};
ghost use Rattle.dubp_moves.specs.Accounts.{account_of};
ghost use Rattle.dubp_moves.specs.Moves.{moves_of};
ghost use Rattle.dubp_moves.specs.Statements.{Statements};

/// On a sound chain the running sum of a condition's moves is its balance behind each block, what was made is spent, cleared or there, and
/// no sum takes away more than there is, or is above what the chain issued.
pub fn moves_are_statements()
    ensures { Statements }
{}

/// What is noted block by block, knowing the sources that were made so far alone, is the moves.
pub fn accounts_have_the_moves()
    ensures { (c : Chain) (cond : Text) → IsSound c → (account_of cond c).moves ≡ moves_of c cond }
{}

/// On a sound chain each balance of a condition's moves is a number of 128 bits.
pub fn balances_are_numbers()
    ensures { (c : Chain) (cond : Text) → IsSound c → AllByRecursion (λ m. m.balance < 2 ^ 128) (moves_of c cond) }
{}
