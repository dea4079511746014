ghost use Rattle.std.specs.Prelude.{◌≡◌, ◌<◌, ◌≤◌, ◌↔◌, ◌%◌, IsTrue, IfOk, IfErr, [], ◌∷◌};
ghost use Rattle.dubp_rules.specs.First.{FirstOf};
ghost use Rattle.dubp_rules.specs.Sample.{Suits};
ghost use Rattle.dubp_rules.specs.declared.rule.Rule.TheVariants.{X01, P01, X02, X07, L01};

use crate::{Rule, first_of};

// Five checks on a number. They prove, with this crate, what the crates above get from `first_of!`; nothing else stands on them.

fn is_even(n: u8) -> bool
    ensures { IsTrue result ↔ (n % 2 ≡ 0) }
{
    n % 2 == 0
}

fn is_below(n: u8, limit: u8) -> bool
    ensures { IsTrue result ↔ (n < limit) }
{
    n < limit
}

/// The first of five rules that does not suit the number.
pub fn first_unsuited(n: u8) -> Option<Rule>
    ensures { FirstOf (Suits n) (X01 ∷ P01 ∷ X02 ∷ X07 ∷ L01 ∷ []) result }
{
    first_of!(
        Rule::X01 => is_even(n),
        Rule::P01 => is_below(n, 100),
        Rule::X02 => is_below(n, 50),
        Rule::X07 => is_below(n, 20),
        Rule::L01 => is_below(n, 10),
    )
}

fn try_below(n: u8, limit: u8) -> Result<bool, u8>
    ensures told { IfOk result (λ below. IsTrue below ↔ (n < limit)) }
    ensures refused { IfErr result (λ m. (m ≡ n) × (200 ≤ n)) }
{
    if n < 200 { Ok(n < limit) } else { Err(n) }
}

/// The same by checks that refuse a number from 200 on. An odd number is not refused: X01 is named first.
pub fn try_first_unsuited(n: u8) -> Result<Option<Rule>, u8>
    ensures told { IfOk result (FirstOf (Suits n) (X01 ∷ P01 ∷ X02 ∷ X07 ∷ L01 ∷ [])) }
    ensures refused { IfErr result (λ m. (m ≡ n) × (200 ≤ n) × (n % 2 ≡ 0)) }
{
    Ok(first_of!(
        Rule::X01 => is_even(n),
        Rule::P01 => try_below(n, 100)?,
        Rule::X02 => try_below(n, 50)?,
        Rule::X07 => try_below(n, 20)?,
        Rule::L01 => try_below(n, 10)?,
    ))
}
