ghost use Rattle.std.specs.Prelude.{◌≡◌, ◌<◌, ℕ, Some, slice_get, length};
ghost use Rattle.dubp_rules.specs.Table.{table_rules, place_of};

use crate::rule::Rule;
use std::marker::Model;

/// The number of rules.
pub const RULES: usize = 78;

pub(crate) const ORDER: [Rule; RULES] = [
    Rule::X01,
    Rule::P01,
    Rule::X02,
    Rule::X07,
    Rule::L01,
    Rule::L02,
    Rule::L03,
    Rule::L04,
    Rule::L05,
    Rule::L06,
    Rule::L07,
    Rule::L08,
    Rule::L09,
    Rule::L10,
    Rule::L11,
    Rule::L12,
    Rule::L13,
    Rule::L14,
    Rule::L15,
    Rule::L16,
    Rule::L17,
    Rule::L18,
    Rule::L19,
    Rule::L20,
    Rule::L21,
    Rule::L22,
    Rule::L23,
    Rule::L24,
    Rule::G51,
    Rule::G52,
    Rule::G53,
    Rule::G49,
    Rule::G101,
    Rule::X03,
    Rule::X04,
    Rule::X08,
    Rule::G50,
    Rule::G54,
    Rule::G55,
    Rule::G56,
    Rule::G57,
    Rule::G58,
    Rule::G59,
    Rule::G60,
    Rule::G61,
    Rule::G62,
    Rule::X06,
    Rule::G63,
    Rule::G73,
    Rule::G74,
    Rule::G64,
    Rule::G75,
    Rule::G108,
    Rule::G82,
    Rule::G78,
    Rule::G81,
    Rule::G80,
    Rule::G77,
    Rule::G83,
    Rule::G84,
    Rule::G65,
    Rule::G66,
    Rule::G67,
    Rule::G68,
    Rule::G69,
    Rule::G70,
    Rule::G71,
    Rule::G72,
    Rule::G79,
    Rule::G76,
    Rule::G85,
    Rule::G86,
    Rule::X05,
    Rule::G103,
    Rule::G87,
    Rule::G88,
    Rule::G89,
    Rule::G90,
];

/// The rules in the order in which they are read. Contracts see the table as the list of its rules, which
/// is always `table_rules`.
#[derive(Debug, Drop)]
pub struct RuleTable<const N: usize> {
    rules: [Rule; N],
}

impl<const N: usize> Model for RuleTable<N> {
    ghost use Rattle.std.specs.Prelude.{List, ◌≡◌};
    ghost use Rattle.dubp_rules.specs.declared.rule.Rule.{Rule};
    ghost use Rattle.dubp_rules.specs.Table.{table_rules};

    ghost Value = { List Rule };

    ghost view = { λ t. t.rules };

    ghost invariant = { λ t. t.rules ≡ table_rules };
}

/// The table of all rules. It takes no memory.
pub fn table() -> RuleTable<RULES>
    ensures { result ≡ table_rules }
{
    RuleTable { rules: ORDER }
}

impl<const N: usize> RuleTable<N> {
    /// The rule at a place, which counts from 0 and is below `N`. It takes no memory.
    pub fn at(&self, place: usize) -> Rule
        requires { place < N }
        ensures rule { slice_get table_rules place ≡ Some result }
        ensures place { place_of result ≡ place }
    {
        self.rules[place]
    }
}

/// The place of a rule in the table, from 0 to 77. It takes no memory.
pub fn place(rule: Rule) -> usize
    ensures place { result ≡ place_of rule }
    ensures stands { slice_get table_rules result ≡ Some rule }
{
    rule as usize
}
