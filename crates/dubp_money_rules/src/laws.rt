//! That the condition of each source of a chain can be read. The function is a law: it does nothing, and its contract is the law.
ghost use Rattle.dubp_chain.specs.Chains.{Chain};
ghost use Rattle.dubp_money_rules.specs.Spending.{HaveConditions};
ghost use Rattle.dubp_money_rules.specs.Judging.{AreBlocks};

/// The condition of each source that a chain of blocks makes can be read from its text.
pub fn conditions_can_be_read()
    ensures { (c : Chain) → AreBlocks c → HaveConditions c }
{}
