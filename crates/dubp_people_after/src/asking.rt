ghost use Rattle.std.specs.Prelude.{◌≡◌, ◌∷◌, IfOk, Some};
ghost use Rattle.dubp_rules.specs.First.{IsFirst};
ghost use Rattle.dubp_chain.specs.Chains.{Chain};
ghost use Rattle.dubp_chain.specs.Heads.{head_of};
ghost use Rattle.dubp_validity.specs.Rules.{Holds};
ghost use Rattle.dubp_people_after.specs.OfLeft.{IsAsked, Next as NextValue};
ghost use Rattle.dubp_people_after.specs.PeopleRules.{people_rules};

use dubp_atoms::NoMemory;
use dubp_block::Block;
use dubp_chain::Head;
use dubp_moving::Tables;
use dubp_registry::Registry;
use dubp_rules::Rule;
use dubp_verdict::Verdicts;
use std::alloc::Global;

/// The rules on people, as who keeps the books of a chain asks them.
///
/// Code that asks them is generic over this trait, so it is proved beside the rules and not behind them.
pub trait RulesOnPeople {
    /// The first of the rules on people, in the order of the table, that the block breaks on the chain of the registry. None where it
    /// keeps all. `head` is the head of the chain with the block.
    ///
    /// The registry stays as it is. `NoMemory` where there is none for what a rule wants.
    fn people_rules(
        alloc: Global,
        people: &Registry,
        head: &Head,
        block: &Block,
        verdicts: &Verdicts,
    ) -> Result<Option<Rule>, NoMemory>
        requires { (c : Chain) × ((next : NextValue) × (⟦<Registry as Tables<Block>>⟧.at people.now c × (IsAsked c block.now next × (head_of (block.now ∷ c) ≡ Some head.now)))) }
        ensures { IfOk result (λ found. (c : Chain) (next : NextValue) → ⟦<Registry as Tables<Block>>⟧.at people.now c → IsAsked c block.now next → head_of (block.now ∷ c) ≡ Some head.now → IsFirst (Holds verdicts.now c block.now) people_rules found) };
}
