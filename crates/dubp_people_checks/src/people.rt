ghost use Rattle.std.specs.Prelude.{◌≡◌, ◌∷◌, IfOk, Some};
ghost use Rattle.dubp_rules.specs.First.{IsFirst};
ghost use Rattle.dubp_chain.specs.Chains.{Chain};
ghost use Rattle.dubp_chain.specs.Heads.{head_of};
ghost use Rattle.dubp_validity.specs.Rules.{Holds};
ghost use Rattle.dubp_people_after.specs.PeopleRules.{people_rules};
ghost use Rattle.dubp_people_checks.specs.OfLeft.{IsAsked};
ghost use Rattle.dubp_people_checks.specs.OfLeft.{Next as NextValue};

use crate::asked::Asked;
use crate::first::first_broken;
use crate::{Next, next_of};
use dubp_atoms::NoMemory;
use dubp_block::Block;
use dubp_chain::Head;
use dubp_moving::Tables;
use dubp_people_after::{After, Registry, RulesOnPeople};
use dubp_rules::Rule;
use dubp_verdict::Verdicts;
use std::alloc::Global;

/// The first of the rules on people, in the order of the table, that the block breaks on the chain. None where it keeps all.
///
/// The registry is that of the chain, and stays as it is. `NoMemory` where there is none for the keys that the block names, or for
/// what a rule counts.
pub fn first_broken_of_people(
    alloc: Global,
    registry: &Registry,
    block: &Block,
    next: &Next,
    verdicts: &Verdicts,
) -> Result<Option<Rule>, NoMemory>
    requires { (c : Chain) × (⟦<Registry as Tables<Block>>⟧.at registry.now c × IsAsked c block.now next.now) }
    ensures { IfOk result (λ found. (c : Chain) → ⟦<Registry as Tables<Block>>⟧.at registry.now c → IsAsked c block.now next.now → IsFirst (Holds verdicts.now c block.now) people_rules found) }
{
    let after = After::of(alloc, registry, block, next)?;
    let asked = Asked {
        alloc,
        registry,
        after: &after,
        block,
        next,
        verdicts,
    };
    first_broken(&asked)
}

/// The same, where what holds of the chain with the block is not at hand: `head` is the head of that chain.
pub fn people_rules(
    alloc: Global,
    people: &Registry,
    head: &Head,
    block: &Block,
    verdicts: &Verdicts,
) -> Result<Option<Rule>, NoMemory>
    requires { (c : Chain) × ((next : NextValue) × (⟦<Registry as Tables<Block>>⟧.at people.now c × (IsAsked c block.now next × (head_of (block.now ∷ c) ≡ Some head.now)))) }
    ensures { IfOk result (λ found. (c : Chain) (next : NextValue) → ⟦<Registry as Tables<Block>>⟧.at people.now c → IsAsked c block.now next → head_of (block.now ∷ c) ≡ Some head.now → IsFirst (Holds verdicts.now c block.now) people_rules found) }
{
    let next = next_of(people.facts(), block, head);
    let found = first_broken_of_people(alloc, people, block, &next, verdicts)?;
    Ok(found)
}

/// The rules on people that there are, as a type to be named.
pub struct PeopleRules;

impl RulesOnPeople for PeopleRules {
    fn people_rules(
        alloc: Global,
        people: &Registry,
        head: &Head,
        block: &Block,
        verdicts: &Verdicts,
    ) -> Result<Option<Rule>, NoMemory> {
        people_rules(alloc, people, head, block, verdicts)
    }
}
