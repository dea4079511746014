ghost use Rattle.std.specs.Prelude.{◌≡◌, ◌<◌};
ghost use Rattle.dubp_block.specs.Text.{IsBlock};

use dubp_atoms::{Hash, Steps};
use dubp_block::Block;
use dubp_chain::Head;
use dubp_money_rules::{Money, money_rules};
use std::alloc::Global;
use std::marker::Brand;
use std::mem::forget;
use std::sync::ledger::{Blank, Ledger as StepBook};

// The head of the first block, whose hash was computed by another program.
fn first_head(block: &Block) -> Option<Head> {
    Some(Head {
        version: 10,
        number: 0,
        hash: Hash::read(b"213EECFB0EEA61A655E64854E92BE5C3C4F3DE3D12DAD82F421E4DFA250CBB36")?,
        issuer: block.issuer,
        time: 1_488_987_127,
        median_time: 1_488_987_127,
        frame: 1,
        frame_var: 0,
        issuers: 0,
        pow_min: 0,
        diff_number: 12,
        members: 0,
        dividend: 1_000,
        unit_base: 0,
        mass: 0,
        mass_reeval: 0,
        ud_time: 1_488_970_800,
        ud_reeval_time: 1_490_094_000,
        ud: None,
        size: 0,
    })
}

// Whether the tables have the totals of a chain without money.
fn has_no_money(money: &Money) -> bool {
    match money.totals() {
        Some(totals) => {
            totals.issued == 0 && totals.unspent == 0 && totals.cleared == 0 && totals.made == 0
        }
        None => false,
    }
}

// Whether the block, whose head this is, is written without a record, and the chain has totals then and not before.
fn is_written<L: StepBook>(
    money: &mut Money,
    alloc: Global,
    block: &Block,
    head: &Head,
    steps: &mut Steps<L>,
) -> bool
    requires { IsBlock block.now }
{
    let mut records = Vec::new(alloc);
    let empty = money.totals().is_none();
    let written = money
        .apply(alloc, block, head, &[], &mut records, steps)
        .is_ok();
    empty && written && records.is_empty() && has_no_money(money)
}

// Whether the block, whose head this is, keeps each rule on money, and is written.
fn is_kept<L: StepBook>(alloc: Global, blank: Blank, block: &Block, head: &Head) -> bool
    requires name { blank.name ≡ L.name }
    requires parts { blank.parts ≡ L.parts }
    requires some { 0 < blank.parts }
    requires block { IsBlock block.now }
{
    let mut steps = Steps::<L>::open(blank);
    let mut money = Money::new(alloc);
    let keeps = matches!(money_rules(alloc, &money, head, block), Ok(None));
    let written = is_written(&mut money, alloc, block, head, &mut steps);
    forget(money);
    keeps && written
}

/// Whether the block keeps each rule on money, and is written.
pub(crate) fn keeps_the_rules_on_money(alloc: Global, block: &Block) -> bool
    requires { IsBlock block.now }
{
    match first_head(block) {
        Some(head) => is_kept::<Brand>(alloc, Blank::new(1), block, &head),
        None => false,
    }
}
