ghost use Rattle.std.specs.Prelude.{◌≡◌, ℕ, ◌+◌, ◌^◌, ◌<◌, ◌≤◌, length, sum_by};
ghost use Rattle.dubp_sindex.specs.Rows.{units, units_of_entry};
ghost use Rattle.dubp_money.specs.Transactions.{all_outputs};
ghost use Rattle.dubp_money.specs.Blocks.{paid};

use crate::paying::Payment;
use dubp_atoms::Key;
use dubp_block::Block;
use dubp_cond::SourceId;
use dubp_sindex::SourceRow;

/// The units of an amount, where these are below 2^128.
pub(crate) fn units(amount: u64, base: u8) -> u128
    ensures { units amount base < 2 ^ 128 → result ≡ units amount base }
{
    (amount as u128).saturating_mul(10u128.saturating_pow(base as u32))
}

/// The units of the sources, where these are below 2^128.
pub(crate) fn units_of(sources: &[(SourceId, SourceRow)]) -> u128
    ensures { sum_by units_of_entry sources.now < 2 ^ 128 → result ≡ sum_by units_of_entry sources.now }
{
    let mut sum: u128 = 0;
    for entry in sources {
        sum = sum.saturating_add(units(entry.1.amount, entry.1.base));
    }
    sum
}

/// The place that comes so many behind this one in the order of making, where that is at most 2^63.
pub(crate) fn place_behind(place: u64, count: u64) -> u64
    ensures { place + count ≤ 2 ^ 63 → result ≡ place + count }
{
    place.saturating_add(count)
}

/// So many and the outputs of the transactions of the block, where these are at most 2^63.
fn count_outputs(block: &Block, made: u64) -> u64
    ensures { (time : ℕ) → made + length (all_outputs time block.now.currency block.now.transactions) ≤ 2 ^ 63 → result ≡ made + length (all_outputs time block.now.currency block.now.transactions) }
{
    let mut count = made;
    for tx in block.transactions.as_slice() {
        count = place_behind(count, tx.outputs.len() as u64);
    }
    count
}

/// How many of the members are paid.
fn count_paid(payment: Option<Payment>, members: &[Key]) -> usize
    ensures { result ≡ length (paid payment members.now) }
{
    match payment {
        None => 0,
        Some(_) => members.len(),
    }
}

/// How many sources the chain with the block has made, where the chain made so many, and these are at most 2^63.
pub(crate) fn count_made(block: &Block, payment: Option<Payment>, members: &[Key], made: u64) -> u64
    ensures { (time : ℕ) → made + length (all_outputs time block.now.currency block.now.transactions) + length (paid payment members.now) ≤ 2 ^ 63 → result ≡ made + length (all_outputs time block.now.currency block.now.transactions) + length (paid payment members.now) }
{
    place_behind(
        count_outputs(block, made),
        count_paid(payment, members) as u64,
    )
}
