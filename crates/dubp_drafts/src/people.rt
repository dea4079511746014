ghost use Rattle.std.specs.Prelude.{◌≡◌, ◌+◌, ◌/◌, ◌%◌, ◌<◌, ◌++◌, IfOk, OnOk};
ghost use Rattle.dubp_drafts.specs.Drafting.{by_all_others, certified, newcomers, renewed};

use crate::memory::push;
use dubp_atoms::NoMemory;
use std::alloc::Global;

// The members from the first block on. People are named by the numbers of their keys.
const FIRST_MEMBERS: [u16; 8] = [0, 1, 2, 3, 4, 5, 6, 7];

// How many blocks there are from one newcomer to the next, and from one renewal to the next.
const BLOCKS_IN_ROUND: u64 = 20;

// How far behind the newcomer of a round its renewal is.
const BLOCKS_BEFORE_RENEWAL: u64 = 10;

// Who joins in the block of this number.
pub(crate) fn newcomers(alloc: Global, number: u64) -> Result<Vec<u16>, NoMemory>
    requires { number < 5000 }
    ensures { IfOk result (λ people. people.items ≡ newcomers number) }
{
    if number == 0 {
        return Vec::from_slice(alloc, &FIRST_MEMBERS).map_err(|_| NoMemory);
    }
    let mut people = Vec::new(alloc);
    if number % BLOCKS_IN_ROUND == 0 {
        push(&mut people, newcomer(number))?;
    }
    Ok(people)
}

// Whose membership is renewed in the block of this number.
pub(crate) fn renewed(alloc: Global, number: u64) -> Result<Vec<u16>, NoMemory>
    requires { number < 5000 }
    ensures { IfOk result (λ people. people.items ≡ renewed number) }
{
    let mut people = Vec::new(alloc);
    if number % BLOCKS_IN_ROUND == BLOCKS_BEFORE_RENEWAL {
        push(&mut people, member_in_turn(number))?;
    }
    Ok(people)
}

// Who certifies whom in the block of this number.
pub(crate) fn certified(alloc: Global, number: u64) -> Result<Vec<(u16, u16)>, NoMemory>
    requires { number < 5000 }
    ensures { IfOk result (λ pairs. pairs.items ≡ certified number) }
{
    if number == 0 {
        return first_certified(alloc);
    }
    let mut pairs = Vec::new(alloc);
    if number % BLOCKS_IN_ROUND == 0 {
        push(&mut pairs, (member_in_turn(number), newcomer(number)))?;
    }
    Ok(pairs)
}

// Each first member certifies all others.
fn first_certified(alloc: Global) -> Result<Vec<(u16, u16)>, NoMemory>
    ensures { IfOk result (λ pairs. pairs.items ≡ certified 0) }
{
    let mut pairs = Vec::new(alloc);
    for person in &FIRST_MEMBERS {
        put_by_all_others(*person, &mut pairs)?;
    }
    Ok(pairs)
}

// Appends the pairs of this person with each other first member.
fn put_by_all_others(person: u16, pairs: &mut Vec<(u16, u16)>) -> Result<(), NoMemory>
    ensures { OnOk result (pairs.new.items ≡ pairs.old.items ++ by_all_others person) }
{
    for other in &FIRST_MEMBERS {
        if person != *other {
            push(pairs, (person, *other))?;
        }
    }
    Ok(())
}

// Who joins in the round of the block of this number, behind the first.
fn newcomer(number: u64) -> u16
    requires { number < 5000 }
    ensures { result ≡ 7 + number / 20 }
{
    7 + (number / BLOCKS_IN_ROUND) as u16
}

// Which first member certifies the newcomer and renews in the round of the block of this number.
fn member_in_turn(number: u64) -> u16
    ensures { result ≡ (number / 20) % 8 }
{
    (number / BLOCKS_IN_ROUND % 8) as u16
}
