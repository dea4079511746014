ghost use Rattle.std.specs.Prelude.{◌≡◌, ◌<◌, ◌≤◌, ◌-◌, None, Some, length, IfOk, IfNone, IfSome, IsSome, OnErr, OnSome};
ghost use Rattle.dubp_cond.specs.Tree.{CondTree};
ghost use Rattle.dubp_cond.specs.Conditions.{cond_text, IsCond};
ghost use Rattle.dubp_cond.specs.View.{item_tree, all_tree};
ghost use Rattle.dubp_cond.specs.TextOf.{IsTextOf};
ghost use Rattle.dubp_cond.specs.Gives.{Gives};
ghost use Rattle.dubp_cond.specs.Reading.{item_at, all_at, cond_at, all_from, cond_from, group_from, in_open, cond_of_text};

use crate::cursor::Cursor;
use crate::front::{Front, take_front};
use crate::memory::{boxed, push};
use crate::passing::{MAX_CHARACTERS, MAX_GROUPS, pass_whole};
use crate::tree::{All, Cond, Item};
use dubp_atoms::NoMemory;
use std::alloc::Global;

/// Passes over the `(` of the groups that begin here, at most `groups`, and takes the item in them that is none. Given beside it is
/// how many more groups could be open there.
fn take_opened(cursor: &mut Cursor<'_>, groups: usize) -> Option<(Item, usize)>
    ensures taken { IfSome result (λ p. (p.1 ≤ groups) × (item_at groups cursor.old ≡ in_open (groups - p.1) p.1 (item_tree p.0, cursor.new))) }
    ensures none { IfNone result (item_at groups cursor.old ≡ None) }
    ensures shorter { OnSome result (length cursor.new < length cursor.old) }
{
    let mut left = groups;
    'opened: loop {
        match take_front(cursor) {
            None => return None,
            Some(Front::Leaf(item)) => return Some((item, left)),
            Some(Front::Group) => {
                if left == 0 {
                    return None;
                }
                left -= 1;
            }
        }
    }
}

/// Takes an item, in which at most `groups` groups are open at once.
#[cycle(read)]
fn take_item(
    alloc: Global,
    cursor: &mut Cursor<'_>,
    groups: usize,
) -> Result<Option<Item>, NoMemory>
    ensures taken { IfOk result (λ found. Gives item_tree found cursor.new (item_at groups cursor.old)) }
    ensures shorter { IfOk result (λ found. OnSome found (length cursor.new < length cursor.old)) }
{
    let Some((mut item, mut left)) = take_opened(cursor, groups) else {
        return Ok(None);
    };
    'closing: while left != groups {
        let Some(group) = take_group(alloc, item, cursor, left)? else {
            return Ok(None);
        };
        item = group;
        left += 1;
    }
    Ok(Some(item))
}

/// Takes the rest of a group whose first item was taken, with its `)`. In it at most `groups` groups are open at once.
#[cycle(read)]
fn take_group(
    alloc: Global,
    first: Item,
    cursor: &mut Cursor<'_>,
    groups: usize,
) -> Result<Option<Item>, NoMemory>
    ensures taken { IfOk result (λ found. Gives item_tree found cursor.new (group_from groups (item_tree first, cursor.old))) }
    ensures shorter { IfOk result (λ found. OnSome found (length cursor.new ≤ length cursor.old)) }
{
    let Some(all) = take_items(alloc, first, cursor, groups)? else {
        return Ok(None);
    };
    let Some(cond) = take_alls(alloc, all, cursor, groups)? else {
        return Ok(None);
    };
    if !cursor.take_word(b")") {
        return Ok(None);
    }
    Ok(Some(Item::Group(boxed(alloc, cond)?)))
}

/// Takes the rest of an ALL whose first item was taken: the items with ` && ` before each.
#[cycle(read)]
fn take_items(
    alloc: Global,
    first: Item,
    cursor: &mut Cursor<'_>,
    groups: usize,
) -> Result<Option<All>, NoMemory>
    ensures taken { IfOk result (λ found. Gives all_tree found cursor.new (all_from groups (item_tree first, cursor.old))) }
    ensures shorter { IfOk result (λ found. OnSome found (length cursor.new ≤ length cursor.old)) }
{
    let mut every: Vec<Item> = Vec::new(alloc);
    push(&mut every, first)?;
    'items: while cursor.take_word(b" && ") {
        let Some(item) = take_item(alloc, cursor, groups)? else {
            return Ok(None);
        };
        push(&mut every, item)?;
    }
    Ok(Some(All { every }))
}

/// Takes the rest of a condition whose first ALL was taken: the ALLs with ` || ` before each.
#[cycle(read)]
fn take_alls(
    alloc: Global,
    first: All,
    cursor: &mut Cursor<'_>,
    groups: usize,
) -> Result<Option<Cond>, NoMemory>
    ensures taken { IfOk result (λ found. Gives (λ c. c) found cursor.new (cond_from groups (all_tree first, cursor.old))) }
    ensures shorter { IfOk result (λ found. OnSome found (length cursor.new ≤ length cursor.old)) }
{
    let mut any: Vec<All> = Vec::new(alloc);
    push(&mut any, first)?;
    'alls: while cursor.take_word(b" || ") {
        let Some(all) = take_all(alloc, cursor, groups)? else {
            return Ok(None);
        };
        push(&mut any, all)?;
    }
    Ok(Some(Cond { any }))
}

/// Takes items with ` && ` between.
#[cycle(read)]
fn take_all(alloc: Global, cursor: &mut Cursor<'_>, groups: usize) -> Result<Option<All>, NoMemory>
    ensures taken { IfOk result (λ found. Gives all_tree found cursor.new (all_at groups cursor.old)) }
    ensures shorter { IfOk result (λ found. OnSome found (length cursor.new < length cursor.old)) }
{
    let Some(first) = take_item(alloc, cursor, groups)? else {
        return Ok(None);
    };
    take_items(alloc, first, cursor, groups)
}

/// Takes ALLs with ` || ` between.
fn take_cond(
    alloc: Global,
    cursor: &mut Cursor<'_>,
    groups: usize,
) -> Result<Option<Cond>, NoMemory>
    ensures { IfOk result (λ found. Gives (λ c. c) found cursor.new (cond_at groups cursor.old)) }
{
    let Some(first) = take_all(alloc, cursor, groups)? else {
        return Ok(None);
    };
    take_alls(alloc, first, cursor, groups)
}

#[tactic(auto, unfolding(crate::specs::Reading::cond_of_text))]
fn build_whole(alloc: Global, text: &[u8]) -> Result<Option<Cond>, NoMemory>
    ensures { IfOk result (λ found. found ≡ cond_of_text text.now) }
{
    if text.len() > MAX_CHARACTERS {
        return Ok(None);
    }
    let mut cursor = Cursor::new(text);
    let Some(cond) = take_cond(alloc, &mut cursor, MAX_GROUPS)? else {
        return Ok(None);
    };
    if !cursor.is_done() {
        return Ok(None);
    }
    Ok(Some(cond))
}

/// Where there is no room for what was read so far, passes over the text, so that memory lacks only where it is a condition's.
pub fn read_whole(alloc: Global, text: &[u8]) -> Result<Option<Cond>, NoMemory>
    ensures exact { IfOk result (λ found. found ≡ cond_of_text text.now) }
    ensures lacked { OnErr result (IsSome (cond_of_text text.now)) }
{
    match build_whole(alloc, text) {
        Ok(found) => Ok(found),
        Err(NoMemory) if pass_whole(text) => Err(NoMemory),
        Err(NoMemory) => Ok(None),
    }
}

/// The condition that this text is. None exactly where it is the text of none: it is not spelled as one, has more than 1,000
/// characters, or opens more than 64 groups at once. `NoMemory` only where it is a condition's text and there is no room for
/// the condition.
pub fn read_cond(alloc: Global, text: &[u8]) -> Result<Option<Cond>, NoMemory>
    ensures found { IfOk result (λ found. IfSome found (λ c. IsCond c × (text.now ≡ cond_text c))) }
    ensures only { (c : CondTree) → IsCond c → text.now ≡ cond_text c → IfOk result (λ found. found ≡ Some c) }
    ensures lacked { OnErr result (IsTextOf IsCond cond_text text.now) }
    ensures exact { IfOk result (λ found. found ≡ cond_of_text text.now) }
{
    read_whole(alloc, text)
}
