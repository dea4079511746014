ghost use Rattle.std.specs.Prelude.{◌≡◌, ◌-◌, ◌^◌, ◌<◌, ◌≤◌, IfOk, IsOk, length};
ghost use Rattle.std.specs.Option.{option_map_or};
ghost use Rattle.dubp_params.specs.Ranges.{IsInRange};
ghost use Rattle.dubp_atoms.specs.Same.{Text};
ghost use Rattle.dubp_chain.specs.Heads.{blocks_of, handicap_among};
ghost use Rattle.dubp_head.specs.Frames.{frame_issuers};
ghost use Rattle.dubp_head.specs.HeadsStates.{AreOver};
ghost use Rattle.dubp_head.specs.Following.{AreHeads};
ghost use Rattle.dubp_head.specs.NextHead.{difficulty_for};

use crate::augmenting::least_difficulty;
use crate::heads::Heads;
use dubp_atoms::{Key, NoMemory};
use dubp_chain::Head;
use dubp_params::Params;
use dubp_pow::{handicap, issuer_diff};

/// The difficulty of the key for the next block behind the heads, of which there is one at least. It takes no memory, and is never
/// refused.
pub fn difficulty(heads: &Heads, params: &Params, key: Key) -> Result<u128, NoMemory>
    requires valid { IsInRange params.now }
    requires over { AreOver heads.now params.now }
    requires heads { AreHeads params.now heads.now.list }
    requires some { 0 < length heads.now.list }
    ensures value { IfOk result (λ d. d ≡ difficulty_for params.now heads.now.list 0 key) }
    ensures always { IsOk result }
{
    Ok(difficulty_over(heads, params, 0, &key))
}

/// The same. It is `first` where there is no head.
pub(crate) fn difficulty_over(heads: &Heads, params: &Params, first: u64, key: &Key) -> u128
    requires valid { IsInRange params.now }
    requires over { AreOver heads.now params.now }
    requires heads { AreHeads params.now heads.now.list }
    ensures { result ≡ difficulty_for params.now heads.now.list first key.now }
{
    let Some(before) = heads.last() else {
        return first as u128;
    };
    let least = least_difficulty(heads, before, params);
    let last = heads.last_place(key);
    let handicap = handicap_in(heads, heads.blocks_of_last(last));
    let own = heads.at_last(last);
    let issuers = issuers_at(own);
    let since = blocks_since(heads, own);
    issuer_diff(least, params.percent_rot, issuers, since, handicap)
}

// The handicap in the last frame of a key that issued so many of its blocks.
fn handicap_in(heads: &Heads, blocks: u64) -> u64
    requires few { length (frame_issuers heads.now.list) ≤ 2 ^ 40 }
    requires blocks { blocks ≤ length (frame_issuers heads.now.list) }
    ensures { (k : Text) → blocks ≡ blocks_of (frame_issuers heads.now.list) k → result ≡ handicap_among (frame_issuers heads.now.list) k }
{
    handicap(blocks, heads.doubled_median())
}

// How many issuers were counted at the last block of a key, which has this head; 0 where it has none.
fn issuers_at(own: Option<&Head>) -> u64
    ensures { result ≡ option_map_or (λ h. h.now.issuers) own.entry 0 }
{
    match own {
        Some(own) => own.issuers,
        None => 0,
    }
}

// How many blocks stand behind the last block of a key, which has this head; 0 where it has none.
fn blocks_since(heads: &Heads, own: Option<&Head>) -> u64
    ensures { result ≡ option_map_or (λ h. length heads.now.list - 1 - h.now.number) own.entry 0 }
{
    match own {
        Some(own) => (heads.len() as u64)
            .saturating_sub(1)
            .saturating_sub(own.number),
        None => 0,
    }
}
