ghost use Rattle.std.specs.Prelude.{◌≡◌, ◌≤◌, ◌<◌, ◌^◌, ◌∷◌, ◌++◌, IfOk, None, Some, length, option_copied, reverse};
ghost use Rattle.dubp_params.specs.Ranges.{IsInRange};
ghost use Rattle.dubp_atoms.specs.Hashing.{hash_of};
ghost use Rattle.dubp_block.specs.Text.{IsBlock, block_text, inner_text};
ghost use Rattle.dubp_rules.specs.First.{FirstOf, IsFirst};
ghost use Rattle.dubp_verdict.specs.Verdicts.{Verdicts as VerdictsValue};
ghost use Rattle.dubp_chain.specs.Chains.{params as params_of};
ghost use Rattle.dubp_validity.specs.Rules.{Holds, longest_block};
ghost use Rattle.dubp_validity.specs.Drafts.{FirstBad};
ghost use Rattle.dubp_head.specs.Following.{AreHeads, MayFollow, KeepsLimits, limit_rules};
ghost use Rattle.dubp_head.specs.HeadsStates.{AreOver};
ghost use Rattle.dubp_head.specs.NextHead.{HeaderHolds};
ghost use Rattle.dubp_chain.specs.Members.{members};
ghost use Rattle.dubp_chain.specs.Heads.{next_head};
ghost use Rattle.dubp_kept.specs.KeptChain.{IsKnown, stated_params as stated};
ghost use Rattle.dubp_kept.specs.OfLocal.{all_hashes, made_hashes};
ghost use Rattle.dubp_kept.specs.Parts.{early_rules, link_rules, opening_rules, place_rules, table_parts};
ghost use Rattle.dubp_kept.specs.Asking.{Asks, asked_header};
ghost use Rattle.dubp_kept.specs.Judged.{HeadFits, IsToJudge, Judged, JudgedAsked, Opened};

use crate::checks::{
    currency_and_version_fit, first_of, issuer_is_member, number_is_next, previous_hash_is_right,
    previous_issuer_is_right,
};
use crate::judgement::Judgement;
use crate::judges::Judges;
use crate::{Asked, Checked, Kept, MadeHashes, Written, check_local_hashed};
use dubp_atoms::{Hash, Items, NoMemory};
use dubp_block::Block;
use dubp_chain::Head;
use dubp_docs::TxHashes;
use dubp_head::{Heads, augment_over, head_rules_over, stated_rules_over};
use dubp_moving::Tables;
use dubp_params::Params;
use dubp_rules::{Rule, first_of};
use dubp_verdict::Verdicts;
use std::alloc::Global;

/// What there is to say of the block, whose text has at most 1,048,576 bytes and whose inner hash is at hand, behind the chain.
pub fn judge<T: Judges>(
    alloc: Global,
    kept: &Kept<T>,
    block: &Block,
    inner: &Hash,
    verdicts: &Verdicts,
) -> Result<Judgement, NoMemory>
    requires text { IsBlock block.now }
    requires inner { inner.now ≡ hash_of (inner_text block.now) }
    requires short { length (block_text block.now) ≤ longest_block }
    ensures { IfOk result (Judged verdicts.now kept.now.chain block.now) }
{
    let judgement = judge_over(
        alloc,
        kept.tables(),
        kept.heads(),
        kept.blocks(),
        block,
        inner,
        verdicts,
        Asked::Signed,
    )?;
    Ok(judgement)
}

/// The first rule that the block, whose text has at most 1,048,576 bytes and whose inner hash is at hand, breaks behind the chain, other
/// than `L05` and `G62`, which a block keeps once it is signed; or None where it breaks none of the others.
///
/// `NoMemory` where there is no memory to check the block.
pub fn trial<T: Judges>(
    alloc: Global,
    kept: &Kept<T>,
    block: &Block,
    inner: &Hash,
    verdicts: &Verdicts,
) -> Result<Option<Rule>, NoMemory>
    requires text { IsBlock block.now }
    requires inner { inner.now ≡ hash_of (inner_text block.now) }
    requires short { length (block_text block.now) ≤ longest_block }
    ensures { IfOk result (FirstBad verdicts.now kept.now.chain block.now) }
{
    let judgement = judge_over(
        alloc,
        kept.tables(),
        kept.heads(),
        kept.blocks(),
        block,
        inner,
        verdicts,
        Asked::Unsigned,
    )?;
    match judgement {
        Judgement::Breaks(rule) => Ok(Some(rule)),
        Judgement::Keeps(_head, _params, _hashes) => Ok(None),
    }
}

// What there is to say of the block behind the chain of these blocks, of the rules that it is asked.
fn judge_over<T: Judges>(
    alloc: Global,
    tables: &T,
    heads: &Heads,
    blocks: &[Block],
    block: &Block,
    inner: &Hash,
    verdicts: &Verdicts,
    asked: Asked,
) -> Result<Judgement, NoMemory>
    requires at { T.at tables.now (reverse blocks.now) }
    requires known { IsKnown (reverse blocks.now) heads.now }
    requires text { IsBlock block.now }
    requires inner { inner.now ≡ hash_of (inner_text block.now) }
    requires short { length (block_text block.now) ≤ longest_block }
    ensures { IfOk result (JudgedAsked asked verdicts.now (reverse blocks.now) block.now) }
{
    match first_opening(alloc, heads, blocks, block, inner, verdicts, asked)? {
        Checked::Breaks(rule) => Ok(Judgement::Breaks(rule)),
        Checked::Keeps(hashes) => {
            judge_opened(alloc, tables, heads, blocks, block, hashes, verdicts, asked)
        }
    }
}

// What the rules behind `G51` say, where those up to it that are asked hold. `hashes` are those of the block.
fn judge_opened<T: Judges>(
    alloc: Global,
    tables: &T,
    heads: &Heads,
    blocks: &[Block],
    block: &Block,
    hashes: MadeHashes,
    verdicts: &Verdicts,
    asked: Asked,
) -> Result<Judgement, NoMemory>
    requires at { T.at tables.now (reverse blocks.now) }
    requires known { IsKnown (reverse blocks.now) heads.now }
    requires text { IsBlock block.now }
    requires short { length (block_text block.now) ≤ longest_block }
    requires opening { IsFirst (Asks asked verdicts.now (reverse blocks.now) block.now) opening_rules None }
    requires hashes { hashes ≡ made_hashes block.now }
    ensures { IfOk result (JudgedAsked asked verdicts.now (reverse blocks.now) block.now) }
{
    if let Some(rule) = first_of_place(tables, heads, blocks, block) {
        return Ok(Judgement::Breaks(rule));
    }
    let params = params_with(blocks, block).unwrap();
    judge_placed(
        alloc, tables, heads, blocks, block, params, hashes, verdicts, asked,
    )
}

// The parameters of the chain with the block.
fn params_with<'a>(blocks: &'a [Block], block: &'a Block) -> Option<&'a Params>
    ensures { option_copied result ≡ stated (block.now ∷ reverse blocks.now) }
{
    match first_of(blocks) {
        Some(first) => first.stated_params(),
        None => block.stated_params(),
    }
}

// The parameters of the chain; the empty chain has none.
fn stated_params(blocks: &[Block]) -> Option<&Params>
    ensures { option_copied result ≡ stated (reverse blocks.now) }
{
    first_of(blocks)?.stated_params()
}

// What the rules up to `G51` say of the block.
fn first_opening(
    alloc: Global,
    heads: &Heads,
    blocks: &[Block],
    block: &Block,
    inner: &Hash,
    verdicts: &Verdicts,
    asked: Asked,
) -> Result<Checked, NoMemory>
    requires text { IsBlock block.now }
    requires inner { inner.now ≡ hash_of (inner_text block.now) }
    requires known { IsKnown (reverse blocks.now) heads.now }
    ensures { IfOk result (Opened asked verdicts.now (reverse blocks.now) block.now) }
{
    match check_local_hashed(alloc, block, inner, verdicts, stated_params(blocks), asked)? {
        Checked::Breaks(rule) => Ok(Checked::Breaks(rule)),
        Checked::Keeps(hashes) => {
            if number_is_next(blocks, block) {
                Ok(Checked::Keeps(hashes))
            } else {
                Ok(Checked::Breaks(Rule::G51))
            }
        }
    }
}

// The first of `G52`, `G53`, `G49` and `G101` that the block breaks.
fn first_of_place<T: Judges>(
    tables: &T,
    heads: &Heads,
    blocks: &[Block],
    block: &Block,
) -> Option<Rule>
    requires at { T.at tables.now (reverse blocks.now) }
    requires known { IsKnown (reverse blocks.now) heads.now }
    ensures { (v : VerdictsValue) → IsFirst (Holds v (reverse blocks.now) block.now) place_rules result }
{
    match first_of_links(heads, blocks, block) {
        Some(rule) => Some(rule),
        None if issuer_is_member(tables, blocks, block) => None,
        None => Some(Rule::G101),
    }
}

// The first of `G52`, `G53` and `G49` that the block breaks.
fn first_of_links(heads: &Heads, blocks: &[Block], block: &Block) -> Option<Rule>
    requires { IsKnown (reverse blocks.now) heads.now }
    ensures { (v : VerdictsValue) → FirstOf (Holds v (reverse blocks.now) block.now) link_rules result }
{
    first_of!(
        Rule::G52 => previous_hash_is_right(blocks, heads, block),
        Rule::G53 => previous_issuer_is_right(blocks, heads, block),
        Rule::G49 => currency_and_version_fit(blocks, heads, block),
    )
}

// What the limits and the rules behind them say, where the place is right.
fn judge_placed<T: Judges>(
    alloc: Global,
    tables: &T,
    heads: &Heads,
    blocks: &[Block],
    block: &Block,
    params: &Params,
    hashes: MadeHashes,
    verdicts: &Verdicts,
    asked: Asked,
) -> Result<Judgement, NoMemory>
    requires at { T.at tables.now (reverse blocks.now) }
    requires known { IsKnown (reverse blocks.now) heads.now }
    requires text { IsBlock block.now }
    requires short { length (block_text block.now) ≤ longest_block }
    requires params { Some params.now ≡ stated (block.now ∷ reverse blocks.now) }
    requires opening { IsFirst (Asks asked verdicts.now (reverse blocks.now) block.now) opening_rules None }
    requires place { IsFirst (Holds verdicts.now (reverse blocks.now) block.now) place_rules None }
    requires hashes { hashes ≡ made_hashes block.now }
    ensures { IfOk result (JudgedAsked asked verdicts.now (reverse blocks.now) block.now) }
{
    let members = tables.members_with(alloc, block)?;
    match augment_over(heads, params, block, &hashes.block, members) {
        Err(passed) => Ok(Judgement::Breaks(passed.rule)),
        Ok(head) => judge_headed(
            alloc,
            tables,
            heads,
            blocks,
            block,
            params,
            &head,
            hashes.transactions,
            verdicts,
            asked,
        ),
    }
}

// What the rules on the header and those behind them say, where the limits are kept.
fn judge_headed<T: Judges>(
    alloc: Global,
    tables: &T,
    heads: &Heads,
    blocks: &[Block],
    block: &Block,
    params: &Params,
    head: &Head,
    hashes: Items<TxHashes>,
    verdicts: &Verdicts,
    asked: Asked,
) -> Result<Judgement, NoMemory>
    requires at { T.at tables.now (reverse blocks.now) }
    requires known { IsKnown (reverse blocks.now) heads.now }
    requires text { IsBlock block.now }
    requires short { length (block_text block.now) ≤ longest_block }
    requires params { Some params.now ≡ stated (block.now ∷ reverse blocks.now) }
    requires opening { IsFirst (Asks asked verdicts.now (reverse blocks.now) block.now) opening_rules None }
    requires place { IsFirst (Holds verdicts.now (reverse blocks.now) block.now) place_rules None }
    requires hashes { hashes ≡ all_hashes block.now }
    requires limits { IsFirst (Holds verdicts.now (reverse blocks.now) block.now) limit_rules None }
    requires count { head.now.members ≡ length (members (block.now ∷ reverse blocks.now)) }
    requires follows { MayFollow head.now.members heads.now.list block.now }
    requires within { KeepsLimits params.now head.now.members heads.now.list block.now }
    requires head { head.now ≡ next_head params.now head.now.members heads.now.list block.now }
    ensures { IfOk result (JudgedAsked asked verdicts.now (reverse blocks.now) block.now) }
{
    match first_of_header(heads, params, head, block, asked) {
        Some(rule) => Ok(Judgement::Breaks(rule)),
        None => judge_tables(
            alloc, tables, blocks, block, params, head, hashes, verdicts, asked,
        ),
    }
}

// The first of the rules on the header that the block breaks, of those that it is asked.
fn first_of_header(
    heads: &Heads,
    params: &Params,
    head: &Head,
    block: &Block,
    asked: Asked,
) -> Option<Rule>
    requires valid { IsInRange params.now }
    requires over { AreOver heads.now params.now }
    requires heads { AreHeads params.now heads.now.list }
    requires block { MayFollow head.now.members heads.now.list block.now }
    requires limits { KeepsLimits params.now head.now.members heads.now.list block.now }
    requires head { head.now ≡ next_head params.now head.now.members heads.now.list block.now }
    ensures { IsFirst (HeaderHolds params.now heads.now.list head.now block.now) (asked_header asked) result }
{
    match asked {
        Asked::Signed => head_rules_over(heads, params, head, block),
        Asked::Unsigned => stated_rules_over(heads, head, block),
    }
}

// What the rules on people and on money say, where those before them that are asked hold.
fn judge_tables<T: Judges>(
    alloc: Global,
    tables: &T,
    blocks: &[Block],
    block: &Block,
    params: &Params,
    head: &Head,
    hashes: Items<TxHashes>,
    verdicts: &Verdicts,
    asked: Asked,
) -> Result<Judgement, NoMemory>
    requires at { T.at tables.now (reverse blocks.now) }
    requires short { length (block_text block.now) ≤ longest_block }
    requires to_judge { IsToJudge (reverse blocks.now) block.now head.now params.now }
    requires early { IsFirst (Asks asked verdicts.now (reverse blocks.now) block.now) early_rules None }
    requires fits { HeadFits (reverse blocks.now) block.now head.now }
    requires hashes { hashes ≡ all_hashes block.now }
    ensures { IfOk result (JudgedAsked asked verdicts.now (reverse blocks.now) block.now) }
{
    match tables.first_broken(alloc, block, head, params, hashes.as_slice(), verdicts)? {
        Some(rule) => Ok(Judgement::Breaks(rule)),
        None => Ok(Judgement::Keeps(*head, *params, hashes)),
    }
}
