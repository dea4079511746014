ghost use Rattle.std.specs.Prelude.{◌≡◌, ◌≤◌, ◌++◌, ◌∷◌, [], length, decimal, IfOk, IfSome, OnOk, All};
ghost use Rattle.std.specs.Fmt.{signed_decimal};
ghost use Rattle.dubp_atoms.specs.Spelling.{IsSigned};
ghost use Rattle.dubp_cond.specs.Transactions.{IsTx};
ghost use Rattle.dubp_params.specs.Spelling.{IsParams};
ghost use Rattle.dubp_block.specs.AddsLines.{AddsLines};
ghost use Rattle.dubp_block.specs.Parts.{opening_of, issuing_of, closing_of};
ghost use Rattle.dubp_block.specs.Text.{IsBlock, dividend_lines, previous_lines, params_lines, section_lines, inner_lines, block_text};

use crate::block::Block;
use crate::compact::add_transactions;
use crate::entries::{add_field, add_line, add_section, add_value};
use arrayvec::ArrayVec;
use dubp_atoms::{Hash, Key, Line, NoMemory, TextSink};
use dubp_lines::{put_number_line, put_signed_line};
use dubp_params::BoxedParams;
use std::alloc::Global;

/// The text of a block. The block is in range. `NoMemory` where there is no room for its text.
pub fn put_block(alloc: Global, block: &Block) -> Result<Vec<u8>, NoMemory>
    requires { IsBlock block.now }
    ensures { IfOk result (λ text. text.items ≡ block_text block.now) }
{
    let mut text = Vec::new(alloc);
    add_inner(&mut text, block)?;
    add_closing(&mut text, block)?;
    Ok(text)
}

/// Adds the lines before InnerHash.
pub fn add_inner<S: TextSink>(out: &mut S, block: &Block) -> Result<(), S::Refusal>
    requires { IsBlock block.now }
    ensures { OnOk result (AddsLines S.has out.old out.new (inner_lines block.now)) }
{
    let mut line: Line = ArrayVec::new();
    add_opening(out, block)?;
    add_dividend(out, block.dividend)?;
    add_issuing(out, block)?;
    add_previous(out, &block.previous)?;
    add_params(out, &mut line, &block.params)?;
    add_number(out, b"MembersCount: ", block.members)?;
    add_sections(out, &mut line, block)?;
    Ok(())
}

// Adds the lines from Version to MedianTime.
fn add_opening<S: TextSink>(out: &mut S, block: &Block) -> Result<(), S::Refusal>
    ensures { OnOk result (AddsLines S.has out.old out.new (opening_of block.now)) }
{
    add_number(out, b"Version: ", block.version)?;
    add_line(out, b"Type: Block")?;
    add_field(out, b"Currency: ", &block.currency)?;
    add_number(out, b"Number: ", block.number)?;
    add_number(out, b"PoWMin: ", block.pow_min)?;
    add_number(out, b"Time: ", block.time)?;
    add_number(out, b"MedianTime: ", block.median_time)?;
    Ok(())
}

// Adds UniversalDividend, where there is one.
fn add_dividend<S: TextSink>(out: &mut S, dividend: Option<u64>) -> Result<(), S::Refusal>
    ensures { OnOk result (AddsLines S.has out.old out.new (dividend_lines dividend)) }
{
    match dividend {
        None => Ok(()),
        Some(amount) => add_number(out, b"UniversalDividend: ", amount),
    }
}

// Adds the lines from UnitBase to DifferentIssuersCount.
fn add_issuing<S: TextSink>(out: &mut S, block: &Block) -> Result<(), S::Refusal>
    requires { IsSigned block.now.frame_var }
    ensures { OnOk result (AddsLines S.has out.old out.new (issuing_of block.now)) }
{
    add_number(out, b"UnitBase: ", block.unit_base)?;
    add_field(out, b"Issuer: ", &block.issuer)?;
    add_number(out, b"IssuersFrame: ", block.frame)?;
    add_signed(out, b"IssuersFrameVar: ", block.frame_var)?;
    add_number(out, b"DifferentIssuersCount: ", block.issuers)?;
    Ok(())
}

// Adds PreviousHash and PreviousIssuer, where there is a block before.
fn add_previous<S: TextSink>(out: &mut S, previous: &Option<(Hash, Key)>) -> Result<(), S::Refusal>
    ensures { OnOk result (AddsLines S.has out.old out.new (previous_lines previous.now)) }
{
    match previous {
        None => Ok(()),
        Some((hash, issuer)) => {
            add_field(out, b"PreviousHash: ", hash)?;
            add_field(out, b"PreviousIssuer: ", issuer)?;
            Ok(())
        }
    }
}

// Adds Parameters, where there are some.
fn add_params<S: TextSink>(
    out: &mut S,
    line: &mut Line,
    params: &Option<BoxedParams>,
) -> Result<(), S::Refusal>
    requires { IfSome params.now IsParams }
    ensures { OnOk result (AddsLines S.has out.old out.new (params_lines params.now)) }
{
    match params {
        None => Ok(()),
        Some(params) => add_value(out, line, b"Parameters: ", params.get()),
    }
}

// Adds the eight sections, whose lines are put together in `line`.
fn add_sections<S: TextSink>(out: &mut S, line: &mut Line, block: &Block) -> Result<(), S::Refusal>
    requires { All IsTx block.now.transactions }
    ensures { OnOk result (AddsLines S.has out.old out.new (section_lines block.now)) }
{
    add_section(out, line, b"Identities:", &block.identities)?;
    add_section(out, line, b"Joiners:", &block.joiners)?;
    add_section(out, line, b"Actives:", &block.actives)?;
    add_section(out, line, b"Leavers:", &block.leavers)?;
    add_section(out, line, b"Revoked:", &block.revoked)?;
    add_section(out, line, b"Excluded:", &block.excluded)?;
    add_section(out, line, b"Certifications:", &block.certifications)?;
    add_line(out, b"Transactions:")?;
    add_transactions(out, line, &block.transactions)?;
    Ok(())
}

// Adds InnerHash, Nonce and the signature.
fn add_closing<S: TextSink>(out: &mut S, block: &Block) -> Result<(), S::Refusal>
    ensures { OnOk result (AddsLines S.has out.old out.new (closing_of block.now)) }
{
    add_field(out, b"InnerHash: ", &block.inner_hash)?;
    add_number(out, b"Nonce: ", block.nonce)?;
    add_field(out, b"", &block.sig)?;
    Ok(())
}

// Adds a line of a name and a number.
#[tactic(auto, using(crate::proofs::Added::one_line))]
fn add_number<S: TextSink>(out: &mut S, name: &[u8], n: u64) -> Result<(), S::Refusal>
    requires { length name.now ≤ 100 }
    ensures { OnOk result (AddsLines S.has out.old out.new ((name.now ++ decimal n) ∷ [])) }
{
    put_number_line(out, name, n)
}

// Adds a line of a name and a signed number.
#[tactic(auto, using(crate::proofs::Added::one_line))]
fn add_signed<S: TextSink>(out: &mut S, name: &[u8], n: i64) -> Result<(), S::Refusal>
    requires { length name.now ≤ 100 }
    ensures { OnOk result (AddsLines S.has out.old out.new ((name.now ++ signed_decimal n) ∷ [])) }
{
    put_signed_line(out, name, n)
}
