//! Rules on the lines of Certifications.
ghost use Rattle.std.specs.Prelude.{◌≡◌, ◌↔◌, ◌<◌, IsTrue};
ghost use Rattle.std.specs.Option.{IsSomeAnd};
ghost use Rattle.std.specs.List.{AllByRecursion};
ghost use Rattle.dubp_chain.specs.Chains.{Chain};
ghost use Rattle.dubp_validity.specs.Rules.{IsSound};
ghost use Rattle.dubp_validity.specs.PeopleRules.{CertificationsAreInTime, IssuersWaited, LivePairsAreRenewed};
ghost use Rattle.dubp_registry.specs.OfLeft.{IsAsked};
ghost use Rattle.dubp_people_rules.specs.Lines.{IsCertificationInTime, HasIssuerWaited, IsRowRenewed, MayFollow, MayFollowLast, is_live_then};

use crate::windows::{has_waited, has_waited_since, is_in_window, is_past};
use dubp_block::{Block, CertLine};
use dubp_cindex::CertRow;
use dubp_moving::Tables;
use dubp_registry::{Next, Registry};

/// The version of blocks that may renew a certification.
const RENEWING_VERSION: u64 = 11;

/// The stamp of each certification has a time, and the time of the chain with the block is at most sigWindow above it: rule `G65`.
pub fn certifications_are_in_time(registry: &Registry, next: &Next, block: &Block) -> bool
    ensures { (c : Chain) → ⟦<Registry as Tables<Block>>⟧.at registry.now c → IsAsked c block.now next.now → (IsTrue result ↔ CertificationsAreInTime c block.now) }
{
    are_in_time(registry, next, block, block.certifications.as_slice())
}

fn are_in_time(registry: &Registry, next: &Next, block: &Block, lines: &[CertLine]) -> bool
    ensures { (c : Chain) → ⟦<Registry as Tables<Block>>⟧.at registry.now c → (IsTrue result ↔ AllByRecursion (IsCertificationInTime c block.now next.now) lines.now) }
{
    for line in lines {
        if !is_in_time(registry, next, block, line) {
            return false;
        }
    }
    true
}

fn is_in_time(registry: &Registry, next: &Next, block: &Block, line: &CertLine) -> bool
    ensures { (c : Chain) → ⟦<Registry as Tables<Block>>⟧.at registry.now c → (IsTrue result ↔ IsCertificationInTime c block.now next.now line.now) }
{
    let made = registry.certification_made(block, line);
    is_in_window(next.time, next.params.sig_window, made)
}

/// For each issuer of a certification who has issued one in the chain, the time of the chain with the block is at least sigPeriod
/// above the median time of the block of the last one: rule `G67`.
pub fn issuers_waited(registry: &Registry, next: &Next, block: &Block) -> bool
    ensures { (c : Chain) → ⟦<Registry as Tables<Block>>⟧.at registry.now c → IsAsked c block.now next.now → (IsTrue result ↔ IssuersWaited c block.now) }
{
    all_issuers_waited(registry, next, block.certifications.as_slice())
}

fn all_issuers_waited(registry: &Registry, next: &Next, lines: &[CertLine]) -> bool
    ensures { (c : Chain) → ⟦<Registry as Tables<Block>>⟧.at registry.now c → IsSound c → (IsTrue result ↔ AllByRecursion (HasIssuerWaited c next.now) lines.now) }
{
    for line in lines {
        if !issuer_has_waited(registry, next, line) {
            return false;
        }
    }
    true
}

fn issuer_has_waited(registry: &Registry, next: &Next, line: &CertLine) -> bool
    ensures { (c : Chain) → ⟦<Registry as Tables<Block>>⟧.at registry.now c → IsSound c → (IsTrue result ↔ HasIssuerWaited c next.now line.now) }
{
    let last = registry.last_issued(line.from);
    has_waited_since(registry, next.time, next.params.sig_period, last)
}

/// For each certification whose pair is live by the lines of the chain at the time of the chain with the block, Version is 11, that
/// time is at least msWindow above the median time of the block of the pair's last line, and the time of the certification's stamp is
/// above that of the pair's last line: rule `G71`.
pub fn live_pairs_are_renewed(registry: &Registry, next: &Next, block: &Block) -> bool
    ensures { (c : Chain) → ⟦<Registry as Tables<Block>>⟧.at registry.now c → IsAsked c block.now next.now → (IsTrue result ↔ LivePairsAreRenewed c block.now) }
{
    may_all_follow(registry, next, block, block.certifications.as_slice())
}

fn may_all_follow(registry: &Registry, next: &Next, block: &Block, lines: &[CertLine]) -> bool
    ensures { (c : Chain) → ⟦<Registry as Tables<Block>>⟧.at registry.now c → (IsTrue result ↔ AllByRecursion (MayFollowLast c block.now next.now) lines.now) }
{
    for line in lines {
        if !may_follow_last(registry, next, block, line) {
            return false;
        }
    }
    true
}

fn may_follow_last(registry: &Registry, next: &Next, block: &Block, line: &CertLine) -> bool
    ensures { (c : Chain) → ⟦<Registry as Tables<Block>>⟧.at registry.now c → (IsTrue result ↔ MayFollowLast c block.now next.now line.now) }
{
    let last = registry.certification(line.from, line.to);
    may_follow(registry, next, block, line, last)
}

/// Whether the line may follow the pair's last one, whose row this is.
fn may_follow(
    registry: &Registry,
    next: &Next,
    block: &Block,
    line: &CertLine,
    last: Option<CertRow>,
) -> bool
    ensures { (c : Chain) → ⟦<Registry as Tables<Block>>⟧.at registry.now c → (IsTrue result ↔ MayFollow c block.now next.now line.now last) }
{
    match last {
        Some(row) => !is_still_live(&row, next) || is_renewed(registry, next, block, line, &row),
        None => true,
    }
}

/// Whether the certification of the row is live at the time of the chain with the block.
fn is_still_live(row: &CertRow, next: &Next) -> bool
    ensures { result ≡ is_live_then next.now row.now }
{
    row.live && !has_waited(next.time, next.params.sig_validity, row.made)
}

/// Whether the line may renew the certification of the row.
fn is_renewed(
    registry: &Registry,
    next: &Next,
    block: &Block,
    line: &CertLine,
    row: &CertRow,
) -> bool
    ensures { (c : Chain) → ⟦<Registry as Tables<Block>>⟧.at registry.now c → (IsTrue result ↔ IsRowRenewed c block.now next.now line.now row.now) }
{
    block.version == RENEWING_VERSION
        && is_past(registry, next.time, next.params.ms_window, row.written)
        && is_newer(registry.certification_made(block, line), row.made)
}

/// Whether what was made at the first time, where it has one, was made after the second. Both are in seconds.
fn is_newer(made: Option<u64>, last: u64) -> bool
    ensures { IsTrue result ↔ IsSomeAnd made (λ m. last < m) }
{
    match made {
        Some(made) => last < made,
        None => false,
    }
}
