ghost use Rattle.std.specs.Prelude.{◌≡◌, IfOk, map, option_map};
ghost use Rattle.dubp_chain.specs.Chains.{Chain, params};
ghost use Rattle.dubp_chain.specs.People.{identity};
ghost use Rattle.dubp_validity.specs.Rules.{IsSound};
ghost use Rattle.dubp_people_views.specs.Certifications.{certification_texts, certifications_told, view_of};

use crate::Registry;
use dubp_atoms::{Key, NoMemory};
use dubp_block::Block;
use dubp_cindex::CertRow;
use dubp_moving::Tables;
use std::alloc::Global;

/// A certification that lives.
#[derive(Clone, Copy, Debug, PartialEq, Eq)]
pub struct CertificationView {
    pub from: Key,
    pub to: Key,
    /// When it was made, in seconds.
    pub made: u64,
    /// When it ends, in seconds.
    pub expires: u64,
    /// The number of the block with its line.
    pub written: u64,
}

/// The live certifications of the key: those that it received, by issuer, and then those that it issued, by receiver. None where the
/// key has no identity.
///
/// `NoMemory` where there is none for the list.
pub fn certs(
    alloc: Global,
    registry: &Registry,
    key: Key,
) -> Result<Option<Vec<CertificationView>>, NoMemory>
    ensures { IfOk result (λ found. (c : Chain) → ⟦<Registry as Tables<Block>>⟧.at registry.now c → IsSound c → option_map (λ views. map certification_texts views.items) found ≡ option_map (λ _. certifications_told c key) (identity c key)) }
{
    match registry.identity(key) {
        Some(_) => {
            let views = views_about(alloc, registry, key)?;
            Ok(Some(views))
        }
        None => Ok(None),
    }
}

/// The live certifications of the key, whether it has an identity or not.
fn views_about(
    alloc: Global,
    registry: &Registry,
    key: Key,
) -> Result<Vec<CertificationView>, NoMemory>
    ensures { IfOk result (λ views. (c : Chain) → ⟦<Registry as Tables<Block>>⟧.at registry.now c → IsSound c → map certification_texts views.items ≡ certifications_told c key) }
{
    let rows = registry.cindex().rows_of(alloc, key)?;
    let views = views_of(alloc, rows.as_slice(), validity(registry))?;
    Ok(views)
}

/// The certifications of the rows, each of which lasts so many seconds.
fn views_of(
    alloc: Global,
    rows: &[(Key, Key, CertRow)],
    lasting: u64,
) -> Result<Vec<CertificationView>, NoMemory>
    ensures { IfOk result (λ views. views.items ≡ map (view_of lasting) rows.now) }
{
    let found = rows.iter().map(|row| view_of(row, lasting)).collect(alloc);
    let views: Vec<CertificationView> = found.map_err(|_| NoMemory)?;
    Ok(views)
}

/// The certification of the row. On a sound chain its end is below 2^41 seconds, since it was made before 2^40 and lasts less than as
/// many, so it is held as it is.
fn view_of(row: &(Key, Key, CertRow), lasting: u64) -> CertificationView
    ensures { result ≡ view_of lasting row.now }
{
    CertificationView {
        from: row.0,
        to: row.1,
        made: row.2.made,
        expires: row.2.made.saturating_add(lasting),
        written: row.2.written,
    }
}

/// How long a certification lasts, in seconds; 0 where the chain is empty.
fn validity(registry: &Registry) -> u64
    ensures { (c : Chain) → ⟦<Registry as Tables<Block>>⟧.at registry.now c → result ≡ (params c).sig_validity }
{
    match registry.first() {
        Some(first) => first.params.sig_validity,
        None => 0,
    }
}
