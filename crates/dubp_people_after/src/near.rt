ghost use Rattle.std.specs.Prelude.{◌≡◌, ◌||◌, OnOk};
ghost use Rattle.std.specs.List.{list_any};
ghost use Rattle.indexmap.specs.IndexSet.{contains};
ghost use Rattle.dubp_atoms.specs.Same.{Text, same_text};
ghost use Rattle.dubp_people_after.specs.Near.{is_end_of};
ghost use Rattle.dubp_registry.specs.OfSteps.{is_end};

use dubp_atoms::{Key, NoMemory, Secret};
use dubp_cindex::CertRow;
use dubp_sets::insert;
use indexmap::IndexSet;

/// Puts both ends of each row into the set.
pub(crate) fn put_rows(
    set: &mut IndexSet<Key, Secret>,
    rows: &[(Key, Key, CertRow)],
) -> Result<(), NoMemory>
    ensures { OnOk result ((k : Text) → contains same_text set.new k ≡ (contains same_text set.old k || list_any (is_end_of k) rows.now)) }
{
    for row in rows {
        insert_both(set, row.0, row.1)?;
    }
    Ok(())
}

fn insert_both(set: &mut IndexSet<Key, Secret>, from: Key, to: Key) -> Result<(), NoMemory>
    ensures { OnOk result ((k : Text) → contains same_text set.new k ≡ (contains same_text set.old k || is_end from to k)) }
{
    insert(set, from)?;
    insert(set, to)?;
    Ok(())
}
