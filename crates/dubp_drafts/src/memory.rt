ghost use Rattle.std.specs.Prelude.{◌≡◌, ◌++◌, ◌∷◌, [], IfOk, OnOk};

use dubp_atoms::{Items, NoMemory};
use std::alloc::Global;

// Appends a value to a list.
pub(crate) fn push<T: Drop>(list: &mut Vec<T>, value: T) -> Result<(), NoMemory>
    ensures { OnOk result (list.new.items ≡ list.old.items ++ value ∷ []) }
{
    list.push(value).map_err(|_| NoMemory)
}

// The list of this value alone.
pub(crate) fn only<T: Drop>(alloc: Global, value: T) -> Result<Items<T>, NoMemory>
    ensures { IfOk result (λ list. list ≡ value ∷ []) }
{
    Ok(Items::from_vec(vec_of(alloc, value)?))
}

// The same, as a `Vec`.
pub(crate) fn vec_of<T: Drop>(alloc: Global, value: T) -> Result<Vec<T>, NoMemory>
    ensures { IfOk result (λ list. list.items ≡ value ∷ []) }
{
    let mut list = Vec::new(alloc);
    push(&mut list, value)?;
    Ok(list)
}
