ghost use Rattle.std.specs.Prelude.{◌≡◌, ◌++◌, ◌∷◌, [], IfOk, OnOk, OnErr};

use dubp_atoms::NoMemory;
use std::alloc::Global;

/// Appends a value to a list, of which most have one: the first gets the room of one. `NoMemory` where there is no room for it.
pub fn push<T: Drop>(list: &mut Vec<T>, value: T) -> Result<(), NoMemory>
    ensures appended { OnOk result (list.new.items ≡ list.old.items ++ value ∷ []) }
    ensures refused { OnErr result (list.new.items ≡ list.old.items) }
{
    if list.is_empty() {
        list.reserve_exact(1).map_err(|_| NoMemory)?;
    }
    list.push(value).map_err(|_| NoMemory)
}

/// A value in a box. `NoMemory` where there is no room for it.
pub fn boxed<T: Drop>(alloc: Global, value: T) -> Result<Box<T>, NoMemory>
    ensures { IfOk result (λ boxed. boxed.value ≡ value) }
{
    Box::new(alloc, value).map_err(|_| NoMemory)
}

/// The bytes as a list. `NoMemory` where there is no room for it.
pub fn copied(alloc: Global, bytes: &[u8]) -> Result<Vec<u8>, NoMemory>
    ensures { IfOk result (λ copied. copied.items ≡ bytes.now) }
{
    Vec::from_slice(alloc, bytes).map_err(|_| NoMemory)
}
