//! Laws of how bytes are cut into entries: the function does nothing, and its contract is the laws.
ghost use Rattle.dubp_entries.specs.Cut.{CutOnce, CutExists, CutGoesOn};

/// Any bytes can be cut into whole entries, in one way, whatever pieces they come in.
pub fn cutting()
    ensures once { CutOnce }
    ensures exists { CutExists }
    ensures goes_on { CutGoesOn }
{}
