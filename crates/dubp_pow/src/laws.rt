//! Laws of the definitions: each function does nothing, and its contract is the law.
ghost use Rattle.std.specs.Prelude.{◌≡◌, ℕ, ◌+◌, ◌≤◌, ℤ, pos, ◌+ℤ◌, ◌-ℤ◌, ◌*ℤ◌, ◌≤ℤ◌};
ghost use Rattle.dubp_pow.specs.Difficulty.{IsHandicap, handicap_of};
ghost use Rattle.dubp_pow.specs.Frames.{next_frame_of, next_var_of};

/// An issuer has one handicap: the greatest that is reached is the one that the search finds.
pub fn handicap_is_one()
    ensures found { (blocks doubled_median : ℕ) → IsHandicap blocks doubled_median (handicap_of blocks doubled_median) }
    ensures only { (blocks doubled_median h : ℕ) → IsHandicap blocks doubled_median h → h ≡ handicap_of blocks doubled_median }
{}

/// A frame stays at 1 or more, and grows by one block at most.
pub fn frame_stays_in_range()
    ensures least { (frame : ℕ) (var : ℤ) → 1 ≤ frame → 1 ≤ next_frame_of frame var }
    ensures most { (frame : ℕ) (var : ℤ) → 1 ≤ frame → next_frame_of frame var ≤ frame + 1 }
{}

/// A variation is at most one off five for each issuer that there is more.
pub fn variation_stays_near()
    ensures least { (var : ℤ) (before after : ℕ) → (var +ℤ (pos 5 *ℤ (pos after -ℤ pos before))) ≤ℤ (next_var_of var before after +ℤ pos 1) }
    ensures most { (var : ℤ) (before after : ℕ) → next_var_of var before after ≤ℤ ((var +ℤ (pos 5 *ℤ (pos after -ℤ pos before))) +ℤ pos 1) }
{}
