ghost use Rattle.std.specs.Prelude.{◌≡◌};
ghost use Rattle.std.specs.Cmp.{IsTotalOrder};
ghost use Rattle.std.specs.FinMap.{IsAntisymmetric};
ghost use Rattle.dubp_expiry.specs.DueOrder.{derived_cmp, due_cmp, entry_cmp};
ghost use Rattle.dubp_expiry.specs.declared.due.Due.{Due as DueValue};

/// The order by which what falls due is a key of maps is that of `specs/DueOrder.antt`.
pub fn dues_are_ordered()
    ensures { (a b : DueValue) → derived_cmp a b ≡ due_cmp a b }
{}

/// The order of entries is total, and only equal entries tie.
pub fn entries_are_ordered()
    ensures total { IsTotalOrder entry_cmp }
    ensures exact { IsAntisymmetric entry_cmp }
{}
