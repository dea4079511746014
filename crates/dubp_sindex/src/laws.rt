//! Laws of the definitions: the function does nothing, and its contract is the laws.
ghost use Rattle.std.specs.Prelude.{◌++◌, ◌∷◌, List, []};
ghost use Rattle.dubp_cond.specs.declared.source.SourceId.{SourceId};
ghost use Rattle.dubp_sindex.specs.Rows.{Entry, AreRows, IsNewRow, IsFreeRow, with_row, without};

/// The rows stay such rows: with a new one behind them, with a free one in its place, and without any of them.
pub fn rows_stay()
    ensures made { (rows : List Entry) (e : Entry) → AreRows rows → IsNewRow rows e → AreRows (rows ++ e ∷ []) }
    ensures between { (rows : List Entry) (e : Entry) → AreRows rows → IsFreeRow rows e → AreRows (with_row e rows) }
    ensures spent { (rows : List Entry) (id : SourceId) → AreRows rows → AreRows (without id rows) }
{}
