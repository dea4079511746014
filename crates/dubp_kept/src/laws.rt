//! The parts in which the rules are asked are the table. The function does nothing, and its contract says so.
ghost use Rattle.dubp_kept.specs.Parts.{AreParts};

/// The parts of the rules, one behind the other, are the table in its order.
pub fn parts_are_the_table()
    ensures { AreParts }
{}
