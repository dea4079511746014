ghost use Rattle.dubp_people_apply.specs.Counting.{SetsFit};

/// A block sets at most eight keys for each record on people, and eight.
pub fn sets_fit()
    ensures { SetsFit }
{}
