ghost use Rattle.dubp_atoms.specs.declared.stamp.Stamp.{Stamp};
ghost use Rattle.dubp_resolve.specs.Choice.{Choices};
ghost use Rattle.dubp_resolve.specs.Laws.{ChoosesGreatest, EachIsFound, FitsAlways, HasOnePath, LastAreEnough};
ghost use Rattle.dubp_resolve.specs.Resolve.{Ends, HasOneResult, IsDetermined, IsTotal};

/// A switch to a stored branch: from a state it leads to another, or it fails, which is noted. A failure tells the branch by its tip, and the
/// block at which it failed.
pub trait Switching {
    ghost State: { Type 0 };

    ghost Failure: { Type 0 };

    ghost tip: { Failure → Stamp };

    ghost at: { Failure → Stamp };

    ghost view: { State → Choices };

    ghost succeeds: { State → Stamp → State → Type 0 };

    ghost fails: { State → Failure → State → Type 0 };
}

/// The choice is the candidate of greatest number, the first of those that were offered among equal ones; none exactly where there is no
/// candidate.
pub fn chooses_greatest()
    ensures { ChoosesGreatest }
{}

/// Where a switch has one result, so has trying one branch after another.
pub fn resolves_one_way<T: Switching>()
    requires { HasOneResult T.tip T.at T.view T.succeeds T.fails }
    ensures { IsDetermined T.tip T.at T.view T.succeeds T.fails }
{}

/// Where each switch to a choice succeeds, or fails at a block of its path, trying one branch after another ends.
pub fn resolve_ends<T: Switching>()
    requires { IsTotal T.tip T.at T.view T.succeeds T.fails }
    ensures { Ends T.tip T.at T.view T.succeeds T.fails }
{}

/// A block's path, as the relation that the switch goes by, is the one that the choice looks at.
pub fn has_one_path()
    ensures { HasOnePath }
{}

/// Where no more blocks can be reversed than stored, a branch that is longer than the chain by two blocks fits into the store.
pub fn fits_always()
    ensures { FitsAlways }
{}

/// Where no two stored blocks have one stamp, each is found by its own.
pub fn each_is_found()
    ensures { EachIsFound }
{}

/// Of the chain the stamps of its last blocks are enough to choose by, one more than can be reversed.
pub fn last_are_enough()
    ensures { LastAreEnough }
{}
