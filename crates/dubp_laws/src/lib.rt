//! The laws of the definitions on chains, proved for every chain. Each function here is a law: it does nothing, and its contract
//! is the law.
//!
//! ```text
//! conserved();
//! ```
#![tactic(auto)]

ghost use Rattle.dubp_laws.specs.Laws.{Conserves, Monotone, ReadingChangesNothing, StaysValid, ValidIsSound};
ghost use Rattle.dubp_validity.specs.Reduced.{Reduces};

/// A rule that holds with some verdicts holds with more of them.
pub fn monotone()
    ensures { Monotone }
{}

/// A chain that is valid with some verdicts is valid with more of them.
pub fn stays_valid()
    ensures { StaysValid }
{}

/// The first rule that fails is the same whether or not a rule is read where certain earlier ones fail.
pub fn reading_changes_nothing()
    ensures { ReadingChangesNothing }
{}

/// On a sound chain the money that was issued is unspent or cleared, it is the mass, and no source was made twice.
pub fn conserved()
    ensures { Conserves }
{}

/// A valid chain is sound.
pub fn valid_chains_are_sound()
    ensures { ValidIsSound }
{}

/// The records of all blocks of a valid chain, each changing the rows in turn, leave its identities, memberships, certifications
/// and sources.
pub fn reduced()
    ensures { Reduces }
{}
