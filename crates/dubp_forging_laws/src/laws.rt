ghost use Rattle.dubp_forging_laws.specs.Laws.{DraftsAreOne, EachIsInOrNamed, FewerTransactionsFit, ForgingIsOne, SealedIsAccepted};

/// Two blocks that a draft becomes behind a chain are one.
pub fn drafts_are_one()
    ensures { DraftsAreOne }
{}

/// From one pool, behind one chain, with the same verdicts, issuer and time, one block is forged, and the same documents are left out by the same
/// rules.
pub fn forging_is_one()
    ensures { ForgingIsOne }
{}

/// Each document that waits is in the draft that was forged, or it is named among those that are left out, and never both.
pub fn each_is_in_or_named()
    ensures { EachIsInOrNamed }
{}

/// A draft that breaks no rule but for the two that a block keeps once it is signed is accepted with a nonce and a signature exactly where its text
/// is short enough and it keeps these two.
pub fn sealed_is_accepted()
    ensures { SealedIsAccepted }
{}

/// Where transactions come behind other documents and the draft with all of them breaks no rule, neither does the draft without the last of them.
pub fn fewer_transactions_fit()
    ensures { FewerTransactionsFit }
{}
