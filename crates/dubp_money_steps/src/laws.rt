ghost use Rattle.dubp_money_steps.specs.Laws.{ClearsByBalance, LimitStays, TotalsGoOn, TransactionsGoOn, SpendsAndMakes, SourcesAreRows, SourcesAreRowsBeforeClearing, MadeAreSmall, MadeStayFew, PlacesAreThere, UnitsFit, RowsAreAt, SourcesStay, StatesStay, ClearsRows, KeptHaveEnough, OthersHaveEnough};

/// A block clears, of what stands when it has spent and made, each condition that has too little there.
pub fn clears_by_balance()
    ensures { ClearsByBalance }
{}

/// The limit of clearing never falls.
pub fn limit_stays()
    ensures { LimitStays }
{}

/// The totals go on by three numbers.
pub fn totals_go_on()
    ensures { TotalsGoOn }
{}

/// The transactions of a chain with one block more.
pub fn transactions_go_on()
    ensures { TransactionsGoOn }
{}

/// The sources before clearing come from those of the chain, transaction by transaction, and then by the dividends.
pub fn spends_and_makes()
    ensures { SpendsAndMakes }
{}

/// The rows that a chain leaves are rows of the index.
pub fn sources_are_rows()
    ensures { SourcesAreRows }
{}

/// So are the rows before clearing.
pub fn sources_are_rows_before_clearing()
    ensures { SourcesAreRowsBeforeClearing }
{}

/// What a block makes is in the bounds of a row.
pub fn made_are_small()
    ensures { MadeAreSmall }
{}

/// With one block more, whose text is no longer than that of a block may be, a chain made at most 2^22 sources a block.
pub fn made_stay_few()
    ensures { MadeStayFew }
{}

/// So each has a place below 2^63 in the order of making.
pub fn places_are_there()
    ensures { PlacesAreThere }
{}

/// The units that are unspent, and all that such a block makes, are a number of 128 bits.
pub fn units_fit()
    ensures { UnitsFit }
{}

/// The row of a source is that of the definition, with a number for its condition.
pub fn rows_are_at()
    ensures { RowsAreAt }
{}

/// More texts change no row whose condition has a number.
pub fn sources_stay()
    ensures { SourcesStay }
{}

/// More texts change no state of a chain all of whose conditions have a number.
pub fn states_stay()
    ensures { StatesStay }
{}

/// Clearing rows leaves the rows of the chain with the block, and takes those of its records of clearing.
pub fn clears_rows()
    ensures { ClearsRows }
{}

/// What clearing leaves has enough.
pub fn kept_have_enough()
    ensures { KeptHaveEnough }
{}

/// Where the limit has not risen, only accounts whose rows have changed can have too little.
pub fn others_have_enough()
    ensures { OthersHaveEnough }
{}
