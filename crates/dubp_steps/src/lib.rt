//! What one more block makes of the tables of people: identities, memberships, certifications, the queue of what falls due,
//! and who is to be excluded.
//!
//! Each function here is a law: it does nothing, and its contract is the law. The laws are on every chain that keeps all
//! rules that read no verdict. They are made for an order of work: the lines of the block, section by section, each of which
//! cancels what the queue has for its key or pair, and plans what is to come later than the time of the block
//! (`specs/AfterLines.antt`); then what the queue has up to that time, entry after entry (`specs/Taken.antt`,
//! `specs/Loops.antt`); then the records that no line names, and who is to be excluded (`specs/Steps.antt`). What counts are
//! by the rows of tables stands in `specs/Counts.antt`. The chapters on people, certifications, records and tables in
//! `docs/protocol` say the same in words.
//!
//! ```text
//! membership_step();
//! queue_step();
//! ```
#![tactic(auto)]

mod laws;

pub use laws::{
    at_once_by_lines, certification_is_old, certification_stays, certification_step,
    certifying_replans, each_line_stands, ended_records_are, entering_replans, expired_is_of_row,
    expiry_records_are, fact_step, identity_stays, identity_step, kick_is_table, kicked_by_records,
    kicked_fold, kicked_is_of_rows, kicked_stays, leaving_is_of_row, live_at_is_of_row,
    live_is_of_row, live_step, member_is_of_row, members_are_count, members_are_table,
    membership_stays, membership_step, numbered_is_fact, queue_fits_rows, queue_is_later,
    queue_stands, queue_step, received_is_count, received_is_of_table, revocation_records_are,
    revoked_is_of_row, revoking_replans, row_is_old, stock_is_count, stock_is_of_table,
    taking_ends, taking_goes_on, taking_starts, wrote_is_greatest, wrote_step,
};
