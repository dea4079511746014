ghost use Rattle.dubp_steps.specs.Steps.{IdentityStep, MembershipStep, CertificationStep, IdentityStays, MembershipStays, CertificationStays, QueueStep, QueueFitsRows, LiveIsOfRow, ReceivedIsCount, StockIsCount, WroteStep, KickedIsOfRows, KickedStays, KickedByRecords, KickIsTable, MembersAreTable, ExpiryRecordsAre, RevocationRecordsAre, EndedRecordsAre};
ghost use Rattle.dubp_steps.specs.Loops.{EnteringReplans, RevokingReplans, CertifyingReplans, QueueStands, EachLineStands, RowIsOld, CertificationIsOld, AtOnceByLines, TakingStarts, TakingGoesOn, TakingEnds, KickedFold};
ghost use Rattle.dubp_steps.specs.Counts.{MemberIsOfRow, ExpiredIsOfRow, RevokedIsOfRow, LeavingIsOfRow, LiveAtIsOfRow, LiveStep, MembersAreCount, ReceivedIsOfTable, StockIsOfTable, WroteIsGreatest, QueueIsLater, FactStep, NumberedIsFact};

/// What a block makes of an identity.
pub fn identity_step()
    ensures { IdentityStep }
{}

/// What a block makes of a membership.
pub fn membership_step()
    ensures { MembershipStep }
{}

/// What a block makes of a certification.
pub fn certification_step()
    ensures { CertificationStep }
{}

/// What a block makes of the queue.
pub fn queue_step()
    ensures { QueueStep }
{}

/// What stands in the queue follows from the rows.
pub fn queue_fits_rows()
    ensures { QueueFitsRows }
{}

/// A pair is live where its row says so.
pub fn live_is_of_row()
    ensures { LiveIsOfRow }
{}

/// How many live certifications a key has received.
pub fn received_is_count()
    ensures { ReceivedIsCount }
{}

/// How many live certifications a key has issued.
pub fn stock_is_count()
    ensures { StockIsCount }
{}

/// The last block that an issuer certified in, with one block more.
pub fn wrote_step()
    ensures { WroteStep }
{}

/// Who is to be excluded follows from the rows of the key and from how many certifications it has received.
pub fn kicked_is_of_rows()
    ensures { KickedIsOfRows }
{}

/// Whether a key is to be excluded stays where nothing touches it.
pub fn kicked_stays()
    ensures { KickedStays }
{}

/// Only a key that a record touches is looked at anew.
pub fn kicked_by_records()
    ensures { KickedByRecords }
{}

/// The records of memberships that end.
pub fn expiry_records_are()
    ensures { ExpiryRecordsAre }
{}

/// The records of keys that are revoked by time.
pub fn revocation_records_are()
    ensures { RevocationRecordsAre }
{}

/// The records of certifications that end.
pub fn ended_records_are()
    ensures { EndedRecordsAre }
{}

/// The keys to be excluded, as a list.
pub fn kick_is_table()
    ensures { KickIsTable }
{}

/// The members, as a list.
pub fn members_are_table()
    ensures { MembersAreTable }
{}

/// What a line of Joiners or Actives cancels and plans.
pub fn entering_replans()
    ensures { EnteringReplans }
{}

/// What a line of Revoked cancels.
pub fn revoking_replans()
    ensures { RevokingReplans }
{}

/// What a line of Certifications cancels and plans.
pub fn certifying_replans()
    ensures { CertifyingReplans }
{}

/// The queue stands at the ends of the rows before the block.
pub fn queue_stands()
    ensures { QueueStands }
{}

/// And it stands there behind each line.
pub fn each_line_stands()
    ensures { EachLineStands }
{}

/// A line of Joiners or Actives finds the row of the chain.
pub fn row_is_old()
    ensures { RowIsOld }
{}

/// A line of Certifications finds the row of the chain.
pub fn certification_is_old()
    ensures { CertificationIsOld }
{}

/// Who is at an end with a line.
pub fn at_once_by_lines()
    ensures { AtOnceByLines }
{}

/// The invariant of the loop that takes what is due holds behind the lines.
pub fn taking_starts()
    ensures { TakingStarts }
{}

/// It stays with each entry that is taken, and each makes one record more.
pub fn taking_goes_on()
    ensures { TakingGoesOn }
{}

/// Where nothing more is due, it gives the tables of the chain with the block.
pub fn taking_ends()
    ensures { TakingEnds }
{}

/// Who is to be excluded, gone through by the records of the block.
pub fn kicked_fold()
    ensures { KickedFold }
{}

/// Who is a member, by the row of the key.
pub fn member_is_of_row()
    ensures { MemberIsOfRow }
{}

/// Whose membership is over, by the row of the key.
pub fn expired_is_of_row()
    ensures { ExpiredIsOfRow }
{}

/// How many members there are.
pub fn members_are_count()
    ensures { MembersAreCount }
{}

/// How many live certifications a key has received, by the rows of the table.
pub fn received_is_of_table()
    ensures { ReceivedIsOfTable }
{}

/// How many live certifications a key has issued, by the rows of the table.
pub fn stock_is_of_table()
    ensures { StockIsOfTable }
{}

/// The last block of an issuer is the greatest of its rows.
pub fn wrote_is_greatest()
    ensures { WroteIsGreatest }
{}

/// Nothing in the queue is due at the time of the chain.
pub fn queue_is_later()
    ensures { QueueIsLater }
{}

/// The time of each stamp, with one block more.
pub fn fact_step()
    ensures { FactStep }
{}

/// The time of the block of a number is that of its stamp.
pub fn numbered_is_fact()
    ensures { NumberedIsFact }
{}

/// Who is revoked, by the row of the key.
pub fn revoked_is_of_row()
    ensures { RevokedIsOfRow }
{}

/// Who is leaving, by the row of the key.
pub fn leaving_is_of_row()
    ensures { LeavingIsOfRow }
{}

/// Which pairs are live at a later time by the lines of the chain, by their rows.
pub fn live_at_is_of_row()
    ensures { LiveAtIsOfRow }
{}

/// Which pairs are live with one block more, by its lines and those of the chain.
pub fn live_step()
    ensures { LiveStep }
{}

/// The identity of a key that no line names stays.
pub fn identity_stays()
    ensures { IdentityStays }
{}

/// The membership of a key that no line names and that is not revoked by time stays.
pub fn membership_stays()
    ensures { MembershipStays }
{}

/// The certification of a pair that no line names and that does not end by time stays.
pub fn certification_stays()
    ensures { CertificationStays }
{}
