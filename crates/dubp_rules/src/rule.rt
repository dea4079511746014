/// A rule on a block. The variants stand in the order in which the rules are read, and each is named by
/// its code.
///
/// In the sentences below, the chain is the one before the block, the new chain has the block on it,
/// and t is the median time of the new chain. The time of a stamp is the median time of the block of
/// the chain that has the stamp. Where the chain is empty, the stamp of the empty text has MedianTime
/// of the block as its time, and no other stamp has one. A text has a verdict by a key where the key's
/// signature over it was found right. A membership is a line of Joiners, Actives or Leavers.
///
/// A rule behind G51 is read only where G51 holds, and one behind X08 only where X03, X04 and X08 hold.
/// A rule that is not read counts as holding.
#[derive(Clone, Copy, Debug, PartialEq, Eq)]
pub enum Rule {
    /// The raw block has at most 1,048,576 bytes.
    X01,
    /// The bytes are the text of a block.
    P01,
    /// The block has no Parameters, or each parameter is in its range and PoWMin is at most 1023.
    X02,
    /// Number, Time and MedianTime are each below 2^40.
    X07,
    /// InnerHash is the hash of the text above its line.
    L01,
    /// In block 0, Time equals MedianTime.
    L02,
    /// The block number of each certification is below Number, or both are 0.
    L03,
    /// In block 0, each stamp in Identities, Joiners, Actives and Leavers is the stamp of the empty
    /// text.
    L04,
    /// The signature of the block has a verdict by Issuer.
    L05,
    /// Number is 0, or the chain is empty, or Time is at least MedianTime and at most
    /// maxAcceleration above it.
    L06,
    /// Each signature in Identities has a verdict by its key over the identity document.
    L07,
    /// No UID stands twice in Identities.
    L08,
    /// No key stands twice in Identities.
    L09,
    /// Each line of Identities has a line of Joiners with its key and UID, whose identity stamp is
    /// its stamp.
    L10,
    /// Each line of Joiners and Actives has a verdict over its membership document with `IN`, and
    /// each line of Leavers over its own with `OUT`.
    L11,
    /// No key stands twice in Joiners, Actives, Leavers and Excluded taken together.
    L12,
    /// No key stands twice in Revoked, and no key of Revoked stands in Joiners, Actives or Leavers.
    L13,
    /// No pair of issuer and receiver stands twice in Certifications.
    L14,
    /// Nobody certifies their own key.
    L15,
    /// Number is 0, or nobody issues two certifications in the block.
    L16,
    /// Nobody whom the block certifies stands in its Leavers, Revoked or Excluded.
    L17,
    /// Each transaction has at most 100 lines in its compact form.
    L18,
    /// No transaction names an issuer twice.
    L19,
    /// In each transaction each input has exactly one unlock line, each unlock line is of an input,
    /// and each `SIG(i)` names an issuer that is there.
    L20,
    /// No source stands twice among the inputs of the block.
    L21,
    /// The amount of each input and output is at least 1.
    L22,
    /// In each transaction the inputs have as many units as the outputs.
    L23,
    /// In each transaction each signature has a verdict, by the issuer at its place, over the
    /// signed text.
    L24,
    /// Number is the length of the chain.
    G51,
    /// The chain is empty, or PreviousHash is the hash of its last block.
    G52,
    /// The chain is empty, or PreviousIssuer is the issuer of its last block.
    G53,
    /// The chain is empty, or Currency is that of its first block and Version is not below that of
    /// its last.
    G49,
    /// The chain is empty, or Issuer is a member of it.
    G101,
    /// Where the block re-evaluates the dividend, the numerator is below 2^127.
    X03,
    /// The unit base of the new chain is at most 15.
    X04,
    /// The dividend of the new chain is below 2^53, and its mass is below 2^100.
    X08,
    /// The chain is empty, or the size of the block is below 500, or below eleven tenths, rounded
    /// up, of the mean size of the last blocks of the chain: as many blocks as the new chain counts
    /// issuers, or all where there are fewer.
    G50,
    /// DifferentIssuersCount is the number of issuers that the new chain counts.
    G54,
    /// IssuersFrame is the frame of the new chain.
    G55,
    /// IssuersFrameVar is the variation of the frame of the new chain.
    G56,
    /// MedianTime is t.
    G57,
    /// UniversalDividend is the new dividend of the new chain, and is absent where that has none.
    G58,
    /// UnitBase is the unit base of the new chain.
    G59,
    /// MembersCount is the number of members of the new chain.
    G60,
    /// PoWMin is the least difficulty of the new chain.
    G61,
    /// The hash of the block meets the difficulty of Issuer.
    G62,
    /// The chain and the block have at most 1,000,000 lines of Identities together.
    X06,
    /// The stamp of each identity has a time, and t is at most idtyWindow above it.
    G63,
    /// No UID of Identities stands in an Identities line of the chain.
    G73,
    /// No key of Identities stands in an Identities line of the chain.
    G74,
    /// The stamp of each membership has a time, and t is at most msWindow above it.
    G64,
    /// The block number of each membership's stamp is above that of the last membership of its key
    /// in the chain, where there is one.
    G75,
    /// Version is 10, or for each membership whose key has one in the chain, t is at least msWindow
    /// above the median time of the block of the last one.
    G108,
    /// Each membership has a line of Identities, in the chain or in the block, with its key, UID
    /// and identity stamp.
    G82,
    /// No key of Joiners is a member of the chain.
    G78,
    /// Each key of Actives is a member of the chain.
    G81,
    /// Each key of Leavers is a member of the chain and not leaving in it.
    G80,
    /// No key of Joiners, Actives or Leavers is revoked in the chain.
    G77,
    /// Each key of Revoked has an identity in the chain and is not revoked in it.
    G83,
    /// Each line of Revoked has a verdict by its key over the revocation document of the key's
    /// identity in the chain; without an identity it has none.
    G84,
    /// The stamp of each certification has a time, and t is at most sigWindow above it.
    G65,
    /// Each issuer of a certification has at most sigStock live certifications issued in the new
    /// chain.
    G66,
    /// The chain is empty, or for each issuer of a certification who has issued one in the chain, t
    /// is at least sigPeriod above the median time of the block of the last one.
    G67,
    /// Each issuer of a certification is a member of the chain, or of the new chain where the chain
    /// is empty.
    G68,
    /// Each receiver of a certification is a member of the new chain.
    G69,
    /// No receiver of a certification is leaving in the new chain.
    G70,
    /// For each certification whose pair is live at t by the lines of the chain, Version is 11, t
    /// is at least msWindow above the median time of the block of the pair's last line, and the
    /// time of the certification's stamp is above that of the pair's last line.
    G71,
    /// Each certification has a verdict by its issuer over the certification document on the
    /// identity of its receiver in the new chain; without an identity it has none.
    G72,
    /// Each key of Joiners has at least sigQty live certifications received in the new chain.
    G79,
    /// Each key of Joiners and Actives passes the distance rule in the new chain.
    G76,
    /// Each key of Excluded is one that the chain has to exclude.
    G85,
    /// Each key that the chain has to exclude stands in Excluded.
    G86,
    /// No transaction has the hash of a transaction of the chain, or of an earlier one of the
    /// block.
    X05,
    /// The stamp of each transaction has a time, and t is at most 604,800 seconds above it.
    G103,
    /// Each input is an unspent source of the chain, or an output of an earlier transaction of the
    /// block, with its amount and base.
    G87,
    /// For each input for which G87 holds, the condition of its source is true.
    G88,
    /// For each input for which G87 holds, t is at least Locktime above the median time of the
    /// block that made its source.
    G89,
    /// The base of each output is at most the unit base of the new chain.
    G90,
}
