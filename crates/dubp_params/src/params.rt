use dubp_atoms::Dec;

/// The parameters of a currency, which its block 0 sets for ever, in the order of their text. Times are in seconds.
#[derive(Clone, Copy, Debug, PartialEq, Eq)]
pub struct Params {
    /// The share of the mass that a re-evaluation of the dividend adds.
    pub c: Dec,
    /// Seconds from one dividend to the next.
    pub dt: u64,
    /// The first dividend.
    pub ud0: u64,
    /// Least seconds between two certifications of one issuer.
    pub sig_period: u64,
    /// The most live certifications that one issuer may have.
    pub sig_stock: u64,
    /// Seconds for which a certification document may wait for its block.
    pub sig_window: u64,
    /// Seconds for which a certification lives.
    pub sig_validity: u64,
    /// How many live certifications a member needs.
    pub sig_qty: u64,
    /// Seconds for which an identity document may wait for its block.
    pub idty_window: u64,
    /// Seconds for which a membership document may wait for its block.
    pub ms_window: u64,
    /// The share of the sentries that a joiner must be reached from.
    pub xpercent: Dec,
    /// Seconds for which a membership lives.
    pub ms_validity: u64,
    /// The most certifications on a walk from a sentry.
    pub step_max: u64,
    /// How many blocks the median time is taken over.
    pub median_time_blocks: u64,
    /// Seconds between blocks that the difficulty aims at.
    pub avg_gen_time: u64,
    /// How many blocks apart the least difficulty is evaluated.
    pub dt_diff_eval: u64,
    /// The weight of the other issuers in the difficulty of one.
    pub percent_rot: Dec,
    /// The time of the first dividend.
    pub ud_time0: u64,
    /// The time of the first re-evaluation of the dividend.
    pub ud_reeval_time0: u64,
    /// Seconds from one re-evaluation to the next.
    pub dt_reeval: u64,
}
