//! Laws of the definitions: each function does nothing, and its contract is the law.
ghost use Rattle.dubp_head.specs.Laws.{HeadsFollow, LimitsAreRules, HeaderIsRules, FirstLimitIsRule, FirstHeaderIsRule};

/// The heads of a chain follow one another with one block more that may follow and keeps the limits.
pub fn heads_follow()
    ensures { HeadsFollow }
{}

/// Each of the three limits on the head of a block is the rule of its name.
pub fn limits_are_rules()
    ensures each { LimitsAreRules }
    ensures first { FirstLimitIsRule }
{}

/// Each rule on what the header states is the rule of its name.
pub fn header_is_rules()
    ensures each { HeaderIsRules }
    ensures first { FirstHeaderIsRule }
{}
