ghost use Rattle.redirects.specs.Laws.{DecisionIsUnique, FollowingAddsTheMoment, FollowingKeepsTheOrder, KeptFollowsDecide, ReadingIsUnique};

/// What is decided by the last five follows is what is decided by all of them.
pub fn kept_follows_decide()
    ensures { KeptFollowsDecide }
{}

/// At most one decision is right.
pub fn decision_is_unique()
    ensures { DecisionIsUnique }
{}

/// To add a follow to what is kept of some follows gives what is kept of these and that one.
pub fn following_adds_the_moment()
    ensures { FollowingAddsTheMoment }
{}

/// A follow that is no earlier than those that are kept is no earlier than any.
pub fn following_keeps_the_order()
    ensures { FollowingKeepsTheOrder }
{}

/// Data spell at most one gateway and one nonce, so what is written is read again.
pub fn reading_is_unique()
    ensures { ReadingIsUnique }
{}
