ghost use Rattle.replay_set.specs.Laws.{NotingAddsTheNumber, JudgingByNumbers, TopIsTheGreatest, MeaningIsUnique};

/// To note a number in the window of some numbers gives the window of these and that one.
pub fn noting_adds_the_number()
    ensures { NotingAddsTheNumber }
{}

/// The window of some numbers judges each number by the base, the top and whether it is among them.
pub fn judging_by_numbers()
    ensures { JudgingByNumbers }
{}

/// The top is the greatest of the numbers, or one below the base where there is none.
pub fn top_is_the_greatest()
    ensures { TopIsTheGreatest }
{}

/// At most one number is meant.
pub fn meaning_is_unique()
    ensures { MeaningIsUnique }
{}
