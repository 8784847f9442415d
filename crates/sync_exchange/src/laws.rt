ghost use Rattle.sync_exchange.specs.Laws.{AnswersAreUnique, BothEndsAgree, CountersNeverFall, RequestsAreAcceptedOnce, WrittenRequestsAreRead, WrittenResponsesAreRead};

/// A peer answers a request in one way only.
pub fn answers_are_unique()
    ensures { AnswersAreUnique }
{}

/// A synchronisation leaves no counter of the peer lower than it was or than the request announced.
pub fn counters_never_fall()
    ensures { CountersNeverFall }
{}

/// A request that comes again after it was accepted is not accepted again.
pub fn requests_are_accepted_once()
    ensures { RequestsAreAcceptedOnce }
{}

/// A member that accepts the peer's response has the peer's two Message IDs, where it announced no
/// less than its own.
pub fn both_ends_agree()
    ensures { BothEndsAgree }
{}

/// A request to synchronise is read as it was written.
pub fn written_requests_are_read()
    ensures { WrittenRequestsAreRead }
{}

/// The Message IDs of a response are read as they were written.
pub fn written_responses_are_read()
    ensures { WrittenResponsesAreRead }
{}
