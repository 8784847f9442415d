ghost use Rattle.ike_sas.specs.TicketLaws.{TicketAnswersAreRead, TicketAnswersFit};

/// A peer reads in the response what a member answered to a request for a ticket: the ticket with
/// its lifetime, or that none is given.
#[tactic(auto, using(crate::proofs::Reading::answers_are_read))]
pub fn ticket_answers_are_read()
    ensures { TicketAnswersAreRead }
{}

/// The answer to a request for a ticket fits the room that is made for it.
#[tactic(auto, using(crate::proofs::TicketSizes::answers_fit))]
pub fn ticket_answers_fit()
    ensures { TicketAnswersFit }
{}
