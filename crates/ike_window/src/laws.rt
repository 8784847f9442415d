ghost use Rattle.ike_window.specs.Laws.{AnsweredAreStored, AnsweredHaveAResponse, JumpingRaisesTheFloor, JumpsAreRaised, NewAreFromTheFloorOn, NewHaveNoResponse, NothingIsStored, RaisingByNoMoreKeepsAll, RaisingGivesOneWindow, RepeatsAreTheResponses, ResponsesGiveOneWindow, ResponsesHaveAWindow, StoringAddsTheResponse};

/// What is kept of no responses is a new window.
pub fn nothing_is_stored()
    ensures { NothingIsStored }
{}

/// What is kept of some responses and one more is what storing that one beside the others leaves.
pub fn storing_adds_the_response()
    ensures { StoringAddsTheResponse }
{}

/// To raise the floor of what is kept of some responses gives what is kept of them from there on.
pub fn jumping_raises_the_floor()
    ensures { JumpingRaisesTheFloor }
{}

/// From the floor on, what is kept of some responses knows the Message IDs of all of them.
pub fn answered_are_stored()
    ensures { AnsweredAreStored }
{}

/// What is kept of some responses has each that may be repeated.
pub fn repeats_are_the_responses()
    ensures { RepeatsAreTheResponses }
{}

/// What is kept of some responses is one window, and no other.
pub fn responses_give_one_window()
    ensures { ResponsesGiveOneWindow }
{}

/// The window that is made of some responses is what is kept of them.
pub fn responses_have_a_window()
    ensures { ResponsesHaveAWindow }
{}

/// From the floor on, the window that is made of some responses has answered just their requests.
pub fn answered_have_a_response()
    ensures { AnsweredHaveAResponse }
{}

/// No request that is new in the window of some responses is one of theirs: none is taken twice.
pub fn new_have_no_response()
    ensures { NewHaveNoResponse }
{}

/// What is kept of some responses, with the floor raised, is what is kept of them from there on.
pub fn raising_gives_one_window()
    ensures { RaisingGivesOneWindow }
{}

/// A window that jumped is the one with its floor raised, and no other.
pub fn jumps_are_raised()
    ensures { JumpsAreRaised }
{}

/// To raise the floor to no more than it is changes nothing.
pub fn raising_by_no_more_keeps_all()
    ensures { RaisingByNoMoreKeepsAll }
{}

/// No request below the floor is new.
pub fn new_are_from_the_floor_on()
    ensures { NewAreFromTheFloorOn }
{}
