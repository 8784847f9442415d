//! The laws of whole traces. Each is the contract of a function that does nothing.

ghost use Rattle.std.specs.Prelude.{◌≡◌, ◌≢◌, ◌<◌, ◌≤◌, ℕ, Some, IsSome, List, ◌∷◌, ◌++◌};
ghost use Rattle.std.specs.List.{AllByRecursion, filter_map, flat_map};
ghost use Rattle.events.specs.declared.turn.Turn.{Turn};
ghost use Rattle.keeper_book.specs.Book.{Answers, Book, pool_next};
ghost use Rattle.keeper_book.specs.Counters.{counter_named, five_at};
ghost use Rattle.ha_base.specs.declared.counter_names.CounterName.{CounterName};
ghost use Rattle.ha_base.specs.declared.counter_names.Kind.{Kind};
ghost use Rattle.keeper_book.specs.declared.calls.KeeperAnswer.TheVariants as answer;
ghost use Rattle.keeper_book.specs.declared.calls.KeeperAsk.TheVariants as ask;
ghost use Rattle.keeper_book.specs.declared.counters.Counter.{Counter};
ghost use Rattle.keeper_book.specs.declared.counters.Counter.TheVariants as counter;
ghost use Rattle.keeper_book.specs.declared.faults.KeeperFault.TheVariants as fault;
ghost use Rattle.keeper_book.specs.declared.pools.Pool.TheVariants as pools;
ghost use Rattle.keeper_book.specs.declared.records.Record.{Record};
ghost use Rattle.turn_laws.specs.Acts.{Act, MayAsk, MayDoAll, end_at, holding_at, numbers_at};
ghost use Rattle.turn_laws.specs.Answered.{KeepsTaken};
ghost use Rattle.turn_laws.specs.CaughtUp.{AllCatchUp, CatchesUp, CoversAreCaughtUp, NoneInvented};
ghost use Rattle.turn_laws.specs.FirstDelivery.{MemberAcceptsFirst, PeerAcceptsFirst};
ghost use Rattle.turn_laws.specs.Holdings.{Actor, End, Holding, IsNotIn};
ghost use Rattle.turn_laws.specs.Listed.{listed_at, request_at};
ghost use Rattle.turn_laws.specs.OwnTurns.{IsLeftIn, OwnTurnsTell, left_of_lot};
ghost use Rattle.turn_laws.specs.Owned.{Owned};
ghost use Rattle.turn_laws.specs.PeerTurns.{told_theirs};
ghost use Rattle.turn_laws.specs.Places.{Ours, Place, Pooled, Theirs};
ghost use Rattle.turn_laws.specs.Replaced.{AreReplacedLater};
ghost use Rattle.turn_laws.specs.Serving.{ServesNamed};
ghost use Rattle.turn_laws.specs.Synchronising.{LeavesGreater, MemberSynchronises, MemberTakesFrom, PeerSynchronises, PeerTakesFrom};
ghost use Rattle.turn_laws.specs.Turns.{AreBelowEnds, AreOwned, acts_in, acts_of, told};
ghost use Rattle.turn_rules.specs.Ends.{Member, Peer, own};
ghost use Rattle.turn_rules.specs.Genuine.{AreAccepted};
ghost use Rattle.turn_rules.specs.Held.{Held, held_by, number_of, since, window_by};
ghost use Rattle.turn_rules.specs.Local.{Explained, Stands};
ghost use Rattle.turn_rules.specs.Safe.{IsEachOnce, Safe, TakesWhereServed, accepted_in, key_ivs, taken_in};
ghost use Rattle.turn_rules.specs.Slots.{since_entered, slot_by};
ghost use Rattle.turn_rules.specs.Tasks.{member_task, peer_task};
ghost use Rattle.turn_rules.specs.TicketNumbers.{numbers_by, ticket_number};

use esp_packets::sealed_packets_open;

/// What an end's own turns say that it holds of a counter is what the moves of all turns make of
/// it, and so is what they say that a member has left of its lot of tickets.
pub fn own_turns_tell_holdings()
    ensures members { (boxes : ℕ) (past : List Turn) → Explained boxes past
        → (member spir : ℕ) (c : Counter)
        → told spir c (own (Member member) past)
        ≡ holding_at (Ours spir c) (acts_of past) (End (Member member)) }
    ensures peer { (boxes : ℕ) (past : List Turn) → Explained boxes past → (name : CounterName)
        → told_theirs name (own Peer past)
        ≡ holding_at (Theirs name) (acts_of past) (End Peer) }
    ensures tickets { (boxes : ℕ) (past : List Turn) → Explained boxes past → (member : ℕ)
        → numbers_by (own (Member member) past)
        ≡ left_of_lot (holding_at (Pooled pools.Ticket) (acts_of past) (End (Member member))) }
{}

/// What the turns of a run make of what its ends hold, each end's own turns tell.
pub fn own_turns_tell_states()
    ensures { (boxes : ℕ) (past : List Turn) → Explained boxes past → OwnTurnsTell boxes past }
{}

/// What each event does is a list of acts that may be done one after another.
pub fn turns_are_moves()
    ensures { (boxes : ℕ) (past : List Turn) (turn : Turn) → Explained boxes (turn ∷ past)
        → MayDoAll (acts_of past) (acts_in turn) }
{}

/// Where each turn is explained by its end's own turns, and the book is the one that the calls lead
/// to, the numbers of the book's epochs belong to one end each.
pub fn all_is_owned()
    ensures { (boxes : ℕ) (past : List Turn) (book : Book) → Explained boxes past → Stands past book
        → AreOwned past book }
{}

/// The numbers of a counter that the laws speak of are exactly those that the lists of the trace
/// have: the numbers that were drawn, those of accepted packets, the Message IDs of requests that
/// were asked and taken, and the IVs of seals. Of a counter that members send by they are those from
/// which the next number is told, of the requests that members answer, those that turns take, and of
/// tickets those that the verdicts tell.
pub fn uses_are_told()
    ensures listed { (past : List Turn) (p : Place)
        → numbers_at p (acts_of past) ≡ flat_map (listed_at p) past }
    ensures sent { (boxes : ℕ) (past : List Turn) → Explained boxes past → (spir : ℕ) (c : Counter)
        → c ≢ counter.EspIn → c ≢ counter.Answer
        → numbers_at (Ours spir c) (acts_of past) ≡ filter_map (number_of spir c) past }
    ensures taken { (boxes : ℕ) (past : List Turn) → Explained boxes past → (spir : ℕ)
        → numbers_at (Ours spir counter.Answer) (acts_of past)
        ≡ filter_map (λ turn. request_at (Ours spir counter.Answer) (taken_in turn)) past }
    ensures tickets { (boxes : ℕ) (past : List Turn) → Explained boxes past
        → numbers_at (Pooled pools.Ticket) (acts_of past)
        ≡ filter_map (λ turn. ticket_number turn.step.verdict) past }
{}

/// No number of a counter is used twice, by whatever ends: of no counter of the cluster or the
/// peer, and in particular of no counter that events of members used. No two tickets have one number,
/// whichever members issued them.
pub fn no_number_twice()
    ensures places { (boxes : ℕ) (past : List Turn) (book : Book) → Explained boxes past
        → Stands past book
        → (p : Place) → IsEachOnce (numbers_at p (acts_of past)) }
    ensures counters { (boxes : ℕ) (past : List Turn) (book : Book) → Explained boxes past
        → Stands past book
        → (spir : ℕ) (c : Counter) → IsEachOnce (filter_map (number_of spir c) past) }
    ensures tickets { (boxes : ℕ) (past : List Turn) (book : Book) → Explained boxes past
        → Stands past book → IsEachOnce (filter_map (λ turn. ticket_number turn.step.verdict) past) }
{}

/// No number reaches its counter's end, as the record of what was held gives it, whatever the
/// keeper's book is. An honest book gives the same end.
pub fn no_number_past_its_end()
    ensures uses { (boxes : ℕ) (past : List Turn) → Explained boxes past → AreBelowEnds past }
    ensures places { (boxes : ℕ) (past : List Turn) (book : Book) → Explained boxes past
        → Stands past book
        → (p : Place) → AllByRecursion (λ n. n < end_at p (acts_of past) book)
        (numbers_at p (acts_of past)) }
    ensures counters { (boxes : ℕ) (past : List Turn) (book : Book) → Explained boxes past
        → Stands past book
        → (spir : ℕ) (c : Counter)
        → AllByRecursion (λ n. n < end_at (Ours spir c) (acts_of past) book)
        (filter_map (number_of spir c) past) }
{}

/// Two members that hold an association, the replaced ones too, hold different epochs, and where an
/// earlier epoch's highs end, the later one's bases have not begun.
pub fn holdings_are_apart()
    ensures epochs { (boxes : ℕ) (past : List Turn) (book : Book) → Explained boxes past
        → Stands past book
        → (m k spir : ℕ) (h g : Held) → held_by (window_by past) (own (Member m) past) spir ≡ Some h
        → held_by (window_by past) (own (Member k) past) spir ≡ Some g
        → h.epoch ≡ g.epoch → m ≡ k }
    ensures highs { (boxes : ℕ) (past : List Turn) (book : Book) → Explained boxes past
        → Stands past book
        → (m k spir : ℕ) (h g : Held) → held_by (window_by past) (own (Member m) past) spir ≡ Some h
        → held_by (window_by past) (own (Member k) past) spir ≡ Some g
        → h.epoch < g.epoch → (c : Counter) → five_at h.highs c ≤ five_at g.bases c }
{}

/// What members have left of the ranges of tickets that they leased, those that ended too, are numbers
/// that were leased. No two members have one of them left, and no ticket has it.
pub fn lots_left_are_apart()
    ensures leased { (boxes : ℕ) (past : List Turn) (book : Book) → Explained boxes past
        → Stands past book
        → (member n : ℕ) → IsLeftIn (numbers_by (own (Member member) past)) n
        → n < pool_next pools.Ticket book }
    ensures apart { (boxes : ℕ) (past : List Turn) (book : Book) → Explained boxes past
        → Stands past book
        → (m k n : ℕ) → IsLeftIn (numbers_by (own (Member m) past)) n
        → IsLeftIn (numbers_by (own (Member k) past)) n → m ≡ k }
    ensures unissued { (boxes : ℕ) (past : List Turn) (book : Book) → Explained boxes past
        → Stands past book
        → (member n : ℕ) → IsLeftIn (numbers_by (own (Member member) past)) n
        → IsNotIn n (filter_map (λ turn. ticket_number turn.step.verdict) past) }
{}

/// With an honest book a cover that is answered `Replaced` is one of an earlier epoch than the
/// answer names: that of the holding of the end that asked.
pub fn replaced_by_later_epochs()
    ensures holdings { (acts : List Act) (w : Actor) (old new : Book) (spir : ℕ) (kind : Kind)
        (child epoch upto later : ℕ)
        → Owned acts old
        → MayAsk acts w (ask.Cover spir kind child epoch upto)
        → Answers old (ask.Cover spir kind child epoch upto)
        (answer.Refused (fault.Replaced later)) new
        → (c : Counter) (h : Holding) → counter_named kind child ≡ Some c
        → holding_at (Ours spir c) acts w ≡ Some h → h.epoch < later }
    ensures calls { (boxes : ℕ) (past : List Turn) (book : Book) → Explained boxes past
        → Stands past book → AreReplacedLater past }
{}

/// With an honest book no two associations that members hold receive at one SPI.
pub fn one_receives_at_an_spi()
    ensures { (boxes : ℕ) (past : List Turn) (book : Book) → Explained boxes past → Stands past book
        → (m k a b : ℕ) (h g : Held) → held_by (window_by past) (own (Member m) past) a ≡ Some h
        → held_by (window_by past) (own (Member k) past) b ≡ Some g
        → h.sa.spi_in ≡ g.sa.spi_in → a ≡ b }
{}

/// No key and IV seals two plaintexts, whatever ends seal: an IV is a number of its key's counter.
pub fn no_nonce_reuse()
    ensures { (boxes : ℕ) (past : List Turn) (book : Book) → Explained boxes past → Stands past book
        → IsEachOnce (key_ivs past) }
{}

/// No packet is accepted twice, by whatever ends: its number is one of the counter that receives
/// it.
pub fn packets_once()
    ensures { (boxes : ℕ) (past : List Turn) (book : Book) → Explained boxes past → Stands past book
        → IsEachOnce (filter_map accepted_in past) }
{}

/// No request is taken twice, of one association, by one answering end and under one Message ID,
/// and a service executes only in a turn that takes one.
pub fn requests_once()
    ensures once { (boxes : ℕ) (past : List Turn) (book : Book) → Explained boxes past
        → Stands past book → IsEachOnce (filter_map taken_in past) }
    ensures served { (boxes : ℕ) (past : List Turn) → Explained boxes past
        → AllByRecursion TakesWhereServed past }
{}

/// What an end holds as answered are the requests that it took since its holding began, or since
/// the association came to the peer: from the floor on just these are no longer new, and one of them
/// is repeated with the octets that it was answered with.
pub fn answered_are_taken()
    ensures members { (boxes : ℕ) (past : List Turn) → Explained boxes past
        → (member spir : ℕ) (held : Held)
        → held_by (window_by past) (own (Member member) past) spir ≡ Some held
        → KeepsTaken held.answered member_task spir (since spir (own (Member member) past)) }
    ensures peer { (boxes : ℕ) (past : List Turn) → Explained boxes past → (sa : Record)
        → KeepsTaken (slot_by (window_by past) (own Peer past) sa).answered peer_task sa.spir
        (since_entered sa.spir (own Peer past)) }
{}

/// A synchronisation leaves the greater counters. Where the peer accepts a request, its floor is then
/// the greater of what the request announces and one above the highest Message ID that it knew, and
/// its own next Message ID the greater of what the request expects and its own; its ESP number rises
/// by the delta, and its outstanding requests end. A member that accepts the response has the greater
/// of its own next Message ID and floor and those of the response.
pub fn greater_counters_are_left()
    ensures peer { (boxes : ℕ) (past : List Turn) (turn : Turn) → Explained boxes (turn ∷ past)
        → PeerSynchronises past turn }
    ensures member { (boxes : ℕ) (past : List Turn) (turn : Turn) → Explained boxes (turn ∷ past)
        → MemberSynchronises past turn }
{}

/// After a synchronisation no request below the new floor is taken in that association of the peer,
/// or in that holding of the member.
pub fn none_below_is_taken()
    ensures peer { (boxes : ℕ) (later past : List Turn) (turn : Turn)
        → Explained boxes (later ++ turn ∷ past) → PeerTakesFrom later turn }
    ensures member { (boxes : ℕ) (later past : List Turn) (turn : Turn)
        → Explained boxes (later ++ turn ∷ past) → MemberTakesFrom later turn }
{}

/// So it is of each synchronisation of a trace, and of the turns after it.
pub fn synchronisations_leave_the_greater()
    ensures { (boxes : ℕ) (past : List Turn) → Explained boxes past → LeavesGreater past }
{}

/// Where no packet that members opened was invented, each cover of received ESP numbers that was ever
/// asked for, whatever the keeper answered, goes less than one lead beyond the number that the peer
/// sends next in the association.
pub fn covers_are_caught_up()
    ensures { (boxes : ℕ) (past : List Turn) → Explained boxes past → NoneInvented past
        → CoversAreCaughtUp past }
{}

/// Where no packet that members opened was invented, and with an honest book, a synchronisation that
/// raises the peer's next number by a whole lead leaves it at or above where each epoch of the
/// association began that a member held by then: so also that of the member that asked for it.
pub fn synchronised_numbers_catch_up()
    ensures { (boxes : ℕ) (past : List Turn) (turn : Turn) (book : Book)
        → Explained boxes (turn ∷ past) → Stands past book → NoneInvented past
        → CatchesUp past turn }
{}

/// So it is of each synchronisation of a trace.
pub fn all_synchronisations_catch_up()
    ensures { (boxes : ℕ) (past : List Turn) (book : Book) → Explained boxes past → Stands past book
        → NoneInvented past → AllCatchUp past }
{}

/// What a turn executes is executed for the end that its event names, which is up: a member that
/// joined and did not end, or the peer.
pub fn executed_for_the_named()
    ensures { (boxes : ℕ) (past : List Turn) (turn : Turn) → Explained boxes (turn ∷ past)
        → IsSome turn.step.served → ServesNamed past turn }
{}

/// A covered genuine packet that comes to an end that is up is accepted at first delivery, by a
/// member where its number is acknowledged to it, and by the peer where it did not close the
/// association. Genuine are octets that open, whoever sealed them, and new is what no earlier turn
/// accepted.
pub fn genuine_are_accepted()
    ensures runs { (boxes : ℕ) (past : List Turn) → Explained boxes past → AreAccepted past }
    ensures members { (boxes : ℕ) (past : List Turn) (turn : Turn) → Explained boxes (turn ∷ past)
        → MemberAcceptsFirst past turn }
    ensures peer { (boxes : ℕ) (past : List Turn) (turn : Turn) → Explained boxes (turn ∷ past)
        → PeerAcceptsFirst past turn }
{
    sealed_packets_open();
}

/// What holds across the ends: no key and IV seals two plaintexts, no packet is accepted twice,
/// covered genuine packets are accepted at first delivery, and no request is taken twice, nor is one
/// executed that is not taken.
pub fn runs_are_safe()
    ensures { (boxes : ℕ) (past : List Turn) (book : Book) → Explained boxes past → Stands past book
        → Safe past }
{
    genuine_are_accepted();
}
