//! The laws of moves. Each is the contract of a function that does nothing.

ghost use Rattle.std.specs.Prelude.{◌≡◌, ◌≢◌, ◌<◌, ◌≤◌, ◌⊎◌, ℕ, Option, Some, None, List, [], ◌∷◌, length, true};
ghost use Rattle.std.specs.List.{AllByRecursion, Contains};
ghost use Rattle.keeper_book.specs.Book.{Book, Enters, Entry, book_after, entry_of, is_spent, pool_next};
ghost use Rattle.keeper_book.specs.Counters.{five_at};
ghost use Rattle.keeper_book.specs.declared.calls.Call.{Call};
ghost use Rattle.ha_base.specs.declared.counter_names.Derivation.{Derivation};
ghost use Rattle.keeper_book.specs.Told.{seen};
ghost use Rattle.keeper_book.specs.declared.TheConstants.{SETTLED_IV_HIGH};
ghost use Rattle.ha_base.specs.declared.limits.TheConstants.{LEAST_SPI};
ghost use Rattle.keeper_book.specs.declared.records.Record.{Record};
ghost use Rattle.turn_rules.specs.Slots.{peer_counter};
ghost use Rattle.keeper_book.specs.declared.calls.KeeperAnswer.TheVariants as answer;
ghost use Rattle.keeper_book.specs.declared.calls.KeeperAsk.TheVariants as ask;
ghost use Rattle.keeper_book.specs.declared.counters.Counter.{Counter};
ghost use Rattle.keeper_book.specs.declared.counters.Counter.TheVariants as counter;
ghost use Rattle.keeper_book.specs.declared.faults.KeeperFault.TheVariants as fault;
ghost use Rattle.keeper_book.specs.declared.pools.Pool.{Pool};
ghost use Rattle.keeper_book.specs.declared.pools.Pool.TheVariants as pools;
ghost use Rattle.turn_laws.specs.Acts.{Act, Calls, Ends, HoldsFor, IsHalfOpen, IsNotBy, MayAsk, MayDo, MaySettle, Move, Opened, Opens, Seals, Starts, act_by, acts_onto, begun_at, column_at, half_begun, holding_at, holding_settled, lot_begun, numbers_at, opened_at, uses_at};
ghost use Rattle.turn_laws.specs.Columns.{Column, ColumnGoesOn, column_mark, nothing};
ghost use Rattle.turn_laws.specs.Holdings.{Actor, Begins, Draws, End, Half, Holding, IsNew, IsOwned, Jumps, MayUse, Passes, Rises, Use, holding_after, uses_after};
ghost use Rattle.turn_laws.specs.Owned.{Owned, WritesBook};
ghost use Rattle.turn_laws.specs.Places.{Ours, Place, Pooled, Theirs, place_of};
ghost use Rattle.turn_laws.specs.Resumed.{IsResumedRecord};
ghost use Rattle.turn_rules.specs.Ends.{Performer};
ghost use Rattle.turn_rules.specs.Safe.{IsEachOnce, KeyIv};

/// A call of the keeper keeps what is owned: one that is answered or refused by name, its answer
/// seen or hidden, and one that failed, whether the book took its entry or was left.
pub fn calls_keep_owned()
    ensures answered { (acts : List Act) (w : Actor) (call : Call) (old new : Book) → Owned acts old
        → MayAsk acts w call.asked
        → call.answer ≢ answer.Refused fault.Failed → Enters old call new
        → Owned (act_by w (Calls call) ∷ acts) new }
    ensures failed { (acts : List Act) (w : Actor) (call : Call) (old new : Book) → Owned acts old
        → MayAsk acts w call.asked
        → call.answer ≡ answer.Refused fault.Failed
        → (new ≡ old) ⊎ (new ≡ book_after old call.asked)
        → Owned (act_by w (Calls call) ∷ acts) new }
{}

/// The beginning of a holding of a new epoch keeps the numbers of a counter apart, also in place of
/// an earlier holding of the same end.
pub fn beginnings_keep_owned()
    ensures { (held : Actor → Option Holding) (uses : List Use) (old new : Column) (w : Actor)
        (h : Holding)
        → IsOwned held uses old → ColumnGoesOn old new → IsNew old new h
        → IsOwned (holding_after (Begins w h) held) uses new }
{}

/// The rise of a holding's high, as far as its epoch goes, keeps the numbers of a counter apart.
pub fn rises_keep_owned()
    ensures { (held : Actor → Option Holding) (uses : List Use) (column : Column) (w : Actor)
        (upto : ℕ)
        → IsOwned held uses column
        → ((h : Holding) → held w ≡ Some h → upto ≤ column_mark column h.epoch)
        → IsOwned (holding_after (Rises w upto) held) uses column }
{}

/// The use of a number from a holding's base on and below its high, which the holder did not use,
/// keeps the numbers of a counter apart.
pub fn uses_keep_owned()
    ensures { (held : Actor → Option Holding) (uses : List Use) (column : Column) (w : Actor)
        (h : Holding) (n : ℕ)
        → IsOwned held uses column → held w ≡ Some h → MayUse h n
        → IsOwned (holding_after (Draws w n) held) (uses_after (Draws w n) held uses) column }
{}

/// A jump to a number, or to none where an end is above it already, keeps the numbers of a counter
/// apart.
pub fn jumps_keep_owned()
    ensures { (held : Actor → Option Holding) (uses : List Use) (column : Column) (w : Actor)
        (n : ℕ)
        → IsOwned held uses column → IsOwned (holding_after (Jumps w n) held) uses column }
{}

/// Who holds numbers may use the next one, where it lies below the high.
pub fn next_may_be_used()
    ensures { (held : Actor → Option Holding) (uses : List Use) (column : Column) (w : Actor)
        (h : Holding)
        → IsOwned held uses column → held w ≡ Some h → h.next < h.high → MayUse h h.next }
{}

/// The passing of a holding to another one, in place of what that one held, keeps the numbers of a
/// counter apart.
pub fn passes_keep_owned()
    ensures { (held : Actor → Option Holding) (uses : List Use) (old new : Column) (w v : Actor)
        → IsOwned held uses old → ColumnGoesOn old new
        → IsOwned (holding_after (Passes w v) held) uses new }
{}

/// The end of a member keeps what is owned: what it holds is used by nobody any more.
pub fn ends_keep_owned()
    ensures { (acts : List Act) (w : Actor) (book : Book) → Owned acts book
        → Owned (act_by w Ends ∷ acts) book }
{}

/// A move that may be made, whatever it is, keeps what is owned.
pub fn moves_keep_owned()
    ensures { (acts : List Act) (w : Actor) (move : Move) (old new : Book) → Owned acts old
        → MayDo acts w move → WritesBook old move new
        → Owned (act_by w move ∷ acts) new }
{}

/// Acts leave what everybody else holds, but that a resumption that gets half open begins to hold,
/// and that one which is settled passes on.
pub fn others_change_nothing()
    ensures { (p : Place) (v : Actor) (more acts : List Act) → AllByRecursion (IsNotBy v) more
        → holding_at p (acts_onto more acts) v ≡ holding_at p acts v }
{}

/// A range that is leased of a pool keeps what is owned, whether its caller saw it or not. Where it
/// did, the range is its lot, in place of an earlier one.
pub fn leases_keep_owned()
    ensures owned { (acts : List Act) (w : Actor) (pool : Pool) (count : ℕ) (call : Call)
        (old new : Book)
        → Owned acts old → call.asked ≡ ask.Lease pool count → Enters old call new
        → Owned (act_by w (Calls call) ∷ acts) new }
    ensures lot { (acts : List Act) (w : Actor) (pool : Pool) (first count : ℕ) (call : Call)
        → call.asked ≡ ask.Lease pool count → seen call ≡ answer.First first
        → holding_at (Pooled pool) (act_by w (Calls call) ∷ acts) w
        ≡ Some (lot_begun (length (begun_at (Pooled pool) acts).bases) pool first count) }
{}

/// A resumption that gets half open under a number that is drawn of the nonces keeps what is owned,
/// and so does what it seals, by itself, under its first IV when it fails.
pub fn half_opens_keep_owned()
    ensures opens { (acts : List Act) (w : Actor) (ticket : ℕ) (made : Derivation) (book : Book)
        → Owned acts book
        → HoldsFor (holding_at (Pooled pools.Nonce) acts w) made.spir
        → Owned (act_by w (Opens ticket made) ∷ acts) book }
    ensures fails { (acts : List Act) (key : KeyIv) (spir : ℕ) (book : Book) → Owned acts book
        → place_of key.name ≡ Ours spir counter.Iv → key.iv ≡ 1 → IsHalfOpen acts spir
        → Owned (act_by (Half spir) (Seals key) ∷ acts) book }
{}

/// A settle keeps what is owned, however it is answered: a member's that settles what is half open
/// by its ticket, and with the record of its derivation. Where the member saw it done, it holds the
/// first epoch of each counter. That of the IVs passes to it from what was half open, which holds
/// nothing any more.
pub fn settles_keep_owned()
    ensures owned { (acts : List Act) (w : Actor) (ticket old_spir member : ℕ) (sa : Record)
        (call : Call) (old new : Book)
        → Owned acts old → call.asked ≡ ask.Settle ticket old_spir sa member
        → MaySettle acts w ticket sa → Enters old call new
        → Owned (act_by w (Calls call) ∷ acts) new }
    ensures begins { (acts : List Act) (w : Actor) (ticket old_spir member : ℕ) (sa : Record)
        (call : Call) (c : Counter)
        → call.asked ≡ ask.Settle ticket old_spir sa member → seen call ≡ answer.Done
        → c ≢ counter.Iv
        → holding_at (Ours sa.spir c) (act_by w (Calls call) ∷ acts) w
        ≡ Some (holding_settled c sa) }
    ensures passes { (acts : List Act) (w : Actor) (ticket old_spir member : ℕ) (sa : Record)
        (call : Call)
        → call.asked ≡ ask.Settle ticket old_spir sa member → seen call ≡ answer.Done
        → MaySettle acts w ticket sa
        → holding_at (Ours sa.spir counter.Iv) (act_by w (Calls call) ∷ acts) w ≡ Some half_begun }
    ensures leaves { (acts : List Act) (w : Actor) (ticket old_spir member : ℕ) (sa : Record)
        (call : Call)
        → call.asked ≡ ask.Settle ticket old_spir sa member → seen call ≡ answer.Done
        → MaySettle acts w ticket sa
        → holding_at (Ours sa.spir counter.Iv) (act_by w (Calls call) ∷ acts) (Half sa.spir)
        ≡ None }
{}

/// The beginning of an association of the peer that was resumed keeps what is owned, where the peer
/// has no number of its counters' names.
pub fn starts_keep_owned()
    ensures { (acts : List Act) (w : Actor) (sa : Record) (book : Book) → Owned acts book
        → ((c : Counter) → begun_at (Theirs (peer_counter sa c)) acts ≡ nothing)
        → Owned (act_by w (Starts sa) ∷ acts) book }
{}

/// What got half open did so under a number that was drawn of the nonces. While it is half open it
/// holds the first epoch's IVs alone, nobody used one of them, and no member holds the first epoch
/// of a counter. The book's IVs go on from these, so that its high and the base of each later epoch
/// are no lower than where they end. An association of the book under its SPI has the record of its
/// derivation, and its ticket is spent. And whatever has a number that was used, of any counter of
/// the cluster, under an SPI that no import has, has one that was drawn.
pub fn half_opens_are_apart()
    ensures alone { (acts : List Act) (book : Book) → Owned acts book
        → (spir : ℕ) → IsHalfOpen acts spir → (v : Actor) (h : Holding)
        → holding_at (Ours spir counter.Iv) acts v ≡ Some h → h.epoch ≡ 1 → v ≡ Half spir }
    ensures unused { (acts : List Act) (book : Book) → Owned acts book
        → (spir : ℕ) → IsHalfOpen acts spir
        → AllByRecursion (λ u. u.epoch ≢ 1) (uses_at (Ours spir counter.Iv) acts) }
    ensures none_yet { (acts : List Act) (book : Book) → Owned acts book
        → (spir : ℕ) (o : Opened) → opened_at spir acts ≡ Some o → IsHalfOpen acts spir
        → entry_of spir book.entries ≡ None → numbers_at (Ours spir counter.Iv) acts ≡ [] }
    ensures above { (acts : List Act) (book : Book) → Owned acts book
        → (spir : ℕ) (o : Opened) → opened_at spir acts ≡ Some o → IsHalfOpen acts spir
        → AllByRecursion (λ n. SETTLED_IV_HIGH ≤ n) (numbers_at (Ours spir counter.Iv) acts) }
    ensures unheld { (acts : List Act) (book : Book) → Owned acts book
        → (spir : ℕ) (o : Opened) → opened_at spir acts ≡ Some o → IsHalfOpen acts spir
        → (c : Counter) (end : Performer) (h : Holding)
        → holding_at (Ours spir c) acts (End end) ≡ Some h → h.epoch ≢ 1 }
    ensures goes_on { (acts : List Act) (book : Book) → Owned acts book → (spir : ℕ)
        → ColumnGoesOn (begun_at (Ours spir counter.Iv) acts)
        (column_at (Ours spir counter.Iv) acts book) }
    ensures later { (acts : List Act) (book : Book) → Owned acts book
        → (spir : ℕ) (o : Opened) → opened_at spir acts ≡ Some o → (i : ℕ) → 1 ≤ i
        → SETTLED_IV_HIGH ≤ column_mark (column_at (Ours spir counter.Iv) acts book) i }
    ensures high { (acts : List Act) (book : Book) → Owned acts book
        → (spir : ℕ) (o : Opened) → opened_at spir acts ≡ Some o
        → (e : Entry) → entry_of spir book.entries ≡ Some e
        → SETTLED_IV_HIGH ≤ five_at e.highs counter.Iv }
    ensures drawn { (acts : List Act) (book : Book) → Owned acts book
        → (spir : ℕ) (o : Opened) → opened_at spir acts ≡ Some o
        → Contains (numbers_at (Pooled pools.Nonce) acts) spir }
    ensures its_record { (acts : List Act) (book : Book) → Owned acts book
        → (spir : ℕ) (o : Opened) → opened_at spir acts ≡ Some o
        → (e : Entry) → entry_of spir book.entries ≡ Some e → IsResumedRecord o.made e.sa }
    ensures spent { (acts : List Act) (book : Book) → Owned acts book
        → (spir : ℕ) (o : Opened) → opened_at spir acts ≡ Some o
        → (e : Entry) → entry_of spir book.entries ≡ Some e
        → is_spent o.ticket book.spent ≡ true }
    ensures used { (acts : List Act) (book : Book) → Owned acts book
        → (spir : ℕ) → spir < LEAST_SPI → (c : Counter) → numbers_at (Ours spir c) acts ≢ []
        → Contains (numbers_at (Pooled pools.Nonce) acts) spir }
{}

/// Lots of a pool lie below its next number and do not meet, a lot belongs to one end, and each
/// number that was drawn lies below the next number and was drawn once.
pub fn lots_are_apart()
    ensures below { (acts : List Act) (book : Book) → Owned acts book
        → (q : Pool) (w : Actor) (h : Holding) → holding_at (Pooled q) acts w ≡ Some h
        → h.high ≤ pool_next q book }
    ensures apart { (acts : List Act) (book : Book) → Owned acts book
        → (q : Pool) (w v : Actor) (h g : Holding)
        → holding_at (Pooled q) acts w ≡ Some h → holding_at (Pooled q) acts v ≡ Some g
        → h.epoch < g.epoch → h.high ≤ g.base }
    ensures alone { (acts : List Act) (book : Book) → Owned acts book
        → (q : Pool) (w v : Actor) (h g : Holding)
        → holding_at (Pooled q) acts w ≡ Some h → holding_at (Pooled q) acts v ≡ Some g
        → h.epoch ≡ g.epoch → w ≡ v }
    ensures drawn { (acts : List Act) (book : Book) → Owned acts book → (q : Pool)
        → AllByRecursion (λ n. n < pool_next q book) (numbers_at (Pooled q) acts) }
    ensures once { (acts : List Act) (book : Book) → Owned acts book → (q : Pool)
        → IsEachOnce (numbers_at (Pooled q) acts) }
{}
