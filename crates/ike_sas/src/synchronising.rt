//! What an end does in a synchronisation (RFC 6311, section 5).

ghost use Rattle.std.specs.Prelude.{◌≡◌, ◌+◌, ◌≤◌, ◌++◌, [], IfOk, OnErr};
ghost use Rattle.ike_sas.specs.Held.{request_header, response_header, with_sync_accepted, with_sync_begun, with_synced};
ghost use Rattle.ike_sas.specs.Sending.{SendsIke};
ghost use Rattle.ike_window.specs.Kept.{message_ids_of};
ghost use Rattle.sync_exchange.specs.Answers.{IsMemberAnswer};
ghost use Rattle.sync_exchange.specs.Laws.{request_with, response_ids, response_of};

use crate::draft::{Draft, SentMessage};
use crate::sa::IkeSa;
use ha_base::{Memory, NumberList};
use ike_values::notify_types::{IKEV2_MESSAGE_ID_SYNC, IPSEC_REPLAY_COUNTER_SYNC};
use ike_values::{Header, Payloads};
use spend_once::Number;
use std::alloc::Global;
use sync_exchange::{
    Accepted, DELTA_OCTETS, MESSAGE_IDS_OCTETS, MessageIds, SyncDrop, SyncRequest, delta_octets,
    member_accepts,
};

/// By how much a member asks the peer's outgoing ESP sequence number to rise (RFC 6311, section
/// 5.2).
pub const SYNC_DELTA: u64 = 1024;

/// How many octets of inner payloads a request to synchronise has: its two notifications.
const SYNC_REQUEST_OCTETS: usize = SYNC_RESPONSE_OCTETS + 8 + DELTA_OCTETS;

/// How many octets of inner payloads its response has.
pub const SYNC_RESPONSE_OCTETS: usize = 8 + MESSAGE_IDS_OCTETS;

/// What a synchronisation that was accepted leaves to be told.
#[derive(Drop)]
pub struct AcceptedSync {
    /// The Message IDs of the requests that were outstanding, in ascending order. Whether they were
    /// executed is not known.
    pub unknown: NumberList<8>,
    pub sent: SentMessage,
}

impl Draft {
    /// What a member sends to synchronise with the peer: these Message IDs, and by how much the
    /// peer's ESP sequence number is to rise (RFC 6311, sections 6.3 and 6.4). An error is want of
    /// memory.
    pub fn of_synchronisation(alloc: Global, ids: &MessageIds) -> Result<Draft, Memory>
        ensures { IfOk result (λ draft. draft.payloads ≡ request_with ids.now SYNC_DELTA) }
    {
        let mut draft = Draft::new(alloc, SYNC_REQUEST_OCTETS)?;
        draft.put_message_ids(ids);
        draft.put_notify(IPSEC_REPLAY_COUNTER_SYNC, &delta_octets(SYNC_DELTA));
        Ok(draft)
    }

    /// Appends the notification of these Message IDs. There is room for it. No memory is taken.
    fn put_message_ids(&mut self, ids: &MessageIds)
        requires fits { SYNC_RESPONSE_OCTETS ≤ self.old.room }
        ensures payloads { self.new.payloads ≡ self.old.payloads ++ response_of ids.now }
        ensures room { self.new.room + SYNC_RESPONSE_OCTETS ≡ self.old.room }
    {
        self.put_notify(IKEV2_MESSAGE_ID_SYNC, &ids.octets());
    }
}

impl IkeSa {
    /// Asks the peer to synchronise, with the payloads of the draft, sealed with the number as the
    /// IV (RFC 6311, section 5.1). `m1` is the Message ID that they announce as that of this end's
    /// next request; those below are given up. The request has the Message ID 0 itself, and is not
    /// kept as outstanding. The number is spent. No memory is taken.
    #[tactic(auto, using(crate::proofs::Asked::below_later))]
    pub fn begin_sync(&mut self, draft: Draft, m1: u32, number: Number) -> SentMessage
        requires named { number.name ≡ self.old.keys.sending.name }
        requires next { self.old.next ≤ m1 }
        ensures sends { SendsIke self.old.keys.sending number.value
            (request_header self.old.keys 0) draft.payloads result }
        ensures held { self.new ≡ with_sync_begun m1 self.old }
    {
        let header = self.keys.request_header(0);
        self.next = m1;
        draft.seal(&self.keys.sending, number, &header).sent
    }

    /// Takes on what the peer accepted of a request to synchronise, whose header this is: its
    /// outstanding requests end, its next request has the Message ID P2, and requests below M2 are
    /// old (RFC 6311, section 5.1). Responds with the nonce, P2 and M2, in the draft, which is
    /// empty, sealed with the number as the IV. The number is spent, and the response is not stored.
    /// No memory is taken.
    pub fn accept_sync(
        &mut self,
        mut draft: Draft,
        request: &Header,
        asked: &SyncRequest,
        accepted: &Accepted,
        number: Number,
    ) -> AcceptedSync
        requires named { number.name ≡ self.old.keys.sending.name }
        requires empty { draft.payloads ≡ [] }
        requires room { SYNC_RESPONSE_OCTETS ≤ draft.room }
        ensures unknown { result.unknown ≡ message_ids_of self.old.asked }
        ensures sends { SendsIke self.old.keys.sending number.value
            (response_header self.old.keys request.now)
            (response_of (response_ids asked.now accepted.now)) result.sent }
        ensures held { self.new ≡ with_sync_accepted accepted.now.p2 accepted.now.m2 self.old }
    {
        let ids = MessageIds {
            nonce: asked.nonce,
            send: accepted.p2,
            receive: accepted.m2,
        };
        draft.put_message_ids(&ids);
        let sent = self.seal_response(draft, request, number);
        let unknown = self.asking.clear();
        self.next = accepted.p2;
        self.answering.jump(accepted.m2);
        AcceptedSync { unknown, sent }
    }

    // Seals the response to a request, which is not stored.
    fn seal_response(&self, draft: Draft, request: &Header, number: Number) -> SentMessage
        requires named { number.name ≡ self.now.keys.sending.name }
        ensures { SendsIke self.now.keys.sending number.value
            (response_header self.now.keys request.now) draft.payloads result }
    {
        let header = self.keys.response_header(request);
        draft.seal(&self.keys.sending, number, &header).sent
    }

    /// Takes the response to the request to synchronise that had this nonce, whose payloads these
    /// are. Gives the Message IDs that hold from then on, that of this end's next request and that
    /// of the next one that it expects: the greater of its own and the peer's (RFC 6311, section
    /// 5.1). The error is `NotSync` where the first IKEV2_MESSAGE_ID_SYNC has not twelve octets or
    /// there is none, and `Nonce` where its nonce is another one. Nothing has changed then.
    #[tactic(auto, using(crate::proofs::Synchronised::below_synced))]
    pub fn take_sync(&mut self, nonce: u32, payloads: &Payloads) -> Result<(u32, u32), SyncDrop>
        ensures answer { IsMemberAnswer self.old.next self.old.answered.floor nonce payloads.now
            result }
        ensures synced { IfOk result (λ ids. self.new ≡ with_synced ids.0 ids.1 self.old) }
        ensures dropped { OnErr result (self.new ≡ self.old) }
    {
        let (next, floor) = member_accepts(self.next, self.answering.floor(), nonce, payloads)?;
        self.next = next;
        self.answering.jump(floor);
        self.synced = true;
        Ok((next, floor))
    }
}
