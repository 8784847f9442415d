ghost use Rattle.std.specs.Prelude.{◌≡◌, ◌+◌, ◌<◌, ◌≤◌, ◌↔◌, Contains, IfErr, IfOk, IsTrue, OnOk};
ghost use Rattle.ike_sas.specs.Held.{request_header, with_asked, without_asked};
ghost use Rattle.ike_sas.specs.Sending.{GivesKept, SendsIke};
ghost use Rattle.ike_window.specs.Asking.{FitsBeside, IsLeast};
ghost use Rattle.ike_window.specs.Kept.{message_ids_of, kept_octets};
ghost use Rattle.ike_window.specs.declared.TheConstants.{LAST_ID, WINDOW};

use crate::draft::{Draft, Sealed, SentMessage};
use crate::exchanges::INFORMATIONAL;
use crate::keys::IkeKeys;
use crate::sa::IkeSa;
use events::{Datagram, Medium};
use ha_base::{End, Memory, Octets};
use ike_values::Header;
use spend_once::Number;
use std::alloc::Global;

impl IkeKeys {
    /// The header of a request of this end.
    pub(crate) fn request_header(&self, id: u32) -> Header
        ensures { result ≡ request_header self.now id }
    {
        Header {
            spii: self.spii,
            spir: self.spir,
            exchange: INFORMATIONAL,
            initiator: self.end == End::Peer,
            response: false,
            id,
        }
    }
}

/// A copy of octets that were kept, as a datagram. An error is want of memory.
pub(crate) fn copied(alloc: Global, kept: &Octets) -> Result<Datagram, Memory>
    ensures medium { IfOk result (λ datagram. datagram.medium ≡ Medium.Ike) }
    ensures octets { IfOk result (λ datagram. datagram.octets.octets ≡ kept.now.octets) }
{
    let mut octets = Octets::with_room(alloc, kept.as_slice().len())?;
    octets.extend(kept.as_slice()).unwrap();
    Ok(Datagram {
        medium: Medium::Ike,
        octets,
    })
}

impl IkeSa {
    /// Whether a request of this Message ID fits the window (RFC 7296, section 2.3). An error is
    /// the least that is outstanding, and comes exactly where that is a window or more below it.
    pub fn may_ask(&self, id: u32) -> Result<(), u32>
        ensures ok { OnOk result (FitsBeside id self.now.asked) }
        ensures full { IfErr result
            (λ least. IsLeast (message_ids_of self.now.asked) least × (least + WINDOW ≤ id)) }
    {
        self.asking.may_ask(id)
    }

    /// Sends a request with the payloads of the draft under this Message ID, sealed with the number
    /// as its IV. The number is spent, and the octets are kept as outstanding. No memory is taken.
    #[tactic(auto, using(crate::proofs::Asked::below_later, crate::proofs::Asked::below_asked))]
    pub fn ask(&mut self, draft: Draft, id: u32, number: Number) -> SentMessage
        requires named { number.name ≡ self.old.keys.sending.name }
        requires fits { FitsBeside id self.old.asked }
        requires next { self.old.next ≤ id }
        requires below_the_end { id < LAST_ID }
        ensures sends { SendsIke self.old.keys.sending number.value
            (request_header self.old.keys id) draft.payloads result }
        ensures held { self.new ≡ with_asked id result.datagram.octets.octets self.old }
    {
        let header = self.keys.request_header(id);
        let Sealed { sent, kept } = draft.seal(&self.keys.sending, number, &header);
        self.asking.put(id, kept);
        self.next = id + 1;
        sent
    }

    /// The octets of an outstanding request, to be sent again; nothing is sealed. None exactly
    /// where no request of this Message ID is outstanding. An error is want of memory.
    pub fn again(&self, alloc: Global, id: u32) -> Result<Option<Datagram>, Memory>
        ensures { IfOk result (GivesKept (kept_octets id self.now.asked)) }
    {
        match self.asking.again(id) {
            Some(kept) => Ok(Some(copied(alloc, kept)?)),
            None => Ok(None),
        }
    }

    /// Ends the request of this Message ID, which was answered. False comes exactly where it was
    /// not outstanding.
    pub fn end_request(&mut self, id: u32) -> bool
        ensures found { IsTrue result ↔ Contains (message_ids_of self.old.asked) id }
        ensures held { self.new ≡ without_asked id self.old }
    {
        self.asking.answered(id)
    }
}
