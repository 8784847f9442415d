use events::{Datagram, IkeDrop};
use ike_values::Message;
use sk_payload::Opened;

/// What octets that came are to an end. Nothing has changed by it.
#[derive(Drop)]
pub enum Arrival {
    /// They are dropped.
    Dropped(IkeDrop),
    /// A message of the exchange IKE_SESSION_RESUME (RFC 5723, section 4.3.1).
    Resumption(Message),
    /// The peer's response to a synchronisation, at a member (RFC 6311, section 5.1).
    SyncResponse(Opened),
    /// A member's request to synchronise, at the peer (RFC 6311, section 5.1).
    Synchronisation(Opened),
    /// The response to a request that is outstanding, whose Message ID it has.
    Response(Opened),
    /// A request that was answered before: its Message ID, and the response once more, with the
    /// same octets (RFC 7296, section 2.1).
    Repeat { id: u32, datagram: Datagram },
    /// A request that was not answered yet and may be.
    New(Opened),
}
