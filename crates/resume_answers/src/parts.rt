use aes_gcm::Key;
use ha_base::{GatewayId, Identity, Memory, Moment, Octets};
use keeper_book::KeeperFault;
use resume_exchange::{FRESH_OCTETS, HalfOpens, NONCE_OCTETS, ResumeDrop};
use spend_once::Lot;
use tickets::Content;

/// What a member is told once, for all resumptions.
#[derive(Drop)]
pub struct OwnParts {
    /// Its number.
    pub member: u32,
    /// The first octets of its nonces, which are its own alone.
    pub fresh: [u8; FRESH_OCTETS],
    /// Who the cluster is.
    pub identity: Identity,
    /// The key of the cluster's tickets, where it has one.
    pub ticket_key: Option<Key>,
    /// The gateway to which it sends peers that follow redirects, where it does.
    pub steered: Option<GatewayId>,
}

/// What a member holds for resumptions.
#[derive(Drop)]
pub struct Resumptions {
    /// What is half open.
    pub half_opens: HalfOpens,
    /// The numbers of the nonces' pool that it leased and did not draw yet.
    pub nonces: Lot,
}

/// A request to resume whose ticket is taken, unless the keeper knows it as spent.
#[derive(Clone, Copy)]
pub struct Presented {
    /// When it came.
    pub came: Moment,
    /// The initiator's SPI.
    pub spii: u64,
    /// The peer's nonce.
    pub ni: [u8; NONCE_OCTETS],
    /// The number of the ticket, and what it carries.
    pub ticket: u64,
    pub content: Content,
}

/// What a member answers to a request to resume. Octets are those of the message that is sent.
#[derive(Drop)]
pub enum MemberAnswer {
    /// The ticket is taken, and the association half open under this responder's SPI.
    HalfOpen(u64, Octets),
    /// The ticket is not taken.
    Nack(Octets),
    /// The peer is sent to this gateway.
    Redirecting(GatewayId, Octets),
    /// The request is dropped: as `Form` or `HalfOpenFull`.
    Dropped(ResumeDrop),
    /// What the keeper answered in place of a look or a number: `Failed`, or `Full` where its pool
    /// has no more. Nothing is half open by the request.
    Refused(KeeperFault),
}
