use ike_sas::SentMessage;
use keeper_book::{KeeperFault, Record};
use resume_exchange::ResumeDrop;

/// Why a peer that resumes is not authenticated, in the order of the checks.
#[derive(Clone, Copy, Debug, PartialEq, Eq)]
pub enum Why {
    /// A payload is missing: IDi, AUTH by the shared key, SA, TSi or TSr.
    Payload,
    /// The peer names another identity than the ticket.
    Identity,
    /// The AUTH code is not that of the resumed keys.
    Code,
    /// The ticket has expired since.
    Expired,
    /// The ticket was spent.
    Spent,
}

/// What a member answers to the IKE_AUTH of a peer that resumes.
///
/// Where a message is sealed, nothing is half open by the request any more: so at most one is
/// sealed for each half-open association.
#[derive(Drop)]
pub enum MemberAuth {
    /// The association is resumed, and the old one closed: the record that the keeper has of it,
    /// and the answer.
    Resumed(Record, SentMessage),
    /// AUTHENTICATION_FAILED is answered.
    AuthFailed(Why, SentMessage),
    /// NO_PROPOSAL_CHOSEN is answered.
    NoProposal(SentMessage),
    /// The message is dropped: as `UnknownSpi`, `Exchange`, `NotOpened` or `Bad`.
    Dropped(ResumeDrop),
    /// What the keeper answered in place of settling the ticket: `Failed`, `SpiInUse` or `Full`.
    /// The association is still half open.
    Refused(KeeperFault),
}
