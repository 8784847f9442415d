/// Why a synchronisation was dropped.
#[derive(Clone, Copy, Debug, PartialEq)]
pub enum SyncDrop {
    /// The first Message ID synchronisation has not twelve octets, or there is none.
    NotSync,
    /// The Message ID of the member's next request is not above this one, the highest that the
    /// cluster used.
    NotAbove(u32),
    /// The nonce of the response is not that of the request.
    Nonce,
    /// The replay counter notification has neither no octets nor eight, or the sequence number
    /// would pass its end.
    Delta,
}
