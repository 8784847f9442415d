/// What a receive window says of a sequence number.
#[derive(Clone, Copy, Debug, PartialEq, Eq)]
pub enum Judgement {
    /// Below the base or below the window, so that nothing is known of it.
    Stale,
    /// Noted before.
    Seen,
    /// Not noted before.
    Fresh,
}
