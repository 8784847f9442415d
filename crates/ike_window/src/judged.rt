/// What a window says of a request by its Message ID (RFC 7296, section 2.3).
#[derive(Clone, Copy, Debug, PartialEq, Eq)]
pub enum Judged {
    /// Not answered yet, and within the window: it may be executed.
    New,
    /// Answered before, and the response is still kept: it is sent again.
    Repeat,
    /// Above the window, or the last Message ID, which no request has.
    Ahead,
    /// Below the floor, or more than a window below the least that was not answered.
    Old,
}
