/// What becomes of a redirect.
#[derive(Clone, Copy, Debug, PartialEq)]
pub enum Decision {
    /// It is followed.
    Follow,
    /// So many redirects were followed within the period, and no more are (RFC 5685, section 7).
    Loop(u32),
    /// Its nonce is not that of the request (RFC 5685, section 3).
    Nonce,
    /// Nothing was asked that it could answer.
    Unasked,
}
