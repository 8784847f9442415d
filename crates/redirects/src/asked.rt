/// Whether an end waits for a redirect, and in what exchange it comes.
#[derive(Clone, Copy)]
pub enum Asked {
    /// It waits for none.
    No,
    /// The redirect comes in an association, in a message that is authentic (RFC 5685, section 5).
    Session,
    /// The redirect answers a request to resume, which is taken as the first exchange (RFC 5685,
    /// section 3). The octets are the nonce of that request.
    Resumption([u8; 32]),
}
