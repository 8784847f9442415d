/// The exchange that authenticates the ends (RFC 7296, section 3.1).
pub const IKE_AUTH: u8 = 35;

/// The exchange that makes further associations (RFC 7296, section 3.1).
pub const CREATE_CHILD_SA: u8 = 36;

/// The exchange of notifications and of whatever else an association needs (RFC 7296, section 3.1).
pub const INFORMATIONAL: u8 = 37;

/// The exchange that resumes an association by a ticket (RFC 5723, section 4.3.1). Its messages are
/// not sealed.
pub const IKE_SESSION_RESUME: u8 = 38;
