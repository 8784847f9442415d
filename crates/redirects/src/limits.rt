/// How many redirects are followed in one period (MAX_REDIRECTS of RFC 5685, section 7).
pub const MAX_REDIRECTS: u32 = 5;

/// How many follows are kept: more decide nothing.
pub const KEPT_FOLLOWS: usize = MAX_REDIRECTS as usize;

/// How long a followed redirect counts, in seconds (REDIRECT_LOOP_DETECT_PERIOD of RFC 5685,
/// section 7).
pub const LOOP_DETECT_PERIOD: u64 = 300;

/// How many octets a nonce has at most (RFC 7296, section 3.9).
pub const MAX_NONCE: usize = 256;

/// How many octets the data of a REDIRECT notification have at most: type, length, the longest
/// identity and nonce.
pub const MAX_REDIRECT: usize = 2 + 255 + MAX_NONCE;
