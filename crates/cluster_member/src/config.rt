use aes_gcm::Key;
use ha_base::Identity;

/// How the members of a cluster are configured.
#[derive(Drop)]
pub struct Config {
    /// The cluster's identity.
    pub identity: Identity,
    /// The lifetime of tickets, in seconds.
    pub lifetime: u32,
    /// The receive window of ESP: 64, 128, 256, 512 or 1,024 numbers.
    pub window: u32,
    /// The key of tickets, where there is one.
    pub ticket_key: Option<Key>,
}
