use hex::{FromHex, FromHexError};
use key_schedule::{ChildKeys, KeySize, SaKeys, auth_code, child_keys, cookie, resumed_keys};
use std::alloc::{AllocError, Global};
use std::convert::AsSlice;
use std::io;

/// Why the inputs could not be read, or their keys not printed.
#[derive(Debug, Drop)]
pub enum Unread {
    Io(io::Error),
    Value(FromHexError),
    Bits,
    Name,
}

impl From<io::Error> for Unread {
    fn from(error: io::Error) -> Unread {
        Unread::Io(error)
    }
}

impl From<AllocError> for Unread {
    fn from(error: AllocError) -> Unread {
        Unread::Io(error.into())
    }
}

impl From<FromHexError> for Unread {
    fn from(error: FromHexError) -> Unread {
        Unread::Value(error)
    }
}

/// The inputs of a key schedule.
#[derive(Drop)]
pub struct Case {
    size: KeySize,
    old_sk_d: [u8; 32],
    ni: [u8; 32],
    nr: [u8; 32],
    spii: u64,
    spir: u64,
    message: Vec<u8>,
    id_body: Vec<u8>,
}

impl Case {
    pub fn new(alloc: Global) -> Case {
        Case {
            size: KeySize::Bits128,
            old_sk_d: [0; 32],
            ni: [0; 32],
            nr: [0; 32],
            spii: 0,
            spir: 0,
            message: Vec::new(alloc),
            id_body: Vec::new(alloc),
        }
    }

    /// Takes in one line.
    pub fn read(&mut self, alloc: Global, name: &str, value: &str) -> Result<(), Unread> {
        match name {
            "bits" => self.size = key_size(value)?,
            "old-sk-d" => self.old_sk_d = <[u8; 32]>::from_hex(value)?,
            "ni" => self.ni = <[u8; 32]>::from_hex(value)?,
            "nr" => self.nr = <[u8; 32]>::from_hex(value)?,
            "spii" => self.spii = u64::from_be_bytes(<[u8; 8]>::from_hex(value)?),
            "spir" => self.spir = u64::from_be_bytes(<[u8; 8]>::from_hex(value)?),
            "message" => self.message = hex::decode(alloc, value)?,
            "id-body" => self.id_body = hex::decode(alloc, value)?,
            _ => return Err(Unread::Name),
        }
        Ok(())
    }

    /// Prints the inputs, the keys, the AUTH code of the initiator, and a cookie.
    ///
    /// The secret of the cookie is the first 24 octets of Ni, and its nonce is Nr.
    pub fn print<R: Print + AllocGlobal>(&self, rt: &R) -> io::Result<()> {
        let bits = match self.size {
            KeySize::Bits128 => 128,
            KeySize::Bits256 => 256,
        };
        println!(rt; "bits {bits}")?;
        print_value(rt, "old-sk-d", &self.old_sk_d)?;
        print_value(rt, "ni", &self.ni)?;
        print_value(rt, "nr", &self.nr)?;
        print_value(rt, "spii", &self.spii.to_be_bytes())?;
        print_value(rt, "spir", &self.spir.to_be_bytes())?;
        let keys = resumed_keys(
            &self.old_sk_d,
            self.size,
            &self.ni,
            &self.nr,
            self.spii,
            self.spir,
        );
        print_sa_keys(rt, &keys)?;
        print_child_keys(rt, &child_keys(&keys.sk_d, self.size, &self.ni, &self.nr))?;
        let message = self.message.as_slice();
        let id_body = self.id_body.as_slice();
        print_value(rt, "message", message)?;
        print_value(rt, "id-body", id_body)?;
        print_value(
            rt,
            "auth-code",
            &auth_code(&keys.sk_pi, message, &self.nr, id_body),
        )?;
        let mut secret = [0; 24];
        secret.copy_from_slice(&self.ni[..24]);
        print_value(rt, "cookie", &cookie(&secret, &self.nr, self.spii))
    }
}

fn key_size(value: &str) -> Result<KeySize, Unread> {
    match value {
        "128" => Ok(KeySize::Bits128),
        "256" => Ok(KeySize::Bits256),
        _ => Err(Unread::Bits),
    }
}

fn print_value<R: Print + AllocGlobal>(rt: &R, name: &str, octets: &[u8]) -> io::Result<()> {
    let text = hex::encode(rt.alloc(), octets)?;
    println!(rt; "{name} {text}")
}

fn print_sa_keys<R: Print + AllocGlobal>(rt: &R, keys: &SaKeys) -> io::Result<()> {
    print_value(rt, "sk-d", &keys.sk_d)?;
    print_value(rt, "sk-ei", keys.sk_ei.as_slice())?;
    print_value(rt, "sk-er", keys.sk_er.as_slice())?;
    print_value(rt, "sk-pi", &keys.sk_pi)?;
    print_value(rt, "sk-pr", &keys.sk_pr)
}

fn print_child_keys<R: Print + AllocGlobal>(rt: &R, keys: &ChildKeys) -> io::Result<()> {
    print_value(rt, "to-cluster", keys.to_cluster.as_slice())?;
    print_value(rt, "to-peer", keys.to_peer.as_slice())
}
