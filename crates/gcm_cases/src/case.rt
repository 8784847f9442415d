//! A case: what is sealed, and what comes of it.

ghost use Rattle.std.specs.Prelude.{◌≤◌, length};

use crate::plain;
use aes_gcm::{Key, MAX_LEN, open_in_place, seal_in_place};
use anyhow::{bail, ensure};
use spend_once::{CounterName, End, Kind, Lot, Origin};
use std::alloc::Global;
use std::fmt;

/// The name of every key here: none is used twice.
const NAME: CounterName = CounterName {
    origin: Origin::Imported(1),
    kind: Kind::Iv,
    child: 0,
    end: End::Cluster,
};

/// What is sealed.
#[derive(Debug, Drop)]
pub struct Case {
    key: Vec<u8>,
    iv: u64,
    aad: Vec<u8>,
    plain: Vec<u8>,
}

/// What came of a case.
#[derive(Debug, Drop)]
pub struct Answer {
    ciphertext: Vec<u8>,
    tag: [u8; 16],
    opened: bool,
    refused: bool,
}

fn octets(alloc: Global, word: Option<&str>) -> anyhow::Result<Vec<u8>> {
    match word {
        None => bail!("a word is missing"),
        Some("-") => Ok(Vec::new(alloc)),
        Some(word) => Ok(hex::decode(alloc, word.as_bytes())?),
    }
}

// the salt at the key's end, and the initialization vector (RFC 4106, section 4)
fn nonce(key: &[u8], iv: u64) -> [u8; 12]
    requires { 4 ≤ length key.now }
{
    let mut nonce = [0; 12];
    nonce[..4].copy_from_slice(&key[key.len() - 4..]);
    nonce[4..].copy_from_slice(&iv.to_be_bytes());
    nonce
}

impl Case {
    /// Reads the four words of a line.
    pub fn parse(alloc: Global, line: &str) -> anyhow::Result<Case> {
        let mut words = line.split(' ');
        let key = octets(alloc, words.next())?;
        let iv = match words.next() {
            Some(word) => u64::from_str_radix(word, 16)?,
            None => bail!("the initialization vector is missing"),
        };
        let aad = octets(alloc, words.next())?;
        let plain = octets(alloc, words.next())?;
        Ok(Case {
            key,
            iv,
            aad,
            plain,
        })
    }

    /// Seals the case, opens it with a bit changed and then as it was sealed.
    pub fn answer(&self, alloc: Global) -> anyhow::Result<Answer> {
        let Some(key) = Key::new(NAME, &self.key) else {
            bail!("a key has 20 or 36 octets with its salt");
        };
        ensure!(self.aad.len() <= MAX_LEN, "too much associated data");
        ensure!(self.plain.len() <= MAX_LEN, "too long a plaintext");
        let mut buf = self.plain.clone()?;
        let mut tag = [0; 16];
        let Some(number) = Lot::new(NAME, self.iv, self.iv.saturating_add(1)).draw() else {
            bail!("no number has this value");
        };
        seal_in_place(&key, number, &self.aad, &mut buf, &mut tag);
        let ciphertext = buf.clone()?;
        let mut plainly = self.plain.clone()?;
        let plain_tag = plain::seal(&key, &nonce(&self.key, self.iv), &self.aad, &mut plainly);
        ensure!(
            plainly.as_slice() == ciphertext.as_slice() && plain_tag == tag,
            "plain bodies seal this otherwise"
        );
        let refused = is_refused(&key, self.iv, &self.aad, &mut buf, &tag);
        let opened = open_in_place(&key, self.iv, &self.aad, &mut buf, &tag);
        Ok(Answer {
            ciphertext,
            tag,
            opened: opened && buf.as_slice() == self.plain.as_slice(),
            refused,
        })
    }
}

/// Whether neither a changed bit of the tag nor one of the ciphertext lets the text be opened.
fn is_refused(key: &Key, iv: u64, aad: &[u8], buf: &mut [u8], tag: &[u8; 16]) -> bool
    requires aad_size { length aad.now ≤ MAX_LEN }
    requires size { length buf.old ≤ MAX_LEN }
{
    let mut other = *tag;
    other[15] ^= 0x01;
    if open_in_place(key, iv, aad, buf, &other) {
        return false;
    }
    if buf.is_empty() {
        return true;
    }
    buf[0] ^= 0x80;
    let opened = open_in_place(key, iv, aad, buf, tag);
    buf[0] ^= 0x80;
    !opened
}

impl fmt::Display for Answer {
    fn fmt<W: fmt::Write>(&self, f: &mut fmt::Formatter<W>) -> fmt::Result {
        write_octets(f, &self.ciphertext)?;
        write!(f, " ")?;
        write_octets(f, &self.tag)?;
        let opened = if self.opened { "opened" } else { "lost" };
        let refused = if self.refused { "refused" } else { "taken" };
        write!(f, " {opened} {refused}")
    }
}

/// Writes octets in hexadecimal, or `-` where there are none.
fn write_octets<W: fmt::Write>(f: &mut fmt::Formatter<W>, octets: &[u8]) -> fmt::Result {
    if octets.is_empty() {
        return write!(f, "-");
    }
    for octet in octets {
        write!(f, "{octet:02x}")?;
    }
    Ok(())
}
