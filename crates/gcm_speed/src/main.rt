//! Seals a buffer again and again, so that `bench/gcm` can measure it.
//!
//! A line has the buffer's size in octets and how often it is sealed. The answer repeats them and
//! has the tag of the last time.
#![tactic(auto)]

ghost use Rattle.std.specs.Prelude.{◌≤◌, length};

use aes_gcm::{Key, MAX_LEN, seal_in_place};
use anyhow::{bail, ensure};
use spend_once::{CounterName, End, Kind, Lot, Origin};
use std::fmt;

/// The name of the one key, which seals under each number once.
const NAME: CounterName = CounterName {
    origin: Origin::Imported(1),
    kind: Kind::Iv,
    child: 0,
    end: End::Cluster,
};

/// A key of zeros with its salt, and eight octets of associated data as an ESP packet has.
const KEY: [u8; 20] = [0; 20];

const AAD: [u8; 8] = [0; 8];

#[derive(Clone, Copy, Debug)]
struct Tag([u8; 16]);

impl fmt::Display for Tag {
    fn fmt<W: fmt::Write>(&self, f: &mut fmt::Formatter<W>) -> fmt::Result {
        for octet in &self.0 {
            write!(f, "{octet:02x}")?;
        }
        Ok(())
    }
}

/// Seals `buf` under the numbers from 0 on, `count` times, and answers the last tag.
fn seal_again(buf: &mut [u8], count: u64) -> Option<Tag>
    requires { length buf.old ≤ MAX_LEN }
{
    let key = Key::new(NAME, &KEY)?;
    let mut lot = Lot::new(NAME, 0, count);
    let mut tag = [0; 16];
    for _turn in 0..count {
        let number = lot.draw()?;
        seal_in_place(&key, number, &AAD, buf, &mut tag);
    }
    Some(Tag(tag))
}

fn main(rt: HostRuntime) -> anyhow::Result<()> {
    let alloc = rt.alloc();
    for line in rt.lines(alloc) {
        let line = line?;
        let Some((size, count)) = line.as_str().split_once(' ') else {
            bail!("a line has a size and a count");
        };
        let size = size.parse::<usize>()?;
        let count = count.parse::<u64>()?;
        ensure!(size <= MAX_LEN, "too large a buffer");
        let mut buf = vec![in alloc; 0u8; size]?;
        let Some(tag) = seal_again(&mut buf, count) else {
            bail!("no key");
        };
        println!(rt; "{size} {count} {tag}")?;
    }
    Ok(())
}
