//! Seals ESP packets and asks receive windows, to compare them with another program's answers.
//!
//! A line `packet` has a key with its salt, an SPI, a sequence number and a payload, with `-` for
//! no octets. Its answer ends with the packet, or with `lost` where that does not open again. A
//! line `window` has a size, a base and the low halves of numbers in the order in which they come.
//! Its answer has for each the number that is meant and what the window says of it; a fresh number
//! is then noted.
#![tactic(auto)]

mod packets;
mod windows;

use anyhow::bail;
use std::alloc::Global;

fn main(rt: HostRuntime) -> anyhow::Result<()> {
    let alloc = rt.alloc();
    for line in rt.lines(alloc) {
        let answer = answer(alloc, line?.as_str())?;
        println!(rt; "{answer}")?;
    }
    Ok(())
}

/// A line of the input with its answer.
fn answer(alloc: Global, line: &str) -> anyhow::Result<String> {
    match line.split_once(' ') {
        Some(("packet", words)) => packets::answer(alloc, words),
        Some(("window", words)) => windows::answer(alloc, words),
        _ => bail!("a line is a packet or a window"),
    }
}
