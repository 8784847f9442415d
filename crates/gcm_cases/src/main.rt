//! Seals the cases that it reads and opens them again, to compare AES-GCM with another program's
//! answers.
//!
//! A line has a key with its salt, an initialization vector, associated data and a plaintext in
//! hexadecimal, with `-` for no octets. Its answer has the ciphertext and the tag, then `opened`
//! where the sealed text opened to the plaintext, and `refused` where it did not open with a bit
//! changed. A text that plain bodies seal otherwise ends the program.
#![tactic(auto)]

mod case;
mod plain;

use crate::case::Case;

fn main(rt: HostRuntime) -> anyhow::Result<()> {
    let alloc = rt.alloc();
    for line in rt.lines(alloc) {
        let case = Case::parse(alloc, line?.as_str())?;
        let answer = case.answer(alloc)?;
        println!(rt; "{answer}")?;
    }
    Ok(())
}
