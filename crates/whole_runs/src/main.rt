//! Plays the inputs that it reads through the top call, in pieces, and with each of the first calls
//! of a stream failing.
//!
//! A line `== pieces`, `== echoes`, `== shows`, `== faults` or `== show-faults` begins a case, and
//! the lines after it are its input. A case `pieces` or `echoes` is played, and a case `shows`
//! shown, in pieces of 1, of 7 and of 65,536 octets: its answer has what was written, the status
//! and what stands on the error output, which have to be the same all three times. The services of
//! a case `echoes` reply with the octet `ee` and the request, those of all others with their counts.
//! A case `faults` is played, and a case `show-faults` shown, in pieces of 7 octets: each of the
//! first ten reads, writes and writes on the error output fails in turn, and its answer has the
//! statuses. What stands on the error output is then the line of the status, or a front of its line
//! where a write there fails.
#![tactic(auto)]

mod case;
mod run;
mod services;

use std::io;

fn main(rt: HostRuntime) -> anyhow::Result<()> {
    let alloc = rt.alloc();
    let text = io::read_to_string(alloc, rt.reader())?;
    for case in text.split("== ").skip(1) {
        let answer = case::answer(alloc, case)?;
        print!(rt; "== {answer}")?;
    }
    Ok(())
}
