//! Reads the inputs of key schedules and prints each with the keys and codes that are made of it.
//!
//! A case is the lines `bits`, `old-sk-d`, `ni`, `nr`, `spii`, `spir`, `message` and `id-body`, in
//! this order, each with its value behind a space. The values but the first are hexadecimal.
//! Between two cases there is an empty line.
#![tactic(auto)]

mod case;

use case::{Case, Unread};

fn main(rt: HostRuntime) -> Result<(), Unread> {
    let mut case = Case::new(rt.alloc());
    let mut is_first = true;
    for line in rt.lines(rt.alloc()) {
        let line = line?;
        let Some((name, value)) = line.as_str().split_once(' ') else {
            continue;
        };
        case.read(rt.alloc(), name, value)?;
        if name == "id-body" {
            if !is_first {
                println!(rt; "")?;
            }
            case.print(&rt)?;
            is_first = false;
        }
    }
    Ok(())
}
