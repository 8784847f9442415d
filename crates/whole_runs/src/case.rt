//! A case and its answer.

use crate::run::{Failing, Outcome, Task, perform};
use anyhow::bail;
use ha_base::PIECE_OCTETS;
use replay_world::top::Status;
use std::alloc::Global;
use std::str;

/// The answer of a case, whose first line says what is done with the rest.
pub fn answer(alloc: Global, case: &str) -> anyhow::Result<String> {
    match case.split_once('\n') {
        Some(("pieces", input)) => in_pieces(alloc, Task::Play, "pieces", input),
        Some(("echoes", input)) => in_pieces(alloc, Task::PlayEchoes, "echoes", input),
        Some(("shows", input)) => in_pieces(alloc, Task::Show, "shows", input),
        Some(("faults", input)) => with_faults(alloc, Task::Play, "faults", input),
        Some(("show-faults", input)) => with_faults(alloc, Task::Show, "show-faults", input),
        _ => bail!("a case is pieces, echoes, shows, faults or show-faults"),
    }
}

fn is_same(one: &Outcome, other: &Outcome) -> bool {
    one.status == other.status && one.written() == other.written() && one.said() == other.said()
}

fn in_pieces(alloc: Global, task: Task, kind: &str, input: &str) -> anyhow::Result<String> {
    let whole = perform(alloc, task, input, PIECE_OCTETS, Failing::Nothing)?;
    let cut = perform(alloc, task, input, 7, Failing::Nothing)?;
    let single = perform(alloc, task, input, 1, Failing::Nothing)?;
    if !is_same(&whole, &cut) || !is_same(&whole, &single) {
        bail!("the outcome depends on the pieces");
    }
    let written = str::from_utf8(whole.written())?;
    let said = str::from_utf8(whole.said())?;
    Ok(format!(in alloc;
        "{kind}\n{written}status {}\n{said}",
        whole.status.exit_code()
    )?)
}

// What stands on the error output where no write on it fails.
fn words_of<'a>(status: Status, whole: &'a Outcome) -> &'a [u8] {
    match status {
        Status::ReadFault => b"ha: read fault\n",
        Status::WriteFault => b"ha: write fault\n",
        _ => whole.said(),
    }
}

// Where a write on the error output fails, a front of its line stands there.
fn is_said(outcome: &Outcome, whole: &Outcome, failing: Failing) -> bool {
    match failing {
        Failing::Diagnosis(_) => whole.said().starts_with(outcome.said()),
        _ => outcome.said() == words_of(outcome.status, whole),
    }
}

// What a call of the program writes before a call of a stream fails is a front of what it writes
// else.
fn code_with(
    alloc: Global,
    task: Task,
    input: &str,
    whole: &Outcome,
    failing: Failing,
) -> anyhow::Result<u8> {
    let outcome = perform(alloc, task, input, 7, failing)?;
    if !whole.written().starts_with(outcome.written()) {
        bail!("what was written is no front of the output");
    }
    if !is_said(&outcome, whole, failing) {
        bail!("another line stands on the error output");
    }
    Ok(outcome.status.exit_code())
}

fn with_faults(alloc: Global, task: Task, kind: &str, input: &str) -> anyhow::Result<String> {
    let whole = perform(alloc, task, input, 7, Failing::Nothing)?;
    let mut answer = format!(in alloc; "{kind}\n")?;
    for call in 0..10 {
        let read = code_with(alloc, task, input, &whole, Failing::Read(call))?;
        let write = code_with(alloc, task, input, &whole, Failing::Write(call))?;
        let diagnosis = code_with(alloc, task, input, &whole, Failing::Diagnosis(call))?;
        let line = format!(in alloc;
            "call {call}: read {read}, write {write}, diagnosis {diagnosis}\n"
        )?;
        answer.push_str(&line)?;
    }
    Ok(answer)
}
