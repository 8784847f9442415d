use anyhow::bail;
use replay_set::{Judgement, ReplaySet};
use std::alloc::Global;

/// What the window says of each number, in turn.
pub fn answer(alloc: Global, words: &str) -> anyhow::Result<String> {
    let mut words = words.split(' ');
    let (Some(size), Some(base)) = (words.next(), words.next()) else {
        bail!("a window has a size and a base");
    };
    let Some(mut set) = ReplaySet::new(size.parse()?, base.parse()?) else {
        bail!("no window has this size");
    };
    let mut text = format!(in alloc; "window {size} {base}")?;
    for word in words {
        let next = heard(alloc, &mut set, word)?;
        text.push_str(next.as_str())?;
    }
    Ok(text)
}

/// What the window says of one number. A fresh one is noted.
fn heard(alloc: Global, set: &mut ReplaySet, word: &str) -> anyhow::Result<String> {
    let Some(number) = set.meant(word.parse()?) else {
        return Ok(format!(in alloc; " {word}:none")?);
    };
    let judgement = set.judge(number);
    let name = match judgement {
        Judgement::Stale => "stale",
        Judgement::Seen => "seen",
        Judgement::Fresh => "fresh",
    };
    if judgement == Judgement::Fresh {
        set.note(number);
    }
    Ok(format!(in alloc; " {word}:{number}:{name}")?)
}
