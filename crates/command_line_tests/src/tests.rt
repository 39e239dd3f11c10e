//! The words of the command line: which name a command, and which name none.
use crate::rows::ROWS;
use command_line::{Command, Damages, SlipWord, TapWords, read_command};
use std::alloc::Global;
use std::test::*;

/// The words as the program gets them.
fn words_of(alloc: Global, words: &[&str]) -> Result<Vec<String>, Fail> {
    let mut list = Vec::new(alloc);
    for word in words {
        let text = String::from_str(alloc, word)?;
        list.push(text)?;
    }
    Ok(list)
}

/// The command as a row of the table names it.
fn named(alloc: Global, command: &Option<Command>) -> Result<String, Fail> {
    let text = match command {
        Some(Command::MakeLink(tap)) => made(alloc, "link", tap)?,
        Some(Command::MakeContent(tap)) => made(alloc, "content", tap)?,
        Some(Command::MakeDvi(tap)) => made(alloc, "dvi", tap)?,
        Some(Command::RecoverLink) => String::from_str(alloc, "recover link")?,
        Some(Command::RecoverContent) => String::from_str(alloc, "recover content")?,
        Some(Command::RecoverTrack) => String::from_str(alloc, "recover track")?,
        Some(Command::RecoverRelock) => String::from_str(alloc, "recover relock")?,
        Some(Command::RecoverContentRelock) => String::from_str(alloc, "recover content relock")?,
        Some(Command::RecoverBiphase(pair)) => format!(in alloc; "recover biphase {pair}")?,
        Some(Command::RecoverDvi) => String::from_str(alloc, "recover dvi")?,
        Some(Command::Check) => String::from_str(alloc, "check")?,
        Some(Command::Damage(damages)) => damaged(alloc, damages)?,
        Some(Command::Slip(slip)) => slipped(alloc, slip)?,
        Some(Command::ReadBiphase) => String::from_str(alloc, "read biphase")?,
        Some(Command::Relay) => String::from_str(alloc, "relay")?,
        Some(Command::Sample(frames)) => format!(in alloc; "sample {frames}")?,
        None => String::from_str(alloc, "none")?,
    };
    Ok(text)
}

fn made(alloc: Global, kind: &str, tap: &TapWords) -> Result<String, Fail> {
    let version = tap.version;
    let offset = tap.offset;
    let [a, b, c] = tap.skews;
    let text = match tap.bits {
        Some(bits) => format!(in alloc; "make {kind} {version} {offset} {a},{b},{c} {bits}")?,
        None => format!(in alloc; "make {kind} {version} {offset} {a},{b},{c} all")?,
    };
    Ok(text)
}

fn damaged(alloc: Global, damages: &Damages) -> Result<String, Fail> {
    let mut text = String::from_str(alloc, "damage")?;
    for damage in damages.as_slice() {
        let lane = damage.lane;
        let place = damage.place;
        let value = damage.value.value();
        let more = format!(in alloc; " {lane}:{place}:{value}")?;
        text.push_str(more.as_str())?;
    }
    Ok(text)
}

fn slipped(alloc: Global, slip: &SlipWord) -> Result<String, Fail> {
    let lane = slip.lane;
    let place = slip.place;
    let bits = slip.bits;
    let text = format!(in alloc; "slip {lane}:{place}:{bits}")?;
    Ok(text)
}

#[test]
fn commands(rt: HostRuntime) -> Result<(), Fail> {
    let alloc = rt.alloc();
    for row in ROWS.lines().filter(|row| !row.is_empty()) {
        let mut parts = row.split('|');
        let wanted = parts.next().ok_or("a row of no command")?;
        let list: Vec<&str> = parts.collect(alloc)?;
        let words = words_of(alloc, &list)?;
        let command = read_command(alloc, words.as_slice()).ok().ok_or("memory")?;
        let name = named(alloc, &command)?;
        assert!(rt; name.as_str() == wanted, "{name} of {row}");
    }
    Ok(())
}

#[test]
fn long_words(rt: HostRuntime) -> Result<(), Fail> {
    let alloc = rt.alloc();
    let mut digits = String::new(alloc);
    for _ in 0..70_000 {
        digits.push('7')?;
    }
    let long = digits.as_str();
    let lists: [&[&str]; 6] = [
        &[long],
        &["make", long],
        &["make", "link", "--offset", long],
        &["make", "link", long, "7"],
        &["damage", long],
        &["sample", "--", long],
    ];
    for list in lists {
        let words = words_of(alloc, list)?;
        let command = read_command(alloc, words.as_slice()).ok().ok_or("memory")?;
        assert!(rt; command.is_none());
    }
    Ok(())
}

#[test]
fn line_feeds(rt: HostRuntime) -> Result<(), Fail> {
    let alloc = rt.alloc();
    let words = words_of(alloc, &["check", "\n"])?;
    let command = read_command(alloc, words.as_slice()).ok().ok_or("memory")?;
    assert!(rt; command.is_none());
    let words = words_of(alloc, &["make", "link", "--offset", "5\n"])?;
    let command = read_command(alloc, words.as_slice()).ok().ok_or("memory")?;
    assert!(rt; command.is_none());
    Ok(())
}
