//! Lists of words, and what they are read as.

use commands::WordsFault;
use pm_cli::{Command, parse_words};
use std::alloc::{AllocError, Global};

/// The words of a line, which stand between single spaces. An empty line has none.
pub fn words_of(alloc: Global, line: &str) -> Result<Vec<String>, AllocError> {
    let mut words = Vec::new(alloc);
    if line.is_empty() {
        return Ok(words);
    }
    for word in line.split(' ') {
        words.push(String::from_str(alloc, word)?)?;
    }
    Ok(words)
}

/// What a line is read as: the command, or `usage`; for some commands also the files that it names,
/// or its number.
#[derive(Drop)]
pub struct Wanted<'a> {
    pub name: &'a str,
    pub files: Option<(&'a str, &'a str)>,
    pub count: Option<u32>,
}

fn name_of(read: &Result<Command, WordsFault>) -> &'static str {
    match read {
        Ok(Command::Check { .. }) => "check",
        Ok(Command::Run(_)) => "run",
        Ok(Command::Instrument { .. }) => "instrument",
        Ok(Command::Show { .. }) => "show",
        Ok(Command::Debug(_)) => "debug",
        Ok(Command::Selftest { .. }) => "selftest",
        Ok(Command::Replay(_)) => "replay",
        Ok(Command::Cover(_)) => "cover",
        Err(WordsFault::Usage) => "usage",
        Err(WordsFault::NoMemory) => "no memory",
    }
}

/// Whether a command names these files.
fn names(read: &Result<Command, WordsFault>, first: &str, second: &str) -> bool {
    match read {
        Ok(Command::Check { module }) => module.as_str() == first,
        Ok(Command::Show { dump }) => dump.as_str() == first,
        Ok(Command::Instrument { module, out }) => {
            module.as_str() == first && out.as_str() == second
        }
        _ => false,
    }
}

fn counts(read: &Result<Command, WordsFault>, wanted: u32) -> bool {
    match read {
        Ok(Command::Selftest { count }) => *count == wanted,
        _ => false,
    }
}

fn suits(read: &Result<Command, WordsFault>, wanted: &Wanted<'_>) -> bool {
    if let Some((first, second)) = wanted.files {
        return names(read, first, second);
    }
    match wanted.count {
        Some(count) => counts(read, count),
        None => name_of(read) == wanted.name,
    }
}

/// Whether a line is read so.
pub fn is_read(alloc: Global, line: &str, wanted: &Wanted<'_>) -> bool {
    match words_of(alloc, line) {
        Ok(words) => suits(&parse_words(alloc, words.as_slice()), wanted),
        Err(_) => false,
    }
}
