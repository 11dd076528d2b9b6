//! The words behind `debug`.

use commands::WordsFault;
use debug_command::{DebugWords, debug_words};
use pm_text::Text;
use std::alloc::{AllocError, Global};

fn words_of(alloc: Global, line: &str) -> Result<Vec<String>, AllocError> {
    let mut words = Vec::new(alloc);
    if line.is_empty() {
        return Ok(words);
    }
    for word in line.split(' ') {
        words.push(String::from_str(alloc, word)?)?;
    }
    Ok(words)
}

/// Words, and what they ask for, where they are within the rules: the module, the dump and the
/// commands.
type Row<'a> = (&'a str, Option<&'a [&'a str]>);

const ROWS: [Row<'static>; 15] = [
    ("m d", Some(&["m", "d"])),
    ("m d bt bt vars", Some(&["m", "d", "bt", "bt", "vars"])),
    ("m m m", Some(&["m", "m", "m"])),
    ("m d x 0 1", Some(&["m", "d", "x", "0", "1"])),
    ("m d -", Some(&["m", "d", "-"])),
    ("m d ", Some(&["m", "d", ""])),
    ("-- -m d bt", Some(&["-m", "d", "bt"])),
    ("m -- d", Some(&["m", "d"])),
    ("m d -- --help --", Some(&["m", "d", "--help", "--"])),
    ("", None),
    ("m", None),
    ("m --", None),
    ("m d -b", None),
    ("m d --fuel=1", None),
    ("m d bt --help", None),
];

fn are_texts(texts: &[Text], wanted: &[&str]) -> bool {
    if texts.len() != wanted.len() {
        return false;
    }
    for (text, word) in texts.iter().zip(wanted) {
        if text.as_str() != *word {
            return false;
        }
    }
    true
}

fn asks_for(words: &DebugWords, wanted: &[&str]) -> bool {
    match wanted {
        [source, dump, commands @ ..] => {
            words.source.as_str() == *source
                && words.dump.as_str() == *dump
                && are_texts(words.commands.as_slice(), commands)
        }
        _ => false,
    }
}

fn is_wanted(read: &Result<DebugWords, WordsFault>, wanted: Option<&[&str]>) -> bool {
    match (read, wanted) {
        (Ok(words), Some(wanted)) => asks_for(words, wanted),
        (Err(WordsFault::Usage), None) => true,
        _ => false,
    }
}

fn is_read(alloc: Global, row: &Row<'_>) -> bool {
    match words_of(alloc, row.0) {
        Ok(words) => is_wanted(&debug_words(alloc, words.as_slice()), row.1),
        Err(_) => false,
    }
}

#[test]
fn words_behind_debug(rt: HostRuntime) {
    for row in &ROWS {
        assert!(rt; is_read(rt.alloc(), row), "{}", row.0);
    }
}
