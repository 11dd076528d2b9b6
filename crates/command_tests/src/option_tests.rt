//! Plain words and options of lists of words.

use crate::reading::words_of;
use causes::NoMemory;
use commands::{Options, Reading, read_words};
use pm_text::Text;
use std::alloc::Global;
use std::test::Fail;

/// The plain words and the options, each followed by a bar.
fn spelled(alloc: Global, reading: &Reading<'_>) -> Result<Text, NoMemory> {
    let mut text = Text::new(alloc);
    for word in reading.plain() {
        text.push_str(word)?;
        text.push_str("|")?;
    }
    for (name, value) in reading.given() {
        text.push_str(name)?;
        text.push_str("|")?;
        text.push_str(value)?;
        text.push_str("|")?;
    }
    Ok(text)
}

/// A line, and its plain words and options, or nothing where it is not read.
const LINES: [(&str, Option<&str>); 14] = [
    (
        "a --fuel=1 b --collect -- -c",
        Some("a|b|-c|--fuel|1|--collect||"),
    ),
    ("--fuel 1 a", Some("a|--fuel|1|")),
    ("--fuel - -", Some("-|--fuel|-|")),
    ("--fuel= a", Some("a|--fuel||")),
    ("--fuel=a=b", Some("--fuel|a=b|")),
    ("-- --fuel", Some("--fuel|")),
    ("--fuel", None),
    ("--fuel -1", None),
    ("--fuel -- 1", None),
    ("--fuel 1 --fuel=2", None),
    ("--collect --collect", None),
    ("--collect=1", None),
    ("--depth 1", None),
    ("-fuel 1", None),
];

fn is_read(alloc: Global, line: &str, wanted: Option<&str>) -> Result<bool, Fail> {
    let options = Options::new(&["--fuel"], &["--collect"]);
    let words = words_of(alloc, line)?;
    match read_words(alloc, words.as_slice(), &options)? {
        Some(reading) => {
            let text = spelled(alloc, &reading)?;
            Ok(Some(text.as_str()) == wanted)
        }
        None => Ok(wanted.is_none()),
    }
}

#[test]
fn options_are_read(rt: HostRuntime) -> Result<(), Fail> {
    for (line, wanted) in LINES {
        assert!(rt; is_read(rt.alloc(), line, wanted)?, "{line}");
    }
    Ok(())
}
