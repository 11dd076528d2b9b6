//! Moves and words, with bounds and defaults.

use commands::WordsFault;
use replay_command::{Move, ReplayWords, read_move, replay_words};
use std::alloc::{AllocError, Global};
use wasm_syntax::Value;

const MOVES: [(&str, Move); 20] = [
    ("goto 0", Move::Goto { step: 0 }),
    ("goto 0012", Move::Goto { step: 12 }),
    (
        "goto 18446744073709551615",
        Move::Goto {
            step: 18_446_744_073_709_551_615,
        },
    ),
    ("goto 18446744073709551616", Move::Look),
    ("goto -1", Move::Look),
    ("goto", Move::Look),
    ("goto  1", Move::Look),
    ("goto 1 ", Move::Look),
    ("goto 1 2", Move::Look),
    ("back", Move::Back),
    ("back ", Move::Look),
    ("Back", Move::Look),
    (
        "until 0:5",
        Move::Until {
            function: 0,
            offset: 5,
        },
    ),
    (
        "until 4294967295:4294967295",
        Move::Until {
            function: 4_294_967_295,
            offset: 4_294_967_295,
        },
    ),
    ("until 4294967296:5", Move::Look),
    ("until 0:4294967296", Move::Look),
    ("until 0:1:2", Move::Look),
    ("until 0", Move::Look),
    ("operands", Move::Look),
    ("", Move::Look),
];

fn words_of(alloc: Global, words: &[&str]) -> Result<Vec<String>, AllocError> {
    let mut list = Vec::new(alloc);
    for word in words {
        list.push(String::from_str(alloc, word)?)?;
    }
    Ok(list)
}

fn read(alloc: Global, words: &[&str]) -> Result<ReplayWords, WordsFault> {
    match words_of(alloc, words) {
        Ok(words) => replay_words(alloc, &words),
        Err(_) => Err(WordsFault::NoMemory),
    }
}

/// Words, and what they mean.
struct Meant {
    words: &'static [&'static str],
    source: &'static str,
    log: &'static str,
    entry: &'static str,
    args: &'static [Value],
    fuel: u64,
    depth: u32,
    every: u64,
    commands: &'static str,
}

/// Options have defaults, and stand anywhere.
const MEANT: [Meant; 2] = [
    Meant {
        words: &["d.wasm", "log", "div", "i32:7", "i64:0"],
        source: "d.wasm",
        log: "log",
        entry: "div",
        args: &[Value::I32(7), Value::I64(0)],
        fuel: 100_000_000,
        depth: 1_000,
        every: 1_000,
        commands: "goto 0",
    },
    Meant {
        words: &[
            "--do",
            "goto 2;operands",
            "m",
            "--every=1000000",
            "+",
            "--fuel",
            "0",
            "+",
            "--depth=10000",
        ],
        source: "m",
        log: "+",
        entry: "+",
        args: &[],
        fuel: 0,
        depth: 10_000,
        every: 1_000_000,
        commands: "goto 2;operands",
    },
];

fn means(words: &ReplayWords, meant: &Meant) -> bool {
    words.source.as_str() == meant.source
        && words.log.as_str() == meant.log
        && words.entry.as_str() == meant.entry
        && words.args.as_slice() == meant.args
        && words.fuel == meant.fuel
        && words.depth == meant.depth
        && words.every == meant.every
        && words.commands.as_str() == meant.commands
}

fn is_meant(alloc: Global, meant: &Meant) -> bool {
    match read(alloc, meant.words) {
        Ok(words) => means(&words, meant),
        Err(_) => false,
    }
}

const REFUSED: [&[&str]; 9] = [
    &[],
    &["m", "log"],
    &["m", "log", "f", "+", "f"],
    &["m", "log", "f", "--every=0"],
    &["m", "log", "f", "--every=1000001"],
    &["m", "log", "f", "--depth=0"],
    &["m", "log", "f", "--fuel=1000000000001"],
    &["m", "log", "f", "--do=bt", "--do=bt"],
    &["m", "log", "f", "--collect"],
];

fn is_refused(alloc: Global, words: &[&str]) -> bool {
    matches!(read(alloc, words), Err(WordsFault::Usage))
}

/// The number of the first move that is read otherwise.
fn first_wrong_move() -> Option<usize> {
    for (i, row) in MOVES.iter().enumerate() {
        if read_move(row.0) != row.1 {
            return Some(i);
        }
    }
    None
}

/// The number of the first words that are not refused.
fn first_accepted(alloc: Global) -> Option<usize> {
    for (i, words) in REFUSED.iter().enumerate() {
        if !is_refused(alloc, words) {
            return Some(i);
        }
    }
    None
}

#[test]
fn moves_and_words_are_read_or_refused(rt: HostRuntime) {
    assert_eq!(rt; first_wrong_move(), None);
    assert!(rt; is_meant(rt.alloc(), &MEANT[0]) && is_meant(rt.alloc(), &MEANT[1]));
    assert_eq!(rt; first_accepted(rt.alloc()), None);
}
