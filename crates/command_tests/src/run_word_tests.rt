//! The words of `run`, with bounds and defaults.

use crate::reading::words_of;
use commands::WordsFault;
use run_words::{RunWords, run_words};
use std::alloc::{AllocError, Global};
use std::test::Fail;
use wasm_syntax::Value;

/// The words behind `run`, between single spaces.
fn read(alloc: Global, line: &str) -> Result<RunWords, WordsFault> {
    match words_of(alloc, line) {
        Ok(words) => run_words(alloc, &words),
        Err(_) => Err(WordsFault::NoMemory),
    }
}

/// Whether the invocation of this number calls so.
fn calls(words: &RunWords, number: usize, entry: &str, args: &[Value]) -> bool {
    match words.invocations.get(number) {
        Some(called) => called.entry.as_str() == entry && called.args.as_slice() == args,
        None => false,
    }
}

fn has_defaults(words: &RunWords) -> bool {
    words.replies.is_none()
        && words.log_to.is_none()
        && words.fuel == 100_000_000
        && words.depth == 1_000
        && words.dump.as_str() == "core.wasm"
        && words.name.as_str() == "module"
        && !words.collect
}

/// Whether the words call `div` of `d.wasm`, and say nothing else.
fn divides(words: &RunWords) -> bool {
    words.source.as_str() == "d.wasm"
        && words.invocations.len() == 1
        && calls(words, 0, "div", &[Value::I32(7), Value::I32(0)])
        && has_defaults(words)
}

#[test]
fn options_have_defaults(rt: HostRuntime) {
    match read(rt.alloc(), "d.wasm div i32:7 i32:0") {
        Ok(words) => assert!(rt; divides(&words)),
        Err(_) => assert!(rt; false),
    }
}

fn replies_from(words: &RunWords, file: &str) -> bool {
    match &words.replies {
        Some(replies) => replies.as_str() == file,
        None => false,
    }
}

fn has_options(words: &RunWords) -> bool {
    words.fuel == 4
        && words.depth == 3
        && words.dump.as_str() == "a.core"
        && words.name.as_str() == ""
        && words.collect
        && replies_from(words, "r")
}

fn calls_twice(words: &RunWords) -> bool {
    words.source.as_str() == "m"
        && words.invocations.len() == 2
        && calls(words, 0, "f", &[Value::I32(3)])
        && calls(words, 1, "f", &[Value::I32(2)])
}

#[test]
fn options_stand_anywhere(rt: HostRuntime) {
    let line = "--fuel 4 m --name= f --dump=a.core i32:3 --collect --replies r + f i32:2 --depth 3";
    match read(rt.alloc(), line) {
        Ok(words) => assert!(rt; has_options(&words) && calls_twice(&words)),
        Err(_) => assert!(rt; false),
    }
}

/// The entries of the invocations, each followed by a bar.
fn entries(alloc: Global, words: &RunWords) -> Result<String, AllocError> {
    let mut text = String::new(alloc);
    for called in words.invocations.as_slice() {
        text.push_str(called.entry.as_str())?;
        text.push_str("|")?;
    }
    Ok(text)
}

/// A line, and its entries, or nothing where it is not read.
const INVOCATIONS: [(&str, Option<&str>); 13] = [
    ("m f + g", Some("f|g|")),
    ("m -- f + g", Some("f|g|")),
    ("m f -- + -g", Some("f|-g|")),
    ("m f -- + --", Some("f|--|")),
    ("+ f", Some("f|")),
    ("m f --dump + g", None),
    ("m ++ + i32:1", Some("++|i32:1|")),
    ("m", None),
    ("m +", None),
    ("m f +", None),
    ("m + f", None),
    ("m f + + g", None),
    ("m f -- + + g", None),
];

fn has_entries(alloc: Global, words: &RunWords, wanted: &str) -> bool {
    match entries(alloc, words) {
        Ok(text) => text.as_str() == wanted,
        Err(_) => false,
    }
}

fn invokes(alloc: Global, line: &str, wanted: Option<&str>) -> bool {
    match (read(alloc, line), wanted) {
        (Ok(words), Some(wanted)) => has_entries(alloc, &words, wanted),
        (Err(WordsFault::Usage), None) => true,
        _ => false,
    }
}

#[test]
fn a_plus_separates_invocations(rt: HostRuntime) {
    for (line, wanted) in INVOCATIONS {
        assert!(rt; invokes(rt.alloc(), line, wanted), "{line}");
    }
}

/// A line, and whether it is read.
const BOUNDS: [(&str, bool); 34] = [
    ("", false),
    ("-- m", false),
    ("--fuel 4 m f", true),
    ("--fuel=0 m f", true),
    ("--fuel=1000000000000 m f", true),
    ("--fuel=1000000000001 m f", false),
    ("--fuel=4x m f", false),
    ("--fuel=+4 m f", false),
    ("--fuel= m f", false),
    ("--fuel 4 --fuel 4 m f", false),
    ("--collect m f", true),
    ("--collect=1 m f", false),
    ("--collect m --collect f", false),
    ("--depth=1 m f", true),
    ("--depth=00010000 m f", true),
    ("--depth 0 m f", false),
    ("--depth 10001 m f", false),
    ("--depth 18446744073709551616 m f", false),
    ("m f --help", false),
    ("m f -1", false),
    ("m f -- -1", false),
    ("--record log m f", true),
    ("--record log --record log m f", false),
    ("--record core.wasm m f", false),
    ("--record core.wasm.0 m f", false),
    ("--record core.wasm.12 m f", false),
    ("--record core.wasm. m f", true),
    ("--record core.wasm.1x m f", true),
    ("--record core.wasm2 m f", true),
    ("--record core m f", true),
    ("--dump d --record core.wasm m f", true),
    ("--dump d m f --record=d.3", false),
    ("--dump= --record= m f", false),
    ("--dump= --record=.7 m f", false),
];

#[test]
fn options_have_bounds(rt: HostRuntime) {
    for (line, taken) in BOUNDS {
        assert_eq!(rt; read(rt.alloc(), line).is_ok(), taken, "{line}");
    }
}

/// An argument, and its value, or nothing where it is none.
const ARGUMENTS: [(&str, Option<Value>); 14] = [
    ("i32:-2147483649", None),
    ("i32:-2147483648", Some(Value::I32(0x8000_0000))),
    ("i32:4294967295", Some(Value::I32(u32::MAX))),
    ("i32:4294967296", None),
    ("i32:-0", Some(Value::I32(0))),
    ("i64:18446744073709551615", Some(Value::I64(u64::MAX))),
    ("i64:18446744073709551616", None),
    ("i64:-1", Some(Value::I64(u64::MAX))),
    ("i64:-9223372036854775809", None),
    ("i64:000000000000000000000", None),
    ("i32:", None),
    ("i32:--1", None),
    ("f32:1", None),
    ("7", None),
];

/// The words of a call of `f` of `m` with one argument.
fn call_of(alloc: Global, argument: &str) -> Result<Vec<String>, AllocError> {
    let mut words = words_of(alloc, "m f")?;
    words.push(String::from_str(alloc, argument)?)?;
    Ok(words)
}

fn passes(alloc: Global, argument: &str, wanted: Option<Value>) -> Result<bool, AllocError> {
    let words = call_of(alloc, argument)?;
    Ok(match (run_words(alloc, &words), wanted) {
        (Ok(words), Some(value)) => calls(&words, 0, "f", &[value]),
        (Err(WordsFault::Usage), None) => true,
        _ => false,
    })
}

#[test]
fn arguments_have_their_width(rt: HostRuntime) -> Result<(), Fail> {
    for (word, value) in ARGUMENTS {
        assert!(rt; passes(rt.alloc(), word, value)?, "{word}");
    }
    Ok(())
}

/// Words with a name of so many letters.
fn named(alloc: Global, count: usize) -> Result<Vec<String>, AllocError> {
    let mut words = words_of(alloc, "m f --name")?;
    let mut name = String::new(alloc);
    for _ in 0..count {
        name.push('n')?;
    }
    words.push(name)?;
    Ok(words)
}

#[test]
fn names_have_a_length(rt: HostRuntime) -> Result<(), Fail> {
    for (count, taken) in [(4_096, true), (4_097, false)] {
        let words = named(rt.alloc(), count)?;
        assert_eq!(rt; run_words(rt.alloc(), &words).is_ok(), taken);
    }
    Ok(())
}
