//! Fronts of files, and files of which a byte is replaced. Which of them are whole was worked out
//! by the grammar of modules (Core 5.5) and that of dumps; wabt's `wasm-validate` accepts the same
//! modules.

use crate::trial::{answers, files_of, status_alone, words_of};
use pm_outside::{MemFiles, MemSink};
use std::alloc::{AllocError, Global};
use test_modules::{DIVISION, DIVISION_DUMP, SOURCE};

/// The status of words over a file `m` of these bytes.
fn status_of(alloc: Global, words: &[String], bytes: &[u8]) -> Option<u8> {
    let mut files = MemFiles::new(alloc, Vec::new(alloc));
    if files.add("m", bytes).is_err() {
        return None;
    }
    let mut out = MemSink::new(alloc, Vec::new(alloc));
    Some(status_alone(alloc, words, &mut files, &mut out))
}

/// The length of the first front, the empty one and the whole among them, that does not get status
/// 0 where its length is one of these, and else the other status.
fn first_wrong_front(
    alloc: Global,
    words: &[String],
    bytes: &[u8],
    lengths: &[usize],
    refused: u8,
) -> Option<usize> {
    for length in 0..bytes.len() + 1 {
        let wanted = if lengths.contains(&length) {
            0
        } else {
            refused
        };
        if status_of(alloc, words, &bytes[..length]) != Some(wanted) {
            return Some(length);
        }
    }
    None
}

/// A line, a file, the lengths of the fronts of it that get status 0, and the status of the others.
const FRONTS: [(&str, &[u8], &[usize], u8); 2] = [
    // There the header, the types, the code and each custom section end. Between the types and the
    // code the bodies of a declared function are missing.
    ("check;m", &SOURCE, &[8, 16, 92, 211, 355, 424], 5),
    // There the sections end, of which only the first one, `core`, has to be there.
    ("show;m", &DIVISION_DUMP, &[23, 46, 67, 100], 11),
];

/// The first length that is judged otherwise, or 0 where memory is wanting.
fn first_wrong(alloc: Global, row: &(&str, &[u8], &[usize], u8)) -> Option<usize> {
    match words_of(alloc, row.0) {
        Ok(words) => first_wrong_front(alloc, &words, row.1, row.2, row.3),
        Err(_) => Some(0),
    }
}

#[test]
fn fronts_are_judged(rt: HostRuntime) {
    for row in &FRONTS {
        assert_eq!(rt; first_wrong(rt.alloc(), row), None);
    }
}

/// The bytes with another one at a place.
fn replaced(alloc: Global, bytes: &[u8], at: usize, byte: u8) -> Result<Vec<u8>, AllocError> {
    let mut copy = Vec::from_slice(alloc, bytes)?;
    if let Some(place) = copy.get_mut(at) {
        *place = byte;
    }
    Ok(copy)
}

/// How many of the 256 bytes make a valid module where they stand at a place of [`DIVISION`];
/// nothing where one gets a status that `check` can't answer of a file that is there: other than
/// valid, malformed, with a float or an import that is no function, invalid, and past a limit.
fn valid_at(alloc: Global, words: &[String], at: usize) -> Option<u32> {
    let mut valid = 0u32;
    for byte in 0..256u32 {
        let copy = replaced(alloc, &DIVISION, at, (byte % 0x100) as u8).ok()?;
        match status_of(alloc, words, &copy)? {
            0 => valid = valid.saturating_add(1),
            5 | 6 | 7 | 13 => {}
            _ => return None,
        }
    }
    Some(valid)
}

/// The sum over all places.
fn valid_in_all(alloc: Global, words: &[String]) -> Option<u32> {
    let mut valid = 0u32;
    for at in 0..DIVISION.len() {
        valid = valid.saturating_add(valid_at(alloc, words, at)?);
    }
    Some(valid)
}

fn count_valid(alloc: Global) -> Option<u32> {
    match words_of(alloc, "check;m") {
        Ok(words) => valid_in_all(alloc, &words),
        Err(_) => None,
    }
}

// Of these 10,496 modules `wasm-validate` accepts as many.
#[test]
fn each_byte_of_a_module_is_replaced(rt: HostRuntime) {
    assert_eq!(rt; count_valid(rt.alloc()), Some(458));
}

/// Where the contents of the section `.debug_info` of [`SOURCE`] stand.
const INFO: (usize, usize) = (226, 355);

/// Whether words get status 0 with 0xff at a place of the module.
fn is_passed_over(alloc: Global, words: &[String], files: &mut MemFiles, at: usize) -> bool {
    let Ok(copy) = replaced(alloc, &SOURCE, at, 0xFF) else {
        return false;
    };
    let mut out = MemSink::new(alloc, Vec::new(alloc));
    files.add("m", &copy).is_ok() && status_alone(alloc, words, files, &mut out) == 0
}

/// The first place there at which 0xff is refused.
fn first_refused(alloc: Global, words: &[String], files: &mut MemFiles) -> Option<usize> {
    for at in INFO.0..INFO.1 {
        if !is_passed_over(alloc, words, files, at) {
            return Some(at);
        }
    }
    None
}

const DIED: &str = "trap 4 out of bounds memory access\nat function 0 offset 43\nhost calls 0\n";

/// The same behind a run that traps. It is 0 where the run does not, or memory is wanting.
fn first_refused_behind(alloc: Global, words: &[String]) -> Option<usize> {
    let Ok(mut files) = files_of(alloc, &SOURCE, "") else {
        return Some(0);
    };
    if !answers(alloc, "run;m;f;i32:65536", &mut files, (1, DIED)) {
        return Some(0);
    }
    first_refused(alloc, words, &mut files)
}

fn first_not_debugged(alloc: Global) -> Option<usize> {
    match words_of(alloc, "debug;m;core.wasm;bt;vars;print s.b[1];print *p") {
        Ok(words) => first_refused_behind(alloc, &words),
        Err(_) => Some(0),
    }
}

// What can't be read of debugging information is passed over, so that the commands are done
// whatever it holds.
#[test]
fn each_byte_of_debugging_information_is_replaced(rt: HostRuntime) {
    assert_eq!(rt; first_not_debugged(rt.alloc()), None);
}
