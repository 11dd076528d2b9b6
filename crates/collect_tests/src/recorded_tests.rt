//! A run that is recorded, and replayed by what was recorded.

use crate::trial::{answers, answers_with, files_of};
use std::alloc::Global;
use test_modules::READING;

/// One reply, told as loosely as the grammar of replies admits.
const REPLIES: &str = "# a comment\n\ni32:9  16=0A0b0304\r\n";

const TRAPPED: &str = "trap 1 unreachable\nat function 1 offset 5\nhost calls 1\n";

const MOVED: &str =
    "step 2 of 3\noperand 0 i32:9\n00000010: 0a 0b 03 04\nstep 3 of 3 trap 1 unreachable\n";

const RECORD: [&str; 2] = ["run m f --replies r", "--record log"];

const MOVES: &str = "goto 2;operands;x 16 4;goto 9";

fn is_recorded(alloc: Global) -> bool {
    match files_of(alloc, &READING, REPLIES.as_bytes()) {
        Ok(mut files) => {
            answers(alloc, RECORD, &mut files, (1, TRAPPED))
                && files.get("log") == Some(b"i32:9 16=0a0b0304\n".as_slice())
                && answers_with(alloc, "replay m log f --do", MOVES, &mut files, (0, MOVED))
        }
        Err(_) => false,
    }
}

#[test]
fn a_recorded_run_is_replayed(rt: HostRuntime) {
    assert!(rt; is_recorded(rt.alloc()));
}
