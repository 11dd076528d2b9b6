//! Texts of commands, with what each asks for.

use debugger::{Command, read_command};

const ROWS: [(&str, Command); 24] = [
    ("bt", Command::Backtrace),
    ("locals", Command::Locals),
    ("operands", Command::Operands),
    ("globals", Command::Globals),
    ("vars", Command::Variables),
    ("frame 1", Command::Frame { number: 1 }),
    ("frame 007", Command::Frame { number: 7 }),
    ("print q", Command::Print),
    ("print *p->x[1]", Command::Print),
    (
        "x 16 2",
        Command::Examine {
            address: 16,
            count: 2,
        },
    ),
    (
        "x 0 4096",
        Command::Examine {
            address: 0,
            count: 4096,
        },
    ),
    ("x 0 4097", Command::Bad),
    ("x 0 0", Command::Bad),
    ("x 0x10 2", Command::Bad),
    ("x 16  2", Command::Bad),
    ("x 16 2 ", Command::Bad),
    ("frame", Command::Bad),
    ("frame -1", Command::Bad),
    ("frame 000000000000000000001", Command::Bad),
    ("print", Command::Bad),
    ("print a b", Command::Bad),
    ("jump", Command::Bad),
    (" bt", Command::Bad),
    ("", Command::Bad),
];

fn all_read(rows: &[(&str, Command)]) -> bool {
    for row in rows {
        if read_command(row.0) != row.1 {
            return false;
        }
    }
    true
}

#[test]
fn texts_of_commands(rt: HostRuntime) {
    assert!(rt; all_read(&ROWS));
}
