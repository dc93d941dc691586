//! Tables of scripts and lines, with how many lines are read, or which can't be.
use crate::answer::Answer;
use crate::tables::{Call, tried, tried_often};
use std::alloc::Global;

const LINES: &[(&str, &str)] = &[
    ("", "0"),
    ("\n \t\r\n# fly\n  # \u{e9}", "0"),
    ("\t join \t ann \r\r\n#\n\nsync\r\nshow ann", "3"),
    ("join a234567890_b2345\nsync\nsync\n", "3"),
    ("sync\nshow ann\njoin ann\njoin ann\n", "4"),
    ("join ann\njoin bob\nsend bob 1\nsettle\ncells\nbook", "6"),
    ("join\n", "bad 1"),
    ("join ann bob\n", "bad 1"),
    ("join Ann\n", "bad 1"),
    ("join 1ann\n", "bad 1"),
    ("join a234567890_b23456\n", "bad 1"),
    ("join ann\nleave ann\nleave bob\n", "3"),
    ("rawjoin ann\nrawjoin bob", "2"),
    ("leave ann bob\n", "bad 1"),
    ("leave\n", "bad 1"),
    ("rawjoin Ann\n", "bad 1"),
    ("rawjoin ann 1\n", "bad 1"),
    ("raw join ann\n", "bad 1"),
    ("quiet\n", "bad 1"),
    ("poke ann 1 2\n", "bad 1"),
    ("book ann\n", "bad 1"),
    ("start main\n", "bad 1"),
    ("finish\n", "bad 1"),
    ("join ann\n\n#x\nshow Ann\n", "bad 4"),
    ("join ann\nshow\n", "bad 2"),
    ("join ann\nsync ann\n", "bad 2"),
    ("join ann\nsync\r ", "bad 2"),
];

/// Lines of each kind.
pub fn lines_are_read(alloc: Global) -> Answer {
    tried(alloc, Call::Script, LINES)
}

const COUNTS: &[(&str, &str)] = &[
    ("send ann 0", "1"),
    ("send ann\tall", "1"),
    ("recv ann 18446744073709551615", "1"),
    ("recv ann all", "1"),
    ("pending ann 00000000000000000007", "1"),
    ("send ann", "bad 1"),
    ("send all", "bad 1"),
    ("send ann 18446744073709551616", "bad 1"),
    ("send ann 1 2", "bad 1"),
    ("recv ann ALL", "bad 1"),
    ("recv ann all 1", "bad 1"),
    ("recv Ann all", "bad 1"),
    ("pending ann all", "bad 1"),
    ("pending ann", "bad 1"),
];

/// Counts and cells.
pub fn counts_are_read(alloc: Global) -> Answer {
    tried(alloc, Call::Script, COUNTS)
}

const OPERATIONS: &[(&str, &str)] = &[
    ("set_name \"Q\"", "2"),
    ("set_name\t \"a \\\"b\\u00e9\" ", "2"),
    ("set_name \"\"", "2"),
    ("insert_section 0 \"Q\"", "2"),
    ("set_section_name 18446744073709551615 \"Q\"", "2"),
    ("delete_section 3", "2"),
    ("move_section 3 0", "2"),
    ("set_parent 3 1", "2"),
    ("set_parent 3 none", "2"),
    ("insert_cell 1 0 code", "2"),
    ("insert_cell 1 0 markdown", "2"),
    ("delete_cell 4", "2"),
    ("restore_cell 4 1 0", "2"),
    ("move_cell 4 1 0", "2"),
    ("queue 1", "2"),
    ("cancel\t1", "2"),
    ("", "bad 1"),
    ("quiet 1", "bad 1"),
    ("set_name", "bad 1"),
    ("set_name Q", "bad 1"),
    ("set_name \"Q\" 1", "bad 1"),
    ("set_name \"Q", "bad 1"),
    ("set_name 1", "bad 1"),
    ("set_name [\"Q\"]", "bad 1"),
    ("set_name null", "bad 1"),
    ("set_name \"\\ud800\"", "bad 1"),
    ("insert_section \"Q\"", "bad 1"),
    ("insert_section 1", "bad 1"),
    ("insert_section -1 \"Q\"", "bad 1"),
    ("set_section_name \"Q\" 1", "bad 1"),
    ("delete_section", "bad 1"),
    ("delete_section 3 1", "bad 1"),
    ("delete_section none", "bad 1"),
    ("move_section 3", "bad 1"),
    ("move_section 3 1 2", "bad 1"),
    ("set_parent 3", "bad 1"),
    ("set_parent none 3", "bad 1"),
    ("set_parent 3 None", "bad 1"),
    ("set_parent 3 none 1", "bad 1"),
    ("insert_cell 1 code", "bad 1"),
    ("insert_cell 1 0 setup", "bad 1"),
    ("insert_cell 1 0 Code", "bad 1"),
    ("insert_cell 1 0 code x", "bad 1"),
    ("insert_cell 1 0", "bad 1"),
    ("delete_cell one", "bad 1"),
    ("restore_cell 4 1", "bad 1"),
    ("restore_cell 4 1 0 0", "bad 1"),
    ("restore_cell 4 none 0", "bad 1"),
    ("move_cell 4", "bad 1"),
    ("queue", "bad 1"),
    ("queue 1 2", "bad 1"),
    ("Queue 1", "bad 1"),
    ("cancel all", "bad 1"),
    ("join", "bad 1"),
    ("leave", "bad 1"),
];

/// Operations, each posted and raw.
pub fn operations_are_read(alloc: Global) -> Answer {
    tried(alloc, Call::Operation, OPERATIONS)
}

const REPORTS: &[(&str, &str)] = &[
    ("post ann report 1", "1"),
    ("raw ann report 1 2", "1"),
    ("raw ann delta 1 0 [1,\"X\"]", "1"),
    ("raw ann delta 1 0 [ ]", "1"),
    ("post ann report 1 2", "bad 1"),
    ("post ann report", "bad 1"),
    ("post ann delta 1 0 [1,\"X\"]", "bad 1"),
    ("raw ann report 1", "bad 1"),
    ("raw ann report 1 2 3", "bad 1"),
    ("raw ann delta 1 [1,\"X\"]", "bad 1"),
    ("raw ann delta 1 0", "bad 1"),
    ("raw ann delta 1 0 [1]", "bad 1"),
    ("raw ann 1 delta 0 []", "bad 1"),
    ("raw ann", "bad 1"),
    ("raw Ann queue 1", "bad 1"),
    ("post queue 1", "bad 1"),
];

/// Reports and deltas, which may be raw.
pub fn reports_are_read(alloc: Global) -> Answer {
    tried(alloc, Call::Script, REPORTS)
}

const EDITS: &[(&str, &str)] = &[
    ("edit ann 1 [1,\"X\"]", "2"),
    (
        "edit ann 18446744073709551615 [ \"\u{e9}\\u0041\" ,\t-1 ]",
        "2",
    ),
    ("edit ann 00000000000000000007 []", "2"),
    ("edit ann 1 [-4611686018427387904]", "2"),
    ("edit ann 1 [\"a\"]\nsync\nedit ann 2 [\"b\"]", "4"),
    ("edit ann 1 [\"a\"]\nedit bob 2 [\"b\"]", "3"),
    ("edit ann 000000000000000000007 []", "bad 2"),
    ("edit ann 18446744073709551616 []", "bad 2"),
    ("edit ann +1 []", "bad 2"),
    ("edit ann []", "bad 2"),
    ("edit Bob 1 []", "bad 2"),
    ("edit ann 1", "bad 2"),
    ("edit ann 1 [1", "bad 2"),
    ("edit ann 1 [] []", "bad 2"),
    ("edit ann 1 \"a\"", "bad 2"),
    ("edit ann 1 [1.0,\"a\"]", "bad 2"),
    ("edit ann 1 [1e0,\"a\"]", "bad 2"),
    ("edit ann 1 [-0,\"a\"]", "bad 2"),
    ("edit ann 1 [0,\"a\"]", "bad 2"),
    ("edit ann 1 [[\"a\"]]", "bad 2"),
    ("edit ann 1 [\"\\ud800\"]", "bad 2"),
    ("edit ann 1 [3]", "bad 2"),
    ("edit ann 1 [-1,\"a\"]", "bad 2"),
    ("edit ann 1 [-4611686018427387905]", "bad 2"),
];

/// Edits.
pub fn edits_are_read(alloc: Global) -> Answer {
    tried(alloc, Call::Edits, EDITS)
}

const OPERANDS: &[(&str, &str)] = &[
    ("leave ann", "leave 0;"),
    ("rawjoin ann", "rawjoin 0;"),
    ("post ann restore_cell 4 1 0", "post 0 restore_cell 4 1 0;"),
    ("post ann move_cell 4 1 0", "post 0 move_cell 4 1 0;"),
    (
        "post ann insert_cell 4 1 markdown",
        "post 0 insert_cell 4 1 markdown;",
    ),
    ("post ann move_section 4 1", "post 0 move_section 4 1;"),
    ("post ann set_parent 4 0", "post 0 set_parent 4 0;"),
    ("post ann set_parent 4 none", "post 0 set_parent 4 none;"),
    ("post ann report 4", "report 0 4;"),
    ("raw ann report 4 1", "raw 0 report 4 1;"),
    ("send ann all\nrecv bob 2\n", "send 0 all;recv 1 2;"),
    (
        "join ann\nedit ann 1 [1,\"X\"]\nsync\nshow ann\n",
        "join 0;edit 0 1 [1,\"X\"];sync;show 0;",
    ),
    (
        "post ann insert_section 2 \"Q \\u00e9\"\nraw bob delta 1 3 [1,\"X\"]\n",
        "post 0 insert_section 2 Q \u{e9};raw 1 delta 1 3 [1,\"X\"];",
    ),
];

/// What stands where in a line.
pub fn operands_stand(alloc: Global) -> Answer {
    tried(alloc, Call::ScriptLines, OPERANDS)
}

const NAMES: &[(&str, &str)] = &[(
    "show bob\njoin ann\nsync\n#carl\njoin bob\npending dan 1\nshow ann\nleave eve\nrawjoin fay\nraw gus queue 1\npost hal report 1\nraw eve cancel 1\n",
    "bob ann dan eve fay gus hal  0 1 - 0 2 1 3 4 5 6 3",
)];

/// Names in the order in which they first stand, and the clients of lines.
pub fn clients_are_numbered(alloc: Global) -> Answer {
    tried(alloc, Call::Names, NAMES)
}

const LARGE: &[(Call, &str, u64, &str)] = &[
    (Call::Script, "#", 8_388_608, "0"),
    (Call::Script, "#", 8_388_609, "TooLarge"),
];

/// A script as large as may be, and one byte more.
pub fn bytes_are_counted(alloc: Global) -> Answer {
    tried_often(alloc, LARGE)
}
