//! `put`: its line, what it leaves of a file, and failures in mid-stream.
use super::{Case, EMPTY, END, Given, HEADER, NINE, NO_ARCHIVE, NOTHING, Wanted, expect_cases};
use std::test::Fail;

// NINE without the last byte of its payload.
const TORN: &[u8] =
    b"0000000000000000000000010000000000000002\x09\0\0\0\x01\0\0\0\x26\x39\xf4\xcb\x09\0\0\012345678";

const PUTS: &[Case] = &[
    (
        Given {
            words: "put a.foz 1 0000000000000002",
            input: b"123456789",
            ..NOTHING
        },
        Wanted {
            status: 0,
            output: b"new 0\n",
            errors: "",
            file: Some(&[HEADER, NINE, END]),
        },
    ),
    (
        Given {
            words: "put a.foz 1 0000000000000002",
            file: Some(&[HEADER, NINE, END]),
            input: b"123456789",
            ..NOTHING
        },
        Wanted {
            status: 0,
            output: b"known 0\n",
            errors: "",
            file: Some(&[HEADER, NINE, END]),
        },
    ),
    (
        Given {
            words: "put a.foz 1 0000000000000002",
            file: Some(&[HEADER, NINE, END]),
            input: b"12345678",
            ..NOTHING
        },
        Wanted {
            status: 1,
            output: b"collision 0\n",
            errors: "",
            file: Some(&[HEADER, NINE, END]),
        },
    ),
    (
        Given {
            words: "put a.foz 1 0000000000000001",
            file: Some(&[HEADER, NINE, END]),
            ..NOTHING
        },
        Wanted {
            status: 0,
            output: b"new 1\n",
            errors: "",
            file: Some(&[HEADER, NINE, EMPTY, END]),
        },
    ),
];

#[test]
fn puts_one_entry(rt: HostRuntime) -> Result<(), Fail> {
    expect_cases(&rt, rt.alloc(), PUTS)
}

const CUTS: &[Case] = &[(
    Given {
        words: "put a.foz 1 0000000000000001",
        file: Some(&[HEADER, TORN]),
        ..NOTHING
    },
    Wanted {
        status: 0,
        output: b"new 0\n",
        errors: "",
        file: Some(&[HEADER, EMPTY, END]),
    },
)];

#[test]
fn a_put_cuts_a_torn_tail(rt: HostRuntime) -> Result<(), Fail> {
    expect_cases(&rt, rt.alloc(), CUTS)
}

// A file whose opening fails stays. What was recorded is kept, though it could not be said.
const FAULTS: &[Case] = &[
    (
        Given {
            words: "put a.foz 1 0000000000000002",
            file: Some(&[HEADER]),
            input: b"123456789",
            disk_failing: &[
                0, 1, 2, 3, 4, 5, 6, 7, 8, 9, 10, 11, 12, 13, 14, 15, 16, 17, 18, 19,
            ],
            ..NOTHING
        },
        Wanted {
            status: 5,
            output: b"",
            errors: "foz: disk fault\n",
            file: Some(&[HEADER]),
        },
    ),
    (
        Given {
            words: "put a.foz 1 0000000000000002",
            file: Some(&[HEADER]),
            input: b"123456789",
            shelf_failing: &[0],
            ..NOTHING
        },
        Wanted {
            status: 5,
            output: b"",
            errors: "foz: disk fault\n",
            file: Some(&[HEADER]),
        },
    ),
    (
        Given {
            words: "put a.foz 1 0000000000000002",
            input: b"123456789",
            shelf_failing: &[0],
            ..NOTHING
        },
        Wanted {
            status: 5,
            output: b"",
            errors: "foz: disk fault\n",
            file: None,
        },
    ),
    (
        Given {
            words: "put a.foz 1 0000000000000002",
            file: Some(&[HEADER]),
            input_failing: &[0],
            ..NOTHING
        },
        Wanted {
            status: 3,
            output: b"",
            errors: "foz: read fault\n",
            file: Some(&[HEADER]),
        },
    ),
    (
        Given {
            words: "put a.foz 1 0000000000000002",
            file: Some(&[HEADER]),
            input: b"123456789",
            output_failing: &[0],
            ..NOTHING
        },
        Wanted {
            status: 4,
            output: b"",
            errors: "foz: write fault\n",
            file: Some(&[HEADER, NINE, END]),
        },
    ),
];

#[test]
fn a_put_tells_a_fault(rt: HostRuntime) -> Result<(), Fail> {
    expect_cases(&rt, rt.alloc(), FAULTS)
}

const REFUSED: &[Case] = &[(
    Given {
        words: "put a.foz 1 0000000000000002",
        file: Some(&[NO_ARCHIVE]),
        ..NOTHING
    },
    Wanted {
        status: 6,
        output: b"",
        errors: "foz: bad magic ffffffffffffffffffffffffffffffff\n",
        file: Some(&[NO_ARCHIVE]),
    },
)];

#[test]
fn a_put_refuses_what_is_no_archive(rt: HostRuntime) -> Result<(), Fail> {
    expect_cases(&rt, rt.alloc(), REFUSED)
}
