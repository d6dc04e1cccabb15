//! `list`: its text on files as they lie in the world, and failures in mid-stream.
use super::{
    Case, DEFLATE, EMPTY, END, Given, HEADER, NINE, NINE_DAMAGED, NOTHING, Wanted, expect_cases,
};
use std::test::Fail;

const SOUND: &[Case] = &[
    (
        Given {
            words: "list a.foz",
            file: Some(&[HEADER]),
            ..NOTHING
        },
        Wanted {
            status: 0,
            output: b"entries 0 end 16 rest 0 clean\n",
            errors: "",
            file: Some(&[HEADER]),
        },
    ),
    (
        Given {
            words: "list a.foz",
            file: Some(&[HEADER, END]),
            ..NOTHING
        },
        Wanted {
            status: 0,
            output: b"entries 0 end 16 rest 1 clean\n",
            errors: "",
            file: Some(&[HEADER, END]),
        },
    ),
    (
        Given {
            words: "list a.foz",
            file: Some(&[HEADER, EMPTY]),
            ..NOTHING
        },
        Wanted {
            status: 0,
            output: b"16 1 0000000000000001 0 ok\nentries 1 end 72 rest 0 clean\n",
            errors: "",
            file: Some(&[HEADER, EMPTY]),
        },
    ),
    (
        Given {
            words: "list a.foz",
            file: Some(&[HEADER, NINE]),
            ..NOTHING
        },
        Wanted {
            status: 0,
            output: b"16 1 0000000000000002 9 ok\nentries 1 end 81 rest 0 clean\n",
            errors: "",
            file: Some(&[HEADER, NINE]),
        },
    ),
];

#[test]
fn lists_sound_entries(rt: HostRuntime) -> Result<(), Fail> {
    expect_cases(&rt, rt.alloc(), SOUND)
}

const FLAWED: &[Case] = &[
    (
        Given {
            words: "list a.foz",
            file: Some(&[HEADER, NINE_DAMAGED]),
            ..NOTHING
        },
        Wanted {
            status: 1,
            output: b"16 1 0000000000000002 9 checksum cbf43927 cbf43926\nentries 1 end 81 rest 0 clean\n",
            errors: "",
            file: Some(&[HEADER, NINE_DAMAGED]),
        },
    ),
    (
        Given {
            words: "list a.foz",
            file: Some(&[HEADER, DEFLATE, EMPTY]),
            ..NOTHING
        },
        Wanted {
            status: 1,
            output: b"16 4 0000000000000007 2 deflate\n74 1 0000000000000001 0 ok\nentries 2 end 130 rest 0 clean\n",
            errors: "",
            file: Some(&[HEADER, DEFLATE, EMPTY]),
        },
    ),
    (
        Given {
            words: "list a.foz",
            file: Some(&[HEADER, EMPTY, EMPTY]),
            ..NOTHING
        },
        Wanted {
            status: 1,
            output: b"16 1 0000000000000001 0 ok\n72 1 0000000000000001 0 duplicate\nentries 2 end 128 rest 0 clean\n",
            errors: "",
            file: Some(&[HEADER, EMPTY, EMPTY]),
        },
    ),
];

#[test]
fn lists_damaged_entries_and_duplicates(rt: HostRuntime) -> Result<(), Fail> {
    expect_cases(&rt, rt.alloc(), FLAWED)
}

// The head of NINE and a part of its payload, and EMPTY without its first digit.
const TORN: &[u8] =
    b"0000000000000000000000010000000000000002\x09\0\0\0\x01\0\0\0\x26\x39\xf4\xcb\x09\0\0\012345678";

const REST_OF_EMPTY: &[u8] =
    b"000000000000000000000010000000000000001\0\0\0\0\x01\0\0\0\0\0\0\0\0\0\0\0";

const DROPPED: &[Case] = &[
    (
        Given {
            words: "list a.foz",
            file: Some(&[HEADER, TORN]),
            ..NOTHING
        },
        Wanted {
            status: 0,
            output: b"entries 0 end 16 rest 64 dropped\n",
            errors: "",
            file: Some(&[HEADER, TORN]),
        },
    ),
    (
        Given {
            words: "list a.foz",
            file: Some(&[HEADER, b"\x01"]),
            ..NOTHING
        },
        Wanted {
            status: 0,
            output: b"entries 0 end 16 rest 1 dropped\n",
            errors: "",
            file: Some(&[HEADER, b"\x01"]),
        },
    ),
    (
        Given {
            words: "list a.foz",
            file: Some(&[HEADER, b"1", REST_OF_EMPTY]),
            ..NOTHING
        },
        Wanted {
            status: 0,
            output: b"entries 0 end 16 rest 56 dropped\n",
            errors: "",
            file: Some(&[HEADER, b"1", REST_OF_EMPTY]),
        },
    ),
];

#[test]
fn drops_what_is_no_entry(rt: HostRuntime) -> Result<(), Fail> {
    expect_cases(&rt, rt.alloc(), DROPPED)
}

const REFUSED: &[Case] = &[
    (
        Given {
            words: "list a.foz",
            file: Some(&[b"\x81FOSSILIZEDB\0\0\0\x07"]),
            ..NOTHING
        },
        Wanted {
            status: 6,
            output: b"",
            errors: "foz: bad version 7\n",
            file: Some(&[b"\x81FOSSILIZEDB\0\0\0\x07"]),
        },
    ),
    (
        Given {
            words: "list a.foz",
            file: Some(&[b"\x80FOSSILIZEDB\0\0\0\x06"]),
            ..NOTHING
        },
        Wanted {
            status: 6,
            output: b"",
            errors: "foz: bad magic 80464f5353494c495a45444200000006\n",
            file: Some(&[b"\x80FOSSILIZEDB\0\0\0\x06"]),
        },
    ),
    (
        Given {
            words: "list a.foz",
            file: Some(&[b"\x81F"]),
            ..NOTHING
        },
        Wanted {
            status: 6,
            output: b"",
            errors: "foz: bad magic 8146\n",
            file: Some(&[b"\x81F"]),
        },
    ),
    (
        Given {
            words: "list a.foz",
            file: Some(&[b""]),
            ..NOTHING
        },
        Wanted {
            status: 6,
            output: b"",
            errors: "foz: bad magic -\n",
            file: Some(&[b""]),
        },
    ),
    (
        Given {
            words: "list a.foz",
            ..NOTHING
        },
        Wanted {
            status: 6,
            output: b"",
            errors: "foz: absent\n",
            file: None,
        },
    ),
];

#[test]
fn refuses_what_is_no_archive(rt: HostRuntime) -> Result<(), Fail> {
    expect_cases(&rt, rt.alloc(), REFUSED)
}

// The first call of the disk asks for its length, the second reads. The sink takes seven bytes a call.
const FAULTS: &[Case] = &[
    (
        Given {
            words: "list a.foz",
            file: Some(&[HEADER, EMPTY]),
            disk_failing: &[0],
            ..NOTHING
        },
        Wanted {
            status: 3,
            output: b"",
            errors: "foz: read fault\n",
            file: Some(&[HEADER, EMPTY]),
        },
    ),
    (
        Given {
            words: "list a.foz",
            file: Some(&[HEADER, EMPTY]),
            disk_failing: &[1],
            ..NOTHING
        },
        Wanted {
            status: 3,
            output: b"",
            errors: "foz: read fault\n",
            file: Some(&[HEADER, EMPTY]),
        },
    ),
    (
        Given {
            words: "list a.foz",
            file: Some(&[HEADER, EMPTY]),
            shelf_failing: &[0],
            ..NOTHING
        },
        Wanted {
            status: 3,
            output: b"",
            errors: "foz: read fault\n",
            file: Some(&[HEADER, EMPTY]),
        },
    ),
    (
        Given {
            words: "list a.foz",
            shelf_failing: &[0],
            ..NOTHING
        },
        Wanted {
            status: 6,
            output: b"",
            errors: "foz: absent\n",
            file: None,
        },
    ),
    (
        Given {
            words: "list a.foz",
            file: Some(&[HEADER]),
            output_failing: &[0],
            ..NOTHING
        },
        Wanted {
            status: 4,
            output: b"",
            errors: "foz: write fault\n",
            file: Some(&[HEADER]),
        },
    ),
    (
        Given {
            words: "list a.foz",
            file: Some(&[HEADER, EMPTY]),
            output_failing: &[2],
            ..NOTHING
        },
        Wanted {
            status: 4,
            output: b"16 1 000000000",
            errors: "foz: write fault\n",
            file: Some(&[HEADER, EMPTY]),
        },
    ),
];

#[test]
fn a_list_tells_a_fault(rt: HostRuntime) -> Result<(), Fail> {
    expect_cases(&rt, rt.alloc(), FAULTS)
}
