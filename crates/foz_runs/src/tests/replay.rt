//! `replay`: its text over workers in memory that answer, die, answer wrongly or can't be started, and failures in mid-stream.
use super::check::{KEPT, LAYOUT, MODULE, PIPELINE};
use super::{
    Case, DEFLATE, Deed, EMPTY, Given, HEADER, NINE_DAMAGED, NOTHING, Place, WORKS, Wanted,
    expect_cases,
};
use foz_words::Key;
use std::test::Fail;

const LAYOUT_KEY: Key = Key { tag: 3, hash: 3 };

const MODULE_KEY: Key = Key { tag: 4, hash: 4 };

const REFUSES_THE_LAYOUT: Place<'static> = Place {
    deeds: &[(LAYOUT_KEY, Deed::Answers(12))],
    ..WORKS
};

const DIES_OVER_THE_MODULE: Place<'static> = Place {
    deeds: &[(MODULE_KEY, Deed::Dies)],
    ..WORKS
};

// Its workers answer over the module with a whole Reply for (3, 9).
const ANSWERS_FOR_ANOTHER: Place<'static> = Place {
    deeds: &[(
        MODULE_KEY,
        Deed::Sends(b"\x11\0\0\0\x04\0\0\0\0\x03\0\0\0\x09\0\0\0\0\0\0\0"),
    )],
    ..WORKS
};

const SENDS_A_BAD_FRAME: Place<'static> = Place {
    deeds: &[(MODULE_KEY, Deed::Sends(b"\x05\0\0\0\x02"))],
    ..WORKS
};

const NEVER_STARTS: Place<'static> = Place {
    failing_starts: &[0],
    ..WORKS
};

const DIES_AND_STAYS_DEAD: Place<'static> = Place {
    failing_starts: &[1],
    ..DIES_OVER_THE_MODULE
};

const LINES: &[Case] = &[
    (
        Given {
            words: "replay a.foz",
            file: Some(&[HEADER]),
            ..NOTHING
        },
        Wanted {
            status: 0,
            output: b"items 0 done 0 refused 0 blamed 0 missing 0 unanswered 0\n\
                deaths 0 restarts 0 retired 0\n",
            errors: "",
            file: Some(&[HEADER]),
        },
    ),
    (
        Given {
            words: "replay a.foz",
            file: Some(&[HEADER, LAYOUT, MODULE, PIPELINE]),
            ..NOTHING
        },
        Wanted {
            status: 0,
            output: b"0 3 0000000000000003 done\n\
                1 4 0000000000000004 done\n\
                2 7 0000000000000007 done\n\
                items 3 done 3 refused 0 blamed 0 missing 0 unanswered 0\n\
                deaths 0 restarts 0 retired 0\n",
            errors: "",
            file: Some(&[HEADER, LAYOUT, MODULE, PIPELINE]),
        },
    ),
    (
        Given {
            words: "replay a.foz --workers 2",
            file: Some(&[HEADER, LAYOUT, MODULE, PIPELINE]),
            crew: &[WORKS, WORKS],
            ..NOTHING
        },
        Wanted {
            status: 0,
            output: b"0 3 0000000000000003 done\n\
                1 4 0000000000000004 done\n\
                2 7 0000000000000007 done\n\
                items 3 done 3 refused 0 blamed 0 missing 0 unanswered 0\n\
                deaths 0 restarts 0 retired 0\n",
            errors: "",
            file: Some(&[HEADER, LAYOUT, MODULE, PIPELINE]),
        },
    ),
    (
        Given {
            words: "replay a.foz",
            file: Some(&[HEADER, LAYOUT, MODULE, PIPELINE]),
            crew: &[REFUSES_THE_LAYOUT],
            ..NOTHING
        },
        Wanted {
            status: 1,
            output: b"0 3 0000000000000003 refused 12\n\
                1 4 0000000000000004 done\n\
                2 7 0000000000000007 missing 3 0000000000000003\n\
                items 3 done 1 refused 1 blamed 0 missing 1 unanswered 0\n\
                deaths 0 restarts 0 retired 0\n",
            errors: "",
            file: Some(&[HEADER, LAYOUT, MODULE, PIPELINE]),
        },
    ),
    (
        Given {
            words: "replay a.foz",
            file: Some(&[HEADER, LAYOUT, MODULE, PIPELINE]),
            crew: &[DIES_OVER_THE_MODULE],
            ..NOTHING
        },
        Wanted {
            status: 1,
            output: b"0 3 0000000000000003 done\n\
                1 4 0000000000000004 blamed\n\
                2 7 0000000000000007 missing 4 0000000000000004\n\
                items 3 done 1 refused 0 blamed 1 missing 1 unanswered 0\n\
                deaths 1 restarts 1 retired 0\n",
            errors: "",
            file: Some(&[HEADER, LAYOUT, MODULE, PIPELINE]),
        },
    ),
    (
        Given {
            words: "replay a.foz",
            file: Some(&[HEADER, LAYOUT, MODULE, PIPELINE]),
            crew: &[ANSWERS_FOR_ANOTHER],
            ..NOTHING
        },
        Wanted {
            status: 1,
            output: b"0 3 0000000000000003 done\n\
                1 4 0000000000000004 blamed\n\
                2 7 0000000000000007 missing 4 0000000000000004\n\
                items 3 done 1 refused 0 blamed 1 missing 1 unanswered 0\n\
                deaths 1 restarts 1 retired 0\n",
            errors: "",
            file: Some(&[HEADER, LAYOUT, MODULE, PIPELINE]),
        },
    ),
    (
        Given {
            words: "replay a.foz",
            file: Some(&[HEADER, LAYOUT, MODULE, PIPELINE]),
            crew: &[SENDS_A_BAD_FRAME],
            ..NOTHING
        },
        Wanted {
            status: 1,
            output: b"0 3 0000000000000003 done\n\
                1 4 0000000000000004 blamed\n\
                2 7 0000000000000007 missing 4 0000000000000004\n\
                items 3 done 1 refused 0 blamed 1 missing 1 unanswered 0\n\
                deaths 1 restarts 1 retired 0\n",
            errors: "",
            file: Some(&[HEADER, LAYOUT, MODULE, PIPELINE]),
        },
    ),
    (
        Given {
            words: "replay a.foz --workers 1",
            file: Some(&[HEADER, LAYOUT, LAYOUT, KEPT, EMPTY, NINE_DAMAGED, DEFLATE]),
            ..NOTHING
        },
        Wanted {
            status: 1,
            output: b"0 3 0000000000000003 done\n\
                1 3 0000000000000003 duplicate\n\
                2 0 0000000000000009 kept\n\
                3 1 0000000000000001 unreadable json\n\
                4 1 0000000000000002 checksum cbf43927 cbf43926\n\
                5 4 0000000000000007 deflate\n\
                items 1 done 1 refused 0 blamed 0 missing 0 unanswered 0\n\
                deaths 0 restarts 0 retired 0\n",
            errors: "",
            file: Some(&[HEADER, LAYOUT, LAYOUT, KEPT, EMPTY, NINE_DAMAGED, DEFLATE]),
        },
    ),
];

#[test]
fn each_item_has_its_verdict(rt: HostRuntime) -> Result<(), Fail> {
    expect_cases(&rt, rt.alloc(), LINES)
}

const STARTS: &[Case] = &[
    (
        Given {
            words: "replay a.foz --workers 3",
            file: Some(&[HEADER, LAYOUT, MODULE, PIPELINE]),
            crew: &[NEVER_STARTS, WORKS, NEVER_STARTS],
            ..NOTHING
        },
        Wanted {
            status: 0,
            output: b"0 3 0000000000000003 done\n\
                1 4 0000000000000004 done\n\
                2 7 0000000000000007 done\n\
                items 3 done 3 refused 0 blamed 0 missing 0 unanswered 0\n\
                deaths 0 restarts 0 retired 2\n",
            errors: "",
            file: Some(&[HEADER, LAYOUT, MODULE, PIPELINE]),
        },
    ),
    (
        Given {
            words: "replay a.foz --workers 3",
            file: Some(&[HEADER, LAYOUT, MODULE, PIPELINE]),
            crew: &[NEVER_STARTS, NEVER_STARTS, NEVER_STARTS],
            ..NOTHING
        },
        Wanted {
            status: 9,
            output: b"0 3 0000000000000003 unanswered\n\
                1 4 0000000000000004 unanswered\n\
                2 7 0000000000000007 unanswered\n\
                items 3 done 0 refused 0 blamed 0 missing 0 unanswered 3\n\
                deaths 0 restarts 0 retired 3\n",
            errors: "foz: no workers\n",
            file: Some(&[HEADER, LAYOUT, MODULE, PIPELINE]),
        },
    ),
    (
        Given {
            words: "replay a.foz",
            file: Some(&[HEADER, LAYOUT, MODULE, PIPELINE]),
            crew: &[NEVER_STARTS, WORKS],
            ..NOTHING
        },
        Wanted {
            status: 9,
            output: b"0 3 0000000000000003 unanswered\n\
                1 4 0000000000000004 unanswered\n\
                2 7 0000000000000007 unanswered\n\
                items 3 done 0 refused 0 blamed 0 missing 0 unanswered 3\n\
                deaths 0 restarts 0 retired 1\n",
            errors: "foz: no workers\n",
            file: Some(&[HEADER, LAYOUT, MODULE, PIPELINE]),
        },
    ),
    (
        Given {
            words: "replay a.foz",
            file: Some(&[HEADER, LAYOUT, MODULE, PIPELINE]),
            crew: &[DIES_AND_STAYS_DEAD],
            ..NOTHING
        },
        Wanted {
            status: 9,
            output: b"0 3 0000000000000003 done\n\
                1 4 0000000000000004 blamed\n\
                2 7 0000000000000007 unanswered\n\
                items 3 done 1 refused 0 blamed 1 missing 0 unanswered 1\n\
                deaths 1 restarts 0 retired 1\n",
            errors: "foz: no workers\n",
            file: Some(&[HEADER, LAYOUT, MODULE, PIPELINE]),
        },
    ),
    (
        Given {
            words: "replay a.foz",
            file: Some(&[HEADER]),
            crew: &[NEVER_STARTS],
            ..NOTHING
        },
        Wanted {
            status: 0,
            output: b"items 0 done 0 refused 0 blamed 0 missing 0 unanswered 0\n\
                deaths 0 restarts 0 retired 1\n",
            errors: "",
            file: Some(&[HEADER]),
        },
    ),
    (
        Given {
            words: "replay a.foz --workers 2",
            file: Some(&[HEADER, LAYOUT, MODULE, PIPELINE]),
            ..NOTHING
        },
        Wanted {
            status: 2,
            output: b"",
            errors: "foz: usage\n",
            file: Some(&[HEADER, LAYOUT, MODULE, PIPELINE]),
        },
    ),
    (
        Given {
            words: "replay a.foz --workers 0",
            file: Some(&[HEADER, LAYOUT, MODULE, PIPELINE]),
            ..NOTHING
        },
        Wanted {
            status: 2,
            output: b"",
            errors: "foz: usage\n",
            file: Some(&[HEADER, LAYOUT, MODULE, PIPELINE]),
        },
    ),
    (
        Given {
            words: "replay a.foz --workers 17",
            file: Some(&[HEADER, LAYOUT, MODULE, PIPELINE]),
            ..NOTHING
        },
        Wanted {
            status: 2,
            output: b"",
            errors: "foz: usage\n",
            file: Some(&[HEADER, LAYOUT, MODULE, PIPELINE]),
        },
    ),
];

#[test]
fn items_are_unanswered_where_no_worker_starts(rt: HostRuntime) -> Result<(), Fail> {
    expect_cases(&rt, rt.alloc(), STARTS)
}

const ENDS: &[Case] = &[
    (
        Given {
            words: "replay a.foz",
            file: Some(&[HEADER, LAYOUT]),
            disk_failing: &[1],
            ..NOTHING
        },
        Wanted {
            status: 3,
            output: b"",
            errors: "foz: read fault\n",
            file: Some(&[HEADER, LAYOUT]),
        },
    ),
    (
        Given {
            words: "replay a.foz",
            file: Some(&[HEADER, LAYOUT]),
            shelf_failing: &[0],
            ..NOTHING
        },
        Wanted {
            status: 3,
            output: b"",
            errors: "foz: read fault\n",
            file: Some(&[HEADER, LAYOUT]),
        },
    ),
    (
        Given {
            words: "replay a.foz",
            file: Some(&[HEADER, LAYOUT]),
            output_failing: &[2],
            ..NOTHING
        },
        Wanted {
            status: 4,
            output: b"0 3 0000000000",
            errors: "foz: write fault\n",
            file: Some(&[HEADER, LAYOUT]),
        },
    ),
    (
        Given {
            words: "replay a.foz",
            file: Some(&[HEADER, LAYOUT]),
            crew: &[NEVER_STARTS],
            output_failing: &[0],
            ..NOTHING
        },
        Wanted {
            status: 4,
            output: b"",
            errors: "foz: write fault\n",
            file: Some(&[HEADER, LAYOUT]),
        },
    ),
    (
        Given {
            words: "replay a.foz",
            file: None,
            ..NOTHING
        },
        Wanted {
            status: 6,
            output: b"",
            errors: "foz: absent\n",
            file: None,
        },
    ),
    (
        Given {
            words: "replay a.foz",
            file: Some(&[b"\x81F"]),
            ..NOTHING
        },
        Wanted {
            status: 6,
            output: b"",
            errors: "foz: bad magic 8146\n",
            file: Some(&[b"\x81F"]),
        },
    ),
];

#[test]
fn a_replay_tells_why_it_ends(rt: HostRuntime) -> Result<(), Fail> {
    expect_cases(&rt, rt.alloc(), ENDS)
}
