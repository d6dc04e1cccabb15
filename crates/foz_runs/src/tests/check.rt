//! `check`: its text on archives as they lie in the world, and failures in mid-stream.
use super::{Case, DEFLATE, EMPTY, Given, HEADER, NINE_DAMAGED, NOTHING, Wanted, expect_cases};
use std::test::Fail;

// Heads and payloads of entries without checksums: a layout of nothing,
pub(super) const LAYOUT: &[u8] =
    b"0000000000000000000000030000000000000003\x37\0\0\0\x01\0\0\0\0\0\0\0\x37\0\0\0\
    {\"pipelineLayouts\":{\"0000000000000003\":{}},\"version\":6}";

// a compute shader that does nothing, its words as varints after the zero byte,
pub(super) const MODULE: &[u8] =
    b"0000000000000000000000040000000000000004\xaf\0\0\0\x01\0\0\0\0\0\0\0\xaf\0\0\0\
    {\"shaderModules\":{\"0000000000000004\":{\"codeSize\":140,\"flags\":0,\"varintOffset\":0,\"varintSize\":64}},\"version\":6}\0\
    \x83\x84\x8c\x39\x80\x80\x04\x00\x05\x00\x91\x80\x08\x01\x8e\x80\x0c\x00\x01\x8f\
    \x80\x14\x05\x01\xed\xc2\xa5\xf3\x06\x00\x90\x80\x18\x01\x11\x01\x01\x01\x93\x80\
    \x08\x02\xa1\x80\x0c\x03\x02\xb6\x80\x14\x02\x01\x00\x03\xf8\x81\x08\x04\xfd\x81\
    \x04\xb8\x80\x04";

// a pipeline of both,
pub(super) const PIPELINE: &[u8] =
    b"0000000000000000000000070000000000000007\x92\0\0\0\x01\0\0\0\0\0\0\0\x92\0\0\0\
    {\"computePipelines\":{\"0000000000000007\":{\"layout\":\"0000000000000003\",\"stage\":{\"module\":\"0000000000000004\",\"name\":\"main\",\"stage\":32}}},\"version\":6}";

// one whose entry point the module hasn't,
const PIPELINE_OF_MIAN: &[u8] =
    b"0000000000000000000000070000000000000007\x92\0\0\0\x01\0\0\0\0\0\0\0\x92\0\0\0\
    {\"computePipelines\":{\"0000000000000007\":{\"layout\":\"0000000000000003\",\"stage\":{\"module\":\"0000000000000004\",\"name\":\"mian\",\"stage\":32}}},\"version\":6}";

// two whose bases are each other,
const PIPELINE_ON_8: &[u8] =
    b"0000000000000000000000070000000000000007\xba\0\0\0\x01\0\0\0\0\0\0\0\xba\0\0\0\
    {\"computePipelines\":{\"0000000000000007\":{\"basePipelineHandle\":\"0000000000000008\",\"layout\":\"0000000000000003\",\"stage\":{\"module\":\"0000000000000004\",\"name\":\"main\",\"stage\":32}}},\"version\":6}";

const OTHER_ON_7: &[u8] =
    b"0000000000000000000000070000000000000008\xba\0\0\0\x01\0\0\0\0\0\0\0\xba\0\0\0\
    {\"computePipelines\":{\"0000000000000008\":{\"basePipelineHandle\":\"0000000000000007\",\"layout\":\"0000000000000003\",\"stage\":{\"module\":\"0000000000000004\",\"name\":\"main\",\"stage\":32}}},\"version\":6}";

// and an application that is only kept.
pub(super) const KEPT: &[u8] =
    b"0000000000000000000000000000000000000009\x03\0\0\0\x01\0\0\0\0\0\0\0\x03\0\0\0\
    any";

const LINES: &[Case] = &[
    (
        Given {
            words: "check a.foz",
            file: Some(&[HEADER]),
            ..NOTHING
        },
        Wanted {
            status: 0,
            output: b"items 0 done 0 refused 0 blamed 0 missing 0 unanswered 0\n\
                deaths 0 restarts 0 retired 0\n",
            errors: "",
            file: Some(&[HEADER]),
        },
    ),
    (
        Given {
            words: "check a.foz",
            file: Some(&[HEADER, LAYOUT, MODULE, PIPELINE]),
            ..NOTHING
        },
        Wanted {
            status: 0,
            output: b"0 3 0000000000000003 done\n\
                1 4 0000000000000004 done\n\
                2 7 0000000000000007 done\n\
                items 3 done 3 refused 0 blamed 0 missing 0 unanswered 0\n\
                deaths 0 restarts 0 retired 0\n",
            errors: "",
            file: Some(&[HEADER, LAYOUT, MODULE, PIPELINE]),
        },
    ),
    (
        Given {
            words: "check a.foz",
            file: Some(&[HEADER, PIPELINE, MODULE, LAYOUT]),
            ..NOTHING
        },
        Wanted {
            status: 0,
            output: b"0 7 0000000000000007 done\n\
                1 4 0000000000000004 done\n\
                2 3 0000000000000003 done\n\
                items 3 done 3 refused 0 blamed 0 missing 0 unanswered 0\n\
                deaths 0 restarts 0 retired 0\n",
            errors: "",
            file: Some(&[HEADER, PIPELINE, MODULE, LAYOUT]),
        },
    ),
    (
        Given {
            words: "check a.foz",
            file: Some(&[HEADER, LAYOUT, MODULE, PIPELINE_OF_MIAN]),
            ..NOTHING
        },
        Wanted {
            status: 1,
            output: b"0 3 0000000000000003 done\n\
                1 4 0000000000000004 done\n\
                2 7 0000000000000007 refused 29\n\
                items 3 done 2 refused 1 blamed 0 missing 0 unanswered 0\n\
                deaths 0 restarts 0 retired 0\n",
            errors: "",
            file: Some(&[HEADER, LAYOUT, MODULE, PIPELINE_OF_MIAN]),
        },
    ),
    (
        Given {
            words: "check a.foz",
            file: Some(&[HEADER, LAYOUT, MODULE, PIPELINE_ON_8, OTHER_ON_7]),
            ..NOTHING
        },
        Wanted {
            status: 1,
            output: b"0 3 0000000000000003 done\n\
                1 4 0000000000000004 done\n\
                2 7 0000000000000007 missing 7 0000000000000008\n\
                3 7 0000000000000008 missing 7 0000000000000007\n\
                items 4 done 2 refused 0 blamed 0 missing 2 unanswered 0\n\
                deaths 0 restarts 0 retired 0\n",
            errors: "",
            file: Some(&[HEADER, LAYOUT, MODULE, PIPELINE_ON_8, OTHER_ON_7]),
        },
    ),
    (
        Given {
            words: "check a.foz",
            file: Some(&[HEADER, KEPT]),
            ..NOTHING
        },
        Wanted {
            status: 0,
            output: b"0 0 0000000000000009 kept\n\
                items 0 done 0 refused 0 blamed 0 missing 0 unanswered 0\n\
                deaths 0 restarts 0 retired 0\n",
            errors: "",
            file: Some(&[HEADER, KEPT]),
        },
    ),
    (
        Given {
            words: "check a.foz",
            file: Some(&[HEADER, LAYOUT, LAYOUT, KEPT, EMPTY, NINE_DAMAGED, DEFLATE]),
            ..NOTHING
        },
        Wanted {
            status: 1,
            output: b"0 3 0000000000000003 done\n\
                1 3 0000000000000003 duplicate\n\
                2 0 0000000000000009 kept\n\
                3 1 0000000000000001 unreadable json\n\
                4 1 0000000000000002 checksum cbf43927 cbf43926\n\
                5 4 0000000000000007 deflate\n\
                items 1 done 1 refused 0 blamed 0 missing 0 unanswered 0\n\
                deaths 0 restarts 0 retired 0\n",
            errors: "",
            file: Some(&[HEADER, LAYOUT, LAYOUT, KEPT, EMPTY, NINE_DAMAGED, DEFLATE]),
        },
    ),
];

#[test]
fn each_entry_has_a_line(rt: HostRuntime) -> Result<(), Fail> {
    expect_cases(&rt, rt.alloc(), LINES)
}

const ENDS: &[Case] = &[
    (
        Given {
            words: "check a.foz",
            file: Some(&[HEADER, LAYOUT]),
            disk_failing: &[1],
            ..NOTHING
        },
        Wanted {
            status: 3,
            output: b"",
            errors: "foz: read fault\n",
            file: Some(&[HEADER, LAYOUT]),
        },
    ),
    (
        Given {
            words: "check a.foz",
            file: Some(&[HEADER, LAYOUT]),
            shelf_failing: &[0],
            ..NOTHING
        },
        Wanted {
            status: 3,
            output: b"",
            errors: "foz: read fault\n",
            file: Some(&[HEADER, LAYOUT]),
        },
    ),
    (
        Given {
            words: "check a.foz",
            file: Some(&[HEADER, LAYOUT]),
            output_failing: &[2],
            ..NOTHING
        },
        Wanted {
            status: 4,
            output: b"0 3 0000000000",
            errors: "foz: write fault\n",
            file: Some(&[HEADER, LAYOUT]),
        },
    ),
    (
        Given {
            words: "check a.foz",
            ..NOTHING
        },
        Wanted {
            status: 6,
            output: b"",
            errors: "foz: absent\n",
            file: None,
        },
    ),
    (
        Given {
            words: "check a.foz",
            file: Some(&[b"\x81F"]),
            ..NOTHING
        },
        Wanted {
            status: 6,
            output: b"",
            errors: "foz: bad magic 8146\n",
            file: Some(&[b"\x81F"]),
        },
    ),
];

#[test]
fn a_check_tells_why_it_ends(rt: HostRuntime) -> Result<(), Fail> {
    expect_cases(&rt, rt.alloc(), ENDS)
}
