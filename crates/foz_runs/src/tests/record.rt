//! `record`: its texts, what it leaves of a file, and failures in mid-stream.
use super::{
    Case, END, Given, HEADER, Left, NO_ARCHIVE, NOTHING, Wanted, expect_answer, expect_cases,
    file_of, run_over,
};
use std::alloc::Global;
use std::process::Abort;
use std::sync::Wait;
use std::test::Fail;
use std::thread::Threads;

// The payload of the least sampler has 303 bytes, so its entry has 359.
const WITH_ONE: usize = 17 + 359;

/// `record` answers so, and leaves a file of this length. Gives the file.
fn expect_recorded(
    rt: &(impl Abort + Wait + Threads + Sync),
    alloc: Global,
    file: Option<Vec<u8>>,
    given: &Given<'_>,
    wanted: &Wanted<'_>,
    len: usize,
) -> Result<Vec<u8>, Fail> {
    let left = run_over(rt, alloc, file, 1000, given)?;
    expect_answer(rt, given, &left, wanted);
    let file = left.file.unwrap_or(Vec::new(alloc));
    assert_eq!(rt; file.len(), len, "{}", given.words);
    Ok(file)
}

const LINES: Given<'static> = Given {
    words: "record a.foz",
    input: b"sampler {}\nlens {}\nsampler {}",
    ..NOTHING
};

const ANSWERED: Wanted<'static> = Wanted {
    status: 1,
    output: b"1 1 fefc3737bee27f5e new 0\n\
              2 refused kind\n\
              3 1 fefc3737bee27f5e known 0\n\
              new 1 known 1 refused 1 entries 1\n",
    errors: "",
    file: None,
};

const SKIPPED: Given<'static> = Given {
    words: "record a.foz",
    input: b"# sampler {}\n\nsampler {}\n",
    ..NOTHING
};

const KNOWN: Wanted<'static> = Wanted {
    status: 0,
    output: b"3 1 fefc3737bee27f5e known 0\nnew 0 known 1 refused 0 entries 1\n",
    errors: "",
    file: None,
};

#[test]
fn lines_are_answered_in_order(rt: HostRuntime) -> Result<(), Fail> {
    let alloc = rt.alloc();
    let file = expect_recorded(&rt, alloc, None, &LINES, &ANSWERED, WITH_ONE)?;
    let copy = Vec::from_slice(alloc, file.as_slice())?;
    let again = expect_recorded(&rt, alloc, Some(copy), &SKIPPED, &KNOWN, WITH_ONE)?;
    assert!(rt; again.as_slice() == file.as_slice());
    Ok(())
}

const NO_LINE: &[Case] = &[
    (
        Given {
            words: "record a.foz",
            ..NOTHING
        },
        Wanted {
            status: 0,
            output: b"new 0 known 0 refused 0 entries 0\n",
            errors: "",
            file: Some(&[HEADER, END]),
        },
    ),
    (
        Given {
            words: "record a.foz",
            file: Some(&[HEADER, END]),
            input: b"# none\n\n",
            ..NOTHING
        },
        Wanted {
            status: 0,
            output: b"new 0 known 0 refused 0 entries 0\n",
            errors: "",
            file: Some(&[HEADER, END]),
        },
    ),
];

#[test]
fn no_line_makes_an_archive_without_entries(rt: HostRuntime) -> Result<(), Fail> {
    expect_cases(&rt, rt.alloc(), NO_LINE)
}

// The opening makes five calls of the disk, and the one flush four.
const CALLS: u64 = 9;

const ONE_LINE: &[u8] = b"sampler {}\n";

const FAILED: Wanted<'static> = Wanted {
    status: 5,
    output: b"",
    errors: "foz: disk fault\n",
    file: None,
};

const RECORDED: Wanted<'static> = Wanted {
    status: 0,
    output: b"1 1 fefc3737bee27f5e new 0\nnew 1 known 0 refused 0 entries 1\n",
    errors: "",
    file: None,
};

/// `record` into an archive without entries, on whose disk this call fails, comes to this.
fn expect_with_failing(
    rt: &(impl Abort + Wait + Threads + Sync),
    alloc: Global,
    call: u64,
    wanted: &Wanted<'_>,
) -> Result<(), Fail> {
    let failing = [call];
    let given = Given {
        words: "record a.foz",
        input: ONE_LINE,
        disk_failing: &failing,
        ..NOTHING
    };
    let file = file_of(alloc, Some(&[HEADER, END]))?;
    let left = run_over(rt, alloc, file, 1000, &given)?;
    expect_answer(rt, &given, &left, wanted);
    Ok(())
}

#[test]
fn each_failing_call_of_the_disk_is_told(rt: HostRuntime) -> Result<(), Fail> {
    for call in 0..CALLS {
        expect_with_failing(&rt, rt.alloc(), call, &FAILED)?;
    }
    expect_with_failing(&rt, rt.alloc(), CALLS, &RECORDED)
}

const STOPS: &[Case] = &[
    (
        Given {
            words: "record a.foz",
            file: Some(&[HEADER]),
            input_failing: &[0],
            ..NOTHING
        },
        Wanted {
            status: 3,
            output: b"",
            errors: "foz: read fault\n",
            file: Some(&[HEADER]),
        },
    ),
    (
        Given {
            words: "record a.foz",
            file: Some(&[HEADER]),
            input: b"sampler {}",
            shelf_failing: &[0],
            ..NOTHING
        },
        Wanted {
            status: 5,
            output: b"",
            errors: "foz: disk fault\n",
            file: Some(&[HEADER]),
        },
    ),
    (
        Given {
            words: "record a.foz",
            input: b"sampler {}",
            shelf_failing: &[0],
            ..NOTHING
        },
        Wanted {
            status: 5,
            output: b"",
            errors: "foz: disk fault\n",
            file: None,
        },
    ),
    (
        Given {
            words: "record a.foz",
            file: Some(&[NO_ARCHIVE]),
            ..NOTHING
        },
        Wanted {
            status: 6,
            output: b"",
            errors: "foz: bad magic ffffffffffffffffffffffffffffffff\n",
            file: Some(&[NO_ARCHIVE]),
        },
    ),
];

#[test]
fn a_record_that_stops_leaves_the_file(rt: HostRuntime) -> Result<(), Fail> {
    expect_cases(&rt, rt.alloc(), STOPS)
}

// The sink takes seven bytes a call.
const UNSAID: Given<'static> = Given {
    words: "record a.foz",
    input: b"sampler {}",
    output_failing: &[1],
    ..NOTHING
};

const CUT_SHORT: Wanted<'static> = Wanted {
    status: 4,
    output: b"1 1 fef",
    errors: "foz: write fault\n",
    file: None,
};

#[test]
fn what_a_record_could_not_say_is_kept(rt: HostRuntime) -> Result<(), Fail> {
    expect_recorded(&rt, rt.alloc(), None, &UNSAID, &CUT_SHORT, WITH_ONE)?;
    Ok(())
}

/// Samplers whose `magFilter` are these numbers, a line each.
fn samplers(alloc: Global, numbers: &[u32]) -> Result<Vec<u8>, Fail> {
    let mut lines = Vec::new(alloc);
    for number in numbers {
        let line = format!(in alloc; "sampler {{\"magFilter\":{number}}}\n")?;
        lines.extend_from_slice(line.as_bytes())?;
    }
    Ok(lines)
}

fn range(alloc: Global, from: u32, to: u32) -> Result<Vec<u32>, Fail> {
    let mut numbers = Vec::new(alloc);
    for number in from..to {
        numbers.push(number)?;
    }
    Ok(numbers)
}

/// `record` of these lines, all of which are read, has this as its last line. Gives the file.
pub(super) fn expect_summary<'a>(
    rt: &(impl Abort + Wait + Threads + Sync),
    alloc: Global,
    file: Option<Vec<u8>>,
    words: &'a str,
    lines: &'a [u8],
    summary: &str,
) -> Result<Vec<u8>, Fail> {
    let given = Given {
        words,
        input: lines,
        ..NOTHING
    };
    let left = run_over(rt, alloc, file, 1_000_000, &given)?;
    assert!(rt; left.output.ends_with(summary.as_bytes()), "{words}");
    assert_eq!(rt; left.status, 0, "{words}");
    Ok(left.file.unwrap_or(Vec::new(alloc)))
}

/// The same of the samplers with these numbers.
fn expect_samplers(
    rt: &(impl Abort + Wait + Threads + Sync),
    alloc: Global,
    file: Option<Vec<u8>>,
    numbers: &[u32],
    summary: &str,
) -> Result<Vec<u8>, Fail> {
    let lines = samplers(alloc, numbers)?;
    expect_summary(rt, alloc, file, "record a.foz", &lines, summary)
}

// What is written goes by the number of records, and not by that of new entries: a batch ends among those that are known.
#[test]
fn new_lines_stand_before_and_after_64_known_ones(rt: HostRuntime) -> Result<(), Fail> {
    let alloc = rt.alloc();
    let known = range(alloc, 100, 164)?;
    let file = expect_samplers(
        &rt,
        alloc,
        None,
        &known,
        "\nnew 64 known 0 refused 0 entries 64\n",
    )?;
    let mut mixed = range(alloc, 97, 170)?;
    mixed.push(98)?;
    let more = expect_samplers(
        &rt,
        alloc,
        Some(file),
        &mixed,
        "\nnew 9 known 65 refused 0 entries 73\n",
    )?;
    let copy = Vec::from_slice(alloc, more.as_slice())?;
    let again = expect_samplers(
        &rt,
        alloc,
        Some(copy),
        &mixed,
        "\nnew 0 known 74 refused 0 entries 73\n",
    )?;
    assert!(rt; again.as_slice() == more.as_slice());
    Ok(())
}

/// How samplers are recorded on a disk that fails at a call.
struct Batches {
    lines: u32,
    // The lines whose sampler is that of the first: from this one on, and up to this one.
    known: (u32, u32),
    failing: &'static [u64],
    status: u8,
    // How long the file is afterwards.
    len: usize,
}

const NONE_KNOWN: (u32, u32) = (0, 0);

// An archive without entries, closed, and the entry of a sampler whose number has three digits.
const NO_ENTRY: usize = 17;

const SAMPLER: usize = 361;

// The opening makes five calls, and each flush four.
const BATCHES: &[Batches] = &[
    Batches {
        lines: 130,
        known: NONE_KNOWN,
        failing: &[],
        status: 0,
        len: NO_ENTRY + 130 * SAMPLER,
    },
    Batches {
        lines: 63,
        known: NONE_KNOWN,
        failing: &[5],
        status: 5,
        len: NO_ENTRY,
    },
    Batches {
        lines: 130,
        known: NONE_KNOWN,
        failing: &[9],
        status: 5,
        len: NO_ENTRY + 64 * SAMPLER,
    },
    Batches {
        lines: 130,
        known: NONE_KNOWN,
        failing: &[13],
        status: 5,
        len: NO_ENTRY + 128 * SAMPLER,
    },
    // Batches go by records, not by new entries: of 64 known keys among new ones 24 end the first batch.
    Batches {
        lines: 130,
        known: (40, 104),
        failing: &[9],
        status: 5,
        len: NO_ENTRY + 40 * SAMPLER,
    },
    Batches {
        lines: 130,
        known: (40, 104),
        failing: &[13],
        status: 5,
        len: NO_ENTRY + 64 * SAMPLER,
    },
];

fn batch_lines(alloc: Global, case: &Batches) -> Result<Vec<u8>, Fail> {
    let (from, to) = case.known;
    let mut numbers = Vec::new(alloc);
    for (line, number) in (0..case.lines).zip(100u32..) {
        let is_known = from <= line && line < to;
        numbers.push(if is_known { 100 } else { number })?;
    }
    samplers(alloc, numbers.as_slice())
}

/// `record` of these lines into an archive without entries, whose disk fails at these calls.
fn recorded_over<'a>(
    rt: &(impl Abort + Wait + Threads + Sync),
    alloc: Global,
    lines: &'a [u8],
    failing: &'a [u64],
) -> Result<Left, Fail> {
    let given = Given {
        words: "record a.foz",
        input: lines,
        disk_failing: failing,
        ..NOTHING
    };
    let file = file_of(alloc, Some(&[HEADER, END]))?;
    run_over(rt, alloc, file, 100_000, &given)
}

fn expect_batches(
    rt: &(impl Abort + Wait + Threads + Sync),
    alloc: Global,
    case: &Batches,
) -> Result<(), Fail> {
    let lines = batch_lines(alloc, case)?;
    let left = recorded_over(rt, alloc, &lines, case.failing)?;
    assert_eq!(rt; left.status, case.status);
    assert_eq!(rt; left.file.unwrap_or(Vec::new(alloc)).len(), case.len);
    Ok(())
}

#[test]
fn each_batch_is_written(rt: HostRuntime) -> Result<(), Fail> {
    for case in BATCHES {
        expect_batches(&rt, rt.alloc(), case)?;
    }
    Ok(())
}
