//! Inputs and archives at their limits.
use super::{EMPTY, END, Given, HEADER, NOTHING, Wanted, expect_answer, run_over};
use std::alloc::Global;
use std::process::Abort;
use std::sync::Wait;
use std::test::Fail;
use std::thread::Threads;

// The head of an entry of tag 2 and hash 7 with a payload of 16,777,216 bytes and without a checksum.
const LARGE_HEAD: &[u8] =
    b"0000000000000000000000020000000000000007\0\0\0\x01\x01\0\0\0\0\0\0\0\0\0\0\x01";

/// A run over this file comes to this. Gives the file that it leaves, none where it is absent.
fn expect_run<'a>(
    rt: &(impl Abort + Wait + Threads + Sync),
    alloc: Global,
    file: Option<Vec<u8>>,
    words: &'a str,
    input: &'a [u8],
    wanted: (u8, &'a str, &'a str),
) -> Result<Option<Vec<u8>>, Fail> {
    let given = Given {
        words,
        input,
        ..NOTHING
    };
    let left = run_over(rt, alloc, file, 268_435_500, &given)?;
    let (status, output, errors) = wanted;
    let wanted = Wanted {
        status,
        output: output.as_bytes(),
        errors,
        file: None,
    };
    expect_answer(rt, &given, &left, &wanted);
    Ok(left.file)
}

/// The same, and the file stays.
fn expect_kept<'a>(
    rt: &(impl Abort + Wait + Threads + Sync),
    alloc: Global,
    file: &[u8],
    words: &'a str,
    input: &'a [u8],
    wanted: (u8, &'a str, &'a str),
) -> Result<(), Fail> {
    let copy = Vec::from_slice(alloc, file)?;
    let left = expect_run(rt, alloc, Some(copy), words, input, wanted)?;
    let same = left.as_deref() == Some(file);
    assert!(rt; same, "{words}");
    Ok(())
}

const PUT: &str = "put a.foz 1 0000000000000002";

const TOO_LONG: (u8, &str, &str) = (10, "", "foz: input too long\n");

// What reads the input to its end, with the text for the longest input of blank lines.
const READERS: &[(&str, &str)] = &[
    ("hash", ""),
    ("record a.foz", "new 0 known 0 refused 0 entries 0\n"),
];

fn expect_absent<'a>(
    rt: &(impl Abort + Wait + Threads + Sync),
    alloc: Global,
    words: &'a str,
    input: &'a [u8],
) -> Result<(), Fail> {
    let left = expect_run(rt, alloc, None, words, input, TOO_LONG)?;
    assert!(rt; left.is_none(), "{words}");
    Ok(())
}

#[test]
fn the_longest_input_is_read(rt: HostRuntime) -> Result<(), Fail> {
    let alloc = rt.alloc();
    let longest = vec![in alloc; b'\n'; 67_108_864]?;
    for (words, text) in READERS {
        expect_run(&rt, alloc, None, words, &longest, (0, text, ""))?;
    }
    Ok(())
}

#[test]
fn a_longer_input_is_refused(rt: HostRuntime) -> Result<(), Fail> {
    let alloc = rt.alloc();
    let long = vec![in alloc; b'\n'; 67_108_865]?;
    expect_absent(&rt, alloc, PUT, &long)?;
    for (words, _text) in READERS {
        expect_absent(&rt, alloc, words, &long)?;
    }
    Ok(())
}

#[test]
fn a_payload_may_be_too_large(rt: HostRuntime) -> Result<(), Fail> {
    let alloc = rt.alloc();
    let large = vec![in alloc; 0_u8; 16_777_217]?;
    let wanted = (1, "too large 16777217\n", "");
    let left = expect_run(&rt, alloc, None, PUT, &large, wanted)?;
    let closed = left.as_deref() == Some(b"\x81FOSSILIZEDB\0\0\0\x06\0".as_slice());
    assert!(rt; closed);
    Ok(())
}

/// An archive of 1,048,576 entries, open.
fn full_archive(alloc: Global) -> Result<Vec<u8>, Fail> {
    let mut file = Vec::with_capacity(alloc, 58_720_328)?;
    file.extend_from_slice(HEADER)?;
    for _ in 0..1_048_576 {
        file.extend_from_slice(EMPTY)?;
    }
    Ok(file)
}

/// A full archive, once it is closed, answers so and stays.
fn expect_full<'a>(
    rt: &(impl Abort + Wait + Threads + Sync),
    alloc: Global,
    words: &'a str,
    input: &'a [u8],
    wanted: (u8, &'a str, &'a str),
) -> Result<(), Fail> {
    let mut file = full_archive(alloc)?;
    file.extend_from_slice(END)?;
    expect_kept(rt, alloc, &file, words, input, wanted)
}

#[test]
fn a_full_archive_takes_no_payload(rt: HostRuntime) -> Result<(), Fail> {
    let wanted = (8, "", "foz: too many entries\n");
    expect_full(&rt, rt.alloc(), PUT, b"", wanted)
}

#[test]
fn a_full_archive_takes_no_line(rt: HostRuntime) -> Result<(), Fail> {
    let wanted = (
        8,
        "1 1 fefc3737bee27f5e too many\n2 refused kind\nnew 0 known 0 refused 2 entries 1048576\n",
        "",
    );
    let input = b"sampler {}\nlens {}\n";
    expect_full(&rt, rt.alloc(), "record a.foz", input, wanted)?;
    expect_full(&rt, rt.alloc(), "record a.foz --threads 2", input, wanted)
}

#[test]
fn an_archive_of_too_many_entries_is_refused(rt: HostRuntime) -> Result<(), Fail> {
    let alloc = rt.alloc();
    let mut file = full_archive(alloc)?;
    file.extend_from_slice(EMPTY)?;
    let wanted = (6, "", "foz: too many entries\n");
    expect_kept(&rt, alloc, &file, "list a.foz", b"", wanted)
}

/// An archive of fifteen entries that are as large as can be, open.
fn large_archive(alloc: Global) -> Result<Vec<u8>, Fail> {
    let large = vec![in alloc; 0_u8; 16_777_216]?;
    let mut file = Vec::with_capacity(alloc, 268_435_458)?;
    file.extend_from_slice(HEADER)?;
    for _ in 0..15 {
        file.extend_from_slice(LARGE_HEAD)?;
        file.extend_from_slice(&large)?;
    }
    Ok(file)
}

/// Fills that archive to its last byte by one entry.
fn filled_archive(
    rt: &(impl Abort + Wait + Threads + Sync),
    alloc: Global,
    file: &[u8],
) -> Result<Vec<u8>, Fail> {
    let last = vec![in alloc; 0_u8; 16_776_304]?;
    let copy = Vec::from_slice(alloc, file)?;
    let words = "put a.foz 1 0000000000000001";
    let left = expect_run(rt, alloc, Some(copy), words, &last, (0, "new 15\n", ""))?;
    let filled = left.unwrap_or(Vec::new(alloc));
    assert_eq!(rt; filled.len(), 268_435_457);
    Ok(filled)
}

#[test]
fn an_archive_is_filled_to_its_last_byte(rt: HostRuntime) -> Result<(), Fail> {
    let alloc = rt.alloc();
    let mut file = large_archive(alloc)?;
    let filled = filled_archive(&rt, alloc, &file)?;
    expect_kept(
        &rt,
        alloc,
        &filled,
        PUT,
        b"",
        (8, "", "foz: full 268435456 56\n"),
    )?;
    let after = vec![in alloc; 0_u8; 16_776_362]?;
    file.extend_from_slice(&after)?;
    let too_long = (6, "", "foz: too long 268435458\n");
    expect_kept(&rt, alloc, &file, "list a.foz", b"", too_long)
}
