//! Each form of the words once, and words that are none.
ghost use Rattle.std.specs.Prelude.{◌≤◌};

use super::*;
use foz_words::Key;
use std::alloc::Global;
use std::process::Abort;
use std::test::Fail;

const KEY: Key = Key {
    tag: 4_294_967_295,
    hash: 0x0123_4567_89ab_cdef,
};

// The words of each form, and what they ask for.
const FORMS: &[(&str, &str)] = &[
    ("list a.foz", "list"),
    ("put a.foz 4294967295 0123456789abcdef", "put"),
    ("put a.foz 00000000004294967295 0123456789ABCDEF", "put"),
    ("hash", "hash"),
    ("record a.foz", "record by 1"),
    ("record a.foz --threads 1", "record by 1"),
    ("record a.foz --threads 16", "record by 16"),
    (
        "record a.foz --threads 00000000000000000016",
        "record by 16",
    ),
    ("check a.foz", "check"),
    ("worker", "worker"),
    ("replay a.foz", "replay by 1"),
    ("replay a.foz --workers 1", "replay by 1"),
    ("replay a.foz --workers 16", "replay by 16"),
    (
        "replay a.foz --workers 00000000000000000016",
        "replay by 16",
    ),
];

const NO_FORMS: &[&str] = &[
    "",
    "list",
    "list -a.foz",
    "list a.foz b.foz",
    "lists a.foz",
    "list ",
    "hash a.foz",
    "hash ",
    "hashes",
    "record",
    "record -a.foz",
    "record a.foz b.foz",
    "record a.foz --threads",
    "record a.foz --threads 0",
    "record a.foz --threads 17",
    "record a.foz --threads +4",
    "record a.foz --threads four",
    "record a.foz --threads ",
    "record a.foz --threads 000000000000000000004",
    "record a.foz --threads 4294967297",
    "record a.foz --threads=4",
    "record a.foz --threads=4 4",
    "record a.foz --Threads 4",
    "record a.foz -- 4",
    "record --threads 4 a.foz",
    "record a.foz --threads 4 --threads 4",
    "record -a.foz --threads 4",
    "check a.foz --threads 4",
    "put a.foz --threads 4",
    "replay",
    "replay -a.foz",
    "replay a.foz b.foz",
    "replay a.foz --workers",
    "replay a.foz --workers 0",
    "replay a.foz --workers 17",
    "replay a.foz --workers +4",
    "replay a.foz --workers four",
    "replay a.foz --workers ",
    "replay a.foz --workers 000000000000000000004",
    "replay a.foz --workers 4294967297",
    "replay a.foz --workers=4",
    "replay a.foz --workers=4 4",
    "replay a.foz --Workers 4",
    "replay a.foz --threads 4",
    "replay a.foz -- 4",
    "replay --workers 4 a.foz",
    "replay a.foz --workers 4 --workers 4",
    "replay -a.foz --workers 4",
    "check a.foz --workers 4",
    "put a.foz --workers 4",
    "check",
    "check -a.foz",
    "check a.foz b.foz",
    "worker a.foz",
    "workers",
    "put a.foz 4294967296 0000000000000001",
    "put a.foz +1 0000000000000001",
    "put a.foz 000000000000000000001 0000000000000001",
    "put a.foz  0000000000000001",
    "put a.foz 1 000000000000001",
    "put a.foz 1 00000000000000001",
    "put a.foz 1 000000000000000g",
    "put a.foz 1",
    "put -a.foz 1 0000000000000001",
];

/// The command of the words that stand between blanks.
fn command_in(alloc: Global, text: &str) -> Result<Result<Command, ArgError>, Fail> {
    let mut words = Vec::new(alloc);
    for word in text.split(' ') {
        words.push(String::from_str(alloc, word)?)?;
    }
    Ok(command_of(words.as_slice()))
}

/// The word of a command, where its fields are those of the table.
fn word_of(command: &Command) -> &'static str {
    match command {
        Command::List { file } if file.as_str() == "a.foz" => "list",
        Command::Put { file, key } if file.as_str() == "a.foz" && *key == KEY => "put",
        Command::Hash => "hash",
        Command::Record { file, threads: 1 } if file.as_str() == "a.foz" => "record by 1",
        Command::Record { file, threads: 16 } if file.as_str() == "a.foz" => "record by 16",
        Command::Check { file } if file.as_str() == "a.foz" => "check",
        Command::Worker => "worker",
        Command::Replay { file, workers: 1 } if file.as_str() == "a.foz" => "replay by 1",
        Command::Replay { file, workers: 16 } if file.as_str() == "a.foz" => "replay by 16",
        _ => "other fields",
    }
}

fn expect_form(rt: &impl Abort, alloc: Global, words: &str, form: &str) -> Result<(), Fail> {
    match command_in(alloc, words)? {
        Ok(command) => assert_eq!(rt; word_of(&command), form, "{words}"),
        Err(_) => assert!(rt; false, "{words} is refused"),
    }
    Ok(())
}

fn expect_usage(rt: &impl Abort, alloc: Global, words: &str) -> Result<(), Fail> {
    let refused = matches!(command_in(alloc, words)?, Err(ArgError::Usage));
    assert!(rt; refused, "{words}");
    Ok(())
}

#[test]
fn reads_each_form(rt: HostRuntime) -> Result<(), Fail> {
    for (words, form) in FORMS {
        expect_form(&rt, rt.alloc(), words, form)?;
    }
    Ok(())
}

#[test]
fn refuses_other_words(rt: HostRuntime) -> Result<(), Fail> {
    for words in NO_FORMS {
        expect_usage(&rt, rt.alloc(), words)?;
    }
    Ok(())
}

// A replay with so many workers is a command for a crew of so many slots, or not.
const CREWS: &[(&str, usize, bool)] = &[
    ("replay a.foz", 1, true),
    ("replay a.foz --workers 2", 1, false),
    ("replay a.foz --workers 2", 2, true),
    ("replay a.foz --workers 16", 15, false),
    ("replay a.foz --workers 16", 16, true),
    ("check a.foz", 1, true),
];

/// Whether the words are a command for so many slots.
fn is_for(alloc: Global, slots: usize, text: &str) -> Result<bool, Fail>
    requires some_slot { 1 ≤ slots }
{
    let mut words = Vec::new(alloc);
    for word in text.split(' ') {
        words.push(String::from_str(alloc, word)?)?;
    }
    Ok(command_for(slots, words.as_slice()).is_ok())
}

#[test]
fn replays_by_no_more_workers_than_slots(rt: HostRuntime) -> Result<(), Fail> {
    for (words, slots, is_command) in CREWS {
        assert!(&rt; *slots >= 1);
        let found = is_for(rt.alloc(), *slots, words)?;
        assert_eq!(&rt; found, *is_command, "{words}");
    }
    Ok(())
}
