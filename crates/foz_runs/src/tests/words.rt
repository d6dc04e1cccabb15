//! Words that are no form of a command.
use super::{Given, HEADER, NOTHING, Wanted, expect_case};
use std::test::Fail;

const NO_FORMS: &[&str] = &[
    "",
    "list",
    "list -a.foz",
    "list a.foz b.foz",
    "lists a.foz",
    "list ",
    "put a.foz 4294967296 0000000000000001",
    "put a.foz +1 0000000000000001",
    "put a.foz 1 000000000000001",
    "put a.foz 1 000000000000000g",
    "put a.foz 1",
    "put -a.foz 1 0000000000000001",
    "check",
    "check -a.foz",
    "check a.foz b.foz",
    "hash a.foz",
    "hashes",
    "Hash",
    "record",
    "record -a.foz",
    "record a.foz b.foz",
    "record a.foz --threads 0",
    "record a.foz --threads 17",
    "record a.foz --threads=4",
    "record --threads 4 a.foz",
    "records a.foz",
    "worker a.foz",
    "workers",
];

const USAGE: Wanted<'static> = Wanted {
    status: 2,
    output: b"",
    errors: "foz: usage\n",
    file: Some(&[HEADER]),
};

#[test]
fn other_words_are_usage(rt: HostRuntime) -> Result<(), Fail> {
    for words in NO_FORMS {
        let given = Given {
            words: *words,
            file: Some(&[HEADER]),
            ..NOTHING
        };
        expect_case(&rt, rt.alloc(), &given, &USAGE)?;
    }
    Ok(())
}
