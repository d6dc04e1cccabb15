use crate::{
    Cut, EntryCause, HEAD_LEN, check, first_entry, first_head, lay_entry, spell_head, stored_head,
    write_entry,
};
use foz_words::Key;
use std::test::Fail;

// The entry of tag 1 and hash 2 with this payload, whose CRC-32 is a published check value.
const ENTRY: &[u8] =
    b"0000000000000000000000010000000000000002\x09\0\0\0\x01\0\0\0\x26\x39\xF4\xCB\x09\0\0\0123456789";

const KEY: Key = Key { tag: 1, hash: 2 };

const PAYLOAD: &[u8] = b"123456789";

const CRC: u32 = 0xCBF4_3926;

#[test]
fn an_entry_is_read_as_it_is_written(rt: HostRuntime) -> Result<(), Fail> {
    let mut out = Vec::new(rt.alloc());
    assert_eq!(rt; write_entry(&mut out, KEY, PAYLOAD), Ok(()));
    assert_eq!(rt; out.as_slice(), ENTRY);
    assert_eq!(rt; first_entry(&out), Some(stored_head(KEY, CRC, 9)));
    Ok(())
}

#[test]
fn a_head_is_spelled_and_laid_down_before_its_payload(rt: HostRuntime) -> Result<(), Fail> {
    let head = stored_head(KEY, CRC, 9);
    assert_eq!(rt; spell_head(&head).as_slice(), &ENTRY[..HEAD_LEN]);
    let mut out = Vec::new(rt.alloc());
    out.reserve(HEAD_LEN + PAYLOAD.len())?;
    lay_entry(&mut out, &head, PAYLOAD);
    assert_eq!(rt; out.as_slice(), ENTRY);
    Ok(())
}

// A head stands in its 56 bytes alone, and an entry only with its whole payload.
#[test]
fn a_head_needs_no_payload(rt: HostRuntime) {
    let head: Option<Cut> = Some(stored_head(KEY, CRC, 9));
    for (len, wanted, whole) in [
        (55, None, None),
        (56, head, None),
        (64, head, None),
        (65, head, head),
    ] {
        assert_eq!(rt; first_head(&ENTRY[..len]), wanted);
        assert_eq!(rt; first_entry(&ENTRY[..len]), whole);
    }
}

// The numbers of a head before this payload, and what is found.
const JUDGED: &[([u8; 16], Result<(), EntryCause>)] = &[
    (*b"\x09\0\0\0\x01\0\0\0\x26\x39\xF4\xCB\x09\0\0\0", Ok(())),
    (*b"\x09\0\0\0\x01\0\0\0\0\0\0\0\x09\0\0\0", Ok(())),
    (
        *b"\x01\0\0\x01\x02\0\0\0\x27\x39\xF4\xCB\x08\0\0\0",
        Err(EntryCause::Deflate),
    ),
    (
        *b"\x01\0\0\x01\x03\0\0\0\x27\x39\xF4\xCB\x08\0\0\0",
        Err(EntryCause::BadFormat { n: 3 }),
    ),
    (
        *b"\x01\0\0\x01\x01\0\0\0\x27\x39\xF4\xCB\x08\0\0\0",
        Err(EntryCause::TooLarge { size: 16_777_217 }),
    ),
    (
        *b"\0\0\0\x01\x01\0\0\0\x27\x39\xF4\xCB\x08\0\0\0",
        Err(EntryCause::SizeDiffers {
            a: 16_777_216,
            b: 8,
        }),
    ),
    (
        *b"\x09\0\0\0\x01\0\0\0\x27\x39\xF4\xCB\x09\0\0\0",
        Err(EntryCause::BadChecksum {
            stated: 0xCBF4_3927,
            found: CRC,
        }),
    ),
];

// What is found of a payload after a name and these numbers, if they are a head.
fn judged(numbers: &[u8; 16]) -> Option<Result<(), EntryCause>> {
    let mut head = [b'0'; HEAD_LEN];
    head[40..].copy_from_slice(numbers);
    let head = first_head(&head)?;
    Some(check(&head, PAYLOAD))
}

#[test]
fn the_first_damage_is_told(rt: HostRuntime) {
    for (numbers, wanted) in JUDGED {
        assert_eq!(rt; judged(numbers), Some(*wanted));
    }
}
