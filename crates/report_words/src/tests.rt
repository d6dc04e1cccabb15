//! The words as they are printed.
use crate::{Damage, Hash, field_word};
use foz_entry::EntryCause;
use json_fold::FieldCause;
use std::test::Fail;

#[test]
fn hashes_have_sixteen_digits(rt: HostRuntime) -> Result<(), Fail> {
    let alloc = rt.alloc();
    let table = [
        (0, "0000000000000000"),
        (0xAB, "00000000000000ab"),
        (0xFEFC_3737_BEE2_7F5E, "fefc3737bee27f5e"),
    ];
    for (hash, digits) in table {
        let hash = Hash(hash);
        let text = format!(in alloc; "{hash}")?;
        assert_eq!(rt; text.as_str(), digits);
    }
    Ok(())
}

#[test]
fn damages_have_words(rt: HostRuntime) -> Result<(), Fail> {
    let alloc = rt.alloc();
    let table = [
        (EntryCause::Deflate, "deflate"),
        (EntryCause::BadFormat { n: 3 }, "format 3"),
        (EntryCause::TooLarge { size: 16_777_217 }, "too large"),
        (EntryCause::SizeDiffers { a: 9, b: 8 }, "sizes 9 8"),
        (
            EntryCause::BadChecksum {
                stated: 0xCBF4_3927,
                found: 0x26,
            },
            "checksum cbf43927 00000026",
        ),
    ];
    for (cause, words) in table {
        let damage = Damage(cause);
        let text = format!(in alloc; "{damage}")?;
        assert_eq!(rt; text.as_str(), words);
    }
    Ok(())
}

#[test]
fn causes_of_members_have_words(rt: HostRuntime) -> Result<(), Fail> {
    let table = [
        (FieldCause::HasPNext, "pnext"),
        (FieldCause::NotNumber, "number"),
        (FieldCause::TooLarge, "large"),
        (FieldCause::NotUnit, "unit"),
        (FieldCause::NotText, "text"),
        (FieldCause::NotList, "list"),
        (FieldCause::NotObject, "object"),
        (FieldCause::BadLength, "length"),
        (FieldCause::BadHash, "hash"),
        (FieldCause::BadBase64, "base64"),
    ];
    for (cause, word) in table {
        assert_eq!(rt; field_word(cause), word);
    }
    Ok(())
}
