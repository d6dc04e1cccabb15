ghost use Rattle.std.specs.Prelude.{◌≡◌};
ghost use Rattle.foz_crc.specs.Crc32.{crc32_of};
ghost use Rattle.foz_entry.specs.Damage.{damage, checksum_damage, ok_unless};

use crate::cut::Cut;
use crate::limits::PAYLOAD_LIMIT;
use foz_crc::crc32;

/// The format of a payload that is stored as it is.
pub(crate) const STORED: u32 = 1;

/// The format of a payload that is compressed by deflate, which is listed and never read.
const DEFLATE: u32 = 2;

/// Why an entry is damaged.
#[derive(Clone, Copy, Debug, PartialEq, Eq)]
pub enum EntryCause {
    Deflate,
    BadFormat { n: u32 },
    /// The payload has so many bytes, more than [`PAYLOAD_LIMIT`].
    TooLarge { size: u64 },
    SizeDiffers { a: u32, b: u32 },
    BadChecksum { stated: u32, found: u32 },
}

/// The first damage of an entry, in the order of the causes. A checksum of 0 isn't looked at.
pub fn check(head: &Cut, payload: &[u8]) -> Result<(), EntryCause>
    ensures { result ≡ ok_unless (damage head.now payload.now) }
{
    if head.format == DEFLATE {
        return Err(EntryCause::Deflate);
    }
    if head.format != STORED {
        return Err(EntryCause::BadFormat { n: head.format });
    }
    if head.size > PAYLOAD_LIMIT {
        return Err(EntryCause::TooLarge {
            size: u64::from(head.size),
        });
    }
    if head.size != head.uncompressed {
        return Err(EntryCause::SizeDiffers {
            a: head.size,
            b: head.uncompressed,
        });
    }
    check_sum(head.crc, payload)
}

fn check_sum(stated: u32, payload: &[u8]) -> Result<(), EntryCause>
    ensures { result ≡ ok_unless (checksum_damage stated (crc32_of payload.now)) }
{
    if stated == 0 {
        return Ok(());
    }
    let found = crc32(payload);
    if stated == found {
        Ok(())
    } else {
        Err(EntryCause::BadChecksum { stated, found })
    }
}
