ghost use Rattle.std.specs.Prelude.{Some};
ghost use Rattle.report_words.specs.Words.{damage_words};

use crate::digits::Checksum;
use foz_entry::EntryCause;
use std::fmt;

/// Why an entry is damaged, as it is printed.
#[derive(Clone, Copy)]
pub struct Damage(pub EntryCause);

impl fmt::Display for Damage {
    ghost output = { λ damage. Some (damage_words damage.0) };

    fn fmt<W: fmt::Write>(&self, f: &mut fmt::Formatter<W>) -> fmt::Result {
        match self.0 {
            EntryCause::Deflate => write!(f, "deflate"),
            EntryCause::BadFormat { n } => write!(f, "format {n}"),
            EntryCause::TooLarge { size: _ } => write!(f, "too large"),
            EntryCause::SizeDiffers { a, b } => write!(f, "sizes {a} {b}"),
            EntryCause::BadChecksum { stated, found } => {
                let (stated, found) = (Checksum(stated), Checksum(found));
                write!(f, "checksum {stated} {found}")
            }
        }
    }
}
