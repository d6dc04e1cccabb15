//! Laws of the definitions.
ghost use Rattle.std.specs.Prelude.{◌≡◌, ◌≤◌, ℕ, List, length, All, None};
ghost use Rattle.foz_words.specs.declared.key.Key.{Key};
ghost use Rattle.foz_entry.specs.Damage.{damage};
ghost use Rattle.foz_entry.specs.Entries.{end_of, entry_of};
ghost use Rattle.foz_entry.specs.Limits.{payload_limit, end_limit, count_limit};
ghost use Rattle.foz_entry.specs.declared.cut.Entry.{Entry};
ghost use Rattle.foz_archive.specs.declared.scanned.Scanned.{Scanned};
ghost use Rattle.foz_archive.specs.declared.refusal.ArchiveError.{ArchiveError};
ghost use Rattle.foz_archive.specs.Reading.{IsAcceptedAs, IsReadingAs, Holds};
ghost use Rattle.foz_archive.specs.Refusal.{IsRefusedAs};

/// A file has at most one reading or at most one reason why it is refused, and never both. So what `scan` answers is
/// all that it may answer, but for running out of memory.
pub fn readings_are_unique()
    ensures one_reading { (versions file : List ℕ) (first second : Scanned) → IsReadingAs versions file first → IsReadingAs versions file second → first ≡ second }
    ensures one_refusal { (versions file : List ℕ) (first second : ArchiveError) → IsRefusedAs versions file first → IsRefusedAs versions file second → first ≡ second }
    ensures never_both { (versions file : List ℕ) (scanned : Scanned) (error : ArchiveError) → IsReadingAs versions file scanned → IsRefusedAs versions file error → ⊥ }
    ensures one_content { (file : List ℕ) (first second : List Entry) → Holds file first → Holds file second → first ≡ second }
{}

/// What follows from it that some file is an archive of these entries.
pub fn entries_are_bounded()
    ensures end { (versions file : List ℕ) (entries : List Entry) (end : ℕ) → IsAcceptedAs versions file entries end → end ≡ end_of entries }
    ensures within { (versions file : List ℕ) (entries : List Entry) (end : ℕ) → IsAcceptedAs versions file entries end → end ≤ length file }
    ensures near { (versions file : List ℕ) (entries : List Entry) (end : ℕ) → IsAcceptedAs versions file entries end → end ≤ end_limit }
    ensures few { (versions file : List ℕ) (entries : List Entry) (end : ℕ) → IsAcceptedAs versions file entries end → length entries ≤ count_limit }
    ensures sized { (versions file : List ℕ) (entries : List Entry) (end : ℕ) → IsAcceptedAs versions file entries end
        → All (λ (entry : Entry). length entry.payload ≡ entry.head.size) entries }
{}

/// The entry that a push adds is undamaged.
pub fn pushed_entries_are_undamaged()
    ensures { (place : ℕ) (key : Key) (payload : List ℕ) → length payload ≤ payload_limit → damage (entry_of place key payload).head payload ≡ None }
{}
