//! A law of what several threads recorded.
ghost use Rattle.std.specs.Prelude.{ℕ, List};
ghost use Rattle.foz_entry.specs.declared.cut.Entry.{Entry};
ghost use Rattle.record_words.specs.Story.{AreApart};
ghost use Rattle.record_words.specs.Recorded.{Line, Answer, AreAnswers};

use record_words::keys_are_compared;

/// However many threads recorded lines, no key was added that is held already.
pub fn records_add_each_key_once<Cause>()
    ensures { (before later : List Entry) (lines : List (Line Cause)) (threads : ℕ) (answers : List (Answer Cause)) → AreAnswers before lines threads later answers → AreApart before later }
{
    keys_are_compared();
}
