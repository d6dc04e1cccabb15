//! Laws of the definitions.
ghost use Rattle.std.specs.Prelude.{◌≡◌, ◌<◌, ◌≤◌, ℕ, List, [], ◌∷◌, ◌++◌, true, length, take};
ghost use Rattle.foz_words.specs.declared.key.Key.{Key};
ghost use Rattle.foz_entry.specs.declared.cut.Entry.{Entry};
ghost use Rattle.foz_entry.specs.Entries.{is_undamaged};
ghost use Rattle.record_words.specs.declared.note.FullNote.{FullNote};
ghost use Rattle.record_words.specs.declared.state.RecorderState.{RecorderState};
ghost use Rattle.record_words.specs.Story.{At, AreApart, Answers, Legal, leads};
ghost use Rattle.record_words.specs.Recorded.{Line, Answer, AreAnswers, Recorded, read, replied};
ghost use Rattle.record_words.specs.Alone.{entries_alone, answers_alone};
ghost use Rattle.record_words.specs.Placed.{TellsEachLine, answers_told};
ghost use Rattle.record_words.specs.Added.{Element, AllStay, added_to, fresh, laid};

/// A story of one recorder, in which each line of a capture has its call, makes a record of the lines, whatever the
/// order in which the threads came to record. Each answer has the reply of the line's own call.
pub fn stories_make_records<Cause>()
    ensures recorded { (origin : RecorderState) (story : List FullNote) (lines : List (Line Cause)) (threads : ℕ) (seat place : ℕ → ℕ)
        → TellsEachLine origin story lines threads seat place
        → AreAnswers origin.entries lines threads (leads origin story).entries (answers_told origin story lines place) }
    ensures by_the_calls { (origin : RecorderState) (story : List FullNote) (lines : List (Line Cause)) (threads : ℕ) (seat place : ℕ → ℕ)
        → (given : TellsEachLine origin story lines threads seat place) → (k : ℕ) (key : Key) (payload : List ℕ) (at : At lines k (read key payload))
        → At (answers_told origin story lines place) k (replied (given.placed.calls k key payload at).note.note.reply (length (leads origin (take (place k) story)).entries)) }
{}

/// With one thread a record is a function of the entries before and of the lines.
pub fn one_thread_has_one_record<Cause>()
    ensures { (text_of : List (Line Cause) → List (Answer Cause) → ℕ → List ℕ) (before later other : List Entry) (lines : List (Line Cause)) (text written : List ℕ)
        → Recorded text_of before lines 1 later text → Recorded text_of before lines 1 other written → (later ≡ other) × (text ≡ written) }
{}

/// Recording the lines in order is a record of one thread, the only one, and adds no key that is held already.
pub fn lines_in_order_make_a_record<Cause>()
    ensures recorded { (before : List Entry) (lines : List (Line Cause)) → AreAnswers before lines 1 (entries_alone before lines) (answers_alone before lines) }
    ensures only { (before later : List Entry) (lines : List (Line Cause)) (answers : List (Answer Cause)) → AreAnswers before lines 1 later answers
        → (answers ≡ answers_alone before lines) × (later ≡ entries_alone before lines) }
    ensures apart { (before : List Entry) (lines : List (Line Cause)) → AreApart before (entries_alone before lines) }
{}

/// What a legal story adds is undamaged, and no key is added that is held already. Stories are legal from their beginning
/// on, and stay legal with each further answer.
pub fn stories_add_each_key_once()
    ensures apart { (origin : RecorderState) (story : List FullNote) → Legal origin story → AreApart origin.entries (leads origin story).entries }
    ensures sound { (origin : RecorderState) (story : List FullNote) → Legal origin story → (i : ℕ) (x : Entry) → length origin.entries ≤ i
        → At (leads origin story).entries i x → is_undamaged x ≡ true }
    ensures begins { (origin : RecorderState) (story more : List FullNote) → Legal origin (story ++ more) → Legal origin story }
    ensures goes_on { (origin : RecorderState) (story : List FullNote) (n : FullNote) → Legal origin story → Answers (leads origin story) n → Legal origin (story ++ n ∷ []) }
{}

/// Where nothing is refused, recording elements in order adds those whose key is held neither before nor by an element
/// before it.
pub fn what_is_added_is_fresh()
    ensures { (before : List Entry) (elements : List Element) → AllStay before elements → added_to before elements ≡ laid before (fresh before elements) }
{}
