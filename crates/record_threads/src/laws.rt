//! Laws of the definitions.
ghost use Rattle.std.specs.Prelude.{◌≡◌, ◌≢◌, ◌⊎◌, ℕ, ◌+◌, ◌%◌, ◌<◌, ◌==◌, if◌then◌else◌, List, [], ◌∷◌, ◌++◌, length, map, All, Some};
ghost use mathlib.Core.List.{IsPrefix};
ghost use Rattle.foz_words.specs.declared.key.Key.{Key};
ghost use Rattle.record_words.specs.declared.note.FullNote.{FullNote};
ghost use Rattle.record_words.specs.declared.note.RecordCall.TheVariants as calls_made;
ghost use Rattle.record_words.specs.declared.note.RecordReply.{RecordReply};
ghost use Rattle.record_words.specs.declared.state.RecorderState.{RecorderState};
ghost use Rattle.record_words.specs.Story.{At, Answers, Records, Legal, leads};
ghost use Rattle.record_words.specs.Recorded.{Line, read};
ghost use Rattle.turn_desk.specs.declared.view.Joined.{Joined};
ghost use Rattle.turn_desk.specs.declared.view.View.{View};
ghost use Rattle.turn_desk.specs.Story.{Adds, IsJoined, notes_of};
ghost use Rattle.record_dedup.specs.Kept.{Booked, recorder_of};
ghost use Rattle.record_threads.specs.Ties.{IsTied, IsRecordNote, IsFlushNote};
ghost use Rattle.record_threads.specs.Calls.{seat_of, HasNoted};
ghost use Rattle.record_threads.specs.Threads.{Call, HasCalls, TellsThreads, AreAnsweredByCalls, reads_of};

use record_words::stories_make_records;

/// A call's note tells of the payload that was given what decides the reply, and so all of the note.
pub fn ties_tell_the_payload()
    ensures tied { (s : RecorderState) (key : Key) (given : List ℕ) (n : FullNote) → Records s key given n → IsTied s.entries given n }
    ensures records { (s : RecorderState) (key : Key) (given : List ℕ) (n : FullNote) → Answers s n → n.note.call ≡ calls_made.Record key → IsTied s.entries given n → Records s key given n }
{}

/// What a thread knows of its seat: which calls that record it has made. A new seat has made none. A call adds itself, and
/// a flush, a refusal for running out of memory and the notes of others add nothing. A seat that was joined has in the whole story
/// the calls that it had in what it had seen.
pub fn seats_have_their_calls<D>()
    ensures none { (origin : RecorderState) (story : List FullNote) (number : ℕ) → notes_of seat_of number story ≡ [] → HasCalls origin story number [] }
    ensures call { (before later : View FullNote (Booked D)) (key : Key) (payload : List ℕ) (reply : RecordReply) (origin : Booked D) (calls : List Call) → HasNoted before (IsRecordNote key payload reply) later
        → before.origin ≡ Some origin → HasCalls (recorder_of origin) before.seen before.number calls
        → HasCalls (recorder_of origin) later.seen before.number (calls ++ record { key = key; payload = payload; reply = reply } ∷ []) }
    ensures flush { (before later : View FullNote (Booked D)) (reply : RecordReply) (origin : RecorderState) (calls : List Call) → HasNoted before (IsFlushNote reply) later
        → HasCalls origin before.seen before.number calls → HasCalls origin later.seen before.number calls }
    ensures refused { (before later : View FullNote (Booked D)) (origin : RecorderState) (calls : List Call) → Adds seat_of before [] later
        → HasCalls origin before.seen before.number calls → HasCalls origin later.seen before.number calls }
    ensures joined { (origin : RecorderState) (seen story : List FullNote) (number : ℕ) (calls : List Call) → IsPrefix seen story → notes_of seat_of number story ≡ notes_of seat_of number seen
        → HasCalls origin seen number calls → HasCalls origin story number calls }

    // Where the root has recorded nothing, each call that records is a joined seat's.
    ensures nobody_else { (origin : RecorderState) (story : List FullNote) (joined : List (Joined FullNote)) → All (λ n. (seat_of n ≡ 0) ⊎ IsJoined joined (seat_of n)) story → HasCalls origin story 0 []
        → (place : ℕ) (n : FullNote) (key : Key) → At story place n → n.note.call ≡ calls_made.Record key → IsJoined joined n.note.seat }
{}

/// What several threads recorded of a capture is a record of its lines, whatever the order in which they came to record.
/// Each line that is read is answered as its thread's call was.
pub fn threads_make_records<Cause>()
    ensures recorded { (origin : RecorderState) (story : List FullNote) (lines : List (Line Cause)) (threads : ℕ) (seat : ℕ → ℕ) (calls : ℕ → List Call)
        → TellsThreads origin story lines threads seat calls → AreAnsweredByCalls origin.entries lines threads (leads origin story).entries calls }

    // One more line gives its thread what it reads, and no other thread anything.
    ensures one_more { (threads thread : ℕ) (lines : List (Line Cause)) (key : Key) (payload : List ℕ)
        → reads_of threads thread (lines ++ read key payload ∷ []) ≡ (if length lines % threads == thread then reads_of threads thread lines ++ (key, payload) ∷ [] else reads_of threads thread lines) }
    ensures passed { (threads thread : ℕ) (lines : List (Line Cause)) (line : Line Cause) → ((key : Key) (payload : List ℕ) → line ≢ read key payload)
        → reads_of threads thread (lines ++ line ∷ []) ≡ reads_of threads thread lines }
{
    stories_make_records::<Cause>();
}
