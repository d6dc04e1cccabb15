//! Laws of the definitions.
ghost use Rattle.std.specs.Prelude.{◌≡◌, ℕ, List, Some, false};
ghost use Rattle.foz_words.specs.declared.key.Key.{Key};
ghost use Rattle.record_words.specs.declared.note.RecordReply.{RecordReply};
ghost use Rattle.record_words.specs.declared.state.RecorderState.{RecorderState};
ghost use Rattle.record_words.specs.Alone.{after_record};
ghost use Rattle.record_words.specs.Recorder.{reply_of};
ghost use Rattle.record_dedup.specs.Steps.{IsStep};

/// A step of a recorder that isn't broken replies by its entries alone, and the entries after it follow from them.
pub fn steps_follow_the_entries()
    ensures { (s t : RecorderState) (key : Key) (payload : List ℕ) (reply : RecordReply) → s.broken ≡ false → IsStep s key payload (Some reply) t
        → (reply ≡ reply_of s.entries key payload) × (t.entries ≡ after_record s.entries key payload) }
{}
