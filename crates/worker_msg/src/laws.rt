// Laws of frames and feeds, for proofs above.
ghost use Rattle.std.specs.Prelude.{◌≡◌, ◌<◌, ◌++◌, ℕ, List, length};
ghost use Rattle.worker_msg.specs.Frames.{Sent, spelling};
ghost use Rattle.worker_msg.specs.Fronts.{IsPartial, IsBad};
ghost use Rattle.worker_msg.specs.Feeds.{Feeding};
ghost use Rattle.worker_msg.specs.Streams.{Fed, HasNone, Splits, row_of};
ghost use Rattle.worker_msg.specs.declared.msg.Msg.{Msg};
ghost use Rattle.worker_msg.specs.declared.side.Side.{Side};
ghost use Rattle.worker_msg.specs.declared.side.Side.TheVariants.{Crew};

/// However a stream was cut into pieces, and whenever messages were taken: those messages, spelled in a row, and the bytes
/// that are kept are the bytes that were given.
pub fn any_pieces()
    ensures split { (side : Side) (given : List ℕ) (messages : List Msg) (feed : Feeding) → Fed side given messages feed → Splits side given messages feed.kept }
    ensures place { (side : Side) (given : List ℕ) (messages : List Msg) (feed : Feeding) → Fed side given messages feed → feed.place ≡ length (row_of messages) }
{}

/// A stream is one row of messages, up to where no further one stands.
pub fn one_split()
    ensures { (side : Side) (stream : List ℕ) (messages others : List Msg) (rest left : List ℕ) →
        Splits side stream messages rest → HasNone side rest → Splits side stream others left → HasNone side left →
        (messages ≡ others) × (rest ≡ left) }
{}

/// One message stands at the beginning, or the beginning of one, or a bad frame at one place, and nothing else beside it.
pub fn one_front()
    ensures message { (side : Side) (message other : Msg) (x y : List ℕ) → Sent side message → Sent side other →
        spelling message ++ x ≡ spelling other ++ y → (message ≡ other) × (x ≡ y) }
    ensures partial { (side : Side) (message : Msg) (x : List ℕ) → Sent side message → IsPartial side (spelling message ++ x) → ⊥ }
    ensures bad { (side : Side) (message : Msg) (x : List ℕ) (place : ℕ) → Sent side message → IsBad side (spelling message ++ x) place → ⊥ }
    ensures either { (side : Side) (bytes : List ℕ) (place : ℕ) → IsPartial side bytes → IsBad side bytes place → ⊥ }
    ensures place { (side : Side) (bytes : List ℕ) (place other : ℕ) → IsBad side bytes place → IsBad side bytes other → place ≡ other }
{}

/// Whatever comes after a bad frame, it stays one, at the same place.
pub fn bad_stays_bad()
    ensures { (side : Side) (bytes more : List ℕ) (place : ℕ) → IsBad side bytes place → IsBad side (bytes ++ more) place }
{}

/// The beginning of a frame that a crew takes is shorter than a Reply: so what a crew's feed lacks of one fits its room.
pub fn crew_frames_are_short()
    ensures { (bytes : List ℕ) → IsPartial Crew bytes → length bytes < 21 }
{}
