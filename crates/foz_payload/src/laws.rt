ghost use Rattle.std.specs.Prelude.{◌≡◌, ◌^◌, ◌<◌, ◌≤◌, ℕ, List, length, Result, Ok};
ghost use Rattle.foz_words.specs.declared.key.Key.{Key};
ghost use Rattle.state_words.specs.declared.state.State.{State};
ghost use Rattle.state_words.specs.References.{refs_of};
ghost use Rattle.state_words.specs.Words.{IsOrdinaryState, key_of};
ghost use Rattle.foz_payload.specs.Held.{IsHeld, IsReadAgain, json_of};
ghost use Rattle.foz_payload.specs.Payload.{payload};
ghost use Rattle.foz_payload.specs.Meaning.{Means};
ghost use Rattle.foz_payload.specs.declared.unreadable.Unreadable.{Unreadable};

/// A key and a payload have one meaning. The state of a payload of fewer than 2^30 bytes has fewer than 2^30 elements in
/// each list, text and byte field, and refers to fewer than 2^30 states. A state's payload of at most 16,777,216 bytes means
/// the state under its key, where its JSON text is read again by `serde_json`.
pub fn one_meaning()
    ensures alone { (key : Key) (payload : List ℕ) (answer other : Result State Unreadable) → Means key payload answer → Means key payload other → answer ≡ other }
    ensures ordinary { (key : Key) (payload : List ℕ) (state : State) → Means key payload (Ok state) → length payload < 2 ^ 30 → IsOrdinaryState state }
    ensures few { (key : Key) (payload : List ℕ) (state : State) → Means key payload (Ok state) → length payload < 2 ^ 30 → length (refs_of state) < 2 ^ 30 }
    ensures read_back { (state : State) → IsHeld state → IsReadAgain (json_of state) → length (payload state) ≤ 16_777_216 → Means (key_of state) (payload state) (Ok state) }
{}
