//! Laws of keys that are looked up among entries.
ghost use Rattle.std.specs.Prelude.{◌≡◌, ◌<◌, ◌⊎◌, ℕ, Bool, true, false, if◌then◌else◌, List, [], ◌∷◌, ◌++◌, length, Option, Some, None, is_some, is_ok};
ghost use Rattle.foz_words.specs.declared.key.Key.{Key};
ghost use Rattle.foz_words.specs.Key.{is_key};
ghost use Rattle.foz_entry.specs.declared.cut.Entry.{Entry};
ghost use Rattle.foz_entry.specs.Damage.{damage, ok_unless};
ghost use Rattle.foz_entry.specs.Entries.{is_undamaged};
ghost use Rattle.record_words.specs.Entries.{holder};
ghost use Rattle.record_words.specs.Index.{IsIndexOf, AreKeysHeld, Puts, IsFirstOfKey};

/// Keys are compared field by field.
pub fn keys_are_compared()
    ensures same { (a b : Key) → is_key a b ≡ true → a ≡ b }
    ensures itself { (a : Key) → is_key a a ≡ true }
    ensures turned { (a b : Key) → is_key a b ≡ is_key b a }
{}

/// A holder stands among the entries. An entry after them holds its key where it is the first of it, and else adds no
/// holder.
pub fn first_of_its_key_holds_it()
    ensures none { (key : Key) → holder key [] ≡ None }
    ensures there { (key : Key) (entries : List Entry) (place : ℕ) → holder key entries ≡ Some place → place < length entries }
    ensures first { (before : List Entry) (entry : Entry) → IsFirstOfKey before entry
        → (key : Key) → holder key (before ++ entry ∷ []) ≡ (if is_key entry.head.key key then Some (length before) else holder key before) }
    ensures damaged { (before : List Entry) (entry : Entry) → is_undamaged entry ≡ false → (key : Key) → holder key (before ++ entry ∷ []) ≡ holder key before }
    ensures held { (before : List Entry) (entry : Entry) → is_some (holder entry.head.key before) ≡ true → (key : Key) → holder key (before ++ entry ∷ []) ≡ holder key before }
    ensures checked { (entry : Entry) → is_ok (ok_unless (damage entry.head entry.payload)) ≡ is_undamaged entry }
{}

/// An index of entries is one of those with an entry more: as it is, where that one is damaged or its key is held, and
/// else with the entry's place put under its key.
pub fn indexes_grow()
    ensures none { (look_up : Key → Option ℕ) → ((key : Key) → look_up key ≡ None) → IsIndexOf look_up [] }
    ensures damaged { (look_up : Key → Option ℕ) (before : List Entry) (entry : Entry) → IsIndexOf look_up before → is_undamaged entry ≡ false → IsIndexOf look_up (before ++ entry ∷ []) }
    ensures held { (look_up : Key → Option ℕ) (before : List Entry) (entry : Entry) → IsIndexOf look_up before → is_some (look_up entry.head.key) ≡ true → IsIndexOf look_up (before ++ entry ∷ []) }
    ensures first { (old new : Key → Option ℕ) (before : List Entry) (entry : Entry) (place : ℕ) → IsIndexOf old before → is_undamaged entry ≡ true → old entry.head.key ≡ None
        → length before ≡ place → Puts old new entry.head.key (Some place) → IsIndexOf new (before ++ entry ∷ []) }
{}

/// The keys that are held, with an entry more: as they are, where that one is damaged, and else with its key.
pub fn keys_held_grow()
    ensures none { (is_among : Key → Bool) → ((key : Key) → is_among key ≡ false) → AreKeysHeld is_among [] }
    ensures damaged { (is_among : Key → Bool) (before : List Entry) (entry : Entry) → AreKeysHeld is_among before → is_undamaged entry ≡ false → AreKeysHeld is_among (before ++ entry ∷ []) }
    ensures undamaged { (old new : Key → Bool) (before : List Entry) (entry : Entry) → AreKeysHeld old before → is_undamaged entry ≡ true → Puts old new entry.head.key true → AreKeysHeld new (before ++ entry ∷ []) }
{}
