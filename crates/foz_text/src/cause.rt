ghost use Rattle.std.specs.Prelude.{◌≡◌, ℕ, List, ◌++◌, OnOk, OnErr};

use foz_words::NoMemory;
use std::alloc::Global;

/// Why a line of a capture can't be read, as it is printed.
pub trait CauseText {
    /// Its words.
    ghost text: { Self → List ℕ };

    /// Adds its words. An `Err` changes nothing.
    fn push_text(&self, alloc: Global, out: &mut Vec<u8>) -> Result<(), NoMemory>
        ensures words { OnOk result (out.new.items ≡ out.old.items ++ text self.now) }
        ensures refused { OnErr result (out.new.items ≡ out.old.items) };
}
