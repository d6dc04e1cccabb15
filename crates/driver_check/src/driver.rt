ghost use Rattle.std.specs.Prelude.{◌≡◌, ℕ, IfOk, OnErr};
ghost use Rattle.foz_words.specs.declared.key.Key.{Key};
ghost use Rattle.state_words.specs.declared.state.State.{State};
ghost use Rattle.state_words.specs.Plain.{tag_of};

use foz_words::{Key, NoMemory};
use state_words::State;
use std::alloc::Global;

/// Creates objects from their states.
pub trait Driver {
    // What a driver tells of the objects that it has created.
    ghost Meaning: { Type 0 };

    ghost meaning: { Self → Meaning };

    // It may answer so to this state under this key, coming from the first meaning to the last. A driver that tells
    // nothing allows everything.
    ghost creates: { Meaning → Key → State → ℕ → Meaning → Type 0 };

    /// Creates the object of a state, and answers its code, which is 0 where that succeeds. The key names it in states
    /// that refer to it. Running out of memory changes nothing.
    fn create(&mut self, alloc: Global, key: Key, state: State) -> Result<u32, NoMemory>
        requires { key.tag ≡ tag_of state }
        ensures created { IfOk result (λ code. creates (meaning self.old) key state code (meaning self.new)) }
        ensures memory { OnErr result (meaning self.new ≡ meaning self.old) };
}
