// Laws of codes, for proofs above.
ghost use Rattle.std.specs.Prelude.{◌≡◌};
ghost use Rattle.state_words.specs.declared.state.State.{State};
ghost use Rattle.state_words.specs.References.{refs_of};
ghost use Rattle.driver_check.specs.Kept.{KeptStates, AgreeOn};
ghost use Rattle.driver_check.specs.Codes.{code};

/// The code of a state depends on what was created under the keys that it refers to, and on nothing else that was created.
pub fn code_by_references()
    ensures { (kept other : KeptStates) (state : State) → AgreeOn (refs_of state) kept other → code kept state ≡ code other state }
{}
