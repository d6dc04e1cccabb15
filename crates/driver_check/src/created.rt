ghost use Rattle.std.specs.Prelude.{◌≡◌};
ghost use Rattle.driver_check.specs.Offers.{entries_offered, subpasses_offered};

use foz_words::Row;
use spirv_check::EntryPoint;
use state_words::State;
use std::marker::Model;
use vk_pass::Subpass;

/// A state with the code 0, and of a module the entry points that were found in its code. Contracts see the state.
#[derive(Drop)]
pub(crate) struct Created {
    state: State,
    entries: Row<EntryPoint>,
}

impl Model for Created {
    ghost use Rattle.std.specs.Prelude.{◌≡◌};
    ghost use Rattle.state_words.specs.declared.state.State.{State};
    ghost use Rattle.driver_check.specs.Offers.{entries_offered};

    ghost Value = { State };

    ghost view = { λ created. created.state };

    ghost invariant = { λ created. created.entries ≡ entries_offered created.state };
}

impl Created {
    pub(crate) fn new(state: State, entries: Row<EntryPoint>) -> Created
        requires { entries ≡ entries_offered state }
        ensures { result ≡ state }
    {
        Created { state, entries }
    }

    /// The entry points of a module.
    pub(crate) fn entries(&self) -> &[EntryPoint]
        ensures { result.now ≡ entries_offered self.now }
    {
        self.entries.as_slice()
    }

    /// The subpasses of a render pass.
    pub(crate) fn subpasses(&self) -> &[Subpass]
        ensures { result.now ≡ subpasses_offered self.now }
    {
        match &self.state {
            State::RenderPass(pass) => pass.subpasses.as_slice(),
            _ => &[],
        }
    }
}
