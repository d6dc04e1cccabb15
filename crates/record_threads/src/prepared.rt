ghost use Rattle.std.specs.Prelude.{◌≡◌, IfOk};
ghost use Rattle.state_words.specs.Words.{IsOrdinaryState, key_of};
ghost use Rattle.foz_payload.specs.Payload.{payload};

use foz_payload::payload_of;
use foz_words::{Key, NoMemory, Row};
use state_words::{State, key_of};
use std::alloc::Global;

/// What a recorder asks of a state: its key and its payload.
#[derive(Debug, Drop)]
pub struct Prepared {
    pub key: Key,
    pub payload: Row<u8>,
}

/// The key and the payload of a state, each list, text and byte field of which has fewer than 2^30 elements. It waits for
/// nobody, so threads prepare side by side.
pub fn prepare(alloc: Global, state: &State) -> Result<Prepared, NoMemory>
    requires { IsOrdinaryState state.now }
    ensures { IfOk result (λ prepared. (prepared.key ≡ key_of state.now) × (prepared.payload ≡ payload state.now)) }
{
    Ok(Prepared {
        key: key_of(state),
        payload: payload_of(alloc, state)?,
    })
}
