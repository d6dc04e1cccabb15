ghost use Rattle.std.specs.Prelude.{◌≡◌, IfOk};
ghost use Rattle.state_words.specs.Words.{IsOrdinaryState, words_of, key_of};
ghost use Rattle.vk_form.specs.Writes.{Writes};

use crate::state::State;
use foz_words::{Key, NoMemory, Row};
use std::alloc::Global;
use vk_form::WordWriter;

/// The words of a state: its tag, and then its fields in order. Each list, text and byte field has fewer than 2^30
/// elements.
pub fn words_of(alloc: Global, state: &State) -> Result<Row<u32>, NoMemory>
    requires { IsOrdinaryState state.now }
    ensures { IfOk result (λ row. row ≡ words_of state.now) }
{
    let mut out = WordWriter::keeping(alloc);
    put_words(state, &mut out);
    out.into_row()
}

/// The key of a state: its tag, and the hash of its words. It takes no memory.
pub fn key_of(state: &State) -> Key
    requires { IsOrdinaryState state.now }
    ensures { result ≡ key_of state.now }
{
    let mut out = WordWriter::hashing();
    put_words(state, &mut out);
    Key {
        tag: state.tag(),
        hash: out.hashed(),
    }
}

fn put_words(state: &State, out: &mut WordWriter)
    requires { IsOrdinaryState state.now }
    ensures { Writes out.old (words_of state.now) out.new }
{
    out.number(state.tag());
    state.put_fields(out);
}
