//! States that a driver is given in turn, and the codes that it answers. Each state is made where it is given away.
ghost use Rattle.std.specs.Prelude.{◌≡◌};
ghost use Rattle.state_words.specs.Plain.{tag_of};

use super::*;
use foz_words::{Key, NoMemory, Row};
use state_words::State;
use std::alloc::Global;
use vk_basic::{SetLayout, ShaderModule};

fn module_of_no_words(alloc: Global) -> State
    ensures { tag_of result ≡ 4 }
{
    State::ShaderModule(ShaderModule {
        flags: 0,
        code: Row::new(alloc),
    })
}

fn empty_layout(alloc: Global) -> State
    ensures { tag_of result ≡ 2 }
{
    State::SetLayout(SetLayout {
        flags: 0,
        bindings: Row::new(alloc),
    })
}

fn module_code(alloc: Global, driver: &mut CheckDriver) -> Result<u32, NoMemory> {
    driver.create(alloc, Key { tag: 4, hash: 9 }, module_of_no_words(alloc))
}

fn layout_code(alloc: Global, driver: &mut CheckDriver) -> Result<u32, NoMemory> {
    driver.create(alloc, Key { tag: 2, hash: 9 }, empty_layout(alloc))
}

/// What a new driver answers to a module of no words, and then to an empty layout.
fn codes(alloc: Global) -> (Result<u32, NoMemory>, Result<u32, NoMemory>) {
    let mut driver = CheckDriver::new(alloc);
    let module = module_code(alloc, &mut driver);
    let layout = layout_code(alloc, &mut driver);
    (module, layout)
}

#[test]
fn a_module_of_no_words_is_refused_and_an_empty_layout_is_not(rt: HostRuntime) {
    assert_eq!(rt; codes(rt.alloc()), (Ok(15), Ok(0)));
}
