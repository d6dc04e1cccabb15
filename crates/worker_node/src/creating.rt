// What a worker does with a payload.
ghost use Rattle.std.specs.Prelude.{◌≡◌, ◌≢◌, [], ◌∷◌, None, false, IfOk, OnErr};
ghost use Rattle.worker_msg.specs.declared.msg.Msg.TheVariants.{Load, Do, Reply};
ghost use Rattle.worker_node.specs.Sessions.{IsCreated, Works};
ghost use Rattle.foz_payload.specs.declared.unreadable.Unreadable.TheVariants.{Memory};

use driver_check::Driver;
use foz_payload::{Unreadable, state_of};
use foz_words::{Key, NoMemory};
use std::alloc::Global;
use std::mem::drop;

// The answer to a Do after a Load that created nothing, and that to a Do that is no state.
const AFTER_FAILED_LOAD: u32 = 200;

const NOT_READ: u32 = 201;

/// Creates the object of a payload, and answers the driver's code. It is `None` exactly where the payload is no state.
fn create<R: Driver>(
    alloc: Global,
    driver: &mut R,
    key: Key,
    payload: &[u8],
) -> Result<Option<u32>, NoMemory>
    ensures ok { IfOk result (λ code. IsCreated R.creates (R.meaning driver.old) key payload.now code (R.meaning driver.new)) }
    ensures err { OnErr result (R.meaning driver.new ≡ R.meaning driver.old) }
{
    match state_of(alloc, key, payload) {
        Ok(state) => {
            let code = driver.create(alloc, key, state)?;
            Ok(Some(code))
        }
        Err(cause) => not_created(cause),
    }
}

/// What a payload answers that can't be read: nothing, but for running out of memory.
fn not_created(cause: Unreadable) -> Result<Option<u32>, NoMemory>
    ensures { IfOk result (λ code. (code ≡ None) × (cause ≢ Memory)) }
{
    let lacks_memory = matches!(cause, Unreadable::Memory);
    drop(cause);
    if lacks_memory {
        Err(NoMemory)
    } else {
        Ok(None)
    }
}

/// Works off a Load, and answers whether the next Do is refused after it.
pub(crate) fn load<R: Driver>(
    alloc: Global,
    driver: &mut R,
    marked: bool,
    key: Key,
    payload: &[u8],
) -> Result<bool, NoMemory>
    ensures ok { IfOk result (λ now_marked. Works R.creates (record { marked = marked; meaning = R.meaning driver.old }) (Load key payload.now) [] (record { marked = now_marked; meaning = R.meaning driver.new })) }
    ensures err { OnErr result (R.meaning driver.new ≡ R.meaning driver.old) }
{
    let created = create(alloc, driver, key, payload)?;
    match created {
        Some(code) => { if code == 0 { Ok(marked) } else { Ok(true) } }
        None => Ok(true),
    }
}

/// Works off a Do, and answers its code.
pub(crate) fn reply_code<R: Driver>(
    alloc: Global,
    driver: &mut R,
    marked: bool,
    key: Key,
    payload: &[u8],
) -> Result<u32, NoMemory>
    ensures ok { IfOk result (λ code. Works R.creates (record { marked = marked; meaning = R.meaning driver.old }) (Do key payload.now) (Reply key code ∷ []) (record { marked = false; meaning = R.meaning driver.new })) }
    ensures err { OnErr result (R.meaning driver.new ≡ R.meaning driver.old) }
{
    if marked {
        return Ok(AFTER_FAILED_LOAD);
    }
    let created = create(alloc, driver, key, payload)?;
    match created {
        Some(code) => Ok(code),
        None => Ok(NOT_READ),
    }
}
