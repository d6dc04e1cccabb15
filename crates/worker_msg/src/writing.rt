ghost use Rattle.std.specs.Prelude.{◌≡◌, ◌≤◌, ◌+◌, ◌++◌, length, take, drop, OnOk, OnErr};
ghost use Rattle.worker_msg.specs.Frames.{limit, spelling, work_spelling, HasFittingPayload};

use crate::heads::{hello_frame, quit_frame, reply_frame, work_bytes};
use crate::msg::Msg;
use foz_words::{Key, NoMemory};

/// Writes the one spelling of the message at the end. An `Err` changes nothing.
pub fn write_msg(out: &mut Vec<u8>, msg: &Msg) -> Result<(), NoMemory>
    requires { HasFittingPayload msg.now }
    ensures ok { OnOk result (out.new.items ≡ out.old.items ++ spelling msg.now) }
    ensures err { OnErr result (out.new.items ≡ out.old.items) }
{
    match msg {
        Msg::Hello => push_all(out, &hello_frame()),
        Msg::Load { key, payload } => push_work(out, true, key, payload.as_slice()),
        Msg::Do { key, payload } => push_work(out, false, key, payload.as_slice()),
        Msg::Reply { key, code } => push_all(out, &reply_frame(key, *code)),
        Msg::Quit => push_all(out, &quit_frame()),
    }
}

fn push_all(out: &mut Vec<u8>, bytes: &[u8]) -> Result<(), NoMemory>
    ensures ok { OnOk result (out.new.items ≡ out.old.items ++ bytes.now) }
    ensures err { OnErr result (out.new.items ≡ out.old.items) }
{
    out.extend_from_slice(bytes)?;
    Ok(())
}

fn push_work(out: &mut Vec<u8>, load: bool, key: &Key, payload: &[u8]) -> Result<(), NoMemory>
    requires { length payload.now ≤ limit }
    ensures ok { OnOk result (out.new.items ≡ out.old.items ++ work_spelling load key.now payload.now) }
    ensures err { OnErr result (out.new.items ≡ out.old.items) }
{
    let before = out.len();
    push_all(out, &work_bytes(load, key, payload.len() as u32))?;
    match push_all(out, payload) {
        Ok(()) => Ok(()),
        Err(refused) => {
            out.truncate(before);
            Err(refused)
        }
    }
}

/// Writes the frame of a Load, where `load` is true, or of a Do at the beginning of `out`, and answers its length. It takes no
/// memory, and leaves what stands after the frame.
pub fn lay_msg(out: &mut [u8], load: bool, key: Key, payload: &[u8]) -> usize
    requires payload { length payload.now ≤ limit }
    requires room { length payload.now + 17 ≤ length out.old }
    ensures length { result ≡ length payload.now + 17 }
    ensures frame { out.new ≡ work_spelling load key payload.now ++ drop result out.old }
{
    let len = 17 + payload.len();
    out[..17].copy_from_slice(&work_bytes(load, &key, payload.len() as u32));
    out[17..len].copy_from_slice(payload);
    len
}
