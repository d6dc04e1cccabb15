ghost use Rattle.std.specs.Prelude.{ℕ, ◌≡◌, ◌≤◌, ◌++◌, List};
ghost use Rattle.disk_model.specs.Faults.{Rose};
ghost use Rattle.worker_msg.specs.Frames.{spelling};
ghost use Rattle.worker_msg.specs.declared.msg.Msg.TheVariants.{Hello};
ghost use Rattle.worker_node.specs.Ends.{IsEnd, IsToEnd};
ghost use Rattle.worker_node.specs.Steps.{IsServedBehind};
ghost use Rattle.worker_node.specs.declared.served.Served.TheVariants.{ReadFault, WriteFault};

use crate::served::Served;
use crate::working::work_off;
use disk_model::{Failed, Sink, Source, write_all};
use driver_check::Driver;
use std::alloc::Global;
use worker_msg::{Feed, Side, hello_frame};

// How many bytes are asked for in one call of the source.
const PIECE: usize = 65_536;

/// Serves a source of frames: writes a Hello, and then works off each message, up to a Quit. A Load calls the driver for its
/// state. After a Load that created nothing the next Do is answered 200, without the driver; another Do is answered by the
/// driver's code, or 201 where its payload is no state.
pub fn serve<I: Source, O: Sink, R: Driver>(
    alloc: Global,
    source: &mut I,
    sink: &mut O,
    driver: &mut R,
) -> Served
    // Where the source and the sink tell their bytes: what was taken is a session, and what was written is all that it
    // writes, or a prefix of that.
    ensures session { I.tells → O.tells → (taken : List ℕ) × (I.left source.old ≡ taken ++ I.left source.new)
        × IsServedBehind R.creates (R.meaning driver.old) (O.written sink.old) taken (O.written sink.new) (R.meaning driver.new) result }
    // What the frames come to.
    ensures end { I.tells → IsToEnd result → (taken : List ℕ) × (I.left source.old ≡ taken ++ I.left source.new) × IsEnd taken (I.left source.new) result }
    ensures read_fault { result ≡ ReadFault → Rose (I.faults source.old) (I.faults source.new) }
    ensures write_fault { result ≡ WriteFault → Rose (O.faults sink.old) (O.faults sink.new) }
    ensures later { (I.faults source.old ≤ I.faults source.new) × (O.faults sink.old ≤ O.faults sink.new) }
{
    match write_all(sink, &hello_frame()) {
        Ok(()) => serve_pieces(alloc, source, sink, driver),
        Err(Failed) => Served::WriteFault,
    }
}

/// Serves a source after the Hello.
fn serve_pieces<I: Source, O: Sink, R: Driver>(
    alloc: Global,
    source: &mut I,
    sink: &mut O,
    driver: &mut R,
) -> Served
    ensures session { I.tells → O.tells → (start : List ℕ) → O.written sink.old ≡ start ++ spelling Hello → (taken : List ℕ) × (I.left source.old ≡ taken ++ I.left source.new)
        × IsServedBehind R.creates (R.meaning driver.old) start taken (O.written sink.new) (R.meaning driver.new) result }
    ensures end { I.tells → IsToEnd result → (taken : List ℕ) × (I.left source.old ≡ taken ++ I.left source.new) × IsEnd taken (I.left source.new) result }
    ensures read_fault { result ≡ ReadFault → Rose (I.faults source.old) (I.faults source.new) }
    ensures write_fault { result ≡ WriteFault → Rose (O.faults sink.old) (O.faults sink.new) }
    ensures later { (I.faults source.old ≤ I.faults source.new) × (O.faults sink.old ≤ O.faults sink.new) }
{
    let Ok(mut buffer) = vec![in alloc; 0_u8; PIECE] else {
        return Served::Memory;
    };
    let piece = buffer.as_mut_slice();
    let mut feed = Feed::new(alloc, Side::Worker);
    let mut marked = false;
    'pieces: loop {
        let given = match source.read(piece) {
            Ok(given) => given,
            Err(Failed) => return Served::ReadFault,
        };
        if given == 0 {
            return Served::InputEnded { left: feed.left() };
        }
        let Ok(()) = feed.push(&piece[..given]) else {
            return Served::Memory;
        };
        let came_to = match work_off(alloc, &mut feed, sink, driver, &mut marked) {
            Ok(came_to) => came_to,
            Err(stopped) => return stopped.served(),
        };
        match came_to {
            Some(end) => return end.served(),
            None => {}
        }
    }
}
