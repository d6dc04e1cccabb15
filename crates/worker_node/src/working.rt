// Messages are worked off, as far as a feed has them.
ghost use Rattle.std.specs.Prelude.{ℕ, ◌≡◌, ◌≤◌, ◌<◌, List, false, Err, IfOk, OnOk, OnErr, MatchResult, MatchBool};
ghost use Rattle.disk_model.specs.Faults.{Rose};
ghost use Rattle.worker_msg.specs.Frames.{Sent};
ghost use Rattle.worker_msg.specs.Feeds.{given_to};
ghost use Rattle.worker_msg.specs.declared.msg.Msg.TheVariants.{Do, Quit};
ghost use Rattle.worker_msg.specs.declared.side.Side.TheVariants.{Worker};
ghost use Rattle.worker_node.specs.Steps.{IsWork, IsNext, IsWorked, IsUnworked, IsCutting, IsWorking, IsServedBehind, Reaches, IsWorkedOff, stopped_as};
ghost use Rattle.worker_node.specs.declared.ends.Stopped.TheVariants.{WriteFault};

use crate::creating::{load, reply_code};
use crate::ends::{End, Stopped};
use disk_model::{Failed, Sink, write_all};
use driver_check::Driver;
use foz_words::{Key, NoMemory};
use std::alloc::Global;
use std::mem::drop;
use worker_msg::{Feed, Msg, TakeFrame, reply_frame};

/// What stands next in the feed of a worker.
#[derive(Drop)]
enum Next {
    /// A Load or a Do.
    Message(Msg),
    /// No more than a part of a frame.
    Partial,
    Ends(End),
}

/// Is this a Load or a Do?
fn is_work(message: &Msg) -> bool
    ensures { MatchBool result (IsWork message.now) (Sent Worker message.now → message.now ≡ Quit) }
{
    match message {
        Msg::Load { .. } | Msg::Do { .. } => true,
        Msg::Hello | Msg::Reply { .. } | Msg::Quit => false,
    }
}

/// Takes the next message. An `Err` changes nothing.
fn next_work(alloc: Global, feed: &mut Feed) -> Result<Next, NoMemory>
    requires { feed.old.side ≡ Worker }
    ensures next { IfOk result (λ next. IsNext feed.old next feed.new) }
    ensures side { feed.new.side ≡ Worker }
    ensures given { given_to feed.new ≡ given_to feed.old }
{
    match feed.take(alloc) {
        Ok(None) => Ok(Next::Partial),
        Ok(Some(message)) => {
            if is_work(&message) {
                Ok(Next::Message(message))
            } else {
                drop(message);
                Ok(Next::Ends(End::Quit))
            }
        }
        Err(TakeFrame::BadFrame { at }) => Ok(Next::Ends(End::BadFrame { at })),
        Err(TakeFrame::Memory) => Err(NoMemory),
    }
}

/// Works off a Do: calls the driver and writes the reply.
fn reply<O: Sink, R: Driver>(
    alloc: Global,
    sink: &mut O,
    driver: &mut R,
    marked: bool,
    key: Key,
    payload: &[u8],
) -> Result<(), Stopped>
    ensures ok { O.tells → OnOk result (IsWorked R.creates (O.written sink.old) (record { marked = marked; meaning = R.meaning driver.old }) (Do key payload.now) (record { marked = false; meaning = R.meaning driver.new }) (O.written sink.new)) }
    ensures err { O.tells → OnErr result (IsUnworked R.creates (O.written sink.old) (record { marked = marked; meaning = R.meaning driver.old }) (Do key payload.now) (R.meaning driver.new) (O.written sink.new)) }
    ensures later { O.faults sink.old ≤ O.faults sink.new }
    ensures fault { result ≡ Err WriteFault → Rose (O.faults sink.old) (O.faults sink.new) }
{
    let code = reply_code(alloc, driver, marked, key, payload)?;
    match write_all(sink, &reply_frame(&key, code)) {
        Ok(()) => Ok(()),
        Err(Failed) => Err(Stopped::WriteFault),
    }
}

/// Works off a message, and answers whether the next Do is refused after it.
fn work<O: Sink, R: Driver>(
    alloc: Global,
    sink: &mut O,
    driver: &mut R,
    marked: bool,
    message: &Msg,
) -> Result<bool, Stopped>
    requires { IsWork message.now }
    ensures ok { O.tells → IfOk result (λ now_marked. IsWorked R.creates (O.written sink.old) (record { marked = marked; meaning = R.meaning driver.old }) message.now (record { marked = now_marked; meaning = R.meaning driver.new }) (O.written sink.new)) }
    ensures err { O.tells → OnErr result (IsUnworked R.creates (O.written sink.old) (record { marked = marked; meaning = R.meaning driver.old }) message.now (R.meaning driver.new) (O.written sink.new)) }
    ensures later { O.faults sink.old ≤ O.faults sink.new }
    ensures fault { result ≡ Err WriteFault → Rose (O.faults sink.old) (O.faults sink.new) }
{
    match message {
        Msg::Load { key, payload } => {
            let marked = load(alloc, driver, marked, *key, payload.as_slice())?;
            Ok(marked)
        }
        Msg::Do { key, payload } => {
            reply(alloc, sink, driver, marked, *key, payload.as_slice())?;
            Ok(false)
        }
        Msg::Hello | Msg::Reply { .. } | Msg::Quit => unreachable!(),
    }
}

/// Works off the messages of a feed, up to an unfinished frame or to what ends the session, which is the answer. The mark is
/// set where the next Do is refused.
pub(crate) fn work_off<O: Sink, R: Driver>(
    alloc: Global,
    feed: &mut Feed,
    sink: &mut O,
    driver: &mut R,
    marked: &mut bool,
) -> Result<Option<End>, Stopped>
    requires { feed.old.side ≡ Worker }
    ensures reached { (taken : List ℕ) → IsCutting taken feed.old → IfOk result (Reaches taken feed.new) }
    ensures working { O.tells → (before : R.Meaning) (start taken : List ℕ) →
        IsWorking R.creates before start taken feed.old (O.written sink.old) (record { marked = marked.old; meaning = R.meaning driver.old }) →
        MatchResult result
        (IsWorkedOff R.creates before start taken feed.new (O.written sink.new) (record { marked = marked.new; meaning = R.meaning driver.new }))
        (λ stopped. IsServedBehind R.creates before start taken (O.written sink.new) (R.meaning driver.new) (stopped_as stopped)) }
    ensures side { feed.new.side ≡ Worker }
    ensures given { given_to feed.new ≡ given_to feed.old }
    ensures later { O.faults sink.old ≤ O.faults sink.new }
    ensures fault { result ≡ Err WriteFault → Rose (O.faults sink.old) (O.faults sink.new) }
{
    'messages: loop {
        let next = match next_work(alloc, feed) {
            Ok(next) => next,
            Err(NoMemory) => return Err(Stopped::Memory),
        };
        let message = match next {
            Next::Message(message) => message,
            Next::Partial => return Ok(None),
            Next::Ends(end) => return Ok(Some(end)),
        };
        let worked = work(alloc, sink, driver, *marked, &message);
        drop(message);
        match worked {
            Ok(now_marked) => *marked = now_marked,
            Err(stopped) => return Err(stopped),
        }
    }
}
