use crate::error::TakeFrame;
use crate::front::{Front, look};
use crate::msg::Msg;
use crate::pieces::Pieces;
use crate::reading::message_of;
use crate::reply_bytes::ReplyBytes;
use crate::side::Side;
use crate::store::Store;
use foz_words::NoMemory;
use std::alloc::Global;
use std::marker::Model;

/// Reads messages from pieces of a stream that are cut anywhere. Contracts see it as its side, the number of bytes that
/// messages were taken from, and the bytes that it keeps.
#[derive(Debug, Drop)]
pub struct Feed {
    place: u64,
    store: Store,
}

impl Model for Feed {
    ghost use Rattle.std.specs.Prelude.{◌+◌, ◌<◌, ◌^◌, length};
    ghost use Rattle.worker_msg.specs.Feeds.{Feeding, side_of, kept_of};

    ghost Value = { Feeding };

    ghost view = { λ feed. record { side = side_of feed.store; place = feed.place; kept = kept_of feed.store } };

    ghost invariant = { λ feed. feed.place + length (kept_of feed.store) < 2 ^ 63 };
}

impl Feed {
    ghost use Rattle.std.specs.Prelude.{◌≡◌, ◌≢◌, ◌+◌, ◌-◌, ◌<◌, ◌^◌, ◌↔◌, [], ◌++◌, ℕ, length, take, drop, ◌≤◌, min, OnOk, OnErr, Ok, Err, Some, None};
    ghost use Rattle.worker_msg.specs.Feeds.{Feeding, given_to, Answers, IsBadAt};
    ghost use Rattle.worker_msg.specs.Fronts.{IsPartial};
    ghost use Rattle.worker_msg.specs.declared.side.Side.TheVariants.{Worker, Crew};
    ghost use Rattle.worker_msg.specs.declared.error.TakeFrame.TheVariants.{BadFrame, Memory};

    pub fn new(alloc: Global, side: Side) -> Feed
        ensures { result ≡ record { side = side; place = 0; kept = [] } }
    {
        match side {
            Side::Worker => Feed {
                place: 0,
                store: Store::Worker(Pieces::new(alloc)),
            },
            Side::Crew => Feed {
                place: 0,
                store: Store::Crew(ReplyBytes::new()),
            },
        }
    }

    fn side(&self) -> Side
        ensures { result ≡ self.now.side }
    {
        match &self.store {
            Store::Worker(_) => Side::Worker,
            Store::Crew(_) => Side::Crew,
        }
    }

    /// How many bytes are kept: those of the unfinished frame where `take` has no message.
    pub fn left(&self) -> usize
        ensures count { result ≡ length self.now.kept }
        ensures few { self.now.side ≡ Crew → result ≤ 21 }
    {
        self.kept().len()
    }

    fn kept(&self) -> &[u8]
        ensures kept { result.now ≡ self.now.kept }
        ensures places { self.now.place + length self.now.kept < 2 ^ 63 }
        ensures few { self.now.side ≡ Crew → length self.now.kept ≤ 21 }
    {
        match &self.store {
            Store::Worker(pieces) => pieces.as_slice(),
            Store::Crew(reply) => reply.as_slice(),
        }
    }

    /// Adds a piece of the stream to a worker's feed. An `Err` changes nothing.
    pub fn push(&mut self, piece: &[u8]) -> Result<(), NoMemory>
        requires side { self.old.side ≡ Worker }
        requires places { given_to self.old + length piece.now < 2 ^ 63 }
        ensures ok { OnOk result (self.new ≡ record self.old { kept = self.old.kept ++ piece.now }) }
        ensures err { OnErr result (self.new ≡ self.old) }
        // A bad frame stays one.
        ensures bad { (at : ℕ) → IsBadAt self.old at → IsBadAt self.new at }
    {
        match &mut self.store {
            Store::Worker(pieces) => pieces.push(piece),
            Store::Crew(_) => unreachable!(),
        }
    }

    /// Adds as much of a piece of the stream as a crew's feed has room for, 21 bytes in all, and answers how many bytes those are.
    pub fn push_reply(&mut self, piece: &[u8]) -> usize
        requires side { self.old.side ≡ Crew }
        requires places { given_to self.old + length piece.now < 2 ^ 63 }
        ensures count { result ≡ min (21 - length self.old.kept) (length piece.now) }
        ensures kept { self.new ≡ record self.old { kept = self.old.kept ++ take result piece.now } }
        // A bad frame stays one.
        ensures bad { (at : ℕ) → IsBadAt self.old at → IsBadAt self.new at }
    {
        match &mut self.store {
            Store::Crew(reply) => reply.push(piece),
            Store::Worker(_) => unreachable!(),
        }
    }

    /// The message whose frame stands at the beginning of the bytes that are kept, if all of it does. After `BadFrame` the feed
    /// answers the same from then on, whatever is added. Memory is taken for the payload of a Load or a Do alone, and an
    /// `Err` changes nothing.
    pub fn take(&mut self, alloc: Global) -> Result<Option<Msg>, TakeFrame>
        ensures answer { Answers self.old result self.new }
        ensures none { (result ≡ Ok None) ↔ IsPartial self.old.side self.old.kept }
        ensures bad { (at : ℕ) → (result ≡ Err (BadFrame at)) ↔ IsBadAt self.old at }
        // A crew's feed takes no memory, and without a message it lacks a byte of a Reply at least.
        ensures crew { self.old.side ≡ Crew → result ≢ Err Memory }
        ensures few { self.old.side ≡ Crew → result ≡ Ok None → length self.old.kept < 21 }
        ensures side { self.new.side ≡ self.old.side }
        ensures given { given_to self.new ≡ given_to self.old }
    {
        self.take_front(alloc)
    }

    fn take_front(&mut self, alloc: Global) -> Result<Option<Msg>, TakeFrame>
        ensures { Answers self.old result self.new }
    {
        let side = self.side();
        let kept = self.kept();
        match look(side, kept) {
            Front::Partial => Ok(None),
            Front::Bad { place } => Err(TakeFrame::BadFrame {
                at: self.place + place as u64,
            }),
            Front::Whole { len } => {
                let message = message_of(alloc, side, &kept[..len])?;
                self.pass(len);
                Ok(Some(message))
            }
        }
    }

    /// Lets so many bytes at the beginning go.
    fn pass(&mut self, count: usize)
        requires { count ≤ length self.old.kept }
        ensures { self.new ≡ record { side = self.old.side; place = self.old.place + count; kept = drop count self.old.kept } }
    {
        match &mut self.store {
            Store::Worker(pieces) => pieces.pass(count),
            Store::Crew(reply) => reply.pass(count),
        }
        self.place += count as u64;
    }
}
