ghost use Rattle.std.specs.Prelude.{◌≡◌, ◌↔◌, [], ◌∷◌, ◌++◌, true, false, Contains, Some, IfOk, IsTrue};
ghost use Rattle.mem_slot.specs.Acts.{act_bytes, act_of, answer_for};
ghost use Rattle.mem_slot.specs.Slots.{acts_of, failing_of, starts_of, left_of, tape_of, log_of, is_running, faults_of};
ghost use Rattle.slot_log.specs.declared.note.SlotNote.{SlotNote};

use crate::answer::Answer;
use crate::frame::asked_key;
use crate::tape::{Stamp, Tape};
use foz_words::{Key, NoMemory, Row};
use slot_log::{Failed, Gone, Slot, SlotNote};
use std::alloc::Global;
use std::sync::Wait;

/// What a worker does with an item.
#[derive(Debug, Drop)]
pub enum Act {
    /// It answers with this code.
    Code(u32),
    /// It dies.
    Die,
    /// It sends these bytes, and dies once they are read and more are asked for.
    Raw(Row<u8>),
}

/// A slot whose workers do as they are told. It keeps its log in room that is taken at first: what would pass the room
/// is a death, or a start that fails.
#[derive(Drop)]
pub struct MemSlot {
    failing_starts: Vec<u32>,
    acts: Vec<(Key, Act)>,
    tape: Tape,
    starts: u64,
    start_faults: u64,
    answer: Answer,
}

impl MemSlot {
    /// The starts of these numbers fail, counted from 0 over the slot's whole life. A Do is answered by the first act that
    /// is listed for its key, and with code 0 where none is. It takes room for a log of so many notes, which hold so many bytes.
    pub fn new(
        alloc: Global,
        failing_starts: Vec<u32>,
        acts: Vec<(Key, Act)>,
        notes: u64,
        room: u64,
    ) -> Result<MemSlot, NoMemory>
        ensures failing { IfOk result (λ slot. failing_of slot ≡ failing_starts.items) }
        ensures acts { IfOk result (λ slot. acts_of slot ≡ acts.items) }
        ensures starts { IfOk result (λ slot. starts_of slot ≡ 0) }
        ensures faults { IfOk result (λ slot. ⟦<MemSlot as Slot>⟧.start_faults slot ≡ 0) }
        ensures tape { IfOk result (λ slot. tape_of slot ≡ record { log = []; running = false; notes_left = notes; bytes_left = room }) }
        ensures running { IfOk result (λ slot. ⟦<MemSlot as Slot>⟧.running slot ≡ false) }
        ensures log { IfOk result (λ slot. ⟦<MemSlot as Slot>⟧.log slot ≡ Some []) }
    {
        let tape = Tape::new(alloc, notes as usize, room as usize)?;
        Ok(MemSlot {
            failing_starts,
            acts,
            tape,
            starts: 0,
            start_faults: 0,
            answer: Answer::nothing(),
        })
    }

    /// The log so far.
    pub fn notes(&self, alloc: Global) -> Result<Row<SlotNote>, NoMemory>
        ensures { IfOk result (λ notes. Some notes ≡ ⟦<MemSlot as Slot>⟧.log self.now) }
    {
        self.tape.notes(alloc)
    }

    /// The worker dies.
    fn die(&mut self) -> Gone
        requires { is_running self.old ≡ true }
        ensures running { is_running self.new ≡ false }
        ensures faults { faults_of self.new ≡ faults_of self.old }
        ensures log { log_of self.new ≡ log_of self.old ++ SlotNote.Died ∷ [] }
        ensures left { left_of self.new ≡ left_of self.old }
        ensures acts { acts_of self.new ≡ acts_of self.old }
    {
        self.tape.end(Stamp::Died);
        Gone
    }

    /// The next start fails by its number.
    fn is_to_fail(&self) -> bool
        ensures { IsTrue result ↔ Contains (failing_of self.now) (starts_of self.now) }
    {
        self.failing_starts
            .iter()
            .any(|number| u64::from(*number) == self.starts)
    }
}

/// What a worker with these acts answers to a Do of the key.
fn answer_by(acts: &[(Key, Act)], asked: Option<Key>) -> Answer
    ensures { result ≡ answer_for acts.now asked }
{
    match asked {
        None => Answer::nothing(),
        Some(key) => answer_of(acts, &key),
    }
}

fn answer_of(acts: &[(Key, Act)], key: &Key) -> Answer
    ensures { result ≡ act_bytes key.now (act_of acts.now key.now) }
{
    for (listed, act) in acts {
        if *listed == *key {
            return answer_as(act, key);
        }
    }
    Answer::reply(key, 0)
}

/// What an act sends.
fn answer_as(act: &Act, key: &Key) -> Answer
    ensures { result ≡ act_bytes key.now act.now }
{
    match act {
        Act::Code(code) => Answer::reply(key, *code),
        Act::Die => Answer::nothing(),
        Act::Raw(row) => Answer::raw(row.as_slice()),
    }
}

impl Slot for MemSlot {
    ghost use Rattle.std.specs.Prelude.{ℕ, ◌≡◌, ◌<◌, ◌≤◌, ◌+◌, ◌^◌, ◌-◌, ◌⊎◌, ◌↔◌, [], ◌∷◌, ◌++◌, true, false, Contains, length, take, drop, min, Some, IfOk, OnOk, OnErr, IfSome, IsErr};
    ghost use Rattle.disk_model.specs.Faults.{Rose};
    ghost use Rattle.worker_msg.specs.Feeds.{Spells};
    ghost use Rattle.worker_msg.specs.declared.msg.Msg.{Msg};
    ghost use Rattle.worker_msg.specs.declared.side.Side.TheVariants.{Worker};
    ghost use Rattle.mem_slot.specs.Acts.{key_asked, answer_for};
    ghost use Rattle.mem_slot.specs.Slots.{deaths_of};

    ghost running = { is_running };

    ghost start_faults = { faults_of };

    ghost deaths = { deaths_of };

    ghost log = { λ slot. Some (log_of slot) };

    fn start<R: Wait>(&mut self, rt: &R) -> Result<(), Failed>
        requires { is_running self.old ≡ false }
        ensures deaths { deaths_of self.new ≡ deaths_of self.old }
        ensures started { OnOk result ((is_running self.new ≡ true) × (log_of self.new ≡ log_of self.old ++ SlotNote.Started ∷ []) × (faults_of self.new ≡ faults_of self.old)) }
        ensures failed { OnErr result ((is_running self.new ≡ false) × (log_of self.new ≡ log_of self.old ++ SlotNote.NotStarted ∷ []) × Rose (faults_of self.old) (faults_of self.new)) }
        ensures cause { IsErr result ↔ (Contains (failing_of self.old) (starts_of self.old) ⊎ ((tape_of self.old).notes_left < 2)) }
        ensures counted { starts_of self.new ≡ min (starts_of self.old + 1) (2 ^ 64 - 1) }
    {
        let fails = self.is_to_fail() || !self.tape.has_room();
        self.starts = self.starts.saturating_add(1);
        if fails {
            self.start_faults = self.start_faults.saturating_add(1);
            self.tape.refuse(rt);
            return Err(Failed);
        }
        self.tape.begin();
        Ok(())
    }

    fn send<R: Wait>(&mut self, _rt: &R, frame: &[u8]) -> Result<(), Gone>
        requires running { is_running self.old ≡ true }
        ensures faults { faults_of self.new ≡ faults_of self.old }
        ensures sent { OnOk result ((is_running self.new ≡ true) × (log_of self.new ≡ log_of self.old ++ SlotNote.Sent frame.now ∷ []) × (deaths_of self.new ≡ deaths_of self.old)) }
        ensures gone { OnErr result ((is_running self.new ≡ false) × (log_of self.new ≡ log_of self.old ++ SlotNote.Died ∷ []) × Rose (deaths_of self.old) (deaths_of self.new)) }
        ensures cause { IsErr result ↔ (((tape_of self.old).notes_left < 2) ⊎ ((tape_of self.old).bytes_left < length frame.now)) }
        ensures answer { (message : Msg) → Spells Worker frame.now message → left_of self.new ≡ answer_for (acts_of self.old) (key_asked message) }
        ensures acts { acts_of self.new ≡ acts_of self.old }
    {
        self.answer = answer_by(self.acts.as_slice(), asked_key(frame));
        if !self.tape.add(Stamp::Sent(frame.len()), frame) {
            return Err(self.die());
        }
        Ok(())
    }

    fn recv<R: Wait>(&mut self, _rt: &R, piece: &mut [u8]) -> Result<usize, Gone>
        requires running { is_running self.old ≡ true }
        requires room { 0 < length piece.old }
        ensures faults { faults_of self.new ≡ faults_of self.old }
        ensures some { IfOk result (λ n. (0 < n) × (n ≤ length piece.old)) }
        ensures got { IfOk result (λ n. (is_running self.new ≡ true) × (log_of self.new ≡ log_of self.old ++ SlotNote.Got (take n piece.new) ∷ []) × (deaths_of self.new ≡ deaths_of self.old)) }
        ensures gone { OnErr result ((is_running self.new ≡ false) × (log_of self.new ≡ log_of self.old ++ SlotNote.Died ∷ []) × Rose (deaths_of self.old) (deaths_of self.new)) }
        ensures next { IfOk result (λ n. (n ≡ min (length piece.old) (length (left_of self.old))) × (take n piece.new ≡ take n (left_of self.old)) × (left_of self.new ≡ drop n (left_of self.old))) }
        ensures cause { IsErr result ↔ ((left_of self.old ≡ []) ⊎ ((tape_of self.old).notes_left < 2) ⊎ ((tape_of self.old).bytes_left < min (length piece.old) (length (left_of self.old)))) }
        ensures acts { acts_of self.new ≡ acts_of self.old }
    {
        let count = self.answer.give(piece);
        if count == 0 {
            return Err(self.die());
        }
        if !self.tape.add(Stamp::Got(count), &piece[..count]) {
            return Err(self.die());
        }
        Ok(count)
    }

    fn stop<R: Wait>(&mut self, _rt: &R) {
        self.tape.end(Stamp::Stopped);
    }
}
