// A disk in memory. It keeps what it held at first and each call since, so that it can tell what a crash might have
// left at each moment.
ghost use Rattle.std.specs.Prelude.{◌≡◌, ◌⊎◌, ◌+◌, ◌<◌, ◌≤◌, [], ◌∷◌, ◌++◌, length, min, max, ℕ, take, slice_index, slice_range, vec_len, vec_capacity, false, IfOk, OnOk, OnErr, IsErr, IsTrue, ◌↔◌};
ghost use Rattle.disk_model.specs.Disk.{InRange, InSome, IsImage, NothingPending, Rests, Changes, Syncs, fresh, overwritten, after_write, after_cut, latest};
ghost use Rattle.disk_model.specs.Faults.{Rose, HasCause};
ghost use Rattle.disk_model.specs.Plans.{DiskPlan, FailsNext, unused, counted, filled};
ghost use Rattle.disk_model.specs.Memory.{after_calls, bytes_written, history_of, state_of};

use crate::call::Call;
use crate::call_count::Planned;
use crate::lists::{copy_within, extend_within, overwrite, push_within, set_len_within};
use crate::{Disk, Failed};
use std::alloc::{AllocError, Global};

#[derive(Drop)]
pub struct MemDisk {
    first: Vec<u8>,
    bytes: Vec<u8>,

    // What the last sync made durable, and since then the least and the greatest length and the ranges written.
    base: Vec<u8>,
    least: usize,
    greatest: usize,
    written: Vec<(usize, usize)>,

    // The calls so far, without those past the limit, and the bytes that they wrote.
    calls: Vec<Call>,
    pieces: Vec<u8>,
    made: u64,

    room: usize,
    limit: u64,
    failing: Vec<u64>,
    faults: u64,

    ghost state: { after_calls (fresh first.items) calls.items pieces.items ≡ state_of bytes.items base.items least greatest written.items },
    ghost image: { IsImage (state_of bytes.items base.items least greatest written.items) bytes.items },
    ghost full: { bytes_written calls.items ≡ length pieces.items },
    ghost counted: { (made < limit → length calls.items ≡ made) × (length calls.items ≤ made) },
    ghost used: { greatest ≤ length first.items + length pieces.items },
    ghost ranges: { length written.items ≤ length calls.items },
    ghost bytes_fit: { (room ≤ vec_capacity bytes) × (room ≤ vec_capacity pieces) × (room ≤ vec_capacity base) × (room ≤ vec_capacity first) },
    ghost image_fits: { (length first.items + length pieces.items ≤ vec_capacity base) × (length first.items + length pieces.items ≤ vec_capacity first) × (length first.items + length pieces.items ≤ vec_capacity bytes) },
    ghost calls_fit: { (limit ≤ vec_capacity calls) × (limit ≤ vec_capacity written) },
}

impl MemDisk {
    /// A disk that holds these bytes, all of them durable. The bytes here and all that are written are at most `room`.
    /// It fails at the calls with the listed numbers, counted from 0, and from the number `calls` on.
    #[tactic(auto, using(crate::proofs::Images::after_sync_leaves))]
    pub fn new(
        alloc: Global,
        bytes: Vec<u8>,
        room: u64,
        calls: u64,
        failing: Vec<u64>,
    ) -> Result<MemDisk, AllocError>
        ensures content { IfOk result (λ disk. ⟦<MemDisk as Disk>⟧.content disk ≡ bytes.items) }
        ensures durable { IfOk result (λ disk. latest (⟦<MemDisk as Disk>⟧.history disk) ≡ fresh bytes.items) }
        ensures settled { IfOk result (λ disk. NothingPending (latest (⟦<MemDisk as Disk>⟧.history disk))) }
        ensures moment { IfOk result (λ disk. (⟦<MemDisk as Disk>⟧.history disk).moment ≡ 0) }
        ensures faults { IfOk result (λ disk. ⟦<MemDisk as Disk>⟧.faults disk ≡ 0) }
        ensures plan { IfOk result (λ disk. ⟦<MemDisk as Planned>⟧.plan disk ≡ record { room = room; used = length bytes.items; calls = calls; next = 0; failing = failing.items }) }
    {
        let len = bytes.len();
        let size = len.max(room as usize);
        let mut first = Vec::with_capacity(alloc, size)?;
        extend_within(&mut first, &bytes);
        let mut base = Vec::with_capacity(alloc, size)?;
        extend_within(&mut base, &bytes);
        let mut held = Vec::with_capacity(alloc, size)?;
        extend_within(&mut held, &bytes);
        Ok(MemDisk {
            first,
            bytes: held,
            base,
            least: len,
            greatest: len,
            written: Vec::with_capacity(alloc, calls as usize)?,
            calls: Vec::with_capacity(alloc, calls as usize)?,
            pieces: Vec::with_capacity(alloc, room as usize)?,
            made: 0,
            room: room as usize,
            limit: calls,
            failing,
            faults: 0,
        })
    }

    /// One image that a crash may leave now: its bytes in written ranges are `fill`, and its length is `keep` moved into
    /// the lengths that are permitted. On the new disk no failure is listed, and its room and calls count anew.
    #[tactic(auto, using(crate::proofs::Images::after_sync_leaves))]
    pub fn crash(self, fill: u8, keep: u64) -> MemDisk
        ensures image { IsImage (latest (⟦<MemDisk as Disk>⟧.history self)) (⟦<MemDisk as Disk>⟧.content result) }
        ensures length { let disk = latest (⟦<MemDisk as Disk>⟧.history self) in length (⟦<MemDisk as Disk>⟧.content result) ≡ max disk.least (min keep disk.greatest) }
        ensures filled { (place : ℕ) → place < length (⟦<MemDisk as Disk>⟧.content result) → InSome (latest (⟦<MemDisk as Disk>⟧.history self)).written place
            → slice_index (⟦<MemDisk as Disk>⟧.content result) place ≡ fill }
        ensures durable { latest (⟦<MemDisk as Disk>⟧.history result) ≡ fresh (⟦<MemDisk as Disk>⟧.content result) }
        ensures settled { NothingPending (latest (⟦<MemDisk as Disk>⟧.history result)) }
        ensures moment { (⟦<MemDisk as Disk>⟧.history result).moment ≡ 0 }
        ensures faults { ⟦<MemDisk as Disk>⟧.faults result ≡ 0 }
        ensures plan { let plan = ⟦<MemDisk as Planned>⟧.plan self in ⟦<MemDisk as Planned>⟧.plan result ≡ unused plan.room (length (⟦<MemDisk as Disk>⟧.content result)) plan.calls }
    {
        let MemDisk {
            mut first,
            mut bytes,
            mut base,
            least,
            greatest,
            mut written,
            mut calls,
            mut pieces,
            made: _,
            room,
            limit,
            mut failing,
            faults: _,
        } = self;
        let len = least.max(greatest.min(keep as usize));
        set_len_within(&mut base, len, fill);
        fill_ranges(&mut base, &written, fill);
        copy_within(&mut first, &base);
        copy_within(&mut bytes, &base);
        written.clear();
        calls.clear();
        pieces.clear();
        failing.clear();
        MemDisk {
            first,
            bytes,
            base,
            least: len,
            greatest: len,
            written,
            calls,
            pieces,
            made: 0,
            room,
            limit,
            failing,
            faults: 0,
        }
    }

    /// What reads give.
    pub fn content(&self) -> &[u8]
        ensures { result.now ≡ ⟦<MemDisk as Disk>⟧.content self.now }
    {
        &self.bytes
    }

    /// Its calls so far, without those past its number of calls, and the bytes of all its writes in a row. They say what
    /// its history is.
    pub fn record(&self) -> (&[Call], &[u8])
        ensures { (moment : ℕ) → (⟦<MemDisk as Disk>⟧.history self.now).at moment
            ≡ after_calls ((⟦<MemDisk as Disk>⟧.history self.now).at 0) (take moment result.0.now) result.1.now }
    {
        (&self.calls, &self.pieces)
    }

    // The next call is to fail.
    fn fails_now(&self) -> bool
        ensures within { result ≡ false → self.now.made < self.now.limit }
        ensures exact { IsTrue result ↔ FailsNext (⟦<MemDisk as Planned>⟧.plan self.now) }
    {
        self.made >= self.limit || self.failing.contains(&self.made)
    }

    // So many bytes more may be written.
    fn has_room(&self, more: usize) -> bool
        ensures { IsTrue result ↔ (length self.now.first.items + length self.now.pieces.items + more ≤ self.now.room) }
    {
        let used = self.first.len().saturating_add(self.pieces.len());
        used <= self.room && more <= self.room - used
    }

    // Counts a call that changes nothing.
    fn rest(&mut self)
        ensures content { self.new.bytes.items ≡ self.old.bytes.items }
        ensures history { Rests (history_of self.old.first.items self.old.calls.items self.old.pieces.items self.old.made)
            (history_of self.new.first.items self.new.calls.items self.new.pieces.items self.new.made) }
        ensures faults { self.new.faults ≡ self.old.faults }
        ensures plan { ⟦<MemDisk as Planned>⟧.plan self.new ≡ counted (⟦<MemDisk as Planned>⟧.plan self.old) }
    {
        if self.made >= self.limit {
            self.made = self.made.saturating_add(1);
            return;
        }
        push_within(&mut self.calls, Call::Quiet);
        self.made += 1;
    }

    // Counts a call that fails and changes nothing.
    fn fail(&mut self) -> Failed
        ensures content { self.new.bytes.items ≡ self.old.bytes.items }
        ensures history { Rests (history_of self.old.first.items self.old.calls.items self.old.pieces.items self.old.made)
            (history_of self.new.first.items self.new.calls.items self.new.pieces.items self.new.made) }
        ensures faults { (self.old.faults ≤ self.new.faults) × Rose self.old.faults self.new.faults }
        ensures plan { ⟦<MemDisk as Planned>⟧.plan self.new ≡ counted (⟦<MemDisk as Planned>⟧.plan self.old) }
    {
        self.rest();
        self.faults = self.faults.saturating_add(1);
        Failed
    }
}

impl Planned for MemDisk {
    ghost Plan = { DiskPlan };

    ghost plan = { λ disk. record { room = disk.room; used = length disk.first.items + length disk.pieces.items; calls = disk.limit; next = disk.made; failing = disk.failing.items } };
}

impl Disk for MemDisk {
    ghost use Rattle.disk_model.specs.Latest.{now_is_latest, image_is_latest};

    ghost tells_content = { Unit {0} };

    ghost tells_images = { Unit {0} };

    ghost content = { λ m. m.bytes.items };

    ghost history = { λ m. history_of m.first.items m.calls.items m.pieces.items m.made };

    ghost faults = { λ m. m.faults };

    fn len(&mut self) -> Result<u64, Failed>
        ensures length { IfOk result (λ len. len ≡ length (⟦<MemDisk as Disk>⟧.content self.old)) }
        ensures content { ⟦<MemDisk as Disk>⟧.content self.new ≡ ⟦<MemDisk as Disk>⟧.content self.old }
        ensures images { Rests (⟦<MemDisk as Disk>⟧.history self.old) (⟦<MemDisk as Disk>⟧.history self.new) }
        ensures cause { HasCause (⟦<MemDisk as Disk>⟧.faults self.old) (⟦<MemDisk as Disk>⟧.faults self.new) result }
        ensures exact { IsErr result ↔ FailsNext (⟦<MemDisk as Planned>⟧.plan self.old) }
        ensures plan { ⟦<MemDisk as Planned>⟧.plan self.new ≡ counted (⟦<MemDisk as Planned>⟧.plan self.old) }
    {
        if self.fails_now() {
            return Err(self.fail());
        }
        self.rest();
        Ok(self.bytes.len() as u64)
    }

    fn read_at(&mut self, at: u64, buf: &mut [u8]) -> Result<(), Failed>
        requires within { at + length buf.old ≤ length (⟦<MemDisk as Disk>⟧.content self.old) }
        ensures bytes { OnOk result (buf.new ≡ slice_range (⟦<MemDisk as Disk>⟧.content self.old) at (at + length buf.old)) }
        ensures content { ⟦<MemDisk as Disk>⟧.content self.new ≡ ⟦<MemDisk as Disk>⟧.content self.old }
        ensures images { Rests (⟦<MemDisk as Disk>⟧.history self.old) (⟦<MemDisk as Disk>⟧.history self.new) }
        ensures cause { HasCause (⟦<MemDisk as Disk>⟧.faults self.old) (⟦<MemDisk as Disk>⟧.faults self.new) result }
        ensures exact { IsErr result ↔ FailsNext (⟦<MemDisk as Planned>⟧.plan self.old) }
        ensures plan { ⟦<MemDisk as Planned>⟧.plan self.new ≡ counted (⟦<MemDisk as Planned>⟧.plan self.old) }
    {
        if self.fails_now() {
            return Err(self.fail());
        }
        self.rest();
        let at = at as usize;
        buf.copy_from_slice(&self.bytes[at..at + buf.len()]);
        Ok(())
    }

    fn write_at(&mut self, at: u64, piece: &[u8]) -> Result<(), Failed>
        requires within { at ≤ length (⟦<MemDisk as Disk>⟧.content self.old) }
        ensures written { OnOk result (⟦<MemDisk as Disk>⟧.content self.new ≡ overwritten (⟦<MemDisk as Disk>⟧.content self.old) at piece.now) }
        ensures not_written { OnErr result (⟦<MemDisk as Disk>⟧.content self.new ≡ ⟦<MemDisk as Disk>⟧.content self.old) }
        ensures images { Changes (⟦<MemDisk as Disk>⟧.history self.old) (⟦<MemDisk as Disk>⟧.history self.new) (after_write (latest (⟦<MemDisk as Disk>⟧.history self.old)) at piece.now) result }
        ensures cause { HasCause (⟦<MemDisk as Disk>⟧.faults self.old) (⟦<MemDisk as Disk>⟧.faults self.new) result }
        ensures exact { let plan = ⟦<MemDisk as Planned>⟧.plan self.old in IsErr result ↔ (FailsNext plan ⊎ (plan.room < plan.used + length piece.now)) }
        ensures plan { OnOk result (⟦<MemDisk as Planned>⟧.plan self.new ≡ filled (length piece.now) (⟦<MemDisk as Planned>⟧.plan self.old)) }
        ensures not_filled { OnErr result (⟦<MemDisk as Planned>⟧.plan self.new ≡ counted (⟦<MemDisk as Planned>⟧.plan self.old)) }
    {
        if self.fails_now() || !self.has_room(piece.len()) {
            return Err(self.fail());
        }
        let at = at as usize;
        let len = piece.len();
        overwrite(&mut self.bytes, at, piece);
        extend_within(&mut self.pieces, piece);
        push_within(&mut self.written, (at, len));
        push_within(&mut self.calls, Call::Write { at, len });
        self.greatest = self.greatest.max(at + len);
        self.made += 1;
        Ok(())
    }

    fn cut(&mut self, len: u64) -> Result<(), Failed>
        requires within { len ≤ length (⟦<MemDisk as Disk>⟧.content self.old) }
        ensures cut { OnOk result (⟦<MemDisk as Disk>⟧.content self.new ≡ take len (⟦<MemDisk as Disk>⟧.content self.old)) }
        ensures not_cut { OnErr result (⟦<MemDisk as Disk>⟧.content self.new ≡ ⟦<MemDisk as Disk>⟧.content self.old) }
        ensures images { Changes (⟦<MemDisk as Disk>⟧.history self.old) (⟦<MemDisk as Disk>⟧.history self.new) (after_cut (latest (⟦<MemDisk as Disk>⟧.history self.old)) len) result }
        ensures cause { HasCause (⟦<MemDisk as Disk>⟧.faults self.old) (⟦<MemDisk as Disk>⟧.faults self.new) result }
        ensures exact { IsErr result ↔ FailsNext (⟦<MemDisk as Planned>⟧.plan self.old) }
        ensures plan { ⟦<MemDisk as Planned>⟧.plan self.new ≡ counted (⟦<MemDisk as Planned>⟧.plan self.old) }
    {
        if self.fails_now() {
            return Err(self.fail());
        }
        let len = len as usize;
        self.bytes.truncate(len);
        push_within(&mut self.calls, Call::Cut { len });
        self.least = self.least.min(len);
        self.made += 1;
        Ok(())
    }

    fn sync(&mut self) -> Result<(), Failed>
        ensures content { ⟦<MemDisk as Disk>⟧.content self.new ≡ ⟦<MemDisk as Disk>⟧.content self.old }
        ensures images { Syncs (⟦<MemDisk as Disk>⟧.history self.old) (⟦<MemDisk as Disk>⟧.history self.new) result }
        ensures cause { HasCause (⟦<MemDisk as Disk>⟧.faults self.old) (⟦<MemDisk as Disk>⟧.faults self.new) result }
        ensures exact { IsErr result ↔ FailsNext (⟦<MemDisk as Planned>⟧.plan self.old) }
        ensures plan { ⟦<MemDisk as Planned>⟧.plan self.new ≡ counted (⟦<MemDisk as Planned>⟧.plan self.old) }
    {
        if self.fails_now() {
            return Err(self.fail());
        }
        self.base.clear();
        extend_within(&mut self.base, &self.bytes);
        self.least = self.bytes.len();
        self.greatest = self.bytes.len();
        self.written.clear();
        push_within(&mut self.calls, Call::Sync);
        self.made += 1;
        Ok(())
    }

    ghost tells_both = { λ told. told };

    ghost content_is_now = { λ m told. now_is_latest m.first.items m.calls.items m.pieces.items m.made _ m.counted.1 m.state };

    ghost content_is_image = { λ m told. image_is_latest m.first.items m.calls.items m.pieces.items m.made _ m.counted.1 m.state _ m.image };
}

// Writes a byte at each place of these ranges.
fn fill_ranges(bytes: &mut [u8], ranges: &[(usize, usize)], fill: u8)
    ensures inside { (place : ℕ) → place < length bytes.old → InSome ranges.now place → slice_index bytes.new place ≡ fill }
    ensures outside { (place : ℕ) → ¬ InSome ranges.now place → slice_index bytes.new place ≡ slice_index bytes.old place }
{
    for (at, len) in ranges {
        fill_range(bytes, *at, *len, fill);
    }
}

// Writes a byte at each place of a range that is there.
fn fill_range(bytes: &mut [u8], at: usize, len: usize, fill: u8)
    ensures length { length bytes.new ≡ length bytes.old }
    ensures inside { (place : ℕ) → place < length bytes.old → InRange (at, len) place → slice_index bytes.new place ≡ fill }
    ensures outside { (place : ℕ) → ¬ InRange (at, len) place → slice_index bytes.new place ≡ slice_index bytes.old place }
{
    let end = at.saturating_add(len).min(bytes.len());
    bytes[at.min(end)..end].fill(fill);
}
