//! How an entry is added.
ghost use Rattle.std.specs.Prelude.{◌≡◌, ◌+◌, ◌-◌, ◌<◌, ◌≤◌, ◌^◌, ◌++◌, [], ◌∷◌, false, List, ℕ, length, take, IfOk, IfErr, OnOk, OnErr, IsTrue, ◌↔◌, vec_len, vec_capacity};
ghost use Rattle.foz_entry.specs.Entries.{entry_of};
ghost use Rattle.foz_entry.specs.Limits.{head_len, end_limit};
ghost use Rattle.foz_entry.specs.Spelling.{head_text};
ghost use Rattle.foz_archive.specs.Reading.{SomeFileHolds};
ghost use Rattle.foz_archive.specs.Pushed.{HasRoom, HasNoRoom, IsRefusal, with_entry};

use crate::archive::Archive;
use disk_model::Disk;
use foz_crc::crc32;
use foz_entry::{
    COUNT_LIMIT, Cut, END_LIMIT, Entry, HEAD_LEN, PAYLOAD_LIMIT, lay_entry, stored_head,
};
use foz_words::{Key, NoMemory, Row};

/// Why an entry is not added, the first reason in this order.
#[derive(Clone, Copy, Debug, PartialEq, Eq)]
pub enum PushError {
    /// The payload has so many bytes, more than [`PAYLOAD_LIMIT`].
    TooLarge { size: u64 },
    /// The entries end at `end`, and an entry of `need` bytes would end above [`END_LIMIT`].
    Full { end: u64, need: u64 },
    /// So many entries are there, [`COUNT_LIMIT`].
    TooMany { count: u32 },
    Memory,
}

impl From<NoMemory> for PushError {
    ghost use Rattle.std.specs.Prelude.{◌≡◌};
    ghost use Rattle.foz_archive.specs.declared.push.PushError.TheVariants.{Memory};

    ghost from_gives = { λ _ error. error ≡ Memory };

    fn from(_refused: NoMemory) -> PushError {
        PushError::Memory
    }
}

/// Is there room for so many bytes more in an archive that ends there?
pub fn fits(end: u64, need: u64) -> bool
    requires { (end < 2 ^ 62) × (need < 2 ^ 62) }
    ensures { IsTrue result ↔ (end + need ≤ end_limit) }
{
    end + need <= END_LIMIT
}

impl<D: Disk> Archive<D> {
    /// Is there room for an entry with a payload of so many bytes? An `Err` is never running out of memory.
    pub fn check_room(&self, size: usize) -> Result<(), PushError>
        ensures room { OnOk result (HasRoom self.now.end (length self.now.entries) size) }
        ensures refused { IfErr result (λ error. HasNoRoom self.now.end (length self.now.entries) size error) }
    {
        let size = size as u64;
        if size > u64::from(PAYLOAD_LIMIT) {
            return Err(PushError::TooLarge { size });
        }
        let end = self.end();
        let need = HEAD_LEN as u64 + size;
        if !fits(end, need) {
            return Err(PushError::Full { end, need });
        }
        let count = self.entries().len() as u32;
        if count >= COUNT_LIMIT {
            return Err(PushError::TooMany { count });
        }
        Ok(())
    }

    /// Adds the undamaged entry of a key and a payload, which waits for the next commit, and answers its place in
    /// `entries`. The disk isn't called.
    pub fn push(&mut self, key: Key, payload: &[u8]) -> Result<u32, PushError>
        requires whole { self.old.broken ≡ false }

        ensures added { IfOk result (λ index. (index ≡ length self.old.entries) × (self.new ≡ with_entry self.old (entry_of self.old.end key payload.now))) }
        ensures room { OnOk result (HasRoom self.old.end (length self.old.entries) (length payload.now)) }
        ensures some_file { OnOk result (SomeFileHolds self.new.entries self.new.end) }
        ensures refused { IfErr result (λ error. IsRefusal self.old.end (length self.old.entries) (length payload.now) error) }
        ensures unchanged { OnErr result (self.new ≡ self.old) }
    {
        self.check_room(payload.len())?;
        let index = self.push_with_room(key, payload)?;
        Ok(index)
    }

    /// The same where it is known that there is room, so that only memory can be wanting.
    pub fn push_with_room(&mut self, key: Key, payload: &[u8]) -> Result<u32, NoMemory>
        requires whole { self.old.broken ≡ false }
        requires room { HasRoom self.old.end (length self.old.entries) (length payload.now) }

        ensures added { IfOk result (λ index. (index ≡ length self.old.entries) × (self.new ≡ with_entry self.old (entry_of self.old.end key payload.now))) }
        ensures some_file { OnOk result (SomeFileHolds self.new.entries self.new.end) }
        ensures unchanged { OnErr result (self.new ≡ self.old) }
    {
        let head = stored_head(key, crc32(payload), payload.len() as u32);
        let offset = self.end();
        let index = self.entries.len() as u32;
        let alloc = *self.batch.allocator();
        let kept = Row::from_vec(Vec::from_slice(alloc, payload)?);
        self.batch.reserve(HEAD_LEN + payload.len())?;
        self.entries.push(Entry {
            offset,
            head,
            payload: kept,
        })?;
        lay_before_gate(&mut self.batch, &head, payload);
        Ok(index)
    }
}

/// Adds an entry before the gate at the end, where there is room for it.
fn lay_before_gate(batch: &mut Vec<u8>, head: &Cut, payload: &[u8])
    requires some { 1 ≤ length batch.old.items }
    requires room { vec_len batch.old + (head_len + length payload.now) ≤ vec_capacity batch.old }
    ensures { batch.new.items ≡ take (length batch.old.items - 1) batch.old.items ++ (head_text head.now ++ (payload.now ++ 0 ∷ [])) }
{
    batch.truncate(batch.len() - 1);
    lay_entry(batch, head, payload);
    let Ok(()) = batch.push(0) else {
        unreachable!()
    };
}
