// A disk in memory that grows. It tells its content, and not what a crash may leave.
ghost use Rattle.std.specs.Prelude.{◌≡◌, ◌+◌, ◌<◌, ◌≤◌, ◌^◌, [], length, take, slice_range, Ok, IsOk, OnOk, OnErr};
ghost use Rattle.disk_model.specs.Disk.{fresh, overwritten};
ghost use Rattle.disk_model.specs.Faults.{HasCause};

use crate::lists::overwrite;
use crate::{Disk, Failed};
use std::alloc::Global;

#[derive(Drop)]
pub struct RamDisk {
    bytes: Vec<u8>,
    faults: u64,
}

impl RamDisk {
    pub fn new(alloc: Global) -> RamDisk
        ensures content { ⟦<RamDisk as Disk>⟧.content result ≡ [] }
        ensures faults { ⟦<RamDisk as Disk>⟧.faults result ≡ 0 }
    {
        RamDisk {
            bytes: Vec::new(alloc),
            faults: 0,
        }
    }
}

impl Disk for RamDisk {
    ghost tells_content = { Unit {0} };

    ghost tells_images = { ⊥ };

    ghost content = { λ disk. disk.bytes.items };

    ghost history = { λ _. record { moment = 0; at = λ _. fresh [] } };

    ghost faults = { λ disk. disk.faults };

    fn len(&mut self) -> Result<u64, Failed>
        ensures length { result ≡ Ok (length (⟦<RamDisk as Disk>⟧.content self.old)) }
        ensures same { self.new ≡ self.old }
    {
        Ok(self.bytes.len() as u64)
    }

    fn read_at(&mut self, at: u64, buf: &mut [u8]) -> Result<(), Failed>
        requires within { at + length buf.old ≤ length (⟦<RamDisk as Disk>⟧.content self.old) }
        ensures ok { IsOk result }
        ensures bytes { buf.new ≡ slice_range (⟦<RamDisk as Disk>⟧.content self.old) at (at + length buf.old) }
        ensures same { self.new ≡ self.old }
    {
        let at = at as usize;
        buf.copy_from_slice(&self.bytes[at..at + buf.len()]);
        Ok(())
    }

    /// It fails only where it must grow.
    fn write_at(&mut self, at: u64, piece: &[u8]) -> Result<(), Failed>
        requires places { at + length piece.now < 2 ^ 63 }
        requires within { at ≤ length (⟦<RamDisk as Disk>⟧.content self.old) }
        ensures written { OnOk result (⟦<RamDisk as Disk>⟧.content self.new ≡ overwritten (⟦<RamDisk as Disk>⟧.content self.old) at piece.now) }
        ensures not_written { OnErr result (⟦<RamDisk as Disk>⟧.content self.new ≡ ⟦<RamDisk as Disk>⟧.content self.old) }
        ensures in_place { at + length piece.now ≤ length (⟦<RamDisk as Disk>⟧.content self.old) → IsOk result }
        ensures no_fault { OnOk result (⟦<RamDisk as Disk>⟧.faults self.new ≡ ⟦<RamDisk as Disk>⟧.faults self.old) }
        ensures cause { HasCause (⟦<RamDisk as Disk>⟧.faults self.old) (⟦<RamDisk as Disk>⟧.faults self.new) result }
    {
        let at = at as usize;
        let more = (at + piece.len()).saturating_sub(self.bytes.len());
        if self.bytes.try_reserve(more).is_err() {
            self.faults = self.faults.saturating_add(1);
            return Err(Failed);
        }
        overwrite(&mut self.bytes, at, piece);
        Ok(())
    }

    fn cut(&mut self, len: u64) -> Result<(), Failed>
        requires within { len ≤ length (⟦<RamDisk as Disk>⟧.content self.old) }
        ensures ok { IsOk result }
        ensures cut { ⟦<RamDisk as Disk>⟧.content self.new ≡ take len (⟦<RamDisk as Disk>⟧.content self.old) }
        ensures no_fault { ⟦<RamDisk as Disk>⟧.faults self.new ≡ ⟦<RamDisk as Disk>⟧.faults self.old }
    {
        self.bytes.truncate(len as usize);
        Ok(())
    }

    fn sync(&mut self) -> Result<(), Failed>
        ensures ok { IsOk result }
        ensures same { self.new ≡ self.old }
    {
        Ok(())
    }

    ghost tells_both = { λ told. absurd told };

    ghost content_is_now = { λ _ told. absurd told };

    ghost content_is_image = { λ _ told. absurd told };
}
