// A disk over a real file. It tells nothing.
ghost use Rattle.std.specs.Prelude.{◌≡◌, ◌≤◌, [], OnOk, OnErr};
ghost use Rattle.disk_model.specs.Disk.{fresh};
ghost use Rattle.disk_model.specs.Faults.{HasCause};

use crate::{Disk, Failed};
use std::fs::File;
use std::io;
use std::os::unix::fs::FileExt;

#[derive(Drop)]
pub struct FileDisk {
    file: File,
    faults: u64,
}

impl FileDisk {
    pub fn new(file: File) -> FileDisk
        ensures faults { ⟦<FileDisk as Disk>⟧.faults result ≡ 0 }
    {
        FileDisk { file, faults: 0 }
    }

    // Counts a failure.
    fn counted<T: Drop>(&mut self, answer: io::Result<T>) -> Result<T, Failed>
        ensures { HasCause self.old.faults self.new.faults result }
    {
        match answer {
            Ok(value) => Ok(value),
            Err(_) => {
                self.faults = self.faults.saturating_add(1);
                Err(Failed)
            }
        }
    }

    // Fails where a place is past the end.
    fn within(&mut self, place: u64) -> Result<(), Failed>
        ensures { HasCause self.old.faults self.new.faults result }
    {
        if place <= self.len()? {
            return Ok(());
        }
        self.counted(Err(io::Error::from(io::ErrorKind::InvalidInput)))
    }
}

impl Disk for FileDisk {
    ghost tells_content = { ⊥ };

    ghost tells_images = { ⊥ };

    ghost content = { λ _. [] };

    ghost history = { λ _. record { moment = 0; at = λ _. fresh [] } };

    ghost faults = { λ disk. disk.faults };

    fn len(&mut self) -> Result<u64, Failed> {
        let answer = self.file.metadata();
        Ok(self.counted(answer)?.len())
    }

    fn read_at(&mut self, at: u64, buf: &mut [u8]) -> Result<(), Failed> {
        let answer = self.file.read_exact_at(buf, at);
        self.counted(answer)
    }

    fn write_at(&mut self, at: u64, piece: &[u8]) -> Result<(), Failed> {
        self.within(at)?;
        let answer = self.file.write_all_at(piece, at);
        self.counted(answer)
    }

    fn cut(&mut self, len: u64) -> Result<(), Failed> {
        self.within(len)?;
        let answer = self.file.set_len(len);
        self.counted(answer)
    }

    fn sync(&mut self) -> Result<(), Failed> {
        let answer = self.file.sync_all();
        self.counted(answer)
    }

    ghost tells_both = { λ told. told };

    ghost content_is_now = { λ _ told. absurd told };

    ghost content_is_image = { λ _ told. absurd told };
}
