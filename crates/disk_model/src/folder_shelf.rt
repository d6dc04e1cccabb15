// The files of the system by their paths. The shelf tells nothing but its faults.
ghost use Rattle.std.specs.Prelude.{◌≡◌};
ghost use Rattle.disk_model.specs.Place.{missing};

use crate::{FileDisk, Mode, Shelf, TakeError};
use std::alloc::Global;
use std::fs::{File, OpenOptions};
use std::io;
use std::io::ErrorKind;
use std::path::Path;
use std::rt::Files;

/// The files of the system by their paths, from the folder where the process runs.
#[derive(Drop)]
pub struct FolderShelf<R: Drop> {
    rt: R,
    faults: u64,
}

impl<R: Files<File = File> + Drop> FolderShelf<R> {
    pub fn new(rt: R) -> FolderShelf<R>
        ensures faults { ⟦<FolderShelf<R> as Shelf>⟧.faults result ≡ 0 }
    {
        FolderShelf { rt, faults: 0 }
    }

    fn open(&self, name: &str, mode: Mode) -> io::Result<File> {
        match mode {
            Mode::Read => File::open(&self.rt, name),
            Mode::Write => {
                let mut options = OpenOptions::new();
                options.read(true).write(true);
                match options.open(&self.rt, name) {
                    Err(error) if error.kind() == ErrorKind::NotFound => self.create(name),
                    opened => opened,
                }
            }
        }
    }

    // An empty file. Its folder is synced, so that after a crash the file is still there.
    fn create(&self, name: &str) -> io::Result<File> {
        let mut options = OpenOptions::new();
        let file = options
            .read(true)
            .write(true)
            .create(true)
            .open(&self.rt, name)?;
        let folder = match Path::new(name).parent() {
            Some(folder) if !folder.as_str().is_empty() => folder.as_str(),
            _ => ".",
        };
        File::open(&self.rt, folder)?.sync_all()?;
        Ok(file)
    }
}

impl<R: Files<File = File> + Drop> Shelf for FolderShelf<R> {
    type Held = FileDisk;

    ghost tells = { ⊥ };

    ghost places = { λ _ _. missing };

    ghost faults = { λ shelf. shelf.faults };

    fn take(&mut self, _alloc: Global, name: &str, mode: Mode) -> Result<FileDisk, TakeError> {
        match self.open(name, mode) {
            Ok(file) => Ok(FileDisk::new(file)),
            Err(error) => match (error.kind(), mode) {
                (ErrorKind::NotFound, Mode::Read) => Err(TakeError::Absent),
                (ErrorKind::OutOfMemory, _) => Err(TakeError::Memory),
                _ => {
                    self.faults = self.faults.saturating_add(1);
                    Err(TakeError::Failed)
                }
            },
        }
    }

    fn put_back(&mut self, _name: &str, _disk: FileDisk) {}
}
