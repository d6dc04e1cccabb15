// What was seen of a module so far.
ghost use Rattle.std.specs.Prelude.{◌≡◌, ◌≤◌, ◌<◌, ◌+◌, [], None, length, OnOk, Result};
ghost use Rattle.spirv_check.specs.Modules.{Instruction, begin_fault, end_fault};
ghost use Rattle.spirv_check.specs.Seen.{seen_next, judged_of};

use crate::error::SpirvError;
use crate::names::entry_of;
use crate::shape::{EntryPoint, Shape};
use foz_words::{NoMemory, Row};
use std::alloc::Global;

const OP_MEMORY_MODEL: u32 = 14;

const OP_ENTRY_POINT: u32 = 15;

const OP_FUNCTION: u32 = 54;

const OP_FUNCTION_END: u32 = 56;

#[derive(Debug, Drop)]
pub(crate) struct Seen {
    /// How many memory models there are.
    pub(crate) models: usize,
    /// The first function that begins in another or that ends without a beginning.
    pub(crate) turn: Option<SpirvError>,
    /// Where the function begins that is open.
    pub(crate) opened: Option<usize>,
    /// Where the first entry point stands that has no name.
    pub(crate) bad_name: Option<usize>,
    pub(crate) entries: Row<EntryPoint>,
}

impl Seen {
    pub(crate) fn new(alloc: Global) -> Seen
        ensures { result ≡ record { models = 0; turn = None; opened = None; bad_name = None; entries = [] } }
    {
        Seen {
            models: 0,
            turn: None,
            opened: None,
            bad_name: None,
            entries: Row::new(alloc),
        }
    }

    /// Takes the next instruction, which stands at this place.
    pub(crate) fn take(
        &mut self,
        alloc: Global,
        at: usize,
        instruction: &[u32],
    ) -> Result<(), NoMemory>
        requires some { 0 < length instruction.now }
        requires few { self.old.models < at }
        ensures { OnOk result (self.new ≡ seen_next self.old (record { at = at; words = instruction.now })) }
    {
        match instruction[0] % 65536 {
            OP_MEMORY_MODEL => self.models += 1,
            OP_FUNCTION => {
                self.turn = self.turn.or(begin_fault(self.opened, at));
                self.opened = Some(at);
            }
            OP_FUNCTION_END => {
                self.turn = self.turn.or(end_fault(self.opened, at));
                self.opened = None;
            }
            OP_ENTRY_POINT => match entry_of(alloc, instruction)? {
                Some(entry) => self.entries.push(entry)?,
                None => self.bad_name = self.bad_name.or(Some(at)),
            },
            _ => {}
        }
        Ok(())
    }

    /// The shape of a module of which this is all, or its first fault.
    pub(crate) fn judge(self) -> Result<Shape, SpirvError>
        ensures { result ≡ judged_of self }
    {
        if self.models != 1 {
            return Err(SpirvError::MemoryModels { count: self.models });
        }
        if let Some(fault) = self.turn {
            return Err(fault);
        }
        if let Some(at) = self.opened {
            return Err(SpirvError::Unclosed { at });
        }
        if let Some(at) = self.bad_name {
            return Err(SpirvError::BadName { at });
        }
        if self.entries.is_empty() {
            return Err(SpirvError::NoEntryPoint);
        }
        Ok(Shape {
            entries: self.entries,
        })
    }
}

fn begin_fault(opened: Option<usize>, at: usize) -> Option<SpirvError>
    ensures { result ≡ begin_fault opened at }
{
    match opened {
        None => None,
        Some(_) => Some(SpirvError::Nested { at }),
    }
}

fn end_fault(opened: Option<usize>, at: usize) -> Option<SpirvError>
    ensures { result ≡ end_fault opened at }
{
    match opened {
        None => Some(SpirvError::Unopened { at }),
        Some(_) => None,
    }
}
