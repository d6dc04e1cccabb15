use foz_words::{NoMemory, Row};
use json_fold::{FieldReader, Json, ObjectWriter};
use std::alloc::Global;
use vk_form::{Structure, WordWriter};

/// A shader module as a capture line holds it: its code as bytes, four a word, low byte first.
#[derive(Debug, Drop)]
pub(crate) struct CapturedModule {
    pub flags: u32,
    pub code: Row<u8>,
}

/// This crate, for its `impl` of `Json`.
pub(crate) struct Capture;

#[tactic(auto, unfolding(crate::specs::Tables::captured_module, crate::specs::Plain::captured_module))]
impl Structure for CapturedModule {
    ghost use Rattle.capture_lines.specs.Tables as table;
    ghost use Rattle.capture_lines.specs.Plain as plain;
    ghost use Rattle.capture_lines.specs.Made as made;
    ghost use Rattle.capture_lines.specs.Back as back;

    ghost fields = { table.captured_module };

    ghost plain = { plain.captured_module };

    ghost of_plain = { made.captured_module };

    ghost back = { back.captured_module };

    fn copy(&self, alloc: Global) -> Result<CapturedModule, NoMemory> {
        Ok(CapturedModule {
            flags: self.flags,
            code: self.code.copy(alloc)?,
        })
    }

    fn put_words(&self, out: &mut WordWriter) {
        out.number(self.flags);
        out.bytes(&self.code);
    }
}

#[tactic(auto, unfolding(crate::specs::Tables::captured_module, crate::specs::Plain::captured_module))]
impl Json<Capture> for CapturedModule {
    ghost use Rattle.capture_lines.specs.Names as names;

    ghost sound = { names.captured_module };

    fn put_members(&self, out: &mut ObjectWriter) -> Result<(), NoMemory> {
        out.number("flags", self.flags)?;
        out.bytes("code", &self.code)?;
        Ok(())
    }

    fn read_fields(fields: &mut FieldReader) -> CapturedModule {
        CapturedModule {
            flags: fields.number("flags"),
            code: fields.bytes("code"),
        }
    }
}
