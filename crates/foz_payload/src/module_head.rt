use crate::Payload;
use foz_words::NoMemory;
use json_fold::{FieldReader, Json, ObjectWriter};
use std::alloc::Global;
use vk_form::{Structure, WordWriter};

/// What a payload says of a shader module: its flags, the size of its code in bytes, and where its varints stand.
#[derive(Clone, Copy, Debug, PartialEq, Eq)]
pub(crate) struct ModuleHead {
    pub flags: u32,
    pub code_size: u32,
    pub varint_offset: u32,
    pub varint_size: u32,
}

#[tactic(auto, unfolding(crate::specs::Tables::module_head, crate::specs::Plain::module_head))]
impl Structure for ModuleHead {
    ghost use Rattle.foz_payload.specs.Tables as table;
    ghost use Rattle.foz_payload.specs.Plain as plain;
    ghost use Rattle.foz_payload.specs.Made as made;
    ghost use Rattle.foz_payload.specs.Back as back;

    ghost fields = { table.module_head };

    ghost plain = { plain.module_head };

    ghost of_plain = { made.module_head };

    ghost back = { back.module_head };

    fn copy(&self, _alloc: Global) -> Result<ModuleHead, NoMemory> {
        Ok(*self)
    }

    fn put_words(&self, out: &mut WordWriter) {
        out.number(self.flags);
        out.number(self.code_size);
        out.number(self.varint_offset);
        out.number(self.varint_size);
    }
}

#[tactic(auto, unfolding(crate::specs::Tables::module_head, crate::specs::Plain::module_head))]
impl Json<Payload> for ModuleHead {
    ghost use Rattle.foz_payload.specs.Names as names;

    ghost sound = { names.module_head };

    fn put_members(&self, out: &mut ObjectWriter) -> Result<(), NoMemory> {
        out.number("flags", self.flags)?;
        out.number("codeSize", self.code_size)?;
        out.number("varintOffset", self.varint_offset)?;
        out.number("varintSize", self.varint_size)?;
        Ok(())
    }

    fn read_fields(fields: &mut FieldReader) -> ModuleHead {
        ModuleHead {
            flags: fields.number("flags"),
            code_size: fields.number("codeSize"),
            varint_offset: fields.number("varintOffset"),
            varint_size: fields.number("varintSize"),
        }
    }
}
