use crate::Pipe;
use foz_words::NoMemory;
use json_fold::{FieldReader, Json, ObjectWriter};
use vk_pipe::{MapEntry, SpecInfo, Stage};

#[tactic(auto, unfolding(vk_pipe::specs::Tables::map_entry, vk_pipe::specs::Plain::map_entry))]
impl Json<Pipe> for MapEntry {
    ghost use Rattle.json_pipe.specs.Names as names;

    ghost sound = { names.map_entry };

    fn put_members(&self, out: &mut ObjectWriter) -> Result<(), NoMemory> {
        out.number("constantID", self.constant_id)?;
        out.number("offset", self.offset)?;
        out.number("size", self.size)?;
        Ok(())
    }

    fn read_fields(fields: &mut FieldReader) -> MapEntry {
        MapEntry {
            constant_id: fields.number("constantID"),
            offset: fields.number("offset"),
            size: fields.number("size"),
        }
    }
}

#[tactic(auto, unfolding(vk_pipe::specs::Tables::spec_info, vk_pipe::specs::Plain::spec_info))]
impl Json<Pipe> for SpecInfo {
    ghost use Rattle.json_pipe.specs.Names as names;

    ghost sound = { names.spec_info };

    fn put_members(&self, out: &mut ObjectWriter) -> Result<(), NoMemory> {
        out.structures("mapEntries", &self.map_entries)?;
        out.bytes("data", &self.data_bytes)?;
        Ok(())
    }

    fn read_fields(fields: &mut FieldReader) -> SpecInfo {
        SpecInfo {
            map_entries: fields.structures("mapEntries"),
            data_bytes: fields.bytes("data"),
        }
    }
}

#[tactic(auto, unfolding(vk_pipe::specs::Tables::stage, vk_pipe::specs::Plain::stage))]
impl Json<Pipe> for Stage {
    ghost use Rattle.json_pipe.specs.Names as names;

    ghost sound = { names.stage };

    fn put_members(&self, out: &mut ObjectWriter) -> Result<(), NoMemory> {
        out.number("flags", self.flags)?;
        out.number("stage", self.stage)?;
        out.hash("module", self.module)?;
        out.text("name", &self.name)?;
        out.optional("specializationInfo", &self.specialization_info)?;
        Ok(())
    }

    fn read_fields(fields: &mut FieldReader) -> Stage {
        Stage {
            flags: fields.number("flags"),
            stage: fields.number("stage"),
            module: fields.hash("module"),
            name: fields.text("name"),
            specialization_info: fields.optional("specializationInfo"),
        }
    }
}
