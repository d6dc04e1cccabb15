use crate::Pipe;
use foz_words::NoMemory;
use json_fold::{FieldReader, Json, ObjectWriter};
use vk_pipe::{Scissor, Viewport, Viewports};

#[tactic(auto, unfolding(vk_pipe::specs::Tables::viewport, vk_pipe::specs::Plain::viewport))]
impl Json<Pipe> for Viewport {
    ghost use Rattle.json_pipe.specs.Names as names;

    ghost sound = { names.viewport };

    fn put_members(&self, out: &mut ObjectWriter) -> Result<(), NoMemory> {
        out.unit("x", self.x)?;
        out.unit("y", self.y)?;
        out.unit("width", self.width)?;
        out.unit("height", self.height)?;
        out.unit("minDepth", self.min_depth)?;
        out.unit("maxDepth", self.max_depth)?;
        Ok(())
    }

    fn read_fields(fields: &mut FieldReader) -> Viewport {
        Viewport {
            x: fields.unit("x"),
            y: fields.unit("y"),
            width: fields.unit("width"),
            height: fields.unit("height"),
            min_depth: fields.unit("minDepth"),
            max_depth: fields.unit("maxDepth"),
        }
    }
}

#[tactic(auto, unfolding(vk_pipe::specs::Tables::scissor, vk_pipe::specs::Plain::scissor))]
impl Json<Pipe> for Scissor {
    ghost use Rattle.json_pipe.specs.Names as names;

    ghost sound = { names.scissor };

    fn put_members(&self, out: &mut ObjectWriter) -> Result<(), NoMemory> {
        out.number("x", self.x)?;
        out.number("y", self.y)?;
        out.number("width", self.width)?;
        out.number("height", self.height)?;
        Ok(())
    }

    fn read_fields(fields: &mut FieldReader) -> Scissor {
        Scissor {
            x: fields.number("x"),
            y: fields.number("y"),
            width: fields.number("width"),
            height: fields.number("height"),
        }
    }
}

#[tactic(auto, unfolding(vk_pipe::specs::Tables::viewports, vk_pipe::specs::Plain::viewports))]
impl Json<Pipe> for Viewports {
    ghost use Rattle.json_pipe.specs.Names as names;

    ghost sound = { names.viewports };

    fn put_members(&self, out: &mut ObjectWriter) -> Result<(), NoMemory> {
        out.number("flags", self.flags)?;
        out.number("viewportCount", self.viewport_count)?;
        out.structures("viewports", &self.viewports)?;
        out.number("scissorCount", self.scissor_count)?;
        out.structures("scissors", &self.scissors)?;
        Ok(())
    }

    fn read_fields(fields: &mut FieldReader) -> Viewports {
        Viewports {
            flags: fields.number("flags"),
            viewport_count: fields.number("viewportCount"),
            viewports: fields.structures("viewports"),
            scissor_count: fields.number("scissorCount"),
            scissors: fields.structures("scissors"),
        }
    }
}
