use crate::Pass;
use foz_words::NoMemory;
use json_fold::{FieldReader, Json, ObjectWriter};
use vk_pass::RenderPass;

#[tactic(auto, unfolding(vk_pass::specs::Tables::render_pass, vk_pass::specs::Plain::render_pass))]
impl Json<Pass> for RenderPass {
    ghost use Rattle.json_pass.specs.Names as names;

    ghost sound = { names.render_pass };

    fn put_members(&self, out: &mut ObjectWriter) -> Result<(), NoMemory> {
        out.number("flags", self.flags)?;
        out.structures("attachments", &self.attachments)?;
        out.structures("subpasses", &self.subpasses)?;
        out.structures("dependencies", &self.dependencies)?;
        Ok(())
    }

    fn read_fields(fields: &mut FieldReader) -> RenderPass {
        RenderPass {
            flags: fields.number("flags"),
            attachments: fields.structures("attachments"),
            subpasses: fields.structures("subpasses"),
            dependencies: fields.structures("dependencies"),
        }
    }
}
