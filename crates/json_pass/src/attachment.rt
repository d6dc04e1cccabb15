use crate::Pass;
use foz_words::NoMemory;
use json_fold::{FieldReader, Json, ObjectWriter};
use vk_pass::{Attachment, AttachmentRef};

#[tactic(auto, unfolding(vk_pass::specs::Tables::attachment, vk_pass::specs::Plain::attachment))]
impl Json<Pass> for Attachment {
    ghost use Rattle.json_pass.specs.Names as names;

    ghost sound = { names.attachment };

    fn put_members(&self, out: &mut ObjectWriter) -> Result<(), NoMemory> {
        out.number("flags", self.flags)?;
        out.number("format", self.format)?;
        out.number("samples", self.samples)?;
        out.number("loadOp", self.load_op)?;
        out.number("storeOp", self.store_op)?;
        out.number("stencilLoadOp", self.stencil_load_op)?;
        out.number("stencilStoreOp", self.stencil_store_op)?;
        out.number("initialLayout", self.initial_layout)?;
        out.number("finalLayout", self.final_layout)?;
        Ok(())
    }

    fn read_fields(fields: &mut FieldReader) -> Attachment {
        Attachment {
            flags: fields.number("flags"),
            format: fields.number("format"),
            samples: fields.number("samples"),
            load_op: fields.number("loadOp"),
            store_op: fields.number("storeOp"),
            stencil_load_op: fields.number("stencilLoadOp"),
            stencil_store_op: fields.number("stencilStoreOp"),
            initial_layout: fields.number("initialLayout"),
            final_layout: fields.number("finalLayout"),
        }
    }
}

#[tactic(auto, unfolding(vk_pass::specs::Tables::attachment_ref, vk_pass::specs::Plain::attachment_ref))]
impl Json<Pass> for AttachmentRef {
    ghost use Rattle.json_pass.specs.Names as names;

    ghost sound = { names.attachment_ref };

    fn put_members(&self, out: &mut ObjectWriter) -> Result<(), NoMemory> {
        out.number("attachment", self.attachment)?;
        out.number("layout", self.layout)?;
        Ok(())
    }

    fn read_fields(fields: &mut FieldReader) -> AttachmentRef {
        AttachmentRef {
            attachment: fields.number("attachment"),
            layout: fields.number("layout"),
        }
    }
}
