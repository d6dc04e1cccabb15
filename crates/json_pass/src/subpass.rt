use crate::Pass;
use foz_words::NoMemory;
use json_fold::{FieldReader, Json, ObjectWriter};
use vk_pass::{Subpass, SubpassDependency};

#[tactic(auto, unfolding(vk_pass::specs::Tables::subpass, vk_pass::specs::Plain::subpass))]
impl Json<Pass> for Subpass {
    ghost use Rattle.json_pass.specs.Names as names;

    ghost sound = { names.subpass };

    fn put_members(&self, out: &mut ObjectWriter) -> Result<(), NoMemory> {
        out.number("flags", self.flags)?;
        out.number("pipelineBindPoint", self.pipeline_bind_point)?;
        out.structures("inputAttachments", &self.input_attachments)?;
        out.structures("colorAttachments", &self.color_attachments)?;
        out.structures("resolveAttachments", &self.resolve_attachments)?;
        out.optional("depthStencilAttachment", &self.depth_stencil_attachment)?;
        out.numbers("preserveAttachments", &self.preserve_attachments)?;
        Ok(())
    }

    fn read_fields(fields: &mut FieldReader) -> Subpass {
        Subpass {
            flags: fields.number("flags"),
            pipeline_bind_point: fields.number("pipelineBindPoint"),
            input_attachments: fields.structures("inputAttachments"),
            color_attachments: fields.structures("colorAttachments"),
            resolve_attachments: fields.structures("resolveAttachments"),
            depth_stencil_attachment: fields.optional("depthStencilAttachment"),
            preserve_attachments: fields.numbers("preserveAttachments"),
        }
    }
}

#[tactic(auto, unfolding(vk_pass::specs::Tables::subpass_dependency, vk_pass::specs::Plain::subpass_dependency))]
impl Json<Pass> for SubpassDependency {
    ghost use Rattle.json_pass.specs.Names as names;

    ghost sound = { names.subpass_dependency };

    fn put_members(&self, out: &mut ObjectWriter) -> Result<(), NoMemory> {
        out.number("srcSubpass", self.src_subpass)?;
        out.number("dstSubpass", self.dst_subpass)?;
        out.number("srcStageMask", self.src_stage_mask)?;
        out.number("dstStageMask", self.dst_stage_mask)?;
        out.number("srcAccessMask", self.src_access_mask)?;
        out.number("dstAccessMask", self.dst_access_mask)?;
        out.number("dependencyFlags", self.dependency_flags)?;
        Ok(())
    }

    fn read_fields(fields: &mut FieldReader) -> SubpassDependency {
        SubpassDependency {
            src_subpass: fields.number("srcSubpass"),
            dst_subpass: fields.number("dstSubpass"),
            src_stage_mask: fields.number("srcStageMask"),
            dst_stage_mask: fields.number("dstStageMask"),
            src_access_mask: fields.number("srcAccessMask"),
            dst_access_mask: fields.number("dstAccessMask"),
            dependency_flags: fields.number("dependencyFlags"),
        }
    }
}
