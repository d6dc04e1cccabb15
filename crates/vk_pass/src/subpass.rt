use crate::attachment::AttachmentRef;
use foz_words::{NoMemory, Row};
use std::alloc::Global;
use vk_form::{Structure, WordWriter, copies, optional_copy};

/// One step of a render pass (Vulkan's `VkSubpassDescription`).
#[derive(Debug, Drop)]
pub struct Subpass {
    pub flags: u32,
    pub pipeline_bind_point: u32,
    pub input_attachments: Row<AttachmentRef>,
    pub color_attachments: Row<AttachmentRef>,
    pub resolve_attachments: Row<AttachmentRef>,
    pub depth_stencil_attachment: Option<AttachmentRef>,
    pub preserve_attachments: Row<u32>,
}

/// What one subpass waits for in another (Vulkan's `VkSubpassDependency`).
#[derive(Clone, Copy, Debug, PartialEq, Eq)]
pub struct SubpassDependency {
    pub src_subpass: u32,
    pub dst_subpass: u32,
    pub src_stage_mask: u32,
    pub dst_stage_mask: u32,
    pub src_access_mask: u32,
    pub dst_access_mask: u32,
    pub dependency_flags: u32,
}

#[tactic(auto, unfolding(crate::specs::Tables::subpass, crate::specs::Plain::subpass))]
impl Structure for Subpass {
    ghost use Rattle.vk_pass.specs.Tables as table;
    ghost use Rattle.vk_pass.specs.Plain as plain;
    ghost use Rattle.vk_pass.specs.Made as made;
    ghost use Rattle.vk_pass.specs.Back as back;

    ghost fields = { table.subpass };

    ghost plain = { plain.subpass };

    ghost of_plain = { made.subpass };

    ghost back = { back.subpass };

    fn copy(&self, alloc: Global) -> Result<Subpass, NoMemory> {
        Ok(Subpass {
            flags: self.flags,
            pipeline_bind_point: self.pipeline_bind_point,
            input_attachments: copies(alloc, &self.input_attachments)?,
            color_attachments: copies(alloc, &self.color_attachments)?,
            resolve_attachments: copies(alloc, &self.resolve_attachments)?,
            depth_stencil_attachment: optional_copy(alloc, &self.depth_stencil_attachment)?,
            preserve_attachments: self.preserve_attachments.copy(alloc)?,
        })
    }

    fn put_words(&self, out: &mut WordWriter) {
        out.number(self.flags);
        out.number(self.pipeline_bind_point);
        out.structures(&self.input_attachments);
        out.structures(&self.color_attachments);
        out.structures(&self.resolve_attachments);
        out.optional(&self.depth_stencil_attachment);
        out.numbers(&self.preserve_attachments);
    }
}

#[tactic(auto, unfolding(crate::specs::Tables::subpass_dependency, crate::specs::Plain::subpass_dependency))]
impl Structure for SubpassDependency {
    ghost use Rattle.vk_pass.specs.Tables as table;
    ghost use Rattle.vk_pass.specs.Plain as plain;
    ghost use Rattle.vk_pass.specs.Made as made;
    ghost use Rattle.vk_pass.specs.Back as back;

    ghost fields = { table.subpass_dependency };

    ghost plain = { plain.subpass_dependency };

    ghost of_plain = { made.subpass_dependency };

    ghost back = { back.subpass_dependency };

    fn copy(&self, _alloc: Global) -> Result<SubpassDependency, NoMemory> {
        Ok(*self)
    }

    fn put_words(&self, out: &mut WordWriter) {
        out.number(self.src_subpass);
        out.number(self.dst_subpass);
        out.number(self.src_stage_mask);
        out.number(self.dst_stage_mask);
        out.number(self.src_access_mask);
        out.number(self.dst_access_mask);
        out.number(self.dependency_flags);
    }
}
