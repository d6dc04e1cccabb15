use foz_words::NoMemory;
use std::alloc::Global;
use vk_form::{Structure, WordWriter};

/// An image that a render pass draws to or reads (Vulkan's `VkAttachmentDescription`).
#[derive(Clone, Copy, Debug, PartialEq, Eq)]
pub struct Attachment {
    pub flags: u32,
    pub format: u32,
    pub samples: u32,
    pub load_op: u32,
    pub store_op: u32,
    pub stencil_load_op: u32,
    pub stencil_store_op: u32,
    pub initial_layout: u32,
    pub final_layout: u32,
}

/// An attachment's number and the layout that it has in a subpass (Vulkan's `VkAttachmentReference`).
#[derive(Clone, Copy, Debug, PartialEq, Eq)]
pub struct AttachmentRef {
    pub attachment: u32,
    pub layout: u32,
}

#[tactic(auto, unfolding(crate::specs::Tables::attachment, crate::specs::Plain::attachment))]
impl Structure for Attachment {
    ghost use Rattle.vk_pass.specs.Tables as table;
    ghost use Rattle.vk_pass.specs.Plain as plain;
    ghost use Rattle.vk_pass.specs.Made as made;
    ghost use Rattle.vk_pass.specs.Back as back;

    ghost fields = { table.attachment };

    ghost plain = { plain.attachment };

    ghost of_plain = { made.attachment };

    ghost back = { back.attachment };

    fn copy(&self, _alloc: Global) -> Result<Attachment, NoMemory> {
        Ok(*self)
    }

    fn put_words(&self, out: &mut WordWriter) {
        out.number(self.flags);
        out.number(self.format);
        out.number(self.samples);
        out.number(self.load_op);
        out.number(self.store_op);
        out.number(self.stencil_load_op);
        out.number(self.stencil_store_op);
        out.number(self.initial_layout);
        out.number(self.final_layout);
    }
}

#[tactic(auto, unfolding(crate::specs::Tables::attachment_ref, crate::specs::Plain::attachment_ref))]
impl Structure for AttachmentRef {
    ghost use Rattle.vk_pass.specs.Tables as table;
    ghost use Rattle.vk_pass.specs.Plain as plain;
    ghost use Rattle.vk_pass.specs.Made as made;
    ghost use Rattle.vk_pass.specs.Back as back;

    ghost fields = { table.attachment_ref };

    ghost plain = { plain.attachment_ref };

    ghost of_plain = { made.attachment_ref };

    ghost back = { back.attachment_ref };

    fn copy(&self, _alloc: Global) -> Result<AttachmentRef, NoMemory> {
        Ok(*self)
    }

    fn put_words(&self, out: &mut WordWriter) {
        out.number(self.attachment);
        out.number(self.layout);
    }
}
