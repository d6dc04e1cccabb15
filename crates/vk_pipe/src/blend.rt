use foz_words::{NoMemory, Row, Unit};
use std::alloc::Global;
use vk_form::{Structure, WordWriter, copies};

/// How one attachment is blended (Vulkan's `VkPipelineColorBlendAttachmentState`).
#[derive(Clone, Copy, Debug, PartialEq, Eq)]
pub struct BlendAttachment {
    pub blend_enable: u32,
    pub src_color_blend_factor: u32,
    pub dst_color_blend_factor: u32,
    pub color_blend_op: u32,
    pub src_alpha_blend_factor: u32,
    pub dst_alpha_blend_factor: u32,
    pub alpha_blend_op: u32,
    pub color_write_mask: u32,
}

/// How attachments are blended (Vulkan's `VkPipelineColorBlendStateCreateInfo`).
#[derive(Debug, Drop)]
pub struct ColorBlend {
    pub flags: u32,
    pub logic_op_enable: u32,
    pub logic_op: u32,
    pub attachments: Row<BlendAttachment>,
    pub blend_constants0: Unit,
    pub blend_constants1: Unit,
    pub blend_constants2: Unit,
    pub blend_constants3: Unit,
}

/// What is set while drawing (Vulkan's `VkPipelineDynamicStateCreateInfo`).
#[derive(Debug, Drop)]
pub struct Dynamic {
    pub flags: u32,
    pub dynamic_states: Row<u32>,
}

#[tactic(auto, unfolding(crate::specs::Tables::blend_attachment, crate::specs::Plain::blend_attachment))]
impl Structure for BlendAttachment {
    ghost use Rattle.vk_pipe.specs.Tables as table;
    ghost use Rattle.vk_pipe.specs.Plain as plain;
    ghost use Rattle.vk_pipe.specs.Made as made;
    ghost use Rattle.vk_pipe.specs.Back as back;

    ghost fields = { table.blend_attachment };

    ghost plain = { plain.blend_attachment };

    ghost of_plain = { made.blend_attachment };

    ghost back = { back.blend_attachment };

    fn copy(&self, _alloc: Global) -> Result<BlendAttachment, NoMemory> {
        Ok(*self)
    }

    fn put_words(&self, out: &mut WordWriter) {
        out.number(self.blend_enable);
        out.number(self.src_color_blend_factor);
        out.number(self.dst_color_blend_factor);
        out.number(self.color_blend_op);
        out.number(self.src_alpha_blend_factor);
        out.number(self.dst_alpha_blend_factor);
        out.number(self.alpha_blend_op);
        out.number(self.color_write_mask);
    }
}

#[tactic(auto, unfolding(crate::specs::Tables::color_blend, crate::specs::Plain::color_blend))]
impl Structure for ColorBlend {
    ghost use Rattle.vk_pipe.specs.Tables as table;
    ghost use Rattle.vk_pipe.specs.Plain as plain;
    ghost use Rattle.vk_pipe.specs.Made as made;
    ghost use Rattle.vk_pipe.specs.Back as back;

    ghost fields = { table.color_blend };

    ghost plain = { plain.color_blend };

    ghost of_plain = { made.color_blend };

    ghost back = { back.color_blend };

    fn copy(&self, alloc: Global) -> Result<ColorBlend, NoMemory> {
        Ok(ColorBlend {
            flags: self.flags,
            logic_op_enable: self.logic_op_enable,
            logic_op: self.logic_op,
            attachments: copies(alloc, &self.attachments)?,
            blend_constants0: self.blend_constants0,
            blend_constants1: self.blend_constants1,
            blend_constants2: self.blend_constants2,
            blend_constants3: self.blend_constants3,
        })
    }

    fn put_words(&self, out: &mut WordWriter) {
        out.number(self.flags);
        out.number(self.logic_op_enable);
        out.number(self.logic_op);
        out.structures(&self.attachments);
        out.four_units(
            self.blend_constants0,
            self.blend_constants1,
            self.blend_constants2,
            self.blend_constants3,
        );
    }
}

#[tactic(auto, unfolding(crate::specs::Tables::dynamic, crate::specs::Plain::dynamic))]
impl Structure for Dynamic {
    ghost use Rattle.vk_pipe.specs.Tables as table;
    ghost use Rattle.vk_pipe.specs.Plain as plain;
    ghost use Rattle.vk_pipe.specs.Made as made;
    ghost use Rattle.vk_pipe.specs.Back as back;

    ghost fields = { table.dynamic };

    ghost plain = { plain.dynamic };

    ghost of_plain = { made.dynamic };

    ghost back = { back.dynamic };

    fn copy(&self, alloc: Global) -> Result<Dynamic, NoMemory> {
        Ok(Dynamic {
            flags: self.flags,
            dynamic_states: self.dynamic_states.copy(alloc)?,
        })
    }

    fn put_words(&self, out: &mut WordWriter) {
        out.number(self.flags);
        out.numbers(&self.dynamic_states);
    }
}
