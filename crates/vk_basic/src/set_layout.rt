use foz_words::{NoMemory, Row};
use std::alloc::Global;
use vk_form::{Structure, WordWriter, copies};

/// One place of a descriptor set (Vulkan's `VkDescriptorSetLayoutBinding`). Immutable samplers are named by their hashes.
#[derive(Debug, Drop)]
pub struct Binding {
    pub binding: u32,
    pub descriptor_type: u32,
    pub descriptor_count: u32,
    pub stage_flags: u32,
    pub immutable_samplers: Row<u64>,
}

/// The layout of a descriptor set (Vulkan's `VkDescriptorSetLayoutCreateInfo`).
#[derive(Debug, Drop)]
pub struct SetLayout {
    pub flags: u32,
    pub bindings: Row<Binding>,
}

#[tactic(auto, unfolding(crate::specs::Tables::binding, crate::specs::Plain::binding))]
impl Structure for Binding {
    ghost use Rattle.vk_basic.specs.Tables as table;
    ghost use Rattle.vk_basic.specs.Plain as plain;
    ghost use Rattle.vk_basic.specs.Made as made;
    ghost use Rattle.vk_basic.specs.Back as back;

    ghost fields = { table.binding };

    ghost plain = { plain.binding };

    ghost of_plain = { made.binding };

    ghost back = { back.binding };

    fn copy(&self, alloc: Global) -> Result<Binding, NoMemory> {
        Ok(Binding {
            binding: self.binding,
            descriptor_type: self.descriptor_type,
            descriptor_count: self.descriptor_count,
            stage_flags: self.stage_flags,
            immutable_samplers: self.immutable_samplers.copy(alloc)?,
        })
    }

    fn put_words(&self, out: &mut WordWriter) {
        out.number(self.binding);
        out.number(self.descriptor_type);
        out.number(self.descriptor_count);
        out.number(self.stage_flags);
        out.hashes(&self.immutable_samplers);
    }
}

#[tactic(auto, unfolding(crate::specs::Tables::set_layout, crate::specs::Plain::set_layout))]
impl Structure for SetLayout {
    ghost use Rattle.vk_basic.specs.Tables as table;
    ghost use Rattle.vk_basic.specs.Plain as plain;
    ghost use Rattle.vk_basic.specs.Made as made;
    ghost use Rattle.vk_basic.specs.Back as back;

    ghost fields = { table.set_layout };

    ghost plain = { plain.set_layout };

    ghost of_plain = { made.set_layout };

    ghost back = { back.set_layout };

    fn copy(&self, alloc: Global) -> Result<SetLayout, NoMemory> {
        Ok(SetLayout {
            flags: self.flags,
            bindings: copies(alloc, &self.bindings)?,
        })
    }

    fn put_words(&self, out: &mut WordWriter) {
        out.number(self.flags);
        out.structures(&self.bindings);
    }
}
