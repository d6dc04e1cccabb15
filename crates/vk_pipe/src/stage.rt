use foz_words::{Name, NoMemory, Row};
use std::alloc::Global;
use vk_form::{Structure, WordWriter, copies, optional_copy};

/// Where a specialization constant stands in the data, in bytes (Vulkan's `VkSpecializationMapEntry`).
#[derive(Clone, Copy, Debug, PartialEq, Eq)]
pub struct MapEntry {
    pub constant_id: u32,
    pub offset: u32,
    pub size: u32,
}

/// The specialization constants of a stage (Vulkan's `VkSpecializationInfo`).
#[derive(Debug, Drop)]
pub struct SpecInfo {
    pub map_entries: Row<MapEntry>,
    pub data_bytes: Row<u8>,
}

/// One stage of a pipeline (Vulkan's `VkPipelineShaderStageCreateInfo`). The module is named by its hash.
#[derive(Debug, Drop)]
pub struct Stage {
    pub flags: u32,
    pub stage: u32,
    pub module: u64,
    pub name: Name,
    pub specialization_info: Option<SpecInfo>,
}

#[tactic(auto, unfolding(crate::specs::Tables::map_entry, crate::specs::Plain::map_entry))]
impl Structure for MapEntry {
    ghost use Rattle.vk_pipe.specs.Tables as table;
    ghost use Rattle.vk_pipe.specs.Plain as plain;
    ghost use Rattle.vk_pipe.specs.Made as made;
    ghost use Rattle.vk_pipe.specs.Back as back;

    ghost fields = { table.map_entry };

    ghost plain = { plain.map_entry };

    ghost of_plain = { made.map_entry };

    ghost back = { back.map_entry };

    fn copy(&self, _alloc: Global) -> Result<MapEntry, NoMemory> {
        Ok(*self)
    }

    fn put_words(&self, out: &mut WordWriter) {
        out.number(self.constant_id);
        out.number(self.offset);
        out.number(self.size);
    }
}

#[tactic(auto, unfolding(crate::specs::Tables::spec_info, crate::specs::Plain::spec_info))]
impl Structure for SpecInfo {
    ghost use Rattle.vk_pipe.specs.Tables as table;
    ghost use Rattle.vk_pipe.specs.Plain as plain;
    ghost use Rattle.vk_pipe.specs.Made as made;
    ghost use Rattle.vk_pipe.specs.Back as back;

    ghost fields = { table.spec_info };

    ghost plain = { plain.spec_info };

    ghost of_plain = { made.spec_info };

    ghost back = { back.spec_info };

    fn copy(&self, alloc: Global) -> Result<SpecInfo, NoMemory> {
        Ok(SpecInfo {
            map_entries: copies(alloc, &self.map_entries)?,
            data_bytes: self.data_bytes.copy(alloc)?,
        })
    }

    fn put_words(&self, out: &mut WordWriter) {
        out.structures(&self.map_entries);
        out.bytes(&self.data_bytes);
    }
}

#[tactic(auto, unfolding(crate::specs::Tables::stage, crate::specs::Plain::stage))]
impl Structure for Stage {
    ghost use Rattle.vk_pipe.specs.Tables as table;
    ghost use Rattle.vk_pipe.specs.Plain as plain;
    ghost use Rattle.vk_pipe.specs.Made as made;
    ghost use Rattle.vk_pipe.specs.Back as back;

    ghost fields = { table.stage };

    ghost plain = { plain.stage };

    ghost of_plain = { made.stage };

    ghost back = { back.stage };

    fn copy(&self, alloc: Global) -> Result<Stage, NoMemory> {
        Ok(Stage {
            flags: self.flags,
            stage: self.stage,
            module: self.module,
            name: self.name.copy(alloc)?,
            specialization_info: optional_copy(alloc, &self.specialization_info)?,
        })
    }

    fn put_words(&self, out: &mut WordWriter) {
        out.number(self.flags);
        out.number(self.stage);
        out.hash(self.module);
        out.text(&self.name);
        out.optional(&self.specialization_info);
    }
}
