use foz_words::{NoMemory, Row};
use std::alloc::Global;
use vk_form::{Structure, WordWriter};

/// A shader module (Vulkan's `VkShaderModuleCreateInfo`), its SPIR-V code as words.
#[derive(Debug, Drop)]
pub struct ShaderModule {
    pub flags: u32,
    pub code: Row<u32>,
}

#[tactic(auto, unfolding(crate::specs::Tables::shader_module, crate::specs::Plain::shader_module))]
impl Structure for ShaderModule {
    ghost use Rattle.vk_basic.specs.Tables as table;
    ghost use Rattle.vk_basic.specs.Plain as plain;
    ghost use Rattle.vk_basic.specs.Made as made;
    ghost use Rattle.vk_basic.specs.Back as back;

    ghost fields = { table.shader_module };

    ghost plain = { plain.shader_module };

    ghost of_plain = { made.shader_module };

    ghost back = { back.shader_module };

    fn copy(&self, alloc: Global) -> Result<ShaderModule, NoMemory> {
        Ok(ShaderModule {
            flags: self.flags,
            code: self.code.copy(alloc)?,
        })
    }

    fn put_words(&self, out: &mut WordWriter) {
        out.number(self.flags);
        out.numbers(&self.code);
    }
}
