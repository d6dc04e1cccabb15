use foz_words::{NoMemory, Row};
use std::alloc::Global;
use vk_form::{Structure, WordWriter, copies};

/// A buffer of vertices (Vulkan's `VkVertexInputBindingDescription`).
#[derive(Clone, Copy, Debug, PartialEq, Eq)]
pub struct VertexBinding {
    pub binding: u32,
    pub stride: u32,
    pub input_rate: u32,
}

/// An attribute of a vertex (Vulkan's `VkVertexInputAttributeDescription`).
#[derive(Clone, Copy, Debug, PartialEq, Eq)]
pub struct VertexAttribute {
    pub location: u32,
    pub binding: u32,
    pub format: u32,
    pub offset: u32,
}

/// Where vertices come from (Vulkan's `VkPipelineVertexInputStateCreateInfo`).
#[derive(Debug, Drop)]
pub struct VertexInput {
    pub flags: u32,
    pub vertex_binding_descriptions: Row<VertexBinding>,
    pub vertex_attribute_descriptions: Row<VertexAttribute>,
}

/// How vertices make primitives (Vulkan's `VkPipelineInputAssemblyStateCreateInfo`).
#[derive(Clone, Copy, Debug, PartialEq, Eq)]
pub struct InputAssembly {
    pub flags: u32,
    pub topology: u32,
    pub primitive_restart_enable: u32,
}

/// The size of a patch (Vulkan's `VkPipelineTessellationStateCreateInfo`).
#[derive(Clone, Copy, Debug, PartialEq, Eq)]
pub struct Tessellation {
    pub flags: u32,
    pub patch_control_points: u32,
}

#[tactic(auto, unfolding(crate::specs::Tables::vertex_binding, crate::specs::Plain::vertex_binding))]
impl Structure for VertexBinding {
    ghost use Rattle.vk_pipe.specs.Tables as table;
    ghost use Rattle.vk_pipe.specs.Plain as plain;
    ghost use Rattle.vk_pipe.specs.Made as made;
    ghost use Rattle.vk_pipe.specs.Back as back;

    ghost fields = { table.vertex_binding };

    ghost plain = { plain.vertex_binding };

    ghost of_plain = { made.vertex_binding };

    ghost back = { back.vertex_binding };

    fn copy(&self, _alloc: Global) -> Result<VertexBinding, NoMemory> {
        Ok(*self)
    }

    fn put_words(&self, out: &mut WordWriter) {
        out.number(self.binding);
        out.number(self.stride);
        out.number(self.input_rate);
    }
}

#[tactic(auto, unfolding(crate::specs::Tables::vertex_attribute, crate::specs::Plain::vertex_attribute))]
impl Structure for VertexAttribute {
    ghost use Rattle.vk_pipe.specs.Tables as table;
    ghost use Rattle.vk_pipe.specs.Plain as plain;
    ghost use Rattle.vk_pipe.specs.Made as made;
    ghost use Rattle.vk_pipe.specs.Back as back;

    ghost fields = { table.vertex_attribute };

    ghost plain = { plain.vertex_attribute };

    ghost of_plain = { made.vertex_attribute };

    ghost back = { back.vertex_attribute };

    fn copy(&self, _alloc: Global) -> Result<VertexAttribute, NoMemory> {
        Ok(*self)
    }

    fn put_words(&self, out: &mut WordWriter) {
        out.number(self.location);
        out.number(self.binding);
        out.number(self.format);
        out.number(self.offset);
    }
}

#[tactic(auto, unfolding(crate::specs::Tables::vertex_input, crate::specs::Plain::vertex_input))]
impl Structure for VertexInput {
    ghost use Rattle.vk_pipe.specs.Tables as table;
    ghost use Rattle.vk_pipe.specs.Plain as plain;
    ghost use Rattle.vk_pipe.specs.Made as made;
    ghost use Rattle.vk_pipe.specs.Back as back;

    ghost fields = { table.vertex_input };

    ghost plain = { plain.vertex_input };

    ghost of_plain = { made.vertex_input };

    ghost back = { back.vertex_input };

    fn copy(&self, alloc: Global) -> Result<VertexInput, NoMemory> {
        Ok(VertexInput {
            flags: self.flags,
            vertex_binding_descriptions: copies(alloc, &self.vertex_binding_descriptions)?,
            vertex_attribute_descriptions: copies(alloc, &self.vertex_attribute_descriptions)?,
        })
    }

    fn put_words(&self, out: &mut WordWriter) {
        out.number(self.flags);
        out.structures(&self.vertex_binding_descriptions);
        out.structures(&self.vertex_attribute_descriptions);
    }
}

#[tactic(auto, unfolding(crate::specs::Tables::input_assembly, crate::specs::Plain::input_assembly))]
impl Structure for InputAssembly {
    ghost use Rattle.vk_pipe.specs.Tables as table;
    ghost use Rattle.vk_pipe.specs.Plain as plain;
    ghost use Rattle.vk_pipe.specs.Made as made;
    ghost use Rattle.vk_pipe.specs.Back as back;

    ghost fields = { table.input_assembly };

    ghost plain = { plain.input_assembly };

    ghost of_plain = { made.input_assembly };

    ghost back = { back.input_assembly };

    fn copy(&self, _alloc: Global) -> Result<InputAssembly, NoMemory> {
        Ok(*self)
    }

    fn put_words(&self, out: &mut WordWriter) {
        out.number(self.flags);
        out.number(self.topology);
        out.number(self.primitive_restart_enable);
    }
}

#[tactic(auto, unfolding(crate::specs::Tables::tessellation, crate::specs::Plain::tessellation))]
impl Structure for Tessellation {
    ghost use Rattle.vk_pipe.specs.Tables as table;
    ghost use Rattle.vk_pipe.specs.Plain as plain;
    ghost use Rattle.vk_pipe.specs.Made as made;
    ghost use Rattle.vk_pipe.specs.Back as back;

    ghost fields = { table.tessellation };

    ghost plain = { plain.tessellation };

    ghost of_plain = { made.tessellation };

    ghost back = { back.tessellation };

    fn copy(&self, _alloc: Global) -> Result<Tessellation, NoMemory> {
        Ok(*self)
    }

    fn put_words(&self, out: &mut WordWriter) {
        out.number(self.flags);
        out.number(self.patch_control_points);
    }
}
