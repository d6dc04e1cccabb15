use foz_words::{NoMemory, Row, Unit};
use std::alloc::Global;
use vk_form::{Structure, WordWriter, copies};

/// A part of the picture that is drawn to (Vulkan's `VkViewport`).
#[derive(Clone, Copy, Debug, PartialEq, Eq)]
pub struct Viewport {
    pub x: Unit,
    pub y: Unit,
    pub width: Unit,
    pub height: Unit,
    pub min_depth: Unit,
    pub max_depth: Unit,
}

/// A rectangle that drawing keeps to (Vulkan's `VkRect2D`).
#[derive(Clone, Copy, Debug, PartialEq, Eq)]
pub struct Scissor {
    pub x: u32,
    pub y: u32,
    pub width: u32,
    pub height: u32,
}

/// Viewports and scissors (Vulkan's `VkPipelineViewportStateCreateInfo`). The counts stand for themselves, since dynamic state has no lists.
#[derive(Debug, Drop)]
pub struct Viewports {
    pub flags: u32,
    pub viewport_count: u32,
    pub viewports: Row<Viewport>,
    pub scissor_count: u32,
    pub scissors: Row<Scissor>,
}

#[tactic(auto, unfolding(crate::specs::Tables::viewport, crate::specs::Plain::viewport))]
impl Structure for Viewport {
    ghost use Rattle.vk_pipe.specs.Tables as table;
    ghost use Rattle.vk_pipe.specs.Plain as plain;
    ghost use Rattle.vk_pipe.specs.Made as made;
    ghost use Rattle.vk_pipe.specs.Back as back;

    ghost fields = { table.viewport };

    ghost plain = { plain.viewport };

    ghost of_plain = { made.viewport };

    ghost back = { back.viewport };

    fn copy(&self, _alloc: Global) -> Result<Viewport, NoMemory> {
        Ok(*self)
    }

    fn put_words(&self, out: &mut WordWriter) {
        out.unit(self.x);
        out.unit(self.y);
        out.unit(self.width);
        out.unit(self.height);
        out.unit(self.min_depth);
        out.unit(self.max_depth);
    }
}

#[tactic(auto, unfolding(crate::specs::Tables::scissor, crate::specs::Plain::scissor))]
impl Structure for Scissor {
    ghost use Rattle.vk_pipe.specs.Tables as table;
    ghost use Rattle.vk_pipe.specs.Plain as plain;
    ghost use Rattle.vk_pipe.specs.Made as made;
    ghost use Rattle.vk_pipe.specs.Back as back;

    ghost fields = { table.scissor };

    ghost plain = { plain.scissor };

    ghost of_plain = { made.scissor };

    ghost back = { back.scissor };

    fn copy(&self, _alloc: Global) -> Result<Scissor, NoMemory> {
        Ok(*self)
    }

    fn put_words(&self, out: &mut WordWriter) {
        out.number(self.x);
        out.number(self.y);
        out.number(self.width);
        out.number(self.height);
    }
}

#[tactic(auto, unfolding(crate::specs::Tables::viewports, crate::specs::Plain::viewports))]
impl Structure for Viewports {
    ghost use Rattle.vk_pipe.specs.Tables as table;
    ghost use Rattle.vk_pipe.specs.Plain as plain;
    ghost use Rattle.vk_pipe.specs.Made as made;
    ghost use Rattle.vk_pipe.specs.Back as back;

    ghost fields = { table.viewports };

    ghost plain = { plain.viewports };

    ghost of_plain = { made.viewports };

    ghost back = { back.viewports };

    fn copy(&self, alloc: Global) -> Result<Viewports, NoMemory> {
        Ok(Viewports {
            flags: self.flags,
            viewport_count: self.viewport_count,
            viewports: copies(alloc, &self.viewports)?,
            scissor_count: self.scissor_count,
            scissors: copies(alloc, &self.scissors)?,
        })
    }

    fn put_words(&self, out: &mut WordWriter) {
        out.number(self.flags);
        out.number(self.viewport_count);
        out.structures(&self.viewports);
        out.number(self.scissor_count);
        out.structures(&self.scissors);
    }
}
