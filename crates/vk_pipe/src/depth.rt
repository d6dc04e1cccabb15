use foz_words::{NoMemory, Unit};
use std::alloc::Global;
use vk_form::{Structure, WordWriter};

/// What the stencil test does (Vulkan's `VkStencilOpState`).
#[derive(Clone, Copy, Debug, PartialEq, Eq)]
pub struct StencilOp {
    pub fail_op: u32,
    pub pass_op: u32,
    pub depth_fail_op: u32,
    pub compare_op: u32,
    pub compare_mask: u32,
    pub write_mask: u32,
    pub reference: u32,
}

/// The depth and stencil tests (Vulkan's `VkPipelineDepthStencilStateCreateInfo`).
#[derive(Debug, Drop)]
pub struct DepthStencil {
    pub flags: u32,
    pub depth_test_enable: u32,
    pub depth_write_enable: u32,
    pub depth_compare_op: u32,
    pub depth_bounds_test_enable: u32,
    pub stencil_test_enable: u32,
    pub front: StencilOp,
    pub back: StencilOp,
    pub min_depth_bounds: Unit,
    pub max_depth_bounds: Unit,
}

#[tactic(auto, unfolding(crate::specs::Tables::stencil_op, crate::specs::Plain::stencil_op))]
impl Structure for StencilOp {
    ghost use Rattle.vk_pipe.specs.Tables as table;
    ghost use Rattle.vk_pipe.specs.Plain as plain;
    ghost use Rattle.vk_pipe.specs.Made as made;
    ghost use Rattle.vk_pipe.specs.Back as back;

    ghost fields = { table.stencil_op };

    ghost plain = { plain.stencil_op };

    ghost of_plain = { made.stencil_op };

    ghost back = { back.stencil_op };

    fn copy(&self, _alloc: Global) -> Result<StencilOp, NoMemory> {
        Ok(*self)
    }

    fn put_words(&self, out: &mut WordWriter) {
        out.number(self.fail_op);
        out.number(self.pass_op);
        out.number(self.depth_fail_op);
        out.number(self.compare_op);
        out.number(self.compare_mask);
        out.number(self.write_mask);
        out.number(self.reference);
    }
}

#[tactic(auto, unfolding(crate::specs::Tables::depth_stencil, crate::specs::Plain::depth_stencil))]
impl Structure for DepthStencil {
    ghost use Rattle.vk_pipe.specs.Tables as table;
    ghost use Rattle.vk_pipe.specs.Plain as plain;
    ghost use Rattle.vk_pipe.specs.Made as made;
    ghost use Rattle.vk_pipe.specs.Back as back;

    ghost fields = { table.depth_stencil };

    ghost plain = { plain.depth_stencil };

    ghost of_plain = { made.depth_stencil };

    ghost back = { back.depth_stencil };

    fn copy(&self, alloc: Global) -> Result<DepthStencil, NoMemory> {
        Ok(DepthStencil {
            flags: self.flags,
            depth_test_enable: self.depth_test_enable,
            depth_write_enable: self.depth_write_enable,
            depth_compare_op: self.depth_compare_op,
            depth_bounds_test_enable: self.depth_bounds_test_enable,
            stencil_test_enable: self.stencil_test_enable,
            front: self.front,
            back: self.back,
            min_depth_bounds: self.min_depth_bounds,
            max_depth_bounds: self.max_depth_bounds,
        })
    }

    fn put_words(&self, out: &mut WordWriter) {
        out.number(self.flags);
        out.number(self.depth_test_enable);
        out.number(self.depth_write_enable);
        out.number(self.depth_compare_op);
        out.number(self.depth_bounds_test_enable);
        out.number(self.stencil_test_enable);
        out.structure(&self.front);
        out.structure(&self.back);
        out.unit(self.min_depth_bounds);
        out.unit(self.max_depth_bounds);
    }
}
