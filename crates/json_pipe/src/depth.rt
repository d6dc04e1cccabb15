use crate::Pipe;
use foz_words::NoMemory;
use json_fold::{FieldReader, Json, ObjectWriter};
use vk_pipe::{DepthStencil, StencilOp};

#[tactic(auto, unfolding(vk_pipe::specs::Tables::stencil_op, vk_pipe::specs::Plain::stencil_op))]
impl Json<Pipe> for StencilOp {
    ghost use Rattle.json_pipe.specs.Names as names;

    ghost sound = { names.stencil_op };

    fn put_members(&self, out: &mut ObjectWriter) -> Result<(), NoMemory> {
        out.number("failOp", self.fail_op)?;
        out.number("passOp", self.pass_op)?;
        out.number("depthFailOp", self.depth_fail_op)?;
        out.number("compareOp", self.compare_op)?;
        out.number("compareMask", self.compare_mask)?;
        out.number("writeMask", self.write_mask)?;
        out.number("reference", self.reference)?;
        Ok(())
    }

    fn read_fields(fields: &mut FieldReader) -> StencilOp {
        StencilOp {
            fail_op: fields.number("failOp"),
            pass_op: fields.number("passOp"),
            depth_fail_op: fields.number("depthFailOp"),
            compare_op: fields.number("compareOp"),
            compare_mask: fields.number("compareMask"),
            write_mask: fields.number("writeMask"),
            reference: fields.number("reference"),
        }
    }
}

#[tactic(auto, unfolding(vk_pipe::specs::Tables::depth_stencil, vk_pipe::specs::Plain::depth_stencil))]
impl Json<Pipe> for DepthStencil {
    ghost use Rattle.json_pipe.specs.Names as names;

    ghost sound = { names.depth_stencil };

    fn put_members(&self, out: &mut ObjectWriter) -> Result<(), NoMemory> {
        out.number("flags", self.flags)?;
        out.number("depthTestEnable", self.depth_test_enable)?;
        out.number("depthWriteEnable", self.depth_write_enable)?;
        out.number("depthCompareOp", self.depth_compare_op)?;
        out.number("depthBoundsTestEnable", self.depth_bounds_test_enable)?;
        out.number("stencilTestEnable", self.stencil_test_enable)?;
        out.structure("front", &self.front)?;
        out.structure("back", &self.back)?;
        out.unit("minDepthBounds", self.min_depth_bounds)?;
        out.unit("maxDepthBounds", self.max_depth_bounds)?;
        Ok(())
    }

    fn read_fields(fields: &mut FieldReader) -> DepthStencil {
        DepthStencil {
            flags: fields.number("flags"),
            depth_test_enable: fields.number("depthTestEnable"),
            depth_write_enable: fields.number("depthWriteEnable"),
            depth_compare_op: fields.number("depthCompareOp"),
            depth_bounds_test_enable: fields.number("depthBoundsTestEnable"),
            stencil_test_enable: fields.number("stencilTestEnable"),
            front: fields.structure("front"),
            back: fields.structure("back"),
            min_depth_bounds: fields.unit("minDepthBounds"),
            max_depth_bounds: fields.unit("maxDepthBounds"),
        }
    }
}
