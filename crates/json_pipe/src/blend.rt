use crate::Pipe;
use foz_words::NoMemory;
use json_fold::{FieldReader, Json, ObjectWriter};
use vk_pipe::{BlendAttachment, ColorBlend, Dynamic};

#[tactic(auto, unfolding(vk_pipe::specs::Tables::blend_attachment, vk_pipe::specs::Plain::blend_attachment))]
impl Json<Pipe> for BlendAttachment {
    ghost use Rattle.json_pipe.specs.Names as names;

    ghost sound = { names.blend_attachment };

    fn put_members(&self, out: &mut ObjectWriter) -> Result<(), NoMemory> {
        out.number("blendEnable", self.blend_enable)?;
        out.number("srcColorBlendFactor", self.src_color_blend_factor)?;
        out.number("dstColorBlendFactor", self.dst_color_blend_factor)?;
        out.number("colorBlendOp", self.color_blend_op)?;
        out.number("srcAlphaBlendFactor", self.src_alpha_blend_factor)?;
        out.number("dstAlphaBlendFactor", self.dst_alpha_blend_factor)?;
        out.number("alphaBlendOp", self.alpha_blend_op)?;
        out.number("colorWriteMask", self.color_write_mask)?;
        Ok(())
    }

    fn read_fields(fields: &mut FieldReader) -> BlendAttachment {
        BlendAttachment {
            blend_enable: fields.number("blendEnable"),
            src_color_blend_factor: fields.number("srcColorBlendFactor"),
            dst_color_blend_factor: fields.number("dstColorBlendFactor"),
            color_blend_op: fields.number("colorBlendOp"),
            src_alpha_blend_factor: fields.number("srcAlphaBlendFactor"),
            dst_alpha_blend_factor: fields.number("dstAlphaBlendFactor"),
            alpha_blend_op: fields.number("alphaBlendOp"),
            color_write_mask: fields.number("colorWriteMask"),
        }
    }
}

#[tactic(auto, unfolding(vk_pipe::specs::Tables::color_blend, vk_pipe::specs::Plain::color_blend))]
impl Json<Pipe> for ColorBlend {
    ghost use Rattle.json_pipe.specs.Names as names;

    ghost sound = { names.color_blend };

    fn put_members(&self, out: &mut ObjectWriter) -> Result<(), NoMemory> {
        out.number("flags", self.flags)?;
        out.number("logicOpEnable", self.logic_op_enable)?;
        out.number("logicOp", self.logic_op)?;
        out.structures("attachments", &self.attachments)?;
        out.four_units(
            "blendConstants",
            self.blend_constants0,
            self.blend_constants1,
            self.blend_constants2,
            self.blend_constants3,
        )?;
        Ok(())
    }

    fn read_fields(fields: &mut FieldReader) -> ColorBlend {
        let flags = fields.number("flags");
        let logic_op_enable = fields.number("logicOpEnable");
        let logic_op = fields.number("logicOp");
        let attachments = fields.structures("attachments");
        let constants = fields.four_units("blendConstants");
        ColorBlend {
            flags,
            logic_op_enable,
            logic_op,
            attachments,
            blend_constants0: constants.0,
            blend_constants1: constants.1,
            blend_constants2: constants.2,
            blend_constants3: constants.3,
        }
    }
}

#[tactic(auto, unfolding(vk_pipe::specs::Tables::dynamic, vk_pipe::specs::Plain::dynamic))]
impl Json<Pipe> for Dynamic {
    ghost use Rattle.json_pipe.specs.Names as names;

    ghost sound = { names.dynamic };

    fn put_members(&self, out: &mut ObjectWriter) -> Result<(), NoMemory> {
        out.number("flags", self.flags)?;
        out.numbers("dynamicStates", &self.dynamic_states)?;
        Ok(())
    }

    fn read_fields(fields: &mut FieldReader) -> Dynamic {
        Dynamic {
            flags: fields.number("flags"),
            dynamic_states: fields.numbers("dynamicStates"),
        }
    }
}
