use crate::Pipe;
use foz_words::NoMemory;
use json_fold::{FieldReader, Json, ObjectWriter};
use vk_pipe::{InputAssembly, Tessellation, VertexAttribute, VertexBinding, VertexInput};

#[tactic(auto, unfolding(vk_pipe::specs::Tables::vertex_binding, vk_pipe::specs::Plain::vertex_binding))]
impl Json<Pipe> for VertexBinding {
    ghost use Rattle.json_pipe.specs.Names as names;

    ghost sound = { names.vertex_binding };

    fn put_members(&self, out: &mut ObjectWriter) -> Result<(), NoMemory> {
        out.number("binding", self.binding)?;
        out.number("stride", self.stride)?;
        out.number("inputRate", self.input_rate)?;
        Ok(())
    }

    fn read_fields(fields: &mut FieldReader) -> VertexBinding {
        VertexBinding {
            binding: fields.number("binding"),
            stride: fields.number("stride"),
            input_rate: fields.number("inputRate"),
        }
    }
}

#[tactic(auto, unfolding(vk_pipe::specs::Tables::vertex_attribute, vk_pipe::specs::Plain::vertex_attribute))]
impl Json<Pipe> for VertexAttribute {
    ghost use Rattle.json_pipe.specs.Names as names;

    ghost sound = { names.vertex_attribute };

    fn put_members(&self, out: &mut ObjectWriter) -> Result<(), NoMemory> {
        out.number("location", self.location)?;
        out.number("binding", self.binding)?;
        out.number("format", self.format)?;
        out.number("offset", self.offset)?;
        Ok(())
    }

    fn read_fields(fields: &mut FieldReader) -> VertexAttribute {
        VertexAttribute {
            location: fields.number("location"),
            binding: fields.number("binding"),
            format: fields.number("format"),
            offset: fields.number("offset"),
        }
    }
}

#[tactic(auto, unfolding(vk_pipe::specs::Tables::vertex_input, vk_pipe::specs::Plain::vertex_input))]
impl Json<Pipe> for VertexInput {
    ghost use Rattle.json_pipe.specs.Names as names;

    ghost sound = { names.vertex_input };

    fn put_members(&self, out: &mut ObjectWriter) -> Result<(), NoMemory> {
        out.number("flags", self.flags)?;
        out.structures(
            "vertexBindingDescriptions",
            &self.vertex_binding_descriptions,
        )?;
        out.structures(
            "vertexAttributeDescriptions",
            &self.vertex_attribute_descriptions,
        )?;
        Ok(())
    }

    fn read_fields(fields: &mut FieldReader) -> VertexInput {
        VertexInput {
            flags: fields.number("flags"),
            vertex_binding_descriptions: fields.structures("vertexBindingDescriptions"),
            vertex_attribute_descriptions: fields.structures("vertexAttributeDescriptions"),
        }
    }
}

#[tactic(auto, unfolding(vk_pipe::specs::Tables::input_assembly, vk_pipe::specs::Plain::input_assembly))]
impl Json<Pipe> for InputAssembly {
    ghost use Rattle.json_pipe.specs.Names as names;

    ghost sound = { names.input_assembly };

    fn put_members(&self, out: &mut ObjectWriter) -> Result<(), NoMemory> {
        out.number("flags", self.flags)?;
        out.number("topology", self.topology)?;
        out.number("primitiveRestartEnable", self.primitive_restart_enable)?;
        Ok(())
    }

    fn read_fields(fields: &mut FieldReader) -> InputAssembly {
        InputAssembly {
            flags: fields.number("flags"),
            topology: fields.number("topology"),
            primitive_restart_enable: fields.number("primitiveRestartEnable"),
        }
    }
}

#[tactic(auto, unfolding(vk_pipe::specs::Tables::tessellation, vk_pipe::specs::Plain::tessellation))]
impl Json<Pipe> for Tessellation {
    ghost use Rattle.json_pipe.specs.Names as names;

    ghost sound = { names.tessellation };

    fn put_members(&self, out: &mut ObjectWriter) -> Result<(), NoMemory> {
        out.number("flags", self.flags)?;
        out.number("patchControlPoints", self.patch_control_points)?;
        Ok(())
    }

    fn read_fields(fields: &mut FieldReader) -> Tessellation {
        Tessellation {
            flags: fields.number("flags"),
            patch_control_points: fields.number("patchControlPoints"),
        }
    }
}
