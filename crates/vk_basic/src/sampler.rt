use foz_words::{NoMemory, Unit};
use std::alloc::Global;
use vk_form::{Structure, WordWriter};

/// How an image is sampled (Vulkan's `VkSamplerCreateInfo`).
#[derive(Clone, Copy, Debug, PartialEq, Eq)]
pub struct Sampler {
    pub flags: u32,
    pub mag_filter: u32,
    pub min_filter: u32,
    pub mipmap_mode: u32,
    pub address_mode_u: u32,
    pub address_mode_v: u32,
    pub address_mode_w: u32,
    pub mip_lod_bias: Unit,
    pub anisotropy_enable: u32,
    pub max_anisotropy: Unit,
    pub compare_enable: u32,
    pub compare_op: u32,
    pub min_lod: Unit,
    pub max_lod: Unit,
    pub border_color: u32,
    pub unnormalized_coordinates: u32,
}

#[tactic(auto, unfolding(crate::specs::Tables::sampler, crate::specs::Plain::sampler))]
impl Structure for Sampler {
    ghost use Rattle.vk_basic.specs.Tables as table;
    ghost use Rattle.vk_basic.specs.Plain as plain;
    ghost use Rattle.vk_basic.specs.Made as made;
    ghost use Rattle.vk_basic.specs.Back as back;

    ghost fields = { table.sampler };

    ghost plain = { plain.sampler };

    ghost of_plain = { made.sampler };

    ghost back = { back.sampler };

    fn copy(&self, _alloc: Global) -> Result<Sampler, NoMemory> {
        Ok(*self)
    }

    fn put_words(&self, out: &mut WordWriter) {
        out.number(self.flags);
        out.number(self.mag_filter);
        out.number(self.min_filter);
        out.number(self.mipmap_mode);
        out.number(self.address_mode_u);
        out.number(self.address_mode_v);
        out.number(self.address_mode_w);
        out.unit(self.mip_lod_bias);
        out.number(self.anisotropy_enable);
        out.unit(self.max_anisotropy);
        out.number(self.compare_enable);
        out.number(self.compare_op);
        out.unit(self.min_lod);
        out.unit(self.max_lod);
        out.number(self.border_color);
        out.number(self.unnormalized_coordinates);
    }
}
