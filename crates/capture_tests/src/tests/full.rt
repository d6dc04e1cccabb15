//! Lines of states with every field set, as they are written.
use super::{line_again, line_of, state_of};
use state_words::State;
use std::alloc::Global;
use std::test::Fail;

pub(super) const EMPTY_SAMPLER_LINE: &[u8] =
    b"sampler {\"addressModeU\":0,\"addressModeV\":0,\"addressModeW\":0,\"anisotropyEnable\":0,\"borderColor\":0,\"compareEnable\":0,\"compareOp\":0,\"flags\":0,\"magFilter\":0,\"maxAnisotropy\":0,\"maxLod\":0,\"minFilter\":0,\"minLod\":0,\"mipLodBias\":0,\"mipmapMode\":0,\"unnormalizedCoordinates\":0}";

const SAMPLER: &[u8] =
    b"sampler {\"addressModeU\":5,\"addressModeV\":6,\"addressModeW\":7,\"anisotropyEnable\":8,\"borderColor\":11,\"compareEnable\":9,\"compareOp\":10,\"flags\":1,\"magFilter\":2,\"maxAnisotropy\":1,\"maxLod\":0,\"minFilter\":3,\"minLod\":1,\"mipLodBias\":0,\"mipmapMode\":4,\"unnormalizedCoordinates\":12}";

const SET_LAYOUT: &[u8] =
    b"set_layout {\"bindings\":[{\"binding\":2,\"descriptorCount\":4,\"descriptorType\":3,\"immutableSamplers\":[\"a000000000000006\",\"a000000000000007\"],\"stageFlags\":5},{\"binding\":8,\"descriptorCount\":10,\"descriptorType\":9,\"immutableSamplers\":[\"a00000000000000c\",\"a00000000000000d\"],\"stageFlags\":11}],\"flags\":1}";

const PIPELINE_LAYOUT: &[u8] =
    b"pipeline_layout {\"flags\":1,\"pushConstantRanges\":[{\"offset\":5,\"size\":6,\"stageFlags\":4},{\"offset\":8,\"size\":9,\"stageFlags\":7}],\"setLayouts\":[\"a000000000000002\",\"a000000000000003\"]}";

const SHADER_MODULE: &[u8] = b"shader_module {\"code\":\"AQAAAAIDBAU=\",\"flags\":3}";

const ATTACHMENTS: &[u8] =
    b"render_pass {\"attachments\":[{\"finalLayout\":10,\"flags\":2,\"format\":3,\"initialLayout\":9,\"loadOp\":5,\"samples\":4,\"stencilLoadOp\":7,\"stencilStoreOp\":8,\"storeOp\":6},{\"finalLayout\":19,\"flags\":11,\"format\":12,\"initialLayout\":18,\"loadOp\":14,\"samples\":13,\"stencilLoadOp\":16,\"stencilStoreOp\":17,\"storeOp\":15}],\"dependencies\":[],\"flags\":1,\"subpasses\":[]}";

const SUBPASSES: &[u8] =
    b"render_pass {\"attachments\":[],\"dependencies\":[],\"flags\":1,\"subpasses\":[{\"colorAttachments\":[{\"attachment\":8,\"layout\":9},{\"attachment\":10,\"layout\":11}],\"depthStencilAttachment\":{\"attachment\":16,\"layout\":17},\"flags\":2,\"inputAttachments\":[{\"attachment\":4,\"layout\":5},{\"attachment\":6,\"layout\":7}],\"pipelineBindPoint\":3,\"preserveAttachments\":[18,19],\"resolveAttachments\":[{\"attachment\":12,\"layout\":13},{\"attachment\":14,\"layout\":15}]},{\"colorAttachments\":[{\"attachment\":26,\"layout\":27},{\"attachment\":28,\"layout\":29}],\"depthStencilAttachment\":{\"attachment\":34,\"layout\":35},\"flags\":20,\"inputAttachments\":[{\"attachment\":22,\"layout\":23},{\"attachment\":24,\"layout\":25}],\"pipelineBindPoint\":21,\"preserveAttachments\":[36,37],\"resolveAttachments\":[{\"attachment\":30,\"layout\":31},{\"attachment\":32,\"layout\":33}]}]}";

const DEPENDENCIES: &[u8] =
    b"render_pass {\"attachments\":[],\"dependencies\":[{\"dependencyFlags\":8,\"dstAccessMask\":7,\"dstStageMask\":5,\"dstSubpass\":3,\"srcAccessMask\":6,\"srcStageMask\":4,\"srcSubpass\":2},{\"dependencyFlags\":15,\"dstAccessMask\":14,\"dstStageMask\":12,\"dstSubpass\":10,\"srcAccessMask\":13,\"srcStageMask\":11,\"srcSubpass\":9}],\"flags\":1,\"subpasses\":[]}";

const STAGES: &[u8] =
    b"graphics_pipeline {\"basePipelineHandle\":\"a000000000000017\",\"flags\":1,\"layout\":\"a000000000000014\",\"renderPass\":\"a000000000000015\",\"stages\":[{\"flags\":2,\"module\":\"a000000000000004\",\"name\":\"ma\\\"in\\\\\\n\xc3\xa9\",\"specializationInfo\":{\"data\":\"AQID/w==\",\"mapEntries\":[{\"constantID\":5,\"offset\":6,\"size\":7},{\"constantID\":8,\"offset\":9,\"size\":10}]},\"stage\":3},{\"flags\":11,\"module\":\"a00000000000000d\",\"name\":\"ma\\\"in\\\\\\n\xc3\xa9\",\"specializationInfo\":{\"data\":\"AQID/w==\",\"mapEntries\":[{\"constantID\":14,\"offset\":15,\"size\":16},{\"constantID\":17,\"offset\":18,\"size\":19}]},\"stage\":12}],\"subpass\":22}";

const VERTEX_INPUT_STATE: &[u8] =
    b"graphics_pipeline {\"basePipelineHandle\":\"a000000000000014\",\"flags\":1,\"layout\":\"a000000000000011\",\"renderPass\":\"a000000000000012\",\"stages\":[],\"subpass\":19,\"vertexInputState\":{\"flags\":2,\"vertexAttributeDescriptions\":[{\"binding\":10,\"format\":11,\"location\":9,\"offset\":12},{\"binding\":14,\"format\":15,\"location\":13,\"offset\":16}],\"vertexBindingDescriptions\":[{\"binding\":3,\"inputRate\":5,\"stride\":4},{\"binding\":6,\"inputRate\":8,\"stride\":7}]}}";

const INPUT_ASSEMBLY_STATE: &[u8] =
    b"graphics_pipeline {\"basePipelineHandle\":\"a000000000000008\",\"flags\":1,\"inputAssemblyState\":{\"flags\":2,\"primitiveRestartEnable\":4,\"topology\":3},\"layout\":\"a000000000000005\",\"renderPass\":\"a000000000000006\",\"stages\":[],\"subpass\":7}";

const TESSELLATION_STATE: &[u8] =
    b"graphics_pipeline {\"basePipelineHandle\":\"a000000000000007\",\"flags\":1,\"layout\":\"a000000000000004\",\"renderPass\":\"a000000000000005\",\"stages\":[],\"subpass\":6,\"tessellationState\":{\"flags\":2,\"patchControlPoints\":3}}";

const VIEWPORT_STATE: &[u8] =
    b"graphics_pipeline {\"basePipelineHandle\":\"a000000000000010\",\"flags\":1,\"layout\":\"a00000000000000d\",\"renderPass\":\"a00000000000000e\",\"stages\":[],\"subpass\":15,\"viewportState\":{\"flags\":2,\"scissorCount\":4,\"scissors\":[{\"height\":8,\"width\":7,\"x\":5,\"y\":6},{\"height\":12,\"width\":11,\"x\":9,\"y\":10}],\"viewportCount\":3,\"viewports\":[{\"height\":0,\"maxDepth\":0,\"minDepth\":1,\"width\":1,\"x\":0,\"y\":1},{\"height\":1,\"maxDepth\":1,\"minDepth\":0,\"width\":0,\"x\":1,\"y\":1}]}}";

const RASTERIZATION_STATE: &[u8] =
    b"graphics_pipeline {\"basePipelineHandle\":\"a00000000000000c\",\"flags\":1,\"layout\":\"a000000000000009\",\"rasterizationState\":{\"cullMode\":6,\"depthBiasClamp\":1,\"depthBiasConstantFactor\":0,\"depthBiasEnable\":8,\"depthBiasSlopeFactor\":1,\"depthClampEnable\":3,\"flags\":2,\"frontFace\":7,\"lineWidth\":0,\"polygonMode\":5,\"rasterizerDiscardEnable\":4},\"renderPass\":\"a00000000000000a\",\"stages\":[],\"subpass\":11}";

const MULTISAMPLE_STATE: &[u8] =
    b"graphics_pipeline {\"basePipelineHandle\":\"a00000000000000c\",\"flags\":1,\"layout\":\"a000000000000009\",\"multisampleState\":{\"alphaToCoverageEnable\":7,\"alphaToOneEnable\":8,\"flags\":2,\"minSampleShading\":0,\"rasterizationSamples\":3,\"sampleMask\":[5,6],\"sampleShadingEnable\":4},\"renderPass\":\"a00000000000000a\",\"stages\":[],\"subpass\":11}";

const DEPTH_STENCIL_STATE: &[u8] =
    b"graphics_pipeline {\"basePipelineHandle\":\"a000000000000019\",\"depthStencilState\":{\"back\":{\"compareMask\":19,\"compareOp\":18,\"depthFailOp\":17,\"failOp\":15,\"passOp\":16,\"reference\":21,\"writeMask\":20},\"depthBoundsTestEnable\":6,\"depthCompareOp\":5,\"depthTestEnable\":3,\"depthWriteEnable\":4,\"flags\":2,\"front\":{\"compareMask\":12,\"compareOp\":11,\"depthFailOp\":10,\"failOp\":8,\"passOp\":9,\"reference\":14,\"writeMask\":13},\"maxDepthBounds\":1,\"minDepthBounds\":0,\"stencilTestEnable\":7},\"flags\":1,\"layout\":\"a000000000000016\",\"renderPass\":\"a000000000000017\",\"stages\":[],\"subpass\":24}";

const COLOR_BLEND_STATE: &[u8] =
    b"graphics_pipeline {\"basePipelineHandle\":\"a000000000000018\",\"colorBlendState\":{\"attachments\":[{\"alphaBlendOp\":11,\"blendEnable\":5,\"colorBlendOp\":8,\"colorWriteMask\":12,\"dstAlphaBlendFactor\":10,\"dstColorBlendFactor\":7,\"srcAlphaBlendFactor\":9,\"srcColorBlendFactor\":6},{\"alphaBlendOp\":19,\"blendEnable\":13,\"colorBlendOp\":16,\"colorWriteMask\":20,\"dstAlphaBlendFactor\":18,\"dstColorBlendFactor\":15,\"srcAlphaBlendFactor\":17,\"srcColorBlendFactor\":14}],\"blendConstants\":[1,0,1,1],\"flags\":2,\"logicOp\":4,\"logicOpEnable\":3},\"flags\":1,\"layout\":\"a000000000000015\",\"renderPass\":\"a000000000000016\",\"stages\":[],\"subpass\":23}";

const DYNAMIC_STATE: &[u8] =
    b"graphics_pipeline {\"basePipelineHandle\":\"a000000000000008\",\"dynamicState\":{\"dynamicStates\":[3,4],\"flags\":2},\"flags\":1,\"layout\":\"a000000000000005\",\"renderPass\":\"a000000000000006\",\"stages\":[],\"subpass\":7}";

const COMPUTE: &[u8] =
    b"compute_pipeline {\"basePipelineHandle\":\"a00000000000000c\",\"flags\":1,\"layout\":\"a00000000000000b\",\"stage\":{\"flags\":2,\"module\":\"a000000000000004\",\"name\":\"ma\\\"in\\\\\\n\xc3\xa9\",\"specializationInfo\":{\"data\":\"AQID/w==\",\"mapEntries\":[{\"constantID\":5,\"offset\":6,\"size\":7},{\"constantID\":8,\"offset\":9,\"size\":10}]},\"stage\":3}}";

const FULL_LINES: &[&[u8]] = &[
    SAMPLER,
    SET_LAYOUT,
    PIPELINE_LAYOUT,
    SHADER_MODULE,
    COMPUTE,
    ATTACHMENTS,
    SUBPASSES,
    DEPENDENCIES,
    STAGES,
    VERTEX_INPUT_STATE,
    INPUT_ASSEMBLY_STATE,
    TESSELLATION_STATE,
    VIEWPORT_STATE,
    RASTERIZATION_STATE,
    MULTISAMPLE_STATE,
    DEPTH_STENCIL_STATE,
    COLOR_BLEND_STATE,
    DYNAMIC_STATE,
];

#[test]
fn a_state_with_every_field_is_written_as_it_was_read(rt: HostRuntime) -> Result<(), Fail> {
    for line in FULL_LINES {
        let written = line_again(rt.alloc(), line)?;
        assert_eq!(rt; written.as_slice(), *line);
    }
    Ok(())
}

#[test]
fn a_copy_has_every_field(rt: HostRuntime) -> Result<(), Fail> {
    for line in FULL_LINES {
        let written = line_of_copy(rt.alloc(), line)?;
        assert_eq!(rt; written.as_slice(), *line);
    }
    Ok(())
}

/// The line of a copy of the state that is read of a line.
fn line_of_copy(alloc: Global, line: &[u8]) -> Result<Vec<u8>, Fail> {
    let state = state_of(alloc, line)?;
    let copied = copy_of(alloc, state)?;
    line_of(alloc, &copied)
}

fn copy_of(alloc: Global, state: State) -> Result<State, Fail> {
    state.copy(alloc).map_err(Fail::from)
}
