//! What contracts don't say of capture lines: the grammar on lines as they lie in captures, and that memory suffices.
use super::full::EMPTY_SAMPLER_LINE;
use super::{are_read_as, line_again, state_of};
use capture_lines::{LineError, read_line};
use json_fold::FieldCause;
use state_words::State;
use std::alloc::Global;
use std::process::Abort;
use std::test::Fail;

/// What a line is: `read`, `skipped`, or why it gives no state.
fn answer_to(alloc: Global, line: &[u8]) -> &'static str {
    name_of(&read_line(alloc, line))
}

fn name_of(answer: &Result<Option<State>, LineError>) -> &'static str {
    match answer {
        Ok(Some(_)) => "read",
        Ok(None) => "skipped",
        Err(LineError::Kind) => "no kind word",
        Err(LineError::Float { .. }) => "a float",
        Err(LineError::Json) => "no JSON",
        Err(LineError::Field(..)) => "a field",
        Err(LineError::Code) => "no words",
        Err(LineError::Memory) => "out of memory",
    }
}

fn all_answer(rt: &impl Abort, alloc: Global, lines: &[&[u8]], answer: &str) {
    for line in lines {
        assert_eq!(rt; answer_to(alloc, line), answer);
    }
}

const SKIPPED: &[&[u8]] = &[b"", b"#", b"# sampler {}", b"#sampler 0.5"];

#[test]
fn empty_lines_and_comments_are_skipped(rt: HostRuntime) {
    all_answer(&rt, rt.alloc(), SKIPPED, "skipped");
}

const WITHOUT_KIND: &[&[u8]] = &[
    b"lens {}",
    b"sampler",
    b"sampler\t{}",
    b"\r",
    b" ",
    b" sampler {}",
    b"sampler{}",
    b"Sampler {}",
    b"samplers {}",
    b"set_layouts {}",
    b"graphics {}",
    b"lens 0.5",
];

#[test]
fn lines_begin_with_a_kind_word_and_a_blank(rt: HostRuntime) {
    all_answer(&rt, rt.alloc(), WITHOUT_KIND, "no kind word");
}

const WITHOUT_JSON: &[&[u8]] = &[
    b"sampler ",
    b"sampler  ",
    b"sampler {} {}",
    b"sampler {",
    b"sampler {\"flags\":01}",
    b"sampler {\"x\":\"\\ud800\"}",
    b"sampler {\"x\":\"\\udc00\\ud800\"}",
    b"sampler \xff",
    b"sampler {\"x\":\"\xff\"}",
    b"shader_module {,}",
    b"compute_pipeline nul",
    b"sampler {'flags':1}",
];

#[test]
fn what_follows_the_blank_is_json(rt: HostRuntime) {
    all_answer(&rt, rt.alloc(), WITHOUT_JSON, "no JSON");
}

const FLOATS: &[(&[u8], usize)] = &[
    (b"sampler {\"maxLod\":1000.0}", 10),
    (b"sampler 0.5", 0),
    (b"sampler  0.5", 1),
    (b"set_layout {\"x\":[0.0,1.0,1e9]}", 14),
    (b"sampler {\"x\":\"\xff\",\"minLod\":-0.0}", 18),
    (b"sampler {\"x\":0.25", 5),
    (b"graphics_pipeline \xff2.5", 1),
];

#[test]
fn the_place_of_a_float_counts_from_behind_the_blank(rt: HostRuntime) {
    for (line, at) in FLOATS {
        assert_eq!(rt; float_in(rt.alloc(), line), Some(*at));
    }
}

fn float_in(alloc: Global, line: &[u8]) -> Option<usize> {
    float_of(&read_line(alloc, line))
}

fn float_of(answer: &Result<Option<State>, LineError>) -> Option<usize> {
    match answer {
        Err(LineError::Float { at }) => Some(*at),
        _ => None,
    }
}

const FIELDS: &[(&[u8], &str, FieldCause)] = &[
    (
        b"sampler {\"magFilter\":4294967296}",
        "magFilter",
        FieldCause::TooLarge,
    ),
    (
        b"sampler {\"magFilter\":18446744073709551616}",
        "magFilter",
        FieldCause::NotNumber,
    ),
    (
        b"sampler {\"magFilter\":-0}",
        "magFilter",
        FieldCause::NotNumber,
    ),
    (
        b"sampler {\"minLod\":4294967296}",
        "minLod",
        FieldCause::NotUnit,
    ),
    (b"sampler {\"minLod\":2}", "minLod", FieldCause::NotUnit),
    (
        b"sampler {\"minLod\":18446744073709551616}",
        "minLod",
        FieldCause::NotNumber,
    ),
    (b"sampler {\"pNext\":0}", "pNext", FieldCause::HasPNext),
    (b"sampler []", "", FieldCause::NotObject),
    (b"shader_module 7", "", FieldCause::NotObject),
    (
        b"set_layout {\"bindings\":[{\"binding\":0},{\"stageFlags\":-1}]}",
        "bindings[1].stageFlags",
        FieldCause::NotNumber,
    ),
    (
        b"set_layout {\"bindings\":{}}",
        "bindings",
        FieldCause::NotList,
    ),
    (
        b"set_layout {\"bindings\":[{\"immutableSamplers\":[\"0\"]}]}",
        "bindings[0].immutableSamplers[0]",
        FieldCause::BadHash,
    ),
    (
        b"pipeline_layout {\"setLayouts\":[7]}",
        "setLayouts[0]",
        FieldCause::NotText,
    ),
    (
        b"shader_module {\"code\":\"A\"}",
        "code",
        FieldCause::BadBase64,
    ),
    (b"shader_module {\"code\":[]}", "code", FieldCause::NotText),
    (
        b"shader_module {\"code\":\"AAA=\",\"flags\":\"x\"}",
        "flags",
        FieldCause::NotNumber,
    ),
    (
        b"shader_module {\"code\":\"AAA=\",\"pNext\":null}",
        "pNext",
        FieldCause::HasPNext,
    ),
    (
        b"graphics_pipeline {\"viewportState\":{\"viewports\":[{\"width\":1920}]}}",
        "viewportState.viewports[0].width",
        FieldCause::NotUnit,
    ),
    (
        b"graphics_pipeline {\"colorBlendState\":{\"blendConstants\":[0,0,0]}}",
        "colorBlendState.blendConstants",
        FieldCause::BadLength,
    ),
    (
        b"render_pass {\"subpasses\":[{\"depthStencilAttachment\":null}]}",
        "subpasses[0].depthStencilAttachment",
        FieldCause::NotObject,
    ),
];

#[test]
fn members_are_refused_at_their_paths(rt: HostRuntime) {
    for (line, path, cause) in FIELDS {
        assert!(rt; is_refused(rt.alloc(), line, path, *cause), "at {path}");
    }
}

fn is_refused(alloc: Global, line: &[u8], path: &str, cause: FieldCause) -> bool {
    is_fault(&read_line(alloc, line), path, cause)
}

fn is_fault(answer: &Result<Option<State>, LineError>, path: &str, cause: FieldCause) -> bool {
    match answer {
        Err(LineError::Field(found, why)) => found.as_str() == path && *why == cause,
        _ => false,
    }
}

const WITHOUT_WORDS: &[&[u8]] = &[
    b"shader_module {\"code\":\"AAA=\"}",
    b"shader_module {\"code\":\"AA==\"}",
    b"shader_module {\"code\":\"AAAA\"}",
    b"shader_module {\"code\":\"AAAAAAA=\"}",
];

#[test]
fn code_is_a_whole_number_of_words(rt: HostRuntime) -> Result<(), Fail> {
    all_answer(&rt, rt.alloc(), WITHOUT_WORDS, "no words");
    let line = b"shader_module {\"flags\":3,\"code\":\"AQAAAAIDBAU=\"}";
    let state = state_of(rt.alloc(), line)?;
    is_module(&rt, &state, 3, &[1, 0x0504_0302]);
    Ok(())
}

fn is_module(rt: &impl Abort, state: &State, flags: u32, code: &[u32]) {
    let State::ShaderModule(module) = state else {
        panic!(rt; "no shader module");
    };
    assert_eq!(rt; module.flags, flags);
    assert_eq!(rt; module.code.as_slice(), code);
}

/// `[` so many times, and `]` as often, as a member that no state has.
fn nested(alloc: Global, depth: usize) -> Result<Vec<u8>, Fail> {
    let mut line = Vec::from_slice(alloc, b"set_layout {\"x\":")?;
    for _ in 0..depth {
        line.push(b'[')?;
    }
    for _ in 0..depth {
        line.push(b']')?;
    }
    line.push(b'}')?;
    Ok(line)
}

#[test]
fn json_nests_127_deep(rt: HostRuntime) -> Result<(), Fail> {
    let written = line_again(rt.alloc(), &nested(rt.alloc(), 126)?)?;
    assert_eq!(rt;
        written.as_slice(),
        b"set_layout {\"bindings\":[],\"flags\":0}".as_slice()
    );
    let deeper = nested(rt.alloc(), 127)?;
    assert_eq!(rt; answer_to(rt.alloc(), &deeper), "no JSON");
    Ok(())
}

/// A sampler with a number of so many digits as a member that no state has.
fn wide(alloc: Global, digits: usize) -> Result<Vec<u8>, Fail> {
    let mut line = Vec::from_slice(alloc, b"sampler {\"x\":")?;
    for _ in 0..digits {
        line.push(b'9')?;
    }
    line.push(b'}')?;
    Ok(line)
}

#[test]
fn numbers_that_no_float_holds_are_no_json(rt: HostRuntime) -> Result<(), Fail> {
    let written = line_again(rt.alloc(), &wide(rt.alloc(), 308)?)?;
    assert_eq!(rt; written.as_slice(), EMPTY_SAMPLER_LINE);
    let wider = wide(rt.alloc(), 309)?;
    assert_eq!(rt; answer_to(rt.alloc(), &wider), "no JSON");
    Ok(())
}

const LINES: &[(&[u8], &[u8])] = &[
    (b"sampler  {} ", EMPTY_SAMPLER_LINE),
    (b"sampler {}\r", EMPTY_SAMPLER_LINE),
    (b"sampler {\"other\":{\"pNext\":0}}", EMPTY_SAMPLER_LINE),
    (b"sampler {\"minLod\":0.0,\"minLod\":0}", EMPTY_SAMPLER_LINE),
    (
        b"set_layout {}",
        b"set_layout {\"bindings\":[],\"flags\":0}",
    ),
    (
        b"set_layout {\"flags\":\"x\",\"flags\":7}",
        b"set_layout {\"bindings\":[],\"flags\":7}",
    ),
    (
        b"pipeline_layout {\"setLayouts\":[\"00000000000000Af\"]}",
        b"pipeline_layout {\"flags\":0,\"pushConstantRanges\":[],\"setLayouts\":[\"00000000000000af\"]}",
    ),
    (
        b"shader_module {}",
        b"shader_module {\"code\":\"\",\"flags\":0}",
    ),
    (
        b"render_pass {}",
        b"render_pass {\"attachments\":[],\"dependencies\":[],\"flags\":0,\"subpasses\":[]}",
    ),
    (
        b"graphics_pipeline {}",
        b"graphics_pipeline {\"basePipelineHandle\":\"0000000000000000\",\"flags\":0,\"layout\":\"0000000000000000\",\"renderPass\":\"0000000000000000\",\"stages\":[],\"subpass\":0}",
    ),
    (
        b"compute_pipeline {\"stage\":{}}",
        b"compute_pipeline {\"basePipelineHandle\":\"0000000000000000\",\"flags\":0,\"layout\":\"0000000000000000\",\"stage\":{\"flags\":0,\"module\":\"0000000000000000\",\"name\":\"\",\"stage\":0}}",
    ),
];

#[test]
fn lines_are_read_and_written(rt: HostRuntime) -> Result<(), Fail> {
    are_read_as(&rt, rt.alloc(), LINES)
}
