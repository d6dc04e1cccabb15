//! The states of a realistic capture: 130 that differ from each other.
ghost use Rattle.std.specs.Prelude.{IfOk};
ghost use Rattle.state_words.specs.Words.{IsOrdinaryState};

use super::{line_again, line_of, state_of};
use foz_words::{Key, Row};
use state_words::{State, key_of};
use std::alloc::Global;
use std::collections::HashSet;
use std::process::Abort;
use std::test::Fail;
use vk_basic::ShaderModule;

/// The line of the smallest vertex or fragment module, by its generator word.
fn module(alloc: Global, generator: u32) -> Result<Vec<u8>, Fail> {
    let state = State::ShaderModule(ShaderModule {
        flags: 0,
        code: module_code(alloc, generator)?,
    });
    line_of(alloc, &state)
}

fn module_code(alloc: Global, generator: u32) -> Result<Row<u32>, Fail> {
    let model = if generator % 2 == 0 { 0 } else { 4 };
    let code = [
        0x0723_0203,
        0x0001_0000,
        generator,
        5,
        0,
        0x0002_0011,
        1,
        0x0003_000e,
        0,
        1,
        0x0005_000f,
        model,
        1,
        0x6e69_616d,
        0,
        0x0002_0013,
        2,
        0x0003_0021,
        3,
        2,
        0x0005_0036,
        2,
        1,
        0,
        3,
        0x0002_00f8,
        4,
        0x0001_00fd,
        0x0001_0038,
    ];
    Ok(Row::from_vec(Vec::from_slice(alloc, &code)?))
}

fn set_layout(alloc: Global, count: u32) -> Result<String, Fail> {
    Ok(format!(in alloc;
        "set_layout {{\"bindings\":[{{\"descriptorCount\":{count},\"descriptorType\":1,\"stageFlags\":16}}]}}"
    )?)
}

fn pipeline_layout(alloc: Global, size: u32, set_layout: u64) -> Result<String, Fail> {
    Ok(format!(in alloc;
        "pipeline_layout {{\"pushConstantRanges\":[{{\"size\":{size},\"stageFlags\":17}}],\"setLayouts\":[\"{set_layout:016x}\"]}}"
    )?)
}

const RENDER_PASS: &str =
    "render_pass {\"attachments\":[{\"finalLayout\":1000001002,\"format\":37,\"loadOp\":1,\"samples\":1,\"stencilLoadOp\":2,\"stencilStoreOp\":1}],\"subpasses\":[";

const SUBPASS: &str = "{\"colorAttachments\":[{\"layout\":2}]}";

/// A render pass of so many subpasses.
fn render_pass(alloc: Global, count: u32) -> Result<String, Fail> {
    let mut line = String::from_str(alloc, RENDER_PASS)?;
    for place in 0..count {
        if place > 0 {
            line.push(',')?;
        }
        line.push_str(SUBPASS)?;
    }
    line.push_str("]}")?;
    Ok(line)
}

fn stage(alloc: Global, bit: u32, module: u64) -> Result<String, Fail> {
    Ok(format!(in alloc; "{{\"module\":\"{module:016x}\",\"name\":\"main\",\"stage\":{bit}}}")?)
}

const PIPELINE_PARTS: &str =
    "graphics_pipeline {\"colorBlendState\":{\"attachments\":[{\"colorWriteMask\":15}]},\"dynamicState\":{\"dynamicStates\":[0,1]},\"inputAssemblyState\":{\"topology\":3},\"multisampleState\":{\"rasterizationSamples\":1},\"rasterizationState\":{\"cullMode\":2,\"lineWidth\":1},\"vertexInputState\":{},\"viewportState\":{\"scissorCount\":1,\"viewportCount\":1}";

/// A pipeline over two stages, a layout and a render pass.
fn graphics(
    alloc: Global,
    stages: (&str, &str),
    layout: u64,
    render_pass: u64,
) -> Result<String, Fail> {
    let (vertex, fragment) = stages;
    Ok(format!(in alloc;
        "{PIPELINE_PARTS},\"layout\":\"{layout:016x}\",\"renderPass\":\"{render_pass:016x}\",\"stages\":[{vertex},{fragment}]}}"
    )?)
}

/// The hash of the state of a line. It is written and read again as the same, and its key is a new one.
fn hash_in(
    rt: &impl Abort,
    alloc: Global,
    keys: &mut HashSet<Key>,
    line: &[u8],
) -> Result<u64, Fail> {
    let key = key_again(rt, alloc, line)?;
    assert!(rt; keys.insert(key)?);
    Ok(key.hash)
}

/// The key of a line's state once it is written and read again.
fn key_again(rt: &impl Abort, alloc: Global, line: &[u8]) -> Result<Key, Fail> {
    let written = line_again(alloc, line)?;
    let again = line_again(alloc, &written)?;
    assert_eq!(rt; again.as_slice(), written.as_slice());
    let state = state_of(alloc, &written)?;
    Ok(key_of(&state))
}

fn modules(rt: &impl Abort, alloc: Global, keys: &mut HashSet<Key>) -> Result<Vec<u64>, Fail> {
    let mut hashes = Vec::new(alloc);
    for number in 0..40u32 {
        let line = module(alloc, number)?;
        hashes.push(hash_in(rt, alloc, keys, &line)?)?;
    }
    Ok(hashes)
}

/// Pipeline layouts, each with a set layout of its own.
fn layouts(rt: &impl Abort, alloc: Global, keys: &mut HashSet<Key>) -> Result<Vec<u64>, Fail> {
    let mut hashes = Vec::new(alloc);
    for number in 1..=12u32 {
        let line = set_layout(alloc, number)?;
        let set_layout = hash_in(rt, alloc, keys, line.as_bytes())?;
        let line = pipeline_layout(alloc, 4 * number, set_layout)?;
        hashes.push(hash_in(rt, alloc, keys, line.as_bytes())?)?;
    }
    Ok(hashes)
}

fn passes(rt: &impl Abort, alloc: Global, keys: &mut HashSet<Key>) -> Result<Vec<u64>, Fail> {
    let mut hashes = Vec::new(alloc);
    for number in 1..=6u32 {
        let line = render_pass(alloc, number)?;
        hashes.push(hash_in(rt, alloc, keys, line.as_bytes())?)?;
    }
    Ok(hashes)
}

fn nth(hashes: &[u64], place: u32) -> Result<u64, Fail> {
    match hashes.get(place as usize) {
        Some(hash) => Ok(*hash),
        None => Err(Fail::new("there is no such state")),
    }
}

/// The line of a pipeline over two of the modules.
fn pipeline(
    alloc: Global,
    number: u32,
    modules: &[u64],
    layout: u64,
    render_pass: u64,
) -> Result<String, Fail> {
    let first = 2 * (number % 20);
    let vertex = stage(alloc, 1, nth(modules, first)?)?;
    let fragment = stage(alloc, 16, nth(modules, first + 1)?)?;
    graphics(
        alloc,
        (vertex.as_str(), fragment.as_str()),
        layout,
        render_pass,
    )
}

#[test]
fn the_states_of_a_realistic_capture_differ_and_are_read_again(
    rt: HostRuntime,
) -> Result<(), Fail> {
    let alloc = rt.alloc();
    let mut keys = HashSet::new(alloc);
    let modules = modules(&rt, alloc, &mut keys)?;
    let layouts = layouts(&rt, alloc, &mut keys)?;
    let passes = passes(&rt, alloc, &mut keys)?;
    for number in 0..60u32 {
        let (layout, pass) = (nth(&layouts, number % 12)?, nth(&passes, number % 6)?);
        let line = pipeline(alloc, number, &modules, layout, pass)?;
        hash_in(&rt, alloc, &mut keys, line.as_bytes())?;
    }
    assert_eq!(rt; keys.len(), 130);
    Ok(())
}
