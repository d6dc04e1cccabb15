//! Each code of the shipped driver, 1 to 41, at states that break one rule, beside states that keep all.
use super::frames::{
    DO, HELLO, LAYOUT, LOAD, QUIT, comes_to, pieces, put_module, put_reply, put_state,
};
use crate::Served;
use foz_words::{Key, NoMemory};
use std::alloc::Global;

/// The hash of the state that is judged.
const HASH: u64 = 9;

/// A pass with one colour attachment.
const PASS: &str =
    "{\"attachments\":[{\"samples\":1}],\"subpasses\":[{\"colorAttachments\":[{}]}]}";

/// States of all kinds but modules and graphics pipelines: the code, the tag of the kind and the object.
const STATES: &[(u32, u32, &str)] = &[
    // Samplers.
    (0, 1, "{}"),
    (1, 1, "{\"magFilter\":2,\"mipmapMode\":2}"),
    (1, 1, "{\"minFilter\":2}"),
    (2, 1, "{\"mipmapMode\":2}"),
    (3, 1, "{\"addressModeW\":5}"),
    (4, 1, "{\"compareOp\":8}"),
    (5, 1, "{\"borderColor\":6}"),
    (6, 1, "{\"compareEnable\":2}"),
    // Set layouts.
    (
        0,
        2,
        "{\"bindings\":[{\"binding\":1},{\"descriptorType\":10,\"stageFlags\":2147483647}]}",
    ),
    (
        41,
        2,
        "{\"bindings\":[{\"descriptorCount\":1,\"immutableSamplers\":[\"0000000000000002\"]}]}",
    ),
    (7, 2, "{\"bindings\":[{\"binding\":1},{},{\"binding\":1}]}"),
    (8, 2, "{\"bindings\":[{\"descriptorType\":11}]}"),
    (9, 2, "{\"bindings\":[{\"stageFlags\":64}]}"),
    (
        10,
        2,
        "{\"bindings\":[{\"descriptorCount\":2,\"immutableSamplers\":[\"0000000000000001\"]}]}",
    ),
    (
        11,
        2,
        "{\"bindings\":[{\"descriptorCount\":1,\"descriptorType\":2,\"immutableSamplers\":[\"0000000000000001\"]}]}",
    ),
    // Pipeline layouts.
    (
        0,
        3,
        "{\"pushConstantRanges\":[{\"size\":4,\"stageFlags\":1},{\"offset\":4,\"size\":4,\"stageFlags\":62}]}",
    ),
    (41, 3, "{\"setLayouts\":[\"0000000000000001\"]}"),
    (12, 3, "{\"pushConstantRanges\":[{\"stageFlags\":1}]}"),
    (
        12,
        3,
        "{\"pushConstantRanges\":[{\"offset\":2,\"size\":4,\"stageFlags\":1}]}",
    ),
    (
        13,
        3,
        "{\"pushConstantRanges\":[{\"size\":4,\"stageFlags\":1},{\"size\":4,\"stageFlags\":3}]}",
    ),
    (
        14,
        3,
        "{\"pushConstantRanges\":[{\"size\":4,\"stageFlags\":64}]}",
    ),
    // Render passes.
    (
        0,
        5,
        "{\"attachments\":[{\"format\":184,\"samples\":64}],\"subpasses\":[{\"colorAttachments\":[{},{\"attachment\":4294967295}]}]}",
    ),
    (20, 5, "{\"attachments\":[{\"format\":185,\"samples\":3}]}"),
    (21, 5, "{\"attachments\":[{\"samples\":3}]}"),
    (22, 5, "{\"attachments\":[{\"samples\":1,\"storeOp\":2}]}"),
    (23, 5, "{}"),
    (24, 5, "{\"subpasses\":[{\"colorAttachments\":[{}]}]}"),
    (
        25,
        5,
        "{\"attachments\":[{\"samples\":1}],\"subpasses\":[{\"colorAttachments\":[{},{}],\"resolveAttachments\":[{}]}]}",
    ),
    (
        26,
        5,
        "{\"dependencies\":[{\"srcSubpass\":1}],\"subpasses\":[{}]}",
    ),
    (27, 5, "{\"subpasses\":[{\"pipelineBindPoint\":2}]}"),
    // Compute pipelines.
    (
        0,
        7,
        "{\"layout\":\"0000000000000003\",\"stage\":{\"module\":\"0000000000000020\",\"name\":\"main\",\"specializationInfo\":{\"data\":\"AAAAAA==\",\"mapEntries\":[{\"size\":4}]},\"stage\":32}}",
    ),
    (
        41,
        7,
        "{\"basePipelineHandle\":\"0000000000000008\",\"layout\":\"0000000000000003\",\"stage\":{\"module\":\"0000000000000020\",\"name\":\"main\",\"stage\":32}}",
    ),
    (
        28,
        7,
        "{\"layout\":\"0000000000000003\",\"stage\":{\"module\":\"0000000000000020\",\"name\":\"mian\",\"stage\":16}}",
    ),
    (
        29,
        7,
        "{\"layout\":\"0000000000000003\",\"stage\":{\"module\":\"0000000000000020\",\"name\":\"mian\",\"stage\":32}}",
    ),
    (
        29,
        7,
        "{\"layout\":\"0000000000000003\",\"stage\":{\"module\":\"0000000000000010\",\"name\":\"main\",\"stage\":32}}",
    ),
    (
        30,
        7,
        "{\"layout\":\"0000000000000003\",\"stage\":{\"module\":\"0000000000000020\",\"name\":\"main\",\"specializationInfo\":{\"data\":\"AAAAAA==\",\"mapEntries\":[{\"offset\":1,\"size\":4}]},\"stage\":32}}",
    ),
];

/// Modules: the code, the number of words, and these as varints.
const MODULES: &[(u32, u32, &[u8])] = &[
    // Four words; another magic number; a reserved word that isn't 0.
    (15, 4, b"\x83\x84\x8c\x39\0\0\0"),
    (15, 5, b"\x01\0\0\0\0"),
    (15, 5, b"\x83\x84\x8c\x39\0\0\0\x01"),
    // An instruction of no words.
    (16, 6, b"\x83\x84\x8c\x39\0\0\0\0\0"),
    // No memory model.
    (17, 5, b"\x83\x84\x8c\x39\0\0\0\0"),
    // The end of a function that never began.
    (
        18,
        9,
        b"\x83\x84\x8c\x39\0\0\0\0\x8e\x80\x0c\0\x01\xb8\x80\x04",
    ),
    // No entry point; one with a name.
    (19, 8, b"\x83\x84\x8c\x39\0\0\0\0\x8e\x80\x0c\0\x01"),
    (
        0,
        13,
        b"\x83\x84\x8c\x39\0\0\0\0\x8e\x80\x0c\0\x01\x8f\x80\x14\x05\x01\xed\xc2\xa5\xf3\x06\0",
    ),
];

const VERTEX: &str = "{\"module\":\"0000000000000001\",\"name\":\"main\",\"stage\":1}";

const FRAGMENT: &str = "{\"module\":\"0000000000000010\",\"name\":\"main\",\"stage\":16}";

/// Graphics pipelines: the code, the stages and further members.
const PIPELINES: &[(u32, &str, &str)] = &[
    // One stage.
    (0, VERTEX, ""),
    (31, "", ""),
    (31, "{\"module\":\"0000000000000001\",\"stage\":32}", ""),
    (33, FRAGMENT, ""),
    (
        34,
        "{\"module\":\"0000000000000001\",\"name\":\"mian\",\"stage\":1}",
        "",
    ),
    (
        34,
        "{\"module\":\"0000000000000010\",\"name\":\"main\",\"stage\":1}",
        "",
    ),
    (
        35,
        "{\"module\":\"0000000000000001\",\"name\":\"main\",\"specializationInfo\":{\"mapEntries\":[{\"size\":1}]},\"stage\":1}",
        "",
    ),
    // Several stages.
    (
        0,
        "{\"module\":\"0000000000000001\",\"name\":\"main\",\"stage\":1},{\"module\":\"0000000000000002\",\"name\":\"main\",\"stage\":2},{\"module\":\"0000000000000004\",\"name\":\"main\",\"stage\":4}",
        "",
    ),
    (
        32,
        "{\"module\":\"0000000000000001\",\"name\":\"main\",\"stage\":1},{\"module\":\"0000000000000001\",\"name\":\"main\",\"stage\":1}",
        "",
    ),
    (
        36,
        "{\"module\":\"0000000000000001\",\"name\":\"main\",\"stage\":1},{\"module\":\"0000000000000002\",\"name\":\"main\",\"stage\":2}",
        "",
    ),
    // Parts that aren't stages.
    (
        0,
        VERTEX,
        ",\"colorBlendState\":{\"attachments\":[{}]},\"dynamicState\":{\"dynamicStates\":[0,1]},\"vertexInputState\":{\"vertexAttributeDescriptions\":[{\"binding\":7},{\"binding\":7,\"location\":1}],\"vertexBindingDescriptions\":[{\"binding\":7}]}",
    ),
    (41, VERTEX, ",\"basePipelineHandle\":\"0000000000000008\""),
    (37, VERTEX, ",\"subpass\":1"),
    (
        38,
        VERTEX,
        ",\"vertexInputState\":{\"vertexAttributeDescriptions\":[{},{}],\"vertexBindingDescriptions\":[{}]}",
    ),
    (
        38,
        VERTEX,
        ",\"vertexInputState\":{\"vertexAttributeDescriptions\":[{}]}",
    ),
    (39, VERTEX, ",\"colorBlendState\":{}"),
    (40, VERTEX, ",\"dynamicState\":{\"dynamicStates\":[0,0]}"),
];

/// Adds a Load of the smallest module with an entry point `main` of this model.
fn load_model(alloc: Global, out: &mut Vec<u8>, hash: u64, model: u8) -> Result<(), NoMemory> {
    let mut varints = Vec::from_slice(
        alloc,
        b"\x83\x84\x8c\x39\0\0\0\0\x8e\x80\x0c\0\x01\x8f\x80\x14",
    )?;
    varints.push(model)?;
    varints.extend_from_slice(b"\x01\xed\xc2\xa5\xf3\x06\0")?;
    put_module(alloc, out, LOAD, hash, 13, &varints)
}

/// Execution models, each with the number of its stage.
const MODELS: &[(u8, u64)] = &[(0, 1), (1, 2), (2, 4), (3, 8), (4, 16), (5, 32)];

/// Adds a module of each model, under the number of its stage.
fn load_models(alloc: Global, out: &mut Vec<u8>) -> Result<(), NoMemory> {
    for (model, stage) in MODELS {
        load_model(alloc, out, *stage, *model)?;
    }
    Ok(())
}

/// Loads of what the judged states refer to: a sampler, a layout, a pass, and the modules.
fn given(alloc: Global) -> Result<Vec<u8>, NoMemory> {
    let mut input = Vec::new(alloc);
    put_state(alloc, &mut input, LOAD, Key { tag: 1, hash: 1 }, "{}")?;
    put_state(alloc, &mut input, LOAD, LAYOUT, "{}")?;
    put_state(alloc, &mut input, LOAD, Key { tag: 5, hash: 5 }, PASS)?;
    load_models(alloc, &mut input)?;
    Ok(input)
}

/// What is sent in a session, and what has to be written.
#[derive(Drop)]
struct Script {
    sent: Vec<u8>,
    written: Vec<u8>,
}

/// A session in which this is sent first, and answered by a Hello alone.
fn begun(alloc: Global, sent: Vec<u8>) -> Result<Script, NoMemory> {
    let written = Vec::from_slice(alloc, HELLO)?;
    Ok(Script { sent, written })
}

/// A state is sent, and this code is its answer.
fn ask(
    alloc: Global,
    script: &mut Script,
    tag: u32,
    object: &str,
    code: u32,
) -> Result<(), NoMemory> {
    let key = Key { tag, hash: HASH };
    put_state(alloc, &mut script.sent, DO, key, object)?;
    put_reply(&mut script.written, key, code)
}

fn ask_states(alloc: Global, script: &mut Script) -> Result<(), NoMemory> {
    for (code, tag, object) in STATES {
        ask(alloc, script, *tag, *object, *code)?;
    }
    Ok(())
}

fn ask_modules(alloc: Global, script: &mut Script) -> Result<(), NoMemory> {
    let key = Key { tag: 4, hash: HASH };
    for (code, words, varints) in MODULES {
        put_module(alloc, &mut script.sent, DO, HASH, *words, *varints)?;
        put_reply(&mut script.written, key, *code)?;
    }
    Ok(())
}

/// A graphics pipeline with these stages and further members.
fn graphics(alloc: Global, stages: &str, more: &str) -> Result<String, NoMemory> {
    Ok(format!(in alloc;
        "{{\"layout\":\"0000000000000003\",\"renderPass\":\"0000000000000005\",\"stages\":[{stages}]{more}}}"
    )?)
}

fn ask_pipelines(alloc: Global, script: &mut Script) -> Result<(), NoMemory> {
    for (code, stages, more) in PIPELINES {
        let object = graphics(alloc, *stages, *more)?;
        ask(alloc, script, 6, &object, *code)?;
    }
    Ok(())
}

/// Whether the session goes so, once a Quit ends it.
fn goes(alloc: Global, script: &mut Script) -> Result<bool, NoMemory> {
    script.sent.extend_from_slice(QUIT)?;
    Ok(comes_to(
        alloc,
        &script.sent,
        pieces(1000),
        Served::Quit,
        &script.written,
    ))
}

fn states_are_answered(alloc: Global) -> Result<bool, NoMemory> {
    let mut script = begun(alloc, given(alloc)?)?;
    ask_states(alloc, &mut script)?;
    goes(alloc, &mut script)
}

#[test]
fn each_state_is_answered_by_its_code(rt: HostRuntime) {
    assert!(rt; states_are_answered(rt.alloc()) == Ok(true));
}

fn modules_are_answered(alloc: Global) -> Result<bool, NoMemory> {
    let mut script = begun(alloc, Vec::new(alloc))?;
    ask_modules(alloc, &mut script)?;
    goes(alloc, &mut script)
}

#[test]
fn each_module_is_answered_by_its_code(rt: HostRuntime) {
    assert!(rt; modules_are_answered(rt.alloc()) == Ok(true));
}

fn pipelines_are_answered(alloc: Global) -> Result<bool, NoMemory> {
    let mut script = begun(alloc, given(alloc)?)?;
    ask_pipelines(alloc, &mut script)?;
    goes(alloc, &mut script)
}

#[test]
fn each_graphics_pipeline_is_answered_by_its_code(rt: HostRuntime) {
    assert!(rt; pipelines_are_answered(rt.alloc()) == Ok(true));
}
