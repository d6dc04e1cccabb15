//! `record` of the capture of a small game: modules, layouts, passes and the pipelines over them, 130 states that differ.
use super::record::expect_summary;
use std::alloc::Global;
use std::process::Abort;
use std::sync::Wait;
use std::test::Fail;
use std::thread::Threads;

// A module up to its generator word,
const MODULE: &str = "shader_module {\"code\":\"AwIjBwAAAQA";

// the letters of that word, by which the modules differ,
const GENERATORS: &str = "ABCDEFGHIJKLMNOPQRSTUVWXYZabcdefghijklmn";

// and what comes after it in a vertex shader and in a fragment shader.
const VERTEX: &str =
    "AAAABQAAAAAAAAARAAIAAQAAAA4AAwAAAAAAAQAAAA8ABQAAAAAAAQAAAG1haW4AAAAAEwACAAIAAAAhAAMAAwAAAAIAAAA2AAUAAgAAAAEAAAAAAAAAAwAAAPgAAgAEAAAA/QABADgAAQA=\"}\n";

const FRAGMENT: &str =
    "AAAABQAAAAAAAAARAAIAAQAAAA4AAwAAAAAAAQAAAA8ABQAEAAAAAQAAAG1haW4AAAAAEwACAAIAAAAhAAMAAwAAAAIAAAA2AAUAAgAAAAEAAAAAAAAAAwAAAPgAAgAEAAAA/QABADgAAQA=\"}\n";

/// Vertex and fragment modules in turn.
fn push_modules(capture: &mut String) -> Result<(), Fail> {
    let mut is_vertex = true;
    for generator in GENERATORS.chars() {
        capture.push_str(MODULE)?;
        capture.push(generator)?;
        capture.push_str(if is_vertex { VERTEX } else { FRAGMENT })?;
        is_vertex = !is_vertex;
    }
    Ok(())
}

// The sizes of the push constants of the pipeline layouts, and the hashes of the set layouts that they have, which have 1 to
// 12 descriptors. All hashes here are those of another implementation of the format.
const SET_LAYOUTS: &[(u32, &str)] = &[
    (4, "1a1a22f30c0829fe"),
    (8, "1a16dcf30c057d35"),
    (12, "1a1356f30c0263ac"),
    (16, "1a1010f30bffb6e3"),
    (20, "1a0caaf30bfcd3ba"),
    (24, "1a0924f30bf9ba31"),
    (28, "1a05def30bf70d68"),
    (32, "1a0258f30bf3f3df"),
    (36, "19ff12f30bf14716"),
    (40, "19fbacf30bee63ed"),
    (44, "19f826f30beb4a64"),
    (48, "19f4e0f30be89d9b"),
];

/// Set layouts, and a pipeline layout over each.
fn push_layouts(alloc: Global, capture: &mut String) -> Result<(), Fail> {
    for count in 1..=12u32 {
        let line = format!(in alloc;
            "set_layout {{\"bindings\":[{{\"descriptorCount\":{count},\"descriptorType\":1,\"stageFlags\":16}}]}}\n"
        )?;
        capture.push_str(&line)?;
    }
    for (size, set_layout) in SET_LAYOUTS {
        let line = format!(in alloc;
            "pipeline_layout {{\"pushConstantRanges\":[{{\"size\":{size},\"stageFlags\":17}}],\"setLayouts\":[\"{set_layout}\"]}}\n"
        )?;
        capture.push_str(&line)?;
    }
    Ok(())
}

const RENDER_PASS: &str =
    "render_pass {\"attachments\":[{\"finalLayout\":1000001002,\"format\":37,\"loadOp\":1,\"samples\":1,\"stencilLoadOp\":2,\"stencilStoreOp\":1}],\"subpasses\":[";

const SUBPASS: &str = "{\"colorAttachments\":[{\"layout\":2}]}";

/// Render passes of one to six subpasses.
fn push_passes(capture: &mut String) -> Result<(), Fail> {
    for count in 1..=6u32 {
        capture.push_str(RENDER_PASS)?;
        for place in 0..count {
            capture.push_str(if place > 0 { "," } else { "" })?;
            capture.push_str(SUBPASS)?;
        }
        capture.push_str("]}\n")?;
    }
    Ok(())
}

// The hashes of the first modules, a vertex and a fragment module each,
const MODULES: &[(&str, &str)] = &[
    ("4cb888c368ab476c", "918c0204eafd14c5"),
    ("bc0c688775aa2d82", "967953cf0563c113"),
    ("80d46423e7ca6f88", "a1545c437ab032c9"),
    ("b9ceb2fccdfcaeee", "e676d042b1af6a37"),
    ("d3752ab1796c1314", "c1417f5ddc4e48cd"),
];

// of the pipeline layouts, each with that of the render pass that goes with it.
const LAYOUTS: &[(&str, &str)] = &[
    ("40972ebbfa170f3e", "4697d205816ab20d"),
    ("b7e1e74ddaf317ab", "0e5b945041c9ab39"),
    ("9993f41ee00c8178", "bb82bbb6022efab9"),
    ("14ed83d272a262ed", "83868723c763fff5"),
    ("fa043e7326007912", "1000a2d9b1578105"),
    ("6f9083f57db11fb7", "7d42c25e53d83be9"),
    ("3ec1eb3bb930b23c", "4697d205816ab20d"),
    ("bfe2befc8b2abb79", "0e5b945041c9ab39"),
    ("e238fa4f865add66", "bb82bbb6022efab9"),
    ("1b8b29aae6dd2583", "83868723c763fff5"),
    ("f896d248a1981870", "1000a2d9b1578105"),
    ("c987568ba4d92035", "7d42c25e53d83be9"),
];

const PIPELINE: &str =
    "graphics_pipeline {\"colorBlendState\":{\"attachments\":[{\"colorWriteMask\":15}]},\"dynamicState\":{\"dynamicStates\":[0,1]},\"inputAssemblyState\":{\"topology\":3},\"multisampleState\":{\"rasterizationSamples\":1},\"rasterizationState\":{\"cullMode\":2,\"lineWidth\":1},\"vertexInputState\":{},\"viewportState\":{\"scissorCount\":1,\"viewportCount\":1}";

/// Pipelines over five pairs of modules and each layout.
fn push_pipelines(alloc: Global, capture: &mut String) -> Result<(), Fail> {
    for (vertex, fragment) in MODULES {
        for (layout, render_pass) in LAYOUTS {
            let line = format!(in alloc;
                "{PIPELINE},\"layout\":\"{layout}\",\"renderPass\":\"{render_pass}\",\"stages\":[{{\"module\":\"{vertex}\",\"name\":\"main\",\"stage\":1}},{{\"module\":\"{fragment}\",\"name\":\"main\",\"stage\":16}}]}}\n"
            )?;
            capture.push_str(&line)?;
        }
    }
    Ok(())
}

fn capture_of(alloc: Global) -> Result<String, Fail> {
    let mut capture = String::new(alloc);
    push_modules(&mut capture)?;
    push_layouts(alloc, &mut capture)?;
    push_passes(&mut capture)?;
    push_pipelines(alloc, &mut capture)?;
    Ok(capture)
}

const ALL_NEW: &str = "\nnew 130 known 0 refused 0 entries 130\n";

const ALL_KNOWN: &str = "\nnew 0 known 130 refused 0 entries 130\n";

// By how many threads the capture is recorded.
const COMMANDS: &[&str] = &["record a.foz", "record a.foz --threads 4"];

/// The capture is recorded into a new file, and then into that file again, which stays.
fn expect_recorded_once(
    rt: &(impl Abort + Wait + Threads + Sync),
    alloc: Global,
    words: &str,
    capture: &[u8],
) -> Result<(), Fail> {
    let file = expect_summary(rt, alloc, None, words, capture, ALL_NEW)?;
    let copy = Vec::from_slice(alloc, file.as_slice())?;
    let again = expect_summary(rt, alloc, Some(copy), words, capture, ALL_KNOWN)?;
    assert!(rt; again.as_slice() == file.as_slice());
    Ok(())
}

#[test]
fn a_capture_is_recorded_once(rt: HostRuntime) -> Result<(), Fail> {
    let capture = capture_of(rt.alloc())?;
    for words in COMMANDS {
        expect_recorded_once(&rt, rt.alloc(), words, capture.as_bytes())?;
    }
    Ok(())
}
