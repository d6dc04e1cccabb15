//! Structures as JSON objects: the first fault in the order of the fields, and all members where they are written.
use foz_words::Name;
use json_basic::Basic;
use json_fold::{FieldCause, FieldError, Json};
use json_pipe::Pipe;
use serde_json::Value;
use std::alloc::Global;
use std::process::Abort;
use std::test::Fail;
use vk_basic::{Sampler, SetLayout};
use vk_pipe::{ComputePipeline, GraphicsPipeline};

const SAMPLER_FAULTS: &[(&str, &str, FieldCause)] = &[
    (
        "{\"magFilter\":4294967296}",
        "magFilter",
        FieldCause::TooLarge,
    ),
    ("{\"maxLod\":2}", "maxLod", FieldCause::NotUnit),
    ("{\"maxLod\":-0}", "maxLod", FieldCause::NotNumber),
    (
        "{\"maxLod\":4294967296,\"flags\":null}",
        "flags",
        FieldCause::NotNumber,
    ),
    ("{\"pNext\":0}", "pNext", FieldCause::HasPNext),
    ("[]", "", FieldCause::NotObject),
];

const LAYOUT_FAULTS: &[(&str, &str, FieldCause)] = &[
    (
        "{\"bindings\":[{\"binding\":0},{\"stageFlags\":-1}]}",
        "bindings[1].stageFlags",
        FieldCause::NotNumber,
    ),
    (
        "{\"bindings\":[{\"pNext\":0}]}",
        "bindings[0].pNext",
        FieldCause::HasPNext,
    ),
    ("{\"bindings\":{}}", "bindings", FieldCause::NotList),
    ("{\"bindings\":[0]}", "bindings[0]", FieldCause::NotObject),
    (
        "{\"bindings\":[{\"immutableSamplers\":[\"0\"]}]}",
        "bindings[0].immutableSamplers[0]",
        FieldCause::BadHash,
    ),
    (
        "{\"bindings\":[{\"immutableSamplers\":[0]}]}",
        "bindings[0].immutableSamplers[0]",
        FieldCause::NotText,
    ),
];

const PIPELINE_FAULTS: &[(&str, &str, FieldCause)] = &[
    (
        "{\"viewportState\":{\"viewports\":[{\"width\":1920}]}}",
        "viewportState.viewports[0].width",
        FieldCause::NotUnit,
    ),
    (
        "{\"colorBlendState\":{\"blendConstants\":[0,0,0]}}",
        "colorBlendState.blendConstants",
        FieldCause::BadLength,
    ),
    (
        "{\"colorBlendState\":{\"blendConstants\":[0,0,0,2]}}",
        "colorBlendState.blendConstants[3]",
        FieldCause::NotUnit,
    ),
    (
        "{\"dynamicState\":null}",
        "dynamicState",
        FieldCause::NotObject,
    ),
    (
        "{\"stages\":[{\"specializationInfo\":{\"data\":\"AB\"}}]}",
        "stages[0].specializationInfo.data",
        FieldCause::BadBase64,
    ),
];

#[test]
fn the_first_fault_is_answered_with_its_path(rt: HostRuntime) -> Result<(), Fail> {
    are_refused::<Basic, Sampler>(&rt, rt.alloc(), SAMPLER_FAULTS)?;
    are_refused::<Basic, SetLayout>(&rt, rt.alloc(), LAYOUT_FAULTS)?;
    are_refused::<Pipe, GraphicsPipeline>(&rt, rt.alloc(), PIPELINE_FAULTS)
}

fn are_refused<Crate, S: Json<Crate>>(
    rt: &impl Abort,
    alloc: Global,
    faults: &[(&str, &str, FieldCause)],
) -> Result<(), Fail> {
    for (text, path, cause) in faults {
        let fault = fault_in::<Crate, S>(alloc, text)?;
        is_fault(rt, &fault, path, *cause);
    }
    Ok(())
}

fn fault_in<Crate, S: Json<Crate>>(alloc: Global, text: &str) -> Result<FieldError, Fail> {
    let value = value_in(alloc, text)?;
    match S::from_json(alloc, &value, "") {
        Ok(_) => Err(Fail::new("no fault")),
        Err(fault) => Ok(fault),
    }
}

fn is_fault(rt: &impl Abort, fault: &FieldError, path: &str, cause: FieldCause) {
    let FieldError::Bad {
        path: found,
        cause: why,
    } = fault
    else {
        panic!(rt; "out of memory");
    };
    assert_eq!(rt; found.as_str(), path);
    assert_eq!(rt; *why, cause);
}

fn value_in(alloc: Global, text: &str) -> Result<Value, Fail> {
    Ok(Value::from_str(alloc, text)?)
}

#[test]
fn all_members_are_written(rt: HostRuntime) -> Result<(), Fail> {
    is_written_as::<Basic, SetLayout>(
        &rt,
        rt.alloc(),
        "{\"bindings\":[{\"immutableSamplers\":[\"00000000000000Ff\"],\"stageFlags\":32,\"x\":1}],\"flags\":3}",
        "{\"bindings\":[{\"binding\":0,\"descriptorCount\":0,\"descriptorType\":0,\"immutableSamplers\":[\"00000000000000ff\"],\"stageFlags\":32}],\"flags\":3}",
    )?;
    is_written_as::<Pipe, ComputePipeline>(
        &rt,
        rt.alloc(),
        "{\"layout\":\"0000000000000003\",\"stage\":{\"module\":\"0000000000000004\",\"name\":\"main\",\"stage\":32}}",
        "{\"basePipelineHandle\":\"0000000000000000\",\"flags\":0,\"layout\":\"0000000000000003\",\"stage\":{\"flags\":0,\"module\":\"0000000000000004\",\"name\":\"main\",\"stage\":32}}",
    )
}

fn is_written_as<Crate, S: Json<Crate>>(
    rt: &impl Abort,
    alloc: Global,
    text: &str,
    expected: &str,
) -> Result<(), Fail> {
    let structure = structure_in::<Crate, S>(alloc, text)?;
    members_are(rt, alloc, &structure, expected)
}

fn structure_in<Crate, S: Json<Crate>>(alloc: Global, text: &str) -> Result<S, Fail> {
    let value = value_in(alloc, text)?;
    S::from_json(alloc, &value, "").map_err(Fail::from)
}

fn members_are<Crate, S: Json<Crate>>(
    rt: &impl Abort,
    alloc: Global,
    structure: &S,
    expected: &str,
) -> Result<(), Fail> {
    let text = structure.to_json(alloc)?.to_string(alloc)?;
    assert_eq!(rt; text.as_str(), expected);
    Ok(())
}
