//! `hash`: its text on captures as they lie in the world, and failures in mid-stream.
use super::{Case, Given, NOTHING, Wanted, expect_cases};
use std::test::Fail;

const THREE: &[u8] = b"sampler {\"magFilter\":4294967296}\nlens {}\nsampler {}\n";

const LINES: &[Case] = &[
    (
        Given {
            words: "hash",
            input: THREE,
            ..NOTHING
        },
        Wanted {
            status: 1,
            output: b"1 refused field magFilter large\n2 refused kind\n3 sampler fefc3737bee27f5e\n",
            errors: "",
            file: None,
        },
    ),
    (
        Given {
            words: "hash",
            input: b"# none\n\nsampler {}\n#\npipeline_layout {\"setLayouts\":[\"00000000000000Af\"]}",
            ..NOTHING
        },
        Wanted {
            status: 0,
            output: b"3 sampler fefc3737bee27f5e\n5 pipeline_layout b865747ab4cc1a48\n",
            errors: "",
            file: None,
        },
    ),
    (
        Given {
            words: "hash",
            ..NOTHING
        },
        Wanted {
            status: 0,
            output: b"",
            errors: "",
            file: None,
        },
    ),
    (
        Given {
            words: "hash",
            input: b"sampler {\"pNext\":0}\n\
                set_layout {\"bindings\":[{\"binding\":0},{\"stageFlags\":-1}]}\n\
                shader_module {\"code\":\"AAA=\"}\n\
                graphics_pipeline {\"viewportState\":{\"viewports\":[{\"width\":1920}]}}\n\
                graphics_pipeline {\"colorBlendState\":{\"blendConstants\":[0,0,0]}}\n\
                sampler {\"maxLod\":1000.0}\n\
                sampler []\n\
                sampler {\n",
            ..NOTHING
        },
        Wanted {
            status: 1,
            output: b"1 refused field pNext pnext\n\
                2 refused field bindings[1].stageFlags number\n\
                3 refused code\n\
                4 refused field viewportState.viewports[0].width unit\n\
                5 refused field colorBlendState.blendConstants length\n\
                6 refused float 10\n\
                7 refused field  object\n\
                8 refused json\n",
            errors: "",
            file: None,
        },
    ),
];

#[test]
fn states_and_refusals_have_a_line_each(rt: HostRuntime) -> Result<(), Fail> {
    expect_cases(&rt, rt.alloc(), LINES)
}

const FAULTS: &[Case] = &[
    (
        Given {
            words: "hash",
            input: THREE,
            input_failing: &[0],
            ..NOTHING
        },
        Wanted {
            status: 3,
            output: b"",
            errors: "foz: read fault\n",
            file: None,
        },
    ),
    (
        Given {
            words: "hash",
            input: THREE,
            output_failing: &[2],
            ..NOTHING
        },
        Wanted {
            status: 4,
            output: b"1 refused fiel",
            errors: "foz: write fault\n",
            file: None,
        },
    ),
];

#[test]
fn a_hash_tells_a_fault(rt: HostRuntime) -> Result<(), Fail> {
    expect_cases(&rt, rt.alloc(), FAULTS)
}
