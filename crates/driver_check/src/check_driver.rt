ghost use Rattle.std.specs.Prelude.{◌≡◌, [], IfOk, OnOk, OnErr};
ghost use Rattle.driver_rules.specs.Rules.{first_broken};
ghost use Rattle.driver_check.specs.Kept.{nothing_kept, kept_in, with_state};
ghost use Rattle.driver_check.specs.Offers.{entries_offered};
ghost use Rattle.driver_check.specs.Codes.{are_created, entries_of, subpasses_of, compute_rules, graphics_rules, stages_start, blends_in, own_code, code};

use crate::created::Created;
use crate::driver::Driver;
use driver_rules::{
    Judged, blends, first_broken, has_data, has_distinct_dynamics, has_distinct_stages, has_entry,
    has_graphics_stages, has_stage, has_well_fed_vertices, judge_module, pipeline_layout_code,
    render_pass_code, sampler_code, set_layout_code, stages_have_data, starts_in,
    tessellates_whole,
};
use foz_words::{Key, NoMemory, Row};
use indexmap::IndexMap;
use spirv_check::EntryPoint;
use state_words::{State, refs_of};
use std::alloc::Global;
use std::marker::Model;
use std::mem::drop;
use vk_pass::Subpass;
use vk_pipe::{ComputePipeline, GraphicsPipeline};

// The tags of the kinds that others look into.
const MODULE: u32 = 4;

const RENDER_PASS: u32 = 5;

// The execution model of compute shaders, and their stage.
const COMPUTE_MODEL: u32 = 5;

const COMPUTE_STAGE: u32 = 32;

/// Some state that this one refers to wasn't created.
const NOT_CREATED: u32 = 41;

/// The shipped driver: it checks the rules of each kind and remembers the states that keep them.
#[derive(Drop)]
pub struct CheckDriver {
    created: IndexMap<Key, Created>,
}

impl Model for CheckDriver {
    ghost use Rattle.std.specs.Prelude.{List};
    ghost use Rattle.foz_words.specs.declared.key.Key.{Key};
    ghost use Rattle.state_words.specs.declared.state.State.{State};

    ghost Value = { List (Key × State) };

    ghost view = { λ driver. driver.created.entries };
}

impl CheckDriver {
    /// A driver that has created nothing. It takes no memory.
    pub fn new(alloc: Global) -> CheckDriver
        ensures { kept_in result ≡ nothing_kept }
    {
        CheckDriver {
            created: IndexMap::new(alloc),
        }
    }

    /// Was each of these created?
    fn are_created(&self, keys: &[Key]) -> bool
        ensures { result ≡ are_created (kept_in self.now) keys.now }
    {
        keys.iter().all(|key| self.created.contains_key(key))
    }

    /// The entry points of the module with this hash.
    fn entries_of(&self, hash: u64) -> &[EntryPoint]
        ensures { result.now ≡ entries_of (kept_in self.now) hash }
    {
        match self.created.get(&Key { tag: MODULE, hash }) {
            Some(created) => created.entries(),
            None => &[],
        }
    }

    /// The subpasses of the render pass with this hash.
    fn subpasses_of(&self, hash: u64) -> &[Subpass]
        ensures { result.now ≡ subpasses_of (kept_in self.now) hash }
    {
        match self.created.get(&Key {
            tag: RENDER_PASS,
            hash,
        }) {
            Some(created) => created.subpasses(),
            None => &[],
        }
    }

    /// Each stage starts at an entry point of its module.
    fn stages_start(&self, pipeline: &GraphicsPipeline) -> bool
        ensures { result ≡ stages_start (kept_in self.now) pipeline.now }
    {
        let stages = pipeline.stages.as_slice();
        stages
            .iter()
            .all(|stage| starts_in(self.entries_of(stage.module), stage))
    }

    #[tactic(auto, unfolding(crate::specs::Codes::compute_rules))]
    fn compute_code(&self, pipeline: &ComputePipeline) -> u32
        ensures { result ≡ first_broken (compute_rules (kept_in self.now) pipeline.now) }
    {
        let stage = &pipeline.stage;
        let entries = self.entries_of(stage.module);
        let name = stage.name.as_str().as_bytes();
        first_broken(&[
            (28, stage.stage == COMPUTE_STAGE),
            (29, has_entry(entries, COMPUTE_MODEL, name)),
            (30, has_data(stage)),
        ])
    }

    #[tactic(auto, unfolding(crate::specs::Codes::graphics_rules))]
    fn graphics_code(&self, alloc: Global, pipeline: &GraphicsPipeline) -> Result<u32, NoMemory>
        ensures { IfOk result (λ code. code ≡ first_broken (graphics_rules (kept_in self.now) pipeline.now)) }
    {
        let subpasses = self.subpasses_of(pipeline.render_pass);
        Ok(first_broken(&[
            (31, has_graphics_stages(pipeline)),
            (32, has_distinct_stages(alloc, pipeline)?),
            (33, has_stage(1, pipeline)),
            (34, self.stages_start(pipeline)),
            (35, stages_have_data(pipeline)),
            (36, tessellates_whole(pipeline)),
            (37, (pipeline.subpass as usize) < subpasses.len()),
            (38, has_well_fed_vertices(alloc, pipeline)?),
            (39, blends_in(subpasses, pipeline)),
            (40, has_distinct_dynamics(alloc, pipeline)?),
        ]))
    }

    /// Judges a state, whatever it refers to.
    #[tactic(auto, unfolding(crate::specs::Codes::code))]
    fn judge(&self, alloc: Global, state: &State) -> Result<Judged, NoMemory>
        ensures code { IfOk result (λ judged. judged.code ≡ code (kept_in self.now) state.now) }
        ensures entries { IfOk result (λ judged. judged.code ≡ 0 → judged.entries ≡ entries_offered state.now) }
    {
        let refs = refs_of(alloc, state)?;
        if self.are_created(refs.as_slice()) {
            self.judge_alone(alloc, state)
        } else {
            Ok(without_entries(alloc, NOT_CREATED))
        }
    }

    /// Judges a state whose references were all created.
    #[tactic(auto, unfolding(crate::specs::Codes::own_code))]
    fn judge_alone(&self, alloc: Global, state: &State) -> Result<Judged, NoMemory>
        ensures code { IfOk result (λ judged. judged.code ≡ own_code (kept_in self.now) state.now) }
        ensures entries { IfOk result (λ judged. judged.entries ≡ entries_offered state.now) }
    {
        match state {
            State::Sampler(sampler) => Ok(without_entries(alloc, sampler_code(sampler))),
            State::SetLayout(layout) => Ok(without_entries(alloc, set_layout_code(alloc, layout)?)),
            State::PipelineLayout(layout) => {
                Ok(without_entries(alloc, pipeline_layout_code(layout)))
            }
            State::ShaderModule(module) => judge_module(alloc, module.code.as_slice()),
            State::RenderPass(pass) => Ok(without_entries(alloc, render_pass_code(pass))),
            State::Graphics(pipeline) => {
                Ok(without_entries(alloc, self.graphics_code(alloc, pipeline)?))
            }
            State::Compute(pipeline) => Ok(without_entries(alloc, self.compute_code(pipeline))),
        }
    }

    /// Keeps a state under its key, in place of the one that was kept there, and answers the code 0. An `Err` changes
    /// nothing.
    fn keep(&mut self, key: Key, created: Created) -> Result<u32, NoMemory>
        ensures code { IfOk result (λ code. code ≡ 0) }
        ensures ok { OnOk result (kept_in self.new ≡ with_state (kept_in self.old) key created) }
        ensures err { OnErr result (kept_in self.new ≡ kept_in self.old) }
    {
        drop(self.created.insert(key, created)?);
        Ok(0)
    }
}

impl Driver for CheckDriver {
    ghost use Rattle.driver_check.specs.Kept.{KeptStates, kept_in};
    ghost use Rattle.driver_check.specs.Codes.{Creates};

    ghost Meaning = { KeptStates };

    ghost meaning = { λ driver. kept_in driver };

    ghost creates = { Creates };

    fn create(&mut self, alloc: Global, key: Key, state: State) -> Result<u32, NoMemory> {
        let judged = match self.judge(alloc, &state) {
            Ok(judged) => judged,
            Err(NoMemory) => {
                drop(state);
                return Err(NoMemory);
            }
        };
        if judged.code == 0 {
            self.keep(key, Created::new(state, judged.entries))
        } else {
            drop(state);
            Ok(judged.code)
        }
    }
}

fn without_entries(alloc: Global, code: u32) -> Judged
    ensures { result ≡ record { code = code; entries = [] } }
{
    Judged {
        code,
        entries: Row::new(alloc),
    }
}

/// As many attachments are blended as the subpass has colour attachments, where there is such a subpass.
fn blends_in(subpasses: &[Subpass], pipeline: &GraphicsPipeline) -> bool
    ensures { result ≡ blends_in subpasses.now pipeline.now }
{
    match subpasses.get(pipeline.subpass as usize) {
        Some(subpass) => blends(subpass.color_attachments.len(), pipeline),
        None => true,
    }
}
