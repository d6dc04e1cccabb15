//! The rules of the shipped driver that look at one state alone. Each rule has a code, and a state answers the code of the
//! first rule of its kind that it breaks, or 0.
#![tactic(auto)]

mod module;
mod numbers;
mod pipeline_layout;
mod render_pass;
mod rules;
mod sampler;
mod set_layout;
mod stage;
mod stages;
mod vertices;

pub use module::{Judged, judge_module};
pub use pipeline_layout::pipeline_layout_code;
pub use render_pass::render_pass_code;
pub use rules::first_broken;
pub use sampler::sampler_code;
pub use set_layout::set_layout_code;
pub use stage::{has_data, has_entry, starts_in};
pub use stages::{
    has_distinct_stages, has_graphics_stages, has_stage, stages_have_data, tessellates_whole,
};
pub use vertices::{blends, has_distinct_dynamics, has_well_fed_vertices};
