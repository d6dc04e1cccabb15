ghost use Rattle.std.specs.Prelude.{◌≡◌, nat_le};
ghost use Rattle.std.specs.List.{list_all};
ghost use Rattle.driver_rules.specs.Rules.{first_broken};
ghost use Rattle.driver_rules.specs.RenderPass.{has_known_samples, has_known_ops, are_there, depth_is_there, uses_known_attachments, resolves_all_or_none, joins_known_subpasses, render_pass_rules};

use crate::numbers::is_within;
use crate::rules::first_broken;
use vk_pass::{Attachment, AttachmentRef, RenderPass, Subpass, SubpassDependency};

/// The code of the first rule that a render pass breaks, or 0.
#[tactic(auto, unfolding(crate::specs::RenderPass::render_pass_rules))]
pub fn render_pass_code(pass: &RenderPass) -> u32
    ensures { result ≡ first_broken (render_pass_rules pass.now) }
{
    let attachments = pass.attachments.as_slice();
    let subpasses = pass.subpasses.as_slice();
    let dependencies = pass.dependencies.as_slice();
    first_broken(&[
        (20, have_known_formats(attachments)),
        (21, have_known_samples(attachments)),
        (22, have_known_ops(attachments)),
        (23, subpasses.len() != 0),
        (24, use_known_attachments(attachments.len(), subpasses)),
        (25, resolve_all_or_none(subpasses)),
        (26, join_known_subpasses(subpasses.len(), dependencies)),
        (27, have_known_bind_points(subpasses)),
    ])
}

fn have_known_formats(attachments: &[Attachment]) -> bool
    ensures { result ≡ list_all (λ a. nat_le a.format 184) attachments.now }
{
    attachments.iter().all(|a| a.format <= 184)
}

fn have_known_samples(attachments: &[Attachment]) -> bool
    ensures { result ≡ list_all has_known_samples attachments.now }
{
    attachments.iter().all(has_known_samples)
}

fn have_known_ops(attachments: &[Attachment]) -> bool
    ensures { result ≡ list_all has_known_ops attachments.now }
{
    attachments.iter().all(has_known_ops)
}

fn use_known_attachments(count: usize, subpasses: &[Subpass]) -> bool
    ensures { result ≡ list_all (uses_known_attachments count) subpasses.now }
{
    subpasses.iter().all(|s| uses_known_attachments(count, s))
}

fn resolve_all_or_none(subpasses: &[Subpass]) -> bool
    ensures { result ≡ list_all resolves_all_or_none subpasses.now }
{
    subpasses.iter().all(resolves_all_or_none)
}

fn join_known_subpasses(count: usize, dependencies: &[SubpassDependency]) -> bool
    ensures { result ≡ list_all (joins_known_subpasses count) dependencies.now }
{
    dependencies.iter().all(|d| joins_known_subpasses(count, d))
}

fn have_known_bind_points(subpasses: &[Subpass]) -> bool
    ensures { result ≡ list_all (λ s. nat_le s.pipeline_bind_point 1) subpasses.now }
{
    subpasses.iter().all(|s| s.pipeline_bind_point <= 1)
}

fn has_known_samples(attachment: &Attachment) -> bool
    ensures { result ≡ has_known_samples attachment.now }
{
    matches!(attachment.samples, 1 | 2 | 4 | 8 | 16 | 32 | 64)
}

fn has_known_ops(attachment: &Attachment) -> bool
    ensures { result ≡ has_known_ops attachment.now }
{
    attachment.load_op <= 2
        && attachment.stencil_load_op <= 2
        && attachment.store_op <= 1
        && attachment.stencil_store_op <= 1
}

/// The attachments that a subpass names are among so many.
fn uses_known_attachments(count: usize, subpass: &Subpass) -> bool
    ensures { result ≡ uses_known_attachments count subpass.now }
{
    are_there(count, subpass.input_attachments.as_slice())
        && are_there(count, subpass.color_attachments.as_slice())
        && are_there(count, subpass.resolve_attachments.as_slice())
        && depth_is_there(count, &subpass.depth_stencil_attachment)
}

fn are_there(count: usize, refs: &[AttachmentRef]) -> bool
    ensures { result ≡ are_there count refs.now }
{
    refs.iter().all(|r| is_within(count, r.attachment))
}

fn depth_is_there(count: usize, depth: &Option<AttachmentRef>) -> bool
    ensures { result ≡ depth_is_there count depth.now }
{
    match depth {
        None => true,
        Some(depth) => is_within(count, depth.attachment),
    }
}

/// Nothing is resolved, or each colour attachment.
fn resolves_all_or_none(subpass: &Subpass) -> bool
    ensures { result ≡ resolves_all_or_none subpass.now }
{
    let resolved = subpass.resolve_attachments.len();
    resolved == 0 || resolved == subpass.color_attachments.len()
}

fn joins_known_subpasses(count: usize, dependency: &SubpassDependency) -> bool
    ensures { result ≡ joins_known_subpasses count dependency.now }
{
    is_within(count, dependency.src_subpass) && is_within(count, dependency.dst_subpass)
}
