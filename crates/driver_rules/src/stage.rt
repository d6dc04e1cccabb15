ghost use Rattle.std.specs.Prelude.{◌≡◌, ◌+◌};
ghost use Rattle.driver_rules.specs.Stage.{constants_fit, has_data, model_of, has_entry, starts_in};

use spirv_check::EntryPoint;
use vk_pipe::{MapEntry, SpecInfo, Stage};

/// Each specialization constant of a stage lies within the data.
pub fn has_data(stage: &Stage) -> bool
    ensures { result ≡ has_data stage.now }
{
    match &stage.specialization_info {
        None => true,
        Some(info) => constants_fit(info),
    }
}

fn constants_fit(info: &SpecInfo) -> bool
    ensures { result ≡ constants_fit info.now }
{
    let size = info.data_bytes.len() as u64;
    info.map_entries
        .as_slice()
        .iter()
        .all(|entry| end_of(entry) <= size)
}

/// Where a constant ends in the data. The sum may pass 32 bits.
fn end_of(entry: &MapEntry) -> u64
    ensures { result ≡ entry.now.offset + entry.now.size }
{
    u64::from(entry.offset) + u64::from(entry.size)
}

/// The entry point that a stage names is among those of its module.
pub fn starts_in(entries: &[EntryPoint], stage: &Stage) -> bool
    ensures { result ≡ starts_in entries.now stage.now }
{
    match model_of(stage.stage) {
        None => false,
        Some(model) => has_entry(entries, model, stage.name.as_str().as_bytes()),
    }
}

/// An entry point has this execution model and this name.
pub fn has_entry(entries: &[EntryPoint], model: u32, name: &[u8]) -> bool
    ensures { result ≡ has_entry entries.now model name.now }
{
    entries.iter().any(|entry| entry.model == model && entry.name.as_slice() == name)
}

/// The execution model of a stage.
fn model_of(stage: u32) -> Option<u32>
    ensures { result ≡ model_of stage }
{
    match stage {
        1 => Some(0),
        2 => Some(1),
        4 => Some(2),
        8 => Some(3),
        16 => Some(4),
        32 => Some(5),
        _ => None,
    }
}
