//! Why a line of a capture can't be read, as it is printed.
ghost use Rattle.std.specs.Prelude.{◌≡◌, ◌++◌, OnOk, OnErr, codes, decimal};

use crate::cause::CauseText;
use capture_lines::LineError;
use foz_words::NoMemory;
use report_words::field_word;
use std::alloc::Global;

#[tactic(auto, unfolding(crate::specs::LineCause::line_cause_text))]
impl CauseText for LineError {
    ghost use Rattle.foz_text.specs.LineCause.{line_cause_text};

    ghost text = { line_cause_text };

    fn push_text(&self, alloc: Global, out: &mut Vec<u8>) -> Result<(), NoMemory> {
        match self {
            LineError::Kind => push_words(out, "kind"),
            LineError::Float { at } => push_float(alloc, out, *at),
            LineError::Json => push_words(out, "json"),
            LineError::Field(path, cause) => {
                push_field(alloc, out, path.as_str(), field_word(*cause))
            }
            LineError::Code => push_words(out, "code"),
            LineError::Memory => Ok(()),
        }
    }
}

fn push_words(out: &mut Vec<u8>, words: &str) -> Result<(), NoMemory>
    ensures words { OnOk result (out.new.items ≡ out.old.items ++ words.now) }
    ensures refused { OnErr result (out.new.items ≡ out.old.items) }
{
    out.extend_from_slice(words.as_bytes())?;
    Ok(())
}

fn push_float(alloc: Global, out: &mut Vec<u8>, at: usize) -> Result<(), NoMemory>
    ensures words { OnOk result (out.new.items ≡ out.old.items ++ codes "float " ++ decimal at) }
    ensures refused { OnErr result (out.new.items ≡ out.old.items) }
{
    let words = format!(in alloc; "float {at}")?;
    push_words(out, words.as_str())
}

fn push_field(alloc: Global, out: &mut Vec<u8>, path: &str, word: &str) -> Result<(), NoMemory>
    ensures words { OnOk result (out.new.items ≡ out.old.items ++ codes "field " ++ path.now ++ codes " " ++ word.now) }
    ensures refused { OnErr result (out.new.items ≡ out.old.items) }
{
    let words = format!(in alloc; "field {path} {word}")?;
    push_words(out, words.as_str())
}
