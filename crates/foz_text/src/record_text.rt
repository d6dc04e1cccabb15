//! The text of the command `record`.
ghost use Rattle.std.specs.Prelude.{◌≡◌, ◌++◌, Some, OnOk, OnErr, codes, decimal};
ghost use Rattle.std.specs.List.{count_by};
ghost use Rattle.report_words.specs.Fronts.{BeginsWith};
ghost use Rattle.foz_text.specs.RecordText.{is_new, is_known, is_refused, reply_words, record_line, record_text, summary};

use crate::cause::CauseText;
use foz_words::NoMemory;
use record_words::{Answered, LineAnswer, RecordReply};
use report_words::Hash;
use std::alloc::Global;
use std::fmt;

/// A reply as the words of its line.
#[derive(Clone, Copy)]
struct ReplyWords(RecordReply);

impl fmt::Display for ReplyWords {
    ghost output = { λ words. Some (reply_words words.0) };

    fn fmt<W: fmt::Write>(&self, f: &mut fmt::Formatter<W>) -> fmt::Result {
        match self.0 {
            RecordReply::New { index } => write!(f, "new {index}"),
            RecordReply::Known { index } => write!(f, "known {index}"),
            RecordReply::Collision { index } => write!(f, "collision {index}"),
            RecordReply::TooLarge { size } => write!(f, "too large {size}"),
            RecordReply::Full { end, need } => write!(f, "full {end} {need}"),
            RecordReply::TooMany { count: _ } => write!(f, "too many"),
            _ => Ok(()),
        }
    }
}

fn is_new<C>(answered: &Answered<C>) -> bool
    ensures { result ≡ is_new answered.now }
{
    match &answered.answer {
        LineAnswer::Refused(_) => false,
        LineAnswer::Replied { reply, .. } => reply.is_new(),
    }
}

fn is_known<C>(answered: &Answered<C>) -> bool
    ensures { result ≡ is_known answered.now }
{
    match &answered.answer {
        LineAnswer::Refused(_) => false,
        LineAnswer::Replied { reply, .. } => reply.is_known(),
    }
}

/// Is the line neither new nor known?
pub fn is_refused<C>(answered: &Answered<C>) -> bool
    ensures { result ≡ is_refused answered.now }
{
    match &answered.answer {
        LineAnswer::Refused(_) => true,
        LineAnswer::Replied { reply, .. } => !matches!(
            reply,
            RecordReply::New { .. } | RecordReply::Known { .. }
        ),
    }
}

fn new_among<C>(answers: &[Answered<C>]) -> usize
    ensures { result ≡ count_by is_new answers.now }
{
    answers.iter().filter(|one| is_new(one)).count()
}

fn known_among<C>(answers: &[Answered<C>]) -> usize
    ensures { result ≡ count_by is_known answers.now }
{
    answers.iter().filter(|one| is_known(one)).count()
}

fn refused_among<C>(answers: &[Answered<C>]) -> usize
    ensures { result ≡ count_by is_refused answers.now }
{
    answers.iter().filter(|one| is_refused(one)).count()
}

/// Adds the line of an answer.
fn push_line<C: CauseText>(
    alloc: Global,
    out: &mut Vec<u8>,
    answered: &Answered<C>,
) -> Result<(), NoMemory>
    ensures line { OnOk result (out.new.items ≡ out.old.items ++ record_line C.text answered.now) }
    ensures refused { OnErr result (out.new.items ≡ out.old.items) }
{
    match &answered.answer {
        LineAnswer::Refused(cause) => push_refused(alloc, out, answered.line, cause),
        LineAnswer::Replied { key, reply } => {
            let (line, tag, hash, words) = (
                answered.line,
                key.tag,
                Hash(key.hash),
                ReplyWords(*reply),
            );
            let text = format!(in alloc; "{line} {tag} {hash} {words}\n")?;
            out.extend_from_slice(text.as_bytes())?;
            Ok(())
        }
    }
}

/// Adds the line that says why a line of the capture can't be read.
pub(crate) fn push_refused<C: CauseText>(
    alloc: Global,
    out: &mut Vec<u8>,
    line: u32,
    cause: &C,
) -> Result<(), NoMemory>
    ensures line { OnOk result (out.new.items ≡ out.old.items ++ decimal line ++ codes " refused " ++ C.text cause.now ++ codes "\n") }
    ensures refused { OnErr result (out.new.items ≡ out.old.items) }
{
    let mut text = format!(in alloc; "{line} refused ")?.into_bytes();
    cause.push_text(alloc, &mut text)?;
    text.push(b'\n')?;
    out.extend_from_slice(&text)?;
    Ok(())
}

/// Adds the line that counts the answers.
fn push_summary<C>(
    alloc: Global,
    out: &mut Vec<u8>,
    answers: &[Answered<C>],
    entries: u32,
) -> Result<(), NoMemory>
    ensures line { OnOk result (out.new.items ≡ out.old.items ++ summary answers.now entries) }
    ensures refused { OnErr result (out.new.items ≡ out.old.items) }
{
    let new = new_among(answers);
    let known = known_among(answers);
    let refused = refused_among(answers);
    let text = format!(in alloc; "new {new} known {known} refused {refused} entries {entries}\n")?;
    out.extend_from_slice(text.as_bytes())?;
    Ok(())
}

/// Adds all lines. An `Err` keeps what was there before, and may leave some of the lines.
fn push_lines<C: CauseText>(
    alloc: Global,
    out: &mut Vec<u8>,
    answers: &[Answered<C>],
    entries: u32,
) -> Result<(), NoMemory>
    ensures text { OnOk result (out.new.items ≡ out.old.items ++ record_text C.text answers.now entries) }
    ensures front { OnErr result (BeginsWith out.old.items out.new.items) }
{
    for answered in answers {
        push_line(alloc, out, answered)?;
    }
    push_summary(alloc, out, answers, entries)?;
    Ok(())
}

/// Adds the text of the answers to a capture's lines, after which the archive has so many entries. An `Err` changes
/// nothing.
pub fn push_record<C: CauseText>(
    alloc: Global,
    out: &mut Vec<u8>,
    answers: &[Answered<C>],
    entries: u32,
) -> Result<(), NoMemory>
    ensures text { OnOk result (out.new.items ≡ out.old.items ++ record_text C.text answers.now entries) }
    ensures refused { OnErr result (out.new.items ≡ out.old.items) }
{
    let start = out.len();
    let pushed = push_lines(alloc, out, answers, entries);
    if pushed.is_err() {
        out.truncate(start);
    }
    pushed
}
