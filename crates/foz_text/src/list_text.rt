//! The text of the command `list`.
ghost use Rattle.std.specs.Prelude.{◌≡◌, ◌≤◌, ◌++◌, ◌∷◌, [], List, Some, OnOk, OnErr, IfOk};
ghost use Rattle.foz_entry.specs.declared.cut.Entry.{Entry};
ghost use Rattle.report_words.specs.Fronts.{BeginsWith};
ghost use Rattle.foz_text.specs.ListText.{AreKeysHeld, standing, standing as standing_in, standing_text, is_ok_word, line, rest_word, last_line, list_text, is_flawless};

use foz_archive::Scanned;
use foz_entry::{Entry, EntryCause, check};
use foz_words::{Key, NoMemory};
use report_words::{Damage, Hash};
use std::alloc::Global;
use std::collections::HashSet;
use std::fmt;

/// How an entry stands among those before it.
#[derive(Clone, Copy, Debug, PartialEq, Eq)]
pub(crate) enum Soundness {
    Sound,
    Duplicate,
    Damaged(EntryCause),
}

impl fmt::Display for Soundness {
    ghost output = { λ standing. Some (standing_text standing) };

    fn fmt<W: fmt::Write>(&self, f: &mut fmt::Formatter<W>) -> fmt::Result {
        match self {
            Soundness::Sound => write!(f, "ok"),
            Soundness::Duplicate => write!(f, "duplicate"),
            Soundness::Damaged(cause) => {
                let damage = Damage(*cause);
                write!(f, "{damage}")
            }
        }
    }
}

/// How an entry stands among those before it. The keys of the undamaged ones among them were seen, and its own is
/// added to these.
fn standing(seen: &mut HashSet<Key>, entry: &Entry) -> Result<Soundness, NoMemory>
    ensures value { (before : List Entry) → AreKeysHeld ⟦<Key as PartialEq>⟧.eq seen.old before → IfOk result (λ soundness. soundness ≡ standing before entry.now) }
    ensures seen { (before : List Entry) → AreKeysHeld ⟦<Key as PartialEq>⟧.eq seen.old before → OnOk result (AreKeysHeld ⟦<Key as PartialEq>⟧.eq seen.new (before ++ entry.now ∷ [])) }
{
    match check(&entry.head, entry.payload.as_slice()) {
        Err(cause) => Ok(Soundness::Damaged(cause)),
        Ok(()) => {
            if seen.insert(entry.head.key)? {
                Ok(Soundness::Sound)
            } else {
                Ok(Soundness::Duplicate)
            }
        }
    }
}

fn is_ok(standing: Soundness) -> bool
    ensures { result ≡ is_ok_word standing }
{
    match standing {
        Soundness::Sound => true,
        Soundness::Duplicate | Soundness::Damaged(_) => false,
    }
}

/// Adds the line of an entry that stands so among those before it.
fn push_line(
    alloc: Global,
    out: &mut Vec<u8>,
    entry: &Entry,
    standing: Soundness,
) -> Result<(), NoMemory>
    ensures line { (before : List Entry) → standing ≡ standing_in before entry.now → OnOk result (out.new.items ≡ out.old.items ++ line before entry.now) }
    ensures refused { OnErr result (out.new.items ≡ out.old.items) }
{
    let offset = entry.offset;
    let tag = entry.head.key.tag;
    let hash = Hash(entry.head.key.hash);
    let size = entry.head.size;
    let text = format!(in alloc; "{offset} {tag} {hash} {size} {standing}\n")?;
    out.extend_from_slice(text.as_bytes())?;
    Ok(())
}

fn rest_word(clean: bool) -> &'static str
    ensures { result.now ≡ rest_word clean }
{
    if clean { "clean" } else { "dropped" }
}

fn push_last_line(alloc: Global, out: &mut Vec<u8>, scanned: &Scanned) -> Result<(), NoMemory>
    requires { scanned.now.end ≤ scanned.now.length }
    ensures line { OnOk result (out.new.items ≡ out.old.items ++ last_line scanned.now) }
    ensures refused { OnErr result (out.new.items ≡ out.old.items) }
{
    let count = scanned.entries.len();
    let end = scanned.end;
    let rest = scanned.length - end;
    let word = rest_word(scanned.clean);
    let text = format!(in alloc; "entries {count} end {end} rest {rest} {word}\n")?;
    out.extend_from_slice(text.as_bytes())?;
    Ok(())
}

/// Adds the text of what is read of a file, and says whether each line is `ok`. An `Err` changes nothing.
pub fn push_list(alloc: Global, out: &mut Vec<u8>, scanned: &Scanned) -> Result<bool, NoMemory>
    requires { scanned.now.end ≤ scanned.now.length }
    ensures text { OnOk result (out.new.items ≡ out.old.items ++ list_text scanned.now) }
    ensures flawless { IfOk result (λ flawless. flawless ≡ is_flawless scanned.now) }
    ensures refused { OnErr result (out.new.items ≡ out.old.items) }
{
    let start = out.len();
    let pushed = push_lines(alloc, out, scanned);
    if pushed.is_err() {
        out.truncate(start);
    }
    pushed
}

/// Adds all lines. An `Err` keeps what was there before, and may leave some of the lines.
fn push_lines(alloc: Global, out: &mut Vec<u8>, scanned: &Scanned) -> Result<bool, NoMemory>
    requires { scanned.now.end ≤ scanned.now.length }
    ensures text { OnOk result (out.new.items ≡ out.old.items ++ list_text scanned.now) }
    ensures flawless { IfOk result (λ flawless. flawless ≡ is_flawless scanned.now) }
    ensures front { OnErr result (BeginsWith out.old.items out.new.items) }
{
    let mut seen = HashSet::new(alloc);
    let mut flawless = true;
    for entry in scanned.entries.as_slice() {
        let standing = standing(&mut seen, entry)?;
        push_line(alloc, out, entry, standing)?;
        flawless &= is_ok(standing);
    }
    push_last_line(alloc, out, scanned)?;
    Ok(flawless)
}
