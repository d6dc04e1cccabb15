//! The words that ask for a command.
ghost use Rattle.std.specs.Prelude.{◌≡◌, ◌≤◌, ◌↔◌, map, string_bytes, Some, None, IfSome, IfOk, IfErr};
ghost use Rattle.foz_args.specs.Command.{alone_of, command_of, command_for, file_of, most_workers, put_of, record_of, replay_of, is_file, key_of_words, HasSlots, IsWithinLimits};

use crate::number::{count_upto, number_upto};
use foz_words::{Key, Name, read_hex16};

// The most threads that record.
const THREAD_LIMIT: u32 = 16;

/// What the words ask for.
#[derive(Debug, Drop)]
pub enum Command {
    List { file: Name },
    Put { file: Name, key: Key },
    Hash,
    Record { file: Name, threads: u32 },
    Check { file: Name },
    Worker,
    Replay { file: Name, workers: u32 },
}

/// Why words ask for nothing.
#[derive(Clone, Copy, Debug, PartialEq, Eq)]
pub enum ArgError {
    Usage,
    Memory,
}

/// Whether a word can name a file.
fn is_file(word: &str) -> bool
    ensures { result ≡ is_file word.now }
{
    match word.as_bytes() {
        [] => false,
        [first, ..] => *first != b'-',
    }
}

/// The name that a word is.
fn name_of(word: &String) -> Result<Name, ArgError>
    ensures named { IfOk result (λ name. name ≡ string_bytes word.now) }
    ensures memory { IfErr result (λ error. error ≡ ArgError.Memory) }
{
    match word.clone() {
        Ok(own) => Ok(Name::from_string(own)),
        Err(_) => Err(ArgError::Memory),
    }
}

/// The key that a tag in decimal and a hash in sixteen hexadecimal digits spell.
#[tactic(auto, unfolding(crate::specs::Command::key_of_words))]
fn key_of_words(tag: &str, hash: &str) -> Option<Key>
    ensures { result ≡ key_of_words tag.now hash.now }
{
    let tag = number_upto(u64::from(u32::MAX), tag)?;
    let hash = read_hex16(hash.as_bytes())?;
    Some(Key {
        tag: tag as u32,
        hash,
    })
}

/// The most workers that a replay has, where so many slots are there for them.
fn most_workers(slots: usize) -> u32
    ensures { result ≡ most_workers slots }
{
    if slots <= 16 { slots as u32 } else { 16 }
}

/// A command without more words.
fn alone_of(verb: &str) -> Option<Command>
    ensures alone { result ≡ alone_of verb.now }
    ensures limits { IfSome result IsWithinLimits }
{
    if verb == "hash" {
        Some(Command::Hash)
    } else if verb == "worker" {
        Some(Command::Worker)
    } else {
        None
    }
}

/// A command that takes a file alone.
fn file_of(verb: &str, word: &String) -> Result<Command, ArgError>
    ensures read { IfOk result (λ command. file_of verb.now (string_bytes word.now) ≡ Some command) }
    ensures usage { (result ≡ Err ArgError.Usage) ↔ (file_of verb.now (string_bytes word.now) ≡ None) }
    ensures limits { IfOk result IsWithinLimits }
{
    if verb == "list" && is_file(word.as_str()) {
        let file = name_of(word)?;
        Ok(Command::List { file })
    } else if verb == "record" && is_file(word.as_str()) {
        let file = name_of(word)?;
        Ok(Command::Record { file, threads: 1 })
    } else if verb == "check" && is_file(word.as_str()) {
        let file = name_of(word)?;
        Ok(Command::Check { file })
    } else if verb == "replay" && is_file(word.as_str()) {
        let file = name_of(word)?;
        Ok(Command::Replay { file, workers: 1 })
    } else {
        Err(ArgError::Usage)
    }
}

/// `put` of a key into a file.
fn put_of(verb: &str, word: &String, tag: &str, hash: &str) -> Result<Command, ArgError>
    ensures read { IfOk result (λ command. put_of verb.now (string_bytes word.now) tag.now hash.now ≡ Some command) }
    ensures usage { (result ≡ Err ArgError.Usage) ↔ (put_of verb.now (string_bytes word.now) tag.now hash.now ≡ None) }
    ensures limits { IfOk result IsWithinLimits }
{
    if verb == "put" && is_file(word.as_str()) {
        let Some(key) = key_of_words(tag, hash) else {
            return Err(ArgError::Usage);
        };
        let file = name_of(word)?;
        Ok(Command::Put { file, key })
    } else {
        Err(ArgError::Usage)
    }
}

/// `record` into a file with a number of threads.
fn record_of(verb: &str, word: &String, option: &str, number: &str) -> Result<Command, ArgError>
    ensures read { IfOk result (λ command. record_of verb.now (string_bytes word.now) option.now number.now ≡ Some command) }
    ensures usage { (result ≡ Err ArgError.Usage) ↔ (record_of verb.now (string_bytes word.now) option.now number.now ≡ None) }
    ensures limits { IfOk result IsWithinLimits }
{
    if verb == "record" && is_file(word.as_str()) && option == "--threads" {
        let Some(threads) = count_upto(THREAD_LIMIT, number) else {
            return Err(ArgError::Usage);
        };
        let file = name_of(word)?;
        Ok(Command::Record { file, threads })
    } else {
        Err(ArgError::Usage)
    }
}

/// `replay` of a file with a number of workers, where so many slots are there for them.
fn replay_of(
    slots: usize,
    verb: &str,
    word: &String,
    option: &str,
    number: &str,
) -> Result<Command, ArgError>
    ensures read { IfOk result (λ command. replay_of slots verb.now (string_bytes word.now) option.now number.now ≡ Some command) }
    ensures usage { (result ≡ Err ArgError.Usage) ↔ (replay_of slots verb.now (string_bytes word.now) option.now number.now ≡ None) }
    ensures limits { IfOk result IsWithinLimits }
    ensures slots { IfOk result (HasSlots slots) }
{
    if verb == "replay" && is_file(word.as_str()) && option == "--workers" {
        let Some(workers) = count_upto(most_workers(slots), number) else {
            return Err(ArgError::Usage);
        };
        let file = name_of(word)?;
        Ok(Command::Replay { file, workers })
    } else {
        Err(ArgError::Usage)
    }
}

/// The command of the words after the program's name, where so many slots are there for workers: a replay by more workers
/// than those is no command.
#[tactic(auto, unfolding(crate::specs::Command::command_for))]
pub fn command_for(slots: usize, words: &[String]) -> Result<Command, ArgError>
    requires some_slot { 1 ≤ slots }
    ensures read { IfOk result (λ command. command_for slots (map string_bytes words.now) ≡ Some command) }
    ensures usage { (result ≡ Err ArgError.Usage) ↔ (command_for slots (map string_bytes words.now) ≡ None) }
    ensures limits { IfOk result IsWithinLimits }
    ensures slots { IfOk result (HasSlots slots) }
{
    match words {
        [verb] => match alone_of(verb.as_str()) {
            Some(command) => Ok(command),
            None => Err(ArgError::Usage),
        },
        [verb, file] => file_of(verb.as_str(), file),
        [verb, file, tag, hash] if verb.as_str() == "put" => {
            put_of(verb.as_str(), file, tag.as_str(), hash.as_str())
        }
        [verb, file, option, number] if verb.as_str() == "record" => {
            record_of(verb.as_str(), file, option.as_str(), number.as_str())
        }
        [verb, file, option, number] => replay_of(
            slots,
            verb.as_str(),
            file,
            option.as_str(),
            number.as_str(),
        ),
        _ => Err(ArgError::Usage),
    }
}

/// The command of the words after the program's name, whatever slots are there.
#[tactic(auto, unfolding(crate::specs::Command::command_of))]
pub fn command_of(words: &[String]) -> Result<Command, ArgError>
    ensures read { IfOk result (λ command. command_of (map string_bytes words.now) ≡ Some command) }
    ensures usage { (result ≡ Err ArgError.Usage) ↔ (command_of (map string_bytes words.now) ≡ None) }
    ensures limits { IfOk result IsWithinLimits }
{
    command_for(16, words)
}
