//! The answers of several threads, put together in the order of their lines.
ghost use Rattle.std.specs.Prelude.{◌≡◌, ◌≢◌, ℕ, ◌+◌, ◌%◌, ◌<◌, ◌^◌, List, [], ◌++◌, length, filter, slice_index_or, option_to_list, IfOk, OnOk};
ghost use Rattle.record_words.specs.declared.answered.Answered.{Answered as AnsweredSeen};
ghost use Rattle.record_team.specs.Told.{is_of};
ghost use Rattle.record_team.specs.Merged.{Rise, IsTaken};

use foz_words::{NoMemory, Row};
use record_words::Answered;
use std::alloc::Global;
use std::collections::VecDeque;
use std::marker::Model;

/// The answers of one thread, from which the first is taken.
#[derive(Drop)]
pub(crate) struct Queue<C> {
    waiting: VecDeque<Answered<C>>,
}

impl<C> Model for Queue<C> {
    ghost use Rattle.std.specs.Prelude.{List};
    ghost use Rattle.record_words.specs.declared.answered.Answered.{Answered as AnsweredSeen};

    ghost Value = { List (AnsweredSeen C) };

    ghost view = { λ queue. queue.waiting.items };
}

impl<C: Drop> Queue<C> {
    pub(crate) fn new(told: Row<Answered<C>>) -> Queue<C>
        ensures { result ≡ told }
    {
        Queue {
            waiting: VecDeque::from_vec(told.into_vec()),
        }
    }

    /// Takes the first answer, if it is to this line.
    fn take_if(&mut self, line: u32) -> Option<Answered<C>>
        ensures { IsTaken line self.old result self.new }
    {
        match self.waiting.front() {
            Some(first) if first.line == line => self.waiting.pop_front(),
            _ => None,
        }
    }
}

/// Takes the answer to a line from those of the thread whose line it is. Lines are counted from 0 here.
fn take_answer<C: Drop>(told: &mut [Queue<C>], number: u32) -> Option<Answered<C>>
    requires some { (0 < length told.old) × (length told.old < 2 ^ 32) }
    requires number { number < 4294967295 }
    ensures taken { IsTaken (number + 1) (slice_index_or told.old (number % length told.old) []) result (slice_index_or told.new (number % length told.old) []) }
    ensures others { (thread : ℕ) → thread ≢ number % length told.old → slice_index_or told.new thread [] ≡ slice_index_or told.old thread [] }
{
    let thread = number as usize % told.len();
    told[thread].take_if(number + 1)
}

/// Adds an answer to others, if there is one.
fn add<C: Drop>(all: &mut Row<Answered<C>>, answered: Option<Answered<C>>) -> Result<(), NoMemory>
    ensures { OnOk result (all.new ≡ all.old ++ option_to_list answered) }
{
    match answered {
        Some(answered) => all.push(answered),
        None => Ok(()),
    }
}

/// The answers of all threads in the order of lines, of which there are so many.
pub(crate) fn merged<C: Drop>(
    alloc: Global,
    told: &mut [Queue<C>],
    count: u32,
) -> Result<Row<Answered<C>>, NoMemory>
    requires some { (0 < length told.old) × (length told.old < 2 ^ 32) }
    requires count { count < 4294967295 }
    ensures { (whole : List (AnsweredSeen C)) → Rise 1 (count + 1) whole → ((thread : ℕ) → thread < length told.old → slice_index_or told.old thread [] ≡ filter (is_of (length told.old) thread) whole) → IfOk result (λ all. all ≡ whole) }
{
    let mut all = Row::new(alloc);
    for number in 0..count {
        let answered = take_answer(told, number);
        add(&mut all, answered)?;
    }
    Ok(all)
}
