//! The one call that the program makes.
ghost use Rattle.std.specs.Prelude.{◌≡◌, ◌≢◌, ◌<◌, ◌≤◌, ◌⊎◌, ◌↔◌, ℕ, List, false, length, map, string_bytes, All, Some, None, IfOk};
ghost use Rattle.disk_model.specs.Faults.{Rose};
ghost use Rattle.disk_model.specs.Place.{out};
ghost use Rattle.replay_core.specs.Laws.{OneVerdict, StartsAfterDependencies, BlamedInHands, RestartsFollowDeaths};
ghost use Rattle.foz_args.specs.Command.{command_for, HasSlots, IsWithinLimits};
ghost use Rattle.foz_tool.specs.Due.{NoFault, IsDue};
ghost use Rattle.foz_tool.specs.Program.{Runs, ReadRose, DiskRose, StartsFailed, creates_objects, file_of_command, reads_input, runs_workers};

use crate::check::check_cmd;
use crate::hash::hash_cmd;
use crate::host::{Host, Seen};
use crate::list::list_cmd;
use crate::put::put_cmd;
use crate::record::record_cmd;
use crate::replay::replay_cmd;
use crate::replay_laws::laws_of_replays;
use crate::worker::worker_cmd;
use capture_lines::LineError;
use disk_model::{Shelf, Sink, Source};
use driver_check::Driver;
use foz_args::{ArgError, Command, command_for};
use foz_base::{Stop, complain};
use record_words::lines_in_order_make_a_record;
use slot_log::Slot;
use std::alloc::Global;
use std::sync::Wait;
use std::thread::Threads;
use worker_node::sessions_have_one_end;

/// The command of the words, where these slots are there for workers.
fn command_in<C>(words: &[String], crew: &Vec<C>) -> Result<Command, ArgError>
    requires some_slot { 0 < length crew.now.items }
    ensures read { IfOk result (λ command. command_for (length crew.now.items) (map string_bytes words.now) ≡ Some command) }
    ensures usage { (result ≡ Err ArgError.Usage) ↔ (command_for (length crew.now.items) (map string_bytes words.now) ≡ None) }
    ensures limits { IfOk result IsWithinLimits }
    ensures slots { IfOk result (HasSlots (length crew.now.items)) }
{
    command_for(crew.len(), words)
}

/// Does what the words ask for, and answers the status.
pub fn run<I: Source, O: Sink, F: Shelf, C: Slot + Send, R: Driver, X: Wait + Threads + Sync>(
    rt: &X,
    alloc: Global,
    words: &[String],
    host: &mut Host<I, O, F, C, R>,
) -> u8
    requires nothing_out { F.tells → (name : List ℕ) → F.places host.old.files name ≢ out }
    requires some_slots { (0 < length host.old.crew.items) × (length host.old.crew.items ≤ 16) }
    requires at_rest { All (λ slot. C.running slot ≡ false) host.old.crew.items }

    // What each command promises, of an outside that tells what it holds.
    ensures runs { let seen = ⟦<Host<I, O, F, C, R> as Seen>⟧ in Runs R.creates seen.tells (command_for (length host.old.crew.items) (map string_bytes words.now)) (seen.outside host.old) (seen.outside host.new) result }

    // Where no call of the outside fails, the status is the one that is due, or memory ran out.
    ensures complete { let seen = ⟦<Host<I, O, F, C, R> as Seen>⟧ in let command = command_for (length host.old.crew.items) (map string_bytes words.now) in I.tells → O.tells → F.tells × F.Held.tells_content
        → NoFault command (seen.outside host.old) (seen.outside host.new) → (result ≡ 7) ⊎ IsDue R.creates command (seen.outside host.old) (seen.outside host.new) result }

    // What holds of the events of each replay: verdicts, starts, blame and restarts.
    ensures one_verdict { OneVerdict }
    ensures starts { StartsAfterDependencies }
    ensures blame { BlamedInHands }
    ensures restarts { RestartsFollowDeaths }

    // The rest holds of every outside. Words that are no form of a command have status 2, and only they do.
    ensures usage { (result ≡ 2) ↔ (command_for (length host.old.crew.items) (map string_bytes words.now) ≡ None) }
    ensures not_written { command_for (length host.old.crew.items) (map string_bytes words.now) ≡ None → host.new.output ≡ host.old.output }

    // A fault is told only where a call of what failed was answered by it.
    ensures read_fault { result ≡ 3 → let seen = ⟦<Host<I, O, F, C, R> as Seen>⟧.outside in ReadRose F.tells (command_for (length host.old.crew.items) (map string_bytes words.now)) (seen host.old) (seen host.new) }
    ensures write_fault { result ≡ 4 → Rose (O.faults host.old.output) (O.faults host.new.output) }
    ensures disk_fault { result ≡ 5 → let seen = ⟦<Host<I, O, F, C, R> as Seen>⟧.outside in DiskRose F.tells (command_for (length host.old.crew.items) (map string_bytes words.now)) (seen host.old) (seen host.new) }

    // Items are left unanswered only where no slot of the command could start a worker.
    ensures unanswered { result ≡ 9 → let seen = ⟦<Host<I, O, F, C, R> as Seen>⟧.outside in StartsFailed (command_for (length host.old.crew.items) (map string_bytes words.now)) (seen host.old) (seen host.new) }

    // What a command has nothing to do with stays untouched, and a file that it takes is put back.
    ensures input { reads_input (command_for (length host.old.crew.items) (map string_bytes words.now)) ≡ false → host.new.input ≡ host.old.input }
    ensures driver { creates_objects (command_for (length host.old.crew.items) (map string_bytes words.now)) ≡ false → host.new.driver ≡ host.old.driver }
    ensures unread { (result ≡ 3) ⊎ (result ≡ 6) → reads_input (command_for (length host.old.crew.items) (map string_bytes words.now)) ≡ false → host.new.driver ≡ host.old.driver }
    ensures crew { runs_workers (command_for (length host.old.crew.items) (map string_bytes words.now)) ≡ false → host.new.crew ≡ host.old.crew }
    ensures no_workers { (result ≡ 3) ⊎ (result ≡ 6) → host.new.crew ≡ host.old.crew }
    ensures stopped { All (λ slot. C.running slot ≡ false) host.new.crew.items }
    ensures files { file_of_command (command_for (length host.old.crew.items) (map string_bytes words.now)) ≡ None → host.new.files ≡ host.old.files }
    ensures other_files { F.tells → (name : List ℕ) → file_of_command (command_for (length host.old.crew.items) (map string_bytes words.now)) ≢ Some name → F.places host.new.files name ≡ F.places host.old.files name }
    ensures all_back { F.tells → (name : List ℕ) → F.places host.new.files name ≢ out }
{
    lines_in_order_make_a_record::<LineError>();
    sessions_have_one_end::<R>();
    laws_of_replays();
    match command_in(words, &host.crew) {
        Ok(Command::List { file }) => list_cmd(alloc, host, file),
        Ok(Command::Put { file, key }) => put_cmd(alloc, host, file, key),
        Ok(Command::Hash) => hash_cmd(alloc, host),
        Ok(Command::Record { file, threads }) => record_cmd(rt, alloc, host, file, threads),
        Ok(Command::Check { file }) => check_cmd(alloc, host, file),
        Ok(Command::Worker) => worker_cmd(alloc, host),
        Ok(Command::Replay { file, workers }) => replay_cmd(rt, alloc, host, file, workers),
        Err(ArgError::Usage) => {
            complain(alloc, &mut host.errors, &Stop::Usage);
            2
        }
        Err(ArgError::Memory) => {
            complain(alloc, &mut host.errors, &Stop::Memory);
            7
        }
    }
}
