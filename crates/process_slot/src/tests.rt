//! What becomes of programs that are played here, by what they send. Real ones stand in the tests of whole runs.
ghost use Rattle.std.specs.Prelude.{◌≡◌, false};

use crate::{ProcessSlot, crew_of};
use slot_log::Slot;
use std::alloc::Allocator;
use std::io;
use std::io::{ErrorKind, Write};
use std::process::{Child, Command, ExitStatus, OpenProcess, Processes, Stdio};
use std::sync::Wait;
use std::test::Fail;
use std::time::{Clock, Duration};
use worker_msg::quit_frame;

/// A program that sends these bytes.
#[derive(Clone, Copy)]
struct Played {
    starts: bool,
    sends: &'static [u8],
    takes_input: bool,
}

impl Clock for Played {
    fn monotonic(&self) -> io::Result<Duration> {
        Ok(Duration::from_millis(0))
    }

    fn since_1970(&self) -> io::Result<Duration> {
        Ok(Duration::from_millis(0))
    }
}

impl Processes for Played {
    type Started = Actor;

    fn spawn<B: Allocator + Clone>(
        &self,
        command: &Command<B>,
        _stdin: &Stdio,
        _stdout: &Stdio,
        _stderr: &Stdio,
    ) -> io::Result<Child<Actor>> {
        if !self.starts || !is_worker_of_played(command) {
            return Err(io::Error::from(ErrorKind::NotFound));
        }
        let ear = Ear {
            is_open: self.takes_input,
        };
        Ok(Child::from_parts(Actor, Some(ear), Some(self.sends), None))
    }
}

/// The words are those that a slot of the program `played` starts its workers with.
fn is_worker_of_played<B: Allocator + Clone>(command: &Command<B>) -> bool {
    let mut words = command.get_args();
    command.get_program() == "played" && words.next() == Some("worker") && words.next().is_none()
}

#[derive(Drop)]
struct Actor;

/// The input of a program. Where it is open it takes a Quit, and no other bytes.
#[derive(Drop)]
struct Ear {
    is_open: bool,
}

impl Write for Ear {
    fn write(&mut self, buf: &[u8]) -> io::Result<usize> {
        if self.is_open && buf == quit_frame().as_slice() {
            Ok(buf.len())
        } else {
            Err(io::Error::from(ErrorKind::BrokenPipe))
        }
    }

    fn flush(&mut self) -> io::Result<()> {
        Ok(())
    }
}

impl OpenProcess for Actor {
    type Stdin = Ear;

    type Stdout = &'static [u8];

    type Stderr = &'static [u8];

    fn id(&self) -> u32 {
        1
    }

    fn wait(&mut self) -> io::Result<ExitStatus> {
        Ok(ExitStatus::default())
    }
}

/// What a slot answers of one worker: to its start, to a frame, and how many bytes of an answer come.
#[derive(Clone, Copy, Debug, PartialEq, Eq)]
enum Outcome {
    NotStarted,
    NotSent,
    NotAnswered,
    Answered(usize),
}

const HELLO: &[u8] = b"\x05\0\0\0\x01\x46\x4F\x5A\x01";

const ANSWERING: &[u8] = b"\x05\0\0\0\x01\x46\x4F\x5A\x01\x11\0\0";

const OTHER_HELLO: &[u8] = b"\x05\0\0\0\x01\x46\x4F\x5A\x02";

const CASES: &[(Played, Outcome)] = &[
    (
        Played {
            starts: false,
            sends: HELLO,
            takes_input: true,
        },
        Outcome::NotStarted,
    ),
    (
        Played {
            starts: true,
            sends: b"",
            takes_input: true,
        },
        Outcome::NotStarted,
    ),
    (
        Played {
            starts: true,
            sends: b"\x05\0\0\0\x01\x46\x4F\x5A",
            takes_input: true,
        },
        Outcome::NotStarted,
    ),
    (
        Played {
            starts: true,
            sends: OTHER_HELLO,
            takes_input: true,
        },
        Outcome::NotStarted,
    ),
    (
        Played {
            starts: true,
            sends: HELLO,
            takes_input: false,
        },
        Outcome::NotSent,
    ),
    (
        Played {
            starts: true,
            sends: HELLO,
            takes_input: true,
        },
        Outcome::NotAnswered,
    ),
    (
        Played {
            starts: true,
            sends: ANSWERING,
            takes_input: true,
        },
        Outcome::Answered(3),
    ),
];

fn outcome_of<R: Wait>(rt: &R, slot: &mut ProcessSlot<Played>) -> Outcome
    requires { ⟦<ProcessSlot<Played> as Slot>⟧.running slot.old ≡ false }
{
    if slot.start(rt).is_err() {
        return Outcome::NotStarted;
    }
    if slot.send(rt, &quit_frame()).is_err() {
        return Outcome::NotSent;
    }
    let mut piece = [0; 21];
    match slot.recv(rt, &mut piece) {
        Ok(count) => {
            slot.stop(rt);
            Outcome::Answered(count)
        }
        Err(_) => Outcome::NotAnswered,
    }
}

fn can_go_to_another_thread<S: Send>(_slot: &S) -> bool {
    true
}

#[test]
fn slots_of_real_processes_can_go_to_other_threads(rt: HostRuntime) -> Result<(), Fail> {
    let crew = crew_of(rt.alloc(), &rt, "played", 16)?;
    for slot in &crew {
        assert!(rt; can_go_to_another_thread(slot));
    }
    assert_eq!(rt; crew.len(), 16);
    Ok(())
}

#[test]
fn a_worker_is_one_that_says_hello_takes_frames_and_answers(rt: HostRuntime) -> Result<(), Fail> {
    for (program, wanted) in CASES {
        let mut slot = ProcessSlot::new(rt.alloc(), program, "played")?;
        assert_eq!(rt; outcome_of(&rt, &mut slot), *wanted);
    }
    Ok(())
}
