// A worker that runs.
ghost use Rattle.std.specs.Prelude.{◌≤◌, ◌<◌, length, IfSome};

use std::io::{Read, Write};
use std::process::{Child, OpenProcess};
use std::thread;
use std::time::{Clock, Duration};
use worker_msg::hello_frame;

/// A worker that was told to quit is given ten seconds: so many looks, and so long a pause between two.
const LOOKS: u32 = 5_000;

const PAUSE_MILLISECONDS: u64 = 2;

/// A program that was started, and this end of its pipes.
#[derive(Drop)]
pub struct Program<S: OpenProcess + Drop> {
    child: Child<S>,
    input: S::Stdin,
    output: S::Stdout,
}

impl<S: OpenProcess + Drop> Program<S> {
    /// The program with both pipes. One that lacks a pipe is no worker, and is ended.
    pub fn of(mut child: Child<S>) -> Option<Program<S>> {
        match (child.stdin.take(), child.stdout.take()) {
            (Some(input), Some(output)) => Some(Program {
                child,
                input,
                output,
            }),
            _ => {
                end(&mut child);
                None
            }
        }
    }

    /// The first frame that it sends is a Hello.
    pub fn says_hello(&mut self) -> bool {
        let mut frame = [0; 9];
        self.output.read_exact(&mut frame).is_ok() && frame == hello_frame()
    }

    /// Writes a frame whole, if the program takes it.
    pub fn write(&mut self, frame: &[u8]) -> bool {
        self.input.write_all(frame).is_ok()
    }

    /// Waits for bytes, and says how many came. None is the end of them.
    pub fn read(&mut self, piece: &mut [u8]) -> Option<usize>
        requires { 0 < length piece.old }
        ensures { IfSome result (λ n. (0 < n) × (n ≤ length piece.old)) }
    {
        match self.output.read(piece) {
            Ok(0) | Err(_) => None,
            Ok(count) => Some(count),
        }
    }

    /// Ends the program at once.
    pub fn kill(self) {
        let Program {
            mut child,
            input,
            output,
        } = self;
        drop(input);
        drop(output);
        end(&mut child);
    }

    /// Lets a program that was told to quit do so, and ends it where it doesn't. A driver may have a cache to write.
    pub fn let_quit<C: Clock>(self, clock: &C) {
        let Program {
            mut child,
            input,
            output,
        } = self;
        drop(input);
        for _ in 0..LOOKS {
            match child.try_wait() {
                Ok(None) => thread::sleep(clock, Duration::from_millis(PAUSE_MILLISECONDS)),
                Ok(Some(_)) => return,
                Err(_) => break,
            }
        }
        drop(output);
        end(&mut child);
    }
}

/// Kills a program and waits for it, so that the system keeps nothing of it. Neither fails for a child that runs.
fn end<S: OpenProcess>(child: &mut Child<S>) {
    if child.kill().is_ok() {
        let _ = child.wait();
    }
}
