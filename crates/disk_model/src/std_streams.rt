// The standard streams. They tell nothing but their faults.
ghost use Rattle.std.specs.Prelude.{◌≡◌, ◌≤◌, ◌^◌, []};
ghost use Rattle.disk_model.specs.Faults.{Rose};

use crate::{Failed, Sink, Source};
use std::io::{Read, Write};
use std::rt::{Stderr, Stdin, Stdout};

// More bytes than anybody reads.
const MOST: u64 = 1 << 62;

/// The standard input. It gives at most 2^62 bytes, and fails from then on.
#[derive(Drop)]
pub struct StdSource {
    stdin: Stdin,
    left: u64,
    faults: u64,

    ghost small: { left ≤ 2 ^ 62 },
}

impl StdSource {
    pub fn new(stdin: Stdin) -> StdSource
        ensures bound { ⟦<StdSource as Source>⟧.bound result ≡ 2 ^ 62 }
        ensures faults { ⟦<StdSource as Source>⟧.faults result ≡ 0 }
    {
        StdSource {
            stdin,
            left: MOST,
            faults: 0,
        }
    }

    // Counts a failure.
    fn fail(&mut self) -> Failed
        ensures left { self.new.left ≡ self.old.left }
        ensures later { self.old.faults ≤ self.new.faults }
        ensures rose { Rose self.old.faults self.new.faults }
    {
        self.faults = self.faults.saturating_add(1);
        Failed
    }
}

impl Source for StdSource {
    ghost tells = { ⊥ };

    ghost left = { λ _. [] };

    ghost bound = { λ source. source.left };

    ghost faults = { λ source. source.faults };

    fn read(&mut self, buf: &mut [u8]) -> Result<usize, Failed> {
        // Once it has given all that it may, it fails without a call of the stream.
        if self.left == 0 {
            return Err(self.fail());
        }
        let most = buf.len().min(self.left as usize);
        match self.stdin.read(&mut buf[..most]) {
            Ok(given) => {
                self.left -= given as u64;
                Ok(given)
            }
            Err(_) => Err(self.fail()),
        }
    }

    ghost small = { λ source. source.small };
}

#[derive(Drop)]
enum Stream {
    Output(Stdout),
    Errors(Stderr),
}

/// The standard output, or the standard error output.
#[derive(Drop)]
pub struct StdSink {
    stream: Stream,
    faults: u64,
}

impl StdSink {
    pub fn output(stdout: Stdout) -> StdSink
        ensures faults { ⟦<StdSink as Sink>⟧.faults result ≡ 0 }
    {
        StdSink {
            stream: Stream::Output(stdout),
            faults: 0,
        }
    }

    pub fn errors(stderr: Stderr) -> StdSink
        ensures faults { ⟦<StdSink as Sink>⟧.faults result ≡ 0 }
    {
        StdSink {
            stream: Stream::Errors(stderr),
            faults: 0,
        }
    }
}

impl Sink for StdSink {
    ghost tells = { ⊥ };

    ghost written = { λ _. [] };

    ghost faults = { λ sink. sink.faults };

    fn write(&mut self, piece: &[u8]) -> Result<usize, Failed> {
        let written = match &mut self.stream {
            Stream::Output(stdout) => stdout.write(piece),
            Stream::Errors(stderr) => stderr.write(piece),
        };
        match written {
            Ok(taken) if taken > 0 || piece.is_empty() => Ok(taken),
            _ => {
                self.faults = self.faults.saturating_add(1);
                Err(Failed)
            }
        }
    }
}
