// The slot.
ghost use Rattle.std.specs.Prelude.{◌≡◌, false, is_some, IfOk, None};
ghost use Rattle.disk_model.specs.Faults.{Rose};

use crate::program::Program;
use foz_words::NoMemory;
use slot_log::{Failed, Gone, Slot};
use std::alloc::Global;
use std::process::{Command, Processes, Stdio};
use std::sync::Wait;
use std::time::Clock;
use worker_msg::quit_frame;

/// A slot whose workers are processes of one program.
#[derive(Drop)]
pub struct ProcessSlot<P: Processes> {
    system: P,
    command: Command,
    worker: Option<Program<P::Started>>,
    // The last frame sent was a Quit.
    quits: bool,
    start_faults: u64,
    deaths: u64,
}

impl<P: Processes + Clock + Clone> ProcessSlot<P> {
    /// A slot that starts `program worker` for each worker. What it writes on its standard error goes to this program's.
    pub fn new(alloc: Global, system: &P, program: &str) -> Result<ProcessSlot<P>, NoMemory>
        ensures running { IfOk result (λ slot. ⟦<ProcessSlot<P> as Slot>⟧.running slot ≡ false) }
        ensures start_faults { IfOk result (λ slot. ⟦<ProcessSlot<P> as Slot>⟧.start_faults slot ≡ 0) }
        ensures deaths { IfOk result (λ slot. ⟦<ProcessSlot<P> as Slot>⟧.deaths slot ≡ 0) }
        ensures untold { IfOk result (λ slot. ⟦<ProcessSlot<P> as Slot>⟧.log slot ≡ None) }
    {
        let mut command = Command::new(alloc, program)?;
        command.arg("worker")?;
        command.stdin(Stdio::piped());
        command.stdout(Stdio::piped());
        Ok(ProcessSlot {
            system: system.clone()?,
            command,
            worker: None,
            quits: false,
            start_faults: 0,
            deaths: 0,
        })
    }

    /// A worker that has said hello.
    fn started(&mut self) -> Option<Program<P::Started>>
        ensures counts { (self.new.start_faults ≡ self.old.start_faults) × (self.new.deaths ≡ self.old.deaths) }
    {
        let child = self.command.spawn(&self.system).ok()?;
        let mut worker = Program::of(child)?;
        if worker.says_hello() {
            return Some(worker);
        }
        worker.kill();
        None
    }

    /// The worker is dead, or of no use: what is left of it goes.
    fn lose(&mut self) -> Gone
        ensures gone { self.new.worker ≡ None }
        ensures counted { Rose self.old.deaths self.new.deaths }
        ensures faults { self.new.start_faults ≡ self.old.start_faults }
    {
        if let Some(worker) = self.worker.take() {
            worker.kill();
        }
        self.deaths = self.deaths.saturating_add(1);
        Gone
    }
}

impl<P: Processes + Clock + Clone> Slot for ProcessSlot<P> {
    ghost running = { λ slot. is_some slot.worker };

    ghost start_faults = { λ slot. slot.start_faults };

    ghost deaths = { λ slot. slot.deaths };

    ghost log = { λ _. None };

    fn start<R: Wait>(&mut self, _rt: &R) -> Result<(), Failed> {
        self.quits = false;
        self.worker = self.started();
        if self.worker.is_some() {
            return Ok(());
        }
        self.start_faults = self.start_faults.saturating_add(1);
        Err(Failed)
    }

    fn send<R: Wait>(&mut self, _rt: &R, frame: &[u8]) -> Result<(), Gone> {
        self.quits = frame == quit_frame().as_slice();
        match &mut self.worker {
            Some(worker) => if worker.write(frame) {
                Ok(())
            } else {
                Err(self.lose())
            },
            None => unreachable!(),
        }
    }

    fn recv<R: Wait>(&mut self, _rt: &R, piece: &mut [u8]) -> Result<usize, Gone> {
        let Some(worker) = &mut self.worker else {
            unreachable!()
        };
        match worker.read(piece) {
            Some(count) => Ok(count),
            None => Err(self.lose()),
        }
    }

    fn stop<R: Wait>(&mut self, _rt: &R) {
        let Some(worker) = self.worker.take() else {
            unreachable!()
        };
        if self.quits {
            worker.let_quit(&self.system);
        } else {
            worker.kill();
        }
    }
}
