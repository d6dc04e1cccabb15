//! What a crash leaves of files, in tables. A disk is made by one function, and goes into the one that judges it.
ghost use Rattle.std.specs.Prelude.{◌≡◌, ◌≤◌, false, length, IfOk};
ghost use Rattle.disk_model.specs.Disk.{NothingPending, latest};

use crate::{DiskFault, Gate};
use disk_model::{Call, Disk, MemDisk};
use std::alloc::Global;
use std::test::Fail;

fn disk(alloc: Global, bytes: &[u8], failing: &[u64]) -> Result<MemDisk, Fail>
    ensures content { IfOk result (λ disk. ⟦<MemDisk as Disk>⟧.content disk ≡ bytes.now) }
    ensures settled { IfOk result (λ disk. NothingPending (latest (⟦<MemDisk as Disk>⟧.history disk))) }
{
    let bytes = bytes.to_vec(alloc)?;
    let failing = failing.to_vec(alloc)?;
    Ok(MemDisk::new(alloc, bytes, 100, 100, failing)?)
}

/// A file that is closed at its third byte.
fn closed(alloc: Global, bytes: &[u8], failing: &[u64]) -> Result<Gate<MemDisk>, Fail>
    requires { 2 ≤ length bytes.now }
    ensures { IfOk result (λ gate. (gate.broken ≡ false) × (gate.end ≡ 2)) }
{
    let disk = disk(alloc, bytes, failing)?;
    match Gate::open_at(disk, 2) {
        Ok(gate) => Ok(gate),
        Err(_) => Err(Fail::new("the file was refused")),
    }
}

/// Adds a batch of four bytes.
fn append(gate: &mut Gate<MemDisk>) -> Result<(), DiskFault>
    requires whole { gate.old.broken ≡ false }
    requires place { gate.old.end ≡ 2 }
{
    gate.append(&[48, 7, 8, 0])
}

/// The bytes that a crash leaves, where it keeps so many of them and fills what was not written with this one.
fn leaves(disk: MemDisk, fill: u8, keep: u64, wanted: &[u8]) -> bool {
    let after = disk.crash(fill, keep);
    after.content() == wanted
}

const CALLS: &[Call] = &[
    Call::Quiet,
    Call::Cut { len: 2 },
    Call::Sync,
    Call::Write { at: 2, len: 1 },
    Call::Sync,
    Call::Write { at: 3, len: 3 },
    Call::Sync,
    Call::Write { at: 2, len: 1 },
    Call::Sync,
];

/// The calls that were made on the disk, and all bytes that were written.
fn has_calls(disk: &MemDisk, wanted: &[Call], written: &[u8]) -> bool {
    let (calls, pieces) = disk.record();
    calls == wanted && pieces == written
}

fn cut_and_added_to(alloc: Global) -> Result<MemDisk, Fail> {
    let mut gate = closed(alloc, &[1, 2, 48, 48, 48], &[])?;
    if append(&mut gate) == Ok(()) && gate.end() == 5 {
        Ok(gate.into_disk())
    } else {
        Err(Fail::new("the batch was refused"))
    }
}

fn is_cut_and_added_to(alloc: Global) -> Result<bool, Fail> {
    let disk = cut_and_added_to(alloc)?;
    let called = has_calls(&disk, CALLS, &[0, 7, 8, 0, 48]);
    Ok(leaves(disk, 97, 0, &[1, 2, 48, 7, 8, 0]) && called)
}

#[test]
fn what_is_after_the_place_is_cut(rt: HostRuntime) -> Result<(), Fail> {
    assert!(rt; is_cut_and_added_to(rt.alloc())?);
    Ok(())
}

fn is_only_read(alloc: Global) -> Result<bool, Fail> {
    let gate = closed(alloc, &[1, 2, 0], &[])?;
    let disk = gate.into_disk();
    Ok(has_calls(&disk, &[Call::Quiet, Call::Quiet], &[]))
}

#[test]
fn a_closed_file_is_only_read(rt: HostRuntime) -> Result<(), Fail> {
    assert!(rt; is_only_read(rt.alloc())?);
    Ok(())
}

fn keeps_its_prefix(disk: MemDisk) -> bool {
    let after = disk.crash(97, 0);
    after.content().starts_with(&[1, 2])
}

/// Where this call of an opening fails, the file is handed back, with the first two bytes as they were.
fn comes_back(alloc: Global, call: u64) -> Result<bool, Fail> {
    let disk = disk(alloc, &[1, 2, 48, 48, 48], &[call])?;
    match Gate::open_at(disk, 2) {
        Ok(_) => Ok(false),
        Err(refused) => Ok(keeps_its_prefix(refused.disk)),
    }
}

#[test]
fn a_refused_file_comes_back(rt: HostRuntime) -> Result<(), Fail> {
    for call in 0..5 {
        assert!(rt; comes_back(rt.alloc(), call)?, "at {call}");
    }
    Ok(())
}

/// Calls of an append that fail, and what is left if the machine crashes then.
const FAILED_CALLS: &[(u64, &[u8])] = &[
    (2, &[1, 2, 0]),
    (3, &[1, 2, 0, 97, 97, 97]),
    (4, &[1, 2, 0, 7, 8, 0]),
    (5, &[1, 2, 97, 7, 8, 0]),
];

fn is_broken(alloc: Global, call: u64, left: &[u8]) -> Result<bool, Fail> {
    let mut gate = closed(alloc, &[1, 2, 0], &[call])?;
    let failed = append(&mut gate) == Err(DiskFault) && gate.is_broken() && gate.end() == 2;
    Ok(leaves(gate.into_disk(), 97, 100, left) && failed)
}

#[test]
fn a_failed_append_breaks_the_gate(rt: HostRuntime) -> Result<(), Fail> {
    for (call, left) in FAILED_CALLS {
        let call = *call;
        assert!(rt; is_broken(rt.alloc(), call, *left)?, "at {call}");
    }
    Ok(())
}

// Why the body is synced before the gate opens: else the gate may be open before another body.
fn body_is_lost(alloc: Global) -> Result<bool, Fail> {
    let mut disk = disk(alloc, &[1, 2, 0], &[])?;
    let written = disk.write_at(3, &[7, 8, 0]) == Ok(()) && disk.write_at(2, &[48]) == Ok(());
    Ok(leaves(disk, 48, 6, &[1, 2, 48, 48, 48, 48]) && written)
}

#[test]
fn an_unsynced_body_may_be_lost_after_an_open_gate(rt: HostRuntime) -> Result<(), Fail> {
    assert!(rt; body_is_lost(rt.alloc())?);
    Ok(())
}

// Why the cut is synced before the gate closes: else what was cut off may come back after an open gate.
fn tail_is_back(alloc: Global) -> Result<bool, Fail> {
    let mut disk = disk(alloc, &[1, 2, 0, 7, 8, 0], &[])?;
    let cut = disk.cut(2) == Ok(()) && disk.write_at(2, &[0]) == Ok(());
    Ok(leaves(disk, 48, 6, &[1, 2, 48, 7, 8, 0]) && cut)
}

#[test]
fn an_unsynced_cut_may_bring_the_tail_back(rt: HostRuntime) -> Result<(), Fail> {
    assert!(rt; tail_is_back(rt.alloc())?);
    Ok(())
}
