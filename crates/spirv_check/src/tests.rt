//! Modules with their first fault, as tables. A shape is judged by a function that borrows it.
use super::*;
use foz_words::NoMemory;
use std::alloc::Global;

/// The header, with nothing after it.
const HEADER: [u32; 5] = [0x0723_0203, 0x0001_0000, 0, 5, 0];

/// The smallest compute module, with one entry point `main`.
const COMPUTE: [u32; 35] = [
    0x0723_0203,
    0x0001_0000,
    0,
    5,
    0,
    0x0002_0011,
    1,
    0x0003_000E,
    0,
    1,
    0x0005_000F,
    5,
    1,
    0x6E69_616D,
    0,
    0x0006_0010,
    1,
    0x11,
    1,
    1,
    1,
    0x0002_0013,
    2,
    0x0003_0021,
    3,
    2,
    0x0005_0036,
    2,
    1,
    0,
    3,
    0x0002_00F8,
    4,
    0x0001_00FD,
    0x0001_0038,
];

fn module(alloc: Global, instructions: &[u32]) -> Result<Vec<u32>, NoMemory> {
    let mut words = Vec::from_slice(alloc, &HEADER)?;
    words.extend_from_slice(instructions)?;
    Ok(words)
}

/// The shape is that of one entry point `main` of the model 5.
fn is_one_compute(shape: &Shape) -> bool {
    match shape.entries.as_slice() {
        [entry] => entry.model == 5 && entry.name.as_slice() == b"main".as_slice(),
        _ => false,
    }
}

fn has_one_compute(alloc: Global, words: &[u32]) -> bool {
    match check(alloc, words) {
        Ok(shape) => is_one_compute(&shape),
        Err(_) => false,
    }
}

#[test]
fn the_smallest_compute_module_has_one_entry_point(rt: HostRuntime) {
    assert!(rt; has_one_compute(rt.alloc(), &COMPUTE));
}

fn has_fault(alloc: Global, words: &[u32], fault: SpirvError) -> bool {
    match check(alloc, words) {
        Ok(_) => false,
        Err(found) => found == fault,
    }
}

/// Words with their first fault.
const HEADERS: &[(&[u32], SpirvError)] = &[
    (&[], SpirvError::Short { len: 0 }),
    (&[0x0723_0203, 0, 0, 0], SpirvError::Short { len: 4 }),
    (
        &[0x0302_2307, 0, 0, 0, 1],
        SpirvError::BadMagic { found: 0x0302_2307 },
    ),
    (
        &[0x0723_0203, 0, 0, 0, 1],
        SpirvError::BadReserved { found: 1 },
    ),
    (
        &[0x0723_0203, 0, 0, 0, 0],
        SpirvError::MemoryModels { count: 0 },
    ),
];

#[test]
fn the_first_fault_of_a_header(rt: HostRuntime) {
    for (words, fault) in HEADERS {
        assert!(rt; has_fault(rt.alloc(), *words, *fault));
    }
}

/// Instructions with the first fault of the module that has them after its header.
const INSTRUCTIONS: &[(&[u32], SpirvError)] = &[
    // Framing comes before all else.
    (
        &[0x0001_0036, 0x0001_0036, 0x0000_0038],
        SpirvError::BadLength { at: 7 },
    ),
    (&[0x0001_0038, 0x0002_000E], SpirvError::BadLength { at: 6 }),
    // Then the memory model.
    (&[0x0001_0038], SpirvError::MemoryModels { count: 0 }),
    (
        &[0x0001_000E, 0x0001_000E, 0x0001_0038],
        SpirvError::MemoryModels { count: 2 },
    ),
    // Then the turns of functions, the first by place.
    (
        &[
            0x0001_000E,
            0x0001_0036,
            0x0001_0036,
            0x0001_0038,
            0x0001_0038,
        ],
        SpirvError::Nested { at: 7 },
    ),
    (
        &[0x0001_000E, 0x0001_0038, 0x0001_0036, 0x0001_0036],
        SpirvError::Unopened { at: 6 },
    ),
    (
        &[0x0001_000E, 0x0001_0036, 0x0001_0038, 0x0001_0038],
        SpirvError::Unopened { at: 8 },
    ),
    (
        &[0x0001_000E, 0x0001_0036, 0x0001_0038, 0x0001_0036],
        SpirvError::Unclosed { at: 8 },
    ),
    (
        &[0x0001_000E, 0x0001_0036, 0x0001_000F],
        SpirvError::Unclosed { at: 6 },
    ),
    // Then the names of entry points.
    (
        &[0x0001_000E, 0x0003_000F, 5, 1],
        SpirvError::BadName { at: 6 },
    ),
    (
        &[0x0001_000E, 0x0004_000F, 5, 1, 0x6E69_616D],
        SpirvError::BadName { at: 6 },
    ),
    (
        &[0x0001_000E, 0x0004_000F, 5, 1, 0, 0x0001_000F],
        SpirvError::BadName { at: 10 },
    ),
    (
        &[0x0001_000E, 0x0001_000F, 0x0001_0036],
        SpirvError::Unclosed { at: 7 },
    ),
    // Then that there is one.
    (
        &[0x0001_000E, 0x0001_0036, 0x0001_0038],
        SpirvError::NoEntryPoint,
    ),
];

fn module_has_fault(alloc: Global, instructions: &[u32], fault: SpirvError) -> bool {
    match module(alloc, instructions) {
        Ok(words) => has_fault(alloc, &words, fault),
        Err(_) => false,
    }
}

#[test]
fn the_first_fault_of_instructions(rt: HostRuntime) {
    for (instructions, fault) in INSTRUCTIONS {
        assert!(rt; module_has_fault(rt.alloc(), *instructions, *fault));
    }
}

/// A module of more than four megabytes with one entry point.
fn large_module(alloc: Global) -> Result<Vec<u32>, NoMemory> {
    let mut words = module(
        alloc,
        &[0x0003_000E, 0, 1, 0x0005_000F, 5, 1, 0x6E69_616D, 0],
    )?;
    for _ in 0..350_000u32 {
        words.extend_from_slice(&[0x0002_0000, 7, 0x0001_0000])?;
    }
    Ok(words)
}

fn large_module_holds(alloc: Global) -> bool {
    match large_module(alloc) {
        Ok(words) => words.len() == 1_050_013 && has_one_compute(alloc, &words),
        Err(_) => false,
    }
}

#[test]
fn a_module_of_four_megabytes_is_checked(rt: HostRuntime) {
    assert!(rt; large_module_holds(rt.alloc()));
}
