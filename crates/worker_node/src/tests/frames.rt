//! Frames, written here by their layout, and a worker that is given them.
use crate::{Served, serve};
use disk_model::{MemSink, MemSource};
use driver_check::CheckDriver;
use foz_words::{Key, NoMemory, hex16, put_le32, put_le64};
use std::alloc::Global;

pub const LOAD: u8 = 2;

pub const DO: u8 = 3;

pub const HELLO: &[u8] = b"\x05\0\0\0\x01FOZ\x01";

/// A layout without anything, which others refer to.
pub const LAYOUT: Key = Key { tag: 3, hash: 3 };

pub const QUIT: &[u8] = b"\x01\0\0\0\x05";

// No payload of these tests is longer.
const MOST: usize = 10_000;

/// Adds a Load or a Do.
fn put_work(out: &mut Vec<u8>, kind: u8, key: Key, payload: &[u8]) -> Result<(), NoMemory> {
    let size = payload.len().min(MOST) as u32;
    put_le32(out, 13 + size)?;
    out.push(kind)?;
    put_le32(out, key.tag)?;
    put_le64(out, key.hash)?;
    out.extend_from_slice(payload)?;
    Ok(())
}

/// Adds a Reply.
pub fn put_reply(out: &mut Vec<u8>, key: Key, code: u32) -> Result<(), NoMemory> {
    out.extend_from_slice(b"\x11\0\0\0\x04")?;
    put_le32(out, code)?;
    put_le32(out, key.tag)?;
    put_le64(out, key.hash)?;
    Ok(())
}

/// The member of the JSON in which the states of a kind stand.
fn member_of(tag: u32) -> &'static str {
    match tag {
        1 => "samplers",
        2 => "setLayouts",
        3 => "pipelineLayouts",
        4 => "shaderModules",
        5 => "renderPasses",
        6 => "graphicsPipelines",
        _ => "computePipelines",
    }
}

/// Adds the JSON that has this object under its key.
fn put_json(out: &mut Vec<u8>, key: Key, object: &str) -> Result<(), NoMemory> {
    out.extend_from_slice(b"{\"")?;
    out.extend_from_slice(member_of(key.tag).as_bytes())?;
    out.extend_from_slice(b"\":{\"")?;
    out.extend_from_slice(&hex16(key.hash))?;
    out.extend_from_slice(b"\":")?;
    out.extend_from_slice(object.as_bytes())?;
    out.extend_from_slice(b"},\"version\":6}")?;
    Ok(())
}

/// Adds a Load or a Do of a state that isn't a shader module.
pub fn put_state(
    alloc: Global,
    out: &mut Vec<u8>,
    kind: u8,
    key: Key,
    object: &str,
) -> Result<(), NoMemory> {
    let mut payload = Vec::new(alloc);
    put_json(&mut payload, key, object)?;
    put_work(out, kind, key, &payload)
}

/// Adds a Load or a Do of a shader module of so many words, given as varints.
pub fn put_module(
    alloc: Global,
    out: &mut Vec<u8>,
    kind: u8,
    hash: u64,
    words: u32,
    varints: &[u8],
) -> Result<(), NoMemory> {
    let key = Key { tag: 4, hash };
    let size = words.min(1000) * 4;
    let window = varints.len();
    let object = format!(in alloc; "{{\"codeSize\":{size},\"varintSize\":{window}}}")?;
    let mut payload = Vec::new(alloc);
    put_json(&mut payload, key, &object)?;
    payload.push(0)?;
    payload.extend_from_slice(varints)?;
    put_work(out, kind, key, &payload)
}

/// What a crew sends.
#[derive(Clone, Copy)]
pub enum Sent {
    /// A Load or a Do of a state that isn't a module, by its object.
    State(u8, Key, &'static str),
    /// A Load or a Do of a module under this hash, by the number of its words and these as varints.
    Module(u8, u64, u32, &'static [u8]),
    /// A Load or a Do with this payload.
    Payload(u8, Key, &'static [u8]),
    /// These bytes.
    Bytes(&'static [u8]),
}

fn put_sent(alloc: Global, out: &mut Vec<u8>, sent: Sent) -> Result<(), NoMemory> {
    match sent {
        Sent::State(kind, key, object) => put_state(alloc, out, kind, key, object),
        Sent::Module(kind, hash, words, varints) => {
            put_module(alloc, out, kind, hash, words, varints)
        }
        Sent::Payload(kind, key, payload) => put_work(out, kind, key, payload),
        Sent::Bytes(bytes) => Ok(out.extend_from_slice(bytes)?),
    }
}

/// What a crew sends, as bytes.
pub fn bytes_of(alloc: Global, sent: &[Sent]) -> Result<Vec<u8>, NoMemory> {
    let mut bytes = Vec::new(alloc);
    for part in sent {
        put_sent(alloc, &mut bytes, *part)?;
    }
    Ok(bytes)
}

/// A Hello, and a Reply with each of these codes.
pub fn replies(alloc: Global, table: &[(Key, u32)]) -> Result<Vec<u8>, NoMemory> {
    let mut written = Vec::from_slice(alloc, HELLO)?;
    for (key, code) in table {
        put_reply(&mut written, *key, *code)?;
    }
    Ok(written)
}

/// How a source and a sink behave: how many bytes are given in a call, and the calls that fail.
#[derive(Clone, Copy)]
pub struct Calls<'a> {
    pub step: usize,
    pub reads: &'a [u64],
    pub writes: &'a [u64],
}

/// Calls that give so many bytes, and don't fail.
pub fn pieces(step: usize) -> Calls<'static> {
    Calls {
        step,
        reads: &[],
        writes: &[],
    }
}

fn source_of(alloc: Global, input: &[u8], calls: Calls) -> Result<MemSource, NoMemory> {
    let mut bytes = Vec::from_slice(alloc, input)?;
    bytes.truncate(1_000_000);
    let reads = Vec::from_slice(alloc, calls.reads)?;
    Ok(MemSource::new(bytes, calls.step.max(1), reads))
}

fn sink_of(alloc: Global, calls: Calls) -> Result<MemSink, NoMemory> {
    let writes = Vec::from_slice(alloc, calls.writes)?;
    Ok(MemSink::new(alloc, 10_000, 7, writes)?)
}

/// The shipped driver's session.
fn session(alloc: Global, source: &mut MemSource, sink: &mut MemSink) -> Served {
    let mut driver = CheckDriver::new(alloc);
    serve(alloc, source, sink, &mut driver)
}

fn session_comes_to(
    alloc: Global,
    mut source: MemSource,
    calls: Calls,
    end: Served,
    written: &[u8],
) -> bool {
    match sink_of(alloc, calls) {
        Ok(mut sink) => {
            session(alloc, &mut source, &mut sink) == end && sink.written() == written
        }
        Err(_) => false,
    }
}

/// Whether the shipped driver's session over these bytes ends so, and writes this.
pub fn comes_to(alloc: Global, input: &[u8], calls: Calls, end: Served, written: &[u8]) -> bool {
    match source_of(alloc, input, calls) {
        Ok(source) => session_comes_to(alloc, source, calls, end, written),
        Err(_) => false,
    }
}
