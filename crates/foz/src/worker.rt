//! The program that the workers of a replay are started from.
use foz_words::NoMemory;
use std::alloc::Global;
use std::env;
use std::env::{Env, VarError};
use std::fs::Files;

/// The variable of the environment that names a program.
const VARIABLE: &str = "FOZ_WORKER";

/// This program, where the system doesn't say where it lies.
const OWN_FILE: &str = "/proc/self/exe";

/// The program that the environment names, if it names one, and else this one.
pub fn program<R: Env + Files + Alloc<A = Global>>(rt: &R) -> Result<String, NoMemory> {
    match env::var(rt, VARIABLE) {
        Ok(named) if !named.is_empty() => Ok(named),
        Err(VarError::OutOfMemory) => Err(NoMemory),
        _ => own_file(rt),
    }
}

fn own_file<R: Files + Alloc<A = Global>>(rt: &R) -> Result<String, NoMemory> {
    match env::current_exe(rt) {
        Ok(path) => Ok(path.into_string()),
        Err(_) => Ok(String::from_str(rt.alloc(), OWN_FILE)?),
    }
}
