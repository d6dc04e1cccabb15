//! Sessions with the shipped driver, byte by byte.
mod codes;
mod frames;
mod sessions;
