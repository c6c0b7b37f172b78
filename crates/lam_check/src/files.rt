//! Reading of files.
use crate::args::INPUT;
use std::alloc::{AllocError, Global};
use std::fs;
use std::io::{self, ErrorKind, Read};
use std::rt::Files;
use thiserror::Error;

/// The maximum size of a text in bytes: 64 MiB.
pub const TEXT_LIMIT: u64 = 1 << 26;

/// For a file that may have any size.
pub const NO_LIMIT: u64 = u64::MAX;

/// Why a file could not be read as text.
#[derive(Debug, Drop, Error)]
pub enum ReadFault {
    #[error("{0}")]
    Device(io::Error),
    #[error("it has more than 64 MiB")]
    TooLarge,
    #[error("it is not UTF-8 from byte {0} on")]
    NotUtf8(usize),
    #[error("out of memory")]
    Memory,
}

/// Reads a file of at most this many bytes, or standard input if the name is `-`.
pub fn text_of<R: Files + Input>(
    rt: &R,
    alloc: Global,
    name: &str,
    limit: u64,
) -> Result<String, ReadFault> {
    let bytes = if name == INPUT {
        bytes_of(alloc, rt.reader(), limit)?
    } else {
        bytes_of(alloc, fs::open(rt, name).map_err(device_fault)?, limit)?
    };
    if bytes.len() as u64 > limit {
        return Err(ReadFault::TooLarge);
    }
    String::from_utf8(bytes).map_err(|error| ReadFault::NotUtf8(error.utf8_error().valid_up_to()))
}

/// Reads all bytes, but at most one more than the limit.
fn bytes_of<R: Read + Drop>(alloc: Global, reader: R, limit: u64) -> Result<Vec<u8>, ReadFault> {
    let mut bytes = Vec::new(alloc);
    reader
        .take(limit.saturating_add(1))
        .read_to_end(&mut bytes)
        .map_err(device_fault)?;
    Ok(bytes)
}

fn device_fault(error: io::Error) -> ReadFault {
    if error.kind() == ErrorKind::OutOfMemory {
        return ReadFault::Memory;
    }
    ReadFault::Device(error)
}
