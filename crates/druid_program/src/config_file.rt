//! The file of a config.
use druid_serve_base::{ServeFault, Stop};
use std::alloc::Global;
use std::io::Read;
use std::rt::Files;
use std::{fs, io};

/// The most bytes of a config.
const MAX_CONFIG: usize = 16_777_216;

// The bytes of the file at a path, and no more than one more than a config may have.
fn front_of<R: Files>(rt: &R, alloc: Global, path: &str) -> io::Result<Vec<u8>> {
    let mut bytes = Vec::new(alloc);
    let mut part = fs::open(rt, path)?.take(MAX_CONFIG as u64 + 1);
    part.read_to_end(&mut bytes)?;
    Ok(bytes)
}

/// The bytes of the config at a path: `Device` where they can't be read, and `BadConfig` where there are more than 16 MiB.
pub(crate) fn config_bytes<R: Files>(
    rt: &R,
    alloc: Global,
    path: &str,
) -> Result<Vec<u8>, Stop<ServeFault>> {
    let Ok(bytes) = front_of(rt, alloc, path) else {
        return Err(Stop {
            fault: ServeFault::Device,
            reason: format!(in alloc; "{path}: not read").ok(),
        });
    };
    if MAX_CONFIG < bytes.len() {
        let text = "the config: more than 16777216 bytes";
        return Err(Stop::new(alloc, ServeFault::BadConfig, text));
    }
    Ok(bytes)
}
