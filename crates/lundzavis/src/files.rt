// Files of unknown size and origin, read up to a limit.
use crate::sample::WORKED;
use std::fs::OpenFile;
use std::io::Read;
use std::{fs, io};

// What was read of a file, and how long the file is.
#[derive(Drop)]
pub struct Loaded {
    bytes: Vec<u8>,
    length: u64,
}

impl Loaded {
    pub fn built_in(rt: &HostRuntime) -> io::Result<Loaded> {
        let bytes = WORKED.to_vec(rt.alloc())?;
        let length = bytes.len() as u64;
        Ok(Loaded { bytes, length })
    }

    pub fn bytes(&self) -> &[u8] {
        self.bytes.as_slice()
    }

    // How long the file is, also where only its beginning was read.
    pub fn length(&self) -> usize {
        usize::try_from(self.length).unwrap_or(self.bytes.len())
    }
}

// Reads a file, and one byte at most past the limit of a longer one.
pub fn load(rt: &HostRuntime, path: &str, limit: usize) -> io::Result<Loaded> {
    let file = fs::open(rt, path)?;
    let known = file.metadata()?;
    if known.is_dir() {
        return Err(io::Error::from(io::ErrorKind::IsADirectory));
    }
    let mut bytes = Vec::new(rt.alloc());
    let read = file
        .take((limit as u64).saturating_add(1))
        .read_to_end(&mut bytes)? as u64;
    let length = if known.is_file() {
        known.len().max(read)
    } else {
        read
    };
    Ok(Loaded { bytes, length })
}

// Says why a file cannot be read.
pub fn unreadable(rt: &HostRuntime, path: &str, e: &io::Error) -> io::Result<()> {
    println!(rt; "error: cannot read {path}: {e}")
}

// Says that there is no memory for the value of a rule file.
pub fn no_memory(rt: &HostRuntime) -> io::Result<()> {
    println!(rt; "error: not enough memory to open the rule file")?;
    Err(io::Error::from(io::ErrorKind::OutOfMemory))
}
