//! The file.
ghost use Rattle.std.specs.Prelude.{◌≡◌, [], false, true, refl, is_ok};
ghost use Rattle.sqlite_disk.specs.Disk.{CountsFault};
ghost use Rattle.sqlite_disk.specs.Refusal.{finds_no_room};

use crate::bytes::{overwrite, resize};
use sqlite_disk::{Disk, Files, Tally};
use std::alloc::{AllocError, Global};
use std::io;

/// A file whose bytes are in memory.
#[derive(Drop)]
pub struct MemoryFile {
    bytes: Vec<u8>,
    /// How many calls found no memory.
    faults: u64,
}

impl MemoryFile {
    ghost use Rattle.memory_file.specs.Files.{bytes_of};

    /// An empty file.
    pub fn new(alloc: Global) -> MemoryFile
        ensures { bytes_of result ≡ [] }
    {
        MemoryFile {
            bytes: Vec::new(alloc),
            faults: 0,
        }
    }

    /// An empty database file and its empty log.
    pub fn pair(alloc: Global) -> Files<MemoryFile>
        ensures log { bytes_of result.log ≡ [] }
        ensures db { bytes_of result.db ≡ [] }
    {
        Files {
            log: MemoryFile::new(alloc),
            db: MemoryFile::new(alloc),
        }
    }

    /// Its bytes.
    pub fn into_bytes(self) -> Vec<u8>
        ensures { result.items ≡ bytes_of self }
    {
        self.bytes
    }
}

impl From<Vec<u8>> for MemoryFile {
    ghost use Rattle.std.specs.Prelude.{◌≡◌};
    ghost use Rattle.memory_file.specs.Files.{bytes_of};

    ghost from_gives = { λ bytes file. bytes_of file ≡ bytes.items };

    /// A file that holds these bytes.
    fn from(bytes: Vec<u8>) -> MemoryFile {
        MemoryFile { bytes, faults: 0 }
    }
}

fn counted(outcome: Result<(), AllocError>, faults: &mut u64) -> io::Result<()>
    ensures variant { is_ok result ≡ is_ok outcome }
    ensures kind { finds_no_room result ≡ false }
    ensures faults { CountsFault result faults.old faults.new }
{
    if outcome.is_err() {
        *faults = faults.saturating_add(1);
        return Err(io::ErrorKind::OutOfMemory.into());
    }
    Ok(())
}

impl Disk for MemoryFile {
    ghost seen = { λ f. f.bytes.items };

    ghost may_leave = { λ f left. left ≡ f.bytes.items };

    ghost is_usable = { λ _. true };

    ghost faults = { λ f. f.faults };

    ghost is_clean = { λ _. true };

    ghost tally_of = { λ _. record { caught = 0; refused = 0 } };

    ghost key_of = { λ _. 0 };

    ghost is_fair = { λ _ _. true };

    ghost fair_if_clean = { λ _ _ _. refl };

    ghost seen_may_stay = { λ _. refl };

    fn mixes(&self) -> bool {
        false
    }

    // Memory gives back what was written, so it needs no secret.
    fn key(&self) -> u64 {
        0
    }

    fn tally(&self) -> Tally {
        Tally {
            caught: 0,
            refused: 0,
        }
    }

    fn may_be_used(&self) -> bool {
        true
    }

    fn len(&mut self) -> io::Result<usize> {
        Ok(self.bytes.len())
    }

    fn read_at(&mut self, at: usize, buf: &mut [u8]) -> io::Result<()> {
        let rest = self.bytes.get(at..).unwrap_or_default();
        let Some(found) = rest.get(..buf.len()) else {
            return Err(io::ErrorKind::UnexpectedEof.into());
        };
        buf.copy_from_slice(found);
        Ok(())
    }

    // The bytes have the digest that their writer took of them, so none is taken again.
    fn read_checked(&mut self, _: u64, _: u64, at: usize, buf: &mut [u8]) -> io::Result<()> {
        self.read_at(at, buf)
    }

    fn write_at(&mut self, at: usize, bytes: &[u8]) -> io::Result<()> {
        counted(overwrite(&mut self.bytes, at, bytes), &mut self.faults)
    }

    fn set_len(&mut self, len: usize) -> io::Result<()> {
        counted(resize(&mut self.bytes, len), &mut self.faults)
    }

    fn sync(&mut self) -> io::Result<()> {
        Ok(())
    }
}
