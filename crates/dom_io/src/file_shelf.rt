//! The files of the system.
ghost use Rattle.std.specs.Prelude.{◌≡◌, ◌≤◌, ◌+◌, None, IfOk, IfSome, IsErrOf, OnOk, length, take};
ghost use Rattle.dom_io.specs.Faults.{next_count};
ghost use Rattle.dom_io.specs.Held.{file_limit};

use crate::limit::fetch_limit;
use crate::{FetchFault, Shelf};
use std::alloc::Global;
use std::fs;
use std::io::Read;
use std::rt::Files;

/// How many bytes are read at once.
const BUFFER: usize = 4096;

/// The files that the runtime opens by their paths, with a count of the fetches that failed.
///
/// A path that cannot be opened, a folder, and an error of a read are faults. What the system
/// holds, and what it was asked for, is not known to any contract.
#[derive(Drop)]
pub struct FileShelf<R: Files + Clone + Drop> {
    pub rt: R,
    pub faults: u64,
}

impl<R: Files + Clone + Drop> Shelf for FileShelf<R> {
    ghost files = { λ _. None };

    ghost asked = { λ _. None };

    ghost faults = { λ s. s.faults };

    ghost may_ask = { λ _ _. Unit {0} };

    /// Opens the file and reads it to its end, or until one byte more than `FILE_LIMIT` came.
    fn fetch(&mut self, alloc: Global, name: &str) -> Result<Vec<u8>, FetchFault>
        ensures size { IfOk result (λ v. length v.items ≤ file_limit + 1) }
        ensures later { self.old.faults ≤ self.new.faults }
        ensures failed { IsErrOf result FetchFault.Failed → self.new ≡ record self.old { faults = next_count self.old.faults } }
        ensures ok { OnOk result (self.new ≡ self.old) }
        ensures memory { IsErrOf result FetchFault.Memory → self.new ≡ self.old }
    {
        match fs::open(&self.rt, name) {
            Ok(mut file) => match read_first(alloc, &mut file, fetch_limit()) {
                Err(FetchFault::Failed) => self.fail(),
                answer => answer,
            },
            Err(_) => self.fail(),
        }
    }
}

impl<R: Files + Clone + Drop> FileShelf<R> {
    /// Counts a fault.
    fn fail(&mut self) -> Result<Vec<u8>, FetchFault>
        ensures answer { IsErrOf result FetchFault.Failed }
        ensures rose { self.new ≡ record self.old { faults = next_count self.old.faults } }
        ensures later { self.old.faults ≤ self.new.faults }
    {
        self.faults = self.faults.saturating_add(1);
        Err(FetchFault::Failed)
    }
}

/// The bytes of a stream to its end, or the first `most` of them.
fn read_first<S: Read>(alloc: Global, stream: &mut S, most: usize) -> Result<Vec<u8>, FetchFault>
    ensures size { IfOk result (λ v. length v.items ≤ most) }
    ensures bytes { IfOk result (λ v. IfSome (S.remaining stream.old) (λ all. v.items ≡ take most all)) }
{
    let mut bytes = Vec::new(alloc);
    let mut buffer = [0u8; BUFFER];
    'pieces: while bytes.len() < most {
        let wanted = BUFFER.min(most - bytes.len());
        match stream.read(&mut buffer[..wanted]) {
            Ok(0) => return Ok(bytes),
            Ok(count) => bytes.extend_from_slice(&buffer[..count])?,
            Err(_) => return Err(FetchFault::Failed),
        }
    }
    Ok(bytes)
}
