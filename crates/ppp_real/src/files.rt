ghost use Rattle.std.specs.Prelude.{◌≡◌, None};

use ppp_outside::{Files, WholeFile};
use std::alloc::Global;
use std::fs::File;
use std::io::{ErrorKind, Read, Result};
use std::rt;

/// The files of this machine.
#[derive(Drop)]
pub struct RealFiles<R> {
    rt: R,
    faults: u64,
}

impl<R> RealFiles<R> {
    /// Files of which no reading has failed yet.
    pub fn new(rt: R) -> RealFiles<R>
        ensures { result.faults ≡ 0 }
    {
        RealFiles { rt, faults: 0 }
    }
}

// All octets of the file of this name.
fn read_whole<R: rt::Files>(rt: &R, alloc: Global, name: &str) -> Result<Vec<u8>> {
    let mut file = File::open(rt, name)?;
    let mut octets = Vec::new(alloc);
    file.read_to_end(&mut octets)?;
    Ok(octets)
}

impl<R: rt::Files + Drop> Files for RealFiles<R> {
    ghost state = { λ f. record { files = None; faults = f.faults } };

    fn whole(&mut self, alloc: Global, name: &str) -> WholeFile {
        match read_whole(&self.rt, alloc, name) {
            Ok(octets) => WholeFile::Bytes(octets),
            Err(error) => match error.kind() {
                ErrorKind::NotFound => WholeFile::NoFile,
                ErrorKind::OutOfMemory => WholeFile::NoMemory,
                _ => {
                    self.faults = self.faults.saturating_add(1);
                    WholeFile::Failed
                }
            },
        }
    }
}
