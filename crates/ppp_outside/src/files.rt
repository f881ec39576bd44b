ghost use Rattle.ppp_outside.specs.Files.{FilesState, ReadsFile};

use std::alloc::Global;

/// What reading a file answers.
#[derive(Drop)]
pub enum WholeFile {
    /// All its octets.
    Bytes(Vec<u8>),
    /// There is no file of this name.
    NoFile,
    /// The outside failed.
    Failed,
    /// Want of memory.
    NoMemory,
}

/// Files by name.
pub trait Files: Drop {
    /// The files, where this object tells them, and how often it has failed.
    ghost state: { Self → FilesState };

    /// Reads the file of this name whole.
    fn whole(&mut self, alloc: Global, name: &str) -> WholeFile
        ensures { ReadsFile (state self.old) (state self.new) name.now result };
}
