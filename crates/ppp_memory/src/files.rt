ghost use Rattle.std.specs.Prelude.{◌≡◌, Option, Some, nat_eq, option_map};
ghost use Rattle.std.specs.Cmp.Lexicographic.{pointwise};
ghost use Rattle.std.specs.String.{string_bytes};
ghost use Rattle.ppp_memory.specs.Files.{Answers, IsFound, after_whole, counted_after, state_of};
ghost use Rattle.ppp_outside.specs.Calls.{is_listed};
ghost use Rattle.ppp_outside.specs.Files.{ReadsFile, file_of};

use ppp_outside::{Files, WholeFile};
use std::alloc::Global;
use std::marker::Model;

/// A file under its name.
#[derive(Debug, Drop)]
pub struct StoredFile {
    name: String,
    octets: Vec<u8>,
}

impl Model for StoredFile {
    ghost use Rattle.std.specs.String.{string_bytes};
    ghost use Rattle.ppp_outside.specs.Files.{NamedFile};

    ghost Value = { NamedFile };

    ghost view = { λ f. record { name = string_bytes f.name; octets = f.octets.items } };
}

impl StoredFile {
    /// A file of this name with these octets.
    pub fn new(name: String, octets: Vec<u8>) -> StoredFile
        ensures { result ≡ record { name = string_bytes name; octets = octets.items } }
    {
        StoredFile { name, octets }
    }

    // Whether it has this name.
    fn is_named(&self, name: &str) -> bool
        ensures { result ≡ pointwise nat_eq self.now.name name.now }
    {
        self.name.as_bytes() == name.as_bytes()
    }

    // Its octets.
    fn octets(&self) -> &[u8]
        ensures { result.now ≡ self.now.octets }
    {
        self.octets.as_slice()
    }
}

/// Files in memory. Some calls fail.
#[derive(Drop)]
pub struct MemoryFiles {
    files: Vec<StoredFile>,
    failing: Vec<u64>,
    calls: u64,
    faults: u64,
}

impl Model for MemoryFiles {
    ghost use Rattle.ppp_memory.specs.Files.{FilesInMemory};

    ghost Value = { FilesInMemory };

    ghost view = { λ s. record { files = s.files.items; failing = s.failing.items; calls = s.calls; faults = s.faults } };
}

impl MemoryFiles {
    /// These files, of which the first of a name counts. The calls with the numbers in `failing` fail, where the
    /// first call is number 1.
    pub fn new(files: Vec<StoredFile>, failing: Vec<u64>) -> MemoryFiles
        ensures { result ≡ record { files = files.items; failing = failing.items; calls = 0; faults = 0 } }
    {
        MemoryFiles {
            files,
            failing,
            calls: 0,
            faults: 0,
        }
    }

    // The octets of the first file of this name.
    fn found(&self, name: &str) -> Option<&[u8]>
        ensures { option_map (λ octets. octets.now) result ≡ file_of name.now self.now.files }
    {
        find(self.files.as_slice(), name)
    }

    // Counts a call that failed or not.
    fn count(&mut self, fails: bool)
        ensures { self.new ≡ counted_after self.old fails }
    {
        self.calls = self.calls.saturating_add(1);
        if fails {
            self.faults = self.faults.saturating_add(1);
        }
    }

    // Whether the next call fails.
    fn refuses(&self) -> bool
        ensures { result ≡ is_listed self.now.calls self.now.failing }
    {
        self.failing.contains(&self.calls.saturating_add(1))
    }
}

// The octets of the first file of this name.
fn find<'a>(files: &'a [StoredFile], name: &str) -> Option<&'a [u8]>
    ensures { option_map (λ octets. octets.now) result ≡ file_of name.now files.now }
{
    match files {
        [] => None,
        [first, rest @ ..] => {
            if first.is_named(name) {
                Some(first.octets())
            } else {
                find(rest, name)
            }
        }
    }
}

// What is answered where these octets were found, or nothing.
fn copy_found(alloc: Global, found: Option<&[u8]>) -> WholeFile
    ensures { IsFound (option_map (λ octets. octets.now) found.entry) result }
{
    match found {
        None => WholeFile::NoFile,
        Some(octets) => match Vec::from_slice(alloc, octets) {
            Ok(octets) => WholeFile::Bytes(octets),
            Err(_) => WholeFile::NoMemory,
        },
    }
}

impl Files for MemoryFiles {
    ghost state = { state_of };

    fn whole(&mut self, alloc: Global, name: &str) -> WholeFile
        ensures reads { ReadsFile (state_of self.old) (state_of self.new) name.now result }
        ensures answers { Answers self.old name.now result }
        ensures after { self.new ≡ after_whole self.old result }
    {
        let refused = self.refuses();
        self.count(refused);
        if refused {
            return WholeFile::Failed;
        }
        copy_found(alloc, self.found(name))
    }
}
