// Files in memory.
ghost use Rattle.std.specs.Prelude.{◌≡◌, ◌≢◌, ◌⊎◌, ℕ, ◌-◌, ◌<◌, ◌≤◌, map, string_bytes, vec_len};
ghost use Rattle.std.specs.Prelude.{Option, Some, None, option_map, option_copied, is_none, IsTrue};
ghost use Rattle.std.specs.Prelude.{IsNone, IfOk, IsErr, IsErrOf};
ghost use Rattle.std.specs.List.{find};
ghost use Rattle.std.specs.Str.{bytes_eq};
ghost use Rattle.dfdl_edge.specs.Faults.{Rose, one_more};
ghost use Rattle.dfdl_edge.specs.Told.{IsAll, IsNowLast};
ghost use Rattle.dfdl_edge.specs.Files.{IsTooLargeExactly};
ghost use Rattle.dfdl_edge.specs.Memory.{FilesInMemory, IsToFail, after_call, after_fault};
ghost use Rattle.dfdl_edge.specs.Memory.{bytes_of};

use crate::calls::Calls;
use crate::loading::{Files, LoadFault};
use std::alloc::Global;
use std::marker::Model;

/// A file in memory.
#[derive(Drop)]
pub struct MemoryFile {
    pub name: String,
    pub bytes: Vec<u8>,
}

/// Files in memory. Of several with one name the first counts. Loads number from 1, and those that
/// are listed fail.
#[derive(Drop)]
pub struct MemoryFiles {
    files: Vec<MemoryFile>,
    last: Option<String>,
    calls: Calls,
}

impl Model for MemoryFiles {
    ghost Value = { FilesInMemory };

    ghost view = { λ f. record {
      files = map (λ file. (string_bytes file.name, file.bytes.items)) f.files.items;
      last = option_map (λ name. string_bytes name) f.last;
      calls = f.calls;
    } };
}

impl MemoryFiles {
    /// These files, with the numbers of the loads that are to fail.
    pub fn new(files: Vec<MemoryFile>, failing: Vec<u64>) -> Self
        ensures { result ≡ record {
          files = map (λ file. (string_bytes file.name, file.bytes.items)) files.items;
          last = None;
          calls = record { failing = failing.items; made = 0; failed = 0 };
        } }
    {
        MemoryFiles {
            files,
            last: None,
            calls: Calls::new(failing),
        }
    }

    /// The name last failed, if any did.
    pub fn last_failed(&self) -> Option<&str>
        ensures { option_copied result ≡ self.now.last }
    {
        match &self.last {
            Some(name) => Some(name.as_str()),
            None => None,
        }
    }

    /// How many loads were asked for.
    pub fn loads(&self) -> u64
        ensures { result ≡ self.now.calls.made }
    {
        self.calls.made()
    }

    /// How many loads failed.
    pub fn faults(&self) -> u64
        ensures { result ≡ self.now.calls.failed }
    {
        self.calls.failed()
    }
}

impl Files for MemoryFiles {
    ghost seen = { λ f. record {
      content = λ name. bytes_of f.files name;
      is_missing = λ name. is_none (bytes_of f.files name);
      last_failed = Some f.last;
      loads = f.calls.made;
      faults = f.calls.failed;
    } };

    fn load(&mut self, alloc: Global, name: &str, most: usize) -> Result<Vec<u8>, LoadFault>
        ensures bytes { IfOk result (λ v. IsAll (bytes_of self.old.files name.now) v.items) }
        ensures fits { IfOk result (λ v. vec_len v ≤ most) }
        ensures too_large { IsTooLargeExactly (bytes_of self.old.files name.now) most result }
        ensures larger { (size : ℕ) → IsErrOf result (LoadFault.TooLarge size) → most < size }
        ensures missing { IsTrue (is_none (bytes_of self.old.files name.now)) →
            IsErrOf result LoadFault.Failed ⊎ IsErrOf result LoadFault.OutOfMemory }

        ensures fails { IsToFail self.old.calls → IsErr result }
        ensures only { IsErrOf result LoadFault.Failed →
            IsToFail self.old.calls ⊎ IsNone (bytes_of self.old.files name.now) }
        ensures after_failed { IsErrOf result LoadFault.Failed
            → self.new.calls ≡ after_fault self.old.calls }
        ensures after_other { result ≢ Err LoadFault.Failed
            → self.new.calls ≡ after_call self.old.calls }
        ensures files { self.new.files ≡ self.old.files }

        ensures counted { self.new.calls.made ≡ one_more self.old.calls.made }

        ensures later { self.old.calls.failed ≤ self.new.calls.failed }
        ensures cause { IsErrOf result LoadFault.Failed
            → Rose self.old.calls.failed self.new.calls.failed }
        ensures still { result ≢ Err LoadFault.Failed
            → self.new.calls.failed ≡ self.old.calls.failed }

        ensures last { IsErrOf result LoadFault.Failed
            → IsNowLast (Some self.old.last) name.now (Some self.new.last) }
        ensures last_kept { result ≢ Err LoadFault.Failed → self.new.last ≡ self.old.last }
    {
        let listed = self.calls.begin();
        let found = find_bytes(&self.files, name);
        if !listed {
            if let Some(bytes) = found {
                return copied(alloc, bytes, most);
            }
        }
        match String::from_str(alloc, name) {
            Ok(kept) => {
                self.last = Some(kept);
                self.calls.fail();
                Err(LoadFault::Failed)
            }
            Err(_) => Err(match found {
                Some(bytes) => refusal(bytes, most),
                None => LoadFault::OutOfMemory,
            }),
        }
    }
}

// The first file of this name.
fn find_file<'f>(files: &'f [MemoryFile], name: &str) -> Option<&'f MemoryFile>
    ensures { option_copied result
        ≡ find (λ file. bytes_eq (string_bytes file.name) name.now) files.now }
{
    files.iter().find(|file| file.name.as_str() == name)
}

// The bytes of the first file of this name.
#[tactic(auto, using(crate::proofs::Finding::bytes_of_map))]
fn find_bytes<'f>(files: &'f [MemoryFile], name: &str) -> Option<&'f [u8]>
    ensures { option_copied result ≡
        bytes_of (map (λ file. (string_bytes file.name, file.bytes.items)) files.now) name.now }
{
    match find_file(files, name) {
        Some(file) => Some(&file.bytes),
        None => None,
    }
}

// Why these bytes are not copied where there is no memory for it, or they are too many.
fn refusal(bytes: &[u8], most: usize) -> LoadFault
    ensures too_large { IsTooLargeExactly (Some bytes.now) most (Err result) }
    ensures other { result ≢ LoadFault.Failed }
{
    if bytes.len() > most {
        LoadFault::TooLarge {
            size: bytes.len() as u64,
        }
    } else {
        LoadFault::OutOfMemory
    }
}

// A copy of these bytes.
fn copied(alloc: Global, bytes: &[u8], most: usize) -> Result<Vec<u8>, LoadFault>
    ensures bytes { IfOk result (λ v. v.items ≡ bytes.now) }
    ensures too_large { IsTooLargeExactly (Some bytes.now) most result }
    ensures other { result ≢ Err LoadFault.Failed }
{
    if bytes.len() > most {
        return Err(refusal(bytes, most));
    }
    Vec::from_slice(alloc, bytes).map_err(|_| LoadFault::OutOfMemory)
}
