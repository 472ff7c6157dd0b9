ghost use Rattle.std.specs.Prelude.{◌≡◌, ◌≢◌, ◌⊎◌, ℕ, Bool, false, IsTrue, ◌<◌, ◌≤◌, List, Option};
ghost use Rattle.std.specs.Prelude.{IfOk, IsErrOf, vec_len};
ghost use Rattle.dfdl_edge.specs.Faults.{Rose, one_more};
ghost use Rattle.dfdl_edge.specs.Told.{IsAll, IsNowLast};
ghost use Rattle.dfdl_edge.specs.Files.{FilesSeen, IsTooLargeExactly};

use std::alloc::Global;
use thiserror::Error;

/// Why a file was not loaded.
#[derive(Clone, Copy, Debug, PartialEq, Eq, Error)]
pub enum LoadFault {
    /// The file is missing or can't be read.
    #[error("the file is missing or can not be read")]
    Failed,
    /// The file is longer than was allowed: `size` is its length in bytes.
    #[error("the file has {size} bytes, more than are allowed")]
    TooLarge { size: u64 },
    #[error("out of memory")]
    OutOfMemory,
}

/// Files by their names, as schema documents.
pub trait Files {
    // what is told of the files, and the counts of loads; at the last value of a u64 a count stands
    // still
    ghost seen: { Self → FilesSeen };

    /// The bytes of a file. `most` is the greatest length allowed, in bytes.
    fn load(&mut self, alloc: Global, name: &str, most: usize) -> Result<Vec<u8>, LoadFault>
        ensures bytes { IfOk result (λ v. IsAll ((seen self.old).content name.now) v.items) }
        ensures fits { IfOk result (λ v. vec_len v ≤ most) }
        ensures too_large { IsTooLargeExactly ((seen self.old).content name.now) most result }
        ensures larger { (size : ℕ) → IsErrOf result (LoadFault.TooLarge size) → most < size }
        ensures missing { IsTrue ((seen self.old).is_missing name.now) →
            IsErrOf result LoadFault.Failed ⊎ IsErrOf result LoadFault.OutOfMemory }

        ensures counted { (seen self.new).loads ≡ one_more (seen self.old).loads }

        ensures later { (seen self.old).faults ≤ (seen self.new).faults }
        ensures cause { IsErrOf result LoadFault.Failed
            → Rose (seen self.old).faults (seen self.new).faults }
        ensures still { result ≢ Err LoadFault.Failed
            → (seen self.new).faults ≡ (seen self.old).faults }

        ensures last { IsErrOf result LoadFault.Failed
            → IsNowLast (seen self.old).last_failed name.now (seen self.new).last_failed }
        ensures last_kept { result ≢ Err LoadFault.Failed
            → (seen self.new).last_failed ≡ (seen self.old).last_failed }
        ensures content_kept { (seen self.new).content ≡ (seen self.old).content }
        ensures missing_kept { (seen self.new).is_missing ≡ (seen self.old).is_missing };
}
