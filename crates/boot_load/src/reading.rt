//! The bytes of a bootstrap.
ghost use Rattle.std.specs.Prelude.{◌≡◌, ◌≢◌, ◌≤◌, ℕ, List, codes, MatchResult};
ghost use Rattle.boot_load.specs.Load.{IsShortBoot, IsUnread};

use crate::fault::LoadFault;
use stats_io::{OpenFault, Pulled, Shelf, Source, pull_up_to};
use std::alloc::Global;

/// Maximum number of bytes of a bootstrap.
pub const MAX_BOOT_BYTES: usize = 1_048_576;

// The value that operators are told: contracts have it by name.
const _: () = prove!(MAX_BOOT_BYTES == 1_048_576);

/// The bytes of the file of that name.
pub(crate) fn bytes_of<F: Shelf>(
    alloc: Global,
    name: &str,
    shelf: &mut F,
) -> Result<Vec<u8>, LoadFault>
    requires { name.now ≢ codes "-" }
    ensures read { MatchResult result
        (λ bytes. IsShortBoot F.S.state (F.holds shelf.old name.now) name.now bytes.items
        × (F.state shelf.new ≡ F.state shelf.old))
        (λ fault. IsUnread F.S.state (F.holds shelf.old name.now) name.now (F.state shelf.old)
        (F.state shelf.new) fault) }
    ensures contents { (other : List ℕ) → F.holds shelf.new other ≡ F.holds shelf.old other }
    ensures later { (F.state shelf.old).faults ≤ (F.state shelf.new).faults }
{
    let mut source = match shelf.open(alloc, name) {
        Ok(source) => source,
        Err(OpenFault::Failed) => return Err(LoadFault::OpenFailed),
        Err(OpenFault::NoMemory) => return Err(LoadFault::NoMemory),
    };
    let mut bytes = Vec::new(alloc);
    match pull_up_to(alloc, &mut source, MAX_BOOT_BYTES, &mut bytes)? {
        Pulled::End => Ok(bytes),
        Pulled::Failed => Err(LoadFault::ReadFailed(source.fault_count())),
        Pulled::TooMany => Err(LoadFault::TooBig),
    }
}
