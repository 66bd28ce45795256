//! Whose a folder is. A file for the lock would be one more that a copy of the folder takes along.
//! That nobody but its node changes a folder is still a premise: the lock stops other nodes, and
//! not hands.
ghost use Rattle.std.specs.Prelude.{◌≡◌, IfErr};
ghost use Rattle.druid_serve_base.specs.declared.fault.ClusterFault.TheVariants.{Device};

use druid_folder::StoreFault;
use druid_serve_base::{Cause, StartFault};
use std::fs;
use std::fs::{File, TryLockError};
use std::rt::Files;

/// Shows that a folder is this server's: while there is one, no other server has it, of this program or of another. It is a lock of
/// the system on the folder, so it ends with its program too, however that ends.
#[derive(Debug, Drop)]
pub(crate) struct Owner(File);

// Makes a folder this server's. An empty path is the working folder.
pub(crate) fn own_folder<R: Files<File = File>>(rt: &R, path: &str) -> Result<Owner, StartFault>
    ensures { IfErr result (λ start. start.fault ≡ Device) }
{
    let path = if path.is_empty() { "." } else { path };
    // What cannot be opened, no incarnation could be written into.
    let Ok(folder) = fs::open(rt, path) else {
        return Err(StartFault::device(Cause::Incarnation(StoreFault::Device)));
    };
    match folder.try_lock() {
        Ok(()) => Ok(Owner(folder)),
        Err(TryLockError::WouldBlock) => Err(StartFault::device(Cause::Owner)),
        Err(TryLockError::Error(_)) => Err(StartFault::device(Cause::Names(StoreFault::Device))),
    }
}
