//! Files that words name, and what reads them.

ghost use Rattle.std.specs.Prelude.{IfOk, IsTrue, option_map};
ghost use Rattle.hq_values.specs.Readers.{seen_by};
ghost use Rattle.hq_kept.specs.Customers.{are_customers};
ghost use Rattle.hq_import.specs.Keys.{are_keys, keys_in};
ghost use Rattle.hq_settings.specs.Steps.{AreKeysRead, HasCustomers, HasKeys, IsFile};

use crate::Trouble;
use hq_import::{DirectoryFail, NamedKey, directory_of, read_keys};
use hq_kept::Customer;
use hq_values::{Fail, Fault};
use std::alloc::Global;
use std::fs::File;
use std::io::{self, ErrorKind, Read};

/// The most bytes that are read of a file: one more than a directory or a file of keys may have, so
/// that a longer one is refused as such.
const FILE_BYTES: u64 = 262_145;

/// What reads the files that words name. What comes of a file is a fact of this value alone: it is
/// obtained by reading, and by nothing else. So a program that is generic over it has read the file
/// of the path that it was given.
pub trait Files: AllocGlobal {
    ghost use Rattle.hq_values.specs.Readers.{seen_by};
    ghost use Rattle.hq_settings.specs.Steps.{IsFile, Reading};

    // what reading the file of a path gave
    ghost reads: { Self → Reading };

    /// The first 262,145 bytes of the file of a path; or want of memory, or that it cannot be read.
    fn read(&self, path: &str) -> Result<Vec<u8>, Trouble>
        ensures { IsFile (reads self.now) path.now (seen_by (λ v. v.items) result) };
}

/// The first bytes of a file.
fn first_bytes(rt: &HostRuntime, path: &str) -> io::Result<Vec<u8>> {
    let mut bytes = Vec::new(rt.alloc());
    File::open(rt, path)?
        .take(FILE_BYTES)
        .read_to_end(&mut bytes)?;
    Ok(bytes)
}

/// Files of the machine, of whose bytes no contract says anything.
impl Files for HostRuntime {
    ghost use Rattle.std.specs.Prelude.{⊤};

    ghost reads = { λ _ _ _. ⊤ };

    fn read(&self, path: &str) -> Result<Vec<u8>, Trouble> {
        match first_bytes(self, path) {
            Ok(bytes) => Ok(bytes),
            Err(error) if error.kind() == ErrorKind::OutOfMemory => {
                Err(Trouble::Desk(Fail::Fault(Fault::WantOfMemory)))
            }
            Err(_) => Err(Trouble::File),
        }
    }
}

/// The customers of the directory of a path: its first fault, 53, 54 or 55; or that it cannot be
/// read, or want of memory.
pub fn customers_of<F: Files>(rt: &F, directory: &str) -> Result<Vec<Customer>, Trouble>
    ensures customers { HasCustomers (F.reads rt.now) directory.now
        (seen_by (λ v. v.items) result) }
    ensures apart { IfOk result (λ v. IsTrue (are_customers v.items)) }
{
    let file = rt.read(directory)?;
    Ok(directory_of(rt.alloc(), file.as_slice())?)
}

/// The keys of a file, of these customers; or where it is wrong; or want of memory.
fn keys_in(alloc: Global, customers: &[Customer], file: &[u8]) -> Result<Vec<NamedKey>, Trouble>
    ensures keys { AreKeysRead (keys_in customers.now file.now) (seen_by (λ v. v.items) result) }
    ensures joined { IfOk result (λ v. IsTrue (are_keys customers.now v.items)) }
{
    match read_keys(alloc, customers, file) {
        Ok(keys) => Ok(keys),
        Err(DirectoryFail::Refused(refusal)) => Err(Trouble::Keys(refusal)),
        Err(DirectoryFail::Fault(fault)) => Err(Trouble::Desk(Fail::Fault(fault))),
    }
}

/// The keys that these customers have beside their own, of the file of a path; none where no file
/// is named. Else it is told where the file is wrong, or that it cannot be read, or want of memory.
pub fn keys_of<F: Files>(
    rt: &F,
    customers: &[Customer],
    path: Option<&str>,
) -> Result<Vec<NamedKey>, Trouble>
    ensures keys { HasKeys (F.reads rt.now) customers.now (option_map (λ p. p.now) path.entry)
        (seen_by (λ v. v.items) result) }
    ensures joined { IfOk result (λ v. IsTrue (are_keys customers.now v.items)) }
{
    let Some(path) = path else {
        return Ok(Vec::new(rt.alloc()));
    };
    let file = rt.read(path)?;
    keys_in(rt.alloc(), customers, file.as_slice())
}
