ghost use Rattle.std.specs.Prelude.{◌≡◌, ◌≢◌, ℕ, List, true, [], ◌∷◌, ◌++◌, OnOk, OnErr, IfOk, None, IsErrOf, count_by};
ghost use Rattle.std.specs.Option.{option_copied};
ghost use Rattle.heco_outside.specs.declared.store.CallKind.TheVariants.{Read as ReadKind, Write as WriteKind};
ghost use Rattle.heco_outside.specs.declared.store.StoreErr.TheVariants.{Failed};
ghost use Rattle.heco_outside.specs.Lookup.{lookup};
ghost use Rattle.heco_outside.specs.Causes.{StoreCause, Undisturbed};
ghost use Rattle.heco_outside.specs.Calls.{call, Logs, GivesFile, GivesPart, HasSet};
ghost use Rattle.heco_outside.specs.Planned.{FailedWhere};

use crate::{Call, CallKind, Store, StoreErr};
use heco_nums::{Bytes, List, Memory};
use std::alloc::Global;

#[derive(Debug, Drop)]
struct File {
    name: Bytes,
    bytes: Bytes,
}

/// Files in memory. The calls whose numbers, from 1, are listed fail; a call that finds no memory isn't counted.
#[derive(Debug, Drop)]
pub struct MemStore {
    alloc: Global,
    files: Vec<File>,
    calls: List<Call>,
    fails: List<u64>,
}

impl MemStore {
    ghost use Rattle.heco_outside.specs.MemStores.{mem_file, mem_calls, mem_fails};

    /// An empty store.
    pub fn new(alloc: Global, fails: List<u64>) -> MemStore
        ensures files { (name : List ℕ) → mem_file result name ≡ None }
        ensures calls { mem_calls result ≡ [] }
        ensures fails { mem_fails result ≡ fails }
    {
        MemStore {
            alloc,
            files: Vec::new(alloc),
            calls: List::new(alloc),
            fails,
        }
    }

    /// Sets a file. It is no call of the store.
    pub fn put(&mut self, name: &str, bytes: &[u8]) -> Result<(), Memory>
        ensures ok { OnOk result (HasSet (mem_file self.old) name.now bytes.now (mem_file self.new)) }
        ensures err { OnErr result ((other : List ℕ) → mem_file self.new other ≡ mem_file self.old other) }
        ensures calls { mem_calls self.new ≡ mem_calls self.old }
        ensures fails { mem_fails self.new ≡ mem_fails self.old }
    {
        let file = new_file(self.alloc, name, bytes)?;
        self.files.insert(0, file)?;
        Ok(())
    }

    /// The bytes of a file, and None where it is absent.
    pub fn file(&self, name: &str) -> Option<&[u8]>
        ensures { option_copied result ≡ mem_file self.now name.now }
    {
        find(&self.files, name)
    }
}

impl Store for MemStore {
    ghost use Rattle.heco_outside.specs.MemStores.{mem_file, mem_calls, mem_fails, mem_faults, IsSteady, read_fails, write_fails};

    ghost tells = { true };

    ghost file = { λ m name. lookup m.files.items name };

    ghost calls = { λ m. m.calls };

    ghost faults = { λ m. count_by (λ c. c.failed) m.calls };

    ghost steady = { λ m. m.fails ≡ [] };

    fn read(&mut self, alloc: Global, name: &str, limit: u64) -> Result<Bytes, StoreErr>
        ensures cause { StoreCause (mem_faults self.old) (mem_faults self.new) result }
        ensures bytes { IfOk result (GivesFile (mem_file self.old name.now) limit) }
        ensures files { (other : List ℕ) → mem_file self.new other ≡ mem_file self.old other }
        ensures logged { Logs ReadKind name.now (mem_calls self.old) (mem_calls self.new) result }
        ensures steady { IsSteady self.old → Undisturbed (IsSteady self.new) (IsErrOf result Failed) (mem_file self.old name.now ≡ None) (mem_faults self.old) (mem_faults self.new) }
        // it fails exactly where its number is listed or the name is absent
        ensures failed { FailedWhere (read_fails self.old name.now) result }
        ensures fails { mem_fails self.new ≡ mem_fails self.old }
    {
        let given = if self.is_due() {
            None
        } else {
            first_bytes(alloc, &self.files, name, limit)?
        };
        log(
            self.alloc,
            &mut self.calls,
            CallKind::Read,
            name,
            given.is_none(),
        )?;
        given.ok_or(StoreErr::Failed)
    }

    fn write(&mut self, _alloc: Global, name: &str, bytes: &[u8]) -> Result<(), StoreErr>
        ensures cause { StoreCause (mem_faults self.old) (mem_faults self.new) result }
        ensures written { OnOk result (HasSet (mem_file self.old) name.now bytes.now (mem_file self.new)) }
        ensures others { (other : List ℕ) → other ≢ name.now → mem_file self.new other ≡ mem_file self.old other }
        ensures logged { Logs WriteKind name.now (mem_calls self.old) (mem_calls self.new) result }
        ensures steady { IsSteady self.old → Undisturbed (IsSteady self.new) (IsErrOf result Failed) ⊥ (mem_faults self.old) (mem_faults self.new) }
        // it fails exactly where its number is listed, and then leaves every file
        ensures failed { FailedWhere (write_fails self.old) result }
        ensures unchanged { OnErr result ((other : List ℕ) → mem_file self.new other ≡ mem_file self.old other) }
        ensures fails { mem_fails self.new ≡ mem_fails self.old }
    {
        if self.is_due() {
            log(self.alloc, &mut self.calls, CallKind::Write, name, true)?;
            return Err(StoreErr::Failed);
        }
        let file = new_file(self.alloc, name, bytes)?;
        if self.files.insert(0, file).is_err() {
            return Err(StoreErr::Memory);
        }
        if log(self.alloc, &mut self.calls, CallKind::Write, name, false).is_err() {
            self.files.remove(0);
            return Err(StoreErr::Memory);
        }
        Ok(())
    }
}

impl MemStore {
    ghost use Rattle.heco_outside.specs.MemStores.{write_fails};

    // The next call is listed to fail.
    fn is_due(&self) -> bool
        ensures { result ≡ write_fails self.now }
    {
        let number = (self.calls.len() as u64).saturating_add(1);
        self.fails.as_slice().contains(&number)
    }
}

fn find<'a>(files: &'a [File], name: &str) -> Option<&'a [u8]>
    ensures { option_copied result ≡ lookup files.now name.now }
{
    for file in files {
        if file.name.as_slice() == name.as_bytes() {
            return Some(file.bytes.as_slice());
        }
    }
    None
}

// The first bytes of a file, and None where it is absent.
fn first_bytes(
    alloc: Global,
    files: &[File],
    name: &str,
    limit: u64,
) -> Result<Option<Bytes>, Memory>
    ensures { IfOk result (λ given. GivesPart (lookup files.now name.now) limit given) }
{
    let Some(content) = find(files, name) else {
        return Ok(None);
    };
    let end = content
        .len()
        .min(usize::try_from(limit).unwrap_or(usize::MAX));
    Ok(Some(Bytes::from_slice(alloc, &content[..end])?))
}

fn log(
    alloc: Global,
    calls: &mut List<Call>,
    kind: CallKind,
    name: &str,
    failed: bool,
) -> Result<(), Memory>
    ensures ok { OnOk result (calls.new ≡ calls.old ++ call kind name.now failed ∷ []) }
    ensures err { OnErr result (calls.new ≡ calls.old) }
{
    let name = Bytes::from_slice(alloc, name.as_bytes())?;
    calls.push(Call { kind, name, failed })
}

fn new_file(alloc: Global, name: &str, bytes: &[u8]) -> Result<File, Memory>
    ensures { IfOk result (λ f. (f.name ≡ name.now) × (f.bytes ≡ bytes.now)) }
{
    let name = Bytes::from_slice(alloc, name.as_bytes())?;
    let bytes = Bytes::from_slice(alloc, bytes)?;
    Ok(File { name, bytes })
}
