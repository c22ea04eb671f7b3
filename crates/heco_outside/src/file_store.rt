ghost use Rattle.std.specs.Prelude.{◌≡◌, None, [], false, OnOk};
ghost use Rattle.heco_outside.specs.Causes.{StoreCause};

use crate::{Store, StoreErr};
use heco_nums::Bytes;
use std::alloc::Global;
use std::fs;
use std::io::{Read, Write};
use std::rt::Files;

/// The files of the system. It tells no content.
#[derive(Drop)]
pub struct FileStore<R: Files> {
    rt: R,
    faults: u64,
}

impl<R: Files> FileStore<R> {
    pub fn new(rt: R) -> FileStore<R> {
        FileStore { rt, faults: 0 }
    }
}

impl<R: Files> Store for FileStore<R> {
    ghost tells = { false };

    ghost file = { λ s name. None };

    ghost calls = { λ s. [] };

    ghost faults = { λ s. s.faults };

    ghost steady = { λ s. ⊥ };

    fn read(&mut self, alloc: Global, name: &str, limit: u64) -> Result<Bytes, StoreErr>
        ensures cause { StoreCause self.old.faults self.new.faults result }
        // the count rises at a fault alone
        ensures quiet { OnOk result (self.new.faults ≡ self.old.faults) }
    {
        match read_file(&self.rt, alloc, name, limit) {
            Ok(bytes) => Ok(bytes),
            Err(StoreErr::Memory) => Err(StoreErr::Memory),
            Err(StoreErr::Failed) => {
                self.faults = self.faults.saturating_add(1);
                Err(StoreErr::Failed)
            }
        }
    }

    fn write(&mut self, _alloc: Global, name: &str, bytes: &[u8]) -> Result<(), StoreErr>
        ensures cause { StoreCause self.old.faults self.new.faults result }
        // the count rises at a fault alone
        ensures quiet { OnOk result (self.new.faults ≡ self.old.faults) }
    {
        match write_file(&self.rt, name, bytes) {
            Ok(()) => Ok(()),
            Err(StoreErr::Memory) => Err(StoreErr::Memory),
            Err(StoreErr::Failed) => {
                self.faults = self.faults.saturating_add(1);
                Err(StoreErr::Failed)
            }
        }
    }
}

fn read_file<R: Files>(rt: &R, alloc: Global, name: &str, limit: u64) -> Result<Bytes, StoreErr> {
    let Ok(mut file) = fs::open(rt, name) else {
        return Err(StoreErr::Failed);
    };
    let mut bytes = Bytes::new(alloc);
    let mut buf = [0u8; 4096];
    let mut left = limit;
    while left > 0 {
        let room = usize::try_from(left).unwrap_or(usize::MAX).min(buf.len());
        let Ok(count) = file.read(&mut buf[..room]) else {
            return Err(StoreErr::Failed);
        };
        if count == 0 {
            break;
        }
        bytes.extend_from_slice(&buf[..count])?;
        left -= count as u64;
    }
    Ok(bytes)
}

fn write_file<R: Files>(rt: &R, name: &str, bytes: &[u8]) -> Result<(), StoreErr> {
    let Ok(mut file) = fs::create(rt, name) else {
        return Err(StoreErr::Failed);
    };
    let mut rest = bytes;
    while !rest.is_empty() {
        match file.write(rest) {
            Ok(0) => return Err(StoreErr::Failed),
            Ok(count) => rest = &rest[count..],
            Err(_) => return Err(StoreErr::Failed),
        }
    }
    Ok(())
}
