// A store in memory.
ghost use Rattle.std.specs.Prelude.{◌≡◌, ◌≢◌, ◌≤◌, ◌↔◌, true, Some, Err, IsErr, OnOk, OnErr};
ghost use Rattle.std.specs.FinMap as map;
ghost use Rattle.sym_io.specs.declared.traits.StoreFault.TheVariants.{Failed as StoreFailed};
ghost use Rattle.sym_io.specs.Faults.{Rose};
ghost use Rattle.sym_io.specs.Files.{Gets, Puts};
ghost use Rattle.memory_ends.specs.Memory.{files_of, files_kept, store_plan, store_faults};
ghost use Rattle.memory_ends.specs.Plan.{call_fails, next_call, plan_of};

use crate::plan::FaultPlan;
use std::alloc::{AllocError, Global};
use std::collections::BTreeMap;
use sym_io::{Failed, MAX_FILE_LENGTH, Store, StoreFault};

/// A store whose files are in memory.
#[derive(Drop)]
pub struct MemStore {
    alloc: Global,
    files: BTreeMap<String, Vec<u8>>,
    plan: FaultPlan,
    refused: u64,
}

impl MemStore {
    /// A store of these files, whose calls (`get` and `put` counted together) with the numbers of `failing`, counted from
    /// 1, fail. So does a `put` for which there is no memory.
    pub fn new(alloc: Global, files: BTreeMap<String, Vec<u8>>, failing: Vec<u64>) -> Self
        ensures files { files_kept result ≡ files_of files.entries }
        ensures plan { store_plan result ≡ plan_of failing }
    {
        MemStore {
            alloc,
            files,
            plan: FaultPlan::new(failing),
            refused: 0,
        }
    }
}

/// Puts a file in place of the one with that name.
fn replace_file(
    alloc: Global,
    files: &mut BTreeMap<String, Vec<u8>>,
    name: &str,
    bytes: &[u8],
) -> Result<(), AllocError>
    ensures ok { OnOk result (files_of files.new.entries ≡ map.insert (files_of files.old.entries) name.now bytes.now) }
    ensures err { OnErr result (files_of files.new.entries ≡ files_of files.old.entries) }
{
    let name = match String::from_str(alloc, name) {
        Ok(name) => name,
        Err(error) => return Err(error),
    };
    let bytes = match bytes.to_vec(alloc) {
        Ok(bytes) => bytes,
        Err(error) => {
            drop(name);
            return Err(error);
        }
    };
    files.insert(name, bytes)?;
    Ok(())
}

impl Store for MemStore {
    ghost files = { λ store. Some (files_kept store) };

    ghost faults = { store_faults };

    fn get(&mut self, alloc: Global, name: &str) -> Result<Vec<u8>, StoreFault>
        ensures planned { (result ≡ Err StoreFailed) ↔ (call_fails (store_plan self.old) ≡ true) }
        ensures counted { store_plan self.new ≡ next_call (store_plan self.old) }
        ensures still { result ≢ Err StoreFailed → store_faults self.new ≡ store_faults self.old }
        ensures answer { Gets (Some (files_kept self.old)) name.now (store_faults self.old) (store_faults self.new) result }
        ensures kept { Some (files_kept self.new) ≡ Some (files_kept self.old) }
        ensures later { store_faults self.old ≤ store_faults self.new }
    {
        match self.plan.begin_call() {
            Ok(()) => {}
            Err(_) => return Err(StoreFault::Failed),
        }
        let Some(bytes) = self.files.get(name) else {
            return Err(StoreFault::Missing);
        };
        if bytes.len() > MAX_FILE_LENGTH {
            return Err(StoreFault::TooLong);
        }
        match bytes.to_vec(alloc) {
            Ok(copy) => Ok(copy),
            Err(_) => Err(StoreFault::Memory),
        }
    }

    fn put(&mut self, name: &str, bytes: &[u8]) -> Result<(), Failed>
        ensures planned { call_fails (store_plan self.old) ≡ true → IsErr result }
        ensures counted { store_plan self.new ≡ next_call (store_plan self.old) }
        ensures still { OnOk result (store_faults self.new ≡ store_faults self.old) }
        ensures answer { Puts (Some (files_kept self.old)) (Some (files_kept self.new)) name.now bytes.now result }
        ensures later { store_faults self.old ≤ store_faults self.new }
        ensures failed { OnErr result (Rose (store_faults self.old) (store_faults self.new)) }
    {
        match self.plan.begin_call() {
            Ok(()) => {}
            Err(failed) => return Err(failed),
        }
        match replace_file(self.alloc, &mut self.files, name, bytes) {
            Ok(()) => Ok(()),
            Err(_) => {
                self.refused = self.refused.saturating_add(1);
                Err(Failed)
            }
        }
    }
}
