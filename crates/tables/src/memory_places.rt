ghost use Rattle.std.specs.Prelude.{◌≡◌, Some, true, OnOk, OnErr, IfOk, IfErr};
ghost use Rattle.std.specs.Option.{option_map};
ghost use Rattle.std.specs.FinMap as map;
ghost use Rattle.tables_rows.specs.chunks.ipc_format.columnar_memory.Error.{IsOutOfMemory};

use crate::places::Places;
use std::alloc::Global;
use std::collections::BTreeMap;
use std::marker::Model;
use tables_rows::tables_chunks::columnar_memory::Result;

/// Bytes by name in memory, which a contract sees as the map from each name's bytes to them.
#[derive(Drop)]
pub struct MemoryPlaces {
    alloc: Global,
    entries: BTreeMap<String, Vec<u8>>,
}

impl Model for MemoryPlaces {
    ghost use Rattle.std.specs.FinMap as map;
    ghost use Rattle.std.specs.Coded.{coded_ℕ, coded_list};
    ghost use Rattle.tables.specs.Contents.{Contents, contents_of};

    ghost Value = { Contents };

    ghost coded = { map.code (coded_list coded_ℕ) (coded_list coded_ℕ) };

    ghost view = { λ p. contents_of p.entries.entries };
}

impl MemoryPlaces {
    /// No names, which take no memory.
    pub fn new(alloc: Global) -> Self
        ensures { result ≡ map.empty }
    {
        MemoryPlaces {
            alloc,
            entries: BTreeMap::new(alloc),
        }
    }
}

impl Places for MemoryPlaces {
    ghost contents = { Some };

    fn get(&mut self, name: &str) -> Result<Option<Vec<u8>>>
        ensures kept { self.new ≡ self.old }
        ensures found { IfOk result (λ bytes.
            option_map (λ v. v.items) bytes ≡ map.get self.old name.now) }
        ensures memory { IfErr result IsOutOfMemory }
    {
        match self.entries.get(name) {
            Some(bytes) => Ok(Some(Vec::from_slice(self.alloc, bytes)?)),
            None => Ok(None),
        }
    }

    fn put(&mut self, name: &str, bytes: Vec<u8>) -> Result<bool>
        ensures set { OnOk result (self.new ≡ map.insert self.old name.now bytes.items) }
        ensures taken { IfOk result (λ answer. answer ≡ true) }
        ensures kept { OnErr result (self.new ≡ self.old) }
        ensures memory { IfErr result IsOutOfMemory }
    {
        let name = String::from_str(self.alloc, name)?;
        self.entries.insert(name, bytes)?;
        Ok(true)
    }
}
