ghost use Rattle.std.specs.Prelude.{◌≡◌, ◌<◌, ◌++◌, [], ◌∷◌, Some, None, length, slice_get, nat_eq, IsOk, IsTrue, IfOk, OnOk, OnErr};
ghost use Rattle.std.specs.List.{IsDistinct};
ghost use Rattle.std.specs.Cmp.Lexicographic.{pointwise};
ghost use Rattle.dali_base.specs.NameList.{knows, place_of, with_name};

use crate::memory::OutOfMemory;
use crate::name::Name;
use indexmap::IndexSet;
use std::alloc::Global;
use std::marker::Model;

/// Names in order of first entry, each once, numbered from 0. Contracts see the list and the readied name, if there
/// is one (`specs/NameList.antt`).
#[derive(Drop)]
pub struct Names {
    names: IndexSet<Name>,
    readied: Option<Name>,
}

impl Model for Names {
    ghost use Rattle.dali_base.specs.NameList.{NameList};

    ghost Value = { NameList };

    ghost use Rattle.dali_base.specs.NameRoom.{list_of, HasRoom};

    ghost view = { list_of };

    ghost invariant = { HasRoom };
}

impl Names {
    /// No names, and none readied. Takes no memory.
    pub fn new(alloc: Global) -> Names
        ensures names { result.names ≡ [] }
        ensures readied { result.readied ≡ None }
    {
        Names {
            names: IndexSet::new(alloc),
            readied: None,
        }
    }

    /// Takes the room for this one name in advance. The name is readied then, until another name is readied or a
    /// new one is added. At want of memory the list and the readied name stay as they were.
    pub fn ready(&mut self, name: Name) -> Result<(), OutOfMemory>
        ensures names { self.new.names ≡ self.old.names }
        ensures readied { OnOk result (self.new.readied ≡ Some name) }
        ensures err { OnErr result (self.new.readied ≡ self.old.readied) }
    {
        self.names.reserve(1)?;
        self.readied = Some(name);
        Ok(())
    }

    /// Adds the name, and gives its place. A new name goes last, and none is readied then. A name that is there
    /// keeps its place, and nothing changes. Where this name is the readied one or is there already, memory isn't
    /// wanted. At want of memory the list and the readied name stay as they were.
    pub fn add(&mut self, name: Name) -> Result<u32, OutOfMemory>
        requires { length self.old.names < 4294967295 }
        ensures ok { OnOk result (self.new ≡ with_name self.old name) }
        ensures place { IfOk result (λ place. place_of self.new.names name ≡ Some place) }
        ensures readied { self.old.readied ≡ Some name → IsOk result }
        ensures known { IsTrue (knows self.old.names name) → IsOk result }
        ensures err { OnErr result (self.new ≡ self.old) }
    {
        if let Some(place) = self.names.get_index_of(&name) {
            return Ok(place as u32);
        }
        match self.names.insert_full(name) {
            Ok((place, _)) => {
                self.readied = None;
                Ok(place as u32)
            }
            Err(_) => Err(OutOfMemory),
        }
    }

    /// The place of the name, counted from 0. `None` exactly where it isn't there.
    pub fn place(&self, name: Name) -> Option<u32>
        ensures { result ≡ place_of self.now.names name }
    {
        match self.names.get_index_of(&name) {
            Some(place) => Some(place as u32),
            None => None,
        }
    }

    /// The name at this place. `None` exactly where `place` isn't below the length.
    pub fn name(&self, place: u32) -> Option<Name>
        ensures { result ≡ slice_get self.now.names place }
    {
        self.names.get_index(place as usize).copied()
    }

    /// The number of names.
    pub fn len(&self) -> u32
        ensures len { result ≡ length self.now.names }
        ensures distinct { IsDistinct (pointwise nat_eq) self.now.names }
    {
        self.names.len() as u32
    }
}
