ghost use Rattle.std.specs.Prelude.{◌≡◌, [], ◌∷◌, ◌++◌, length, take, OnOk, OnErr, None};
ghost use Rattle.heco_types.specs.Names.{name_of, visible};

use crate::name::Entity;
use heco_nums::Memory;
use indexmap::IndexMap;
use std::alloc::Global;
use std::marker::Model;

/// The visible names in the order in which they were declared.
#[derive(Drop)]
pub struct Scope {
    names: IndexMap<Vec<u8>, Entity>,
}

impl Model for Scope {
    ghost use Rattle.std.specs.Prelude.{List as Seq, map};
    ghost use Rattle.heco_types.specs.Names.{Name, name_of};

    ghost Value = { Seq Name };

    ghost view = { λ s. map (λ e. name_of e.0.items e.1) s.names.entries };
}

impl Scope {
    pub fn new(alloc: Global) -> Scope
        ensures { result ≡ [] }
    {
        Scope {
            names: IndexMap::new(alloc),
        }
    }

    pub fn len(&self) -> usize
        ensures { result ≡ length self.now }
    {
        self.names.len()
    }

    /// What the text names.
    pub fn find(&self, text: &[u8]) -> Option<Entity>
        ensures { result ≡ visible self.now text.now }
    {
        self.names.get(text).copied()
    }

    /// Makes a name visible that isn't.
    pub fn declare(&mut self, alloc: Global, text: &[u8], entity: Entity) -> Result<(), Memory>
        requires { visible self.old text.now ≡ None }
        ensures { OnOk result (self.new ≡ self.old ++ name_of text.now entity ∷ []) }
    {
        let key = Vec::from_slice(alloc, text)?;
        self.names.insert(key, entity)?;
        Ok(())
    }

    /// Keeps the names that were declared first.
    pub fn truncate(&mut self, len: usize)
        ensures { self.new ≡ take len self.old }
    {
        self.names.truncate(len);
    }
}
