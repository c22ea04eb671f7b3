ghost use Rattle.std.specs.Prelude.{◌≡◌, [], ◌∷◌, ◌++◌, ◌≤◌, ◌+◌, OnOk, OnErr};

use crate::{List, Memory};
use std::alloc::Global;
use std::marker::Model;

/// A `Vec` that contracts see as its items and its spare: how many more it takes without asking for memory.
#[derive(Debug, Drop)]
pub struct Room<T> {
    items: Vec<T>,
    spare: usize,
}

impl<T> Model for Room<T> {
    ghost use Rattle.std.specs.Prelude.{List as Seq, ℕ, ◌+◌, ◌≤◌, length, vec_capacity};
    ghost use Rattle.std.specs.Coded.{coded_list, coded×, coded_ℕ};

    ghost Value = { Seq T × ℕ };

    ghost coded = { coded× (coded_list T.code) coded_ℕ };

    ghost view = { λ room. (room.items.items, room.spare) };

    ghost invariant = { λ room. length room.items.items + room.spare ≤ vec_capacity room.items };
}

impl<T> Room<T> {
    /// No items and no spare.
    pub fn new(alloc: Global) -> Room<T>
        ensures items { result.0 ≡ [] }
        ensures spare { result.1 ≡ 0 }
    {
        Room {
            items: Vec::new(alloc),
            spare: 0,
        }
    }

    /// Makes the spare at least `more`.
    pub fn reserve(&mut self, more: usize) -> Result<(), Memory>
        ensures items { self.new.0 ≡ self.old.0 }
        ensures ok { OnOk result (more ≤ self.new.1) }
        ensures err { OnErr result (self.new.1 ≡ self.old.1) }
    {
        if more <= self.spare {
            return Ok(());
        }
        self.items.reserve(more)?;
        self.spare = more;
        Ok(())
    }

    /// The items alone.
    pub fn into_list(self) -> List<T>
        ensures { result ≡ self.0 }
    {
        let Room { items, .. } = self;
        List::from_vec(items)
    }
}

impl<T: Drop> Room<T> {
    /// Puts one item behind the others, within the spare.
    pub fn push_spare(&mut self, x: T)
        requires { 1 ≤ self.old.1 }
        ensures items { self.new.0 ≡ self.old.0 ++ x ∷ [] }
        ensures spare { self.new.1 + 1 ≡ self.old.1 }
    {
        self.spare -= 1;
        // The spare lies within the capacity, so the push finds its place.
        let _ = self.items.push(x);
    }
}
