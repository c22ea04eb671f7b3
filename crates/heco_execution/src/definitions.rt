ghost use Rattle.std.specs.Prelude.{◌≡◌, ◌≤◌, ◌<◌, Some, IfOk, IfSome, length, take, slice_get};
ghost use Rattle.heco_execution.specs.Definitions.{last_named};

use heco_nums::Memory;
use heco_syntax::Def;
use indexmap::IndexMap;
use std::alloc::Global;
use std::marker::Model;

/// The definitions of a source, with the place of the last one of each name.
#[derive(Drop)]
pub struct Index<'d> {
    all: &'d [Def],
    last: IndexMap<Vec<u8>, usize>,
}

impl<'d> Model for Index<'d> {
    ghost use Rattle.std.specs.Prelude.{List};
    ghost use Rattle.std.specs.Coded.{coded_list};
    ghost use Rattle.heco_syntax.specs.declared.tree.Def.{Def as Definition};
    ghost use Rattle.heco_syntax.specs.contracts.tree.Def as definition_contract;
    ghost use Rattle.heco_execution.specs.Definitions.{AreLast};

    ghost Value = { List Definition };

    ghost coded = { coded_list definition_contract.the_row.coded };

    ghost view = { λ x. x.all.now };

    ghost invariant = { λ x. AreLast (λ k. k.items) x.all.now x.last.entries };
}

impl<'d> Index<'d> {
    /// The index of these definitions.
    pub fn new(alloc: Global, all: &'d [Def]) -> Result<Index<'d>, Memory>
        ensures { IfOk result (λ x. x ≡ all.now) }
    {
        let mut last = IndexMap::new(alloc);
        for k in 0..all.len() {
            let name = Vec::from_slice(alloc, all[k].name.text.as_slice())?;
            last.insert(name, k)?;
        }
        Ok(Index { all, last })
    }
}

/// The definitions that a call may name: those before some place.
#[derive(Drop)]
pub struct Definitions<'x, 'd> {
    index: &'x Index<'d>,
    visible: &'d [Def],
}

impl<'x, 'd> Model for Definitions<'x, 'd> {
    ghost use Rattle.std.specs.Prelude.{◌≡◌, List, length, take};
    ghost use Rattle.std.specs.Coded.{coded_list};
    ghost use Rattle.heco_syntax.specs.declared.tree.Def.{Def as Definition};
    ghost use Rattle.heco_syntax.specs.contracts.tree.Def as definition_contract;

    ghost Value = { List Definition };

    ghost coded = { coded_list definition_contract.the_row.coded };

    ghost view = { λ d. d.visible.now };

    ghost invariant = { λ d. d.visible.now ≡ take (length d.visible.now) d.index.now };
}

// Where the last of these definitions with this name stands.
#[tactic(auto, using(crate::proofs::DefinitionLemmas::found_behind, crate::proofs::DefinitionLemmas::passed_behind))]
fn last_named(defs: &[Def], name: &[u8]) -> Option<usize>
    ensures { result ≡ last_named name.now defs.now }
{
    let mut rest = defs;
    while let Some((d, before)) = rest.split_last() {
        if d.name.text.as_slice() == name {
            return Some(before.len());
        }
        rest = before;
    }
    None
}

impl<'x, 'd> Definitions<'x, 'd> {
    /// All definitions of an index.
    pub fn all(index: &'x Index<'d>) -> Definitions<'x, 'd>
        ensures { result ≡ index.now }
    {
        Definitions {
            index,
            visible: index.all,
        }
    }

    /// Where the last definition of a name stands.
    pub fn find(&self, name: &[u8]) -> Option<usize>
        ensures found { result ≡ last_named name.now self.now }
        ensures within { IfSome result (λ k. k < length self.now) }
    {
        let index = self.index;
        match index.last.get(name).copied() {
            Some(k) if k < self.visible.len() => Some(k),
            // in a typed source each name stands once, before its calls
            _ => last_named(self.visible, name),
        }
    }

    /// The definition at a place.
    pub fn at(&self, k: usize) -> &Def
        requires { k < length self.now }
        ensures { slice_get self.now k ≡ Some result.now }
    {
        let visible = self.visible;
        &visible[k]
    }

    /// The definitions before a place.
    pub fn before(&self, k: usize) -> Definitions<'x, 'd>
        requires { k ≤ length self.now }
        ensures { result ≡ take k self.now }
    {
        Definitions {
            index: self.index,
            visible: &self.visible[..k],
        }
    }
}
