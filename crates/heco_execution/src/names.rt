ghost use Rattle.std.specs.Prelude.{◌≡◌, ◌<◌, ◌∷◌, [], ℕ, length, IfOk, IfErr, OnErr, Ok, slice_get, slice_set, slice_index_or};
ghost use Rattle.heco_execution.specs.Outcomes.{Refuses};
ghost use Rattle.heco_execution.specs.States.{nothing, place_of, list_of, index_of, element, declared, first_names, replaced};

use crate::{Element, EvalErr, Value};
use heco_lex::{Place, Rule};
use heco_nums::{List, Memory};
use heco_syntax::Ident;
use indexmap::IndexSet;
use std::alloc::Global;
use std::marker::Model;

/// The visible names, in the order of their declarations, and the list that each one holds.
#[derive(Drop)]
pub struct Names<V> {
    texts: IndexSet<Vec<u8>>,
    lists: Vec<List<Value<V>>>,
}

impl<V> Model for Names<V> {
    ghost use Rattle.std.specs.Prelude.{map};
    ghost use Rattle.heco_execution.specs.States.{State};

    ghost Value = { State V };

    ghost view = { λ n. record { texts = map (λ t. t.items) n.texts.keys; lists = n.lists.items } };
}

impl<V: Copy> Names<V> {
    /// No name is visible.
    pub fn new(alloc: Global) -> Names<V>
        ensures { result ≡ nothing }
    {
        Names {
            texts: IndexSet::new(alloc),
            lists: Vec::new(alloc),
        }
    }

    /// How many names are visible.
    pub fn len(&self) -> usize
        ensures { result ≡ length self.now.texts }
    {
        self.texts.len()
    }

    /// Where a name stands among the visible ones.
    pub fn place_of(&self, text: &[u8]) -> Option<usize>
        ensures { result ≡ place_of text.now self.now.texts }
    {
        self.texts.get_index_of(text)
    }

    /// The list that a name holds.
    pub fn list_of(&self, text: &[u8]) -> &[Value<V>]
        ensures { result.now ≡ list_of self.now text.now }
    {
        match self.place_of(text) {
            None => &[],
            Some(i) => match self.lists.as_slice().get(i) {
                None => &[],
                Some(list) => list.as_slice(),
            },
        }
    }

    fn value_at(&self, list: usize, place: usize) -> Option<Value<V>>
        ensures { result ≡ slice_get (slice_index_or self.now.lists list []) place }
    {
        match self.lists.as_slice().get(list) {
            None => None,
            Some(list) => list.as_slice().get(place).copied(),
        }
    }

    /// Makes a name visible, with what it holds.
    #[tactic(auto, unfolding(crate::specs::States::declared))]
    pub fn declare(
        &mut self,
        alloc: Global,
        text: &[u8],
        list: List<Value<V>>,
    ) -> Result<(), Memory>
        ensures { IfOk result (λ _. self.new ≡ declared self.old text.now list) }
    {
        match self.place_of(text) {
            None => {
                self.texts.insert(Vec::from_slice(alloc, text)?)?;
                self.lists.push(list)?;
            }
            Some(i) => {
                if i < self.lists.len() {
                    self.lists[i] = list;
                }
            }
        }
        Ok(())
    }

    /// Lets the names past the first ones go.
    pub fn keep_first(&mut self, count: usize)
        ensures { self.new ≡ first_names count self.old }
    {
        self.texts.truncate(count);
        self.lists.truncate(count);
    }

    /// Puts a value in the place of an element.
    pub fn replace(&mut self, alloc: Global, target: Element<V>, v: Value<V>)
        ensures { self.new ≡ replaced self.old target v }
    {
        if target.list < self.lists.len() {
            put(alloc, &mut self.lists[target.list], target.place, v);
        }
    }
}

// Puts a value at a place of the list, which it takes out and back to reach its items.
fn put<V: Copy>(alloc: Global, list: &mut List<Value<V>>, place: usize, v: Value<V>)
    ensures { list.new ≡ slice_set list.old place v }
{
    let mut items = std::mem::replace(list, List::new(alloc)).into_vec();
    if place < items.len() {
        items[place] = v;
    }
    *list = List::from_vec(items);
}

fn out_of_range(at: Place) -> EvalErr
    ensures { result ≡ EvalErr.At Rule.IndexRange at }
{
    EvalErr::At {
        rule: Rule::IndexRange,
        at,
    }
}

// An index as a place in a list.
fn index_of<V: Copy>(at: Place, index: Value<V>) -> Result<usize, EvalErr>
    ensures ok { IfOk result (λ k. index_of at index ≡ Ok k) }
    ensures err { IfErr result (λ e. Refuses e (index_of at index)) }
{
    match index {
        Value::Public(n) if n >= 0 => Ok(n as usize),
        _ => Err(out_of_range(at)),
    }
}

/// The element of a name at an index, and where it stands.
pub fn element<V: Copy>(
    names: &Names<V>,
    name: &Ident,
    index: Value<V>,
) -> Result<Element<V>, EvalErr>
    ensures ok { IfOk result (λ e. element name.now names.now index ≡ Ok e) }
    ensures err { IfErr result (λ e. Refuses e (element name.now names.now index)) }
{
    let place = index_of(name.at, index)?;
    let Some(list) = names.place_of(name.text.as_slice()) else {
        return Err(out_of_range(name.at));
    };
    let Some(value) = names.value_at(list, place) else {
        return Err(out_of_range(name.at));
    };
    Ok(Element { list, place, value })
}
