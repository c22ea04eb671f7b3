ghost use Rattle.std.specs.Prelude.{◌≡◌, ◌∷◌, ◌++◌, [], IfSome, IfNone, Some, None, OnOk};
ghost use Rattle.heco_texts.specs.Rules.{row_named};

use heco_nums::{Bytes, List, Memory};
use std::alloc::Global;

/// A name and the values that a line gave it.
#[derive(Debug, Drop)]
pub struct Given {
    pub name: Bytes,
    pub row: List<u32>,
}

/// The values that were given with that name.
pub fn row_named<'a>(given: &'a [Given], name: &[u8]) -> Option<&'a [u32]>
    ensures found { IfSome result (λ row. row_named name.now given.now ≡ Some row.now) }
    ensures none { IfNone result (row_named name.now given.now ≡ None) }
{
    for entry in given {
        if entry.name.as_slice() == name {
            return Some(entry.row.as_slice());
        }
    }
    None
}

/// Puts a name and its values behind the others.
pub fn give(
    alloc: Global,
    given: &mut List<Given>,
    name: &[u8],
    row: List<u32>,
) -> Result<(), Memory>
    ensures { OnOk result (given.new ≡ given.old ++ record { name = name.now; row = row } ∷ []) }
{
    let name = Bytes::from_slice(alloc, name)?;
    given.push(Given { name, row })
}
