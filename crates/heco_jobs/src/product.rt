ghost use Rattle.std.specs.Prelude.{◌∷◌, [], IfOk};
ghost use Rattle.heco_jobs.specs.Products.{Prints, Stores, planned};

use heco_nums::{Bytes, List, Memory};
use std::alloc::Global;

/// The bytes that are to be written into the file word of this number.
#[derive(Debug, Drop)]
pub struct Planned {
    pub which: u8,
    pub bytes: Bytes,
}

/// All that a command gives: the files that it writes, in order, and the text where it prints.
#[derive(Debug, Drop)]
pub struct Product {
    pub writes: List<Planned>,
    pub text: Option<Bytes>,
}

/// This text is printed, and nothing is written.
pub fn printing(alloc: Global, text: Bytes) -> Product
    ensures { Prints text result }
{
    Product {
        writes: List::new(alloc),
        text: Some(text),
    }
}

/// This file is written, and nothing is printed.
pub fn storing(alloc: Global, which: u8, bytes: Bytes) -> Result<Product, Memory>
    ensures { IfOk result (Stores (planned which bytes ∷ [])) }
{
    let mut writes = List::new(alloc);
    writes.push(Planned { which, bytes })?;
    Ok(Product { writes, text: None })
}

/// These two files are written in this order, and nothing is printed.
pub fn storing_two(
    alloc: Global,
    first: (u8, Bytes),
    second: (u8, Bytes),
) -> Result<Product, Memory>
    ensures { IfOk result (Stores (planned first.0 first.1 ∷ planned second.0 second.1 ∷ [])) }
{
    let mut writes = List::new(alloc);
    writes.push(Planned {
        which: first.0,
        bytes: first.1,
    })?;
    writes.push(Planned {
        which: second.0,
        bytes: second.1,
    })?;
    Ok(Product { writes, text: None })
}
