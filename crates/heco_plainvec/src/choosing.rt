ghost use Rattle.std.specs.Prelude.{◌≡◌, ◌≤◌, ◌++◌, All, [], length, map, IfOk, OnOk};
ghost use Rattle.std.specs.List.{cons_option};
ghost use Rattle.std.specs.Option.{option_map};
ghost use Rattle.heco_noise.specs.Rows.{IsQuiet};
ghost use Rattle.heco_thrift.specs.Thrift.{bounds_of};
ghost use Rattle.heco_plainvec.specs.Gathering.{wires, multiples, asked};
ghost use Rattle.heco_plainvec.specs.Gathered.{first_wire, gathered_vectors};
ghost use Rattle.heco_plainvec.specs.inside.Finding.{IsAsk, product_by, where_room, numbered_product, product_at};

use crate::multiple::{Asked, Multiple, Product};
use crate::product::product_by;
use heco_circuit::{Circuit, valid_circuits_are_quiet};
use heco_nums::{List, Memory};
use heco_rewrites::copied_vectors;
use heco_slots::SlotTable;
use std::alloc::Global;

/// The greatest number of vectors.
const MOST_VECTORS: usize = 256;

/// The products for all wires, and the vectors with theirs.
#[derive(Debug, Drop)]
pub struct Choices {
    pub products: List<Option<Product>>,
    pub vectors: List<List<u32>>,
}

/// The vector by which one product serves for these multiples, where one does and fewer vectors than there may be stand.
fn found(
    alloc: Global,
    table: &SlotTable,
    room: &mut [u32],
    count: usize,
    multiples: &[Multiple],
    asks: &[Asked],
    bound: u128,
) -> Result<Option<List<u32>>, Memory>
    requires asks { All (IsAsk table.now.preset.id) asks.now }
    requires room { length room.old ≡ table.now.preset.n }
    requires quiet { IsQuiet bound }
    ensures { IfOk result (λ found. found ≡ where_room count (product_by table.now.preset.id multiples.now asks.now bound)) }
{
    if count < MOST_VECTORS {
        product_by(alloc, table, room, multiples, asks, bound)
    } else {
        Ok(None)
    }
}

fn first_wire(multiples: &[Multiple]) -> u32
    ensures { result ≡ first_wire multiples.now }
{
    match multiples.first() {
        Some(m) => m.wire,
        None => 0,
    }
}

/// Puts a vector that was found behind the others.
fn put_vector(
    vectors: &mut List<List<u32>>,
    first: u32,
    found: Option<List<u32>>,
) -> Result<Option<Product>, Memory>
    requires { length vectors.old ≤ 256 }
    ensures product { IfOk result (λ product. product ≡ option_map (numbered_product (length vectors.old) first) found) }
    ensures vectors { OnOk result (vectors.new ≡ vectors.old ++ cons_option found []) }
{
    match found {
        Some(vector) => {
            let number = vectors.len() as u32;
            vectors.push(vector)?;
            Ok(Some(Product {
                vector: number,
                first,
            }))
        }
        None => Ok(None),
    }
}

/// The same as below, beside the table for the weights of vectors and room for one plaintext.
fn choices_beside(
    alloc: Global,
    c: &Circuit,
    table: &SlotTable,
    room: &mut [u32],
    groups: &[List<Multiple>],
    asks: &[List<Asked>],
    bounds: &[u128],
) -> Result<Choices, Memory>
    requires table { table.now.preset.id ≡ c.now.preset }
    requires room { length room.old ≡ table.now.preset.n }
    requires groups { groups.now ≡ map (multiples c.now) (wires c.now) }
    requires asks { asks.now ≡ map (asked c.now) (wires c.now) }
    requires bounds { bounds.now ≡ bounds_of c.now }
    ensures products { IfOk result (λ r. r.products ≡ map (product_at c.now) (wires c.now)) }
    ensures vectors { IfOk result (λ r. r.vectors ≡ gathered_vectors c.now) }
{
    valid_circuits_are_quiet();
    let _valid = c.preset();
    let mut vectors = copied_vectors(alloc, c.vectors().as_slice())?;
    let mut products = List::new(alloc);
    for a in 0..bounds.len() {
        let group = groups[a].as_slice();
        let asked = asks[a].as_slice();
        let count = vectors.len();
        let found = found(alloc, table, room, count, group, asked, bounds[a])?;
        let product = put_vector(&mut vectors, first_wire(group), found)?;
        products.push(product)?;
    }
    Ok(Choices { products, vectors })
}

/// Each wire's product, where its multiples are replaced by one.
pub fn choices_of(
    alloc: Global,
    c: &Circuit,
    groups: &[List<Multiple>],
    asks: &[List<Asked>],
    bounds: &[u128],
) -> Result<Choices, Memory>
    requires groups { groups.now ≡ map (multiples c.now) (wires c.now) }
    requires asks { asks.now ≡ map (asked c.now) (wires c.now) }
    requires bounds { bounds.now ≡ bounds_of c.now }
    ensures products { IfOk result (λ r. r.products ≡ map (product_at c.now) (wires c.now)) }
    ensures vectors { IfOk result (λ r. r.vectors ≡ gathered_vectors c.now) }
{
    let preset = c.preset();
    let table = SlotTable::build(alloc, preset)?;
    let mut room = vec![in alloc; 0; preset.n as usize]?;
    choices_beside(alloc, c, &table, room.as_mut_slice(), groups, asks, bounds)
}
