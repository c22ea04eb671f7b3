ghost use Rattle.std.specs.Prelude.{◌≡◌, ℕ, length, map, IfOk};
ghost use Rattle.std.specs.List.{sum_by, flat_map};
ghost use Rattle.heco_place.specs.inside.Cells.{cell_over, cells_of};
ghost use Rattle.heco_place.specs.Fitting.{HomeWithin, AllHomesWithin};
ghost use Rattle.heco_circuit.specs.Plans.{shape_of};

use crate::carrier::Carrier;
use heco_circuit::{Cell, Output};
use heco_ir::{Home, NodeId};
use heco_nums::{List, Memory, Shape};
use std::alloc::Global;

fn cell_over(carriers: &[Carrier], roots: &[NodeId], home: Home) -> Cell
    requires { HomeWithin (length carriers.now) roots.now home }
    ensures { result ≡ cell_over carriers.now roots.now home }
{
    match home {
        Home::Number(c) => Cell::Number(c),
        Home::At { root, slot } => Cell::Slot {
            wire: carriers[roots[root as usize].0 as usize].short,
            slot,
        },
    }
}

fn cells_of(
    alloc: Global,
    carriers: &[Carrier],
    roots: &[NodeId],
    homes: &[Home],
) -> Result<List<Cell>, Memory>
    requires { AllHomesWithin (length carriers.now) roots.now homes.now }
    ensures { IfOk result (λ cells. cells ≡ map (cell_over carriers.now roots.now) homes.now) }
{
    let mut cells = List::new(alloc);
    for i in 0..homes.len() {
        cells.push(cell_over(carriers, roots, homes[i]))?;
    }
    Ok(cells)
}

fn output_of(
    alloc: Global,
    carriers: &[Carrier],
    roots: &[NodeId],
    name: &[u8],
    homes: &[Home],
) -> Result<Output, Memory>
    requires { AllHomesWithin (length carriers.now) roots.now homes.now }
    ensures name { IfOk result (λ o. o.name ≡ name.now) }
    ensures cells { IfOk result (λ o. o.cells ≡ map (cell_over carriers.now roots.now) homes.now) }
{
    let name = List::from_slice(alloc, name)?;
    let cells = cells_of(alloc, carriers, roots, homes)?;
    Ok(Output { name, cells })
}

/// The outputs of these names and lengths, a cell for each home in order.
pub fn outputs_of(
    alloc: Global,
    carriers: &[Carrier],
    roots: &[NodeId],
    shapes: &[Shape],
    homes: &[Home],
) -> Result<List<Output>, Memory>
    requires within { AllHomesWithin (length carriers.now) roots.now homes.now }
    requires count { sum_by (λ s. s.len) shapes.now ≡ length homes.now }
    ensures shapes { IfOk result (λ outputs. map shape_of outputs ≡ shapes.now) }
    ensures cells { IfOk result (λ outputs. flat_map cells_of outputs ≡ map (cell_over carriers.now roots.now) homes.now) }
{
    let mut outputs = List::new(alloc);
    let mut rest = homes;
    for i in 0..shapes.len() {
        let (mine, after) = rest.split_at(shapes[i].len as usize);
        let output = output_of(alloc, carriers, roots, shapes[i].name.as_slice(), mine)?;
        outputs.push(output)?;
        rest = after;
    }
    Ok(outputs)
}

/// The same names and lengths.
pub fn copied(alloc: Global, shapes: &[Shape]) -> Result<List<Shape>, Memory>
    ensures { IfOk result (λ copy. copy ≡ shapes.now) }
{
    let mut copy = List::new(alloc);
    for i in 0..shapes.len() {
        let name = List::from_slice(alloc, shapes[i].name.as_slice())?;
        copy.push(Shape {
            name,
            len: shapes[i].len,
        })?;
    }
    Ok(copy)
}
