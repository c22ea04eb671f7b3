ghost use Rattle.std.specs.Prelude.{◌≡◌, ◌<◌, ◌^◌, IfOk};
ghost use Rattle.heco_syntax.specs.Ports.{length_of};
ghost use Rattle.heco_types.specs.Shapes.{shapes_of, AllShort, shape_of};

use heco_nums::{Bytes, List, Memory, Shape};
use heco_syntax::Param;
use std::alloc::Global;

fn shape(alloc: Global, p: &Param) -> Result<Shape, Memory>
    requires { length_of p.now.len < 2 ^ 32 }
    ensures { IfOk result (λ s. s ≡ shape_of p.now) }
{
    let name = Bytes::from_slice(alloc, p.name.text.as_slice())?;
    Ok(Shape {
        name,
        len: p.length() as u32,
    })
}

/// The shapes of the outputs or of the inputs, in order.
pub fn shapes(alloc: Global, ports: &[Param], output: bool) -> Result<List<Shape>, Memory>
    requires { AllShort ports.now }
    ensures { IfOk result (λ l. l ≡ shapes_of output ports.now) }
{
    let mut found = List::new(alloc);
    for p in ports {
        if p.output == output {
            found.push(shape(alloc, p)?)?;
        }
    }
    Ok(found)
}
