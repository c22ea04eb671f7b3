ghost use Rattle.std.specs.Prelude.{◌≡◌, ◌+◌, ◌++◌, ◌∷◌, ◌<◌, ◌^◌, [], Some, None, length, map, slice_index_or, IfOk, OnOk};
ghost use Rattle.std.specs.List.{cons_option, range_with_len};
ghost use Rattle.heco_rewrites.specs.Wires.{maker};
ghost use Rattle.heco_plainvec.specs.Gathering.{is_read, wires};
ghost use Rattle.heco_plainvec.specs.Gathered.{name, gathered_gates};
ghost use Rattle.heco_plainvec.specs.inside.Finding.{product_at, replacing, IsImage, standing, new_name};

use crate::multiple::{Product, Replacing};
use crate::scaled::scaled;
use heco_circuit::{Circuit, Gate};
use heco_nums::{List, Memory};
use heco_rewrites::{input_names, name_at, over};
use std::alloc::Global;

/// What comes of a gate: a gate, or nothing where its wire's value stands at an earlier wire.
#[derive(Clone, Copy, Debug)]
pub enum Image {
    Stands(Gate),
    Goes(u32),
}

/// The new gates, and the new number of each wire.
#[derive(Debug, Drop)]
pub struct Rewritten {
    pub gates: List<Gate>,
    pub names: List<u32>,
}

fn product_of(products: &[Option<Product>], wire: u32) -> Option<Product>
    ensures { result ≡ slice_index_or products.now wire None }
{
    match products.get(wire as usize) {
        Some(product) => *product,
        None => None,
    }
}

/// The product in place of the gate of a wire, with the wire that it weighs.
fn replacing(
    c: &Circuit,
    reads: &[bool],
    products: &[Option<Product>],
    wire: u32,
    gate: Gate,
) -> Option<Replacing>
    requires here { maker (length c.now.inputs) c.now.gates wire ≡ Some gate }
    requires reads { reads.now ≡ map (is_read c.now) (wires c.now) }
    requires products { products.now ≡ map (product_at c.now) (wires c.now) }
    ensures { result ≡ replacing c.now wire gate }
{
    let _valid = c.preset();
    match scaled(reads, wire, gate) {
        Some(s) => match product_of(products, s.of) {
            Some(product) => Some(Replacing { of: s.of, product }),
            None => None,
        },
        None => None,
    }
}

/// What comes of the gate of a wire, where the names of all earlier wires are known.
fn image_of(
    c: &Circuit,
    reads: &[bool],
    products: &[Option<Product>],
    names: &[u32],
    wire: u32,
    gate: Gate,
) -> Image
    requires here { maker (length c.now.inputs) c.now.gates wire ≡ Some gate }
    requires reads { reads.now ≡ map (is_read c.now) (wires c.now) }
    requires products { products.now ≡ map (product_at c.now) (wires c.now) }
    requires names { names.now ≡ map (name c.now) (range_with_len 0 wire) }
    ensures { IsImage c.now wire gate result }
{
    let _valid = c.preset();
    match replacing(c, reads, products, wire, gate) {
        Some(r) => {
            if r.product.first == wire {
                Image::Stands(Gate::Weigh {
                    v: r.product.vector,
                    a: name_at(names, r.of),
                })
            } else {
                Image::Goes(r.product.first)
            }
        }
        None => Image::Stands(over(names, gate)),
    }
}

/// The next name and the next gate, if there is one, behind so many inputs.
fn put_image(
    names: &mut List<u32>,
    gates: &mut List<Gate>,
    inputs: u32,
    image: Image,
) -> Result<(), Memory>
    requires { inputs + length gates.old < 2 ^ 26 }
    ensures gates { OnOk result (gates.new ≡ gates.old ++ cons_option (standing image) []) }
    ensures names { OnOk result (names.new ≡ names.old ++ new_name names.old (inputs + length gates.old) image ∷ []) }
{
    match image {
        Image::Stands(gate) => {
            names.push(inputs + gates.len() as u32)?;
            gates.push(gate)
        }
        Image::Goes(wire) => {
            let name = name_at(names.as_slice(), wire);
            names.push(name)
        }
    }
}

/// All gates, with products in place of multiples.
pub fn rewrite(
    alloc: Global,
    c: &Circuit,
    reads: &[bool],
    products: &[Option<Product>],
) -> Result<Rewritten, Memory>
    requires reads { reads.now ≡ map (is_read c.now) (wires c.now) }
    requires products { products.now ≡ map (product_at c.now) (wires c.now) }
    ensures gates { IfOk result (λ r. r.gates ≡ gathered_gates c.now) }
    ensures names { IfOk result (λ r. r.names ≡ map (name c.now) (wires c.now)) }
{
    let _valid = c.preset();
    let inputs = c.inputs().len() as u32;
    let mut names = input_names(alloc, inputs)?;
    let mut gates = List::new(alloc);
    let old = c.gates().as_slice();
    for i in 0..old.len() {
        let wire = inputs + i as u32;
        let image = image_of(c, reads, products, names.as_slice(), wire, old[i]);
        put_image(&mut names, &mut gates, inputs, image)?;
    }
    Ok(Rewritten { gates, names })
}
