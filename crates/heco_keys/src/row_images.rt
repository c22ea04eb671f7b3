ghost use Rattle.std.specs.Prelude.{◌≡◌, ◌↔◌, ◌^◌, All, IfOk, IsTrue, length};
ghost use Rattle.heco_transform.specs.Halves.{HalvesFit, AreHalves};
ghost use Rattle.heco_keys.specs.RowImages.{ArePairImages, AreRowImages};

use heco_nums::{List, Memory};
use heco_poly::Poly;
use heco_transform::{Halves, Transform};
use std::alloc::Global;

/// The images of both parts of the rows of a switch key, under a transform of that depth.
#[derive(Debug, Drop)]
pub struct RowImages {
    pub depth: u32,
    pub pairs: List<(Halves, Halves)>,
}

/// Whether all polynomials have n places.
pub fn have_places(rows: &[(Poly, Poly)], n: u32) -> bool
    ensures { IsTrue result ↔ All (λ r. (length r.0 ≡ n) × (length r.1 ≡ n)) rows.now }
{
    for pair in rows {
        if pair.0.len() != n || pair.1.len() != n {
            return false;
        }
    }
    true
}

/// The images of the halves of a polynomial.
fn halves_of(alloc: Global, transform: &Transform, a: &Poly) -> Result<Halves, Memory>
    requires { length a.now ≡ 2 ^ transform.now.depth }
    ensures fits { IfOk result (λ h. HalvesFit transform.now.depth h) }
    ensures halves { IfOk result (λ h. AreHalves transform.now.depth a.now h) }
{
    let mut halves = transform.new_halves(alloc)?;
    transform.halves_into(a.as_slice(), &mut halves);
    Ok(halves)
}

/// The images of both polynomials.
fn pair_images(
    alloc: Global,
    transform: &Transform,
    pair: &(Poly, Poly),
) -> Result<(Halves, Halves), Memory>
    requires first { length pair.now.0 ≡ 2 ^ transform.now.depth }
    requires second { length pair.now.1 ≡ 2 ^ transform.now.depth }
    ensures { IfOk result (λ x. ArePairImages transform.now.depth pair.now x) }
{
    let first = halves_of(alloc, transform, &pair.0)?;
    let second = halves_of(alloc, transform, &pair.1)?;
    Ok((first, second))
}

/// The images of all 29 rows.
pub fn images_of(
    alloc: Global,
    transform: &Transform,
    rows: &[(Poly, Poly)],
) -> Result<RowImages, Memory>
    requires count { length rows.now ≡ 29 }
    requires long { All (λ r. (length r.0 ≡ 2 ^ transform.now.depth) × (length r.1 ≡ 2 ^ transform.now.depth)) rows.now }
    ensures depth { IfOk result (λ m. m.depth ≡ transform.now.depth) }
    ensures images { IfOk result (λ m. AreRowImages transform.now.depth rows.now m.pairs) }
{
    let mut pairs = List::new(alloc);
    for i in 0..rows.len() {
        pairs.push(pair_images(alloc, transform, &rows[i])?)?;
    }
    Ok(RowImages {
        depth: transform.depth,
        pairs,
    })
}
