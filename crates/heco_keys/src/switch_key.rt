ghost use Rattle.std.specs.Prelude.{◌≡◌, ◌<◌, length, slice_get, IfOk, IfSome, Some};
ghost use Rattle.heco_scheme.specs.Keys.{row};
ghost use Rattle.heco_keys.specs.RowImages.{ArePairImages, AreRowImages};
ghost use Rattle.heco_keys.specs.declared.row_images.RowImages.{RowImages};

use crate::row_images::{RowImages, have_places, images_of};
use heco_nums::{List, Memory};
use heco_poly::Poly;
use heco_transform::{Halves, Transform};
use std::alloc::Global;

/// A key that leads from one secret to another: 29 pairs of polynomials. It may keep their images, by which a switch is
/// fast.
#[derive(Debug, Drop)]
pub struct SwitchKey {
    rows: List<(Poly, Poly)>,
    images: Option<RowImages>,
    pub ghost count: { length rows ≡ 29 },
    ghost imaged: { (m : RowImages) → images ≡ Some m → AreRowImages m.depth rows m.pairs },
}

impl SwitchKey {
    /// The switch key of these pairs.
    pub fn of(rows: List<(Poly, Poly)>) -> SwitchKey
        requires { length rows ≡ 29 }
        ensures { result.rows ≡ rows }
    {
        SwitchKey { rows, images: None }
    }

    /// The key with its images, where its polynomials have as many places as the transform; else as it is.
    pub fn imaged(self, alloc: Global, transform: &Transform) -> Result<SwitchKey, Memory>
        ensures { IfOk result (λ k. k.rows ≡ self.rows) }
    {
        let SwitchKey { rows, images } = self;
        if !have_places(rows.as_slice(), 1 << transform.depth) {
            return Ok(SwitchKey { rows, images });
        }
        let images = images_of(alloc, transform, rows.as_slice())?;
        Ok(SwitchKey {
            rows,
            images: Some(images),
        })
    }

    /// Pair i.
    pub fn row(&self, i: u32) -> (&Poly, &Poly)
        requires { i < 29 }
        ensures { slice_get self.now.rows i ≡ Some (result.0.now, result.1.now) }
    {
        let pair = self.rows.get(i as usize);
        (&pair.0, &pair.1)
    }
    /// All pairs, in order.
    pub fn pairs(&self) -> &[(Poly, Poly)]
        ensures pairs { result.now ≡ self.now.rows }
        ensures count { length result.now ≡ 29 }
    {
        self.rows.as_slice()
    }

    /// The images of pair i under a transform of that depth, where the key keeps them.
    pub fn images(&self, depth: u32, i: u32) -> Option<&(Halves, Halves)>
        requires { i < 29 }
        ensures { IfSome result (λ x. ArePairImages depth (row self.now.rows i) x.now) }
    {
        match &self.images {
            Some(images) if images.depth == depth => Some(images.pairs.get(i as usize)),
            _ => None,
        }
    }
}
