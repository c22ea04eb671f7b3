ghost use Rattle.std.specs.Prelude.{◌≡◌, ◌<◌, IfOk, IsOk, slice_get};
ghost use Rattle.heco_nums.specs.MaterialBounds.{IsSparse};

use heco_nums::{List, Memory, Preset};

/// The secret key: n places of -1, 0 and 1, few of them not 0.
#[derive(Debug, Drop)]
pub struct Secret {
    preset: Preset,
    places: List<i8>,
    pub ghost sparse: { IsSparse preset.n preset.h places },
}

impl Secret {
    /// The secret key with these places.
    pub fn of(p: &Preset, s: List<i8>) -> Result<Secret, Memory>
        requires { IsSparse p.now.n p.now.h s }
        ensures made { IfOk result (λ k. (k.preset ≡ p.now) × (k.places ≡ s)) }
        ensures always { IsOk result }
    {
        Ok(Secret {
            preset: *p,
            places: s,
        })
    }

    pub fn preset(&self) -> &Preset
        ensures { result.now ≡ self.now.preset }
    {
        &self.preset
    }

    /// Place i.
    pub fn word(&self, i: u32) -> i8
        requires { i < self.now.preset.n }
        ensures { slice_get self.now.places i ≡ Some result }
    {
        self.as_slice()[i as usize]
    }

    /// All places.
    pub fn as_slice(&self) -> &[i8]
        ensures places { result.now ≡ self.now.places }
        ensures sparse { IsSparse self.now.preset.n self.now.preset.h result.now }
    {
        self.places.as_slice()
    }
}
