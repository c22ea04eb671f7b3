ghost use Rattle.std.specs.Prelude.{IfOk};

use heco_nums::Memory;
use heco_transform::{ImageSum, Transform};
use std::alloc::Global;

/// Room for one product: a sum of images, words and whole numbers on the way, and the wide numbers that it comes to.
#[derive(Debug, Drop)]
pub struct Room {
    pub sum: ImageSum,
    pub words: Vec<u64>,
    pub limb: Vec<i64>,
    pub wide: Vec<i128>,
}

impl Room {
    ghost use Rattle.heco_wide.specs.Limbs.{RoomFits};

    /// All the room; Memory where there is none.
    pub fn open(alloc: Global, f: &Transform) -> Result<Room, Memory>
        ensures { IfOk result (λ r. RoomFits f.now.depth r) }
    {
        let n = 1usize << f.depth;
        let sum = f.new_sum(alloc)?;
        let words = vec![in alloc; 0; n]?;
        let limb = vec![in alloc; 0; n]?;
        let wide = vec![in alloc; 0; n]?;
        Ok(Room {
            sum,
            words,
            limb,
            wide,
        })
    }
}
