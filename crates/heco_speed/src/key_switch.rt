ghost use Rattle.std.specs.Prelude.{◌≡◌, IfOk};
ghost use Rattle.heco_scheme.specs.Keys.{AreRows};
ghost use Rattle.heco_speed.specs.Parts.{HasParts};

use crate::ciphertext::{print_parts, second_part};
use crate::kernel::Kernel;
use heco_bfv::{Ct, Gates};
use heco_keys::SwitchKey;
use heco_nums::{Memory, Preset};
use std::alloc::Global;
use std::io;

/// A ciphertext, and room for what comes of it.
#[derive(Drop)]
struct Turned {
    from: Ct,
    to: Ct,
}

impl Turned {
    fn open(alloc: Global, p: &Preset) -> Result<Turned, Memory>
        ensures from { IfOk result (λ t. HasParts 2 p.now.n t.from) }
        ensures to { IfOk result (λ t. HasParts 2 p.now.n t.to) }
    {
        let from = second_part(alloc, p, 2)?;
        let to = Ct::zero(alloc, p, 2)?;
        Ok(Turned { from, to })
    }
}

/// The gates, with the ciphertext that they turn.
#[derive(Drop)]
struct Turner {
    gates: Gates,
    turned: Turned,
    ghost from: { HasParts 2 gates.preset.n turned.from },
    ghost to: { HasParts 2 gates.preset.n turned.to },
}

impl Turner {
    fn open(alloc: Global, p: &Preset) -> Result<Turner, Memory>
        ensures { IfOk result (λ t. t.gates.preset ≡ p.now) }
    {
        let gates = Gates::open(alloc, p)?;
        let turned = Turned::open(alloc, p)?;
        Ok(Turner { gates, turned })
    }
}

/// A key switch by the transform: a turn by no slot, which is hardly more than the switch of the second part.
#[derive(Drop)]
pub struct KeySwitch {
    key: SwitchKey,
    turner: Turner,
    ghost rows: { AreRows turner.gates.preset.n key.rows },
}

impl KeySwitch {
    /// By this key, whose images are ready if it keeps them.
    pub fn open(alloc: Global, p: &Preset, key: SwitchKey) -> Result<KeySwitch, Memory>
        requires { AreRows p.now.n key.rows }
    {
        let turner = Turner::open(alloc, p)?;
        Ok(KeySwitch { key, turner })
    }
}

impl Kernel for KeySwitch {
    fn run(&mut self) {
        self.turner.gates.turn(
            0,
            &self.key,
            &self.turner.turned.from,
            &mut self.turner.turned.to,
        );
    }

    fn print(&self, rt: &HostRuntime, name: &str) -> io::Result<()> {
        print_parts(rt, name, &self.turner.turned.to)
    }
}
