//! Waking the gates that read a wire.

ghost use Rattle.std.specs.Prelude.{◌≡◌, ◌+◌, ◌^◌, ◌<◌, ◌≤◌, ◌&&◌, ◌||◌, ℕ, length, map, true};
ghost use Rattle.heco_sched.specs.Wirings.{operands_of};
ghost use Rattle.heco_schedules.specs.Standings.{gate_ready};
ghost use Rattle.heco_schedules.specs.Rising.{names, RisingFrom};
ghost use Rattle.heco_sched.specs.Tallies.{ReadsWires};
ghost use Rattle.heco_sched.specs.Readers.{AreReaders, operands_at};

use crate::readers::Readers;
use crate::wires::gate_is_ready;
use heco_circuit::Gate;
use heco_marks::Marks;
use heco_schedules::Stage;

/// Puts each gate that reads the wire and is ready among the ready ones.
pub fn wake(
    inputs: u32,
    gates: &[Gate],
    stages: &[Stage],
    readers: &Readers,
    wire: u32,
    ready: &mut Marks,
)
    requires small { length gates.now < 2 ^ 28 }
    requires there { wire < inputs + length gates.now }
    requires staged { length stages.now ≡ length gates.now }
    requires wired { ReadsWires inputs (map operands_of gates.now) }
    requires readers { AreReaders (inputs + length gates.now) (map operands_of gates.now) (length gates.now) readers.now.last.items readers.now.firsts.items readers.now.seconds.items }
    requires rising { RisingFrom 0 ready.old.numbers }
    requires fits { (g : ℕ) → names ready.old.numbers g ≡ true → g < length gates.now }
    requires room { length gates.now ≤ ready.old.places }
    ensures rising { RisingFrom 0 ready.new.numbers }
    ensures woken { (g : ℕ)
        → names ready.new.numbers g ≡ (names ready.old.numbers g || (names (operands_at (map operands_of gates.now) g) wire && gate_ready inputs (map operands_of gates.now) stages.now g)) }
    ensures room { length gates.now ≤ ready.new.places }
{
    let mut above = readers.last[wire as usize];
    while above > 0 {
        let gate = above - 1;
        if gate_is_ready(inputs, gates, stages, gate) {
            ready.mark(gate);
        }
        above = readers.before(gates, gate, wire);
    }
}
