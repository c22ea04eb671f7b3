ghost use Rattle.std.specs.Prelude.{◌≤◌, ℕ, List, IfOk, IfErr, OnOk, length};
ghost use Rattle.heco_good.specs.Accepted.{IsAccepted};
ghost use Rattle.heco_good.specs.Compiled.{IsCircuitOf};
ghost use Rattle.heco_peep.specs.NoWorse.{HasFewBytes};
ghost use Rattle.heco_sources.specs.Sources.{IsSource};
ghost use Rattle.heco_compile.specs.Compiling.{IsRefused, IsTextRefused, IsCompiled};

use crate::CompileErr;
use crate::circuit::circuit_of;
use crate::vectors::vectors_of;
use bumpalo::Bump;
use heco_circuit::Circuit;
use heco_sources::read_source;
use heco_types::Typed;
use std::alloc::Global;

// A reset arena, or a new one where it can't be reset.
fn emptied(alloc: Global, arena: Bump) -> Bump {
    let mut arena = arena;
    match arena.reset() {
        Ok(()) => arena,
        Err(_) => Bump::new(alloc),
    }
}

/// The circuit of a typed source, or why it has none: the first rule of execution that it breaks, or else the first
/// output element that is too deep. The names of a source that was read from a text are so few that its circuit's file is
/// short enough for passes.
pub fn compile_typed(alloc: Global, t: &Typed) -> Result<Circuit, CompileErr>
    ensures accepted { OnOk result (IsAccepted t.now) }
    ensures circuit { IfOk result (λ c. IsCircuitOf t.now c) }
    ensures few { IfOk result (λ c. length c.gates ≤ 20447232) }
    ensures short { (text : List ℕ) → IsSource text t.now → IfOk result (λ c. HasFewBytes c) }
    ensures err { IfErr result (IsRefused t.now) }
{
    let _valid = t.source();
    let _valid = t.outputs();
    let (first, second) = (Bump::new(alloc), Bump::new(alloc));
    let (vectors, homes) = vectors_of(alloc, t, &first, &second)?;
    let first = emptied(alloc, first);
    Ok(circuit_of(alloc, t, &vectors, &homes, &first)?)
}

/// The circuit of a text, or why it has none: its length, the first rule of reading that it breaks, of typing, of
/// execution, or else the first output element that is too deep.
pub fn compile(alloc: Global, text: &[u8]) -> Result<Circuit, CompileErr>
    ensures compiled { IfOk result (IsCompiled text.now) }
    ensures err { IfErr result (IsTextRefused text.now) }
{
    let source = read_source(alloc, text)?;
    compile_typed(alloc, &source)
}
