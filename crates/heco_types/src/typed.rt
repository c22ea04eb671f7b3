ghost use Rattle.std.specs.Prelude.{◌≡◌, ◌≢◌, ◌⊎◌, Err, IfOk, IfErr, OnOk, true, false};
ghost use Rattle.std.specs.List.{All};
ghost use Rattle.heco_nums.specs.Presets.{preset_name};
ghost use Rattle.heco_syntax.specs.Wellformed.{IsWellformed};
ghost use Rattle.heco_types.specs.declared.refusal.TypeErr.{TypeErr as Refusal};
ghost use Rattle.heco_types.specs.declared.refusal.TypeErr.TheVariants as e;
ghost use Rattle.heco_types.specs.FirstBroken.{BreaksNone, IsCause};
ghost use Rattle.heco_types.specs.Presets.{slots_named};
ghost use Rattle.heco_types.specs.Shapes.{shapes_of};
ghost use Rattle.heco_types.specs.Statements.{most};
ghost use Rattle.heco_types.specs.Typing.{IsTyped, IsWithin};

use crate::parameters::check_source;
use crate::refusal::TypeErr;
use crate::shapes::shapes;
use heco_nums::{List, Preset, Shape};
use heco_syntax::Source;
use std::alloc::Global;
use std::marker::Model;

/// A source that breaks no rule of typing. Contracts see the source.
#[derive(Debug, Drop)]
pub struct Typed {
    source: Source,
    preset: Preset,
    inputs: List<Shape>,
    outputs: List<Shape>,
}

impl Model for Typed {
    ghost use Rattle.std.specs.Prelude.{◌≡◌, true, false};
    ghost use Rattle.heco_syntax.specs.declared.tree.Source.{Source};
    ghost use Rattle.heco_syntax.specs.contracts.tree.Source as source_contract;

    ghost Value = { Source };

    ghost coded = { source_contract.the_row.coded };

    ghost use Rattle.heco_nums.specs.Presets.{preset_name};
    ghost use Rattle.heco_types.specs.Presets.{slots_named};
    ghost use Rattle.heco_types.specs.Shapes.{shapes_of};
    ghost use Rattle.heco_types.specs.Typing.{IsTyped};

    ghost view = { λ t. t.source };

    ghost invariant = { λ t. IsTyped t.source × (preset_name t.preset.id ≡ t.source.params.text) × (t.preset.slots ≡ slots_named t.source.params.text)
        × (t.inputs ≡ shapes_of false t.source.ports) × (t.outputs ≡ shapes_of true t.source.ports) };
}

impl Typed {
    /// The source, which breaks no rule of typing.
    pub fn source(&self) -> &Source
        ensures value { result.now ≡ self.now }
        ensures typed { IsTyped self.now }
    {
        &self.source
    }

    /// The preset that the source names.
    pub fn preset(&self) -> &Preset
        ensures name { preset_name result.now.id ≡ self.now.params.text }
        ensures slots { result.now.slots ≡ slots_named self.now.params.text }
    {
        &self.preset
    }

    /// The names and the lengths of the inputs, in order; an absent length is 1.
    pub fn inputs(&self) -> &List<Shape>
        ensures value { result.now ≡ shapes_of false self.now.ports }
        ensures lengths { All (IsWithin (slots_named self.now.params.text)) result.now }
    {
        &self.inputs
    }

    /// The names and the lengths of the outputs, in order; an absent length is 1.
    pub fn outputs(&self) -> &List<Shape>
        ensures value { result.now ≡ shapes_of true self.now.ports }
        ensures lengths { All (IsWithin most) result.now }
    {
        &self.outputs
    }
}

/// Types a source as reading gives it, or answers the first rule of typing that it breaks.
pub fn check(alloc: Global, s: Source) -> Result<Typed, TypeErr>
    requires { IsWellformed s }
    ensures source { IfOk result (λ t. t ≡ s) }
    ensures none { OnOk result (BreaksNone s) }
    ensures cause { IfErr result (IsCause s) }
    ensures refuses { (err : Refusal) → err ≢ e.Memory → IsCause s err → (result ≡ Err err) ⊎ (result ≡ Err e.Memory) }
{
    let preset = check_source(alloc, &s)?;
    let inputs = shapes(alloc, s.ports.as_slice(), false)?;
    let outputs = shapes(alloc, s.ports.as_slice(), true)?;
    Ok(Typed {
        source: s,
        preset,
        inputs,
        outputs,
    })
}
