ghost use Rattle.std.specs.Prelude.{◌≡◌, ◌<◌, ℕ, List, All, map};
ghost use Rattle.heco_circuit.specs.Circuits.{IsCircuit};
ghost use Rattle.heco_circuit.specs.Plans.{Plan};
ghost use Rattle.heco_meaning.specs.Meanings.{cell_value, wires_of};
ghost use Rattle.heco_nums.specs.Presets.{modulus_of};
ghost use Rattle.heco_texts.specs.Answers.{HaveFit};
ghost use Rattle.heco_thrift.specs.Homes.{all_cells, world_of, HoldsHomes};
ghost use Rattle.heco_written.specs.ScalarTerm.{ScalarTerm, IsMade, scalar_value};
ghost use Rattle.heco_written.specs.World.{World};
ghost use Rattle.heco_written.specs.WrittenForm.{WrittenHome, home_value, written};

/// The homes of the written forms of made terms hold the terms' values.
pub fn homes_hold_the_terms_values()
    ensures { (w : World) (xs : List ScalarTerm) → 0 < w.slots → 0 < w.modulus → All (IsMade w.modulus w.slots) xs
        → map (home_value w) (map (λ x. (written w.modulus w.slots x).home) xs) ≡ map (λ x. scalar_value w x) xs }
{}

/// Where the elements of a valid circuit's outputs hold homes, they are for all inputs what the homes hold.
pub fn outputs_are_what_homes_hold()
    ensures { (c : Plan) (homes : List WrittenHome) (rows : List (List ℕ)) → IsCircuit c → HoldsHomes c homes
        → HaveFit (modulus_of c.preset) c.inputs rows → map (cell_value (wires_of c rows)) (all_cells c) ≡ map (home_value (world_of c.preset rows)) homes }
{}
