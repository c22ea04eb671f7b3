ghost use Rattle.std.specs.Prelude.{◌≡◌, ◌≤◌, ◌<◌, ◌-◌, ◌*◌, ◌+◌, ◌%◌, ℕ, List, All, length, map};
ghost use Rattle.heco_meaning.specs.Meanings.{sums, differences, products, turned};
ghost use Rattle.heco_nums.specs.declared.preset.Preset.{Preset};
ghost use Rattle.heco_slots.specs.Messages as message;
ghost use Rattle.heco_slots.specs.Rows.{row_of};
ghost use Rattle.heco_run_laws.specs.Carried.{IsRowExponent, MessagesMeanTheirRows, RowsAreIndependent, RunsAreInOrder, WiresCarryTheirMessages, WiresHaveTheirParts, WiresKeepTheirNoise};
ghost use Rattle.heco_run_laws.specs.CircuitKeys.{MadeKeysAreForTheGates};
ghost use Rattle.heco_run_laws.specs.DecryptedRows.{EncryptionsAreFresh, RowsDecryptToTheMeaning, TwoRowsDecryptApart};
ghost use Rattle.heco_run_laws.specs.Measured.{EncodingsAreMessages, MeasuredNoisesKeepToTheirBounds};
ghost use Rattle.heco_run_laws.specs.Runs.{TurnKeysAreFound};

/// In the run of a valid circuit each wire has, for its message, at most its written bound of noise, whatever the messages
/// of the inputs are.
pub fn wires_keep_their_noise()
    ensures { WiresKeepTheirNoise }
{}

/// Read in the first row or in the second, the messages of a valid circuit are the wires that it means.
pub fn messages_mean_their_rows()
    ensures { MessagesMeanTheirRows }
{}

/// Two rows of values go through a circuit side by side: what is read of one is the same for every content of the other.
pub fn rows_are_independent()
    ensures { RowsAreIndependent }
{}

/// In the run of a valid circuit each wire carries its message, whose slots are the circuit's meaning, with at most its
/// written bound of noise.
pub fn wires_carry_their_messages()
    ensures { WiresCarryTheirMessages }
{}

/// In the run of a valid circuit by any keys each wire has the parts that the circuit says.
pub fn wires_have_their_parts()
    ensures { WiresHaveTheirParts }
{}

/// Fresh inputs decrypt to their messages, and each wire is then measured at its written bound or less.
pub fn measured_noises_keep_to_their_bounds()
    ensures { MeasuredNoisesKeepToTheirBounds }
{}

/// An encryption of any message, within bounds, is fresh for it.
pub fn encryptions_are_fresh()
    ensures { EncryptionsAreFresh }
{}

/// Each wire of a run decrypts, in each row, to what it means for the values of that row.
pub fn rows_decrypt_to_the_meaning()
    ensures { RowsDecryptToTheMeaning }
{}

/// Two rows of values that are encrypted together decrypt each to its own meaning.
pub fn two_rows_decrypt_apart()
    ensures { TwoRowsDecryptApart }
{}

/// What is encoded in one row or in two is n numbers below t.
pub fn encodings_are_messages()
    ensures { EncodingsAreMessages }
{}

/// The run of a valid circuit has the inputs first, and then what each gate makes of wires of the run itself: so whoever
/// computes gates when their operands are there computes the run.
pub fn runs_are_in_order()
    ensures { RunsAreInOrder }
{}

/// The switch key of a turn among those of an evaluation key is the one that is found where its amount stands.
pub fn turn_keys_are_found()
    ensures { TurnKeysAreFound }
{}

/// Made from material within bounds, each key that a gate of the circuit takes is one of the material's secret, with
/// errors within bounds.
pub fn made_keys_are_for_the_gates()
    ensures { MadeKeysAreForTheGates }
{}

/// What is done to a message is done to each of its slots, in every row alike; a turn turns each row. A plain vector weighs
/// the first row and the second, and these two alone.
#[tactic(auto, using(crate::proofs::RowLists::row_sum, crate::proofs::RowLists::row_difference, crate::proofs::RowLists::row_product, crate::proofs::RowLists::row_opposite, crate::proofs::RowLists::row_multiple, crate::proofs::RowLists::row_raised, crate::proofs::RowLists::row_turned, crate::proofs::RowsOfMessages::vector_weighs))]
pub fn rows_of_messages()
    ensures sum { (p : Preset) (e : ℕ) (m l : List ℕ) → row_of p e (message.sum p m l) ≡ sums p.t (row_of p e m) (row_of p e l) }
    ensures difference { (p : Preset) (e : ℕ) (m l : List ℕ) → row_of p e (message.difference p m l) ≡ differences p.t (row_of p e m) (row_of p e l) }
    ensures product { (p : Preset) (e : ℕ) (m l : List ℕ) → e % 2 ≡ 1 → row_of p e (message.product p m l) ≡ products p.t (row_of p e m) (row_of p e l) }
    ensures negative { (p : Preset) (e : ℕ) (m : List ℕ) → row_of p e (message.opposite p m) ≡ map (λ x. (p.t - x) % p.t) (row_of p e m) }
    ensures multiple { (p : Preset) (e c : ℕ) (m : List ℕ) → row_of p e (message.multiple p c m) ≡ map (λ x. (c * x) % p.t) (row_of p e m) }
    ensures shift { (p : Preset) (e c : ℕ) (m : List ℕ) → row_of p e (message.raised p c m) ≡ map (λ x. (x + c) % p.t) (row_of p e m) }
    ensures turn { (p : Preset) (e r : ℕ) (m : List ℕ) → e % 2 ≡ 1 → r ≤ p.slots → row_of p e (message.turned p r m) ≡ turned r (row_of p e m) }
    ensures weighed { (p : Preset) (e : ℕ) (v m : List ℕ) → IsRowExponent p e → length v ≡ p.slots → All (λ x. x < p.t) v → row_of p e (message.weighed p v m) ≡ products p.t v (row_of p e m) }
{}
