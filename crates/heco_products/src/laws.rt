ghost use Rattle.heco_products.specs.Taken.{WiresTakeTheirCiphertexts};

/// The ciphertext of an output's wire is that of the number of wires below it that outputs have.
pub fn wires_take_their_ciphertexts()
    ensures { WiresTakeTheirCiphertexts }
{}
