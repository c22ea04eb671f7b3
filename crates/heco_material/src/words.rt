use heco_nums::{KeyNeeds, List, Preset};

/// Row i of a switch key: its n words `a` below 2^58, and its n errors `e`.
#[derive(Debug, Drop)]
pub struct SwitchRow {
    pub a: List<u64>,
    pub e: List<i8>,
}

/// The 29 rows of a switch key.
#[derive(Debug, Drop)]
pub struct SwitchWords {
    pub rows: List<SwitchRow>,
}

/// What keys are made from: the secret `s` of n places, the word `a` and the error `e` of the public key, and for
/// each switch key its words, that of relinearisation first and then those of the turns in order.
#[derive(Debug, Drop)]
pub struct KeyWords {
    pub preset: Preset,
    pub needs: KeyNeeds,
    pub s: List<i8>,
    pub a: List<u64>,
    pub e: List<i8>,
    pub switch: List<SwitchWords>,
}

/// What one input is encrypted with: its secret `u` and two errors, each of n places.
#[derive(Debug, Drop)]
pub struct EncRow {
    pub u: List<i8>,
    pub e1: List<i8>,
    pub e2: List<i8>,
}

/// What the inputs are encrypted with, a row for each in order.
#[derive(Debug, Drop)]
pub struct EncWords {
    pub preset: Preset,
    pub rows: List<EncRow>,
}
