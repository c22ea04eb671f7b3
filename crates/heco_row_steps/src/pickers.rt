/// The pickers that a step may name.
#[derive(Clone, Copy, Debug, PartialEq, Eq)]
pub enum PickerName {
    First,
    Last,
    /// Drawn from the state 7.
    Drawn,
}

/// `last`, `drawn`, or else the first.
pub fn picker_named(name: &str) -> PickerName {
    match name {
        "last" => PickerName::Last,
        "drawn" => PickerName::Drawn,
        _ => PickerName::First,
    }
}
