/// What stands behind the magic of a file.
#[derive(Clone, Copy, Debug)]
pub struct Header {
    pub version: u8,
    /// The number of the preset, 1 to 5.
    pub preset: u8,
}
