ghost use Rattle.std.specs.Prelude.{◌≡◌};
ghost use Rattle.heco_ciphertext_files.specs.CiphertextFiles.{magic_of};

/// What the ciphertexts of a file are.
#[derive(Clone, Copy, Debug, PartialEq, Eq)]
pub enum FileKind {
    /// One for each input, in order.
    Cts,
    /// One for each different output wire, by rising number.
    Res,
}

impl FileKind {
    /// The first four bytes of the file.
    pub fn magic(self) -> &'static [u8]
        ensures { result.now ≡ magic_of self }
    {
        match self {
            FileKind::Cts => b"HCTS",
            FileKind::Res => b"HRES",
        }
    }
}
