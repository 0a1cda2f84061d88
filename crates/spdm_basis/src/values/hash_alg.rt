ghost use Rattle.std.specs.Prelude.{◌≡◌};
ghost use Rattle.spdm_basis.specs.Sizes.{hash_size};

/// A hash function of SPDM (DSP0274, "BaseHashSel").
#[derive(Clone, Copy, Debug, PartialEq, Eq)]
pub enum HashAlg {
    /// SHA-256 of FIPS 180-4, with 32 bytes of output.
    Sha256,
    /// SHA-384 of FIPS 180-4, with 48 bytes of output.
    Sha384,
}

impl HashAlg {
    /// The length of its output in bytes: 32 or 48.
    pub fn size(self) -> usize
        ensures { result ≡ hash_size self }
    {
        match self {
            HashAlg::Sha256 => 32,
            HashAlg::Sha384 => 48,
        }
    }
}
