/// A cipher with authentication, for secured records (DSP0274, "AEAD structure").
#[derive(Clone, Copy, Debug, PartialEq, Eq)]
pub enum AeadAlg {
    /// AES in Galois/Counter Mode under a key of 16 bytes.
    Aes128Gcm,
    /// AES in Galois/Counter Mode under a key of 32 bytes.
    Aes256Gcm,
}
