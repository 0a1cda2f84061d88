use aes::SlicedAes;
use ghash::TablelessHashKey;

/// The block cipher of Galois/Counter Mode, of which no place that is read and no branch depends on a key or a
/// block. Whoever shares the processor with nobody may set `aes::Aes` here, by tables: it has the same calls.
pub type BlockCipher = SlicedAes;

/// The hash key of Galois/Counter Mode, likewise. That with a table is `ghash::HashKey`.
pub type BlockHash = TablelessHashKey;
