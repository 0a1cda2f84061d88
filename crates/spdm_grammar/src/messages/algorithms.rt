use crate::messages::tables::are_tables;

/// What a requester offers in NEGOTIATE_ALGORITHMS (DSP0274, "NEGOTIATE_ALGORITHMS request message format").
#[derive(Clone, Copy, Debug, PartialEq, Eq)]
pub struct AlgOffer<'a> {
    /// MeasurementSpecification: bit 0 is DMTF.
    pub measurement: u8,
    /// OtherParamsSupport.
    pub other: u8,
    /// BaseAsymAlgo: one bit for each signature algorithm.
    pub asym: u32,
    /// BaseHashAlgo: bit 0 is SHA-256, bit 1 is SHA-384.
    pub hash: u32,
    /// ExtAsym: entries of four bytes each.
    pub ext_asym: &'a [u8],
    /// ExtHash: entries of four bytes each.
    pub ext_hash: &'a [u8],
    /// How many algorithm structures `tables` holds.
    pub count: u8,
    /// The algorithm structures, one after the other, as they stand in the message.
    pub tables: &'a [u8],
}

/// What a responder chose in ALGORITHMS (DSP0274, "ALGORITHMS response message format").
#[derive(Clone, Copy, Debug, PartialEq, Eq)]
pub struct AlgReply<'a> {
    /// MeasurementSpecificationSel: bit 0 is DMTF.
    pub measurement: u8,
    /// OtherParamsSelection.
    pub other: u8,
    /// MeasurementHashAlgo: bit 1 is SHA-256, bit 2 is SHA-384.
    pub measurement_hash: u32,
    /// BaseAsymSel: one bit for each signature algorithm.
    pub asym: u32,
    /// BaseHashSel: bit 0 is SHA-256, bit 1 is SHA-384.
    pub hash: u32,
    /// ExtAsymSel: entries of four bytes each.
    pub ext_asym: &'a [u8],
    /// ExtHashSel: entries of four bytes each.
    pub ext_hash: &'a [u8],
    /// How many algorithm structures `tables` holds.
    pub count: u8,
    /// The algorithm structures, one after the other, as they stand in the message.
    pub tables: &'a [u8],
}

impl AlgOffer<'_> {
    ghost use Rattle.std.specs.Prelude.{◌↔◌, IsTrue};
    ghost use Rattle.spdm_grammar.specs.Message.{offer_message};
    ghost use Rattle.spdm_grammar.specs.Requests.{IsSoundOffer};

    /// Whether the offer has an encoding: whole external entries, up to 255 of either kind, `count` structures, and a
    /// length that two bytes can tell.
    pub fn is_sound(&self) -> bool
        ensures { IsTrue result ↔ IsSoundOffer (offer_message self.now) }
    {
        self.ext_asym.len() % 4 == 0
            && self.ext_asym.len() <= 1020
            && self.ext_hash.len() % 4 == 0
            && self.ext_hash.len() <= 1020
            && self.tables.len() < 0x10000
            && 32 + self.ext_asym.len() + self.ext_hash.len() + self.tables.len() < 0x10000
            && are_tables(self.count, self.tables)
    }
}

impl AlgReply<'_> {
    ghost use Rattle.std.specs.Prelude.{◌↔◌, IsTrue};
    ghost use Rattle.spdm_grammar.specs.Message.{reply_message};
    ghost use Rattle.spdm_grammar.specs.Responses.{IsSoundReply};

    /// Whether the choice has an encoding: whole external entries, up to 255 of either kind, `count` structures, and a
    /// length that two bytes can tell.
    pub fn is_sound(&self) -> bool
        ensures { IsTrue result ↔ IsSoundReply (reply_message self.now) }
    {
        self.ext_asym.len() % 4 == 0
            && self.ext_asym.len() <= 1020
            && self.ext_hash.len() % 4 == 0
            && self.ext_hash.len() <= 1020
            && self.tables.len() < 0x10000
            && 36 + self.ext_asym.len() + self.ext_hash.len() + self.tables.len() < 0x10000
            && are_tables(self.count, self.tables)
    }
}
