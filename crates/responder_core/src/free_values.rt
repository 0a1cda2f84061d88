ghost use Rattle.std.specs.Prelude.{◌≤◌, ◌<◌, ◌^◌, length};
ghost use Rattle.spdm_grammar.specs.declared.names.TheConstants.{MAX_OPAQUE_LEN};

/// The values that a responder chooses for a response. Each response uses those that it needs.
#[derive(Clone, Copy)]
pub struct FreeValues<'a> {
    /// RspSessionID of a new session.
    pub id: u16,
    /// ResponderContext of PSK_EXCHANGE_RSP: below 65,536 bytes.
    pub context: &'a [u8],
    /// OpaqueData of PSK_EXCHANGE_RSP: at most 1,024 bytes.
    pub exchange_opaque: &'a [u8],
    /// Nonce of MEASUREMENTS.
    pub nonce: [u8; 32],
    /// OpaqueData of MEASUREMENTS: at most 1,024 bytes.
    pub measured_opaque: &'a [u8],
    /// Handle of a response that is sent in chunks.
    pub handle: u8,
    /// The application data sent in answer to application data.
    pub reply: &'a [u8],
    /// The padding of a record.
    pub pad: &'a [u8],
    ghost context_fits: { length context.now < 2 ^ 16 },
    ghost exchange_opaque_fits: { length exchange_opaque.now ≤ MAX_OPAQUE_LEN },
    ghost measured_opaque_fits: { length measured_opaque.now ≤ MAX_OPAQUE_LEN },
}
