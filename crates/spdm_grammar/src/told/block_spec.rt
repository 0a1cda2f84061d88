use spdm_basis::Bytes;

/// A measurement of a responder (DSP0274, "DMTF measurement specification").
#[derive(Debug, Drop)]
pub struct BlockSpec {
    /// The index, from 1 to 254.
    pub index: u8,
    /// DMTFSpecMeasurementValueType.
    pub value_type: u8,
    /// Whether it belongs to the trusted computing base.
    pub tcb: bool,
    /// The value.
    pub value: Bytes,
}
