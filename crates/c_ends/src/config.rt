// What C hands in when an end is opened.

/// What an end announces: its algorithms and its optional capabilities. Of a capability, a byte other than 0 is yes.
#[repr(C)]
#[derive(Clone, Copy)]
pub struct Offer {
    /// 1 is SHA-256, 2 is SHA-384, 3 is both.
    pub hash: u8,
    /// 1 is AES-128-GCM, 2 is AES-256-GCM, 3 is both.
    pub aead: u8,
    /// MEAS_CAP.
    pub measure: u8,
    /// HBEAT_CAP.
    pub heartbeat: u8,
    /// KEY_UPD_CAP.
    pub key_update: u8,
    /// CHUNK_CAP.
    pub chunk: u8,
}

/// A responder, without its requesters and measurements. Sizes and limits are those of `RspConfig`.
#[repr(C)]
#[derive(Clone, Copy)]
pub struct ResponderConfig<'a> {
    pub eid: u8,
    pub beat: u8,
    pub offer: Offer,
    pub transfer: u32,
    pub max: u32,
    pub unit: u16,
    /// The number of earlier boots with this seed, at most 2^24 - 2.
    pub boot: u32,
    pub opaque: &'a [u8],
    pub seed: &'a [u8; 32],
}

/// A requester and its responder. Sizes and limits are those of `ReqConfig`.
#[repr(C)]
#[derive(Clone, Copy)]
pub struct RequesterConfig<'a> {
    pub eid: u8,
    pub responder: u8,
    pub pad: u8,
    pub offer: Offer,
    pub transfer: u32,
    pub max: u32,
    pub unit: u16,
    /// The number of earlier boots with this seed, at most 2^24 - 2.
    pub boot: u32,
    pub hint: &'a [u8],
    pub psk: &'a [u8],
    pub opaque: &'a [u8],
    pub seed: &'a [u8; 32],
}

/// A requester as a responder knows it.
#[repr(C)]
#[derive(Clone, Copy)]
pub struct KnownRequester<'a> {
    pub eid: u8,
    pub hint: &'a [u8],
    pub psk: &'a [u8],
}

/// A measurement of a responder.
#[repr(C)]
#[derive(Clone, Copy)]
pub struct Block<'a> {
    pub index: u8,
    pub value_type: u8,
    /// A byte other than 0: the block belongs to the trusted computing base.
    pub tcb: u8,
    pub value: &'a [u8],
}
