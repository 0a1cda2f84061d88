//! Codes, bits and numbers of messages by their names, each once for the program and for its definitions.

ghost use Rattle.std.specs.Prelude.{◌≡◌};
ghost use Rattle.spdm_grammar.specs.Codes.{is_one_of};

/// Whether the code stands in the list.
pub fn is_one_of(codes: &[u8], code: u8) -> bool
    ensures { result ≡ is_one_of codes.now code }
{
    codes.iter().any(|known| code == *known)
}

/// Values of SPDMVersion (DSP0274, "SPDM messages byte field definitions").
pub mod spdm_version {
    /// Version 1.0, that of GET_VERSION and VERSION.
    pub const V1_0: u8 = 0x10;

    /// Version 1.2, that of all other messages.
    pub const V1_2: u8 = 0x12;
}

/// Types of messages over MCTP, the first byte of a body (DSP0239).
pub mod message_type {
    /// An SPDM message, in the clear or inside a record (DSP0275).
    pub const SPDM: u8 = 5;

    /// A secured message, which is a record (DSP0276).
    pub const SECURED: u8 = 6;
}

/// Request codes (DSP0274, "SPDM request codes").
pub mod request_code {
    pub const GET_VERSION: u8 = 0x84;

    pub const CHUNK_SEND: u8 = 0x85;

    pub const CHUNK_GET: u8 = 0x86;

    pub const GET_MEASUREMENTS: u8 = 0xe0;

    pub const GET_CAPABILITIES: u8 = 0xe1;

    pub const NEGOTIATE_ALGORITHMS: u8 = 0xe3;

    pub const PSK_EXCHANGE: u8 = 0xe6;

    pub const PSK_FINISH: u8 = 0xe7;

    pub const HEARTBEAT: u8 = 0xe8;

    pub const KEY_UPDATE: u8 = 0xe9;

    pub const END_SESSION: u8 = 0xec;
}

/// Response codes (DSP0274, "SPDM response codes").
pub mod response_code {
    pub const VERSION: u8 = 0x04;

    pub const CHUNK_SEND_ACK: u8 = 0x05;

    pub const CHUNK_RESPONSE: u8 = 0x06;

    pub const MEASUREMENTS: u8 = 0x60;

    pub const CAPABILITIES: u8 = 0x61;

    pub const ALGORITHMS: u8 = 0x63;

    pub const PSK_EXCHANGE_RSP: u8 = 0x66;

    pub const PSK_FINISH_RSP: u8 = 0x67;

    pub const HEARTBEAT_ACK: u8 = 0x68;

    pub const KEY_UPDATE_ACK: u8 = 0x69;

    pub const END_SESSION_ACK: u8 = 0x6c;

    pub const ERROR: u8 = 0x7f;
}

/// The request codes of version 1.2; GET_VERSION alone is of version 1.0.
pub const REQUESTS_OF_V1_2: [u8; 10] = [
    request_code::GET_CAPABILITIES,
    request_code::NEGOTIATE_ALGORITHMS,
    request_code::GET_MEASUREMENTS,
    request_code::PSK_EXCHANGE,
    request_code::PSK_FINISH,
    request_code::HEARTBEAT,
    request_code::KEY_UPDATE,
    request_code::END_SESSION,
    request_code::CHUNK_SEND,
    request_code::CHUNK_GET,
];

/// The response codes of version 1.0.
pub const RESPONSES_OF_V1_0: [u8; 2] = [response_code::VERSION, response_code::ERROR];

/// The response codes of version 1.2.
pub const RESPONSES_OF_V1_2: [u8; 11] = [
    response_code::ERROR,
    response_code::CAPABILITIES,
    response_code::ALGORITHMS,
    response_code::MEASUREMENTS,
    response_code::PSK_EXCHANGE_RSP,
    response_code::PSK_FINISH_RSP,
    response_code::HEARTBEAT_ACK,
    response_code::KEY_UPDATE_ACK,
    response_code::END_SESSION_ACK,
    response_code::CHUNK_SEND_ACK,
    response_code::CHUNK_RESPONSE,
];

/// Numbers of error codes, which stand in Param1 of ERROR (DSP0274, "Error code and error data").
pub mod error_number {
    pub const INVALID_REQUEST: u8 = 0x01;

    pub const UNEXPECTED_REQUEST: u8 = 0x04;

    pub const UNSPECIFIED: u8 = 0x05;

    pub const DECRYPT_ERROR: u8 = 0x06;

    pub const UNSUPPORTED_REQUEST: u8 = 0x07;

    pub const SESSION_LIMIT_EXCEEDED: u8 = 0x0a;

    pub const SESSION_REQUIRED: u8 = 0x0b;

    pub const RESPONSE_TOO_LARGE: u8 = 0x0d;

    pub const REQUEST_TOO_LARGE: u8 = 0x0e;

    pub const LARGE_RESPONSE: u8 = 0x0f;

    pub const VERSION_MISMATCH: u8 = 0x41;
}

/// Bits of Flags in GET_CAPABILITIES and CAPABILITIES (DSP0274, "Flag fields definitions").
pub mod capability {
    /// The two bits of MEAS_CAP.
    pub const MEAS_CAP_BITS: u32 = 3 << 3;

    /// MEAS_CAP of a responder: measurements without signatures.
    pub const MEAS_CAP: u32 = 1 << 3;

    /// MEAS_CAP of a responder: measurements with signatures.
    pub const MEAS_CAP_SIGNED: u32 = 2 << 3;

    /// ENCRYPT_CAP: records are encrypted.
    pub const ENCRYPT_CAP: u32 = 1 << 6;

    /// MAC_CAP: records are authenticated.
    pub const MAC_CAP: u32 = 1 << 7;

    /// The two bits of PSK_CAP.
    pub const PSK_CAP_BITS: u32 = 3 << 10;

    /// PSK_CAP of a requester: sessions under pre-shared keys.
    pub const PSK_CAP: u32 = 1 << 10;

    /// PSK_CAP of a responder: the same, with a context of its own.
    pub const PSK_CAP_WITH_CONTEXT: u32 = 2 << 10;

    /// HBEAT_CAP: heartbeats.
    pub const HBEAT_CAP: u32 = 1 << 13;

    /// KEY_UPD_CAP: updates of keys.
    pub const KEY_UPD_CAP: u32 = 1 << 14;

    /// CHUNK_CAP: large messages in chunks.
    pub const CHUNK_CAP: u32 = 1 << 17;
}

/// The least DataTransferSize, in bytes (DSP0274, "GET_CAPABILITIES request message format").
pub const MIN_DATA_TRANSFER_SIZE: u32 = 42;

/// The greatest length of an SPDM message, in bytes, whatever an end announces. This project's own limit.
pub const MAX_MESSAGE_SIZE: u32 = 4096;

/// The greatest length of a body, in bytes: its type and a record of 4,160 bytes. This project's own limit.
pub const MAX_BODY_SIZE: usize = 4161;

/// The most sessions between a requester and the responder, and the greatest id that an end gives one. This project's
/// own limit.
pub const MAX_SESSIONS: u8 = 4;

/// The places in a table of sessions: one for each id from 1 to `MAX_SESSIONS`.
pub const SESSION_PLACES: usize = MAX_SESSIONS as usize;

/// The most records under one key. This project's own limit: their numbers have two bytes (DSP0277).
pub const MAX_RECORDS: u32 = 65_536;

/// The most bytes of opaque data (DSP0274, "PSK_EXCHANGE request message format").
pub const MAX_OPAQUE_LEN: usize = 1024;

/// The most bytes of application data in a record. This project's own limit.
pub const MAX_APP_DATA_LEN: usize = 1024;

/// The most bytes of random padding in a record that an end of this project sends (DSP0277).
pub const MAX_PADDING: usize = 16;

/// The length of PSK_EXCHANGE without its hint, its context and its opaque data, in bytes (DSP0274, "PSK_EXCHANGE
/// request message format").
pub const PSK_EXCHANGE_FIELDS_LEN: usize = 12;

/// The length of PSK_EXCHANGE_RSP without its summary, its context, its opaque data and its verify data, in bytes
/// (DSP0274, "PSK_EXCHANGE_RSP response message format").
pub const PSK_EXCHANGE_RSP_FIELDS_LEN: usize = 12;

/// The length of CHUNK_SEND and CHUNK_RESPONSE before the chunk and, in the first one, of the size of the large
/// message, in bytes (DSP0274, "CHUNK_SEND request message format").
pub const CHUNK_FIELDS_LEN: usize = 12;

/// The length of the size of a large message in its first chunk, in bytes (DSP0274, "CHUNK_SEND request message
/// format").
pub const LARGE_SIZE_LEN: usize = 4;

/// The length of CHUNK_SEND_ACK before the response to the large request, in bytes (DSP0274, "CHUNK_SEND_ACK response
/// message format").
pub const CHUNK_SEND_ACK_FIELDS_LEN: usize = 6;

/// The measurement operation that asks for all blocks (DSP0274, "GET_MEASUREMENTS request message format").
pub const ALL_BLOCKS: u8 = 255;

/// The length of MEASUREMENTS without its record and its opaque data, in bytes (DSP0274, "MEASUREMENTS response message
/// format").
pub const MEASUREMENTS_FIELDS_LEN: u32 = 42;

/// Bits of BaseHashAlgo and BaseHashSel (DSP0274, "NEGOTIATE_ALGORITHMS request message format").
pub mod base_hash {
    pub const SHA_256: u32 = 1;

    pub const SHA_384: u32 = 1 << 1;
}

/// Bits of MeasurementHashAlgo (DSP0274, "ALGORITHMS response message format").
pub mod measurement_hash {
    pub const SHA_256: u32 = 1 << 1;

    pub const SHA_384: u32 = 1 << 2;
}

/// Types of algorithm structures (DSP0274, "Algorithm request structure").
pub mod table_type {
    pub const DHE: u8 = 2;

    pub const AEAD: u8 = 3;

    pub const REQ_BASE_ASYM: u8 = 4;

    pub const KEY_SCHEDULE: u8 = 5;
}

/// Bits of the AEAD structure.
pub mod aead {
    pub const AES_128_GCM: u16 = 1;

    pub const AES_256_GCM: u16 = 1 << 1;
}

/// The bit of the key schedule structure: that of SPDM.
pub const KEY_SCHEDULE_SPDM: u16 = 1;

/// The bit of MeasurementSpecification: that of DMTF.
pub const MEASUREMENT_DMTF: u8 = 1;

/// Operations of KEY_UPDATE (DSP0274, "KEY_UPDATE operations").
pub mod key_operation {
    pub const UPDATE_KEY: u8 = 1;

    pub const UPDATE_ALL_KEYS: u8 = 2;

    pub const VERIFY_NEW_KEY: u8 = 3;
}
