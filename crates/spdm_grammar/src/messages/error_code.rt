ghost use Rattle.std.specs.Prelude.{◌≡◌};
ghost use Rattle.spdm_grammar.specs.ErrorNumber.{error_number};

use crate::names::error_number::{
    DECRYPT_ERROR, INVALID_REQUEST, LARGE_RESPONSE, REQUEST_TOO_LARGE, RESPONSE_TOO_LARGE,
    SESSION_LIMIT_EXCEEDED, SESSION_REQUIRED, UNEXPECTED_REQUEST, UNSPECIFIED, UNSUPPORTED_REQUEST,
    VERSION_MISMATCH,
};

/// The codes of ERROR that the responder of this project sends, and Unspecified (DSP0274, "Error code and error data").
#[derive(Clone, Copy, Debug, PartialEq, Eq)]
pub enum ErrorCode {
    InvalidRequest,
    UnexpectedRequest,
    Unspecified,
    DecryptError,
    UnsupportedRequest,
    SessionLimitExceeded,
    SessionRequired,
    ResponseTooLarge,
    RequestTooLarge,
    LargeResponse,
    VersionMismatch,
}

impl ErrorCode {
    /// The number of the code, which stands in Param1 of ERROR.
    pub fn number(self) -> u8
        ensures { result ≡ error_number self }
    {
        match self {
            ErrorCode::InvalidRequest => INVALID_REQUEST,
            ErrorCode::UnexpectedRequest => UNEXPECTED_REQUEST,
            ErrorCode::Unspecified => UNSPECIFIED,
            ErrorCode::DecryptError => DECRYPT_ERROR,
            ErrorCode::UnsupportedRequest => UNSUPPORTED_REQUEST,
            ErrorCode::SessionLimitExceeded => SESSION_LIMIT_EXCEEDED,
            ErrorCode::SessionRequired => SESSION_REQUIRED,
            ErrorCode::ResponseTooLarge => RESPONSE_TOO_LARGE,
            ErrorCode::RequestTooLarge => REQUEST_TOO_LARGE,
            ErrorCode::LargeResponse => LARGE_RESPONSE,
            ErrorCode::VersionMismatch => VERSION_MISMATCH,
        }
    }
}
