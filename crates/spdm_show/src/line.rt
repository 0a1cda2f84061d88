ghost use Rattle.std.specs.Prelude.{◌≡◌};
ghost use Rattle.spdm_show.specs.Shown.{line_of, request_text, response_text};
ghost use Rattle.spdm_grammar.specs.Requests.{request_reading};
ghost use Rattle.spdm_grammar.specs.Responses.{response_reading};

use script_text::{Shown, ShownKind, line_malformed, line_request, line_response};
use spdm_basis::Line;
use spdm_codec::{read_request, read_response};

// The line of a request, where a hash has `hash_len` bytes.
fn request_line(bytes: &[u8], hash_len: usize, out: &mut Line)
    ensures { out.new ≡ request_text bytes.now (request_reading hash_len bytes.now) }
{
    match read_request(bytes, hash_len) {
        Ok(request) => line_request(&request, bytes.len(), out),
        Err(malformed) => line_malformed(&malformed, out),
    }
}

// The line of a response, where a hash has `hash_len` bytes.
fn response_line(bytes: &[u8], hash_len: usize, summary: bool, out: &mut Line)
    ensures { out.new ≡ response_text bytes.now (response_reading hash_len summary bytes.now) }
{
    match read_response(bytes, hash_len, summary) {
        Ok(response) => line_response(&response, bytes.len(), out),
        Err(malformed) => line_malformed(&malformed, out),
    }
}

/// Overwrites `out` with the line of a message.
pub fn line_of(shown: &Shown, out: &mut Line)
    ensures { out.new ≡ line_of shown.now }
{
    let bytes = shown.bytes.as_slice();
    let hash_len = shown.hash.size();
    match shown.kind {
        ShownKind::Request => request_line(bytes, hash_len, out),
        ShownKind::Response => response_line(bytes, hash_len, false, out),
        ShownKind::WithSummary => response_line(bytes, hash_len, true, out),
    }
}
