//! What holds of the grammar, each law stated as the contract of an empty function.

ghost use Rattle.std.specs.Prelude.{◌≡◌, ◌≢◌, ◌<◌, ◌↔◌, ◌++◌, [], ℕ, List, Bool, Some, slice_index};
ghost use Rattle.spdm_grammar.specs.Message.{RequestMessage, ResponseMessage};
ghost use Rattle.spdm_grammar.specs.Requests.{IsRequestSpelling, FitsRequest, IsSoundRequest, canonical_request, request_in, request_fault};
ghost use Rattle.spdm_grammar.specs.Responses.{IsResponseSpelling, FitsResponse, IsSoundResponse, canonical_response, response_in, response_fault};
ghost use Rattle.spdm_grammar.specs.Ends.{EndsByItself};
ghost use Rattle.spdm_grammar.specs.declared.messages.malformed.Malformed.{Malformed};
ghost use Rattle.spdm_grammar.specs.declared.messages.malformed.Part.TheVariants.{End};

/// The function on bytes answers a request exactly when they encode it.
pub fn request_in_is_spelled()
    ensures { (hash_len : ℕ) (message : RequestMessage) (bytes : List ℕ) →
        (request_in hash_len bytes ≡ Some message) ↔ IsRequestSpelling hash_len message bytes }
{}

/// The function on bytes answers a response exactly when they encode it.
pub fn response_in_is_spelled()
    ensures { (hash_len : ℕ) (summary : Bool) (message : ResponseMessage) (bytes : List ℕ) →
        (response_in hash_len summary bytes
        ≡ Some message) ↔ IsResponseSpelling hash_len summary message bytes }
{}

/// Bytes encode one request at most.
pub fn one_request()
    ensures { (hash_len : ℕ) (m n : RequestMessage) (bytes : List ℕ) →
        IsRequestSpelling hash_len m bytes → IsRequestSpelling hash_len n bytes → m ≡ n }
{}

/// Bytes encode one response at most.
pub fn one_response()
    ensures { (hash_len : ℕ) (summary : Bool) (m n : ResponseMessage) (bytes : List ℕ) →
        IsResponseSpelling hash_len summary m bytes → IsResponseSpelling hash_len summary n bytes
        → m ≡ n }
{}

/// The canonical encoding of a sound request encodes it, and so is read as that request.
pub fn canonical_request_is_read()
    ensures spelled { (hash_len : ℕ) (message : RequestMessage) → FitsRequest message
        → IsSoundRequest hash_len message →
        IsRequestSpelling hash_len message (canonical_request message) }
    ensures read { (hash_len : ℕ) (message : RequestMessage) → FitsRequest message
        → IsSoundRequest hash_len message →
        request_in hash_len (canonical_request message) ≡ Some message }
{}

/// The canonical encoding of a sound response encodes it, and so is read as that response.
pub fn canonical_response_is_read()
    ensures spelled { (hash_len : ℕ) (summary : Bool) (message : ResponseMessage)
        → FitsResponse message → IsSoundResponse hash_len summary message →
        IsResponseSpelling hash_len summary message (canonical_response message) }
    ensures read { (hash_len : ℕ) (summary : Bool) (message : ResponseMessage)
        → FitsResponse message → IsSoundResponse hash_len summary message →
        response_in hash_len summary (canonical_response message) ≡ Some message }
{}

/// No encoding of a request is a proper prefix of another.
pub fn no_request_prefix()
    ensures { (hash_len : ℕ) (m n : RequestMessage) (bytes more : List ℕ) →
        IsRequestSpelling hash_len m bytes → IsRequestSpelling hash_len n (bytes ++ more)
        → more ≡ [] }
{}

/// No encoding of a response other than CHUNK_SEND_ACK and ERROR is a proper prefix of another.
pub fn no_response_prefix()
    ensures { (hash_len : ℕ) (summary : Bool) (m n : ResponseMessage) (bytes more : List ℕ)
        → EndsByItself m →
        IsResponseSpelling hash_len summary m bytes
        → IsResponseSpelling hash_len summary n (bytes ++ more) → more ≡ [] }
{}

/// A fault of a request other than `End` stays when more bytes come.
pub fn request_fault_stays()
    ensures { (hash_len : ℕ) (bytes more : List ℕ) (fault : Malformed) →
        request_fault hash_len bytes ≡ Some fault → fault.what ≢ End
        → request_fault hash_len (bytes ++ more) ≡ Some fault }
{}

/// A fault of a response other than `End` stays when more bytes come.
pub fn response_fault_stays()
    ensures { (hash_len : ℕ) (summary : Bool) (bytes more : List ℕ) (fault : Malformed) →
        response_fault hash_len summary bytes ≡ Some fault → fault.what ≢ End
        → response_fault hash_len summary (bytes ++ more) ≡ Some fault }
{}

/// What bytes encode is a request whose numbers fit their fields and that is sound.
pub fn spelled_request_is_sound()
    ensures { (hash_len : ℕ) (message : RequestMessage) (bytes : List ℕ) → ((i : ℕ)
        → slice_index bytes i < 256) →
        IsRequestSpelling hash_len message bytes
        → FitsRequest message × IsSoundRequest hash_len message }
{}

/// What bytes encode is a response whose numbers fit their fields and that is sound.
pub fn spelled_response_is_sound()
    ensures { (hash_len : ℕ) (summary : Bool) (message : ResponseMessage) (bytes : List ℕ)
        → ((i : ℕ) → slice_index bytes i < 256) →
        IsResponseSpelling hash_len summary message bytes
        → FitsResponse message × IsSoundResponse hash_len summary message }
{}
