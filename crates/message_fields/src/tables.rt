ghost use Rattle.std.specs.Prelude.{◌≡◌, ◌≤◌, ◌-◌, length};
ghost use Rattle.spdm_grammar.specs.Message.{chunk_message, request_message, response_message};
ghost use Rattle.message_fields.specs.Tables.{chunk_fields, field, large_size, record_fields, request_fields, response_fields};

use crate::{Field, FieldList, Name};
use arrayvec::ArrayVec;
use spdm_grammar::{ChunkView, Request, Response};

// A field of this name, of so many bytes.
fn field(name: Name, size: usize) -> Field
    ensures { result ≡ field name size }
{
    Field { name, size }
}

// A list of these fields.
fn listed(fields: &[Field]) -> FieldList
    requires { length fields.now ≤ 20 }
    ensures { result.items ≡ fields.now }
{
    let mut list = ArrayVec::new();
    list.try_extend_from_slice(fields).unwrap();
    list
}

// The size of the field that tells the size of a large message.
fn large_size(large: Option<u32>) -> usize
    ensures { result ≡ large_size large }
{
    match large {
        None => 0,
        Some(_) => 4,
    }
}

// The fields of a chunk.
fn chunk_fields(chunk: &ChunkView<'_>) -> FieldList
    ensures { result.items ≡ chunk_fields (chunk_message chunk.now) }
{
    listed(&[
        field(Name::SpdmVersion, 1),
        field(Name::Code, 1),
        field(Name::Attributes, 1),
        field(Name::Handle, 1),
        field(Name::ChunkSeqNo, 2),
        field(Name::Reserved, 2),
        field(Name::ChunkSize, 4),
        field(Name::LargeMessageSize, large_size(chunk.large)),
        field(Name::Chunk, chunk.chunk.len()),
    ])
}

/// The fields of a request.
pub fn request_fields(request: &Request<'_>) -> FieldList
    ensures { result.items ≡ request_fields (request_message request.now) }
{
    match request {
        Request::GetVersion => listed(&[
            field(Name::SpdmVersion, 1),
            field(Name::Code, 1),
            field(Name::Param1, 1),
            field(Name::Param2, 1),
        ]),
        Request::GetCapabilities(_) => listed(&[
            field(Name::SpdmVersion, 1),
            field(Name::Code, 1),
            field(Name::Param1, 1),
            field(Name::Param2, 1),
            field(Name::Reserved, 1),
            field(Name::CtExponent, 1),
            field(Name::Reserved, 2),
            field(Name::Flags, 4),
            field(Name::DataTransferSize, 4),
            field(Name::MaxMessageSize, 4),
        ]),
        Request::NegotiateAlgorithms(offer) => listed(&[
            field(Name::SpdmVersion, 1),
            field(Name::Code, 1),
            field(Name::StructureCount, 1),
            field(Name::Param2, 1),
            field(Name::Length, 2),
            field(Name::MeasurementSpecification, 1),
            field(Name::OtherParamsSupport, 1),
            field(Name::BaseAsymAlgo, 4),
            field(Name::BaseHashAlgo, 4),
            field(Name::Reserved, 12),
            field(Name::ExtAsymCount, 1),
            field(Name::ExtHashCount, 1),
            field(Name::Reserved, 2),
            field(Name::ExtAsym, offer.ext_asym.len()),
            field(Name::ExtHash, offer.ext_hash.len()),
            field(Name::ReqAlgStruct, offer.tables.len()),
        ]),
        Request::GetMeasurements { .. } => listed(&[
            field(Name::SpdmVersion, 1),
            field(Name::Code, 1),
            field(Name::Attributes, 1),
            field(Name::Operation2, 1),
        ]),
        Request::PskExchange(exchange) => listed(&[
            field(Name::SpdmVersion, 1),
            field(Name::Code, 1),
            field(Name::SummaryType, 1),
            field(Name::SessionPolicy, 1),
            field(Name::ReqSessionId, 2),
            field(Name::PskHintLength, 2),
            field(Name::RequesterContextLength, 2),
            field(Name::OpaqueDataLength, 2),
            field(Name::PskHint, exchange.hint.len()),
            field(Name::RequesterContext, exchange.context.len()),
            field(Name::OpaqueData, exchange.opaque.len()),
        ]),
        Request::PskFinish { verify } => listed(&[
            field(Name::SpdmVersion, 1),
            field(Name::Code, 1),
            field(Name::Param1, 1),
            field(Name::Param2, 1),
            field(Name::RequesterVerifyData, verify.len()),
        ]),
        Request::Heartbeat => listed(&[
            field(Name::SpdmVersion, 1),
            field(Name::Code, 1),
            field(Name::Param1, 1),
            field(Name::Param2, 1),
        ]),
        Request::KeyUpdate { .. } => listed(&[
            field(Name::SpdmVersion, 1),
            field(Name::Code, 1),
            field(Name::Operation1, 1),
            field(Name::Tag, 1),
        ]),
        Request::EndSession => listed(&[
            field(Name::SpdmVersion, 1),
            field(Name::Code, 1),
            field(Name::Attributes, 1),
            field(Name::Param2, 1),
        ]),
        Request::ChunkSend(chunk) => chunk_fields(chunk),
        Request::ChunkGet { .. } => listed(&[
            field(Name::SpdmVersion, 1),
            field(Name::Code, 1),
            field(Name::Param1, 1),
            field(Name::Handle, 1),
            field(Name::ChunkSeqNo, 2),
        ]),
    }
}

/// The fields of a response.
pub fn response_fields(response: &Response<'_>) -> FieldList
    ensures { result.items ≡ response_fields (response_message response.now) }
{
    match response {
        Response::Version { entries } => listed(&[
            field(Name::SpdmVersion, 1),
            field(Name::Code, 1),
            field(Name::Param1, 1),
            field(Name::Param2, 1),
            field(Name::Reserved, 1),
            field(Name::VersionEntryCount, 1),
            field(Name::VersionEntries, entries.len()),
        ]),
        Response::Capabilities(_) => listed(&[
            field(Name::SpdmVersion, 1),
            field(Name::Code, 1),
            field(Name::Param1, 1),
            field(Name::Param2, 1),
            field(Name::Reserved, 1),
            field(Name::CtExponent, 1),
            field(Name::Reserved, 2),
            field(Name::Flags, 4),
            field(Name::DataTransferSize, 4),
            field(Name::MaxMessageSize, 4),
        ]),
        Response::Algorithms(reply) => listed(&[
            field(Name::SpdmVersion, 1),
            field(Name::Code, 1),
            field(Name::StructureCount, 1),
            field(Name::Param2, 1),
            field(Name::Length, 2),
            field(Name::MeasurementSpecificationSel, 1),
            field(Name::OtherParamsSelection, 1),
            field(Name::MeasurementHashAlgo, 4),
            field(Name::BaseAsymSel, 4),
            field(Name::BaseHashSel, 4),
            field(Name::Reserved, 12),
            field(Name::ExtAsymSelCount, 1),
            field(Name::ExtHashSelCount, 1),
            field(Name::Reserved, 2),
            field(Name::ExtAsymSel, reply.ext_asym.len()),
            field(Name::ExtHashSel, reply.ext_hash.len()),
            field(Name::RespAlgStruct, reply.tables.len()),
        ]),
        Response::Measurements(measured) => listed(&[
            field(Name::SpdmVersion, 1),
            field(Name::Code, 1),
            field(Name::TotalBlocks, 1),
            field(Name::Param2, 1),
            field(Name::NumberOfBlocks, 1),
            field(Name::RecordLength, 3),
            field(Name::RecordData, measured.block_bytes.len()),
            field(Name::Nonce, 32),
            field(Name::OpaqueDataLength, 2),
            field(Name::OpaqueData, measured.opaque.len()),
        ]),
        Response::PskExchangeRsp(exchange) => listed(&[
            field(Name::SpdmVersion, 1),
            field(Name::Code, 1),
            field(Name::HeartbeatPeriod, 1),
            field(Name::Param2, 1),
            field(Name::RspSessionId, 2),
            field(Name::Reserved, 2),
            field(Name::ResponderContextLength, 2),
            field(Name::OpaqueDataLength, 2),
            field(Name::MeasurementSummaryHash, exchange.summary.len()),
            field(Name::ResponderContext, exchange.context.len()),
            field(Name::OpaqueData, exchange.opaque.len()),
            field(Name::ResponderVerifyData, exchange.verify.len()),
        ]),
        Response::PskFinishRsp => listed(&[
            field(Name::SpdmVersion, 1),
            field(Name::Code, 1),
            field(Name::Param1, 1),
            field(Name::Param2, 1),
        ]),
        Response::HeartbeatAck => listed(&[
            field(Name::SpdmVersion, 1),
            field(Name::Code, 1),
            field(Name::Param1, 1),
            field(Name::Param2, 1),
        ]),
        Response::KeyUpdateAck { .. } => listed(&[
            field(Name::SpdmVersion, 1),
            field(Name::Code, 1),
            field(Name::Operation1, 1),
            field(Name::Tag, 1),
        ]),
        Response::EndSessionAck => listed(&[
            field(Name::SpdmVersion, 1),
            field(Name::Code, 1),
            field(Name::Param1, 1),
            field(Name::Param2, 1),
        ]),
        Response::ChunkSendAck { response, .. } => listed(&[
            field(Name::SpdmVersion, 1),
            field(Name::Code, 1),
            field(Name::Attributes, 1),
            field(Name::Handle, 1),
            field(Name::ChunkSeqNo, 2),
            field(Name::LargeResponse, response.len()),
        ]),
        Response::ChunkResponse(chunk) => chunk_fields(chunk),
        Response::Error { extended, .. } => listed(&[
            field(Name::SpdmVersion, 1),
            field(Name::Code, 1),
            field(Name::ErrorCode, 1),
            field(Name::ErrorData, 1),
            field(Name::ExtendedErrorData, extended.len()),
        ]),
    }
}

/// The fields of a record of so many bytes.
pub fn record_fields(count: usize) -> FieldList
    ensures { result.items ≡ record_fields count }
{
    listed(&[
        field(Name::ReqSessionId, 2),
        field(Name::RspSessionId, 2),
        field(Name::SequenceNumber, 2),
        field(Name::RecordSize, 2),
        field(Name::EncryptedData, count.saturating_sub(24)),
        field(Name::Mac, 16),
    ])
}
