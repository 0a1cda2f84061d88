ghost use Rattle.std.specs.Prelude.{◌≡◌, Bool};
ghost use Rattle.check_responder.specs.Opening.{IsByKey, IsOpening};

use crate::answer_keys::opens_by;
use crate::prepared_request::PreparedRequest;
use spdm_basis::RecordFrame;

/// Whether an answer opens, as far as it is known before it is judged.
#[derive(Clone, Copy, Debug, PartialEq, Eq)]
pub enum Opening {
    /// This is told of it.
    Told(bool),
    /// It opens exactly when it does under the key that is known from its request.
    ByKey,
}

// Whether a record opens under the key that is known from a request. `room` is scratch space.
fn opens_coming(coming: &PreparedRequest, sealed: &[u8], room: &mut RecordFrame) -> bool
    ensures { (is : Bool) → IsByKey coming.now.key sealed.now is → result ≡ is }
{
    match &coming.key {
        Some(key) => opens_by(key, sealed, room),
        None => false,
    }
}

/// Whether a record opens, by what was determined of it before and what is known of its request. `room` is scratch
/// space.
pub(crate) fn opens_so(
    told: Opening,
    coming: &PreparedRequest,
    sealed: &[u8],
    room: &mut RecordFrame,
) -> bool
    ensures { (is : Bool) → IsOpening coming.now sealed.now told is → result ≡ is }
{
    match told {
        Opening::Told(opens) => opens,
        Opening::ByKey => opens_coming(coming, sealed, room),
    }
}
