ghost use Rattle.std.specs.Prelude.{◌≡◌, ◌≢◌};
ghost use Rattle.c_ends.specs.declared.codes.TheConstants.{HEADER, OK};
ghost use Rattle.mekurdai.specs.Layout.{built};

use c_attestor::{AttestorHandle, Verdict};
use c_ends::{
    Block, Change, KnownRequester, Message, PacketOutcome, RequesterConfig, RequesterHandle,
    ResponderConfig, ResponderHandle, Session, Watch, codes,
};

/// The sizes of the structs that C shares, in bytes.
#[repr(C)]
#[derive(Clone, Copy, Debug, PartialEq, Eq)]
pub struct Sizes {
    pub responder: usize,
    pub requester: usize,
    pub attestor: usize,
    pub responder_config: usize,
    pub requester_config: usize,
    pub known: usize,
    pub block: usize,
    pub told: usize,
    pub session: usize,
    pub message: usize,
    pub watch: usize,
    pub change: usize,
    pub verdict: usize,
}

impl Sizes {
    /// Those of this build.
    pub fn of_build() -> Sizes
        ensures { result ≡ built }
    {
        Sizes {
            responder: size_of::<ResponderHandle>(),
            requester: size_of::<RequesterHandle>(),
            attestor: size_of::<AttestorHandle>(),
            responder_config: size_of::<ResponderConfig<'_>>(),
            requester_config: size_of::<RequesterConfig<'_>>(),
            known: size_of::<KnownRequester<'_>>(),
            block: size_of::<Block<'_>>(),
            told: size_of::<PacketOutcome>(),
            session: size_of::<Session>(),
            message: size_of::<Message>(),
            watch: size_of::<Watch>(),
            change: size_of::<Change>(),
            verdict: size_of::<Verdict>(),
        }
    }
}

/// `OK` if a caller's structs have the sizes of this build, else `HEADER`.
#[unsafe(no_mangle)]
pub extern "C" fn spdm_sizes_fit(sizes: &Sizes) -> u32
    ensures fit { sizes.now ≡ built → result ≡ OK }
    ensures other { sizes.now ≢ built → result ≡ HEADER }
{
    if *sizes == Sizes::of_build() {
        codes::OK
    } else {
        codes::HEADER
    }
}

/// The most memory that opening a responder takes at any time, in bytes. Tested, and not proved.
#[unsafe(no_mangle)]
pub extern "C" fn spdm_responder_size(requesters: usize, blocks: usize, bytes: usize) -> usize {
    c_ends::responder_size(requesters, blocks, bytes)
}

/// The memory that a requester takes, in bytes. Tested, and not proved.
#[unsafe(no_mangle)]
pub extern "C" fn spdm_requester_size(bytes: usize) -> usize {
    c_ends::requester_size(bytes)
}

/// The most memory that opening an attestor takes at any time, in bytes. Tested, and not proved.
#[unsafe(no_mangle)]
pub extern "C" fn spdm_attestor_size(bytes: usize, rules: usize, values: usize) -> usize {
    c_attestor::attestor_size(bytes, rules, values)
}
