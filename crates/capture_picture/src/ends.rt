ghost use Rattle.std.specs.Prelude.{◌≡◌, ◌≤◌};
ghost use Rattle.std.specs.List.{position_from};
ghost use Rattle.capture_picture.specs.Arrows.{end_of, few, has_eid, place_or_other, requesters_of};

use script_text::ScriptConfig;

// The most ends that a picture counts; a configuration has at most eight requesters.
const MOST_ENDS: usize = 200;

// A number of ends, as a picture counts them.
fn few(count: usize) -> u8
    ensures value { result ≡ few count }
    ensures most { result ≤ 200 }
{
    if count < MOST_ENDS { count as u8 } else { 200 }
}

/// How many requesters a configuration has.
pub fn requesters_of(config: &ScriptConfig) -> u8
    ensures value { result ≡ requesters_of config.now }
    ensures most { result ≤ 200 }
{
    few(config.requesters.as_slice().len())
}

// The place of the requester with this endpoint, if there is one.
fn place_of(config: &ScriptConfig, eid: u8) -> Option<usize>
    ensures { result ≡ position_from (has_eid eid) 0 config.now.requesters }
{
    config
        .requesters
        .as_slice()
        .iter()
        .position(|q| q.eid.number() == eid)
}

// A requester, or any other end.
fn place_or_other(config: &ScriptConfig, place: Option<usize>) -> u8
    ensures { result ≡ place_or_other config.now place }
{
    match place {
        Some(place) => few(place),
        None => requesters_of(config) + 1,
    }
}

/// The end with this endpoint, counted from 0: the requesters in order, then the responder, and then any other end.
pub fn end_of(config: &ScriptConfig, eid: u8) -> u8
    ensures { result ≡ end_of config.now eid }
{
    if config.responder.eid.number() == eid {
        requesters_of(config)
    } else {
        place_or_other(config, place_of(config, eid))
    }
}
