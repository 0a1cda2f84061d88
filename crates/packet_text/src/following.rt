ghost use Rattle.std.specs.Prelude.{◌≡◌, [], map, IfOk, OnOk};
ghost use Rattle.capture_bodies.specs.Keeping.{Keeps, number_of};
ghost use Rattle.capture_records.specs.Ends.{eids_of, own_of};
ghost use Rattle.packet_text.specs.Shown.{contents_in};
ghost use Rattle.packet_text.specs.Styles.{written_by};

use crate::blocks::set_block;
use crate::json_blocks::set_object;
use crate::{Shown, Style};
use capture_bodies::{BodyBuffer, Gathering};
use capture_records::{Gathered, Hearing, Inside, way_of};
use script_text::ScriptConfig;
use spdm_basis::{Bytes, Eid, Frame, OutOfMemory, RecordFrame};
use std::alloc::Global;

/// What goes between the ends of a capture, and the last packet as it is written.
#[derive(Drop)]
pub(crate) struct Following {
    pub(crate) gathering: Gathering,
    pub(crate) hearing: Hearing,
    pub(crate) inside: Inside,
    // The last body that was whole, the last large message, the last inner message, and the last large message of records.
    body: BodyBuffer,
    whole: Frame,
    inner: RecordFrame,
    inner_whole: Frame,
    pub(crate) text: Bytes,
}

// The endpoints of the requesters.
fn eids_of(alloc: Global, config: &ScriptConfig) -> Result<Vec<Eid>, OutOfMemory>
    ensures { IfOk result (λ eids. map number_of eids.items ≡ eids_of config.now) }
{
    let requesters = config.requesters.as_slice();
    let Ok(mut eids) = Vec::with_capacity(alloc, requesters.len()) else {
        return Err(OutOfMemory);
    };
    for q in requesters {
        let Ok(()) = eids.push(q.eid) else {
            return Err(OutOfMemory);
        };
    }
    Ok(eids)
}

// The ends of a configuration, between which no packet came yet.
fn gathering_of(alloc: Global, config: &ScriptConfig) -> Result<Gathering, OutOfMemory>
    ensures { IfOk result (λ seen. Keeps seen (own_of config.now) (eids_of config.now) []) }
{
    let eids = eids_of(alloc, config)?;
    Gathering::new(alloc, config.responder.eid, eids.as_slice())
}

// Overwrites a text with what is written of a packet.
fn set_written(
    style: Style,
    config: &ScriptConfig,
    number: usize,
    packet: &[u8],
    shown: &Shown<'_>,
    text: &mut Bytes,
) -> Result<(), OutOfMemory>
    ensures { OnOk result (text.new ≡ written_by style config.now number packet.now
        (contents_in shown.now)) }
{
    match style {
        Style::Words => set_block(config, number, packet, shown, text),
        Style::Json => set_object(config, number, packet, shown, text),
    }
}

impl Following {
    ghost use Rattle.std.specs.Prelude.{◌≡◌, ◌∷◌, [], ℕ, List, IfOk, OnOk};
    ghost use Rattle.packet_text.specs.Following.{Follows};
    ghost use Rattle.packet_text.specs.Styles.{contents_of, written_by};

    /// Where no packet came yet.
    pub(crate) fn new(alloc: Global, config: &ScriptConfig) -> Result<Following, OutOfMemory>
        ensures { IfOk result (λ following. Follows following config.now []) }
    {
        Ok(Following {
            gathering: gathering_of(alloc, config)?,
            hearing: Hearing::new(alloc, config)?,
            inside: Inside::new(alloc, config)?,
            body: BodyBuffer::new(),
            whole: Frame::new(),
            inner: RecordFrame::new(),
            inner_whole: Frame::new(),
            text: Bytes::new(alloc),
        })
    }

    /// Overwrites the text with what is written of the next packet.
    pub(crate) fn follow(
        &mut self,
        alloc: Global,
        style: Style,
        config: &ScriptConfig,
        number: usize,
        packet: &[u8],
    ) -> Result<(), OutOfMemory>
        ensures text { (older : List (List ℕ)) → Follows self.old config.now older
            → OnOk result (self.new.text ≡ written_by style config.now number packet.now
            (contents_of config.now older packet.now)) }
        ensures follows { (older : List (List ℕ)) → Follows self.old config.now older
            → OnOk result (Follows self.new config.now (packet.now ∷ older)) }
    {
        let (came, part) = self
            .gathering
            .follow(packet, &mut self.body, &mut self.whole);
        let gathered = Gathered {
            came,
            body: self.body.as_slice(),
            part,
            whole: self.whole.as_slice(),
        };
        let way = way_of(config, packet);
        let sealed = self.hearing.follow(alloc, way, &gathered, &mut self.inner)?;
        let inner = self.inner.as_slice();
        let inner_part = self
            .inside
            .follow(way, sealed, inner, &mut self.inner_whole);
        let shown = Shown {
            came,
            body: gathered.body,
            part,
            whole: gathered.whole,
            sealed,
            inner,
            inner_part,
            inner_whole: self.inner_whole.as_slice(),
        };
        set_written(style, config, number, packet, &shown, &mut self.text)
    }
}
