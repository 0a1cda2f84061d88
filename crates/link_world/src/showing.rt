ghost use Rattle.std.specs.Prelude.{◌≤◌, ◌∷◌, [], OnErr, OnOk};
ghost use Rattle.link_world.specs.Showing.{asker_lines};
ghost use Rattle.link_world.specs.Standing.{IsAsker};
ghost use Rattle.link_world.specs.Written.{text_of};
ghost use Rattle.requester_machine.specs.Requesting.{Requesting};
ghost use Rattle.responder.specs.Standing as answering;
ghost use Rattle.responder_machine.specs.Responding.{Responding, connection_of};
ghost use Rattle.trace_text.specs.Whose.{whose_of};
ghost use Rattle.spdm_basis.specs.Stream.{HasFault, Takes, TakesPrefix};
ghost use Rattle.spdm_grammar.specs.Lines.Line.{Session, State};
ghost use Rattle.world_machine.specs.World.{connection_lines, session_lines};

use crate::ends::{AddressedRequester, Ends};
use responder::Responder;
use script_text::{line_session, line_state};
use spdm_basis::{Eid, Line, OutFault, Sink, write_all};
use spdm_grammar::{Phase, SessionView};

// Writes the phase of an end.
fn show_phase<K: Sink>(q: u8, responder: bool, phase: Phase, sink: &mut K) -> Result<(), OutFault>
    ensures whole { OnOk result (Takes (K.contents sink.old)
        (text_of (State (whose_of q responder) phase ∷ [])) (K.contents sink.new)) }
    ensures prefix { OnErr result (TakesPrefix (K.contents sink.old)
        (text_of (State (whose_of q responder) phase ∷ [])) (K.contents sink.new)) }
    ensures fault { OnErr result (HasFault (K.faults sink.old) (K.faults sink.new)) }
    ensures later { K.faults sink.old ≤ K.faults sink.new }
{
    let mut line = Line::new();
    line_state(q, responder, phase, &mut line);
    write_all(sink, line.as_slice())
}

// Writes a session of an end.
fn show_session<K: Sink>(
    q: u8,
    responder: bool,
    view: &SessionView,
    sink: &mut K,
) -> Result<(), OutFault>
    ensures whole { OnOk result (Takes (K.contents sink.old)
        (text_of (Session (whose_of q responder) view.now ∷ [])) (K.contents sink.new)) }
    ensures prefix { OnErr result (TakesPrefix (K.contents sink.old)
        (text_of (Session (whose_of q responder) view.now ∷ [])) (K.contents sink.new)) }
    ensures fault { OnErr result (HasFault (K.faults sink.old) (K.faults sink.new)) }
    ensures later { K.faults sink.old ≤ K.faults sink.new }
{
    let mut line = Line::new();
    line_session(q, responder, view, &mut line);
    write_all(sink, line.as_slice())
}

// Writes the sessions of an end.
fn show_sessions<K: Sink>(
    q: u8,
    responder: bool,
    views: &[SessionView],
    sink: &mut K,
) -> Result<(), OutFault>
    ensures whole { OnOk result (Takes (K.contents sink.old)
        (text_of (session_lines (whose_of q responder) views.now)) (K.contents sink.new)) }
    ensures prefix { OnErr result (TakesPrefix (K.contents sink.old)
        (text_of (session_lines (whose_of q responder) views.now)) (K.contents sink.new)) }
    ensures fault { OnErr result (HasFault (K.faults sink.old) (K.faults sink.new)) }
    ensures later { K.faults sink.old ≤ K.faults sink.new }
{
    for view in views {
        show_session(q, responder, view, sink)?;
    }
    Ok(())
}

// Writes the phase and the sessions of requester `q`.
fn show_asker<K: Sink>(q: u8, asker: &AddressedRequester, sink: &mut K) -> Result<(), OutFault>
    ensures whole { (a : Requesting) → IsAsker asker.now a → OnOk result
        (Takes (K.contents sink.old) (text_of (asker_lines q a)) (K.contents sink.new)) }
    ensures prefix { (a : Requesting) → IsAsker asker.now a → OnErr result
        (TakesPrefix (K.contents sink.old) (text_of (asker_lines q a)) (K.contents sink.new)) }
    ensures fault { OnErr result (HasFault (K.faults sink.old) (K.faults sink.new)) }
    ensures later { K.faults sink.old ≤ K.faults sink.new }
{
    let own = &asker.requester;
    show_phase(q, false, own.phase(), sink)?;
    show_sessions(q, false, own.sessions().as_slice(), sink)
}

// Writes the phase and the sessions of the responder towards the requester of an endpoint.
fn show_towards<K: Sink>(
    q: u8,
    eid: Eid,
    responder: &Responder,
    sink: &mut K,
) -> Result<(), OutFault>
    ensures whole { (r : Responding) → answering.StandsFor responder.now r → OnOk result
        (Takes (K.contents sink.old)
        (text_of (connection_lines q (connection_of eid.number r.connections)))
        (K.contents sink.new)) }
    ensures prefix { (r : Responding) → answering.StandsFor responder.now r → OnErr result
        (TakesPrefix (K.contents sink.old)
        (text_of (connection_lines q (connection_of eid.number r.connections)))
        (K.contents sink.new)) }
    ensures fault { OnErr result (HasFault (K.faults sink.old) (K.faults sink.new)) }
    ensures later { K.faults sink.old ≤ K.faults sink.new }
{
    let Some(phase) = responder.phase(eid) else {
        return Ok(());
    };
    show_phase(q, true, phase, sink)?;
    show_sessions(q, true, responder.sessions(eid).as_slice(), sink)
}

impl Ends {
    ghost use Rattle.std.specs.Prelude.{◌≤◌, OnErr, OnOk};
    ghost use Rattle.link_world.specs.Standing.{AreEnds};
    ghost use Rattle.link_world.specs.Written.{text_of};
    ghost use Rattle.spdm_basis.specs.Stream.{HasFault, Takes, TakesPrefix};
    ghost use Rattle.world_machine.specs.World.{World, shown_lines};

    /// Writes the lines that show the endpoints. Never allocates (read, not proved).
    pub(crate) fn show<K: Sink>(&self, sink: &mut K) -> Result<(), OutFault>
        ensures whole { (w : World) → AreEnds self.now w → OnOk result
            (Takes (K.contents sink.old) (text_of (shown_lines w)) (K.contents sink.new)) }
        ensures prefix { (w : World) → AreEnds self.now w → OnErr result
            (TakesPrefix (K.contents sink.old) (text_of (shown_lines w)) (K.contents sink.new)) }
        ensures fault { OnErr result (HasFault (K.faults sink.old) (K.faults sink.new)) }
        ensures later { K.faults sink.old ≤ K.faults sink.new }
    {
        let mut q: u8 = 0;
        for asker in self.requesters.as_slice() {
            q = q.wrapping_add(1);
            show_asker(q, asker, sink)?;
            show_towards(q, asker.eid, &self.responder, sink)?;
        }
        Ok(())
    }
}
