ghost use Rattle.std.specs.Prelude.{◌≡◌, ◌≤◌, OnErr, OnOk};
ghost use Rattle.check_laws.specs.Verdict.{seen_of};
ghost use Rattle.spdm_basis.specs.Stream.{HasFault, Takes, TakesPrefix};
ghost use Rattle.trace_check.specs.Lines.{entries_text, entry_text, verdict_text};

use check_laws::{Seen, SessionTable, Verdict, Why};
use script_text::{line_conforms, line_differs, line_seen};
use spdm_basis::{Line, OutFault, Sink, write_all};

// Overwrites `out` with the line of an entry.
fn line_of(seen: &Seen, out: &mut Line)
    ensures { out.new ≡ entry_text (seen_of seen.now) }
{
    line_seen(
        seen.requester,
        seen.id,
        seen.stage,
        &seen.hash,
        seen.sent,
        seen.answered,
        out,
    );
}

// Writes the lines of the entries of a table.
fn write_entries<K: Sink>(entries: &[Seen], sink: &mut K) -> Result<(), OutFault>
    ensures whole { OnOk result (Takes (K.contents sink.old) (entries_text entries.now)
        (K.contents sink.new)) }
    ensures prefix { TakesPrefix (K.contents sink.old) (entries_text entries.now)
        (K.contents sink.new) }
    ensures fault { OnErr result (HasFault (K.faults sink.old) (K.faults sink.new)) }
    ensures later { K.faults sink.old ≤ K.faults sink.new }
{
    let mut line = Line::new();
    for seen in entries {
        line_of(seen, &mut line);
        write_all(sink, line.as_slice())?;
    }
    Ok(())
}

// Writes that a capture conforms, and its table.
fn write_table<K: Sink>(table: &SessionTable, sink: &mut K) -> Result<(), OutFault>
    ensures whole { OnOk result (Takes (K.contents sink.old)
        (verdict_text (Verdict.Conforms table.now)) (K.contents sink.new)) }
    ensures prefix { TakesPrefix (K.contents sink.old) (verdict_text (Verdict.Conforms table.now))
        (K.contents sink.new) }
    ensures fault { OnErr result (HasFault (K.faults sink.old) (K.faults sink.new)) }
    ensures later { K.faults sink.old ≤ K.faults sink.new }
{
    let mut line = Line::new();
    line_conforms(&mut line);
    write_all(sink, line.as_slice())?;
    write_entries(table.as_slice(), sink)
}

// Writes that this packet is the first that differs, and why.
fn write_difference<K: Sink>(packet: u32, why: Why, sink: &mut K) -> Result<(), OutFault>
    ensures whole { OnOk result (Takes (K.contents sink.old)
        (verdict_text (Verdict.Differs packet why)) (K.contents sink.new)) }
    ensures prefix { TakesPrefix (K.contents sink.old) (verdict_text (Verdict.Differs packet why))
        (K.contents sink.new) }
    ensures fault { OnErr result (HasFault (K.faults sink.old) (K.faults sink.new)) }
    ensures later { K.faults sink.old ≤ K.faults sink.new }
{
    let mut line = Line::new();
    line_differs(packet, why, &mut line);
    write_all(sink, line.as_slice())?;
    Ok(())
}

/// Writes the lines of a verdict: `conforms` and an entry for each session, or `differs` with the number of the packet
/// and the reason. Never allocates (read, not proved). An `Err` comes only where the sink failed, after a part of the
/// lines.
pub fn write_verdict<K: Sink>(verdict: &Verdict, sink: &mut K) -> Result<(), OutFault>
    ensures whole { OnOk result (Takes (K.contents sink.old) (verdict_text verdict.now)
        (K.contents sink.new)) }
    ensures prefix { TakesPrefix (K.contents sink.old) (verdict_text verdict.now)
        (K.contents sink.new) }
    ensures fault { OnErr result (HasFault (K.faults sink.old) (K.faults sink.new)) }
    ensures later { K.faults sink.old ≤ K.faults sink.new }
{
    match verdict {
        Verdict::Conforms(table) => write_table(table, sink),
        Verdict::Differs { packet, why } => write_difference(*packet, *why, sink),
    }
}
