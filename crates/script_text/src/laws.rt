ghost use Rattle.script_text.specs.Laws.{PrintedScriptIsRead, PrintedEventsAreRead};

/// What is printed of a script in range is read back as it was.
pub fn printed_script_is_read()
    ensures { PrintedScriptIsRead }
{}

/// Events that are printed after a text of a configuration are read back as they were.
pub fn printed_events_are_read()
    ensures { PrintedEventsAreRead }
{}
