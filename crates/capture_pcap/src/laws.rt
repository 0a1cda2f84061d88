ghost use Rattle.capture_pcap.specs.Laws.{FileIsReadBack};

/// A capture that was written as a file, which then stands behind its configuration, is read back as it was.
pub fn file_is_read_back()
    ensures { FileIsReadBack }
{}
