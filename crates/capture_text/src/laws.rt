ghost use Rattle.capture_text.specs.Laws.{CapturedPacketsFit, WrittenCaptureIsRead};

/// Lines of packets that are written after the text of a configuration are read back as these packets.
pub fn written_capture_is_read()
    ensures { WrittenCaptureIsRead }
{}

/// The packets of a text that is read as a capture have at most 8,000 bytes each, and are at most 100,000.
pub fn captured_packets_fit()
    ensures { CapturedPacketsFit }
{}
