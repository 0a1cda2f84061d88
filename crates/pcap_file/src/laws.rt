ghost use Rattle.pcap_file.specs.Laws.{WrittenFileIsRead};

/// A law: the packets of a file that `write_packets` wrote are read back from it, where each has at most 8,000 bytes
/// and they are at most 100,000. Does nothing.
pub fn written_file_is_read()
    ensures { WrittenFileIsRead }
{}
