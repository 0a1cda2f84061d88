ghost use Rattle.std.specs.Prelude.{◌≡◌, ◌≤◌, Some, length, slice_get};
ghost use Rattle.c_ends.specs.Writing.{IsWritten, over};

use crate::codes;
use mctp_framing::PacketList;

/// Overwrites the beginning of a room.
pub fn write_over(bytes: &[u8], room: &mut [u8])
    requires { length bytes.now ≤ length room.old }
    ensures { room.new ≡ over bytes.now room.old }
{
    room[..bytes.len()].copy_from_slice(bytes);
}

/// Writes bytes into a caller's room, and their length. Where they do not fit the length alone is written.
pub fn write_bytes(bytes: &[u8], room: &mut [u8], len: &mut usize) -> u32
    ensures { IsWritten (Some bytes.now) result room.old room.new len.old len.new }
{
    *len = bytes.len();
    if room.len() < bytes.len() {
        return codes::ROOM;
    }
    write_over(bytes, room);
    codes::OK
}

/// Writes the packet of an index.
pub fn write_packet(packets: &PacketList, index: usize, room: &mut [u8], len: &mut usize) -> u32
    ensures { IsWritten (slice_get packets.now index) result room.old room.new len.old len.new }
{
    match packets.get(index) {
        Some(packet) => write_bytes(packet, room, len),
        None => codes::NONE,
    }
}
