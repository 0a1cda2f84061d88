ghost use Rattle.std.specs.Prelude.{◌<◌, IfOk};

use crate::case_error::CaseError;
use crate::directive::first_word;

/// A change of the packets of a capture, counted from 1.
#[derive(Clone, Copy)]
pub enum Change {
    /// `set N AT BYTE`: a byte of a packet is another.
    Set { packet: usize, at: usize, byte: u8 },
    /// `remove N`
    Remove(usize),
    /// `double N`
    Double(usize),
    /// `exchange N M`
    Exchange(usize, usize),
    /// `insert N M`: packet N comes once more, as packet M.
    Insert { packet: usize, at: usize },
    /// `cut N SIZE`: a packet is cut to a length.
    Cut { packet: usize, size: usize },
}

/// The number in a word.
pub fn number_in(word: &str) -> Result<usize, CaseError> {
    word.parse::<usize>().map_err(|_| CaseError::BadLine)
}

impl Change {
    pub fn of(word: &str, rest: &str) -> Result<Change, CaseError> {
        let (first, behind) = first_word(rest);
        let packet = number_in(first)?;
        let (second, third) = first_word(behind);
        Ok(match word {
            "remove" => Change::Remove(packet),
            "double" => Change::Double(packet),
            "exchange" => Change::Exchange(packet, number_in(second)?),
            "insert" => Change::Insert {
                packet,
                at: number_in(second)?,
            },
            "cut" => Change::Cut {
                packet,
                size: number_in(second)?,
            },
            "set" => Change::Set {
                packet,
                at: number_in(second)?,
                byte: u8::try_from(number_in(third)?).map_err(|_| CaseError::BadLine)?,
            },
            _ => return Err(CaseError::BadLine),
        })
    }

    /// Makes the change.
    pub fn make(self, packets: &mut Vec<Vec<u8>>) -> Result<(), CaseError> {
        match self {
            Change::Set { packet, at, byte } => {
                let bytes = packet_of(packets, packet)?;
                *bytes.get_mut(at).ok_or(CaseError::BadLine)? = byte;
                Ok(())
            }
            Change::Remove(packet) => {
                drop(packets.remove(place_of(packets.len(), packet)?));
                Ok(())
            }
            Change::Double(packet) => insert(packets, packet, packet),
            Change::Exchange(packet, other) => exchange(packets, packet, other),
            Change::Insert { packet, at } => insert(packets, packet, at),
            Change::Cut { packet, size } => {
                packet_of(packets, packet)?.truncate(size);
                Ok(())
            }
        }
    }
}

// Has two packets change their places.
fn exchange(packets: &mut Vec<Vec<u8>>, packet: usize, other: usize) -> Result<(), CaseError> {
    let place = place_of(packets.len(), packet)?;
    let other = place_of(packets.len(), other)?;
    packets.swap(place, other);
    Ok(())
}

// A packet once more, as the one of another number, or behind all where there are fewer.
fn insert(packets: &mut Vec<Vec<u8>>, packet: usize, at: usize) -> Result<(), CaseError> {
    let place = place_of(packets.len(), packet)?;
    let again = packets[place].clone()?;
    let at = at.saturating_sub(1).min(packets.len());
    packets.insert(at, again)?;
    Ok(())
}

fn packet_of(packets: &mut Vec<Vec<u8>>, packet: usize) -> Result<&mut Vec<u8>, CaseError> {
    let place = place_of(packets.len(), packet)?;
    packets.get_mut(place).ok_or(CaseError::BadLine)
}

// The place of a packet of so many, which is there.
fn place_of(count: usize, packet: usize) -> Result<usize, CaseError>
    ensures { IfOk result (λ place. place < count) }
{
    let place = packet.checked_sub(1).ok_or(CaseError::BadLine)?;
    if place < count {
        Ok(place)
    } else {
        Err(CaseError::BadLine)
    }
}

/// The lines of a script up to `end`.
pub fn configuration_of(script: &str) -> &str {
    match script.find("\nend\n") {
        Some(at) => script.get(..at.saturating_add(5)).unwrap_or(script),
        None => script,
    }
}

/// The packets in the lines of a trace.
pub fn packets_of(rt: &impl AllocGlobal, trace: &str) -> Result<Vec<Vec<u8>>, CaseError> {
    let mut packets = Vec::new(rt.alloc());
    for line in trace.lines() {
        if line.starts_with("packet ") {
            let digits = line.rsplit(' ').next().unwrap_or("");
            packets.push(hex::decode(rt.alloc(), digits)?)?;
        }
    }
    Ok(packets)
}
