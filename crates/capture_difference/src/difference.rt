use crate::Spot;
use spdm_grammar::Why;

/// A byte of which another value is enough: with it all packets conform up to the first that does not.
#[derive(Clone, Copy, Debug, PartialEq, Eq)]
pub struct WrongByte {
    /// The number of its packet, counted from 1.
    pub packet: usize,
    /// Its place in the packet, counted from 0.
    pub place: usize,
    /// The byte that came.
    pub came: u8,
    /// The one with which the packets conform.
    pub conforms: u8,
    /// Where it stands in the packet that conforms.
    pub spot: Spot,
}

/// The first packet of a capture that does not conform.
#[derive(Clone, Copy, Debug, PartialEq, Eq)]
pub struct Difference {
    /// Its number, counted from 1.
    pub packet: u32,
    /// Why it does not conform.
    pub why: Why,
    /// A byte of which another value is enough, if one was found.
    pub byte: Option<WrongByte>,
}
