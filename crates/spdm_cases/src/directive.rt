use crate::capture::Change;
use crate::case_error::CaseError;

/// What a line asks for. Numbers of packets are counted from 1.
#[derive(Clone, Copy)]
pub enum Directive<'a> {
    /// `case NAME WORD ..`: another case begins, of these words of the command.
    Case { name: &'a str, words: &'a str },
    /// `file PATH`: the bytes of a file are input.
    File(&'a str),
    /// `text LINE`: a line is input.
    Text(&'a str),
    /// `hex DIGITS`: bytes are input.
    Hex(&'a str),
    /// `seed DIGITS`: one more seed that may be taken.
    Seed(&'a str),
    /// `device DIGITS`: the keeper holds these 18 bytes, and what it holds after the case is told.
    Device(&'a str),
    /// `slowly`: each read gives one byte.
    Slowly,
    /// `capture NAME`: the configuration of a script, and the packets of its trace, are input.
    Capture(&'a str),
    /// `set`, `remove`, `double`, `exchange`, `insert`, `cut`: the packets of the capture are changed.
    Change(Change),
    /// `go`: the case is run.
    Go,
    /// `codes HEADER`: the case is run with a message of four bytes of each code injected behind its input.
    Codes(&'a str),
    /// `fields PACKET PLACE:SIZE ..`: with a packet whose fields are wrong.
    Fields { packet: &'a str, fields: &'a str },
    /// `cuts PACKET`: with a packet at each shorter length.
    Cuts(&'a str),
    /// An empty line, or one that begins with `#`.
    Nothing,
}

/// The first word of a line, and what stands behind it.
pub fn first_word(line: &str) -> (&str, &str) {
    line.split_once(' ').unwrap_or((line, ""))
}

impl<'a> Directive<'a> {
    pub fn of(line: &'a str) -> Result<Directive<'a>, CaseError> {
        if line.is_empty() || line.starts_with('#') {
            return Ok(Directive::Nothing);
        }
        let (word, rest) = first_word(line);
        Ok(match word {
            "case" => {
                let (name, words) = first_word(rest);
                Directive::Case { name, words }
            }
            "file" => Directive::File(rest),
            "text" => Directive::Text(rest),
            "hex" => Directive::Hex(rest),
            "seed" => Directive::Seed(rest),
            "device" => Directive::Device(rest),
            "slowly" => Directive::Slowly,
            "capture" => Directive::Capture(rest),
            "go" => Directive::Go,
            "codes" => Directive::Codes(rest),
            "fields" => {
                let (packet, fields) = first_word(rest);
                Directive::Fields { packet, fields }
            }
            "cuts" => Directive::Cuts(rest),
            _ => Directive::Change(Change::of(word, rest)?),
        })
    }
}
