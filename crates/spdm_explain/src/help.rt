ghost use Rattle.std.specs.Prelude.{◌≡◌};
ghost use Rattle.spdm_explain.specs.Help.{name_of, help_of};

use script_text::LineFault;

/// The name of a fault.
pub fn name_of(fault: LineFault) -> &'static str
    ensures { result.now ≡ name_of fault }
{
    match fault {
        LineFault::LineTooLong => "LineTooLong",
        LineFault::Unknown => "Unknown",
        LineFault::Order => "Order",
        LineFault::Words => "Words",
        LineFault::Number => "Number",
        LineFault::Hex => "Hex",
        LineFault::Flags => "Flags",
        LineFault::TooMany => "TooMany",
        LineFault::Twice => "Twice",
        LineFault::SameEid => "SameEid",
        LineFault::SamePsk => "SamePsk",
        LineFault::Block => "Block",
        LineFault::NoSuchEnd => "NoSuchEnd",
        LineFault::Incomplete => "Incomplete",
        LineFault::TooManyEvents => "TooManyEvents",
    }
}

/// A sentence of help for a fault.
pub fn help_of(fault: LineFault) -> &'static str
    ensures { result.now ≡ help_of fault }
{
    match fault {
        LineFault::LineTooLong => "A line has at most 16,384 bytes, also where it is a comment.",
        LineFault::Unknown => {
            "The line begins with no word that a line of this text may begin with."
        }
        LineFault::Order => {
            "Lines of the configuration stand before `end`, and all others behind it."
        }
        LineFault::Words => {
            "The line has another count of words, or a word that may not stand there; words stand between single spaces."
        }
        LineFault::Number => {
            "A word is no decimal number without leading zeros, or is out of its range."
        }
        LineFault::Hex => {
            "A word is no pairs of hexadecimal digits and no hyphen, or has too few or too many bytes."
        }
        LineFault::Flags => {
            "Capabilities are a hyphen or letters of mhkc in this order, MAX above TRANSFER needs c, and algorithms have their own names."
        }
        LineFault::TooMany => "A configuration has at most eight requesters.",
        LineFault::Twice => "This was said before, and may be said once.",
        LineFault::SameEid => "Another end has this end point.",
        LineFault::SamePsk => "Another requester has this pre-shared key.",
        LineFault::Block => {
            "All blocks together have at most 4,054 bytes, seven for each and those of its value."
        }
        LineFault::NoSuchEnd => "The requester is not configured, or not yet.",
        LineFault::Incomplete => {
            "A responder, a requester or a seed is missing at `end`, or the text ends too early."
        }
        LineFault::TooManyEvents => "A text has at most 100,000 events or packets.",
    }
}
