ghost use Rattle.std.specs.Prelude.{◌≡◌, ◌≤◌, length};
ghost use Rattle.key_schedule.specs.Labels.{label_text, handshake_label, application_label};

use crate::Direction;

// What a value is derived for (DSP0274, "BinConcat": the strings bin_str0 to bin_str9).
#[derive(Clone, Copy, Debug, PartialEq, Eq)]
pub enum Label {
    RequestHandshake,
    ResponseHandshake,
    RequestData,
    ResponseData,
    Derived,
    Key,
    Iv,
    Finished,
    Update,
}

impl Label {
    // The text of the label, in ASCII.
    pub fn text(self) -> &'static [u8]
        ensures value { result.now ≡ label_text self }
        ensures short { length result.now ≤ 12 }
    {
        match self {
            Label::RequestHandshake => b"req hs data",
            Label::ResponseHandshake => b"rsp hs data",
            Label::RequestData => b"req app data",
            Label::ResponseData => b"rsp app data",
            Label::Derived => b"derived",
            Label::Key => b"key",
            Label::Iv => b"iv",
            Label::Finished => b"finished",
            Label::Update => b"traffic upd",
        }
    }

    // The label of a direction's secret during the handshake.
    pub fn of_handshake(direction: Direction) -> Label
        ensures { result ≡ handshake_label direction }
    {
        match direction {
            Direction::Request => Label::RequestHandshake,
            Direction::Response => Label::ResponseHandshake,
        }
    }

    // The label of a direction's secret after the handshake.
    pub fn of_application(direction: Direction) -> Label
        ensures { result ≡ application_label direction }
    {
        match direction {
            Direction::Request => Label::RequestData,
            Direction::Response => Label::ResponseData,
        }
    }
}
