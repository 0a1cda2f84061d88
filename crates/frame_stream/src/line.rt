ghost use Rattle.std.specs.Prelude.{◌≡◌, ◌≢◌, ◌≤◌, ◌<◌, ◌==◌, ◌++◌, ◌∷◌, [], ℕ, List, true, length, take, drop};
ghost use Rattle.frame_stream.specs.Lines.{goes_on, to_come};
ghost use Rattle.frame_stream.specs.Text.{line_of, text_from};

/// The line that ends a text.
#[derive(Clone, Copy, Debug, PartialEq, Eq)]
pub enum LastLine {
    /// `end`, which ends a configuration.
    End,
    /// `go`, which ends a policy.
    Go,
}

/// A place in a text that its last line is to end.
#[derive(Clone, Copy, Debug, PartialEq, Eq)]
pub(crate) enum Place {
    /// A line begins.
    Begins,
    /// The line so far is the first byte of the last line, or the first two or three.
    AfterOne,
    AfterTwo,
    AfterThree,
    /// The line so far begins otherwise.
    Other,
    /// The last line was seen, with its line feed.
    Ended,
}

impl Place {
    // After a byte that does not go on with the last line.
    fn behind(byte: u8) -> Place
        ensures rest { (last : LastLine) (bytes : List ℕ)
            → to_come last result bytes ≡ text_from (line_of last) (byte == 10) bytes }
        ensures more { (last : LastLine) → goes_on last result ≡ true }
    {
        if byte == b'\n' {
            Place::Begins
        } else {
            Place::Other
        }
    }

    // The place after one more byte, where `end` is to come.
    fn after_end(self, byte: u8) -> Place
        requires { goes_on LastLine.End self ≡ true }
        ensures rest { (bytes : List ℕ) → to_come LastLine.End self (byte ∷ bytes)
            ≡ byte ∷ to_come LastLine.End result bytes }
        ensures more { result ≢ Place.Ended → goes_on LastLine.End result ≡ true }
    {
        match self {
            Place::Begins if byte == b'e' => Place::AfterOne,
            Place::AfterOne if byte == b'n' => Place::AfterTwo,
            Place::AfterTwo if byte == b'd' => Place::AfterThree,
            Place::AfterThree if byte == b'\n' => Place::Ended,
            _ => Place::behind(byte),
        }
    }

    // The place after one more byte, where `go` is to come.
    fn after_go(self, byte: u8) -> Place
        requires { goes_on LastLine.Go self ≡ true }
        ensures rest { (bytes : List ℕ) → to_come LastLine.Go self (byte ∷ bytes)
            ≡ byte ∷ to_come LastLine.Go result bytes }
        ensures more { result ≢ Place.Ended → goes_on LastLine.Go result ≡ true }
    {
        match self {
            Place::Begins if byte == b'g' => Place::AfterOne,
            Place::AfterOne if byte == b'o' => Place::AfterTwo,
            Place::AfterTwo if byte == b'\n' => Place::Ended,
            _ => Place::behind(byte),
        }
    }

    /// The place after one more byte.
    pub(crate) fn after(self, last: LastLine, byte: u8) -> Place
        requires { goes_on last self ≡ true }
        ensures rest { (bytes : List ℕ)
            → to_come last self (byte ∷ bytes) ≡ byte ∷ to_come last result bytes }
        ensures more { result ≢ Place.Ended → goes_on last result ≡ true }
    {
        match last {
            LastLine::End => self.after_end(byte),
            LastLine::Go => self.after_go(byte),
        }
    }
}

/// How many bytes of a piece belong to the text, and the place after them: all of them, unless the text ends.
pub(crate) fn own_part(last: LastLine, place: Place, piece: &[u8]) -> (usize, Place)
    requires { goes_on last place ≡ true }
    ensures count { result.0 ≤ length piece.now }
    ensures all { result.1 ≢ Place.Ended → result.0 ≡ length piece.now }
    ensures more { result.1 ≢ Place.Ended → goes_on last result.1 ≡ true }
    ensures own { (bytes : List ℕ) → to_come last place (take result.0 piece.now ++ bytes)
        ≡ take result.0 piece.now ++ to_come last result.1 bytes }
{
    let mut place = place;
    for (index, byte) in piece.iter().enumerate() {
        place = place.after(last, *byte);
        if place == Place::Ended {
            return (index + 1, place);
        }
    }
    (piece.len(), place)
}
