ghost use Rattle.message_fields.specs.Covering.{RecordsAreCovered, RequestsAreCovered, ResponsesAreCovered};
ghost use Rattle.message_fields.specs.Pieces.{PiecesAreWhole};

/// The bytes of all fields, one after the other, are those that were cut into fields. So the bytes of a message can be
/// read back from its fields.
pub fn pieces_are_whole()
    ensures { PiecesAreWhole }
{}

/// The fields of a request, of a response and of a record take all of its bytes, and no more. So each piece has its whole
/// size, and behind the last no byte is left.
pub fn fields_cover()
    ensures requests { RequestsAreCovered }
    ensures responses { ResponsesAreCovered }
    ensures records { RecordsAreCovered }
{}
