//! How many records the keys of a session seal and take, each law stated as the contract of an empty function.

ghost use Rattle.requester_machine.specs.SpentLaws.{NumbersAreFew, KeysAreFew, TakenNumberIsFew};

/// In each session of a history that the requester made, each record was sealed and taken under a number of at most
/// 65,535, and no next number passes 65,536, nor 65,535 while nothing is asked.
pub fn numbers_are_few()
    ensures { NumbersAreFew }
{}

/// No key of such a session seals or takes more than 65,536 records.
pub fn keys_are_few()
    ensures { KeysAreFew }
{}

/// A record that comes in answer to what is outstanding is taken under a number of at most 65,535.
pub fn taken_number_is_few()
    ensures { TakenNumberIsFew }
{}
