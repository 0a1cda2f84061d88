//! What holds of the definitions at every world, each law stated as the contract of an empty function.

ghost use Rattle.world_machine.specs.Laws.{ChanceStays};

/// Once two tags agree by chance, they do so after every further event.
pub fn chance_stays()
    ensures { ChanceStays }
{}
