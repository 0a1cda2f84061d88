//! What the packets of a capture fix of all walks over them, each law stated as the contract of an empty function.

ghost use Rattle.check_laws.specs.Keeping.{KeptIsRestored};
ghost use Rattle.check_laws.specs.Laws.{SealedTells};
ghost use Rattle.check_laws.specs.Verdict.{OneVerdict};
ghost use Rattle.check_laws.specs.Walks.{ConformsIsEach};

use capture_machine::{beginning_conforms, conforming_has_table, one_reason, one_table};

/// Packets conform where all go between two ends that are set up, and each requester has a walk.
pub fn conforms_is_each()
    ensures { ConformsIsEach }
{}

/// A walk leads to what this is kept of.
pub fn kept_is_restored()
    ensures { KeptIsRestored }
{}

/// A record under one key, number and id tells its inner message and its padding.
pub fn sealed_tells()
    ensures { SealedTells }
{}

/// No capture has two verdicts.
pub fn one_verdict()
    ensures { OneVerdict }
{
    beginning_conforms();
    conforming_has_table();
    one_table();
    one_reason();
}
