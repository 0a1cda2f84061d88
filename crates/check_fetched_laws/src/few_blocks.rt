ghost use Rattle.check_responder.specs.ShownBy.{HasFewBlocks};
ghost use Rattle.responder_core.specs.Setup.{IsSetUp};
ghost use Rattle.responder_machine.specs.Setup.{RspSetup};

use responder_core::Setup;
use spdm_basis::Frame;
use spdm_grammar::names::ALL_BLOCKS;

/// No operation asks a responder that is so set up for more than 4,054 bytes of measurements.
pub fn blocks_are_few(setup: &Setup<'_>)
    ensures { (r : RspSetup) → IsSetUp setup.now r → HasFewBlocks r }
{
    let mut record = Frame::new();
    let all = setup.inventory.record(ALL_BLOCKS, &mut record);
    drop(all);
}
