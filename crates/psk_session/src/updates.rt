ghost use Rattle.std.specs.Prelude.{◌≡◌, ◌<◌, ◌+◌, ◌-◌, ◌^◌};
ghost use Rattle.key_schedule.specs.Purpose.{Purpose};
ghost use Rattle.spdm_grammar.specs.declared.messages.choice.Choice.{Choice};
ghost use Rattle.session_keys.specs.Keys.{IsKeyOf};

use secured_record::RecordKey;

// Steps to the key after a key update, which is that of the next epoch.
pub fn update(key: &mut RecordKey)
    requires { key.old.epoch < 2 ^ 64 - 1 }
    ensures { (choice : Choice) (p : Purpose) → IsKeyOf key.old choice p
        → IsKeyOf key.new choice (record p { epoch = p.epoch + 1 }) }
{
    key.update();
}
