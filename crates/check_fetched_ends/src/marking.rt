ghost use Rattle.std.specs.Prelude.{◌≡◌, ◌==◌, ◌&&◌, ◌||◌, ℕ, false, if◌then◌else◌};
ghost use Rattle.check_late_laws.specs.Late.Marking.{StandsFor};
ghost use Rattle.check_late_laws.specs.Late.Passed.{touched};
ghost use Rattle.responder_machine.specs.History.{History};

use check_late_laws::Marks;

/// The marks as an answer moves them, if it does: one to a message in the clear clears all, and one to a record sets
/// that of the session with this RspSessionID.
pub(crate) fn move_marks(marks: &mut Marks, clear: bool, moves: bool, id: u16)
    ensures { (h g : History) → ((i : ℕ) → touched i g ≡ (if clear then (if moves then false else touched i h)
        else ((id == i && moves) || touched i h))) → StandsFor marks.old h → StandsFor marks.new g }
{
    if !moves {
        return;
    }
    if clear {
        marks.clear();
        return;
    }
    marks.touch(id);
}
