//! Laws of the functions in specs/. Nothing here runs.
ghost use Rattle.std.specs.Prelude.{◌≡◌, ◌↔◌, ℕ, List, Ok, Err};
ghost use Rattle.docket_command.specs.declared.command.Command.{Command};
ghost use Rattle.docket_wire.specs.declared.fault.WireFault.{WireFault};
ghost use Rattle.docket_wire.specs.FirstFaults.{HasFault};
ghost use Rattle.docket_wire.specs.Reading.{command_in};
ghost use Rattle.docket_wire.specs.Spells.{Spells};
ghost use Rattle.docket_wire.specs.Valid.{IsCommand};
ghost use Rattle.docket_wire.specs.Writing.{canonical};

/// A text is read as a command where, and only where, it spells that command; so it spells one at
/// most.
pub fn texts_are_read_as_spelled()
    ensures { (bytes : List ℕ) (c : Command) → (command_in bytes ≡ Ok c) ↔ Spells bytes c }
{}

/// The canonical text of a command spells it and no other. Two commands with the same canonical
/// text are the same.
pub fn canonical_texts_are_read_back()
    ensures spells { (c : Command) → IsCommand c → Spells (canonical c) c }
    ensures alone { (c d : Command) → IsCommand c → Spells (canonical c) d → d ≡ c }
    ensures unique { (c d : Command) → IsCommand c → IsCommand d → canonical c ≡ canonical d → c ≡ d }
{}

/// A text is refused for a fault where, and only where, that is the first fault that is true of it.
pub fn faults_are_told_in_order()
    ensures { (bytes : List ℕ) (fault : WireFault)
        → (command_in bytes ≡ Err fault) ↔ HasFault bytes fault }
{}
