//! That each command is entered in words, with nothing to run.
ghost use Rattle.std.specs.Prelude.{◌≡◌, ℕ, List, Ok};
ghost use Rattle.command_forms.specs.Entering.{CanBeEntered};
ghost use Rattle.command_forms.specs.Given.{texts_given};
ghost use Rattle.court_days.specs.Court.{CourtSettings};
ghost use Rattle.docket_command.specs.declared.command.Command.{Command};
ghost use Rattle.docket_history.specs.Histories.{History};
ghost use Rattle.docket_wire.specs.Valid.{IsCommand};
ghost use Rattle.docket_wire.specs.Writing.{canonical};
ghost use Rattle.entry_lines.specs.Giving.{GivesCommand};
ghost use Rattle.entry_lines.specs.Lines.{fields_named, line_entered};
ghost use Rattle.entry_lines.specs.declared.entry.Entry.{Entry as Given};

/// An entry that gives a command as it is has the canonical text of that command as its line, in every docket.
pub fn commands_have_their_lines()
    ensures { (court : CourtSettings) (h : History) (entry : Given) (c : Command) → IsCommand c → CanBeEntered c → GivesCommand entry c
        → (fields : List (List ℕ × List ℕ)) × (fields_named h (texts_given entry.given.now) ≡ Ok fields) × (line_entered court entry fields ≡ canonical c) }
{}
