//! That examples are commands, with nothing to run.
ghost use Rattle.std.specs.Prelude.{◌≡◌, ◌≢◌, Some};
ghost use Rattle.docket_command.specs.declared.command_name.CommandName.{CommandName};
ghost use Rattle.docket_command.specs.declared.command_name.CommandName.TheVariants.{ImportCalendar};
ghost use Rattle.command_forms.specs.Forms.{command_of_pairs};
ghost use Rattle.entry_pages.specs.Examples.{example_pairs, kind_read};

/// The example of each kind is read as a command of that kind.
pub fn examples_are_commands()
    ensures { (kind : CommandName) → kind ≢ ImportCalendar → kind_read (command_of_pairs (example_pairs kind)) ≡ Some kind }
{}
