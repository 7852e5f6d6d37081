//! That forms have the fields of the one table, with nothing to run.
ghost use Rattle.std.specs.Prelude.{◌≡◌, ℕ, List, Ok, map};
ghost use Rattle.docket_command.specs.Fields.{field_name};
ghost use Rattle.docket_command.specs.Schema.{field_of, type_of};
ghost use Rattle.docket_command.specs.declared.command_name.CommandName.{CommandName};
ghost use Rattle.docket_command.specs.declared.command.Command.{Command};
ghost use Rattle.docket_wire.specs.Tables.{all_fields};
ghost use Rattle.docket_wire.specs.Valid.{IsCommand};
ghost use Rattle.command_forms.specs.Entering.{CanBeEntered, pairs_of};
ghost use Rattle.command_forms.specs.Forms.{pairs_in, command_in_form};
ghost use Rattle.command_forms.specs.Shapes.{shape_named, shape_of};

/// In every kind of command the name of a field determines what its text is read as: what its type says in the one
/// table of fields.
pub fn fields_have_one_shape()
    ensures { (kind : CommandName) → map (λ field. shape_named (field_name (field_of field))) (all_fields kind)
        ≡ map (λ field. shape_of (type_of field)) (all_fields kind) }
{}

/// A form whose pairs are those of a command is read as that command, whatever bytes encode them: so each command
/// that can be entered is entered by some form.
pub fn commands_are_entered()
    ensures { (c : Command) (form : List ℕ) → IsCommand c → CanBeEntered c → pairs_in form ≡ pairs_of c → command_in_form form ≡ Ok c }
{}
