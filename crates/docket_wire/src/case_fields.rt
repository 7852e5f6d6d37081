//! The fields of the commands that open a case and fill it, read and written.
ghost use Rattle.std.specs.Prelude.{◌≡◌, OnOk};
ghost use Rattle.serde_json.specs.View.{view, members_view};
ghost use Rattle.docket_command.specs.declared.command.Action.TheVariants as action;
ghost use Rattle.docket_command.specs.declared.command_name.CommandName.TheVariants as name;
ghost use Rattle.docket_wire.specs.Members.{Gives};
ghost use Rattle.docket_wire.specs.Valid.{IsAction};
ghost use Rattle.docket_wire.specs.Reading.{action_at};
ghost use Rattle.docket_wire.specs.Writing.{put_all, action_members};

use crate::fault::WireFault;
use crate::member::{required, required_text, required_word};
use crate::written::{Members, put_text, put_value, put_word};
use docket_command::{Action, AddParty, Field, FileEntry, OpenCase};
use serde_json::Value;
use std::alloc::{AllocError, Global};

#[tactic(auto, unfolding(crate::specs::Reading::action_at))]
pub(crate) fn read_open_case(alloc: Global, object: &Value) -> Result<Action, WireFault>
    ensures { Gives result (action_at name.OpenCase (view object.now)) }
{
    Ok(Action::OpenCase(OpenCase {
        label: required_text(alloc, object, Field::Label)?,
        caption: required_text(alloc, object, Field::Caption)?,
        filed: required(object, Field::Filed)?,
    }))
}

#[tactic(auto, unfolding(crate::specs::Writing::action_members, crate::specs::Valid::IsAction))]
pub(crate) fn put_open_case(
    members: &mut Members,
    alloc: Global,
    command: &OpenCase,
) -> Result<(), AllocError>
    ensures value { OnOk result (members_view members.new.entries
        ≡ put_all (action_members (action.OpenCase command.now)) (members_view members.old.entries)) }
    ensures lawful { OnOk result (IsAction (action.OpenCase command.now)) }
{
    put_text(members, alloc, Field::Label, &command.label)?;
    put_text(members, alloc, Field::Caption, &command.caption)?;
    put_value(members, alloc, Field::Filed, command.filed)
}

#[tactic(auto, unfolding(crate::specs::Reading::action_at))]
pub(crate) fn read_add_party(alloc: Global, object: &Value) -> Result<Action, WireFault>
    ensures { Gives result (action_at name.AddParty (view object.now)) }
{
    Ok(Action::AddParty(AddParty {
        case: required(object, Field::Case)?,
        name: required_text(alloc, object, Field::Name)?,
        role: required_word(object, Field::Role)?,
    }))
}

#[tactic(auto, unfolding(crate::specs::Writing::action_members, crate::specs::Valid::IsAction))]
pub(crate) fn put_add_party(
    members: &mut Members,
    alloc: Global,
    command: &AddParty,
) -> Result<(), AllocError>
    ensures value { OnOk result (members_view members.new.entries
        ≡ put_all (action_members (action.AddParty command.now)) (members_view members.old.entries)) }
    ensures lawful { OnOk result (IsAction (action.AddParty command.now)) }
{
    put_value(members, alloc, Field::Case, command.case)?;
    put_text(members, alloc, Field::Name, &command.name)?;
    put_word(members, alloc, Field::Role, command.role)
}

#[tactic(auto, unfolding(crate::specs::Reading::action_at))]
pub(crate) fn read_file_entry(alloc: Global, object: &Value) -> Result<Action, WireFault>
    ensures { Gives result (action_at name.FileEntry (view object.now)) }
{
    Ok(Action::FileEntry(FileEntry {
        case: required(object, Field::Case)?,
        day: required(object, Field::Day)?,
        text: required_text(alloc, object, Field::Text)?,
    }))
}

#[tactic(auto, unfolding(crate::specs::Writing::action_members, crate::specs::Valid::IsAction))]
pub(crate) fn put_file_entry(
    members: &mut Members,
    alloc: Global,
    command: &FileEntry,
) -> Result<(), AllocError>
    ensures value { OnOk result (members_view members.new.entries
        ≡ put_all (action_members (action.FileEntry command.now)) (members_view members.old.entries)) }
    ensures lawful { OnOk result (IsAction (action.FileEntry command.now)) }
{
    put_value(members, alloc, Field::Case, command.case)?;
    put_value(members, alloc, Field::Day, command.day)?;
    put_text(members, alloc, Field::Text, &command.text)
}
