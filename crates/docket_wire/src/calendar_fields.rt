//! The fields of the commands on the court's calendar, read and written.
ghost use Rattle.std.specs.Prelude.{◌≡◌, OnOk};
ghost use Rattle.serde_json.specs.View.{view, members_view};
ghost use Rattle.docket_command.specs.declared.command.Action.TheVariants as action;
ghost use Rattle.docket_command.specs.declared.command_name.CommandName.TheVariants as name;
ghost use Rattle.docket_wire.specs.Members.{Gives};
ghost use Rattle.docket_wire.specs.Valid.{IsAction};
ghost use Rattle.docket_wire.specs.Reading.{action_at};
ghost use Rattle.docket_wire.specs.Writing.{put_all, action_members};

use crate::fault::WireFault;
use crate::member::{required, required_text, required_word};
use crate::rows::{put_rows, required_rows};
use crate::written::{Members, put_text, put_value, put_word};
use docket_command::{
    Action, CloseDay, CloseSpan, DeclareDay, Field, ImportCalendar, ShortDay, WithdrawCalendar,
};
use serde_json::Value;
use std::alloc::{AllocError, Global};

#[tactic(auto, unfolding(crate::specs::Reading::action_at))]
pub(crate) fn read_declare_day(alloc: Global, object: &Value) -> Result<Action, WireFault>
    ensures { Gives result (action_at name.DeclareDay (view object.now)) }
{
    Ok(Action::DeclareDay(DeclareDay {
        day: required(object, Field::Day)?,
        kind: required_word(object, Field::Kind)?,
        name: required_text(alloc, object, Field::Name)?,
    }))
}

#[tactic(auto, unfolding(crate::specs::Writing::action_members, crate::specs::Valid::IsAction))]
pub(crate) fn put_declare_day(
    members: &mut Members,
    alloc: Global,
    command: &DeclareDay,
) -> Result<(), AllocError>
    ensures value { OnOk result (members_view members.new.entries
        ≡ put_all (action_members (action.DeclareDay command.now)) (members_view members.old.entries)) }
    ensures lawful { OnOk result (IsAction (action.DeclareDay command.now)) }
{
    put_value(members, alloc, Field::Day, command.day)?;
    put_word(members, alloc, Field::Kind, command.kind)?;
    put_text(members, alloc, Field::Name, &command.name)
}

#[tactic(auto, unfolding(crate::specs::Reading::action_at))]
pub(crate) fn read_close_day(alloc: Global, object: &Value) -> Result<Action, WireFault>
    ensures { Gives result (action_at name.CloseDay (view object.now)) }
{
    Ok(Action::CloseDay(CloseDay {
        day: required(object, Field::Day)?,
        name: required_text(alloc, object, Field::Name)?,
    }))
}

#[tactic(auto, unfolding(crate::specs::Writing::action_members, crate::specs::Valid::IsAction))]
pub(crate) fn put_close_day(
    members: &mut Members,
    alloc: Global,
    command: &CloseDay,
) -> Result<(), AllocError>
    ensures value { OnOk result (members_view members.new.entries
        ≡ put_all (action_members (action.CloseDay command.now)) (members_view members.old.entries)) }
    ensures lawful { OnOk result (IsAction (action.CloseDay command.now)) }
{
    put_value(members, alloc, Field::Day, command.day)?;
    put_text(members, alloc, Field::Name, &command.name)
}

#[tactic(auto, unfolding(crate::specs::Reading::action_at))]
pub(crate) fn read_close_span(object: &Value) -> Result<Action, WireFault>
    ensures { Gives result (action_at name.CloseSpan (view object.now)) }
{
    Ok(Action::CloseSpan(CloseSpan {
        start: required(object, Field::Start)?,
        end: required(object, Field::End)?,
    }))
}

#[tactic(auto, unfolding(crate::specs::Writing::action_members, crate::specs::Valid::IsAction))]
pub(crate) fn put_close_span(
    members: &mut Members,
    alloc: Global,
    command: &CloseSpan,
) -> Result<(), AllocError>
    ensures value { OnOk result (members_view members.new.entries
        ≡ put_all (action_members (action.CloseSpan command.now)) (members_view members.old.entries)) }
    ensures lawful { OnOk result (IsAction (action.CloseSpan command.now)) }
{
    put_value(members, alloc, Field::Start, command.start)?;
    put_value(members, alloc, Field::End, command.end)
}

#[tactic(auto, unfolding(crate::specs::Reading::action_at))]
pub(crate) fn read_short_day(alloc: Global, object: &Value) -> Result<Action, WireFault>
    ensures { Gives result (action_at name.ShortDay (view object.now)) }
{
    Ok(Action::ShortDay(ShortDay {
        day: required(object, Field::Day)?,
        close: required(object, Field::Close)?,
        name: required_text(alloc, object, Field::Name)?,
    }))
}

#[tactic(auto, unfolding(crate::specs::Writing::action_members, crate::specs::Valid::IsAction))]
pub(crate) fn put_short_day(
    members: &mut Members,
    alloc: Global,
    command: &ShortDay,
) -> Result<(), AllocError>
    ensures value { OnOk result (members_view members.new.entries
        ≡ put_all (action_members (action.ShortDay command.now)) (members_view members.old.entries)) }
    ensures lawful { OnOk result (IsAction (action.ShortDay command.now)) }
{
    put_value(members, alloc, Field::Day, command.day)?;
    put_value(members, alloc, Field::Close, command.close)?;
    put_text(members, alloc, Field::Name, &command.name)
}

#[tactic(auto, unfolding(crate::specs::Reading::action_at))]
pub(crate) fn read_withdraw_calendar(object: &Value) -> Result<Action, WireFault>
    ensures { Gives result (action_at name.WithdrawCalendar (view object.now)) }
{
    Ok(Action::WithdrawCalendar(WithdrawCalendar {
        row: required(object, Field::Row)?,
    }))
}

#[tactic(auto, unfolding(crate::specs::Writing::action_members, crate::specs::Valid::IsAction))]
pub(crate) fn put_withdraw_calendar(
    members: &mut Members,
    alloc: Global,
    command: &WithdrawCalendar,
) -> Result<(), AllocError>
    ensures value { OnOk result (members_view members.new.entries
        ≡ put_all (action_members (action.WithdrawCalendar command.now)) (members_view members.old.entries)) }
    ensures lawful { OnOk result (IsAction (action.WithdrawCalendar command.now)) }
{
    put_value(members, alloc, Field::Row, command.row)
}

#[tactic(auto, unfolding(crate::specs::Reading::action_at))]
pub(crate) fn read_import_calendar(alloc: Global, object: &Value) -> Result<Action, WireFault>
    ensures { Gives result (action_at name.ImportCalendar (view object.now)) }
{
    Ok(Action::ImportCalendar(ImportCalendar {
        rows: required_rows(alloc, object)?,
    }))
}

#[tactic(auto, unfolding(crate::specs::Writing::action_members, crate::specs::Valid::IsAction))]
pub(crate) fn put_import_calendar(
    members: &mut Members,
    alloc: Global,
    command: &ImportCalendar,
) -> Result<(), AllocError>
    ensures value { OnOk result (members_view members.new.entries
        ≡ put_all (action_members (action.ImportCalendar command.now)) (members_view members.old.entries)) }
    ensures lawful { OnOk result (IsAction (action.ImportCalendar command.now)) }
{
    put_rows(members, alloc, &command.rows)
}
