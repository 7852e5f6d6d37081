//! The fields of the commands on what is served on a party, read and written.
ghost use Rattle.std.specs.Prelude.{◌≡◌, OnOk};
ghost use Rattle.serde_json.specs.View.{view, members_view};
ghost use Rattle.docket_command.specs.declared.command.Action.TheVariants as action;
ghost use Rattle.docket_command.specs.declared.command_name.CommandName.TheVariants as name;
ghost use Rattle.docket_wire.specs.Members.{Gives};
ghost use Rattle.docket_wire.specs.Valid.{IsAction};
ghost use Rattle.docket_wire.specs.Reading.{action_at};
ghost use Rattle.docket_wire.specs.Writing.{put_all, action_members};

use crate::fault::WireFault;
use crate::member::{optional, optional_word, required, required_word};
use crate::written::{Members, put_optional, put_optional_word, put_value, put_word};
use docket_command::{Action, Field, FileWaiver, OrderReply, ServePleading, ServeSummons};
use serde_json::Value;
use std::alloc::{AllocError, Global};

#[tactic(auto, unfolding(crate::specs::Reading::action_at))]
pub(crate) fn read_serve_summons(object: &Value) -> Result<Action, WireFault>
    ensures { Gives result (action_at name.ServeSummons (view object.now)) }
{
    Ok(Action::ServeSummons(ServeSummons {
        case: required(object, Field::Case)?,
        party: required(object, Field::Party)?,
        basis: required_word(object, Field::Basis)?,
        served: required(object, Field::Served)?,
        attorney: optional(object, Field::Attorney)?,
    }))
}

#[tactic(auto, unfolding(crate::specs::Writing::action_members, crate::specs::Valid::IsAction))]
pub(crate) fn put_serve_summons(
    members: &mut Members,
    alloc: Global,
    command: &ServeSummons,
) -> Result<(), AllocError>
    ensures value { OnOk result (members_view members.new.entries
        ≡ put_all (action_members (action.ServeSummons command.now)) (members_view members.old.entries)) }
    ensures lawful { OnOk result (IsAction (action.ServeSummons command.now)) }
{
    put_value(members, alloc, Field::Case, command.case)?;
    put_value(members, alloc, Field::Party, command.party)?;
    put_word(members, alloc, Field::Basis, command.basis)?;
    put_value(members, alloc, Field::Served, command.served)?;
    put_optional(members, alloc, Field::Attorney, command.attorney)
}

#[tactic(auto, unfolding(crate::specs::Reading::action_at))]
pub(crate) fn read_file_waiver(object: &Value) -> Result<Action, WireFault>
    ensures { Gives result (action_at name.FileWaiver (view object.now)) }
{
    Ok(Action::FileWaiver(FileWaiver {
        case: required(object, Field::Case)?,
        party: required(object, Field::Party)?,
        sent: required(object, Field::Sent)?,
        allowed: required(object, Field::Allowed)?,
        returned: required(object, Field::Returned)?,
        abroad: required(object, Field::Abroad)?,
    }))
}

#[tactic(auto, unfolding(crate::specs::Writing::action_members, crate::specs::Valid::IsAction))]
pub(crate) fn put_file_waiver(
    members: &mut Members,
    alloc: Global,
    command: &FileWaiver,
) -> Result<(), AllocError>
    ensures value { OnOk result (members_view members.new.entries
        ≡ put_all (action_members (action.FileWaiver command.now)) (members_view members.old.entries)) }
    ensures lawful { OnOk result (IsAction (action.FileWaiver command.now)) }
{
    put_value(members, alloc, Field::Case, command.case)?;
    put_value(members, alloc, Field::Party, command.party)?;
    put_value(members, alloc, Field::Sent, command.sent)?;
    put_value(members, alloc, Field::Allowed, command.allowed)?;
    put_value(members, alloc, Field::Returned, command.returned)?;
    put_value(members, alloc, Field::Abroad, command.abroad)
}

#[tactic(auto, unfolding(crate::specs::Reading::action_at))]
pub(crate) fn read_serve_pleading(object: &Value) -> Result<Action, WireFault>
    ensures { Gives result (action_at name.ServePleading (view object.now)) }
{
    Ok(Action::ServePleading(ServePleading {
        case: required(object, Field::Case)?,
        party: required(object, Field::Party)?,
        kind: required_word(object, Field::Kind)?,
        basis: required_word(object, Field::Basis)?,
        served: required(object, Field::Served)?,
        method: required_word(object, Field::Method)?,
        attorney: optional(object, Field::Attorney)?,
        attorney_method: optional_word(object, Field::AttorneyMethod)?,
    }))
}

#[tactic(auto, unfolding(crate::specs::Writing::action_members, crate::specs::Valid::IsAction))]
pub(crate) fn put_serve_pleading(
    members: &mut Members,
    alloc: Global,
    command: &ServePleading,
) -> Result<(), AllocError>
    ensures value { OnOk result (members_view members.new.entries
        ≡ put_all (action_members (action.ServePleading command.now)) (members_view members.old.entries)) }
    ensures lawful { OnOk result (IsAction (action.ServePleading command.now)) }
{
    put_value(members, alloc, Field::Case, command.case)?;
    put_value(members, alloc, Field::Party, command.party)?;
    put_word(members, alloc, Field::Kind, command.kind)?;
    put_word(members, alloc, Field::Basis, command.basis)?;
    put_value(members, alloc, Field::Served, command.served)?;
    put_word(members, alloc, Field::Method, command.method)?;
    put_optional(members, alloc, Field::Attorney, command.attorney)?;
    put_optional_word(
        members,
        alloc,
        Field::AttorneyMethod,
        command.attorney_method,
    )
}

#[tactic(auto, unfolding(crate::specs::Reading::action_at))]
pub(crate) fn read_order_reply(object: &Value) -> Result<Action, WireFault>
    ensures { Gives result (action_at name.OrderReply (view object.now)) }
{
    Ok(Action::OrderReply(OrderReply {
        case: required(object, Field::Case)?,
        party: required(object, Field::Party)?,
        served: required(object, Field::Served)?,
        method: required_word(object, Field::Method)?,
        due: optional(object, Field::Due)?,
    }))
}

#[tactic(auto, unfolding(crate::specs::Writing::action_members, crate::specs::Valid::IsAction))]
pub(crate) fn put_order_reply(
    members: &mut Members,
    alloc: Global,
    command: &OrderReply,
) -> Result<(), AllocError>
    ensures value { OnOk result (members_view members.new.entries
        ≡ put_all (action_members (action.OrderReply command.now)) (members_view members.old.entries)) }
    ensures lawful { OnOk result (IsAction (action.OrderReply command.now)) }
{
    put_value(members, alloc, Field::Case, command.case)?;
    put_value(members, alloc, Field::Party, command.party)?;
    put_value(members, alloc, Field::Served, command.served)?;
    put_word(members, alloc, Field::Method, command.method)?;
    put_optional(members, alloc, Field::Due, command.due)
}
