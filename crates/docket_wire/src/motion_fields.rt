//! The fields of the commands on motions and on what follows them, read and written.
ghost use Rattle.std.specs.Prelude.{◌≡◌, OnOk};
ghost use Rattle.serde_json.specs.View.{view, members_view};
ghost use Rattle.docket_command.specs.declared.command.Action.TheVariants as action;
ghost use Rattle.docket_command.specs.declared.command_name.CommandName.TheVariants as name;
ghost use Rattle.docket_wire.specs.Members.{Gives};
ghost use Rattle.docket_wire.specs.Valid.{IsAction};
ghost use Rattle.docket_wire.specs.Reading.{action_at};
ghost use Rattle.docket_wire.specs.Writing.{put_all, action_members};

use crate::fault::WireFault;
use crate::member::{optional, required, required_word};
use crate::written::{Members, put_optional, put_value, put_word};
use docket_command::{Action, Dispose, Field, RuleMotion, StatementServed};
use serde_json::Value;
use std::alloc::{AllocError, Global};

#[tactic(auto, unfolding(crate::specs::Reading::action_at))]
pub(crate) fn read_rule_motion(object: &Value) -> Result<Action, WireFault>
    ensures { Gives result (action_at name.RuleMotion (view object.now)) }
{
    Ok(Action::RuleMotion(RuleMotion {
        case: required(object, Field::Case)?,
        deadline: required(object, Field::Deadline)?,
        kind: required_word(object, Field::Kind)?,
        served: required(object, Field::Served)?,
    }))
}

#[tactic(auto, unfolding(crate::specs::Writing::action_members, crate::specs::Valid::IsAction))]
pub(crate) fn put_rule_motion(
    members: &mut Members,
    alloc: Global,
    command: &RuleMotion,
) -> Result<(), AllocError>
    ensures value { OnOk result (members_view members.new.entries
        ≡ put_all (action_members (action.RuleMotion command.now)) (members_view members.old.entries)) }
    ensures lawful { OnOk result (IsAction (action.RuleMotion command.now)) }
{
    put_value(members, alloc, Field::Case, command.case)?;
    put_value(members, alloc, Field::Deadline, command.deadline)?;
    put_word(members, alloc, Field::Kind, command.kind)?;
    put_value(members, alloc, Field::Served, command.served)
}

#[tactic(auto, unfolding(crate::specs::Reading::action_at))]
pub(crate) fn read_dispose(object: &Value) -> Result<Action, WireFault>
    ensures { Gives result (action_at name.Dispose (view object.now)) }
{
    Ok(Action::Dispose(Dispose {
        case: required(object, Field::Case)?,
        deadline: required(object, Field::Deadline)?,
        outcome: required_word(object, Field::Outcome)?,
        notice: required(object, Field::Notice)?,
        party: optional(object, Field::Party)?,
        due: optional(object, Field::Due)?,
    }))
}

#[tactic(auto, unfolding(crate::specs::Writing::action_members, crate::specs::Valid::IsAction))]
pub(crate) fn put_dispose(
    members: &mut Members,
    alloc: Global,
    command: &Dispose,
) -> Result<(), AllocError>
    ensures value { OnOk result (members_view members.new.entries
        ≡ put_all (action_members (action.Dispose command.now)) (members_view members.old.entries)) }
    ensures lawful { OnOk result (IsAction (action.Dispose command.now)) }
{
    put_value(members, alloc, Field::Case, command.case)?;
    put_value(members, alloc, Field::Deadline, command.deadline)?;
    put_word(members, alloc, Field::Outcome, command.outcome)?;
    put_value(members, alloc, Field::Notice, command.notice)?;
    put_optional(members, alloc, Field::Party, command.party)?;
    put_optional(members, alloc, Field::Due, command.due)
}

#[tactic(auto, unfolding(crate::specs::Reading::action_at))]
pub(crate) fn read_statement_served(object: &Value) -> Result<Action, WireFault>
    ensures { Gives result (action_at name.StatementServed (view object.now)) }
{
    Ok(Action::StatementServed(StatementServed {
        case: required(object, Field::Case)?,
        deadline: required(object, Field::Deadline)?,
        served: required(object, Field::Served)?,
        method: required_word(object, Field::Method)?,
    }))
}

#[tactic(auto, unfolding(crate::specs::Writing::action_members, crate::specs::Valid::IsAction))]
pub(crate) fn put_statement_served(
    members: &mut Members,
    alloc: Global,
    command: &StatementServed,
) -> Result<(), AllocError>
    ensures value { OnOk result (members_view members.new.entries
        ≡ put_all (action_members (action.StatementServed command.now)) (members_view members.old.entries)) }
    ensures lawful { OnOk result (IsAction (action.StatementServed command.now)) }
{
    put_value(members, alloc, Field::Case, command.case)?;
    put_value(members, alloc, Field::Deadline, command.deadline)?;
    put_value(members, alloc, Field::Served, command.served)?;
    put_word(members, alloc, Field::Method, command.method)
}
