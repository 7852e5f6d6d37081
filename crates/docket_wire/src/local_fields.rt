//! The fields of the commands that enter the court's own rules and set times by them, read and
//! written.
ghost use Rattle.std.specs.Prelude.{◌≡◌, OnOk};
ghost use Rattle.serde_json.specs.View.{view, members_view};
ghost use Rattle.docket_command.specs.declared.command.Action.TheVariants as action;
ghost use Rattle.docket_command.specs.declared.command_name.CommandName.TheVariants as name;
ghost use Rattle.docket_wire.specs.Members.{Gives};
ghost use Rattle.docket_wire.specs.Valid.{IsAction};
ghost use Rattle.docket_wire.specs.Reading.{action_at};
ghost use Rattle.docket_wire.specs.Writing.{put_all, action_members};

use crate::fault::WireFault;
use crate::member::{optional_word, required, required_text, required_word};
use crate::written::{Members, put_optional_word, put_text, put_value, put_word};
use docket_command::{Action, Field, LocalPeriod, LocalRule};
use serde_json::Value;
use std::alloc::{AllocError, Global};

#[tactic(auto, unfolding(crate::specs::Reading::action_at))]
pub(crate) fn read_local_rule(alloc: Global, object: &Value) -> Result<Action, WireFault>
    ensures { Gives result (action_at name.LocalRule (view object.now)) }
{
    Ok(Action::LocalRule(LocalRule {
        name: required_text(alloc, object, Field::Name)?,
        days: required(object, Field::Days)?,
        direction: required_word(object, Field::Direction)?,
        three: required(object, Field::Three)?,
        extendable: required(object, Field::Extendable)?,
    }))
}

#[tactic(auto, unfolding(crate::specs::Writing::action_members, crate::specs::Valid::IsAction))]
pub(crate) fn put_local_rule(
    members: &mut Members,
    alloc: Global,
    command: &LocalRule,
) -> Result<(), AllocError>
    ensures value { OnOk result (members_view members.new.entries
        ≡ put_all (action_members (action.LocalRule command.now)) (members_view members.old.entries)) }
    ensures lawful { OnOk result (IsAction (action.LocalRule command.now)) }
{
    put_text(members, alloc, Field::Name, &command.name)?;
    put_value(members, alloc, Field::Days, command.days)?;
    put_word(members, alloc, Field::Direction, command.direction)?;
    put_value(members, alloc, Field::Three, command.three)?;
    put_value(members, alloc, Field::Extendable, command.extendable)
}

#[tactic(auto, unfolding(crate::specs::Reading::action_at))]
pub(crate) fn read_local_period(alloc: Global, object: &Value) -> Result<Action, WireFault>
    ensures { Gives result (action_at name.LocalPeriod (view object.now)) }
{
    Ok(Action::LocalPeriod(LocalPeriod {
        case: required(object, Field::Case)?,
        party: required(object, Field::Party)?,
        rule: required_text(alloc, object, Field::Rule)?,
        start: required(object, Field::Start)?,
        method: optional_word(object, Field::Method)?,
    }))
}

#[tactic(auto, unfolding(crate::specs::Writing::action_members, crate::specs::Valid::IsAction))]
pub(crate) fn put_local_period(
    members: &mut Members,
    alloc: Global,
    command: &LocalPeriod,
) -> Result<(), AllocError>
    ensures value { OnOk result (members_view members.new.entries
        ≡ put_all (action_members (action.LocalPeriod command.now)) (members_view members.old.entries)) }
    ensures lawful { OnOk result (IsAction (action.LocalPeriod command.now)) }
{
    put_value(members, alloc, Field::Case, command.case)?;
    put_value(members, alloc, Field::Party, command.party)?;
    put_text(members, alloc, Field::Rule, &command.rule)?;
    put_value(members, alloc, Field::Start, command.start)?;
    put_optional_word(members, alloc, Field::Method, command.method)
}
