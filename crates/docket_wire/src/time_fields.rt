//! The fields of the commands that set times, extend them and end them, read and written.
ghost use Rattle.std.specs.Prelude.{◌≡◌, OnOk};
ghost use Rattle.serde_json.specs.View.{view, members_view};
ghost use Rattle.docket_command.specs.declared.command.Action.TheVariants as action;
ghost use Rattle.docket_command.specs.declared.command_name.CommandName.TheVariants as name;
ghost use Rattle.docket_wire.specs.Members.{Gives};
ghost use Rattle.docket_wire.specs.Valid.{IsAction};
ghost use Rattle.docket_wire.specs.Reading.{action_at};
ghost use Rattle.docket_wire.specs.Writing.{put_all, action_members};

use crate::fault::WireFault;
use crate::member::{optional, optional_word, required, required_word};
use crate::written::{Members, put_optional, put_optional_word, put_value, put_word};
use docket_command::{
    Action, EnterJudgment, Extend, Field, NoticeHearing, OrderPeriod, Satisfy, Vacate,
};
use serde_json::Value;
use std::alloc::{AllocError, Global};

#[tactic(auto, unfolding(crate::specs::Reading::action_at))]
pub(crate) fn read_notice_hearing(object: &Value) -> Result<Action, WireFault>
    ensures { Gives result (action_at name.NoticeHearing (view object.now)) }
{
    Ok(Action::NoticeHearing(NoticeHearing {
        case: required(object, Field::Case)?,
        party: required(object, Field::Party)?,
        opponent: required(object, Field::Opponent)?,
        hearing: required(object, Field::Hearing)?,
    }))
}

#[tactic(auto, unfolding(crate::specs::Writing::action_members, crate::specs::Valid::IsAction))]
pub(crate) fn put_notice_hearing(
    members: &mut Members,
    alloc: Global,
    command: &NoticeHearing,
) -> Result<(), AllocError>
    ensures value { OnOk result (members_view members.new.entries
        ≡ put_all (action_members (action.NoticeHearing command.now)) (members_view members.old.entries)) }
    ensures lawful { OnOk result (IsAction (action.NoticeHearing command.now)) }
{
    put_value(members, alloc, Field::Case, command.case)?;
    put_value(members, alloc, Field::Party, command.party)?;
    put_value(members, alloc, Field::Opponent, command.opponent)?;
    put_value(members, alloc, Field::Hearing, command.hearing)
}

#[tactic(auto, unfolding(crate::specs::Reading::action_at))]
pub(crate) fn read_order_period(object: &Value) -> Result<Action, WireFault>
    ensures { Gives result (action_at name.OrderPeriod (view object.now)) }
{
    Ok(Action::OrderPeriod(OrderPeriod {
        case: required(object, Field::Case)?,
        party: required(object, Field::Party)?,
        unit: required_word(object, Field::Unit)?,
        start: optional(object, Field::Start)?,
        at: optional(object, Field::At)?,
        count: optional(object, Field::Count)?,
        direction: optional_word(object, Field::Direction)?,
        method: optional_word(object, Field::Method)?,
        until: optional(object, Field::Until)?,
    }))
}

#[tactic(auto, unfolding(crate::specs::Writing::action_members, crate::specs::Valid::IsAction))]
pub(crate) fn put_order_period(
    members: &mut Members,
    alloc: Global,
    command: &OrderPeriod,
) -> Result<(), AllocError>
    ensures value { OnOk result (members_view members.new.entries
        ≡ put_all (action_members (action.OrderPeriod command.now)) (members_view members.old.entries)) }
    ensures lawful { OnOk result (IsAction (action.OrderPeriod command.now)) }
{
    put_value(members, alloc, Field::Case, command.case)?;
    put_value(members, alloc, Field::Party, command.party)?;
    put_word(members, alloc, Field::Unit, command.unit)?;
    put_optional(members, alloc, Field::Start, command.start)?;
    put_optional(members, alloc, Field::At, command.at)?;
    put_optional(members, alloc, Field::Count, command.count)?;
    put_optional_word(members, alloc, Field::Direction, command.direction)?;
    put_optional_word(members, alloc, Field::Method, command.method)?;
    put_optional(members, alloc, Field::Until, command.until)
}

#[tactic(auto, unfolding(crate::specs::Reading::action_at))]
pub(crate) fn read_enter_judgment(object: &Value) -> Result<Action, WireFault>
    ensures { Gives result (action_at name.EnterJudgment (view object.now)) }
{
    Ok(Action::EnterJudgment(EnterJudgment {
        case: required(object, Field::Case)?,
        entered: required(object, Field::Entered)?,
        discharged: optional(object, Field::Discharged)?,
    }))
}

#[tactic(auto, unfolding(crate::specs::Writing::action_members, crate::specs::Valid::IsAction))]
pub(crate) fn put_enter_judgment(
    members: &mut Members,
    alloc: Global,
    command: &EnterJudgment,
) -> Result<(), AllocError>
    ensures value { OnOk result (members_view members.new.entries
        ≡ put_all (action_members (action.EnterJudgment command.now)) (members_view members.old.entries)) }
    ensures lawful { OnOk result (IsAction (action.EnterJudgment command.now)) }
{
    put_value(members, alloc, Field::Case, command.case)?;
    put_value(members, alloc, Field::Entered, command.entered)?;
    put_optional(members, alloc, Field::Discharged, command.discharged)
}

#[tactic(auto, unfolding(crate::specs::Reading::action_at))]
pub(crate) fn read_extend(object: &Value) -> Result<Action, WireFault>
    ensures { Gives result (action_at name.Extend (view object.now)) }
{
    Ok(Action::Extend(Extend {
        case: required(object, Field::Case)?,
        deadline: required(object, Field::Deadline)?,
        at: required(object, Field::At)?,
        neglect: required(object, Field::Neglect)?,
        days: optional(object, Field::Days)?,
        until: optional(object, Field::Until)?,
    }))
}

#[tactic(auto, unfolding(crate::specs::Writing::action_members, crate::specs::Valid::IsAction))]
pub(crate) fn put_extend(
    members: &mut Members,
    alloc: Global,
    command: &Extend,
) -> Result<(), AllocError>
    ensures value { OnOk result (members_view members.new.entries
        ≡ put_all (action_members (action.Extend command.now)) (members_view members.old.entries)) }
    ensures lawful { OnOk result (IsAction (action.Extend command.now)) }
{
    put_value(members, alloc, Field::Case, command.case)?;
    put_value(members, alloc, Field::Deadline, command.deadline)?;
    put_value(members, alloc, Field::At, command.at)?;
    put_value(members, alloc, Field::Neglect, command.neglect)?;
    put_optional(members, alloc, Field::Days, command.days)?;
    put_optional(members, alloc, Field::Until, command.until)
}

#[tactic(auto, unfolding(crate::specs::Reading::action_at))]
pub(crate) fn read_satisfy(object: &Value) -> Result<Action, WireFault>
    ensures { Gives result (action_at name.Satisfy (view object.now)) }
{
    Ok(Action::Satisfy(Satisfy {
        case: required(object, Field::Case)?,
        deadline: required(object, Field::Deadline)?,
        at: required(object, Field::At)?,
        way: required_word(object, Field::Way)?,
    }))
}

#[tactic(auto, unfolding(crate::specs::Writing::action_members, crate::specs::Valid::IsAction))]
pub(crate) fn put_satisfy(
    members: &mut Members,
    alloc: Global,
    command: &Satisfy,
) -> Result<(), AllocError>
    ensures value { OnOk result (members_view members.new.entries
        ≡ put_all (action_members (action.Satisfy command.now)) (members_view members.old.entries)) }
    ensures lawful { OnOk result (IsAction (action.Satisfy command.now)) }
{
    put_value(members, alloc, Field::Case, command.case)?;
    put_value(members, alloc, Field::Deadline, command.deadline)?;
    put_value(members, alloc, Field::At, command.at)?;
    put_word(members, alloc, Field::Way, command.way)
}

#[tactic(auto, unfolding(crate::specs::Reading::action_at))]
pub(crate) fn read_vacate(object: &Value) -> Result<Action, WireFault>
    ensures { Gives result (action_at name.Vacate (view object.now)) }
{
    Ok(Action::Vacate(Vacate {
        case: required(object, Field::Case)?,
        deadline: required(object, Field::Deadline)?,
    }))
}

#[tactic(auto, unfolding(crate::specs::Writing::action_members, crate::specs::Valid::IsAction))]
pub(crate) fn put_vacate(
    members: &mut Members,
    alloc: Global,
    command: &Vacate,
) -> Result<(), AllocError>
    ensures value { OnOk result (members_view members.new.entries
        ≡ put_all (action_members (action.Vacate command.now)) (members_view members.old.entries)) }
    ensures lawful { OnOk result (IsAction (action.Vacate command.now)) }
{
    put_value(members, alloc, Field::Case, command.case)?;
    put_value(members, alloc, Field::Deadline, command.deadline)
}
