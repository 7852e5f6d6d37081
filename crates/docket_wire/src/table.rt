//! The kinds of commands: the members of each, and how its fields are read and written.
ghost use Rattle.std.specs.Prelude.{◌≡◌, OnOk};
ghost use Rattle.serde_json.specs.View.{view, members_view};
ghost use Rattle.docket_wire.specs.Members.{Gives};
ghost use Rattle.docket_wire.specs.Reading.{action_at};
ghost use Rattle.docket_wire.specs.Tables.{required_fields, other_fields};
ghost use Rattle.docket_wire.specs.Valid.{IsAction};
ghost use Rattle.docket_wire.specs.Writing.{put_all, action_members};

use crate::fault::WireFault;
use crate::written::Members;
use crate::{
    calendar_fields as calendar, case_fields as case, local_fields as local,
    motion_fields as motion, service_fields as service, time_fields as time,
};
use docket_command::Field::{
    self, Abroad, Allowed, At, Attorney, AttorneyMethod, Basis, Caption, Case, Close, Count, Day,
    Days, Deadline, Direction, Discharged, Do, Due, End, Entered, Extendable, Filed, Hearing, Key,
    Kind, Label, Method, Name, Neglect, Notice, Opponent, Outcome, Party, Returned, Role, Row,
    Rows, Rule, Sent, Served, Start, Text, Three, Unit, Until, Way,
};
use docket_command::{Action, CommandName};
use serde_json::Value;
use std::alloc::{AllocError, Global};

/// The members of an object.
#[derive(Clone, Copy)]
pub(crate) struct KnownMembers {
    /// Those that must be there, in their order.
    pub(crate) required: &'static [Field],
    /// Those that may be there beside.
    pub(crate) others: &'static [Field],
}

fn members(required: &'static [Field], others: &'static [Field]) -> KnownMembers
    ensures required { result.required.now ≡ required.now }
    ensures others { result.others.now ≡ others.now }
{
    KnownMembers { required, others }
}

/// The members of a command of that kind.
pub(crate) fn members_of(name: CommandName) -> KnownMembers
    ensures required { result.required.now ≡ required_fields name }
    ensures others { result.others.now ≡ other_fields name }
{
    match name {
        CommandName::DeclareDay => members(&[Key, Day, Kind, Name], &[Do]),
        CommandName::CloseDay => members(&[Key, Day, Name], &[Do]),
        CommandName::CloseSpan => members(&[Key, Start, End], &[Do]),
        CommandName::ShortDay => members(&[Key, Day, Close, Name], &[Do]),
        CommandName::WithdrawCalendar => members(&[Key, Row], &[Do]),
        CommandName::ImportCalendar => members(&[Key, Rows], &[Do]),
        CommandName::OpenCase => members(&[Key, Label, Caption, Filed], &[Do]),
        CommandName::AddParty => members(&[Key, Case, Name, Role], &[Do]),
        CommandName::FileEntry => members(&[Key, Case, Day, Text], &[Do]),
        CommandName::ServeSummons => members(&[Key, Case, Party, Basis, Served], &[Do, Attorney]),
        CommandName::FileWaiver => members(
            &[Key, Case, Party, Sent, Allowed, Returned, Abroad],
            &[Do],
        ),
        CommandName::ServePleading => members(
            &[Key, Case, Party, Kind, Basis, Served, Method],
            &[Do, Attorney, AttorneyMethod],
        ),
        CommandName::OrderReply => members(&[Key, Case, Party, Served, Method], &[Do, Due]),
        CommandName::RuleMotion => members(&[Key, Case, Deadline, Kind, Served], &[Do]),
        CommandName::Dispose => members(&[Key, Case, Deadline, Outcome, Notice], &[Do, Party, Due]),
        CommandName::StatementServed => members(&[Key, Case, Deadline, Served, Method], &[Do]),
        CommandName::NoticeHearing => members(&[Key, Case, Party, Opponent, Hearing], &[Do]),
        CommandName::OrderPeriod => members(
            &[Key, Case, Party, Unit],
            &[Do, Start, At, Count, Direction, Method, Until],
        ),
        CommandName::EnterJudgment => members(&[Key, Case, Entered], &[Do, Discharged]),
        CommandName::Extend => members(&[Key, Case, Deadline, At, Neglect], &[Do, Days, Until]),
        CommandName::Satisfy => members(&[Key, Case, Deadline, At, Way], &[Do]),
        CommandName::Vacate => members(&[Key, Case, Deadline], &[Do]),
        CommandName::LocalRule => members(&[Key, Name, Days, Direction, Three, Extendable], &[Do]),
        CommandName::LocalPeriod => members(&[Key, Case, Party, Rule, Start], &[Do, Method]),
    }
}

/// Reads the fields of a command of that kind.
pub(crate) fn read_action(
    alloc: Global,
    name: CommandName,
    object: &Value,
) -> Result<Action, WireFault>
    ensures { Gives result (action_at name (view object.now)) }
{
    match name {
        CommandName::DeclareDay => calendar::read_declare_day(alloc, object),
        CommandName::CloseDay => calendar::read_close_day(alloc, object),
        CommandName::CloseSpan => calendar::read_close_span(object),
        CommandName::ShortDay => calendar::read_short_day(alloc, object),
        CommandName::WithdrawCalendar => calendar::read_withdraw_calendar(object),
        CommandName::ImportCalendar => calendar::read_import_calendar(alloc, object),
        CommandName::OpenCase => case::read_open_case(alloc, object),
        CommandName::AddParty => case::read_add_party(alloc, object),
        CommandName::FileEntry => case::read_file_entry(alloc, object),
        CommandName::ServeSummons => service::read_serve_summons(object),
        CommandName::FileWaiver => service::read_file_waiver(object),
        CommandName::ServePleading => service::read_serve_pleading(object),
        CommandName::OrderReply => service::read_order_reply(object),
        CommandName::RuleMotion => motion::read_rule_motion(object),
        CommandName::Dispose => motion::read_dispose(object),
        CommandName::StatementServed => motion::read_statement_served(object),
        CommandName::NoticeHearing => time::read_notice_hearing(object),
        CommandName::OrderPeriod => time::read_order_period(object),
        CommandName::EnterJudgment => time::read_enter_judgment(object),
        CommandName::Extend => time::read_extend(object),
        CommandName::Satisfy => time::read_satisfy(object),
        CommandName::Vacate => time::read_vacate(object),
        CommandName::LocalRule => local::read_local_rule(alloc, object),
        CommandName::LocalPeriod => local::read_local_period(alloc, object),
    }
}

/// Puts the members of the fields that an action has.
pub(crate) fn put_action(
    members: &mut Members,
    alloc: Global,
    action: &Action,
) -> Result<(), AllocError>
    ensures value { OnOk result (members_view members.new.entries
        ≡ put_all (action_members action.now) (members_view members.old.entries)) }
    ensures lawful { OnOk result (IsAction action.now) }
{
    match action {
        Action::DeclareDay(command) => calendar::put_declare_day(members, alloc, command),
        Action::CloseDay(command) => calendar::put_close_day(members, alloc, command),
        Action::CloseSpan(command) => calendar::put_close_span(members, alloc, command),
        Action::ShortDay(command) => calendar::put_short_day(members, alloc, command),
        Action::WithdrawCalendar(command) => calendar::put_withdraw_calendar(
            members, alloc, command,
        ),
        Action::ImportCalendar(command) => calendar::put_import_calendar(members, alloc, command),
        Action::OpenCase(command) => case::put_open_case(members, alloc, command),
        Action::AddParty(command) => case::put_add_party(members, alloc, command),
        Action::FileEntry(command) => case::put_file_entry(members, alloc, command),
        Action::ServeSummons(command) => service::put_serve_summons(members, alloc, command),
        Action::FileWaiver(command) => service::put_file_waiver(members, alloc, command),
        Action::ServePleading(command) => service::put_serve_pleading(members, alloc, command),
        Action::OrderReply(command) => service::put_order_reply(members, alloc, command),
        Action::RuleMotion(command) => motion::put_rule_motion(members, alloc, command),
        Action::Dispose(command) => motion::put_dispose(members, alloc, command),
        Action::StatementServed(command) => motion::put_statement_served(members, alloc, command),
        Action::NoticeHearing(command) => time::put_notice_hearing(members, alloc, command),
        Action::OrderPeriod(command) => time::put_order_period(members, alloc, command),
        Action::EnterJudgment(command) => time::put_enter_judgment(members, alloc, command),
        Action::Extend(command) => time::put_extend(members, alloc, command),
        Action::Satisfy(command) => time::put_satisfy(members, alloc, command),
        Action::Vacate(command) => time::put_vacate(members, alloc, command),
        Action::LocalRule(command) => local::put_local_rule(members, alloc, command),
        Action::LocalPeriod(command) => local::put_local_period(members, alloc, command),
    }
}
