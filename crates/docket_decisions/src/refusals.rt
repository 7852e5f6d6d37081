//! When each refusal applies, and in which order they are checked.
ghost use Rattle.std.specs.Prelude.{◌≡◌, None, map};
ghost use Rattle.court_days.specs.Court.{CourtSettings, zone_of};
ghost use Rattle.court_rules.specs.Standings.{IsEndAfter, StandsAfter, last_day};
ghost use Rattle.docket_command.specs.declared.command.Action.{Action as Asked};
ghost use Rattle.docket_history.specs.Actions.{subject_of};
ghost use Rattle.docket_history.specs.CalendarItems.{calendar_of};
ghost use Rattle.docket_decisions.specs.Decisions.{AreCircumstances};
ghost use Rattle.docket_history.specs.Times.{standing_shown, is_in_time};
ghost use Rattle.docket_values.specs.Values.{first_bad, bad_values};
ghost use Rattle.docket_decisions.specs.Refusals.{on, first_some, is_reused, exists_already, is_running, is_suspended, is_awaiting, is_over, is_not_open, is_not_awaiting, is_responsive_rule, is_responsive_in, is_extendable_by, is_extendable_in, is_not_responsive, is_by_e, wants_statement, is_wrong_motion, is_after_last_day, is_late_motion, is_served, is_short_waiver, is_late_waiver, may_not_extend, is_expired, is_not_later, has_too_many_acts, is_calendar_full, is_full, state_refusals, refusal_of};
ghost use Rattle.docket_history.specs.Views.{ViewOf, deadline_shown, last_act};

use crate::lacking::{lacks_case, lacks_deadline, lacks_local_rule, lacks_party, lacks_row};
use court_days::{Calendar, Court, Day, Direction, End, Way, count_days, timely};
use court_rules::{Act, DeadlineRule, MotionKind, Standing};
use docket_command::{Action, Command, LocalRule, Moment, Refusal, Ruling};
use docket_history::{Kept, Subject, View, row_entered, stands_among};
use docket_values::{bad_field, is_word};

fn is_reused(found: Kept) -> bool
    ensures { result ≡ is_reused found }
{
    matches!(found, Kept::Other)
}

fn exists_already(view: &View, action: &Action) -> bool
    ensures { result ≡ exists_already view.now action.now }
{
    if let Some((item, _)) = row_entered(action) {
        return stands_among(view.calendar.as_slice(), item);
    }
    match action {
        Action::OpenCase(_) => view.label_taken,
        Action::LocalRule(_) => view.local.is_some(),
        _ => false,
    }
}

/// Whether it is done or vacated.
fn is_over(standing: Standing) -> bool
    ensures { result ≡ is_over standing }
{
    matches!(standing, Standing::Done | Standing::Vacated)
}

fn is_running(standing: Standing) -> bool
    ensures { result ≡ is_running standing }
{
    matches!(standing, Standing::Running(_))
}

fn is_suspended(standing: Standing) -> bool
    ensures { result ≡ is_suspended standing }
{
    matches!(standing, Standing::Suspended)
}

fn is_awaiting(standing: Standing) -> bool
    ensures { result ≡ is_awaiting standing }
{
    matches!(standing, Standing::Awaiting)
}

fn is_not_open(action: &Action, standing: Standing) -> bool
    ensures { (court : CourtSettings) (v : ViewOf) → standing ≡ standing_shown court v
        → result ≡ is_not_open court v action.now }
{
    match action {
        Action::RuleMotion(_) | Action::Extend(_) => !is_running(standing),
        Action::Satisfy(_) | Action::Vacate(_) => is_over(standing),
        _ => false,
    }
}

fn is_not_awaiting(action: &Action, standing: Standing) -> bool
    ensures { (court : CourtSettings) (v : ViewOf) → standing ≡ standing_shown court v
        → result ≡ is_not_awaiting court v action.now }
{
    match action {
        Action::Dispose(_) => !is_suspended(standing),
        Action::StatementServed(_) => !is_awaiting(standing),
        _ => false,
    }
}

/// Whether it sets the time of a responsive pleading.
fn is_responsive(rule: &DeadlineRule) -> bool
    ensures { result ≡ is_responsive_rule rule.now }
{
    match rule {
        DeadlineRule::Listed(rule) => rule.responsive(),
        DeadlineRule::Local(_) => false,
    }
}

/// The same of the rule of the deadline that the command names.
fn is_of_responsive(view: &View) -> bool
    ensures { result ≡ is_responsive_in (deadline_shown view.now) }
{
    match view.deadline_named() {
        Some(deadline) => is_responsive(&deadline.rule),
        None => false,
    }
}

/// Whether the court may extend a time by the rule, which is this one where it is a local rule.
fn is_extendable(found: &Option<LocalRule>, rule: &DeadlineRule) -> bool
    ensures { result ≡ is_extendable_by found.now rule.now }
{
    match rule {
        DeadlineRule::Listed(rule) => rule.extendable(),
        DeadlineRule::Local(_) => match found {
            Some(rule) => rule.extendable,
            None => false,
        },
    }
}

/// The same of the rule of the deadline that the command names.
fn is_of_extendable(view: &View) -> bool
    ensures { result ≡ is_extendable_in view.now.local (deadline_shown view.now) }
{
    match view.deadline_named() {
        Some(deadline) => is_extendable(&view.local, &deadline.rule),
        None => false,
    }
}

fn is_not_responsive(view: &View, action: &Action) -> bool
    ensures { result ≡ is_not_responsive view.now action.now }
{
    match action {
        Action::RuleMotion(_) => !is_of_responsive(view),
        _ => false,
    }
}

/// Whether the last act is a motion for a more definite statement.
fn is_by_e(acts: &[Act]) -> bool
    ensures { result ≡ is_by_e (last_act acts.now) }
{
    match acts.last() {
        Some(Act::Motion(_, MotionKind::E)) => true,
        _ => false,
    }
}

fn wants_statement(outcome: Ruling) -> bool
    ensures { result ≡ wants_statement outcome }
{
    matches!(outcome, Ruling::Statement)
}

fn is_wrong_motion(view: &View, action: &Action) -> bool
    ensures { result ≡ is_wrong_motion view.now action.now }
{
    match action {
        Action::Dispose(a) => wants_statement(a.outcome) && !is_by_e(view.acts_named()),
        _ => false,
    }
}

/// The last day of a time: that of an instant is its local day.
fn last_day(court: &Court, end: End) -> Day
    requires { IsEndAfter 100 end }
    ensures { result ≡ last_day (zone_of court.now) end }
{
    match end {
        End::LastDay(day) => day,
        End::Moment(at) => court.local(at).0,
    }
}

/// Whether the day is after the last day of a time that runs.
fn is_after_last_day(court: &Court, standing: Standing, day: Day) -> bool
    requires { StandsAfter 100 standing }
    ensures { result ≡ is_after_last_day court.now standing day }
{
    match standing {
        Standing::Running(end) => last_day(court, end).epoch_day() < day.epoch_day(),
        _ => false,
    }
}

fn is_late_motion(court: &Court, action: &Action, standing: Standing) -> bool
    requires { StandsAfter 100 standing }
    ensures { (v : ViewOf) → standing ≡ standing_shown court.now v → result ≡ is_late_motion court.now v action.now }
{
    match action {
        Action::RuleMotion(a) => is_after_last_day(court, standing, a.served),
        _ => false,
    }
}

fn is_short_waiver(action: &Action) -> bool
    ensures { result ≡ is_short_waiver action.now }
{
    match action {
        Action::FileWaiver(a) => a.allowed < if a.abroad { 60 } else { 30 },
        _ => false,
    }
}

/// Whether a waiver came back late. Its days and counts are good.
fn is_late_waiver(calendar: &Calendar, action: &Action) -> bool
    requires { (court : CourtSettings) × (first_bad (bad_values court action.now) ≡ None) }
    ensures { (v : ViewOf) → calendar.now ≡ calendar_of v.calendar → result ≡ is_late_waiver v action.now }
{
    match action {
        Action::FileWaiver(a) => {
            let last = count_days(calendar, Direction::Forward, a.sent, a.allowed);
            last.epoch_day() < a.returned.epoch_day()
        }
        _ => false,
    }
}

fn may_not_extend(view: &View, action: &Action) -> bool
    ensures { result ≡ may_not_extend view.now action.now }
{
    match action {
        Action::Extend(_) => !is_of_extendable(view),
        _ => false,
    }
}

/// Whether a filing at the moment is in time, or no time was running.
pub(crate) fn is_in_time(
    court: &Court,
    calendar: &Calendar,
    standing: Standing,
    at: Moment,
    way: Way,
) -> bool
    ensures { result ≡ is_in_time court.now calendar.now standing at way }
{
    match standing {
        Standing::Running(end) => timely(court, calendar, end, at.seconds(), way),
        _ => true,
    }
}

fn is_expired(court: &Court, calendar: &Calendar, action: &Action, standing: Standing) -> bool
    ensures { (v : ViewOf) → calendar.now ≡ calendar_of v.calendar → standing ≡ standing_shown court.now v
        → result ≡ is_expired court.now v action.now }
{
    match action {
        Action::Extend(a) => {
            let is_late = !is_in_time(court, calendar, standing, a.at, Way::Electronic);
            !a.neglect && is_late
        }
        _ => false,
    }
}

fn is_not_later(court: &Court, action: &Action, standing: Standing) -> bool
    requires { StandsAfter 100 standing }
    ensures { (v : ViewOf) → standing ≡ standing_shown court.now v → result ≡ is_not_later court.now v action.now }
{
    match action {
        Action::Extend(a) => match a.until {
            Some(day) => !is_after_last_day(court, standing, day),
            None => false,
        },
        _ => false,
    }
}

/// Whether the calendar would have more than 4,000 rows, or the number of one would pass 4,294,967,295.
fn is_calendar_full(view: &View, added: usize) -> bool
    ensures { result ≡ is_calendar_full view.now added }
{
    view.calendar.as_slice().len().saturating_add(added) > 4000
        || view.next_row.saturating_add(added as u64) > 4_294_967_296
}

/// Whether a deadline has as many acts as it may have before the one that ends it.
fn has_too_many_acts(view: &View, subject: Subject) -> bool
    ensures { (a : Asked) → subject ≡ subject_of a → result ≡ has_too_many_acts view.now a }
{
    subject.deadline.is_some() && view.acts_named().len() >= 99
}

fn is_full(circumstances: &Circumstances<'_>, view: &View, action: &Action) -> bool
    requires { AreCircumstances circumstances.now view.now action.now }
    ensures { result ≡ is_full view.now action.now }
{
    let subject = circumstances.subject;
    if subject.asks.next_row {
        return is_calendar_full(view, circumstances.added);
    }
    match action {
        Action::OpenCase(_) => view.cases >= 100_000,
        Action::AddParty(_) => view.parties() >= 1000,
        Action::FileEntry(_) => view.entries() >= 10_000,
        Action::WithdrawCalendar(_) | Action::Satisfy(_) | Action::Vacate(_) => false,
        Action::LocalRule(_) => view.local_rules >= 1000,
        _ => {
            has_too_many_acts(view, subject)
                || (view.deadlines() as usize).saturating_add(circumstances.made) > 1000
        }
    }
}

/// The refusal of the first check that applies.
fn first_met(checks: &[(bool, Refusal)]) -> Option<Refusal>
    ensures { result ≡ first_some (map (λ check. on check.0 check.1) checks.now) }
{
    for check in checks {
        if check.0 {
            return Some(check.1);
        }
    }
    None
}

/// What a command is judged by beside its view: the court and the calendar that is shown, where the
/// deadline that it names stands, what it is about, and how many calendar rows and deadlines it would make.
#[derive(Drop)]
pub(crate) struct Circumstances<'a> {
    pub(crate) court: &'a Court,
    pub(crate) calendar: &'a Calendar,
    pub(crate) standing: Standing,
    pub(crate) subject: Subject,
    pub(crate) added: usize,
    pub(crate) made: usize,
}

/// The first refusal that applies of those that look at the docket, in their order.
fn state_refusal(circumstances: &Circumstances<'_>, view: &View, action: &Action) -> Option<Refusal>
    requires circumstances { AreCircumstances circumstances.now view.now action.now }
    requires good { first_bad (bad_values circumstances.now.court.now action.now) ≡ None }
    ensures { result ≡ first_some (state_refusals circumstances.now.court.now view.now action.now) }
{
    let court = circumstances.court;
    first_met(&[
        (lacks_case(view, circumstances.subject), Refusal::NoSuchCase),
        (lacks_party(view, action), Refusal::NoSuchParty),
        (
            lacks_deadline(view, circumstances.subject),
            Refusal::NoSuchDeadline,
        ),
        (lacks_row(view, action), Refusal::NoSuchCalendarRow),
        (lacks_local_rule(view, action), Refusal::NoSuchLocalRule),
        (exists_already(view, action), Refusal::Exists),
        (
            is_not_open(action, circumstances.standing),
            Refusal::NotOpen,
        ),
        (
            is_not_awaiting(action, circumstances.standing),
            Refusal::NotAwaiting,
        ),
        (is_not_responsive(view, action), Refusal::NotResponsive),
        (is_wrong_motion(view, action), Refusal::WrongMotion),
        (
            is_late_motion(court, action, circumstances.standing),
            Refusal::AfterDeadline,
        ),
        (view.is_served(), Refusal::AlreadyServed),
        (is_short_waiver(action), Refusal::ShortWaiver),
        (
            is_late_waiver(circumstances.calendar, action),
            Refusal::LateWaiver,
        ),
        (may_not_extend(view, action), Refusal::MayNotExtend),
        (
            is_expired(
                court,
                circumstances.calendar,
                action,
                circumstances.standing,
            ),
            Refusal::Expired,
        ),
        (
            is_not_later(court, action, circumstances.standing),
            Refusal::NotLater,
        ),
        (is_full(circumstances, view, action), Refusal::Full),
    ])
}

/// The first refusal that applies.
pub(crate) fn refusal(
    circumstances: &Circumstances<'_>,
    view: &View,
    command: &Command,
) -> Option<Refusal>
    requires { AreCircumstances circumstances.now view.now command.now.action }
    ensures { result ≡ refusal_of circumstances.now.court.now view.now command.now }
{
    if !is_word(64, &command.key) {
        return Some(Refusal::BadKey);
    }
    if is_reused(view.under_key) {
        return Some(Refusal::KeyReused);
    }
    match bad_field(circumstances.court, &command.action) {
        Some(field) => Some(Refusal::BadValue(field)),
        None => state_refusal(circumstances, view, &command.action),
    }
}
