//! The deadlines and the acts that an action makes.
ghost use Rattle.std.specs.Prelude.{◌≡◌, ◌++◌, ◌∷◌, [], None, pos, max, IfOk, OnOk, option_to_list};
ghost use Rattle.docket_history.specs.Actions.{deadlines_made, acts_made};
ghost use Rattle.docket_history.specs.DeadlinesMade.{begun_by, begun, timed, timed_or_set, answer_rule, later_of, answer_from, waiver_rule, pleading_rule, later_method, pleading_method, ordered_three, day_ordered, hours_ordered, ordered, court_ordered, after_judgment, judgment_times, statement_ordered, local_three, begun_locally, local_time, ruled, extension};

use court_days::{Day, Direction};
use court_rules::{Act, DayPeriod, DeadlineRule, HourPeriod, Method, Period, Rule, Start};
use docket_command::{
    Action, Basis, Dispose, EnterJudgment, LocalPeriod, LocalRule, Moment, NoticeHearing,
    OrderPeriod, PeriodUnit, PleadingKind, Ruling, ServePleading, ServeSummons, ServiceMethod,
};
use docket_history::NewDeadline;
use std::alloc::{AllocError, Global};

/// The first act of a deadline whose time runs from the day by its rule.
fn begun(rule: Rule, served_by: Method, day: Day) -> Act
    ensures { result ≡ begun rule served_by day }
{
    match (rule.period(), rule.direction()) {
        (Some(period), Some(direction)) => Act::Start(Start::Days(DayPeriod {
            trigger: day,
            period,
            direction,
            three_days: rule.adds_three(served_by),
        })),
        _ => Act::Fixed(day),
    }
}

/// A deadline by the rule, from the day.
fn timed(party: u32, rule: Rule, initial: bool, served_by: Method, day: Day) -> NewDeadline
    ensures { result ≡ timed party rule initial served_by day }
{
    NewDeadline {
        party,
        rule: DeadlineRule::Listed(rule),
        initial,
        first: begun(rule, served_by, day),
    }
}

/// The same, where the court sets no other day.
fn timed_or_set(
    party: u32,
    rule: Rule,
    served_by: Method,
    day: Day,
    due: Option<Day>,
) -> NewDeadline
    ensures { result ≡ timed_or_set party rule served_by day due }
{
    match due {
        None => timed(party, rule, false, served_by, day),
        Some(due) => NewDeadline {
            party,
            rule: DeadlineRule::Listed(rule),
            initial: false,
            first: Act::Fixed(due),
        },
    }
}

/// The rule by which a defendant who was served answers.
fn answer_rule(basis: Basis) -> Rule
    ensures { result ≡ answer_rule basis }
{
    match basis {
        Basis::Private => Rule::AnswerToSummons,
        Basis::UnitedStates => Rule::AnswerByUnitedStates,
        Basis::Officer => Rule::AnswerByOfficer,
    }
}

/// The later of two days, where there is a second.
fn later_of(day: Day, other: Option<Day>) -> Day
    ensures { result ≡ later_of day other }
{
    match other {
        Some(other) if day.epoch_day() < other.epoch_day() => other,
        _ => day,
    }
}

/// The day from which that time runs.
fn answer_from(basis: Basis, served: Day, attorney: Option<Day>) -> Day
    ensures { result ≡ answer_from basis served attorney }
{
    match basis {
        Basis::Officer => later_of(served, attorney),
        _ => served,
    }
}

/// The rule by which a defendant who waived service answers.
fn waiver_rule(abroad: bool) -> Rule
    ensures { result ≡ waiver_rule abroad }
{
    if abroad {
        Rule::AnswerAfterWaiverAbroad
    } else {
        Rule::AnswerAfterWaiver
    }
}

/// The rule of the time after a pleading was served.
fn pleading_rule(kind: PleadingKind, basis: Basis) -> Rule
    ensures { result ≡ pleading_rule kind basis }
{
    match (kind, basis) {
        (PleadingKind::Unanswered, _) => Rule::MotionToStrike,
        (_, Basis::Private) => Rule::AnswerToCounterclaim,
        (_, Basis::UnitedStates) => Rule::AnswerByUnitedStates,
        (_, Basis::Officer) => Rule::AnswerByOfficer,
    }
}

/// The method of the later service.
fn later_method(a: &ServePleading) -> ServiceMethod
    ensures { result ≡ later_method a.now.served a.now.method a.now.attorney a.now.attorney_method }
{
    let Some(attorney) = a.attorney else {
        return a.method;
    };
    match a.attorney_method {
        Some(method) if a.served.epoch_day() < attorney.epoch_day() => method,
        _ => a.method,
    }
}

/// The method of service that counts for the time of a pleading.
fn pleading_method(a: &ServePleading) -> ServiceMethod
    ensures { result ≡ pleading_method a.now.basis a.now.served a.now.method a.now.attorney a.now.attorney_method }
{
    match a.basis {
        Basis::Officer => later_method(a),
        _ => a.method,
    }
}

/// Whether service adds three days to a time that the court ordered.
fn ordered_three(served_by: Option<ServiceMethod>) -> bool
    ensures { result ≡ ordered_three served_by }
{
    match served_by {
        Some(method) => Rule::Ordered.adds_three(method.into()),
        None => false,
    }
}

/// The first act of an ordered period in days or months.
fn day_ordered(
    start: Option<Day>,
    period: Option<Period>,
    direction: Option<Direction>,
    served_by: Option<ServiceMethod>,
) -> Option<Act>
    ensures { result ≡ day_ordered start period direction served_by }
{
    Some(Act::Start(Start::Days(DayPeriod {
        trigger: start?,
        period: period?,
        direction: direction?,
        three_days: ordered_three(served_by),
    })))
}

/// The first act of an ordered period in hours.
fn hours_ordered(
    at: Option<Moment>,
    count: Option<u32>,
    direction: Option<Direction>,
) -> Option<Act>
    ensures { result ≡ hours_ordered at count direction }
{
    Some(Act::Start(Start::Hours(HourPeriod {
        at: at?.seconds(),
        hours: count?,
        direction: direction?,
    })))
}

/// The first act of a time that the court orders, if it has the fields that its unit needs.
fn ordered(a: &OrderPeriod) -> Option<Act>
    ensures { result ≡ ordered a.now.unit a.now }
{
    match a.unit {
        PeriodUnit::Days => day_ordered(a.start, a.count.map(Period::Days), a.direction, a.method),
        PeriodUnit::Months => day_ordered(
            a.start,
            a.count.map(Period::Months),
            a.direction,
            a.method,
        ),
        PeriodUnit::Hours => hours_ordered(a.at, a.count, a.direction),
        PeriodUnit::Fixed => a.until.map(Act::Fixed),
    }
}

/// A time after judgment, for every party.
fn after_judgment(day: Day, rule: Rule) -> NewDeadline
    ensures { result ≡ after_judgment day rule }
{
    timed(0, rule, false, Method::Nothing, day)
}

/// The times after judgment.
fn judgment_times(alloc: Global, a: &EnterJudgment) -> Result<Vec<NewDeadline>, AllocError>
    ensures { IfOk result (λ made. made.items ≡ judgment_times a.now.entered a.now.discharged) }
{
    let discharged = a.discharged.unwrap_or(a.entered);
    Ok(vec![in alloc;
        after_judgment(discharged, Rule::RenewedMotionForJudgment),
        after_judgment(a.entered, Rule::LosingPartyNewTrial),
        after_judgment(a.entered, Rule::AmendedFindings),
        after_judgment(a.entered, Rule::NewTrial),
        after_judgment(a.entered, Rule::NewTrialByCourt),
        after_judgment(a.entered, Rule::AmendedJudgment),
        after_judgment(a.entered, Rule::ReliefFromJudgment),
    ]?)
}

/// The times before a hearing.
fn hearing_times(alloc: Global, a: &NoticeHearing) -> Result<Vec<NewDeadline>, AllocError>
    ensures { IfOk result (λ made. made.items ≡ deadlines_made None (Action.NoticeHearing a.now)) }
{
    Ok(vec![in alloc;
        timed(
            a.party,
            Rule::MotionAndNotice,
            false,
            Method::Nothing,
            a.hearing
        ),
        timed(
            a.opponent,
            Rule::OpposingAffidavit,
            false,
            Method::Nothing,
            a.hearing
        ),
    ]?)
}

/// One deadline.
fn one(alloc: Global, made: NewDeadline) -> Result<Vec<NewDeadline>, AllocError>
    ensures { IfOk result (λ all. all.items ≡ made ∷ []) }
{
    Ok(vec![in alloc; made]?)
}

/// The time after a pleading was served.
fn pleading_time(a: &ServePleading) -> NewDeadline
    ensures { result ∷ [] ≡ deadlines_made None (Action.ServePleading a.now) }
{
    let day = answer_from(a.basis, a.served, a.attorney);
    let served_by = pleading_method(a).into();
    timed(
        a.party,
        pleading_rule(a.kind, a.basis),
        false,
        served_by,
        day,
    )
}

/// The time of a defendant who was served.
fn summons_time(a: &ServeSummons) -> NewDeadline
    ensures { result ∷ [] ≡ deadlines_made None (Action.ServeSummons a.now) }
{
    let day = answer_from(a.basis, a.served, a.attorney);
    timed(a.party, answer_rule(a.basis), true, Method::Rule4, day)
}

/// The deadline of a more definite statement, where the court orders one.
fn statement_ordered(alloc: Global, a: &Dispose) -> Result<Vec<NewDeadline>, AllocError>
    ensures { IfOk result (λ made. made.items ≡ deadlines_made None (Action.Dispose a.now)) }
{
    let (rule, method) = (Rule::MoreDefiniteStatement, Method::Nothing);
    match (a.outcome, a.party) {
        (Ruling::Statement, Some(party)) => {
            one(alloc, timed_or_set(party, rule, method, a.notice, a.due))
        }
        _ => Ok(Vec::new(alloc)),
    }
}

/// A time that the court ordered.
fn court_ordered(party: u32, first: Act) -> NewDeadline
    ensures { result ≡ court_ordered party first }
{
    NewDeadline {
        party,
        rule: DeadlineRule::Listed(Rule::Ordered),
        initial: false,
        first,
    }
}

fn ordered_time(alloc: Global, a: &OrderPeriod) -> Result<Vec<NewDeadline>, AllocError>
    ensures { IfOk result (λ made. made.items ≡ deadlines_made None (Action.OrderPeriod a.now)) }
{
    match ordered(a) {
        Some(first) => one(alloc, court_ordered(a.party, first)),
        None => Ok(Vec::new(alloc)),
    }
}

/// Whether service adds three days to the time of a local rule.
fn local_three(rule: &LocalRule, served_by: Option<ServiceMethod>) -> bool
    ensures { result ≡ local_three rule.now served_by }
{
    match served_by {
        Some(method) => rule.adds_three(method.into()),
        None => false,
    }
}

/// The first act of a time that runs from the day by a local rule.
fn begun_locally(rule: &LocalRule, served_by: Option<ServiceMethod>, day: Day) -> Act
    ensures { result ≡ begun_locally rule.now served_by day }
{
    Act::Start(Start::Days(DayPeriod {
        trigger: day,
        period: Period::Days(rule.days),
        direction: rule.direction,
        three_days: local_three(rule, served_by),
    }))
}

/// The deadline of a time by the local rule that is named.
fn local_time(a: &LocalPeriod, rule: &LocalRule) -> Result<NewDeadline, AllocError>
    ensures { IfOk result (λ made. made ≡ local_time a.now rule.now) }
{
    Ok(NewDeadline {
        party: a.party,
        rule: DeadlineRule::Local(a.rule.copied()?),
        initial: false,
        first: begun_locally(rule, a.method, a.start),
    })
}

/// The same, where the local rule was entered.
fn local_times(
    alloc: Global,
    found: &Option<LocalRule>,
    a: &LocalPeriod,
) -> Result<Vec<NewDeadline>, AllocError>
    ensures { IfOk result (λ made. made.items ≡ deadlines_made found.now (Action.LocalPeriod a.now)) }
{
    match found {
        Some(rule) => one(alloc, local_time(a, rule)?),
        None => Ok(Vec::new(alloc)),
    }
}

/// The deadlines that an action makes, by the local rule that it names, where that was entered.
pub(crate) fn deadlines_made(
    alloc: Global,
    found: &Option<LocalRule>,
    action: &Action,
) -> Result<Vec<NewDeadline>, AllocError>
    ensures { IfOk result (λ made. made.items ≡ deadlines_made found.now action.now) }
{
    match action {
        Action::ServeSummons(a) => one(alloc, summons_time(a)),
        Action::FileWaiver(a) => {
            let made = timed(a.party, waiver_rule(a.abroad), true, Method::Rule4, a.sent);
            one(alloc, made)
        }
        Action::ServePleading(a) => one(alloc, pleading_time(a)),
        Action::OrderReply(a) => {
            let served_by = a.method.into();
            let made = timed_or_set(a.party, Rule::ReplyToAnswer, served_by, a.served, a.due);
            one(alloc, made)
        }
        Action::Dispose(a) => statement_ordered(alloc, a),
        Action::NoticeHearing(a) => hearing_times(alloc, a),
        Action::OrderPeriod(a) => ordered_time(alloc, a),
        Action::EnterJudgment(a) => judgment_times(alloc, a),
        Action::LocalPeriod(a) => local_times(alloc, found, a),
        _ => Ok(Vec::new(alloc)),
    }
}

/// The act that a ruling on a motion is.
fn ruled(outcome: Ruling, notice: Day, due: Option<Day>) -> Act
    ensures { result ≡ ruled outcome notice due }
{
    match outcome {
        Ruling::Statement => Act::AwaitStatement(notice),
        Ruling::Denied | Ruling::Postponed => match due {
            Some(due) => Act::Fixed(due),
            None => Act::Resume(notice, false),
        },
    }
}

/// The act that an extension is, if it is by days or to a day and not both.
fn extension(days: Option<u32>, until: Option<Day>) -> Option<Act>
    ensures { option_to_list result ≡ extension days until }
{
    match days {
        Some(days) => match until {
            Some(_) => None,
            None => Some(Act::ExtendBy(days)),
        },
        None => match until {
            Some(until) => Some(Act::ExtendTo(until)),
            None => None,
        },
    }
}

/// The act that an action adds to the deadline that it names.
pub(crate) fn act_made(action: &Action) -> Option<Act>
    ensures { option_to_list result ≡ acts_made action.now }
{
    match action {
        Action::RuleMotion(a) => Some(Act::Motion(a.served, a.kind)),
        Action::Dispose(a) => Some(ruled(a.outcome, a.notice, a.due)),
        Action::StatementServed(a) => {
            let three_days = Rule::AnswerAfterStatement.adds_three(a.method.into());
            Some(Act::Resume(a.served, three_days))
        }
        Action::Extend(a) => extension(a.days, a.until),
        Action::Satisfy(a) => Some(Act::Done(a.at.seconds(), a.way)),
        Action::Vacate(_) => Some(Act::Vacated),
        _ => None,
    }
}
