//! The limits of a command's values.
ghost use Rattle.std.specs.Prelude.{◌≡◌, ◌&&◌, ◌∷◌, [], not, true, length, nat_le};
ghost use Rattle.std.specs.List.{list_all};
ghost use Rattle.court_days.specs.Court.{CourtSettings};
ghost use Rattle.docket_command.specs.declared.command.Action.TheVariants as action;
ghost use Rattle.docket_command.specs.declared.field.Field as field_name;
ghost use Rattle.docket_values.specs.Values.{is_entered, is_entered_at, is_plain, is_visible, is_short, is_text, is_word, first_bad, bad_values, bad_attorney, bad_attorney_method, bad_basis, bad_party, bad_until, bad_days, bad_choice, bad_day, bad_close, bad_text, bad_if, in_days, in_hours, is_fixed, most, bad_method, bad_order, is_new_day};

use court_days::{Court, Day, Direction};
use docket_command::{
    Action, Basis, CloseSpan, Dispose, Extend, Field, FileWaiver, LocalRule, Moment, NewDay,
    OpenCase, OrderPeriod, PeriodUnit, PleadingKind, Ruling, ServePleading, ServiceMethod,
    ShortDay, Text, TimeOfDay, is_local_name,
};

/// Whether a court may enter the day.
pub fn is_entered(day: Day) -> bool
    ensures { result ≡ is_entered day }
{
    court_days::is_entered(day)
}

/// Whether a court may enter the local day of the moment.
fn is_entered_at(court: &Court, at: Moment) -> bool
    ensures { result ≡ is_entered_at court.now at }
{
    let (day, _) = court.local(at.seconds());
    is_entered(day)
}

fn is_plain(byte: u8) -> bool
    ensures { result ≡ is_plain byte }
{
    0x20 <= byte && byte != 0x7F
}

fn is_visible(byte: u8) -> bool
    ensures { result ≡ is_visible byte }
{
    0x21 <= byte && byte <= 0x7E
}

fn are_plain(bytes: &[u8]) -> bool
    ensures { result ≡ list_all is_plain bytes.now }
{
    bytes.iter().all(|byte| is_plain(*byte))
}

fn are_visible(bytes: &[u8]) -> bool
    ensures { result ≡ list_all is_visible bytes.now }
{
    bytes.iter().all(|byte| is_visible(*byte))
}

fn is_short(limit: usize, text: &Text) -> bool
    ensures { result ≡ is_short limit text.now }
{
    let length = text.as_str().len();
    1 <= length && length <= limit
}

/// Whether it is 1 to `limit` bytes without a control byte.
pub fn is_text(limit: usize, text: &Text) -> bool
    ensures { result ≡ is_text limit text.now }
{
    is_short(limit, text) && are_plain(text.as_str().as_bytes())
}

/// Whether it is 1 to `limit` bytes from 0x21 to 0x7E.
pub fn is_word(limit: usize, text: &Text) -> bool
    ensures { result ≡ is_word limit text.now }
{
    is_short(limit, text) && are_visible(text.as_str().as_bytes())
}

fn bad_day(day: Day, field: Field) -> (bool, Field)
    ensures { result ≡ bad_day day field }
{
    (!is_entered(day), field)
}

/// The clerk's office closes on a short day before it closes on others.
fn bad_close(court: &Court, close: TimeOfDay) -> (bool, Field)
    ensures { result ≡ bad_close court.now close }
{
    (court.close_minute() <= close.minute(), Field::Close)
}

fn bad_name(name: &Text) -> (bool, Field)
    ensures { result ≡ bad_text 100 name.now Field.Name }
{
    (!is_text(100, name), Field::Name)
}

fn is_new_day(new: &NewDay) -> bool
    ensures { result ≡ is_new_day new.now }
{
    is_entered(new.day) && is_text(100, &new.name)
}

fn are_new_days(rows: &[NewDay]) -> bool
    ensures { result ≡ list_all is_new_day rows.now }
{
    rows.iter().all(|row| is_new_day(row))
}

fn is_bad_attorney(basis: Basis, attorney: Option<Day>) -> bool
    ensures { result ≡ bad_attorney basis attorney }
{
    match basis {
        Basis::Officer => match attorney {
            None => true,
            Some(day) => !is_entered(day),
        },
        _ => attorney.is_some(),
    }
}

/// The field of the first check that fails.
fn first_bad(checks: &[(bool, Field)]) -> Option<Field>
    ensures { result ≡ first_bad checks.now }
{
    for check in checks {
        if check.0 {
            return Some(check.1);
        }
    }
    None
}

fn is_bad_choice(day: Option<Day>) -> bool
    ensures { (field : field_name.Field) → (result, field) ≡ bad_choice day field }
{
    match day {
        Some(day) => !is_entered(day),
        None => false,
    }
}

fn is_bad_attorney_method(basis: Basis, method: Option<ServiceMethod>) -> bool
    ensures { result ≡ bad_attorney_method basis method }
{
    match basis {
        Basis::Officer => method.is_none(),
        _ => method.is_some(),
    }
}

fn is_bad_basis(kind: PleadingKind, basis: Basis) -> bool
    ensures { result ≡ bad_basis kind basis }
{
    match (kind, basis) {
        (PleadingKind::Unanswered, Basis::Private) => false,
        (PleadingKind::Unanswered, _) => true,
        _ => false,
    }
}

fn is_bad_party(outcome: Ruling, party: Option<u32>) -> bool
    ensures { result ≡ bad_party outcome party }
{
    match outcome {
        Ruling::Statement => party.is_none(),
        _ => party.is_some(),
    }
}

fn is_bad_until(days: Option<u32>, until: Option<Day>) -> bool
    ensures { result ≡ bad_until days until }
{
    match days {
        Some(_) => until.is_some(),
        None => match until {
            Some(until) => !is_entered(until),
            None => true,
        },
    }
}

fn is_bad_count(days: Option<u32>) -> bool
    ensures { result ≡ bad_days days }
{
    match days {
        Some(days) => !(1..=3650).contains(&days),
        None => false,
    }
}

fn bad_in_span(court: &Court, a: &CloseSpan) -> Option<Field>
    ensures { result ≡ first_bad (bad_values court.now (action.CloseSpan a.now)) }
{
    let is_empty = a.end.seconds() <= a.start.seconds();
    first_bad(&[
        (!is_entered_at(court, a.start), Field::Start),
        (!is_entered_at(court, a.end) || is_empty, Field::End),
    ])
}

fn bad_in_short_day(court: &Court, a: &ShortDay) -> Option<Field>
    ensures { result ≡ first_bad (bad_values court.now (action.ShortDay a.now)) }
{
    first_bad(&[
        bad_day(a.day, Field::Day),
        bad_close(court, a.close),
        bad_name(&a.name),
    ])
}

fn bad_in_import(rows: &[NewDay]) -> Option<Field>
    ensures { result ≡ first_bad ((not (nat_le (length rows.now) 1000 && list_all is_new_day rows.now), Field.Rows) ∷ []) }
{
    let are_good = rows.len() <= 1000 && are_new_days(rows);
    first_bad(&[(!are_good, Field::Rows)])
}

fn bad_in_case(a: &OpenCase) -> Option<Field>
    ensures { (court : CourtSettings) → result ≡ first_bad (bad_values court (action.OpenCase a.now)) }
{
    first_bad(&[
        (!is_word(40, &a.label), Field::Label),
        (!is_text(200, &a.caption), Field::Caption),
        (!is_entered(a.filed), Field::Filed),
    ])
}

fn bad_in_waiver(a: &FileWaiver) -> Option<Field>
    ensures { (court : CourtSettings) → result ≡ first_bad (bad_values court (action.FileWaiver a.now)) }
{
    let is_early = a.returned.epoch_day() < a.sent.epoch_day();
    first_bad(&[
        (!is_entered(a.sent), Field::Sent),
        (!(1..=3650).contains(&a.allowed), Field::Allowed),
        (!is_entered(a.returned) || is_early, Field::Returned),
    ])
}

fn bad_in_pleading(a: &ServePleading) -> Option<Field>
    ensures { (court : CourtSettings) → result ≡ first_bad (bad_values court (action.ServePleading a.now)) }
{
    first_bad(&[
        (is_bad_basis(a.kind, a.basis), Field::Basis),
        (!is_entered(a.served), Field::Served),
        (is_bad_attorney(a.basis, a.attorney), Field::Attorney),
        (
            is_bad_attorney_method(a.basis, a.attorney_method),
            Field::AttorneyMethod,
        ),
    ])
}

fn bad_in_ruling(a: &Dispose) -> Option<Field>
    ensures { (court : CourtSettings) → result ≡ first_bad (bad_values court (action.Dispose a.now)) }
{
    first_bad(&[
        (!is_entered(a.notice), Field::Notice),
        (is_bad_party(a.outcome, a.party), Field::Party),
        (is_bad_choice(a.due), Field::Due),
    ])
}

fn bad_in_extension(court: &Court, a: &Extend) -> Option<Field>
    ensures { result ≡ first_bad (bad_values court.now (action.Extend a.now)) }
{
    first_bad(&[
        (!is_entered_at(court, a.at), Field::At),
        (is_bad_count(a.days), Field::Days),
        (is_bad_until(a.days, a.until), Field::Until),
    ])
}

fn is_in_days(unit: PeriodUnit) -> bool
    ensures { result ≡ in_days unit }
{
    matches!(unit, PeriodUnit::Days | PeriodUnit::Months)
}

/// The most that a period of the unit may count.
fn most(unit: PeriodUnit) -> u32
    ensures { result ≡ most unit }
{
    match unit {
        PeriodUnit::Days => 3650,
        PeriodUnit::Months => 120,
        PeriodUnit::Hours => 8760,
        PeriodUnit::Fixed => 0,
    }
}

fn is_bad_start(unit: PeriodUnit, start: Option<Day>) -> bool
    ensures { result ≡ bad_if (in_days unit) is_entered start }
{
    match start {
        Some(day) => !is_in_days(unit) || !is_entered(day),
        None => is_in_days(unit),
    }
}

fn is_bad_at(court: &Court, unit: PeriodUnit, at: Option<Moment>) -> bool
    ensures { result ≡ bad_if (in_hours unit) (is_entered_at court.now) at }
{
    let is_wanted = matches!(unit, PeriodUnit::Hours);
    match at {
        Some(at) => !is_wanted || !is_entered_at(court, at),
        None => is_wanted,
    }
}

fn is_bad_length(unit: PeriodUnit, count: Option<u32>) -> bool
    ensures { result ≡ bad_if (not (is_fixed unit)) (λ count. nat_le 1 count && nat_le count (most unit)) count }
{
    let is_wanted = !matches!(unit, PeriodUnit::Fixed);
    match count {
        Some(count) => !is_wanted || !(1..=most(unit)).contains(&count),
        None => is_wanted,
    }
}

fn is_bad_direction(unit: PeriodUnit, direction: Option<Direction>) -> bool
    ensures { result ≡ bad_if (not (is_fixed unit)) (λ _. true) direction }
{
    direction.is_some() == matches!(unit, PeriodUnit::Fixed)
}

fn is_bad_method(
    unit: PeriodUnit,
    direction: Option<Direction>,
    method: Option<ServiceMethod>,
) -> bool
    ensures { result ≡ bad_method unit direction method }
{
    match (direction, method) {
        (_, None) => false,
        (Some(Direction::Forward), Some(_)) => !is_in_days(unit),
        (_, Some(_)) => true,
    }
}

fn is_bad_fixed(unit: PeriodUnit, until: Option<Day>) -> bool
    ensures { result ≡ bad_if (is_fixed unit) is_entered until }
{
    let is_wanted = matches!(unit, PeriodUnit::Fixed);
    match until {
        Some(day) => !is_wanted || !is_entered(day),
        None => is_wanted,
    }
}

fn bad_in_order(court: &Court, a: &OrderPeriod) -> Option<Field>
    ensures { result ≡ first_bad (bad_order court.now a.now) }
{
    first_bad(&[
        (is_bad_start(a.unit, a.start), Field::Start),
        (is_bad_at(court, a.unit, a.at), Field::At),
        (is_bad_length(a.unit, a.count), Field::Count),
        (is_bad_direction(a.unit, a.direction), Field::Direction),
        (is_bad_method(a.unit, a.direction, a.method), Field::Method),
        (is_bad_fixed(a.unit, a.until), Field::Until),
    ])
}

fn bad_in_local_rule(a: &LocalRule) -> Option<Field>
    ensures { (court : CourtSettings) → result ≡ first_bad (bad_values court (action.LocalRule a.now)) }
{
    let is_backward = matches!(a.direction, Direction::Backward);
    first_bad(&[
        (!is_local_name(a.name.as_str()), Field::Name),
        (!(1..=3650).contains(&a.days), Field::Days),
        (a.three && is_backward, Field::Three),
    ])
}

/// The first field whose value is bad.
pub fn bad_field(court: &Court, action: &Action) -> Option<Field>
    ensures { result ≡ first_bad (bad_values court.now action.now) }
{
    match action {
        Action::DeclareDay(a) => first_bad(&[bad_day(a.day, Field::Day), bad_name(&a.name)]),
        Action::CloseDay(a) => first_bad(&[bad_day(a.day, Field::Day), bad_name(&a.name)]),
        Action::CloseSpan(a) => bad_in_span(court, a),
        Action::ShortDay(a) => bad_in_short_day(court, a),
        Action::WithdrawCalendar(_) => None,
        Action::ImportCalendar(a) => bad_in_import(a.rows.as_slice()),
        Action::OpenCase(a) => bad_in_case(a),
        Action::AddParty(a) => first_bad(&[bad_name(&a.name)]),
        Action::FileEntry(a) => first_bad(&[
            bad_day(a.day, Field::Day),
            (!is_text(2000, &a.text), Field::Text),
        ]),
        Action::ServeSummons(a) => first_bad(&[
            bad_day(a.served, Field::Served),
            (is_bad_attorney(a.basis, a.attorney), Field::Attorney),
        ]),
        Action::FileWaiver(a) => bad_in_waiver(a),
        Action::ServePleading(a) => bad_in_pleading(a),
        Action::OrderReply(a) => first_bad(&[
            bad_day(a.served, Field::Served),
            (is_bad_choice(a.due), Field::Due),
        ]),
        Action::RuleMotion(a) => first_bad(&[bad_day(a.served, Field::Served)]),
        Action::Dispose(a) => bad_in_ruling(a),
        Action::StatementServed(a) => first_bad(&[bad_day(a.served, Field::Served)]),
        Action::NoticeHearing(a) => first_bad(&[bad_day(a.hearing, Field::Hearing)]),
        Action::OrderPeriod(a) => bad_in_order(court, a),
        Action::EnterJudgment(a) => first_bad(&[
            bad_day(a.entered, Field::Entered),
            (is_bad_choice(a.discharged), Field::Discharged),
        ]),
        Action::Extend(a) => bad_in_extension(court, a),
        Action::Satisfy(a) => first_bad(&[(!is_entered_at(court, a.at), Field::At)]),
        Action::Vacate(_) => None,
        Action::LocalRule(a) => bad_in_local_rule(a),
        Action::LocalPeriod(a) => first_bad(&[bad_day(a.start, Field::Start)]),
    }
}
