//! The words of the causes for which a day is passed over.
ghost use Rattle.std.specs.Prelude.{◌≡◌};
ghost use Rattle.reason_lines.specs.CauseWords.{holiday_name, observed_word, lead, on_weekend, by_statute, by_federal, by_state, by_closing};

use court_reasons::{Causes, Holiday, StatutoryHoliday};
use std::fmt;

/// The name of a holiday.
fn holiday_name(holiday: Holiday) -> &'static str
    ensures { result.now ≡ holiday_name holiday }
{
    match holiday {
        Holiday::NewYear => "New Year's Day",
        Holiday::King => "Martin Luther King Jr.'s Birthday",
        Holiday::Washington => "Washington's Birthday",
        Holiday::Memorial => "Memorial Day",
        Holiday::Juneteenth => "Juneteenth",
        Holiday::Independence => "Independence Day",
        Holiday::Labor => "Labor Day",
        Holiday::Columbus => "Columbus Day",
        Holiday::Veterans => "Veterans' Day",
        Holiday::Thanksgiving => "Thanksgiving Day",
        Holiday::Christmas => "Christmas Day",
    }
}

fn observed_word(observed: bool) -> &'static str
    ensures { result.now ≡ observed_word observed }
{
    if observed { " (observed)" } else { "" }
}

/// What separates a cause from one before it.
fn lead(before: bool) -> &'static str
    ensures { result.now ≡ lead before }
{
    if before { "; " } else { "" }
}

/// A statutory holiday, if the day is one.
#[derive(Clone, Copy)]
struct StatutoryCause {
    before: bool,
    statutory: Option<StatutoryHoliday>,
}

impl fmt::Display for StatutoryCause {
    ghost use Rattle.std.specs.Prelude.{Some};
    ghost use Rattle.reason_lines.specs.CauseWords.{statutory_cause};

    ghost output = { λ cause. Some (statutory_cause cause.before cause.statutory) };

    fn fmt<W: fmt::Write>(&self, f: &mut fmt::Formatter<W>) -> fmt::Result {
        match self.statutory {
            Some(statutory) => {
                let lead = lead(self.before);
                let name = holiday_name(statutory.holiday);
                let observed = observed_word(statutory.observed);
                write!(f, "{lead}{name}{observed}, 6(a)(6)(A)")
            }
            None => Ok(()),
        }
    }
}

/// The words of a cause, where it is true of the day.
#[derive(Clone, Copy)]
struct Cause<'a> {
    before: bool,
    is_true: bool,
    words: &'a str,
}

impl fmt::Display for Cause<'_> {
    ghost use Rattle.std.specs.Prelude.{Some};
    ghost use Rattle.reason_lines.specs.CauseWords.{cause_words};

    ghost output = { λ cause. Some (cause_words cause.before cause.is_true cause.words.now) };

    fn fmt<W: fmt::Write>(&self, f: &mut fmt::Formatter<W>) -> fmt::Result {
        if !self.is_true {
            return Ok(());
        }
        let lead = lead(self.before);
        let words = self.words;
        write!(f, "{lead}{words}")
    }
}

/// Whether the day is a Saturday or a Sunday.
fn on_weekend(causes: &Causes) -> bool
    ensures { result ≡ on_weekend causes.now }
{
    causes.saturday || causes.sunday
}

/// Whether it is that, or a holiday of statute; and so on.
fn by_statute(causes: &Causes) -> bool
    ensures { result ≡ by_statute causes.now }
{
    on_weekend(causes) || causes.statutory.is_some()
}

fn by_federal(causes: &Causes) -> bool
    ensures { result ≡ by_federal causes.now }
{
    by_statute(causes) || causes.federal
}

fn by_state(causes: &Causes) -> bool
    ensures { result ≡ by_state causes.now }
{
    by_federal(causes) || causes.state
}

fn by_closing(causes: &Causes) -> bool
    ensures { result ≡ by_closing causes.now }
{
    by_state(causes) || causes.closed
}

/// The causes of a weekend.
#[derive(Clone, Copy)]
struct WeekendText<'a>(&'a Causes);

impl fmt::Display for WeekendText<'_> {
    ghost use Rattle.std.specs.Prelude.{Some};
    ghost use Rattle.reason_lines.specs.CauseWords.{weekend_text};

    ghost output = { λ causes. Some (weekend_text causes.0.now) };

    fn fmt<W: fmt::Write>(&self, f: &mut fmt::Formatter<W>) -> fmt::Result {
        let causes = self.0;
        let saturday = Cause {
            before: false,
            is_true: causes.saturday,
            words: "Saturday",
        };
        let sunday = Cause {
            before: causes.saturday,
            is_true: causes.sunday,
            words: "Sunday",
        };
        write!(f, "{saturday}{sunday}")
    }
}

/// The causes that are legal holidays (Fed. R. Civ. P. 6(a)(6)).
#[derive(Clone, Copy)]
struct HolidayText<'a>(&'a Causes);

impl fmt::Display for HolidayText<'_> {
    ghost use Rattle.std.specs.Prelude.{Some};
    ghost use Rattle.reason_lines.specs.CauseWords.{holiday_text};

    ghost output = { λ causes. Some (holiday_text causes.0.now) };

    fn fmt<W: fmt::Write>(&self, f: &mut fmt::Formatter<W>) -> fmt::Result {
        let causes = self.0;
        let statutory = StatutoryCause {
            before: on_weekend(causes),
            statutory: causes.statutory,
        };
        let federal = Cause {
            before: by_statute(causes),
            is_true: causes.federal,
            words: "declared by the President or Congress, 6(a)(6)(B)",
        };
        let state = Cause {
            before: by_federal(causes),
            is_true: causes.state,
            words: "declared by the state, 6(a)(6)(C)",
        };
        write!(f, "{statutory}{federal}{state}")
    }
}

/// The causes for which no paper could be filed (6(a)(3)).
#[derive(Clone, Copy)]
struct ClosureText<'a>(&'a Causes);

impl fmt::Display for ClosureText<'_> {
    ghost use Rattle.std.specs.Prelude.{Some};
    ghost use Rattle.reason_lines.specs.CauseWords.{closure_text};

    ghost output = { λ causes. Some (closure_text causes.0.now) };

    fn fmt<W: fmt::Write>(&self, f: &mut fmt::Formatter<W>) -> fmt::Result {
        let causes = self.0;
        let closed = Cause {
            before: by_state(causes),
            is_true: causes.closed,
            words: "clerk's office closed, 6(a)(3)(A)",
        };
        let hour = Cause {
            before: by_closing(causes),
            is_true: causes.inaccessible,
            words: "clerk's office closed in the hour before, 6(a)(3)(B)",
        };
        write!(f, "{closed}{hour}")
    }
}

/// Each cause that is true of a day.
#[derive(Clone, Copy)]
pub(crate) struct CausesText<'a>(pub(crate) &'a Causes);

impl fmt::Display for CausesText<'_> {
    ghost use Rattle.std.specs.Prelude.{Some};
    ghost use Rattle.reason_lines.specs.CauseWords.{causes_text};

    ghost output = { λ causes. Some (causes_text causes.0.now) };

    fn fmt<W: fmt::Write>(&self, f: &mut fmt::Formatter<W>) -> fmt::Result {
        let weekend = WeekendText(self.0);
        let holiday = HolidayText(self.0);
        let closure = ClosureText(self.0);
        write!(f, "{weekend}{holiday}{closure}")
    }
}
