//! Whether what a deadline asks for was filed in time.
ghost use Rattle.std.specs.Prelude.{◌≡◌};
ghost use Rattle.court_days.specs.LocalTime.{IsMoment};
ghost use Rattle.court_days.specs.Court.{zone_of};
ghost use Rattle.court_rules.specs.Standings.{AreActs};
ghost use Rattle.docket_questions.specs.Filings.{filed, filed_where};

use court_days::{Calendar, Court, Way, timely};
use court_rules::{Act, Standing, due};
use html_sheets::Filed;

/// Whether a filing at an instant was in time, by where the deadline stood then.
fn filed_where(court: &Court, calendar: &Calendar, at: i64, way: Way, standing: Standing) -> Filed
    requires { IsMoment at }
    ensures { result ≡ filed_where court.now calendar.now at way standing }
{
    match standing {
        Standing::Running(end) => match timely(court, calendar, end, at, way) {
            true => Filed::InTime,
            false => Filed::Late,
        },
        _ => Filed::Untimed,
    }
}

/// Whether what a deadline with these acts asks for was filed, and in time (Fed. R. Civ. P. 6(a)(4)). The
/// calendar is that of today: a day that the court entered since then counts.
pub(crate) fn filed(court: &Court, calendar: &Calendar, acts: &[Act]) -> Filed
    requires { AreActs (zone_of court.now) acts.now }
    ensures { result ≡ filed court.now calendar.now acts.now }
{
    let Some((last, before)) = acts.split_last() else {
        return Filed::Unfiled;
    };
    match *last {
        Act::Done(at, way) => {
            filed_where(court, calendar, at, way, due(court, calendar, before))
        }
        _ => Filed::Unfiled,
    }
}
