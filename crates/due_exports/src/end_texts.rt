//! The end of a deadline in texts.
ghost use Rattle.std.specs.Prelude.{◌≡◌, IfOk, option_map, string_bytes};
ghost use Rattle.due_exports.specs.Ends.{day_of_end, time_of_end, closing_of_end};

use court_days::{Court, End};
use docket_text::{ClockText, DayText, shown, shown_minute};
use std::alloc::{AllocError, Global};

/// The day and the time of an end, and when the clerk's office closes on it, where that matters.
#[derive(Drop)]
pub(crate) struct EndTexts {
    pub(crate) day: String,
    pub(crate) time: String,
    pub(crate) closing: Option<String>,
}

/// The texts of an end, with the minute of the day at which the clerk's office closes on a last day.
pub(crate) fn end_texts(
    alloc: Global,
    court: &Court,
    close: u32,
    end: End,
) -> Result<EndTexts, AllocError>
    ensures day { IfOk result (λ texts. string_bytes texts.day ≡ day_of_end court.now end) }
    ensures time { IfOk result (λ texts. string_bytes texts.time ≡ time_of_end court.now end) }
    ensures closing { IfOk result (λ texts. option_map string_bytes texts.closing ≡ closing_of_end close end) }
{
    match end {
        End::LastDay(day) => {
            let day = DayText(day);
            let close = shown_minute(close);
            Ok(EndTexts {
                day: format!(in alloc; "{day}")?,
                time: String::from_str(alloc, "24:00")?,
                closing: Some(format!(in alloc; "{close}")?),
            })
        }
        End::Moment(at) => {
            let (day, minute) = court.local(shown(at));
            let day = DayText(day);
            let time = ClockText { minute };
            Ok(EndTexts {
                day: format!(in alloc; "{day}")?,
                time: format!(in alloc; "{time}")?,
                closing: None,
            })
        }
    }
}
