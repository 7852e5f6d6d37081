//! Civil days: their numbers, their dates in the Gregorian calendar, their weekdays and texts, and
//! the days that lie whole months apart. Zones, local time, and the texts of zones and moments.
#![tactic(auto)]

mod day;
mod day_text;
mod laws;
mod local_time;
mod moment;
mod months;
mod reading;
mod zone;
mod zone_text;

pub use day::{Day, ymd_of};
pub use day_text::{day_bytes, read_day};
pub use laws::{months_are_found, texts_are_read_back};
pub use moment::{clock_bytes, read_moment};
pub use months::{months_earlier, months_later};
pub use reading::read_time_of_day;
pub use zone::{ChangeDate, SummerTime, Zone};
pub use zone_text::read_zone;
