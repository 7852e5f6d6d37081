//! A court: its zone, and the minute of the day at which the clerk's office closes.
ghost use Rattle.std.specs.Prelude.{◌≡◌, ◌↔◌, ℕ, ◌-◌, ◌%◌, ◌<◌, ◌≤◌, None, Some, pos, IfOk, IsTrue, IsSome, string_bytes};
ghost use Rattle.std.specs.Str.{IsUtf8};
ghost use Rattle.civil_time.specs.LocalTime.{local_day, local_minute, seconds, IsMoment};
ghost use Rattle.civil_time.specs.MomentGrammar.{SpellsMoment, SpellsTimeOfDay};
ghost use Rattle.civil_time.specs.MomentText.{moment_text};
ghost use Rattle.civil_time.specs.Reading.{time_of_day_at};
ghost use Rattle.civil_time.specs.Zone.{IsZone};
ghost use Rattle.civil_time.specs.ZoneGrammar.{SpellsZone};
ghost use Rattle.civil_time.specs.ZoneText.{zone_at};

use civil_time::{Day, Zone, read_time_of_day, read_zone};
use std::alloc::{AllocError, Global};
use std::marker::Model;

const MINUTES_OF_A_DAY: u32 = 1440;

/// Why a court was not read: the first text is no zone, the second is no closing time, or memory ran
/// out.
#[derive(Clone, Copy, PartialEq, Eq)]
pub enum CourtFault {
    BadZone,
    BadClose,
    NoMemory,
}

impl From<AllocError> for CourtFault {
    ghost use Rattle.std.specs.Prelude.{◌≡◌};
    ghost use Rattle.court_days.specs.declared.court.CourtFault.TheVariants.{NoMemory};

    ghost from_gives = { λ _ fault. fault ≡ NoMemory };

    fn from(_: AllocError) -> Self {
        CourtFault::NoMemory
    }
}

/// The zone of a court, and when the clerk's office closes.
#[derive(Drop)]
pub struct Court {
    zone: Zone,
    zone_text: String,
    close_minute: u32,
}

impl Model for Court {
    ghost use Rattle.court_days.specs.Court.{CourtSettings};
    ghost use Rattle.court_days.specs.CourtKept.{settings_in, IsCourt};

    ghost Value = { CourtSettings };

    ghost view = { settings_in };

    ghost invariant = { IsCourt };
}

impl Court {
    ghost use Rattle.court_days.specs.Court.{zone_of};

    /// The court whose zone and closing time the texts spell: a zone as in `EST5EDT,M3.2.0,M11.1.0`,
    /// and a time of day from `00:00` to `23:59`.
    pub fn read(alloc: Global, zone: &str, close: &str) -> Result<Court, CourtFault>
        // The faults, in the order in which they are checked.
        ensures bad_zone { (result ≡ Err CourtFault.BadZone) ↔ (zone_at zone.now ≡ None) }
        ensures bad_close { (result ≡ Err CourtFault.BadClose)
            ↔ (IsSome (zone_at zone.now) × (time_of_day_at close.now ≡ None)) }

        ensures text { IfOk result (λ court. court.zone_text ≡ zone.now) }
        ensures zone { IfOk result (λ court. zone_at zone.now ≡ Some (zone_of court)) }
        ensures close { IfOk result (λ court. time_of_day_at close.now ≡ Some court.close_minute) }
        ensures zone_grammar { IfOk result (λ court. SpellsZone (zone_of court) zone.now) }
        ensures close_grammar { IfOk result (λ court. SpellsTimeOfDay court.close_minute close.now) }
    {
        let Some(read) = read_zone(zone.as_bytes()) else {
            return Err(CourtFault::BadZone);
        };
        let close_minute = read_time_of_day(close.as_bytes()).ok_or(CourtFault::BadClose)?;
        let zone_text = String::from_str(alloc, zone)?;
        Ok(Court {
            zone: read,
            zone_text,
            close_minute,
        })
    }

    /// The court of a zone, as in `EST5EDT,M3.2.0,M11.1.0`, which closes at a minute of the day, from 0
    /// to 1439.
    pub fn closing_at(alloc: Global, zone: &str, close_minute: u32) -> Result<Court, CourtFault>
        ensures bad_zone { (result ≡ Err CourtFault.BadZone) ↔ (zone_at zone.now ≡ None) }
        ensures bad_close { (result ≡ Err CourtFault.BadClose)
            ↔ (IsSome (zone_at zone.now) × (1440 ≤ close_minute)) }
        ensures court { IfOk result (λ court. court ≡ record { zone_text = zone.now; close_minute = close_minute }) }
    {
        let Some(read) = read_zone(zone.as_bytes()) else {
            return Err(CourtFault::BadZone);
        };
        if close_minute >= MINUTES_OF_A_DAY {
            return Err(CourtFault::BadClose);
        }
        let text = String::from_str(alloc, zone)?;
        Ok(Court {
            zone: read,
            zone_text: text,
            close_minute,
        })
    }

    /// The zone.
    pub(crate) fn zone(&self) -> &Zone
        ensures value { result.now ≡ zone_of self.now }
        ensures limits { IsZone result.now }
    {
        &self.zone
    }

    /// The text of the zone, as it was read.
    pub fn zone_text(&self) -> &str
        ensures value { result.now ≡ self.now.zone_text }
        ensures zone { IsSome (zone_at self.now.zone_text) }
    {
        self.zone_text.as_str()
    }

    /// The minute of the day, after 00:00, at which the clerk's office closes.
    pub fn close_minute(&self) -> u32
        ensures value { result ≡ self.now.close_minute }
        ensures limit { result < 1440 }
    {
        self.close_minute
    }

    /// The local day at the instant and the minute of that day, rounded down. The instant is in
    /// seconds since 1970-01-01T00:00Z, from 1980-01-03T00:00Z to 3999-12-29T00:00Z.
    pub fn local(&self, at: i64) -> (Day, u32)
        requires { IsMoment at }
        ensures day { result.0 ≡ local_day (zone_of self.now) (seconds at) }
        ensures minute { result.1 ≡ local_minute (zone_of self.now) (seconds at) }
        ensures limit { result.1 < 1440 }
    {
        self.zone().local(at)
    }

    /// The local time at the instant, rounded down to the minute, with the offset then in force, as
    /// `YYYY-MM-DDTHH:MM+HH:00`. The instant is one as for `local`.
    pub fn moment_bytes(&self, at: i64) -> [u8; 22]
        requires { IsMoment at }
        ensures value { result ≡ moment_text (zone_of self.now) (seconds at) }
        ensures means { SpellsMoment (pos (seconds at - seconds at % 60)) result }
        ensures text { IsUtf8 result }
    {
        self.zone().moment_bytes(at)
    }

    /// The same as a `String`.
    pub fn moment_text(&self, alloc: Global, at: i64) -> Result<String, AllocError>
        requires { IsMoment at }
        ensures { IfOk result (λ text. string_bytes text ≡ moment_text (zone_of self.now) (seconds at)) }
    {
        self.zone().moment_text(alloc, at)
    }
}
