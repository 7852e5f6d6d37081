//! Why a command is refused, and the reply to an accepted one.
ghost use Rattle.std.specs.Prelude.{◌≡◌};
ghost use Rattle.docket_command.specs.Refusals.{refusal_number, refusal_name};

use crate::field::Field;

/// Why a command is refused.
#[derive(Clone, Copy)]
pub enum Refusal {
    /// The key is not 1 to 64 bytes from 0x21 to 0x7E.
    BadKey,
    /// Another command was accepted under the key.
    KeyReused,
    /// The first field, in the order of the fields, with a value that it may not have.
    BadValue(Field),
    NoSuchCase,
    NoSuchParty,
    NoSuchDeadline,
    /// The calendar has no such row, or it was withdrawn.
    NoSuchCalendarRow,
    /// No local rule has that name.
    NoSuchLocalRule,
    /// What is to be entered is there already.
    Exists,
    /// The deadline does not run, or is done or vacated.
    NotOpen,
    /// The deadline is not in the state that the command follows.
    NotAwaiting,
    /// A motion does not alter the times of the deadline's rule.
    NotResponsive,
    /// No motion for a more definite statement suspended the deadline.
    WrongMotion,
    /// The motion was served after the last day.
    AfterDeadline,
    /// The party has the deadline of a first answer already.
    AlreadyServed,
    /// The request for a waiver allows too few days.
    ShortWaiver,
    /// The waiver came back late.
    LateWaiver,
    /// The times of the deadline's rule are never extended (Fed. R. Civ. P. 6(b)(2)).
    MayNotExtend,
    /// The time had expired, without excusable neglect (Fed. R. Civ. P. 6(b)(1)).
    Expired,
    /// The new day is not later than the last day.
    NotLater,
    /// The docket has no room.
    Full,
}

/// The reply to an accepted command.
#[derive(Clone, Copy)]
pub struct Reply {
    pub number: u32,
}

impl Refusal {
    /// Its number, from 1, which replies show. Refusals are checked in the order of their numbers, but
    /// for `NoSuchLocalRule`, which is checked after `NoSuchCalendarRow`.
    pub fn number(self) -> u32
        ensures { result ≡ refusal_number self }
    {
        match self {
            Refusal::BadKey => 1,
            Refusal::KeyReused => 2,
            Refusal::BadValue(_) => 3,
            Refusal::NoSuchCase => 4,
            Refusal::NoSuchParty => 5,
            Refusal::NoSuchDeadline => 6,
            Refusal::NoSuchCalendarRow => 7,
            Refusal::NoSuchLocalRule => 21,
            Refusal::Exists => 8,
            Refusal::NotOpen => 9,
            Refusal::NotAwaiting => 10,
            Refusal::NotResponsive => 11,
            Refusal::WrongMotion => 12,
            Refusal::AfterDeadline => 13,
            Refusal::AlreadyServed => 14,
            Refusal::ShortWaiver => 15,
            Refusal::LateWaiver => 16,
            Refusal::MayNotExtend => 17,
            Refusal::Expired => 18,
            Refusal::NotLater => 19,
            Refusal::Full => 20,
        }
    }

    /// Its name.
    pub fn name(self) -> &'static str
        ensures { result.now ≡ refusal_name self }
    {
        match self {
            Refusal::BadKey => "BadKey",
            Refusal::KeyReused => "KeyReused",
            Refusal::BadValue(_) => "BadValue",
            Refusal::NoSuchCase => "NoSuchCase",
            Refusal::NoSuchParty => "NoSuchParty",
            Refusal::NoSuchDeadline => "NoSuchDeadline",
            Refusal::NoSuchCalendarRow => "NoSuchCalendarRow",
            Refusal::NoSuchLocalRule => "NoSuchLocalRule",
            Refusal::Exists => "Exists",
            Refusal::NotOpen => "NotOpen",
            Refusal::NotAwaiting => "NotAwaiting",
            Refusal::NotResponsive => "NotResponsive",
            Refusal::WrongMotion => "WrongMotion",
            Refusal::AfterDeadline => "AfterDeadline",
            Refusal::AlreadyServed => "AlreadyServed",
            Refusal::ShortWaiver => "ShortWaiver",
            Refusal::LateWaiver => "LateWaiver",
            Refusal::MayNotExtend => "MayNotExtend",
            Refusal::Expired => "Expired",
            Refusal::NotLater => "NotLater",
            Refusal::Full => "Full",
        }
    }
}
