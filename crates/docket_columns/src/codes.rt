//! The numbers in columns whose values are choices.
ghost use Rattle.std.specs.Prelude.{◌≡◌, Bool, Some};
ghost use Rattle.court_days.specs.declared.calendar.DayKind.{DayKind as Kind};
ghost use Rattle.court_days.specs.declared.calendar.Direction.{Direction as Course};
ghost use Rattle.court_days.specs.declared.filing.Way.{Way as Means};
ghost use Rattle.court_rules.specs.declared.act.MotionKind.{MotionKind as Motion};
ghost use Rattle.docket_command.specs.declared.choice.Role.{Role as Part};
ghost use Rattle.docket_columns.specs.Codes.{flag_number, role_number, direction_number, way_number, motion_number, day_kind_number};

use court_days::{DayKind, Direction, Way};
use court_rules::MotionKind;
use docket_command::Role;

pub(crate) fn flag_number(flag: bool) -> u32
    ensures { result ≡ flag_number flag }
{
    if flag { 1 } else { 0 }
}

pub(crate) fn flag_of(number: u32) -> Option<bool>
    ensures { (flag : Bool) → number ≡ flag_number flag → result ≡ Some flag }
{
    match number {
        0 => Some(false),
        1 => Some(true),
        _ => None,
    }
}

pub(crate) fn role_number(role: Role) -> u32
    ensures { result ≡ role_number role }
{
    match role {
        Role::Plaintiff => 1,
        Role::Defendant => 2,
        Role::Other => 3,
    }
}

pub(crate) fn role_of(number: u32) -> Option<Role>
    ensures { (role : Part) → number ≡ role_number role → result ≡ Some role }
{
    match number {
        1 => Some(Role::Plaintiff),
        2 => Some(Role::Defendant),
        3 => Some(Role::Other),
        _ => None,
    }
}

pub(crate) fn direction_number(direction: Direction) -> u32
    ensures { result ≡ direction_number direction }
{
    match direction {
        Direction::Forward => 1,
        Direction::Backward => 2,
    }
}

pub(crate) fn direction_of(number: u32) -> Option<Direction>
    ensures { (direction : Course) → number ≡ direction_number direction → result ≡ Some direction }
{
    match number {
        1 => Some(Direction::Forward),
        2 => Some(Direction::Backward),
        _ => None,
    }
}

pub(crate) fn way_number(way: Way) -> u32
    ensures { result ≡ way_number way }
{
    match way {
        Way::Electronic => 1,
        Way::Office => 2,
    }
}

pub(crate) fn way_of(number: u32) -> Option<Way>
    ensures { (way : Means) → number ≡ way_number way → result ≡ Some way }
{
    match number {
        1 => Some(Way::Electronic),
        2 => Some(Way::Office),
        _ => None,
    }
}

pub(crate) fn motion_number(kind: MotionKind) -> u32
    ensures { result ≡ motion_number kind }
{
    match kind {
        MotionKind::B => 1,
        MotionKind::E => 2,
        MotionKind::F => 3,
    }
}

pub(crate) fn motion_of(number: u32) -> Option<MotionKind>
    ensures { (kind : Motion) → number ≡ motion_number kind → result ≡ Some kind }
{
    match number {
        1 => Some(MotionKind::B),
        2 => Some(MotionKind::E),
        3 => Some(MotionKind::F),
        _ => None,
    }
}

pub(crate) fn day_kind_number(kind: DayKind) -> u32
    ensures { result ≡ day_kind_number kind }
{
    match kind {
        DayKind::Federal => 1,
        DayKind::State => 2,
        DayKind::Closed => 3,
    }
}

pub(crate) fn day_kind_of(number: u32) -> Option<DayKind>
    ensures { (kind : Kind) → number ≡ day_kind_number kind → result ≡ Some kind }
{
    match number {
        1 => Some(DayKind::Federal),
        2 => Some(DayKind::State),
        3 => Some(DayKind::Closed),
        _ => None,
    }
}
