//! Local time beside jiff's zones, clock changes, and the instants of local times.
use civil_time::{Zone, read_moment, read_zone};
use jiff::Timestamp;
use jiff::tz::TimeZone;
use std::test::Fail;

const EASTERN: &str = "EST5EDT,M3.2.0,M11.1.0";

/// A zone whose clock changes on Wednesdays.
const MIDWEEK: &str = "AST5ADT,M3.2.3,M11.1.3";

const NEW_ZEALAND: &str = "NZST-12NZDT,M9.5.0,M4.1.0";

/// Whether the zone writes the instant as the text, which is read as the instant of its minute.
fn is_written(zone: &str, at: i64, text: &[u8]) -> bool {
    match read_zone(zone.as_bytes()) {
        Some(zone) if (315_705_600..=64_060_329_600).contains(&at) => {
            zone.moment_bytes(at).as_slice() == text && read_moment(text) == Some(at - at % 60)
        }
        _ => false,
    }
}

/// The last second before each clock change and the change itself, and the ends of the limits.
const MOMENTS: [(&str, i64, &str); 12] = [
    (EASTERN, 1_741_503_599, "2025-03-09T01:59-05:00"),
    (EASTERN, 1_741_503_600, "2025-03-09T03:00-04:00"),
    (EASTERN, 1_762_063_199, "2025-11-02T01:59-04:00"),
    (EASTERN, 1_762_063_200, "2025-11-02T01:00-05:00"),
    (EASTERN, 64_003_244_399, "3998-03-08T01:59-05:00"),
    (EASTERN, 64_003_244_400, "3998-03-08T03:00-04:00"),
    (NEW_ZEALAND, 1_743_857_999, "2025-04-06T01:59+13:00"),
    (NEW_ZEALAND, 1_743_858_000, "2025-04-06T01:00+12:00"),
    (NEW_ZEALAND, 1_758_981_599, "2025-09-28T01:59+12:00"),
    (NEW_ZEALAND, 1_758_981_600, "2025-09-28T03:00+13:00"),
    ("UTC0", 315_705_600, "1980-01-03T00:00+00:00"),
    ("UTC0", 64_060_329_600, "3999-12-29T00:00+00:00"),
];

#[test]
fn clock_changes(rt: HostRuntime) {
    for (zone, at, text) in MOMENTS {
        assert!(rt; is_written(zone, at, text.as_bytes()), "{text}");
    }
}

/// The two clock changes of 2000, 2025, 2099 and 3998.
const CHANGES: [(&str, i64, i64); 12] = [
    (EASTERN, 952_844_400, 973_404_000),
    (EASTERN, 1_741_503_600, 1_762_063_200),
    (EASTERN, 4_076_636_400, 4_097_196_000),
    (EASTERN, 64_003_244_400, 64_023_804_000),
    (MIDWEEK, 952_498_800, 973_058_400),
    (MIDWEEK, 1_741_762_800, 1_762_322_400),
    (MIDWEEK, 4_076_895_600, 4_097_455_200),
    (MIDWEEK, 64_003_503_600, 64_024_063_200),
    (NEW_ZEALAND, 954_594_000, 969_717_600),
    (NEW_ZEALAND, 1_743_858_000, 1_758_981_600),
    (NEW_ZEALAND, 4_078_990_800, 4_094_114_400),
    (NEW_ZEALAND, 64_005_598_800, 64_020_722_400),
];

/// The hours that jiff's clock is ahead of Greenwich at the instant.
fn jiff_hours(zone: &TimeZone, at: i64) -> Option<i64> {
    let instant = Timestamp::from_second(at).ok()?;
    Some(i64::from(zone.to_offset(instant).seconds() / 3600))
}

/// Whether our clock changes at the instant, and shows the time of jiff's before and after it.
fn change_alike(ours: &Zone, theirs: &TimeZone, at: i64) -> bool {
    if at <= 315_705_600 || at > 64_060_329_600 {
        return false;
    }
    let before = ours.offset_in_force((at - 1) as u64);
    let after = ours.offset_in_force(at as u64);
    before != after
        && jiff_hours(theirs, at - 1) == Some(before)
        && jiff_hours(theirs, at) == Some(after)
}

#[test]
fn zones_agree(rt: HostRuntime) -> Result<(), Fail> {
    for (text, first, second) in CHANGES {
        let ours = read_zone(text.as_bytes()).ok_or("no zone")?;
        let theirs = TimeZone::posix(text)?;
        assert!(rt; change_alike(&ours, &theirs, first), "{text} at {first}");
        assert!(rt; change_alike(&ours, &theirs, second), "{text} at {second}");
    }
    Ok(())
}

/// The instant of a local time.
fn instant_of(zone: &str, local: u64) -> Option<u64> {
    let zone = read_zone(zone.as_bytes())?;
    if !(259_200..64_060_588_800).contains(&local) {
        return None;
    }
    Some(zone.instant_of(local))
}

/// Local times of one day, in a gap, in a fold and beside them, and their instants.
const LOCAL_TIMES: [(&str, u64, u64); 5] = [
    (EASTERN, 1_741_487_400, 1_741_505_400),
    (EASTERN, 1_762_047_000, 1_762_061_400),
    (EASTERN, 1_751_371_200, 1_751_385_600),
    (NEW_ZEALAND, 1_759_026_600, 1_758_983_400),
    (NEW_ZEALAND, 1_743_903_000, 1_743_856_200),
];

#[test]
fn instants_of_local_times(rt: HostRuntime) {
    for (zone, local, instant) in LOCAL_TIMES {
        assert!(rt; instant_of(zone, local) == Some(instant), "{local}");
    }
}
