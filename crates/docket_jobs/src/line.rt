//! The arguments of the subcommands.
ghost use Rattle.std.specs.Prelude.{◌≡◌, map};
ghost use Rattle.docket_jobs.specs.Arguments.{rule_read};
ghost use Rattle.docket_jobs.specs.CommandLine.{rules_of};

use crate::argument::Argument::{self, Flag, May, MayPlace, Must, Or, Place};
use crate::verb::Verb;

const FILE_TEXT: &str = "The docket's file, of SQLite";

const FILE: Argument = Must("db", "FILE", FILE_TEXT);

/// The file where it may be left out.
const SOME_FILE: Argument = May("db", "FILE", FILE_TEXT);

const ZONE_TEXT: &str = "The court's zone, as EST5EDT,M3.2.0,M11.1.0";

const CLOSE_TEXT: &str = "When the clerk's office closes";

const FROM: Argument = MayPlace("from", "FROM", "The first day, as 2027-01-01");

const TO: Argument = MayPlace("to", "TO", "The last day");

/// The arguments of `enter` behind a kind, but for those of the kind's fields.
pub(crate) static ENTRY: [Argument; 3] = [
    FILE,
    May(
        "key",
        "KEY",
        "The key of the command, of 1 to 64 bytes; else one is made of the day and the command",
    ),
    Flag("show", "Print what the command would do, and enter nothing"),
];

/// The arguments of a subcommand.
pub(crate) fn arguments_of(verb: Verb) -> &'static [Argument]
    ensures { map rule_read result.now ≡ rules_of verb }
{
    match verb {
        Verb::Count => &[],
        Verb::Create => &[
            FILE,
            Must("zone", "ZONE", ZONE_TEXT),
            Must("close", "HH:MM", CLOSE_TEXT),
        ],
        Verb::Run => &[
            SOME_FILE,
            Or("zone", "ZONE", ZONE_TEXT, "UTC0"),
            Or("close", "HH:MM", CLOSE_TEXT, "17:00"),
        ],
        Verb::Enter => &[MayPlace("kind", "KIND", "The kind of the command")],
        Verb::Commands => &[MayPlace("kind", "KIND", "The kind whose fields are printed")],
        Verb::Import => &[
            FILE,
            Must("key", "KEY", "The key of the command, of 1 to 64 bytes"),
        ],
        Verb::Case => &[FILE, Place("number", "NUMBER", "The number of the case")],
        Verb::Cases => &[
            FILE,
            May("label", "LABEL", "Only the case with this label"),
            May(
                "party",
                "TEXT",
                "Only cases with a party whose name holds TEXT",
            ),
            May(
                "find",
                "WORDS",
                "Only cases found by their docket number, caption or a name",
            ),
        ],
        Verb::Calendar => &[
            FILE,
            Flag("today", "In place of FROM and TO, today"),
            Flag("week", "Today and the six days after it"),
            Flag("overdue", "Every day before today"),
            Flag(
                "long",
                "Lines with docket numbers, words of rules and names",
            ),
            FROM,
            TO,
        ],
        Verb::Export => &[
            FILE,
            Must("as", "FORM", "The format: ics, html, csv or json"),
            May(
                "case",
                "NUMBER",
                "Instead of days, the docket sheet of the case with this number",
            ),
            FROM,
            TO,
        ],
        Verb::Explain => &[
            SOME_FILE,
            MayPlace("case", "CASE", "The number of the case"),
            MayPlace("deadline", "DEADLINE", "The number of its deadline"),
        ],
        Verb::Check => &[FILE],
        Verb::Backup => &[
            FILE,
            Must(
                "to",
                "COPY",
                "The file of the copy, which must not be there yet",
            ),
        ],
        Verb::Migrate => &[FILE],
        Verb::Serve => &[
            FILE,
            May(
                "port",
                "P",
                "The port at 127.0.0.1, or 0 for one that is free",
            ),
            May("socket", "PATH", "In place of a port, the file of a socket"),
            May("count", "N", "How many connections are served"),
            Flag("endless", "Serve until a signal ends the run"),
            Flag(
                "pages",
                "Let people look things up and enter commands in a browser, at /pages",
            ),
            Flag(
                "guard",
                "Refuse what a page from elsewhere asks for, as with --pages",
            ),
            May(
                "origin",
                "ORIGIN",
                "Where the docket is found besides, as https://docket.example of a proxy",
            ),
        ],
        Verb::Rules => &[SOME_FILE],
        Verb::Holidays => &[
            SOME_FILE,
            Place(
                "year",
                "YEAR",
                "A year from 2000 to 2099; with --db the first day, FROM",
            ),
            MayPlace("to", "TO", "With --db, the last day"),
        ],
    }
}
