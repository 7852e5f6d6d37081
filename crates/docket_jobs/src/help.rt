//! What `--help` prints of each command.

use crate::verb::Verb;

/// What a subcommand does.
pub(crate) fn about_of(verb: Verb) -> &'static str {
    match verb {
        Verb::Count => {
            "Enter days and count periods, one line of standard input after the other"
        }
        Verb::Create => "Make a docket without any record in a file",
        Verb::Run => "Answer commands of a docket, one a line of standard input",
        Verb::Enter => "Enter a command of a docket, by the options of its kind",
        Verb::Commands => "Print the kinds of commands, or the fields of one",
        Verb::Import => "Enter the days of a table in the calendar of a docket",
        Verb::Case => "Print a case with its parties, entries and deadlines",
        Verb::Cases => "Print the cases, a line each",
        Verb::Calendar => {
            "Print the deadlines that fall due from one day to another, or about today"
        }
        Verb::Export => { "Write what falls due, or a docket sheet, in a format of other programs" }
        Verb::Explain => "Print the steps by which the end of a deadline was found",
        Verb::Check => "Check whether the tables of a docket are sound",
        Verb::Backup => "Copy a docket to another file",
        Verb::Migrate => "Take a docket from version 1 of its tables to version 2",
        Verb::Serve => "Answer requests of HTTP from this machine, one a connection",
        Verb::Rules => "Print the rules by which deadlines run",
        Verb::Holidays => {
            "Print the statutory holidays of a year, or the court calendar of some days"
        }
    }
}

/// What stands behind the arguments of a subcommand.
pub(crate) fn help_of(verb: Verb) -> &'static str {
    match verb {
        Verb::Count => COUNT_HELP,
        Verb::Create => CREATE_HELP,
        Verb::Run => RUN_HELP,
        Verb::Enter => ENTER_HELP,
        Verb::Commands => COMMANDS_HELP,
        Verb::Import => IMPORT_HELP,
        Verb::Case => CASE_HELP,
        Verb::Cases => CASES_HELP,
        Verb::Calendar => CALENDAR_HELP,
        Verb::Export => EXPORT_HELP,
        Verb::Explain => EXPLAIN_HELP,
        Verb::Check => CHECK_HELP,
        Verb::Backup => BACKUP_HELP,
        Verb::Migrate => MIGRATE_HELP,
        Verb::Serve => SERVE_HELP,
        Verb::Rules => RULES_HELP,
        Verb::Holidays => HOLIDAYS_HELP,
    }
}

const COUNT_HELP: &str = "\
Each line is answered by one line. Lines that enter something answer `ok`:
  federal DAY     a legal holiday declared by the President or Congress
  state DAY       a holiday declared by the state, for periods counted forward
  closed DAY      a day on which the clerk's office is inaccessible
  span MOMENT MOMENT
                  a time in which it is, for periods of hours
  short DAY HH:MM a day on which it closes earlier than on others; no period ends otherwise
  zone ZONE HH:MM the court's zone and closing time; UTC0 17:00 before
Lines that ask answer the end of a period, or the closing of the office:
  forward DAY N, backward DAY N
                  of N days after or before DAY
  months forward DAY N, months backward DAY N
                  of N months
  hours forward MOMENT N, hours backward MOMENT N
                  of N hours, as a moment in the court's zone
  rule NAME DAY METHOD
                  of the time that a rule sets, as 12(a)(1)(B), from DAY, for a party served
                  by METHOD: A to F of Rule 5(b)(2), rule4 or none
  closing DAY     when the clerk's office closes on DAY, as HH:MM
DAY is YYYY-MM-DD from 2000-01-01 to 2099-12-31, MOMENT is YYYY-MM-DDTHH:MM+HH:00, ZONE is as
EST5EDT,M3.2.0,M11.1.0, and N is 1 to 3650 days, 120 months or 8760 hours. What would be new
where 4,000 days, spans and short days are entered answers `full`, an empty line an empty line, and
any other line `bad`.

Exit status: 0 all lines were answered, 1 one of them with `bad` or `full`, 2 bad command
line, 3 reading, writing or memory failed.";

pub(crate) const PROGRAM_HELP: &str = "\
With no command, docketctl counts. A docket in a file is made, kept and read like this:
  docketctl create --db court.db --zone EST5EDT,M3.2.0,M11.1.0 --close 17:00
  docketctl import --db court.db --key holidays-2027 < holidays.csv
  docketctl run --db court.db < commands.jsonl
  docketctl enter vacate --db court.db --case 1 --deadline 1
  docketctl commands
  docketctl case --db court.db 1
  docketctl cases --db court.db --find roe
  docketctl calendar --db court.db 2027-01-01 2027-12-31
  docketctl calendar --db court.db --week --long
  docketctl export --db court.db 2027-01-01 2027-12-31 --as ics
  docketctl holidays --db court.db 2027-01-01 2027-12-31
  docketctl explain --db court.db 1 1
  docketctl rules --db court.db
  docketctl check --db court.db
  docketctl backup --db court.db --to copy.db
One of an older program is taken further, once:
  docketctl migrate --db court.db
It is served to programs of this machine by HTTP, and with --pages to a browser as well:
  docketctl serve --db court.db --port 8080 --count 1000 --pages";

const CREATE_HELP: &str = "\
The file must not hold a docket yet; where there is none it is made. ZONE is as
EST5EDT,M3.2.0,M11.1.0: hours west of Greenwich, and the dates on which clocks change:
  Eastern  EST5EDT,M3.2.0,M11.1.0    Alaska                          AKST9AKDT,M3.2.0,M11.1.0
  Central  CST6CDT,M3.2.0,M11.1.0    Hawaii                          HST10
  Mountain MST7MDT,M3.2.0,M11.1.0    Puerto Rico, Virgin Islands     AST4
  Arizona  MST7                      Guam, Northern Mariana Islands  ChST-10
  Pacific  PST8PDT,M3.2.0,M11.1.0
HH:MM is from 00:00 to 23:59. Neither can be changed later:
  docketctl create --db court.db --zone EST5EDT,M3.2.0,M11.1.0 --close 17:00
  created

Exit status: 0 the docket was made, 2 bad command line, 3 it was not, which standard error
says in one line.";

const RUN_HELP: &str = "\
Each line is a command, a JSON object with its name `do`, a key of the caller's own and its
fields, and is answered by one line before the next command is applied:
  {\"caption\":\"Roe v. Doe\",\"do\":\"open_case\",\"filed\":\"2025-06-02\",\"key\":\"k1\",\"label\":\"1:25-cv-00001\"}
  {\"number\":1}
A command that is sent again under its key has the reply that it had, and acts once. One that is
refused, or a line that is no command, changes nothing:
  {\"name\":\"Exists\",\"refused\":8}
  {\"fault\":4,\"field\":\"case\",\"name\":\"MissingField\"}
With --db the docket is that in the file, and an answer is written once its command is stored in the
file; zone and closing time are the docket's own:
  docketctl run --db court.db < commands.jsonl
Without it the docket is kept in a database in memory and ends with the program. ZONE is as
EST5EDT,M3.2.0,M11.1.0: hours west of Greenwich, and the dates on which clocks change. HH:MM is
from 00:00 to 23:59.
Where the input is a file and the answers go to no terminal, standard error has once a second, on a
terminal, how many lines were answered.

Exit status: 0 all commands were accepted, 1 a line was refused or no command, 2 bad command
line, 3 reading, writing, memory or the database failed.";

const ENTER_HELP: &str = "\
A command of a docket is entered without JSON, with an option for each of its fields. The kind comes
first:
  docketctl enter serve_summons --db court.db --case 1 --party Doe --basis private --served 2025-06-13
  {\"number\":1}
Standard output has the answer of `docketctl run`, and standard error what the command did, the new
deadline and why it ends when it does. `docketctl commands` lists the kinds, `docketctl commands
serve_summons` the fields of one with an example, and `docketctl enter serve_summons --help` its options.
A case is given by its number or its docket number, and a party by its number or its name: the whole
name, in large or small letters, or a part of it that no other party has.
Without --key the key is made of the day and the command, so that the same words given twice on a day act
once. With --show standard output has what the command would do, and nothing is entered.

Exit status: 0 the command was accepted or shown, 1 it was refused or no command, or a name fits none or
several, 2 bad command line, 3 reading, writing, memory or the database failed.";

pub(crate) const ENTRY_HELP: &str = "\
CASE is a case's number or its docket number, and PARTY a party's number, its name or a part of it. DAY is
as 2025-06-13, and MOMENT as 2025-11-01T17:00-05:00. `docketctl enter --help` says what is printed, and
`docketctl commands` with the kind has an example.

Exit status: 0 the command was accepted or shown, 1 it was refused or no command, or a name fits none or
several, 2 bad command line, 3 reading, writing, memory or the database failed.";

const COMMANDS_HELP: &str = "\
Each kind of command has a line, with what it is called. With KIND each of its fields has one: its option
for `docketctl enter`, what it is called, and the form of its value or the words that it takes. An example
comes last, and the same command as a line of `docketctl run`:
  docketctl commands serve_summons

Exit status: 0 they were printed, 2 bad command line, 3 writing or memory failed.";

const IMPORT_HELP: &str = "\
Standard input is a table of comma-separated values: first the line `kind,day,name`, then at most
1,000 days, each of the kind federal, state or closed:
  kind,day,name
  state,2027-04-19,Patriots' Day
The new days are entered by one command under KEY, all or none. Its answer has their number. Sent
again, it has the same answer and acts once:
  docketctl import --db court.db --key holidays-2027 < holidays.csv
  {\"number\":1}
Nothing of a bad table is entered. The answer has the number of its first bad row after the first
line:
  bad row 1
  bad csv

Exit status: 0 the days are entered, 1 the table is bad or the command was refused, 2 bad command
line, 3 reading, writing, memory or the database failed.";

const CASE_HELP: &str = "\
A case is printed with its parties, its entries, and the state of each of its deadlines:
  docketctl case --db court.db 1
  case 1 1:25-cv-00001 filed 2025-06-02
  Roe v. Doe
  party 1 defendant Doe
  entry 1 2025-06-02 Complaint
  deadline 1 party 1 12(a)(1)(A)(i) due 2025-07-07 24:00 17:00
NUMBER is from 1 to 4294967295, without a leading zero.

Exit status: 0 the case was printed, 1 there is no such case, 2 bad command line, 3 reading, writing,
memory or the database failed.";

const CASES_HELP: &str = "\
Each case has a line: its number, its label, the day on which it was filed, and its caption:
  docketctl cases --db court.db --party Roe
  case 1 1:25-cv-00001 filed 2025-06-02 Roe v. Doe
Without --label and --party all cases are printed, by their numbers. TEXT is looked for as it is
written, in large and small letters: `Roe` is in `John Roe`, and `roe` is not.
With --find the case whose docket number is WORDS is printed; where there is none, each case whose caption
or a party's name has WORDS, in large or small letters, the newest first:
  docketctl cases --db court.db --find \"roe v\"
  case 1 1:25-cv-00001 filed 2025-06-02 Roe v. Doe

Exit status: 0 a case was printed, 1 there is none, 2 bad command line, 3 reading, writing, memory or
the database failed.";

const CALENDAR_HELP: &str = "\
Each deadline that runs and falls due from FROM to TO, both included, has a line: its day, its time
of the day and the closing of the clerk's office, the case, the deadline's number there, its rule,
and the party. A deadline of a day runs to its midnight for electronic filing, and to the closing
for other filing; one of hours ends at an instant. The last line has their number:
  docketctl calendar --db court.db 2025-07-01 2025-07-31
  2025-07-07 10:00 --:--       1    5 order               -
  2025-07-07 24:00 17:00       1    4 12(a)(1)(A)(i)      1
  end 2
FROM and TO are days from 1980-01-01 to 3999-12-31, and TO is not before FROM.
In their place --today, --week or --overdue is given: what falls due today, today and on the six days
after, or before today and runs still. Today is the day of the clock in the court's zone:
  docketctl calendar --db court.db --week
With --long a line has the weekday too, the docket number in place of the case's number, what the rule is
called before its name, and at its end the party's name and the caption:
  docketctl calendar --db court.db --week --long
  2025-07-07 Mon 24:00 17:00  1:25-cv-00001  deadline 4: answer to the complaint, 12(a)(1)(A)(i)  Doe  Roe v. Doe
  end 1

Exit status: 0 the calendar was printed, 2 bad command line, 3 writing, memory or the database failed.";

const EXPORT_HELP: &str = "\
The deadlines of `docketctl calendar`, those that run and fall due from FROM to TO, both included, are
written in the format that FORM names:
  ics   iCalendar (RFC 5545): an event a deadline, a last day as a date and a moment as UTC, with why
        the deadline is what it is in the description
  html  a page that prints well
  csv   comma-separated values (RFC 4180): a header record, and a record a deadline
  json  an array of objects, one a deadline
  docketctl export --db court.db 2025-07-01 2025-07-31 --as ics > july.ics
FROM and TO are days from 1980-01-01 to 3999-12-31, and TO is not before FROM.

With --case, and without FROM and TO, the docket sheet of a case is written, as a page alone:
  docketctl export --db court.db --case 1 --as html > case-1.html
NUMBER is from 1 to 4294967295, without a leading zero.

Exit status: 0 the deadlines or the sheet were written, 1 there is no such case, 2 bad command line,
3 writing, memory or the database failed.";

const EXPLAIN_HELP: &str = "\
Each step by which the end of a deadline was found has a line, with the rule of the Federal Rules of
Civil Procedure that it follows: what began the time, the day that it was counted to, each day passed
over and every reason why, the end, and until when that day counts:
  docketctl explain --db court.db 1 1
  2025-06-13 Fri  summons and complaint served; 21 days after, 12(a)(1)(A)(i)
  2025-07-04 Fri  counted to this day, 6(a)(1)(A), (B)
  2025-07-04 Fri  passed over: Independence Day, 6(a)(6)(A)
  2025-07-05 Sat  passed over: Saturday
  2025-07-06 Sun  passed over: Sunday
  2025-07-07 Mon  the period ends, 6(a)(1)(C)
  2025-07-07 Mon  due: to 24:00 electronically, to 17:00 at the clerk's office, 6(a)(4)
CASE and DEADLINE are numbers from 1 to 4294967295, without a leading zero.

With no file, standard input has the lines of `docketctl count`. A line that asks for the end of a
period, of days, months or hours or by a rule, is answered by its steps, and any other as there.

Exit status: 0 the steps were printed, 1 there is no such case or deadline, or a line was answered with
`bad` or `full`, 2 bad command line, 3 reading, writing, memory or the database failed.";

const CHECK_HELP: &str = "\
A file that comes from a backup or from another program is read whole, table by table, and its rows
stay as they are. Where all tables are sound, `sound` is printed, and how much each holds: the rows of
the calendar in force, the local rules, the deadlines by their state, and a receipt for each
accepted command:
  docketctl check --db court.db
  sound
  court EST5EDT,M3.2.0,M11.1.0 closes 17:00
  version 2
  calendar rows 1
  local rules 0
  cases 1
  parties 2
  entries 0
  deadlines 2: running 1, suspended 0, awaiting 0, done 1, vacated 0
  receipts 7
Otherwise a line of standard error names the first table that is not: one that is missing or lacks a
column, or whose rows have gaps in their numbers, refer to what is not there, hold values past their
limits, or store an end of a deadline other than the rules give:
  docketctl: \"court.db\": the table due is not sound

Exit status: 0 the tables are sound, 2 bad command line, 3 they are not, or there is no docket, or
writing, memory or the database failed.";

const BACKUP_HELP: &str = "\
The docket in FILE is copied whole to COPY, a file that must not be there yet:
  docketctl backup --db court.db --to copy.db
  copied
The docket is held while it is copied, so that no command comes between, and the copy is synced to the
disk before `copied` is printed. It is never put over a file that is there. A docket that another program
serves is reported as in use, and then there is no copy. `docketctl check` says whether the tables of a
copy are sound.

Exit status: 0 the docket was copied, 2 bad command line, 3 it was not, which standard error says in
one line.";

const MIGRATE_HELP: &str = "\
A docket that an older program made is in version 1 of the tables, which no other command takes. Back
it up, then:
  docketctl migrate --db court.db
  migrated
The tables are judged as by `docketctl check`; where one is not sound, nothing is changed. The change
is made in one step: a power failure leaves the docket in version 1, and then the command is given
again, or in version 2. No case, deadline or answer changes, and `docketctl check` prints `version 2`
afterwards.

Exit status: 0 the docket is in version 2, 2 bad command line, 3 it is not: the file holds no sound
docket of version 1, or writing, memory or the database failed, which standard error says in one
line.";

const SERVE_HELP: &str = "\
The docket is served at 127.0.0.1 alone, or at a socket, one connection after the other and one
request a connection:
  POST /commands              a command, as a line of `docketctl run`
  GET /cases/NUMBER           a case, as of `docketctl case`
  GET /cases/NUMBER/deadlines its deadlines
  GET /calendar/FROM/TO       a calendar, as of `docketctl calendar`
  GET /holidays/YEAR          the holidays of a year, as of `docketctl holidays`
With --pages people look things up and enter commands in a browser, at these pages and their links:
  GET /pages                  the cases, the newest first
  GET /pages/cases/NUMBER     the docket sheet of a case, with links to the forms of commands
  GET /pages/search?find=WORDS  the cases found by a docket number, a caption or a name
  GET /pages/today            what falls due today, and at /pages/week and /pages/overdue
  GET /pages/calendar/FROM/TO what falls due on other days
  GET /pages/due.ics          the same for a calendar program, and /pages/due.csv and .json for others:
                              from 35 days ago to 400 days ahead, or with ?from=FROM&to=TO
  GET /pages/enter            the forms of all commands
  GET /pages/backup           the docket in one file, as `docketctl backup` copies it
A reply to a command goes out when it stands in the file. The first line of the output is written
when connections are taken; port 0 is one that is free:
  docketctl serve --db court.db --port 8080 --count 1000
  listening on 127.0.0.1:8080
  docketctl serve --db court.db --port 8080 --count 1000 --pages
  listening on 127.0.0.1:8080
A browser on this machine then shows the docket at http://127.0.0.1:8080/pages. With --pages or --guard
a request is answered only where its Host is 127.0.0.1, localhost or [::1] at that port, or that of
--origin, its Origin, where a browser sends one, is the same, and no browser marks it as from another
site, unless it follows a link; else with 403. With --endless in place of --count the docket is served
until a signal ends the run.
With --socket PATH in place of --port the docket is served at the socket of a file, which is made with
rights for its owner alone: the rights of the file and of its folder say who may ask.
  docketctl serve --db court.db --socket court.socket --count 1000
  listening on court.socket
  curl --unix-socket court.socket http://localhost/cases/1
The file is removed at the end, but not where a signal ends the run. A socket at which nobody listens is
made anew; any other file of that path stays, and nobody is served. With --pages or --guard the Host is
without a port then.
A client is waited for ten seconds in all for its request, and ten for its answer. What goes wrong
with a connection is told in a line of standard error, and the next is served. A copy is made in
memory and judged, which takes as long as the opening.

Exit status: 0 N connections were served, 2 bad command line, 3 the docket, the port or the
socket could not be opened, or writing, memory or the database failed.";

const RULES_HELP: &str = "\
Each rule of the Federal Rules of Civil Procedure by which a deadline runs has a line, and behind
them, with --db, each local rule of the docket in FILE, in the order in which they were entered:
  docketctl rules --db court.db
  12(a)(1)(A)(i)     21 days   forward  -          responsive extendable
  12(a)(1)(A)(ii)    60 days   forward  -          responsive extendable
  and so on to
  order               - -      -        three days -          extendable
  LR7.1-opp          14 days   forward  three days -          extendable
A line has the name of the rule, its period, and which way it is counted; whether service by mail,
with the clerk or by other means adds three days (Rule 6(d)), whether a Rule 12 motion suspends it,
and whether the court may extend it. A time that the court orders has the period, the direction and
the end that are entered with it.

Exit status: 0 the rules were printed, 2 bad command line, 3 writing, memory or the database failed, or
there is no docket.";

const HOLIDAYS_HELP: &str = "\
Each holiday has a line: its day, the weekday, and its name. One of a fixed date that falls on a
Saturday is observed on the Friday before, and one that falls on a Sunday on the Monday after:
  docketctl holidays 2027
  2027-01-01 Fri New Year's Day
  2027-01-18 Mon Martin Luther King Jr.'s Birthday
  2027-02-15 Mon Washington's Birthday
  2027-05-31 Mon Memorial Day
  2027-06-18 Fri Juneteenth (observed)
  2027-06-19 Sat Juneteenth
  and so on to 2027-12-31 Fri New Year's Day (observed)
With --db the court calendar is printed, from FROM to TO, both included: these holidays, and after them
what the court entered for these days. The number after `row` is that for `withdraw_calendar`:
  docketctl holidays --db court.db 2027-01-01 2027-01-31
  2027-01-01 Fri New Year's Day
  2027-01-18 Mon Martin Luther King Jr.'s Birthday
  row 3 closed 2027-01-05 Storm

Exit status: 0 they were printed, 2 bad command line, 3 reading, writing, memory or the database
failed.";
