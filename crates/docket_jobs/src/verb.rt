//! The subcommands and their words.

use docket_command::Word;

/// A subcommand.
#[derive(Clone, Copy)]
pub(crate) enum Verb {
    Count,
    Create,
    Run,
    Enter,
    Commands,
    Import,
    Case,
    Cases,
    Calendar,
    Export,
    Explain,
    Check,
    Backup,
    Migrate,
    Serve,
    Rules,
    Holidays,
}

/// All of them, in the order in which help lists them.
pub(crate) static VERBS: [Verb; 17] = [
    Verb::Count,
    Verb::Create,
    Verb::Run,
    Verb::Enter,
    Verb::Commands,
    Verb::Import,
    Verb::Case,
    Verb::Cases,
    Verb::Calendar,
    Verb::Export,
    Verb::Explain,
    Verb::Check,
    Verb::Backup,
    Verb::Migrate,
    Verb::Serve,
    Verb::Rules,
    Verb::Holidays,
];

impl Word for Verb {
    ghost use Rattle.docket_jobs.specs.Verbs.{verb_word, verb_named};

    ghost word_of = { verb_word };

    ghost named = { verb_named };

    fn word(self) -> &'static str {
        match self {
            Verb::Count => "count",
            Verb::Create => "create",
            Verb::Run => "run",
            Verb::Enter => "enter",
            Verb::Commands => "commands",
            Verb::Import => "import",
            Verb::Case => "case",
            Verb::Cases => "cases",
            Verb::Calendar => "calendar",
            Verb::Export => "export",
            Verb::Explain => "explain",
            Verb::Check => "check",
            Verb::Backup => "backup",
            Verb::Migrate => "migrate",
            Verb::Serve => "serve",
            Verb::Rules => "rules",
            Verb::Holidays => "holidays",
        }
    }

    fn values() -> &'static [Verb] {
        &VERBS
    }
}
