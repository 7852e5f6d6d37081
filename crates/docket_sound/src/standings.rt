//! How many deadlines stand where.
ghost use Rattle.std.specs.Prelude.{◌≡◌, ◌<◌, ◌+◌, ◌-◌, ◌^◌, ◌++◌, ◌∷◌, [], List, length};
ghost use Rattle.court_rules.specs.declared.act.Standing.{Standing as Stood};
ghost use Rattle.docket_sound.specs.Standings.{counts_of_standings};

use court_rules::Standing;

/// How many deadlines stand where, by their acts.
#[derive(Clone, Copy)]
pub struct Standings {
    pub running: u64,
    pub suspended: u64,
    pub awaiting: u64,
    pub done: u64,
    pub vacated: u64,
}

/// One more, where there is room for it.
fn one_more(count: u64) -> u64
    ensures { count < 2 ^ 64 - 1 → result ≡ count + 1 }
{
    count.saturating_add(1)
}

impl Standings {
    pub fn none() -> Standings
        ensures { result ≡ counts_of_standings [] }
    {
        Standings {
            running: 0,
            suspended: 0,
            awaiting: 0,
            done: 0,
            vacated: 0,
        }
    }

    /// Counts one more.
    pub(crate) fn count(&mut self, standing: &Standing)
        ensures { (standings : List Stood) → self.old ≡ counts_of_standings standings → length standings < 2 ^ 64 - 1
            → self.new ≡ counts_of_standings (standings ++ standing.now ∷ []) }
    {
        match standing {
            Standing::Running(_) => self.running = one_more(self.running),
            Standing::Suspended => self.suspended = one_more(self.suspended),
            Standing::Awaiting => self.awaiting = one_more(self.awaiting),
            Standing::Done => self.done = one_more(self.done),
            Standing::Vacated => self.vacated = one_more(self.vacated),
        }
    }
}
