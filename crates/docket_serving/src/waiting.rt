//! Those who wait to be attended to.
ghost use Rattle.std.specs.Prelude.{◌≡◌, ◌<◌, ◌≤◌, [], ◌∷◌, ◌++◌, IfOk, IfSome, IfNone, vec_len, vec_capacity};
ghost use Rattle.docket_serving.specs.Waiting.{streams, AreUnready, IsTakenOut, JoinsBehind};

use crate::caller::Caller;
use docket_http::Routes;
use std::alloc::{AllocError, Global};
use std::rt::HostRuntime;

/// The most that wait.
pub(crate) const MOST: usize = 64;

/// Those who wait, the oldest first. If more come than may wait, the oldest is dropped.
#[derive(Drop)]
pub(crate) struct Waiting {
    all: Vec<Caller>,
    ghost most: { vec_len all ≤ 64 },
    ghost room: { 64 ≤ vec_capacity all },
}

impl Waiting {
    /// An empty list. It allocates all its memory now.
    pub(crate) fn new(alloc: Global) -> Result<Waiting, AllocError>
        ensures { IfOk result (λ waiting. waiting.all.items ≡ []) }
    {
        Ok(Waiting {
            all: Vec::with_capacity(alloc, MOST)?,
        })
    }

    /// Takes the oldest off the list, and returns it.
    pub(crate) fn let_go(&mut self) -> Option<Caller>
        ensures some { IfSome result (λ oldest. self.old.all.items ≡ oldest ∷ self.new.all.items) }
        ensures none { IfNone result ((self.old.all.items ≡ []) × (self.new.all.items ≡ [])) }
    {
        if self.all.is_empty() {
            return None;
        }
        Some(self.all.remove(0))
    }

    /// Adds one more behind all others. If the list is full, the oldest is taken off and returned.
    pub(crate) fn join(&mut self, last: Caller) -> Option<Caller>
        ensures none { IfNone result ((vec_len self.old.all < 64) × (self.new.all.items ≡ self.old.all.items ++ last ∷ [])) }
        ensures some { IfSome result (λ oldest. (vec_len self.old.all ≡ 64) × JoinsBehind oldest self.old.all.items last self.new.all.items) }
    {
        if self.all.len() < MOST {
            self.all.push_reserved(last);
            return None;
        }
        let oldest = self.all.remove(0);
        self.all.push_reserved(last);
        Some(oldest)
    }

    /// Takes the oldest that can be attended to off the list. Returns `None` if nobody's request by these routes
    /// has come.
    pub(crate) fn take_ready(&mut self, rt: &HostRuntime, routes: &Routes) -> Option<Caller>
        ensures some { IfSome result (λ ready. IsTakenOut ready.stream (streams self.old.all.items) (streams self.new.all.items)) }
        ensures none { IfNone result (streams self.new.all.items ≡ streams self.old.all.items) }
        ensures unready { IfNone result (AreUnready routes.now self.new.all.items) }
    {
        for at in 0..self.all.len() {
            if self.all[at].is_ready(rt.alloc(), rt, routes) {
                return Some(self.all.remove(at));
            }
        }
        None
    }

    /// Whether a part of somebody's request was read.
    pub(crate) fn have_begun(&self) -> bool {
        self.all.iter().any(|caller| caller.has_begun())
    }
}
