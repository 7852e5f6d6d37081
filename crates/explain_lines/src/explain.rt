//! The engine of `explain`: lines of days in, the reasons for each end out.
ghost use Rattle.std.specs.Prelude.{◌≡◌, [], ◌∷◌, length, option_copied, option_map, string_bytes, IfOk, IfSome, OnErr};
ghost use Rattle.std.specs.Io.KnownBytes.{Appends};
ghost use Rattle.count_lines.specs.Answers.{state_of};
ghost use Rattle.count_lines.specs.Count.{bad_answers};
ghost use Rattle.count_lines.specs.Requests.{IsAsked};
ghost use Rattle.court_days.specs.Court.{zone_of};
ghost use Rattle.court_reasons.specs.Steps.{steps_of};
ghost use Rattle.court_rules.specs.Standings.{AreActs};
ghost use Rattle.explain_lines.specs.Explain.{explain_text};
ghost use Rattle.explain_lines.specs.Explained.{rule_of, reasons_asked, reasons_at};
ghost use Rattle.line_io.specs.Lines.{lines_of};
ghost use Rattle.line_io.specs.Output.{HasFront};
ghost use Rattle.reason_lines.specs.Lines.{reasons_text};

use crate::start::{rule_of, start_of};
use count_lines::{CountEnd, Counter, Request, RunFault, read_request};
use court_days::{Calendar, Court};
use court_reasons::reasons;
use court_rules::{Act, DeadlineRule, Start};
use line_io::{Answerer, run_lines};
use reason_lines::reasons_text;
use std::alloc::{AllocError, Global};
use std::io::{Read, Write};

/// Answers each line that asks for an end with the reasons for it, and any other as `count` does.
#[derive(Drop)]
struct Explainer {
    alloc: Global,
    counter: Counter,
}

impl Answerer for Explainer {
    ghost use Rattle.std.specs.Prelude.{◌≡◌, ⊤};
    ghost use Rattle.count_lines.specs.Answers.{CourtState, state_of, long_line_answer};
    ghost use Rattle.explain_lines.specs.Explained.{explained};

    type Fault = AllocError;

    const LIMIT: u32 = 256;

    const MAX_PENDING: u32 = 65_536;

    ghost LIMIT = { 256 };

    ghost MAX_PENDING = { 65_536 };

    ghost State = { CourtState };

    ghost Shows = { λ explainer state. state_of explainer.counter ≡ state };

    ghost Trusts = { λ _. ⊤ };

    // The calendar is dropped after a fault.
    ghost Fails = { λ _ _ _ _. ⊤ };

    ghost Steps = { λ _ _. ⊤ };

    ghost answer_to = { explained };

    ghost too_long = { long_line_answer };

    fn answer(&mut self, line: &[u8], out: &mut Vec<u8>) -> Result<bool, AllocError> {
        match self.reasons_at(line)? {
            Some(text) => {
                out.extend_from_slice(text.as_bytes())?;
                Ok(false)
            }
            None => self.counter.answer(line, out),
        }
    }

    fn answer_long(&mut self, out: &mut Vec<u8>) -> Result<bool, AllocError> {
        self.counter.answer_long(out)
    }
}

/// The text of the steps by which the end of a period is found.
fn reasons_for(
    alloc: Global,
    court: &Court,
    calendar: &Calendar,
    rule: Option<&DeadlineRule>,
    begun: Start,
) -> Result<String, AllocError>
    requires { AreActs (zone_of court.now) (Act.Start begun ∷ []) }
    ensures { IfOk result (λ text. string_bytes text
        ≡ reasons_text court.now calendar.now (option_copied rule.entry)
        (steps_of (zone_of court.now) calendar.now (Act.Start begun ∷ []))) }
{
    let acts = [Act::Start(begun)];
    let steps = reasons(alloc, court, calendar, &acts)?;
    reasons_text(alloc, court, calendar, rule, steps.steps())
}

/// The same, where a request asks for that end.
fn reasons_by_rule(
    alloc: Global,
    court: &Court,
    calendar: &Calendar,
    request: &Request,
    begun: Start,
) -> Result<String, AllocError>
    requires { AreActs (zone_of court.now) (Act.Start begun ∷ []) }
    ensures { IfOk result (λ text. string_bytes text
        ≡ reasons_text court.now calendar.now (rule_of request.now)
        (steps_of (zone_of court.now) calendar.now (Act.Start begun ∷ []))) }
{
    let rule = rule_of(request);
    reasons_for(alloc, court, calendar, rule.as_ref(), begun)
}

impl Explainer {
    /// The text of the reasons for the end that a request asks for, if it asks for one.
    fn reasons_asked(&self, request: &Request) -> Result<Option<String>, AllocError>
        requires { IsAsked request.now }
        ensures { IfOk result (λ text.
            option_map string_bytes text ≡ reasons_asked (state_of self.now.counter) request.now) }
    {
        let court = self.counter.court();
        let calendar = self.counter.calendar();
        match start_of(court, request) {
            Some(begun) => {
                let text = reasons_by_rule(self.alloc, court, calendar, request, begun)?;
                Ok(Some(text))
            }
            None => Ok(None),
        }
    }

    /// The text of the reasons for the end that a line asks for, if it asks for one.
    fn reasons_at(&self, line: &[u8]) -> Result<Option<String>, AllocError>
        ensures { IfOk result (λ text.
            option_map string_bytes text ≡ reasons_at (state_of self.now.counter) line.now) }
    {
        match read_request(self.alloc, line)? {
            Some(request) => self.reasons_asked(&request),
            None => Ok(None),
        }
    }
}

/// Answers each line of the reader, by what the lines before it entered. The lines are those of `count`. One
/// that asks for the end of a period is answered by the steps that lead to that end, a line for each. Any
/// other is answered as in `count`. Counts the lines and those answered `bad` or `full`, which are the same
/// as in `count`. On a fault a front of the answers was written.
pub fn explain_run<R: Read, W: Write>(
    alloc: Global,
    reader: &mut R,
    writer: &mut W,
) -> Result<CountEnd, RunFault>
    ensures whole { IfOk result (λ end. IfSome (R.remaining reader.old) (λ input.
        Appends (W.contents writer.old) (W.contents writer.new) (explain_text input)
        × (end.lines ≡ length (lines_of input))
        × (end.bad ≡ bad_answers input))) }
    ensures front { OnErr result (IfSome (R.remaining reader.old) (λ input.
        HasFront (W.contents writer.old) (W.contents writer.new) (explain_text input))) }
{
    let Ok(counter) = Counter::start(alloc) else {
        return Err(RunFault::NoMemory);
    };
    let mut explainer = Explainer { alloc, counter };
    match run_lines(alloc, reader, writer, &mut explainer) {
        Ok(end) => Ok(end),
        Err(fault) => Err(RunFault::from(fault)),
    }
}
