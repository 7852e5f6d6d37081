//! A set of spans of time, in the order in which they were entered.
ghost use Rattle.std.specs.Prelude.{◌≡◌, ◌↔◌, ◌==◌, ◌&&◌, nat_lt, false, OnOk, OnErr, IsTrue};
ghost use Rattle.std.specs.FinSet as set;
ghost use Rattle.std.specs.List.{list_any};
ghost use Rattle.court_days.specs.Spans.{Meets};

use std::alloc::{AllocFailed, Global};
use std::marker::Model;

/// The instants from `start` up to but not with `end`, in seconds since 1970-01-01T00:00Z.
#[derive(Clone, Copy)]
pub(crate) struct Span {
    pub(crate) start: u64,
    pub(crate) end: u64,
}

/// Spans, each of them once.
#[derive(Drop)]
pub(crate) struct SpanSet {
    spans: Vec<Span>,
}

impl Model for SpanSet {
    ghost use Rattle.std.specs.FinSet as set;
    ghost use Rattle.court_days.specs.Spans.{span_cmp, span_code, IsEachOnce};

    ghost Value = { set.FinSet span_cmp };

    ghost coded = { set.code span_code };

    ghost view = { λ s. set.from_list s.spans.items };

    ghost invariant = { λ s. IsEachOnce s.spans.items };
}

/// Whether the span is one of the list.
fn is_among(spans: &[Span], span: Span) -> bool
    ensures { result ≡ list_any (λ other. (other.start == span.start) && (other.end == span.end)) spans.now }
{
    spans
        .iter()
        .any(|other| other.start == span.start && other.end == span.end)
}

/// Whether a span of the list has an instant from `start` up to but not with `end`.
fn is_met_by_any(spans: &[Span], start: u64, end: u64) -> bool
    ensures { result ≡ list_any (λ span. nat_lt span.start end && nat_lt start span.end) spans.now }
{
    spans
        .iter()
        .any(|span| span.start < end && start < span.end)
}

impl SpanSet {
    /// No spans. It takes no memory yet.
    pub(crate) fn new(alloc: Global) -> Self
        ensures { result ≡ set.empty }
    {
        SpanSet {
            spans: Vec::new(alloc),
        }
    }

    /// How many spans there are.
    pub(crate) fn len(&self) -> usize
        ensures { result ≡ set.len self.now }
    {
        self.spans.len()
    }

    /// Whether the span is one of them.
    pub(crate) fn contains(&self, span: Span) -> bool
        ensures { result ≡ set.contains self.now span }
    {
        is_among(&self.spans, span)
    }

    /// Adds a span that is not one of them yet. After an error the set is as it was.
    pub(crate) fn insert(&mut self, span: Span) -> Result<(), AllocFailed<Span>>
        requires { set.contains self.old span ≡ false }
        ensures ok { OnOk result (self.new ≡ set.insert self.old span) }
        ensures err { OnErr result (self.new ≡ self.old) }
    {
        self.spans.push(span)?;
        Ok(())
    }

    /// Whether a span has an instant from `start` up to but not with `end`.
    pub(crate) fn meets(&self, start: u64, end: u64) -> bool
        ensures { IsTrue result ↔ Meets self.now start end }
    {
        is_met_by_any(&self.spans, start, end)
    }
}
