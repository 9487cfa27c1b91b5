//! How many of the first segments meet none of each other, found by one sort of their ranges.

ghost use Rattle.std.specs.Prelude.{◌≡◌, ◌<◌, ◌≤◌, ◌+◌, ◌-◌, ◌/◌, ◌&&◌, ◌||◌, ℕ, true, false, nat_lt, if◌then◌else◌, IfOk};
ghost use Rattle.std.specs.List.{Contains};
ghost use Rattle.std.specs.List.Sorted.{IsNonDecreasingBy};
ghost use Rattle.elf_file.specs.Fields.{e_phnum};
ghost use Rattle.elf_file.specs.Checks.{has_table};
ghost use Rattle.elf_file.specs.Headers.{ArePlaced};
ghost use Rattle.elf_file.specs.Spans.{AreApart, is_met, meets, span_of};
ghost use Rattle.guest_pages.specs.Limits.{maps_end, page_size};

use crate::headers::{Area, area_at};
use crate::rights::{is_executable, is_writable};
use guest_pages::PAGE_SIZE;
use std::alloc::{AllocError, Global};

/// What two segments are not to share.
#[derive(Clone, Copy)]
pub enum Sharing {
    Byte,
    /// A page that would be writable and executable.
    Page,
}

/// The range of a segment. Two of them meet where one is of the one kind and the other of the other.
#[derive(Clone, Copy)]
pub struct Span {
    pub index: u16,
    pub start: u64,
    pub end: u64,
    pub one: bool,
    pub other: bool,
}

/// The first page behind those of a segment.
#[tactic(auto, unfolding(crate::specs::Headers::segment))]
fn page_end(area: Area) -> u64
    requires { area.start + area.size ≤ maps_end }
    ensures { result ≡ (if nat_lt 0 area.size then (area.start + area.size - 1) / page_size + 1 else area.start / page_size) }
{
    if area.size == 0 {
        area.start / PAGE_SIZE
    } else {
        (area.start + area.size - 1) / PAGE_SIZE + 1
    }
}

#[tactic(auto, unfolding(crate::specs::Spans::span_of))]
fn span_at(bytes: &[u8], index: u16, sharing: Sharing) -> Span
    requires table { has_table bytes.now ≡ true }
    requires within { index < e_phnum bytes.now }
    requires placed { ArePlaced bytes.now (index + 1) }
    ensures { result ≡ span_of sharing bytes.now index }
{
    let Some(area) = area_at(bytes, index) else {
        return Span {
            index,
            start: 0,
            end: 0,
            one: false,
            other: false,
        };
    };
    match sharing {
        Sharing::Byte => Span {
            index,
            start: area.start,
            end: area.start + area.size,
            one: true,
            other: true,
        },
        Sharing::Page => Span {
            index,
            start: area.start / PAGE_SIZE,
            end: page_end(area),
            one: is_writable(area.rights),
            other: is_executable(area.rights),
        },
    }
}

/// The spans of the first segments, in the order of their starts.
fn sorted_spans(
    alloc: Global,
    bytes: &[u8],
    count: u16,
    sharing: Sharing,
) -> Result<Vec<Span>, AllocError>
    requires table { has_table bytes.now ≡ true }
    requires within { count ≤ e_phnum bytes.now }
    requires placed { ArePlaced bytes.now count }
    ensures sorted { IfOk result (λ spans. IsNonDecreasingBy (λ s. s.start) spans.items) }
    ensures each { IfOk result (λ spans. (i : ℕ) → i < count → Contains spans.items (span_of sharing bytes.now i)) }
{
    let mut spans = spans_below(alloc, bytes, count, sharing)?;
    spans.sort_by_key(|span| span.start)?;
    Ok(spans)
}

/// The spans of the first segments.
fn spans_below(
    alloc: Global,
    bytes: &[u8],
    count: u16,
    sharing: Sharing,
) -> Result<Vec<Span>, AllocError>
    requires table { has_table bytes.now ≡ true }
    requires within { count ≤ e_phnum bytes.now }
    requires placed { ArePlaced bytes.now count }
    ensures { IfOk result (λ spans. (i : ℕ) → i < count → Contains spans.items (span_of sharing bytes.now i)) }
{
    let mut spans = Vec::new(alloc);
    for index in 0..count {
        spans.push(span_at(bytes, index, sharing))?;
    }
    Ok(spans)
}

/// How far the spans of a kind reach that are of headers below a bound, with one more.
fn reached(reach: u64, span: &Span, bound: u16, kind: bool) -> u64
    ensures before { reach ≤ result }
    ensures here { span.now.index < bound → kind ≡ true → span.now.end ≤ result }
{
    if span.index < bound && kind {
        reach.max(span.end)
    } else {
        reach
    }
}

/// Whether a span, of a header below a bound, is met by those before it, which reach so far.
fn is_met(span: &Span, bound: u16, one: u64, other: u64) -> bool
    ensures { result ≡ is_met span.now bound one other }
{
    span.index < bound
        && span.start < span.end
        && ((span.other && span.start < one) || (span.one && span.start < other))
}

/// Whether no two spans of headers below a bound meet. Costs by the number of spans.
fn are_apart(spans: &[Span], bound: u16) -> bool
    requires { IsNonDecreasingBy (λ s. s.start) spans.now }
    ensures { result ≡ true → AreApart spans.now bound }
{
    let mut one = 0;
    let mut other = 0;
    for span in spans {
        if is_met(span, bound, one, other) {
            return false;
        }
        one = reached(one, span, bound, span.one);
        other = reached(other, span, bound, span.other);
    }
    true
}

/// The greatest bound up to `count` below which no two spans meet.
fn greatest_bound(spans: &[Span], count: u16) -> u16
    requires { IsNonDecreasingBy (λ s. s.start) spans.now }
    ensures size { result ≤ count }
    ensures apart { AreApart spans.now result }
{
    if are_apart(spans, count) {
        return count;
    }
    let mut low = 0;
    let mut high = count;
    'halving: while high - low > 1 {
        let middle = low + (high - low) / 2;
        if are_apart(spans, middle) {
            low = middle;
        } else {
            high = middle;
        }
    }
    low
}

/// How many of the first segments meet none of each other. It is the greatest such number, or 0 where memory is wanting. Costs
/// by one sort of the segments, and by the logarithm of their number times it.
pub fn apart_below(alloc: Global, bytes: &[u8], count: u16, sharing: Sharing) -> u16
    requires table { has_table bytes.now ≡ true }
    requires within { count ≤ e_phnum bytes.now }
    requires placed { ArePlaced bytes.now count }
    ensures size { result ≤ count }
    ensures apart { (i j : ℕ) → i < j → j < result → meets sharing bytes.now i j ≡ false }
{
    match sorted_spans(alloc, bytes, count, sharing) {
        Ok(spans) => greatest_bound(spans.as_slice(), count),
        Err(_) => 0,
    }
}
