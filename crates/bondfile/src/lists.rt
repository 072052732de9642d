// The entries of a kind, stored in order.
ghost use Rattle.bondfile.specs.Entries.{number_of, first_whole, second_whole, flow_kind, first_number, second_number};
ghost use Rattle.bondfile.specs.File.{Numbered, entries_of, of_kind};
ghost use Rattle.bondfile.specs.Storing.{Stored};
ghost use Rattle.bondfile.specs.Walks.{Reads, ReadsSaid};

use crate::entries::{first_number, first_whole, flow_kind, second_number, second_whole};
use crate::file::{OfKind, OfNumber};
use crate::{Found, SaidLine};
use bondline::Kind;

// A part of each entry of a kind, by its number: how many were stored. A slice too short holds as many as it has room for.
pub fn store_said<T: Copy, F: Fn(SaidLine) -> T>(
    text: &[u8],
    kind: usize,
    out: &mut [T],
    part: F,
) -> usize
    requires { F.IsAlwaysCallable part }
    ensures { (p : Numbered → T) → ReadsSaid F.post part p → Stored p (of_kind kind (entries_of text.now)) out.old out.new result }
{
    let mut stored = 0;
    for found in OfNumber::new(text, kind).take(out.len()) {
        out[stored] = part(found);
        stored += 1;
    }
    stored
}

// A part of each entry of a kind: how many were stored. A slice too short holds as many as it has room for.
pub fn store<T: Copy, F: Fn(Found) -> T>(text: &[u8], kind: Kind, out: &mut [T], part: F) -> usize
    requires { F.IsAlwaysCallable part }
    ensures { (p : Numbered → T) → Reads F.post part p → Stored p (of_kind (number_of kind) (entries_of text.now)) out.old out.new result }
{
    let mut stored = 0;
    for entry in OfKind::new(text, kind).take(out.len()) {
        out[stored] = part(entry);
        stored += 1;
    }
    stored
}

// The first whole number of each entry of a kind.
pub fn first_wholes(text: &[u8], kind: usize, out: &mut [u32]) -> usize
    ensures { Stored (λ e. first_whole e.entry) (of_kind kind (entries_of text.now)) out.old out.new result }
{
    store_said(text, kind, out, |found| first_whole(found.entry))
}

// The second whole number of each entry of a kind.
pub fn second_wholes(text: &[u8], kind: usize, out: &mut [u32]) -> usize
    ensures { Stored (λ e. second_whole e.entry) (of_kind kind (entries_of text.now)) out.old out.new result }
{
    store_said(text, kind, out, |found| second_whole(found.entry))
}

// The kind of each cashflow, where the kind of entry is a cashflow's.
pub fn flow_kinds(text: &[u8], kind: usize, out: &mut [u8]) -> usize
    ensures { Stored (λ e. flow_kind e.entry) (of_kind kind (entries_of text.now)) out.old out.new result }
{
    store_said(text, kind, out, |found| flow_kind(found.entry))
}

// The first number of each entry of a kind.
pub fn first_numbers(text: &[u8], kind: usize, out: &mut [f64]) -> usize
    ensures { Stored (λ e. first_number e.entry) (of_kind kind (entries_of text.now)) out.old out.new result }
{
    store_said(text, kind, out, |found| first_number(found.entry))
}

// The second number of each entry of a kind.
pub fn second_numbers(text: &[u8], kind: usize, out: &mut [f64]) -> usize
    ensures { Stored (λ e. second_number e.entry) (of_kind kind (entries_of text.now)) out.old out.new result }
{
    store_said(text, kind, out, |found| second_number(found.entry))
}

// The line of each entry of a kind.
pub fn entry_lines(text: &[u8], kind: usize, out: &mut [usize]) -> usize
    ensures { Stored (λ e. e.line) (of_kind kind (entries_of text.now)) out.old out.new result }
{
    store_said(text, kind, out, |found| found.line)
}
