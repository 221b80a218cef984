// One record of a report at one offset: the tag that it is, or why it is not taken.
ghost use Rattle.std.specs.Prelude.{◌≡◌, false, ◌+◌, ◌≤◌, None, length};
ghost use Rattle.terms.specs.Answer.{answered, fault_number};
ghost use Rattle.terms.specs.Frame.{kind_at};
ghost use Rattle.tag.specs.Tags.{opens, closes, tag_fault, end_of};
ghost use Rattle.tag.specs.Taken.{TagTaken};
ghost use Rattle.tag.specs.declared.tag.Untaken.{Untaken};

use crate::number::number_at;
use terms::limits::{ELEMENTS_MOST, LABEL_MOST, LEVELS_MOST};
use terms::refusal::{Fault, Refusal};

// A tag: it opens an element with a label, or closes the innermost open one.
#[derive(Clone, Copy)]
pub enum Tag {
    Opening(u16),
    Closing,
}

// Why a record is not taken; and the label of one that is whole and opens an element all the same.
#[derive(Clone, Copy)]
pub struct Untaken {
    pub fault: Fault,
    pub label: Option<u16>,
}

impl From<Fault> for Untaken {
    ghost from_gives = { λ fault untaken. untaken ≡ record { fault = fault; label = None } };

    fn from(fault: Fault) -> Untaken {
        Untaken { fault, label: None }
    }
}

// Whether an element with a label may open where so many are open and so many have been opened.
pub fn open_fault(
    depth: usize,
    elements: usize,
    root_closed: bool,
    label: usize,
) -> Result<(), Fault>
    ensures { fault_number result ≡ tag_fault depth elements root_closed (opens label) }
{
    if (label < 1) | (LABEL_MOST < label) {
        return Err(Fault::ReportRecord);
    }
    if root_closed {
        return Err(Fault::ReportOrder);
    }
    if (LEVELS_MOST <= depth) | (ELEMENTS_MOST <= elements) {
        return Err(Fault::ReportFull);
    }
    Ok(())
}

// Whether an element may close where so many are open; what has been opened before plays no part.
pub fn close_fault(depth: usize) -> Result<(), Fault>
    ensures { fault_number result ≡ tag_fault depth 0 false closes }
{
    let nothing_open = depth == 0;
    if nothing_open {
        Err(Fault::ReportOrder)
    } else {
        Ok(())
    }
}

// Takes a record of kind 1, with 4 bytes or more left.
fn take_opening(s: &[u8], at: usize, depth: usize, elements: usize) -> Result<Tag, Untaken>
    requires at_in_bounds { at + 4 ≤ length s.now }
    requires of_kind { kind_at s.now at ≡ 1 }
    ensures { TagTaken s.now at depth elements result }
{
    let other_length = number_at(s, at) != 4;
    if other_length {
        return Err(Fault::ReportRecord.into());
    }
    if s.len() - at < 6 {
        return Err(Fault::ReportRecord.into());
    }
    let label = number_at(s, at + 4);
    let root_closed = (depth == 0) & (0 < elements);
    // By `if let`: a `match` makes one test of the two limits, and a flat report took a twentieth longer.
    if let Err(fault) = open_fault(depth, elements, root_closed, label as usize) {
        return Err(Untaken {
            fault,
            label: Some(label),
        });
    }
    Ok(Tag::Opening(label))
}

// Takes a record of kind 2, with 4 bytes or more left.
fn take_closing(s: &[u8], at: usize, depth: usize, elements: usize) -> Result<Tag, Untaken>
    requires at_in_bounds { at + 4 ≤ length s.now }
    requires of_kind { kind_at s.now at ≡ 2 }
    ensures { TagTaken s.now at depth elements result }
{
    let other_length = number_at(s, at) != 2;
    if other_length {
        return Err(Fault::ReportRecord.into());
    }
    close_fault(depth)?;
    Ok(Tag::Closing)
}

// Takes the record at an offset where so many elements are open and so many have been opened before
// it. By the kind first: each kind's own path has its length as a constant, so that the walk does not
// wait for what it read.
pub fn take_tag(s: &[u8], at: usize, depth: usize, elements: usize) -> Result<Tag, Untaken>
    ensures { TagTaken s.now at depth elements result }
{
    if s.len() < at {
        return Err(Fault::ReportRecord.into());
    }
    if s.len() - at < 4 {
        return Err(Fault::ReportRecord.into());
    }
    let kind = number_at(s, at + 2);
    match kind {
        1 => take_opening(s, at, depth, elements),
        2 => take_closing(s, at, depth, elements),
        _ => Err(Fault::ReportRecord.into()),
    }
}

// What a report of so many bytes is answered that ends here.
pub fn end_of(size: usize, depth: usize, elements: usize) -> Result<usize, Refusal>
    ensures { answered result ≡ end_of size depth elements }
{
    if depth == 0 {
        Ok(elements)
    } else {
        Err(Fault::ReportOrder.at(size))
    }
}
