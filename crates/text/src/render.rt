// The text of an answer.
ghost use Rattle.std.specs.Prelude.{◌+◌, ◌*◌, ◌≤◌, length};
ghost use Rattle.text.specs.Text.{refused_line, element_line};
ghost use Rattle.text.specs.Rendered.{Rendered, table_lines, table_text, buffer_size};
ghost use Rattle.text.specs.Writing.{Writes};
ghost use Rattle.terms.specs.Limits.{elements_most};

use crate::put::{TEXT_BYTES, Writer};
use numbers::bits::bit_at;
use terms::limits::ELEMENTS_MOST;

impl<'a> Writer<'a> {
    // Puts an element's number, label, level and verdict.
    fn put_element(&mut self, element: usize, label: usize, level: usize, verdict: bool)
        requires { self.old.at + length (element_line element label level verdict) ≤ buffer_size }
        ensures { Writes (element_line element label level verdict) self.old self.new }
    {
        self.put_field(element, b' ');
        self.put_field(label, b' ');
        self.put_field(level, b' ');
        self.put_field(verdict as usize, b'\n');
    }

    // Puts a line for each of so many elements, in order. An element's verdict is bit `last` of its
    // mark word.
    fn put_elements(
        &mut self,
        labels: &[u16; ELEMENTS_MOST],
        levels: &[u16; ELEMENTS_MOST],
        marks: &[u64; ELEMENTS_MOST],
        elements: usize,
        last: usize,
    )
        requires { (elements ≤ elements_most) × (self.old.at + 19 * elements ≤ buffer_size) }
        ensures put { Writes (table_lines labels.now levels.now marks.now last elements) self.old self.new }
        ensures ends { self.new.at ≤ self.old.at + 19 * elements }
    {
        for i in 0..elements {
            let label = labels[i] as usize;
            let level = levels[i] as usize;
            self.put_element(i, label, level, bit_at(marks[i], last));
        }
    }
}

// Puts `refused N at P`. A number and no fault: what is printed is a number, and any is promised.
pub fn put_refused(out: &mut [u8; TEXT_BYTES], number: u32, place: usize) -> usize
    ensures { Rendered (refused_line number place) out.old result out.new }
{
    let mut text = Writer { out, at: 0 };
    text.put_phrase(b"refused ", number as usize, b"at ", place);
    text.at
}

// Puts the header, a line for each of n elements (the tables have 4,096), and `selected S of N`.
pub fn put_accepted(
    out: &mut [u8; TEXT_BYTES],
    labels: &[u16; ELEMENTS_MOST],
    levels: &[u16; ELEMENTS_MOST],
    marks: &[u64; ELEMENTS_MOST],
    n: usize,
    last: usize,
    selected: usize,
) -> usize
    ensures { Rendered (table_text labels.now levels.now marks.now last n selected) out.old result out.new }
{
    let elements = n.min(ELEMENTS_MOST);
    let mut text = Writer { out, at: 0 };
    text.put_word(b"element label level selected\n");
    text.put_elements(labels, levels, marks, elements, last);
    text.put_phrase(b"selected ", selected, b"of ", elements);
    text.at
}
