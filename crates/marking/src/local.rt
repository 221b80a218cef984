// Kinds 1 to 5: what an element's own label and bits say.
ghost use Rattle.std.specs.Prelude.{◌≡◌, ◌<◌, eqb, length, get_or};
ghost use Rattle.terms.specs.Kinds.{local_numbers};
ghost use Rattle.terms.specs.declared.kind.Numbers.TheVariants.{Entries};
ghost use Rattle.meaning.specs.Marks.{means_here};
ghost use Rattle.marking.specs.Pass.{Passed, Room, bits_of};

use buffer::gates::gate_pass;
use steps::gate::{always_gate, and_gate, not_gate, or_gate};
use steps::label::label_mark;
use steps::word::put_bit;
use terms::kind::Local;

// Entry i at every element, by the elements' labels.
fn label_pass(label: usize, i: usize, labels: &[u16], marks: &mut [u64])
    requires { Room (length labels.now) i marks.old }
    ensures { Passed (length labels.now) i (λ s. eqb (get_or labels.now s 0) label) marks.old marks.new }
{
    for (s, own) in labels.iter().enumerate() {
        marks[s] = put_bit(marks[s], i, label_mark(*own, label));
    }
}

// Entry i at every element, by what is asked of it alone.
pub(crate) fn local_pass(
    asked: Local,
    a: usize,
    b: usize,
    i: usize,
    labels: &[u16],
    marks: &mut [u64],
)
    requires earlier { local_numbers asked ≡ Entries → (a < i) × (b < i) }
    requires room { Room (length labels.now) i marks.old }
    ensures { Passed (length labels.now) i (λ s. means_here asked a (get_or labels.now s 0) (bits_of marks.old a s) (bits_of marks.old b s)) marks.old marks.new }
{
    match asked {
        Local::Always => gate_pass(always_gate(), i, marks),
        Local::HasLabel => label_pass(a, i, labels, marks),
        Local::Negation => gate_pass(not_gate(a), i, marks),
        Local::Disjunction => gate_pass(or_gate(a, b), i, marks),
        Local::Conjunction => gate_pass(and_gate(a, b), i, marks),
    }
}
