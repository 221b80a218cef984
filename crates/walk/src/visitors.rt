// Who sees a rule's entries for one pass: the word of an element that opens is made entry by entry, and a
// closing asks of each entry only whether it looks ahead.
ghost use Rattle.walk.specs.Visitors.{stepped, looked};

use crate::step::step_bit;
use entry::entry::Entry;
use rules::visit::Visitor;
use steps::word::put_bit;
use terms::kind::{looks_back, row_of};

// An element that opens: its label, its parent's word and its previous sibling's; and of the entries seen,
// whether one looks ahead, and the word.
#[derive(Clone, Copy)]
pub struct Stepping {
    pub label: usize,
    pub parent: u64,
    pub sibling: u64,
    pub ahead: bool,
    pub word: u64,
}

impl Visitor for Stepping {
    ghost then = { stepped };

    #[inline(always)]
    fn see(&mut self, n: usize, e: Entry) {
        let row = row_of(e.kind as usize);
        let shape = row.shape;
        let back = looks_back(shape);
        let on = step_bit(
            shape,
            e.a as usize,
            e.b as usize,
            n,
            self.label,
            self.word,
            self.parent,
            self.sibling,
        );
        self.ahead = self.ahead | !back;
        self.word = put_bit(self.word, n, on);
    }
}

// Of the entries seen, whether one looks ahead.
#[derive(Clone, Copy)]
pub struct Looking {
    pub ahead: bool,
}

impl Visitor for Looking {
    ghost then = { looked };

    #[inline(always)]
    fn see(&mut self, n: usize, e: Entry) {
        let asked = row_of(e.kind as usize);
        self.ahead = self.ahead | !looks_back(asked.shape);
    }
}
