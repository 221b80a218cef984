// Why something is refused, and where. specs/Answer.antt gives each fault its number, and each Result of
// a reader the paper's number and values.
ghost use Rattle.std.specs.Prelude.{◌≡◌};

// The rows of document 01's table of numbers, each with its number, called as the header calls it.
#[derive(Clone, Copy)]
pub enum Fault {
    // a rule of no byte or of too many
    RuleSize = 1,
    // a record of a rule that is not whole
    RuleRecord = 2,
    // a label or an entry number that may not stand there
    RuleArgument = 3,
    // an entry more than a rule may have
    RuleFull = 4,
    // a report of no byte or of too many
    ReportSize = 5,
    // a record of a report that is not whole, or whose label may not be
    ReportRecord = 6,
    // a second root, a closing with nothing open, or an end with something open
    ReportOrder = 7,
    // a level or an element more than a report may have
    ReportFull = 8,
    // what is lent has no room
    BufferShort = 9,
    // a rule that looks ahead, for one pass
    RuleAhead = 10,
    // a state of one pass that is none
    StateBad = 11,
    // a tally that is full or out of balance
    TallyBad = 12,
    // no text of a rule
    TextBad = 13,
    // a text with more entries than a rule may have
    TextFull = 14,
}

// Why a byte string is refused, and at which byte.
#[derive(Clone, Copy)]
pub struct Refusal {
    pub fault: Fault,
    pub place: usize,
}

impl Fault {
    // The refusal for this fault, found at a place.
    pub fn at(self, place: usize) -> Refusal
        ensures { result ≡ record { fault = self; place = place } }
    {
        Refusal { fault: self, place }
    }
}
