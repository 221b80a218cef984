// Parents and previous siblings from the levels.
ghost use Rattle.std.specs.Prelude.{◌≡◌, length};
ghost use Rattle.grammar.specs.Legal.{LegalLevels};
ghost use Rattle.layout.specs.Links.{Linked};

// A place for each level, the one above the first and the one below the last.
const HELD: usize = 66;

// Fills the columns of parents and previous siblings; an element's own number stands where it has
// none. Place d of `held` has the last element one level above d, so the parent of one at level d, and
// place d + 1 the last at level d; an element that opens puts the number of the one after it where its
// first child will look for a previous sibling, so that no turn has a branch.
pub(crate) fn link(levels: &[u16], ups: &mut [u16], lefts: &mut [u16])
    requires legal_levels { LegalLevels levels.now }
    requires as_long { (length ups.old ≡ length levels.now) × (length lefts.old ≡ length levels.now) }
    ensures { Linked levels.now ups.new lefts.new }
{
    let mut held = [0u16; HELD];
    for (s, level) in levels.iter().enumerate() {
        let d = *level as usize;
        ups[s] = held[d];
        lefts[s] = held[d + 1];
        held[d + 1] = s as u16;
        held[d + 2] = (s + 1) as u16;
    }
}
