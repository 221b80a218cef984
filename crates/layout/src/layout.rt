// A report's elements, from its bytes.
ghost use Rattle.std.specs.Prelude.{◌≡◌, ◌≤◌, length, take};
ghost use Rattle.grammar.specs.Legal.{LegalLevels};
ghost use Rattle.terms.specs.Answer.{answered};
ghost use Rattle.layout.specs.Links.{parents, previous_siblings};
ghost use Rattle.layout.specs.Layout.{LaidOut};
ghost use Rattle.numbers.specs.Lists.{over};

use crate::columns::least_of_four;
use crate::links::link;
use reports::elements::read_elements;
use terms::refusal::Refusal;

// Links the first n elements.
fn link_first(n: usize, levels: &[u16], ups: &mut [u16], lefts: &mut [u16])
    requires legal_levels { LegalLevels (take n levels.now) }
    requires n_in_bounds { (n ≤ length levels.now) × (n ≤ length ups.old) × (n ≤ length lefts.old) }
    ensures ups_after { ups.new ≡ over (parents (take n levels.now)) ups.old }
    ensures lefts_after { lefts.new ≡ over (previous_siblings (take n levels.now)) lefts.old }
{
    link(&levels[..n], &mut ups[..n], &mut lefts[..n])
}

// Reads a report, and puts its elements' labels and levels into the lent columns, in order of opening;
// where it is accepted and every column has room for its elements, also their parents and previous
// siblings. Four slices, and no struct that holds them: lent as `&mut`, it can't lend two of its columns to
// one call, which the check does not cover.
pub fn lay_out(
    report: &[u8],
    labels: &mut [u16],
    levels: &mut [u16],
    ups: &mut [u16],
    lefts: &mut [u16],
) -> Result<usize, Refusal>
    ensures { LaidOut report.now labels.old levels.old ups.old lefts.old (answered result) labels.new levels.new ups.new lefts.new }
{
    let n = read_elements(report, labels, levels)?;
    if n <= least_of_four(labels.len(), levels.len(), ups.len(), lefts.len()) {
        link_first(n, levels, ups, lefts)
    }
    Ok(n)
}
