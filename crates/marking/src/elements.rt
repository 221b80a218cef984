// The words of a report's elements.
ghost use Rattle.std.specs.Prelude.{List, ℕ, ◌≤◌, length, take};
ghost use Rattle.grammar.specs.Rules.{RuleEntries};
ghost use Rattle.marking.specs.Pass.{Marked};
ghost use Rattle.marking.specs.Given.{FirstColumnsOf};

use crate::asked::Elements;
use crate::passes::mark_entries;
use buffer::clear::clear;
use buffer::count::count_with_bit;
use entry::entry::Entry;

// Marks the n elements of a report with the entries of a rule, and counts those whose last entry's
// mark is true, with the entries and the columns of an accepted rule and report.
pub(crate) fn mark_elements(
    entries: &[Entry],
    n: usize,
    elements: Elements,
    marks: &mut [u64],
) -> usize
    requires rule_entries { RuleEntries entries.now }
    requires columns { (levels : List ℕ) × FirstColumnsOf n levels elements }
    requires n_in_bounds { (n ≤ length elements.labels.now) × (n ≤ length elements.ups.now) × (n ≤ length elements.lefts.now) × (n ≤ length marks.old) }
    ensures { (levels : List ℕ) → FirstColumnsOf n levels elements.entry → Marked entries.now levels (take n elements.entry.labels.now) marks.old result marks.new }
{
    let words = &mut marks[..n];
    clear(words);
    let first = Elements {
        labels: &elements.labels[..n],
        ups: &elements.ups[..n],
        lefts: &elements.lefts[..n],
    };
    mark_entries(entries, first, words);
    count_with_bit(words, entries.len() - 1)
}
