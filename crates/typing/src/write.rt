// The writer: it follows the rows of a text's tree and puts the entries. A test stands in a row below
// that of the part it belongs to, and every step puts an entry or more, so it ends.
ghost use Rattle.std.specs.Prelude.{◌≡◌, ◌≤◌, length};
ghost use Rattle.numbers.specs.Lists.{over};
ghost use Rattle.grammar.specs.Rules.{rule_bytes};
ghost use Rattle.paths.specs.Syntax.{Test};
ghost use Rattle.paths.specs.Translation.{table_of};
ghost use Rattle.parse.specs.Rows.{row_at, HeldT};
ghost use Rattle.spell.specs.Promises.{written};
ghost use Rattle.typing.specs.Writing.{TestAsks, TestPuts, StepAsks, StepPuts, StepsAsk, StepsPut};
ghost use Rattle.terms.specs.Limits.{entries_most};

use parse::tree::{ROWS, Row};
use spell::own::{Written, put_part};
use spell::put::last;

// Row n; rows count from 1.
fn row_at(rows: &[Row; ROWS], n: u16) -> Row
    requires { (1 ≤ n) × (n ≤ entries_most) }
    ensures { result ≡ row_at rows.now n }
{
    rows[n as usize - 1]
}

// What was written is handed on as two numbers: as a whole it would be copied right after its fields
// were stored one by one, and the processor waits for that.

// The entries of the test in row n, behind what is written: the argument or arguments, and the whole;
// of a path its closing "true", and its steps.
#[cycle(write_write_step_write_steps)]
fn write(rows: &[Row; ROWS], n: u16, rule: &mut [u8], entries: u16, bytes: usize) -> Written
    requires { (n ≤ entries_most) × TestAsks rows.now n rule.old (written entries bytes) }
    ensures { TestPuts rows.now n rule.old (written entries bytes) rule.new result }
{
    let part = row_at(rows, n);
    let form = part.form;
    match form {
        0..=2 => put_part(rule, entries, bytes, form, part.first),
        3 => {
            let test = write(rows, part.first, rule, entries, bytes);
            put_part(rule, test.entries, test.bytes, 3, last(test.entries))
        }
        4 => {
            let left = write(rows, part.first, rule, entries, bytes);
            let right = write(rows, part.second, rule, left.entries, left.bytes);
            put_part(rule, right.entries, right.bytes, 4, last(left.entries))
        }
        _ => {
            let end = put_part(rule, entries, bytes, 1, 0);
            write_steps(rows, n, rule, end.entries, end.bytes)
        }
    }
}

// The entries of the step in row n and then of the steps before it in its path. The argument of each
// is the last entry so far. A loop and not a call for each step, as the steps are read.
#[cycle(write_write_step_write_steps)]
fn write_steps(rows: &[Row; ROWS], n: u16, rule: &mut [u8], entries: u16, bytes: usize) -> Written
    requires { (1 ≤ n) × (1 ≤ entries) × StepsAsk rows.now n rule.old (written entries bytes) }
    ensures { StepsPut rows.now n rule.old (written entries bytes) rule.new result }
{
    let mut row = n;
    let mut so_far = Written { entries, bytes };
    loop {
        so_far = write_step(rows, row, rule, so_far.entries, so_far.bytes);
        let part = row_at(rows, row);
        if part.second == 0 {
            return so_far;
        }
        row = part.second;
    }
}

// The entries of the step in row n alone: of its test, if it has one, and its own.
#[cycle(write_write_step_write_steps)]
fn write_step(rows: &[Row; ROWS], n: u16, rule: &mut [u8], entries: u16, bytes: usize) -> Written
    requires { (n ≤ entries_most) × (1 ≤ entries) × StepAsks rows.now n rule.old (written entries bytes) }
    ensures { StepPuts rows.now n rule.old (written entries bytes) rule.new result }
{
    let part = row_at(rows, n);
    let form = part.form;
    match form {
        6..=13 => put_part(rule, entries, bytes, form, last(entries)),
        _ => {
            let test = write(rows, part.first, rule, entries, bytes);
            put_part(rule, test.entries, test.bytes, form, last(entries))
        }
    }
}

// The rule of the test in row n at the front of the buffer, which has room for it. The bytes past
// the rule keep their contents.
pub(crate) fn write_rule(rows: &[Row; ROWS], n: usize, rule: &mut [u8])
    requires { (n ≤ entries_most) × ((t : Test) × HeldT rows.now t n × (length (table_of t) ≤ entries_most) × (length (rule_bytes (table_of t)) ≤ length rule.old)) }
    ensures { (t : Test) → HeldT rows.now t n → rule.new ≡ over (rule_bytes (table_of t)) rule.old }
{
    write(rows, n as u16, rule, 0, 0);
}
