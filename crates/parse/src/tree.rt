// The parsers: test and path call each other, and the bytes left fall with every call. Each answers
// where its part ends and what it counts, and notes the part in the lent rows; k is the number of
// entries before the part. Counts have 16 bits, so that the deepest text needs little stack.
ghost use Rattle.std.specs.Prelude.{◌≡◌, Bool, true, false, ◌+◌, ◌*◌, ◌-◌, ◌<◌, ◌≤◌, length, drop};
ghost use Rattle.parse.specs.declared.tree.Parsed.TheVariants.{Done};
ghost use Rattle.words.specs.Words.{head_of};
ghost use Rattle.words.specs.Begins.{leaf_tree};
ghost use Rattle.parse.specs.Rows.{note_row, note_t};
ghost use Rattle.parse.specs.Promises.{leaf_bytes, At, Small, Ends, Shut, Closing, Excepted, EitherOf, StepOf, TestParsed, PathParsed, StepParsed, Read, TreeRead};
ghost use Rattle.paths.specs.Answer.{text_most};

use spell::form::{own_bytes, own_entries};
use words::begins::{Begin, Start, begins_at, or_at, start_at};
use words::words::{Stray, byte_at, fixed_at};

// How many bytes a text has at most.
const TEXT_MOST: usize = 1024;

// There is a row for each entry that a rule may have.
pub const ROWS: usize = 64;

// A row of the table that a text's tree is noted in: a form, and two numbers that depend on it
// (specs/Rows.antt). In a row that is not filled all are 0.
#[derive(Clone, Copy)]
pub struct Row {
    pub form: u16,
    pub first: u16,
    pub second: u16,
}

pub const NO_ROW: Row = Row {
    form: 0,
    first: 0,
    second: 0,
};

// A test, a path or a step: its end, whether a word or number ends there, its entries, its rule's bytes; or
// the place where it stops. (An enum of its own and no Result: tried as Result<Part, Stop>, 1,024 flat bytes
// took 2.70 us and not 1.78, nested ones 8.7 and not 7.1, and the deepest text 213,720 bytes of stack and not
// 164,520, since a struct is copied whole right after its fields were stored one by one.)
#[derive(Clone, Copy)]
pub(crate) enum Parsed {
    Done(u16, bool, u16, u16),
    Bad(u16),
}

// How many entries a text has, and how many bytes its rule.
#[derive(Clone, Copy)]
pub struct Counts {
    pub entries: usize,
    pub bytes: usize,
}

// ---- rows

// Fills row n, where there is such a row: a text with more entries is refused, and its rows are not read.
fn note_row(rows: &mut [Row; ROWS], n: u16, form: u16, a: u16, b: u16)
    requires { 1 ≤ n }
    ensures { rows.new ≡ note_row rows.old n form a b }
{
    let n = n as usize;
    if n <= ROWS {
        rows[n - 1] = Row {
            form: form,
            first: a,
            second: b,
        };
    }
}

// ---- what is made of a part

// `true` where the label is 0, else `label N`, which ends at e.
fn leaf(e: usize, label: u16, k: u16, rows: &mut [Row; ROWS]) -> Parsed
    requires { (e ≤ text_most) × (k ≤ text_most) }
    ensures { (result ≡ Done e true 1 (leaf_bytes label)) × (rows.new ≡ note_t (leaf_tree label) k rows.old) }
{
    if label == 0 {
        note_row(rows, k + 1, 1, 0, 0);
        return Parsed::Done(e as u16, true, 1, 4);
    }
    note_row(rows, k + 1, 2, label, 0);
    Parsed::Done(e as u16, true, 1, 6)
}

// `not`, and the test p.
fn except(p: Parsed, k: u16, rows: &mut [Row; ROWS]) -> Parsed
    requires { Small p × (k ≤ text_most) }
    ensures { Excepted p k rows.old result rows.new }
{
    match p {
        Parsed::Bad(q) => Parsed::Bad(q),
        Parsed::Done(e, v, n, b) => {
            note_row(rows, k + n + 1, 3, k + n, 0);
            Parsed::Done(e, v, n + 1, b + 6)
        }
    }
}

// `(`, a left with n entries and b bytes that ends with entry k, ` or`, and the right p.
fn either_of(p: Parsed, k: u16, n: u16, b: u16, rows: &mut [Row; ROWS]) -> Parsed
    requires { Small p × (k ≤ text_most) × (n ≤ text_most) × (b ≤ 8192) }
    ensures { EitherOf p k n b rows.old result rows.new }
{
    match p {
        Parsed::Bad(q) => Parsed::Bad(q),
        Parsed::Done(e, v, m, c) => {
            note_row(rows, k + m + 1, 4, k, k + m);
            Parsed::Done(e, v, m + n + 1, c + b + 8)
        }
    }
}

// A step of a form, behind k entries. Its test is p, of no entries where it has none; the step before
// it in its path is in row `before`.
fn step_of(p: Parsed, k: u16, form: u16, before: u16, rows: &mut [Row; ROWS]) -> Parsed
    requires { Small p × (k ≤ text_most) }
    ensures { StepOf p k form before rows.old result rows.new }
{
    match p {
        Parsed::Bad(q) => Parsed::Bad(q),
        Parsed::Done(e, v, n, b) => {
            let own = own_entries(form);
            note_row(rows, k + n + own, form, k + n, before);
            Parsed::Done(e, v, n + own, b + own_bytes(form))
        }
    }
}

// `<`, and the path p: its closing "true" is one entry more.
fn closing(p: Parsed) -> Parsed
    requires { Small p }
    ensures { Closing p result }
{
    match p {
        Parsed::Bad(q) => Parsed::Bad(q),
        Parsed::Done(e, v, n, b) => Parsed::Done(e, v, n + 1, b + 4),
    }
}

// The part, closed by a word of signs.
fn shut(s: &[u8], p: Parsed, word: &[u8]) -> Parsed
    requires { Ends s.now p × (length s.now ≤ text_most) }
    ensures { Shut word.now s.now p result }
{
    match p {
        Parsed::Bad(q) => Parsed::Bad(q),
        Parsed::Done(e, v, n, b) => match fixed_at(s, e as usize, word) {
            Err(q) => Parsed::Bad(q.place as u16),
            Ok(f) => Parsed::Done(f as u16, false, n, b),
        },
    }
}

// ---- the parsers

#[cycle(either_path_step_test)]
fn test(s: &[u8], at: usize, after: bool, k: u16, rows: &mut [Row; ROWS]) -> Parsed
    requires { At s.now at k }
    ensures { TestParsed after s.now at k rows.old result rows.new }
{
    match begins_at(s, at, after) {
        Err(p) => Parsed::Bad(p.place as u16),
        Ok(Begin::Leaf(e, label)) => leaf(e, label, k, rows),
        Ok(Begin::Not(f)) => {
            let inner = test(s, f, true, k, rows);
            except(inner, k, rows)
        }
        Ok(Begin::Either) => either(s, at, k, rows),
        Ok(Begin::Path) => closing(path(s, at + 1, k + 1, rows)),
    }
}

// (TEST or TEST)
#[cycle(either_path_step_test)]
fn either(s: &[u8], at: usize, k: u16, rows: &mut [Row; ROWS]) -> Parsed
    requires { At s.now at k × (head_of (drop at s.now) ≡ 40) }
    ensures { (w : Bool) → TestParsed w s.now at k rows.old result rows.new }
{
    match test(s, at + 1, false, k, rows) {
        Parsed::Bad(p) => Parsed::Bad(p),
        Parsed::Done(e, v, n, b) => match or_at(s, e as usize, v) {
            Err(p) => Parsed::Bad(p.place as u16),
            Ok(f) => {
                let right = test(s, f, true, k + n, rows);
                shut(s, either_of(right, k + n, n, b, rows), b")")
            }
        },
    }
}

// Steps with `/` between them, and `>`. A loop and not a call for each step, so that a long path needs
// no more stack than a short one.
#[cycle(either_path_step_test)]
fn path(s: &[u8], at: usize, k: u16, rows: &mut [Row; ROWS]) -> Parsed
    requires { At s.now at k }
    ensures { PathParsed s.now at k rows.old result rows.new }
{
    let mut from = at;
    let mut entries: u16 = 0;
    let mut bytes: u16 = 0;
    let mut before: u16 = 0;
    loop {
        match step(s, from, k + entries, before, rows) {
            Parsed::Bad(p) => {
                return Parsed::Bad(p);
            }
            Parsed::Done(e, v, n, b) => {
                entries += n;
                bytes += b;
                let next = byte_at(s, e as usize);
                if next == b'>' {
                    return Parsed::Done(e + 1, false, entries, bytes);
                }
                if next != b'/' {
                    return Parsed::Bad(e);
                }
                from = e as usize + 1;
                before = k + entries;
            }
        }
    }
}

#[cycle(either_path_step_test)]
fn step(s: &[u8], at: usize, k: u16, before: u16, rows: &mut [Row; ROWS]) -> Parsed
    requires { At s.now at k }
    ensures { StepParsed s.now at k before rows.old result rows.new }
{
    match start_at(s, at) {
        Err(p) => Parsed::Bad(p.place as u16),
        Ok(Start::Plain(e, v, form)) => {
            step_of(Parsed::Done(e as u16, v, 0, 0), k, form, before, rows)
        }
        Ok(Start::Test) => {
            let inner = test(s, at + 1, false, k, rows);
            step_of(inner, k, 5, before, rows)
        }
        Ok(Start::While(f, form)) => {
            let inner = test(s, f, false, k, rows);
            step_of(shut(s, inner, b")*"), k, form, before, rows)
        }
    }
}

// A byte string of 1 to 1,024 bytes, read from its first byte.
fn read_sized(s: &[u8], rows: &mut [Row; ROWS]) -> Result<Counts, Stray>
    requires { length s.now ≤ text_most }
    ensures { Read s.now rows.old result rows.new }
{
    match test(s, 0, false, 0, rows) {
        Parsed::Bad(p) => Err(Stray { place: p as usize }),
        Parsed::Done(e, v, n, b) => {
            if e as usize == s.len() {
                Ok(Counts {
                    entries: n as usize,
                    bytes: b as usize,
                })
            } else {
                Err(Stray { place: e as usize })
            }
        }
    }
}

// Reads a byte string as a text, and leaves the rows of its tree, all zero where there is none.
pub fn read_tree(s: &[u8], rows: &mut [Row; ROWS]) -> Result<Counts, Stray>
    ensures { TreeRead s.now result rows.new }
{
    *rows = [NO_ROW; ROWS];
    if s.is_empty() | (TEXT_MOST < s.len()) {
        return Err(Stray { place: 0 });
    }
    let read = read_sized(s, rows);
    if read.is_err() {
        *rows = [NO_ROW; ROWS];
    }
    read
}
