// What begins at a cursor. None of these functions calls a parser.
ghost use Rattle.std.specs.Prelude.{◌≡◌, ◌++◌};
ghost use Rattle.paths.specs.Spelling.{gap, or_word};
ghost use Rattle.words.specs.Words.{fixed_at};
ghost use Rattle.words.specs.Begins.{label_at, letters_at, begin_at, named_of, axis_at, step_at, start_at};

use crate::words::{Stray, byte_at, fixed_at, numeral_at};

// The word of an axis: its end, and the kind of one step along it.
#[derive(Clone, Copy)]
pub(crate) struct Named {
    pub end: usize,
    pub kind: u16,
}

// What a test begins with: it is `true` or `label N` (its end, and N or 0); `not` (its end); `(`; `<`.
#[derive(Clone, Copy)]
pub enum Begin {
    Leaf(usize, u16),
    Not(usize),
    Either,
    Path,
}

// What a step begins with: it is AXIS or AXIS* (its end, whether a word ends there, its form); `?`;
// `(AXIS?` (its end and the step's form).
#[derive(Clone, Copy)]
pub enum Start {
    Plain(usize, bool, u16),
    Test,
    While(usize, u16),
}

// The end of `or`, behind a space where a word stands before.
pub fn or_at(s: &[u8], at: usize, after: bool) -> Result<usize, Stray>
    ensures { result ≡ fixed_at (gap after ++ or_word) s.now at }
{
    if after {
        fixed_at(s, at, b" or")
    } else {
        fixed_at(s, at, b"or")
    }
}

// The number of `label N`, at the end of the word and its space.
fn label_at(s: &[u8], end: usize) -> Result<Begin, Stray>
    ensures { result ≡ label_at s.now end }
{
    match numeral_at(s, end) {
        Some(n) => Ok(Begin::Leaf(end + n.digits, n.value)),
        None => Err(Stray { place: end }),
    }
}

// A test that begins with a letter.
fn letters_at(s: &[u8], at: usize) -> Result<Begin, Stray>
    ensures { result ≡ letters_at s.now at }
{
    match byte_at(s, at) {
        b't' => Ok(Begin::Leaf(fixed_at(s, at, b"true")?, 0)),
        b'l' => label_at(s, fixed_at(s, at, b"label ")?),
        b'n' => Ok(Begin::Not(fixed_at(s, at, b"not")?)),
        _ => Err(Stray { place: at }),
    }
}

// A test: its first letter stands behind a space where a word stands before. (Early returns, since with
// one match a text of 448 bytes took 5 % longer.)
pub fn begins_at(s: &[u8], at: usize, after: bool) -> Result<Begin, Stray>
    ensures { result ≡ begin_at after s.now at }
{
    let b = byte_at(s, at);
    if b == b'(' {
        return Ok(Begin::Either);
    }
    if b == b'<' {
        return Ok(Begin::Path);
    }
    let unspaced = !after;
    if unspaced {
        return letters_at(s, at);
    }
    if b == b' ' {
        return letters_at(s, at + 1);
    }
    Err(Stray { place: at })
}

// A word that names an axis, as its kind.
fn named_at(s: &[u8], at: usize, word: &[u8], kind: u16) -> Result<Named, Stray>
    ensures { result ≡ named_of kind (fixed_at word.now s.now at) }
{
    let end = fixed_at(s, at, word)?;
    Ok(Named {
        end: end,
        kind: kind,
    })
}

// An axis, by its first letter.
fn axis_at(s: &[u8], at: usize) -> Result<Named, Stray>
    ensures { result ≡ axis_at s.now at }
{
    match byte_at(s, at) {
        b'c' => named_at(s, at, b"child", 6),
        b'p' => named_at(s, at, b"parent", 7),
        b'r' => named_at(s, at, b"right", 8),
        b'l' => named_at(s, at, b"left", 9),
        _ => Err(Stray { place: at }),
    }
}

// AXIS or AXIS*; or AXIS? where a bracket stands before. Both in one function, so that the words are
// compared in one place.
fn axis_step(s: &[u8], at: usize, bracket: bool) -> Result<Start, Stray>
    ensures { result ≡ step_at bracket s.now at }
{
    let axis = axis_at(s, at)?;
    let next = byte_at(s, axis.end);
    if bracket {
        if next == b'?' {
            return Ok(Start::While(axis.end + 1, axis.kind + 8));
        }
        return Err(Stray { place: axis.end });
    }
    if next == b'*' {
        return Ok(Start::Plain(axis.end + 1, false, axis.kind + 4));
    }
    Ok(Start::Plain(axis.end, true, axis.kind))
}

// A step: its axis stands behind the bracket where there is one.
pub fn start_at(s: &[u8], at: usize) -> Result<Start, Stray>
    ensures { result ≡ start_at s.now at }
{
    let b = byte_at(s, at);
    if b == b'?' {
        return Ok(Start::Test);
    }
    let bracket = b == b'(';
    axis_step(s, at + bracket as usize, bracket)
}
