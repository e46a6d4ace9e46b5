// The lines of a program's input, and the words of a line. A program reads into a buffer, hands each
// byte to `step` and answers a line as soon as `step` has seen its end.
#![tactic(auto)]

ghost use Rattle.std.specs.Prelude.{◌≡◌, false, position};
ghost use Rattle.text_lines.specs.Lines.{blank, uncarriaged, silent, judged, end_of, reading_of, step_of, held_after, last_of};
ghost use Rattle.text_lines.specs.Words.{trimmed, front, behind, word_of, member, each_once, marks_of};

// The line that is being read: how many of its characters the lent buffer holds, whether there were
// more than it has room for, and the line's number.
// Kept: a flag and no enum, since a line that is too long still holds its first bytes; the functions take the
// lines and hand them back, as `step_of` and `last_of` have it; the buffer is the program's: there is no heap.
#[derive(Clone, Copy)]
pub struct Lines {
    pub len: usize,
    pub long: bool,
    pub number: u64,
}

// What a whole line is: the buffer's first bytes, so many; a line that is too long; or a blank line or
// a comment, which is passed over.
#[derive(Clone, Copy, PartialEq, Eq)]
pub enum Seen {
    Line(usize),
    TooLong,
    Passed,
}

// The lines behind a byte, or behind the end of the input, and what it brought: a whole line or, as
// yet, nothing.
#[derive(Clone, Copy)]
pub struct Stepped {
    pub lines: Lines,
    pub seen: Option<Seen>,
    pub number: u64,
}

pub fn new() -> Lines
    ensures { result ≡ record { len = 0; long = false; number = 1 } }
{
    Lines {
        len: 0,
        long: false,
        number: 1,
    }
}

fn is_blank(c: u8) -> bool
    ensures { result ≡ blank c }
{
    c == b' ' || c == b'\t'
}

// A line without a CR at its end.
#[tactic(auto, using(crate::proofs::Cuts::without_cr, crate::proofs::Cuts::no_cr))]
fn chomp(line: &[u8]) -> &[u8]
    ensures { result.now ≡ uncarriaged line.now }
{
    match line {
        [rest @ .., b'\r'] => rest,
        _ => line,
    }
}

// Whether a line is passed over.
#[tactic(auto, unfolding(crate::specs::Lines::silent))]
fn is_silent(line: &[u8]) -> bool
    ensures { result ≡ silent line.now }
{
    for c in line {
        if !is_blank(*c) {
            return *c == b'#';
        }
    }
    true
}

// What a whole line is. The buffer has one place more than a line may have characters, for the CR.
#[tactic(auto, unfolding(crate::specs::Lines::judged))]
fn judge(lines: Lines, buf: &[u8]) -> Seen
    ensures { result ≡ judged lines buf.now }
{
    if lines.long {
        return Seen::TooLong;
    }
    let line = chomp(&buf[..lines.len.min(buf.len())]);
    if buf.len().saturating_sub(1) < line.len() {
        Seen::TooLong
    } else if is_silent(line) {
        Seen::Passed
    } else {
        Seen::Line(line.len())
    }
}

#[tactic(auto, unfolding(crate::specs::Lines::end_of))]
fn end(lines: Lines, buf: &[u8]) -> Stepped
    ensures { result ≡ end_of lines buf.now }
{
    Stepped {
        lines: Lines {
            len: 0,
            long: false,
            number: lines.number.saturating_add(1),
        },
        seen: Some(judge(lines, buf)),
        number: lines.number,
    }
}

fn reading(lines: Lines, len: usize, long: bool) -> Stepped
    ensures { result ≡ reading_of lines len long }
{
    Stepped {
        lines: Lines {
            len,
            long,
            number: lines.number,
        },
        seen: None,
        number: lines.number,
    }
}

// One byte of the input.
#[tactic(auto, unfolding(crate::specs::Lines::step_of, crate::specs::Lines::held_after))]
pub fn step(lines: Lines, c: u8, buf: &mut [u8]) -> Stepped
    ensures value { result ≡ step_of lines c buf.old }
    ensures buf_after { buf.new ≡ held_after lines c buf.old }
{
    if c == b'\n' {
        return end(lines, buf);
    }
    let len = lines.len;
    if len < buf.len() {
        buf[len] = c;
        return reading(lines, len + 1, lines.long);
    }
    reading(lines, len, true)
}

// The end of the input: a last line without LF counts.
#[tactic(auto, unfolding(crate::specs::Lines::last_of))]
pub fn last(lines: Lines, buf: &[u8]) -> Stepped
    ensures { result ≡ last_of lines buf.now }
{
    if lines.long || 0 < lines.len {
        end(lines, buf)
    } else {
        reading(lines, lines.len, lines.long)
    }
}

// A line from its first word on.
#[tactic(auto, unfolding(crate::specs::Words::trimmed))]
fn trim_start(line: &[u8]) -> &[u8]
    ensures { result.now ≡ trimmed line.now }
{
    let mut rest = line;
    while let [first, behind @ ..] = rest
        && is_blank(*first)
    {
        rest = behind;
    }
    rest
}

fn first_blank(line: &[u8]) -> Option<usize>
    ensures { result ≡ position blank line.now }
{
    line.iter().position(|c| is_blank(*c))
}

// The word that a line begins with, and what stands behind it.
#[tactic(auto, using(crate::proofs::Cuts::word_cut, crate::proofs::Cuts::rest_cut))]
fn split_word(line: &[u8]) -> (&[u8], &[u8])
    ensures word { result.0.now ≡ front line.now }
    ensures rest { result.1.now ≡ behind line.now }
{
    line.split_at(first_blank(line).unwrap_or(line.len()))
}

// The word with the number k, counted from 0; empty where there are fewer words.
// Kept: a step for each word passed, as `word_of` goes; `split` gives empty words (no plainer).
#[tactic(auto, using(crate::proofs::Cuts::word_passed, crate::proofs::Cuts::word_here))]
pub fn word(line: &[u8], k: usize) -> &[u8]
    ensures { result.now ≡ word_of k line.now }
{
    let mut rest = line;
    for _ in 0..k {
        rest = split_word(trim_start(rest)).1;
    }
    split_word(trim_start(rest)).0
}

// Whether a letter stands in a word.
pub fn has(word: &[u8], letter: u8) -> bool
    ensures { result ≡ member letter word.now }
{
    word.contains(&letter)
}

#[tactic(auto, unfolding(crate::specs::Words::each_once))]
fn once(letters: &[u8], word: &[u8]) -> bool
    ensures { result ≡ each_once letters.now word.now }
{
    for (i, c) in word.iter().enumerate() {
        if !letters.contains(c) || word[i + 1..].contains(c) {
            return false;
        }
    }
    true
}

// Whether a word is MARKS of these letters: each at most once, in any order, or `-` for none.
#[tactic(auto, unfolding(crate::specs::Words::marks_of))]
pub fn marks(letters: &[u8], word: &[u8]) -> bool
    ensures { result ≡ marks_of letters.now word.now }
{
    matches!(word, [b'-']) || once(letters, word)
}
