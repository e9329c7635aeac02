// The head of the request text (document 01): the lines before the scans; and the line of the buddy check (document 02, 7), which stands after
// them. Lines are read where those before them ended.
#![tactic(auto)]

ghost use Rattle.std.specs.Prelude.{◌≡◌, ◌+◌, ◌≤◌, ◌<◌, ◌^◌};
ghost use Rattle.scheme.specs.Units.{no_buddies};
ghost use Rattle.scheme.specs.Text.Reader.{reads};
ghost use Rattle.scheme.specs.Text.Pieces.{count};
ghost use Rattle.scheme.specs.Text.Lines.{number, buddy_line};
ghost use Rattle.request.specs.Tables.{buddies_of};
ghost use Rattle.text_head.specs.Left.{left_of, line_of};
ghost use Rattle.text_head.specs.Head.{line_or, Heads, terms_read};

use request::{Buddies, Entry, Terms};

// `age` may be left out, which means 120, and `rule`, which means that of the equations.
const DEFAULT_AGE: u32 = 120;

const DEFAULT_RULE: u32 = request::EQUATIONS;

// ---- what is left of a text after some of its lines

// The first line that is not in form.
#[derive(Clone, Copy)]
pub struct NotInForm {
    pub line: u32,
}

// The number of the next line, counted from 1, and the bytes from it on.
#[derive(Clone, Copy)]
pub struct Left<'a> {
    pub line: u32,
    pub text: &'a [u8],
}

impl<'a> Left<'a> {
    // What was read of the next line, and what is left after it: the line is in form, or named.
    pub fn line<T: Copy>(self, read: Option<(T, &'a [u8])>) -> Result<(T, Left<'a>), NotInForm>
        requires { self.line + 1 < 2 ^ 32 }
        ensures { result ≡ line_of self.entry read.entry }
    {
        let (said, text) = read.ok_or(NotInForm { line: self.line })?;
        let left = Left {
            line: self.line + 1,
            text,
        };
        Ok((said, left))
    }
}

// ---- the lines before the scans

// What they say.
#[derive(Clone, Copy)]
pub struct Head {
    pub nx: u32,
    pub ny: u32,
    pub time: u32,
    pub age: u32,
    pub smooth: bool,
    pub rule: u32,
    pub scans: u32,
}

// A line that says one number, in low..high, and may be left out: then it says `other`.
fn optional_line<'a>(left: Left<'a>, key: &[u8], low: u32, high: u32, other: u32) -> (u32, Left<'a>)
    requires { (left.line ≤ 5) × (low ≤ other) × (other ≤ high) }
    ensures said { line_or (number key.now (count low high)) other (left_of left.entry) ≡ reads result.0 (left_of result.1) }
    ensures in_range { (low ≤ result.0) × (result.0 ≤ high) }
    ensures next { result.1.line ≤ left.entry.line + 1 }
{
    left.line(text_lines::number_line(left.text, key, low, high))
        .unwrap_or((other, left))
}

// The lines before the scans.
pub fn head_lines(text: &[u8]) -> Result<(Head, Left<'_>), NotInForm>
    ensures { Heads text.now result }
{
    let left = Left { line: 1, text };
    let (size, left) = left.line(text_lines::grid_line(left.text))?;
    let (time, left) = left.line(text_lines::number_line(left.text, b"time=", 0, u32::MAX))?;
    let (age, left) = optional_line(left, b"age=", 0, u32::MAX, DEFAULT_AGE);
    let (smooth, left) = left.line(text_lines::number_line(left.text, b"smooth=", 0, 1))?;
    let (rule, left) = optional_line(
        left,
        b"rule=",
        request::EQUATIONS,
        request::LISTINGS,
        DEFAULT_RULE,
    );
    let (scans, left) = left.line(text_lines::number_line(left.text, b"scans=", 1, 6))?;
    let head = Head {
        nx: size.nx,
        ny: size.ny,
        time,
        age,
        smooth: smooth == 1,
        rule,
        scans,
    };
    Ok((head, left))
}

// ---- the line of the buddy check, which may be left out: then the check is off

pub fn buddy_line(left: Left) -> (Buddies, Left)
    requires { left.line + 1 < 2 ^ 32 }
    ensures said { line_or buddy_line no_buddies (left_of left.entry) ≡ reads (buddies_of result.0) (left_of result.1) }
    ensures next { result.1.line ≤ left.entry.line + 1 }
{
    match left.line(text_lines::entry_line(left.text, b"buddy=")) {
        Ok((entry, after)) => {
            let buddies = Buddies {
                on: true,
                radius: entry.radius,
                limit: entry.limit,
            };
            (buddies, after)
        }
        Err(_) => {
            let off = Buddies {
                on: false,
                radius: 0,
                limit: 0,
            };
            (off, left)
        }
    }
}

// A request whose head, scans and buddy check were read, as terms. A text's weights are round.
pub fn terms_read(h: Head, entries: [Entry; 6], buddies: Buddies) -> Terms
    ensures { result ≡ terms_read h entries buddies }
{
    Terms {
        nx: h.nx as usize,
        ny: h.ny as usize,
        scans: h.scans as usize,
        entries,
        smooth: h.smooth,
        mode: request::ROUND,
        rule: h.rule,
        buddies,
        time: h.time,
        age: h.age,
    }
}
