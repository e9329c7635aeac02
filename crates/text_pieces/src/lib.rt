// Pieces of a line of the request text (document 01): a word and the numbers of each type. A piece is read at the front of a text: what it says
// comes with the bytes left after it, and what is not in form says nothing.
#![tactic(auto)]

ghost use Rattle.std.specs.Prelude.{◌≡◌, [], ◌∷◌, ◌≤◌, IfSome};
ghost use Rattle.scheme.specs.Text.Reader.{reads, onward};
ghost use Rattle.scheme.specs.Text.Pieces.{word, digits, positive, natural, between, count, negative, signed};
ghost use Rattle.text_pieces.specs.Told.{rest_told, told, follows, saturated};

// Exactly these bytes.
pub fn word<'a>(text: &'a [u8], key: &[u8]) -> Option<&'a [u8]>
    ensures { word key.now text.now ≡ rest_told result }
{
    text.strip_prefix(key)
}

// ---- numbers: decimal, no plus, no leading zero, no -0

// The digits that follow, after digits that say first. Numbers that a u64 cannot hold are not told apart: they lie in no range.
fn digits(text: &[u8], first: u64) -> (u64, &[u8])
    ensures { saturated (digits first text.now) ≡ reads result.0 result.1.now }
{
    let mut value = first;
    let mut left = text;
    while let Some((digit, rest)) = left.split_first() {
        if !digit.is_ascii_digit() {
            break;
        }
        value = value
            .saturating_mul(10)
            .saturating_add(u64::from(*digit - b'0'));
        left = rest;
    }
    (value, left)
}

// A digit from 1 to 9, and all the digits that follow.
fn positive(text: &[u8]) -> Option<(u64, &[u8])>
    ensures { saturated (positive text.now) ≡ told result }
{
    let (first, rest) = text.split_first()?;
    if !first.is_ascii_digit() || *first == b'0' {
        return None;
    }
    Some(digits(rest, u64::from(*first - b'0')))
}

// 0, or such a number.
fn natural(text: &[u8]) -> Option<(u64, &[u8])>
    ensures { saturated (natural text.now) ≡ told result }
{
    match word(text, b"0") {
        Some(rest) => Some((0, rest)),
        None => positive(text),
    }
}

// What was read, if it lies in low..high.
fn in_range<'a>(read: Option<(u64, &'a [u8])>, low: u32, high: u32) -> Option<(u32, &'a [u8])>
    ensures said { onward (told read.entry) (between low high) ≡ told result }
    ensures in_range { IfSome result (λ number. (low ≤ number.0) × (number.0 ≤ high)) }
{
    let (value, rest) = read?;
    if value < u64::from(low) || value > u64::from(high) {
        return None;
    }
    Some((value as u32, rest))
}

// A count, a switch or a u32, in low..high.
pub fn count(text: &[u8], low: u32, high: u32) -> Option<(u32, &[u8])>
    ensures said { count low high text.now ≡ told result }
    ensures in_range { IfSome result (λ number. (low ≤ number.0) × (number.0 ≤ high)) }
{
    in_range(natural(text), low, high)
}

// What follows a minus.
fn negative(text: &[u8]) -> Option<(i32, &[u8])>
    ensures { negative text.now ≡ told result }
{
    let (size, rest) = in_range(positive(text), 0, 2147483648)?;
    Some((-(size as i64) as i32, rest))
}

// An i32.
pub fn signed(text: &[u8]) -> Option<(i32, &[u8])>
    ensures { signed text.now ≡ told result }
{
    if let Some(rest) = word(text, b"-") {
        return negative(rest);
    }
    let (value, rest) = count(text, 0, 2147483647)?;
    Some((value as i32, rest))
}

// A piece that was read, and the byte that must follow it.
pub fn before<T: Copy>(read: Option<(T, &[u8])>, mark: u8) -> Option<(T, &[u8])>
    ensures said { follows (told read.entry) (word (mark ∷ [])) ≡ told result }
    ensures same { IfSome result (λ after. IfSome read.entry (λ first. after.0 ≡ first.0)) }
{
    let (value, rest) = read?;
    Some((value, word(rest, &[mark])?))
}
