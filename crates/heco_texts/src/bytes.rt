ghost use Rattle.std.specs.Prelude.{◌≡◌, ◌≢◌, ◌<◌, ◌≤◌, ◌∷◌, ◌++◌, All, IfSome, IfNone, false, length, slice_index};
ghost use Rattle.heco_texts.specs.Forms.{is_blank, is_digit};
ghost use Rattle.heco_texts.specs.inside.Fronts.{without_cr};
ghost use Rattle.heco_texts.specs.Kinds.{without_blanks, ends_name, name_front, name_back};
ghost use Rattle.heco_texts.specs.Lines.{lines};

fn is_blank(c: u8) -> bool
    ensures { result ≡ is_blank c }
{
    c == b' ' || c == b'\t'
}

pub fn is_digit(c: u8) -> bool
    ensures { result ≡ is_digit c }
{
    c >= b'0' && c <= b'9'
}

fn ends_name(c: u8) -> bool
    ensures { result ≡ ends_name c }
{
    is_blank(c) || c == b'='
}

/// The text from its first byte on that is no blank.
pub fn without_blanks(text: &[u8]) -> &[u8]
    ensures bare { result.now ≡ without_blanks text.now }
    ensures shorter { length result.now ≤ length text.now }
    ensures first { 0 < length result.now → is_blank (slice_index result.now 0) ≡ false }
{
    let mut rest = text;
    while let [c, after @ ..] = rest {
        if !is_blank(*c) {
            return rest;
        }
        rest = after;
    }
    rest
}

/// The bytes before the first blank or `=`, and those from there on.
pub fn cut_name(text: &[u8]) -> (&[u8], &[u8])
    ensures name { result.0.now ≡ name_front text.now }
    ensures back { result.1.now ≡ name_back text.now }
{
    for (i, c) in text.iter().enumerate() {
        if ends_name(*c) {
            return (&text[..i], &text[i..]);
        }
    }
    (text, &[])
}

// The bytes before the first LF, and those behind it.
fn cut_at_lf(text: &[u8]) -> Option<(&[u8], &[u8])>
    ensures found { IfSome result (λ p. (text.now ≡ p.0.now ++ 10 ∷ p.1.now) × All (λ c. c ≢ 10) p.0.now) }
    ensures none { IfNone result (All (λ c. c ≢ 10) text.now) }
{
    for (i, c) in text.iter().enumerate() {
        if *c == b'\n' {
            return Some((&text[..i], &text[i + 1..]));
        }
    }
    None
}

// The line without the CR before its LF.
fn without_cr(line: &[u8]) -> &[u8]
    ensures { result.now ≡ without_cr line.now }
{
    let len = line.len();
    if len > 0 && line[len - 1] == b'\r' {
        &line[..len - 1]
    } else {
        line
    }
}

/// The first line, and the bytes behind its end.
pub fn cut_line(text: &[u8]) -> (&[u8], &[u8])
    requires { 0 < length text.now }
    ensures line { lines text.now ≡ result.0.now ∷ lines result.1.now }
    ensures shorter { length result.1.now < length text.now }
{
    match cut_at_lf(text) {
        Some((line, after)) => (without_cr(line), after),
        None => (text, &[]),
    }
}
