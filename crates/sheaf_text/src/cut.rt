ghost use Rattle.std.specs.Prelude.{◌≡◌, ◌<◌, ◌∷◌, ◌==◌, [], position, length, MatchOption, if◌then◌else◌};
ghost use Rattle.std.specs.Str.Lines.{lines, strip_carriage_return};
ghost use Rattle.sheaf_text.specs.Cut.{words};
ghost use Rattle.sheaf_text.specs.Forms.{is_blank, has_bytes, IsFirstWord};

fn newline(bytes: &[u8]) -> Option<usize>
    ensures { result ≡ position (λ b. b == 10) bytes.now }
{
    bytes.iter().position(|b| *b == b'\n')
}

fn without_return(line: &[u8]) -> &[u8]
    ensures { result.now ≡ strip_carriage_return line.now }
{
    match line {
        [front @ .., b'\r'] => front,
        _ => line,
    }
}

/// The first line of some bytes, and the bytes after it.
pub(crate) fn next_line(bytes: &[u8]) -> (&[u8], &[u8])
    requires { 0 < length bytes.now }
    ensures line { lines bytes.now ≡ result.0.now ∷ lines result.1.now }
    ensures rest { length result.1.now < length bytes.now }
{
    match newline(bytes) {
        Some(end) => (without_return(&bytes[..end]), &bytes[end + 1..]),
        None => (bytes, &[]),
    }
}

fn blank(text: &[u8]) -> Option<usize>
    ensures { result ≡ position is_blank text.now }
{
    text.iter().position(|b| *b == b' ' || *b == b'\t')
}

/// What stands before the first space or tab of a text, and what stands after it.
fn next_part(text: &[u8]) -> (&[u8], &[u8])
    requires { 0 < length text.now }
    ensures words { words text.now ≡
        (if has_bytes result.0.now then result.0.now ∷ words result.1.now else words result.1.now) }
    ensures rest { length result.1.now < length text.now }
{
    match blank(text) {
        Some(end) => (&text[..end], &text[end + 1..]),
        None => (text, &[]),
    }
}

/// The first word of a text, and the text after it.
pub(crate) fn next_word(text: &[u8]) -> Option<(&[u8], &[u8])>
    ensures { MatchOption result (words text.now ≡ []) (λ r. IsFirstWord text.now r.0.now r.1.now) }
{
    let mut rest = text;
    while !rest.is_empty() {
        let (part, after) = next_part(rest);
        if !part.is_empty() {
            return Some((part, after));
        }
        rest = after;
    }
    None
}
