//! Cutting an input into lines.
ghost use Rattle.std.specs.Prelude.{◌≡◌, ◌∷◌, [], ◌==◌, position, MatchOption};
ghost use Rattle.std.specs.Str.Lines.{lines, strip_carriage_return};

use memchr::memchr;

/// The place of the first line feed.
fn line_end(input: &[u8]) -> Option<usize>
    ensures { result ≡ position (λ byte. byte == 10) input.now }
{
    memchr(b'\n', input)
}

/// The line without a carriage return at its end.
fn without_return(line: &[u8]) -> &[u8]
    ensures { result.now ≡ strip_carriage_return line.now }
{
    match line {
        [front @ .., b'\r'] => front,
        _ => line,
    }
}

/// The first line of an input, without its line end, and what follows it. A line ends at a line feed, before which one
/// carriage return is dropped; the last line needs none.
pub fn first_line(input: &[u8]) -> Option<(&[u8], &[u8])>
    ensures { MatchOption result (lines input.now ≡ [])
        (λ parts. lines input.now ≡ parts.0.now ∷ lines parts.1.now) }
{
    if input.is_empty() {
        return None;
    }
    let Some(end) = line_end(input) else {
        return Some(input.split_at(input.len()));
    };
    let (line, rest) = input.split_at(end);
    let (_line_feed, rest) = rest.split_at(1);
    Some((without_return(line), rest))
}
