// The input of the finder: a pattern, and behind the first LF a book text.
ghost use Rattle.std.specs.Prelude.{◌≡◌};
ghost use Rattle.finding.specs.Input.{pattern_in, text_in};

// The most bytes of an input.
pub const MOST_BYTES: usize = 65_536;

// The pattern up to the first LF, and the text behind it; without a LF all is the pattern, and the text is empty.
pub fn split(input: &[u8]) -> (&[u8], &[u8])
    ensures pattern { result.0.now ≡ pattern_in input.now }
    ensures text { result.1.now ≡ text_in input.now }
{
    match input.iter().position(|b| *b == b'\n') {
        Some(end) => (&input[..end], &input[end + 1..]),
        None => (input, &[]),
    }
}
