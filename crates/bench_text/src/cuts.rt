// Cuts a text at the first byte of a kind: a line at its newline, a line's numbers at their space.
ghost use Rattle.std.specs.Prelude.{◌≡◌, ◌==◌, position};
ghost use Rattle.std.specs.List.{before_first, after_first};

// The place of the first `mark` of `text`. By `split`, since `position` takes a fifth more instructions a byte.
fn first_place(text: &[u8], mark: u8) -> Option<usize>
    ensures { result ≡ position (λ b. b == mark) text.now }
{
    let front = text.split(|&b| b == mark).next()?;
    (front.len() < text.len()).then_some(front.len())
}

// What stands before the first `mark` of `text` and what after it; nothing stands after a mark that is not there.
pub(crate) fn cut(text: &[u8], mark: u8) -> (&[u8], &[u8])
    ensures front { result.0.now ≡ before_first (λ b. b == mark) text.now }
    ensures back { result.1.now ≡ after_first (λ b. b == mark) text.now }
{
    match first_place(text, mark) {
        Some(i) => (&text[..i], &text[i + 1..]),
        None => (text, &[]),
    }
}
