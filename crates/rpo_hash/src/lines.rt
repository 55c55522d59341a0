ghost use Rattle.std.specs.Prelude.{◌≡◌, ◌==◌, option_map, position};
ghost use Rattle.rpo_hash.specs.ParamText.{one_line};

/// The first line without its line feed, and what is behind it. None where no line feed follows.
pub fn next_line(bytes: &[u8]) -> Option<(&[u8], &[u8])>
    ensures is { option_map (λ l. (l.0.now, l.1.now)) result ≡ one_line bytes.now }
{
    let end = line_end(bytes)?;
    Some((&bytes[..end], &bytes[end + 1..]))
}

fn line_end(bytes: &[u8]) -> Option<usize>
    ensures { result ≡ position (λ b. b == 10) bytes.now }
{
    bytes.iter().position(|byte| *byte == b'\n')
}
