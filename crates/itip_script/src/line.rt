//! Physical lines, and the stretches of lines between commands.
ghost use Rattle.std.specs.Prelude.{◌≡◌, ◌≤◌, [], length, MatchOption};
ghost use Rattle.std.specs.List.{concat, list_all};
ghost use Rattle.itip_script.specs.Lines.{IsFirstLine, line_length, lines_of, content_of, is_command, is_empty};
ghost use Rattle.itip_script.specs.Lines.{before_command, from_command};

const LF: u8 = b'\n';

/// The first line, with its break, and what follows it. `None` if there are no bytes.
pub(crate) fn first_line(bytes: &[u8]) -> Option<(&[u8], &[u8])>
    ensures { MatchOption result (bytes.now ≡ []) (λ cut. IsFirstLine bytes.now cut.0.now cut.1.now) }
{
    if bytes.is_empty() {
        return None;
    }
    let end = line_length(bytes);
    Some((&bytes[..end], &bytes[end..]))
}

fn line_length(bytes: &[u8]) -> usize
    ensures exact { result ≡ line_length bytes.now }
    ensures within { result ≤ length bytes.now }
{
    match bytes.iter().position(|b| *b == LF) {
        Some(at) => at + 1,
        None => bytes.len(),
    }
}

/// What a line says, without its break.
pub(crate) fn content(line: &[u8]) -> &[u8]
    ensures { result.now ≡ content_of line.now }
{
    match line {
        [front @ .., b'\r', LF] => front,
        [front @ .., LF] => front,
        _ => line,
    }
}

fn is_empty(line: &[u8]) -> bool
    ensures { result ≡ is_empty line.now }
{
    content(line).is_empty()
}

fn is_command(line: &[u8]) -> bool
    ensures { result ≡ is_command line.now }
{
    matches!(line, [b'!', ..])
}

/// The lines before the first command, and what follows them.
#[derive(Clone, Copy)]
pub(crate) struct Stretch<'a> {
    pub(crate) text: &'a [u8],
    /// Whether each line is empty.
    pub(crate) is_blank: bool,
    pub(crate) after: &'a [u8],
}

/// Cuts off the lines before the first command.
pub(crate) fn leading_stretch(bytes: &[u8]) -> Stretch<'_>
    ensures text { result.text.now ≡ concat (before_command (lines_of bytes.now)) }
    ensures blank { result.is_blank ≡ list_all is_empty (before_command (lines_of bytes.now)) }
    ensures after { lines_of result.after.now ≡ from_command (lines_of bytes.now) }
{
    let mut rest = bytes;
    let mut is_blank = true;
    while let Some((line, after)) = first_line(rest) {
        if is_command(line) {
            break;
        }
        is_blank = is_blank && is_empty(line);
        rest = after;
    }
    let text = &bytes[..bytes.len() - rest.len()];
    Stretch {
        text,
        is_blank,
        after: rest,
    }
}
