// The words of a line.
ghost use Rattle.std.specs.Prelude.{◌≡◌, ◌≤◌, length, MatchOption, None, Some};
ghost use Rattle.std.specs.List.{prefix_len};
ghost use Rattle.cmd_lang.specs.Words.{is_blank, is_within, without_blanks, first_word, behind_word, is_empty, lone_word};

fn is_blank(b: u8) -> bool
    ensures { result ≡ is_blank b }
{
    b == b' ' || b == b'\t'
}

fn blank_len(line: &[u8]) -> usize
    ensures value { result ≡ prefix_len is_blank line.now }
    ensures within { result ≤ length line.now }
{
    line.iter().take_while(|b| is_blank(**b)).count()
}

fn word_len(line: &[u8]) -> usize
    ensures value { result ≡ prefix_len is_within line.now }
    ensures within { result ≤ length line.now }
{
    line.iter().take_while(|b| !is_blank(**b)).count()
}

/// A line from its first byte on that is no blank.
pub fn without_blanks(line: &[u8]) -> &[u8]
    ensures { result.now ≡ without_blanks line.now }
{
    &line[blank_len(line)..]
}

/// The first word of a line that begins with no blank, and what stands behind it and its blanks.
pub fn split_word(line: &[u8]) -> (&[u8], &[u8])
    ensures word { result.0.now ≡ first_word line.now }
    ensures rest { result.1.now ≡ behind_word line.now }
{
    let (word, rest) = line.split_at(word_len(line));
    (word, without_blanks(rest))
}

/// The one word of a text that begins with no blank, if there is one and nothing else.
pub fn lone_word(text: &[u8]) -> Option<&[u8]>
    ensures { MatchOption result (lone_word text.now ≡ None) (λ word. lone_word text.now ≡ Some word.now) }
{
    let (word, rest) = split_word(text);
    if word.is_empty() || !rest.is_empty() {
        return None;
    }
    Some(word)
}

/// Whether a line has blanks alone.
pub fn is_empty(line: &[u8]) -> bool
    ensures { result ≡ is_empty line.now }
{
    without_blanks(line).is_empty()
}
