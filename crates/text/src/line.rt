// A line: its comment and trailing spaces cut, and its words.
ghost use Rattle.std.specs.Prelude.{◌≡◌};
ghost use Rattle.text.specs.Line.{Found, trimmed, kept_of, words_of, word_of};

// Where b first stands, or the length: each caller cuts there.
pub fn find(s: &[u8], b: u8) -> usize
    ensures { Found s.now b result }
{
    s.iter().position(|c| *c == b).unwrap_or(s.len())
}

fn trim(s: &[u8]) -> &[u8]
    ensures { result.now ≡ trimmed s.now }
{
    let spaces = s.iter().rev().take_while(|c| **c == b' ').count();
    &s[..s.len() - spaces]
}

// The line without its comment, and then without the spaces at its end.
#[tactic(auto, unfolding(crate::specs::Line::kept_of))]
pub fn kept(line: &[u8]) -> &[u8]
    ensures { result.now ≡ kept_of line.now }
{
    let n = find(line, b'#');
    trim(&line[..n])
}

// How many words there are between single spaces: an empty line has one, the empty word.
pub fn words(s: &[u8]) -> usize
    ensures { result ≡ words_of s.now }
{
    s.split(|c| *c == b' ').count()
}

// The word of number k from 0, and past the last the empty word, which no number and no call is.
pub fn word(s: &[u8], k: usize) -> &[u8]
    ensures { result.now ≡ word_of s.now k }
{
    s.split(|c| *c == b' ').nth(k).unwrap_or(&s[..0])
}
