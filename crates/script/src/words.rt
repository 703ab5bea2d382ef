// The words of a line: blanks stand between them, and a comment ends it. Nothing here asks
// anything of its caller: a word that is not there is empty.
ghost use Rattle.std.specs.Prelude.{◌≡◌, position};
ghost use Rattle.script.specs.Words.{is_blank, is_solid, is_hash, from_word, first_word, behind_word, wordless, starts, after_words, behind, word, ends, named, part};

#[tactic(auto, unfolding(crate::specs::Words::part))]
pub fn part(s: &[u8], from: usize, to: usize) -> &[u8]
    ensures { result.now ≡ part s.now from to }
{
    s.get(from..to).unwrap_or(&s[..0])
}

#[tactic(auto, unfolding(crate::specs::Words::is_blank))]
fn is_blank(b: u8) -> bool
    ensures { result ≡ is_blank b }
{
    matches!(b, b' ' | b'\t' | b'\r')
}

#[tactic(auto, unfolding(crate::specs::Words::is_solid))]
fn first_solid(s: &[u8]) -> Option<usize>
    ensures { result ≡ position is_solid s.now }
{
    s.iter().position(|b| !is_blank(*b))
}

fn first_blank(s: &[u8]) -> Option<usize>
    ensures { result ≡ position is_blank s.now }
{
    s.iter().position(|b| is_blank(*b))
}

#[tactic(auto, unfolding(crate::specs::Words::is_hash))]
fn first_hash(s: &[u8]) -> Option<usize>
    ensures { result ≡ position is_hash s.now }
{
    s.iter().position(|b| *b == b'#')
}

#[tactic(auto, unfolding(crate::specs::Words::from_word))]
fn from_word(text: &[u8]) -> &[u8]
    ensures { result.now ≡ from_word text.now }
{
    let at = first_solid(text).unwrap_or(text.len());
    &text[at..]
}

// A text's first word, empty where there is none.
#[tactic(auto, unfolding(crate::specs::Words::first_word, crate::specs::Words::to_blank))]
pub fn first_word(text: &[u8]) -> &[u8]
    ensures { result.now ≡ first_word text.now }
{
    let word = from_word(text);
    let end = first_blank(word).unwrap_or(word.len());
    &word[..end]
}

// What stands behind a text's first word.
#[tactic(auto, unfolding(crate::specs::Words::behind_word, crate::specs::Words::from_blank))]
pub fn behind_word(text: &[u8]) -> &[u8]
    ensures { result.now ≡ behind_word text.now }
{
    let word = from_word(text);
    let at = first_blank(word).unwrap_or(word.len());
    &word[at..]
}

// The text has no word.
pub fn wordless(text: &[u8]) -> bool
    ensures { result ≡ wordless text.now }
{
    first_word(text).is_empty()
}

// The text's first word is this one.
pub fn starts(text: &[u8], name: &[u8]) -> bool
    ensures { result ≡ starts text.now name.now }
{
    first_word(text) == name
}

// What stands behind the first k words of a text.
fn after_words(text: &[u8], k: u64) -> &[u8]
    ensures { result.now ≡ after_words k text.now }
{
    let mut rest = text;
    for _ in 0..k {
        rest = behind_word(rest);
    }
    rest
}

// What stands behind the first k words of the line, up to its comment.
pub fn behind(line: &[u8], k: u64) -> &[u8]
    ensures { result.now ≡ behind k line.now }
{
    let end = first_hash(line).unwrap_or(line.len());
    after_words(&line[..end], k)
}

// Word k of the line, from 0.
pub fn word(line: &[u8], k: u64) -> &[u8]
    ensures { result.now ≡ word k line.now }
{
    first_word(behind(line, k))
}

// The line has k words at most.
pub fn ends(line: &[u8], k: u64) -> bool
    ensures { result ≡ ends k line.now }
{
    wordless(behind(line, k))
}

// The line's first word is this one.
pub fn named(line: &[u8], name: &[u8]) -> bool
    ensures { result ≡ named line.now name.now }
{
    starts(behind(line, 0), name)
}
