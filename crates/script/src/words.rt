// The words of a line, and the lines of a text.
ghost use Rattle.std.specs.Prelude.{◌≡◌, ◌≤◌, not, length, ◌==◌};
ghost use Rattle.std.specs.List.{prefix_len};
ghost use Rattle.std.specs.Iterator.{YieldsFirstRef, item_count};
ghost use Rattle.script.specs.Words.{blank, in_word, left, words, lines, lines_left};

// Is it a space, a tab or a carriage return?
fn is_blank(b: u8) -> bool
    ensures { result ≡ blank b }
{
    b == b' ' || b == b'\t' || b == b'\r'
}

// Is it a byte of a word?
fn in_word(b: u8) -> bool
    ensures { result ≡ in_word b }
{
    !is_blank(b) && b != b'#'
}

// The words that are left of a line.
#[derive(Drop)]
pub(crate) struct Words<'a> {
    rest: &'a [u8],
}

impl<'a> Words<'a> {
    // All words of a line.
    pub(crate) fn of(line: &'a [u8]) -> Words<'a>
        ensures { left result ≡ words line.now }
    {
        Words { rest: line }
    }
}

// The next word, if there is one more.
impl<'a> Iterator for Words<'a> {
    type Item = &'a [u8];

    ghost next_gives = { YieldsFirstRef left };

    ghost remaining = { item_count left };

    fn next(&mut self) -> Option<&'a [u8]> {
        let blanks = self.rest.iter().take_while(|b| is_blank(**b)).count();
        let (_, line) = self.rest.split_at(blanks);
        let end = line.iter().take_while(|b| in_word(**b)).count();
        let (word, rest) = line.split_at(end);
        if word.is_empty() {
            return None;
        }
        self.rest = rest;
        Some(word)
    }
}

// How many bytes are in front of the first line feed. A loop, since by the library's `split` or by `position` empty lines
// and comments took longer; docs/LOOK-BACK.md has the times.
fn line_end(text: &[u8]) -> usize
    ensures front { result ≡ prefix_len (λ b. not (b == 10)) text.now }
    ensures within { result ≤ length text.now }
{
    for (i, b) in text.iter().enumerate() {
        if *b == b'\n' {
            return i;
        }
    }
    text.len()
}

// The lines of a text that are left, if there are any.
#[derive(Drop)]
pub(crate) struct Lines<'a> {
    rest: Option<&'a [u8]>,
}

impl<'a> Lines<'a> {
    // All lines of a text; there is at least one.
    pub(crate) fn of(text: &'a [u8]) -> Lines<'a>
        ensures { lines_left result ≡ lines text.now }
    {
        Lines { rest: Some(text) }
    }
}

// The next line, if there is one more.
impl<'a> Iterator for Lines<'a> {
    type Item = &'a [u8];

    ghost next_gives = { YieldsFirstRef lines_left };

    ghost remaining = { item_count lines_left };

    fn next(&mut self) -> Option<&'a [u8]> {
        let text = self.rest.take()?;
        let end = line_end(text);
        if end == text.len() {
            return Some(text);
        }
        self.rest = Some(&text[end + 1..]);
        Some(&text[..end])
    }
}
