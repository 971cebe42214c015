// Bytes, words and decimal numbers of a line.
ghost use Rattle.std.specs.Prelude.{◌≡◌, [], ◌∷◌};
ghost use Rattle.std.specs.Str.{bytes_eq};
ghost use Rattle.words.specs.Bytes.{in_class, front, past, continued, number as stands, small, trimmed as inked};

// Bytes that belong together.
#[derive(Clone, Copy, PartialEq, Eq, Debug)]
pub enum Class {
    // all but the end of a line
    Line,
    // all but the start of a comment
    Code,
    // what parts words: a space, a tab, a carriage return
    Blank,
    // all but blanks
    Word,
}

fn is_blank(byte: u8) -> bool
    ensures { result ≡ in_class Class.Blank byte }
{
    matches!(byte, b' ' | b'\t' | b'\r')
}

impl Class {
    fn holds(self, byte: u8) -> bool
        ensures { result ≡ in_class self byte }
    {
        match self {
            Class::Line => byte != b'\n',
            Class::Code => byte != b'#',
            Class::Blank => is_blank(byte),
            Class::Word => !is_blank(byte),
        }
    }
}

// The bytes at the front that are of the class, and the bytes after them.
pub fn split(class: Class, text: &[u8]) -> (&[u8], &[u8])
    ensures front { result.0.now ≡ front class text.now }
    ensures past { result.1.now ≡ past class text.now }
{
    let count = text.iter().take_while(|byte| class.holds(**byte)).count();
    text.split_at(count)
}

pub fn is(word: &[u8], name: &str) -> bool
    ensures { result ≡ bytes_eq word.now name.now }
{
    word == name.as_bytes()
}

// One digit more after the digits of a number, where the result fits.
fn appended(value: u32, byte: u8) -> Option<u32>
    ensures { result ≡ continued value (byte ∷ []) }
{
    if !byte.is_ascii_digit() {
        return None;
    }
    value.checked_mul(10)?.checked_add((byte - b'0').into())
}

// The number that a word stands for.
pub fn number(word: &[u8]) -> Option<u32>
    ensures { result ≡ stands word.now }
{
    if word.is_empty() {
        return None;
    }
    let mut value: u32 = 0;
    for byte in word {
        value = appended(value, *byte)?;
    }
    Some(value)
}

// The number below 256 that a word stands for.
pub fn byte(word: &[u8]) -> Option<u8>
    ensures { result ≡ small (stands word.now) }
{
    u8::try_from(number(word)?).ok()
}

// A text without the blanks after it.
pub fn trimmed(text: &[u8]) -> &[u8]
    ensures { result.now ≡ inked text.now }
{
    let blanks = text
        .iter()
        .rev()
        .take_while(|byte| is_blank(**byte))
        .count();
    &text[..text.len() - blanks]
}
