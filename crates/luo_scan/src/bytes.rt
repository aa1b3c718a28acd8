// Bytes by their class, and how far a class goes.
ghost use Rattle.std.specs.Prelude.{IsTrue, ◌↔◌};
ghost use Rattle.luo_scan.specs.Bytes.{IsSeparator, IsDigit, IsLetter};
ghost use Rattle.luo_scan.specs.Prefixes.{IsOf, IsRun};

/// Which bytes go on with a piece.
#[derive(Clone, Copy)]
pub(crate) enum Class {
    Name,
    Digit,
    Comment,
}

/// A space, a tab, a carriage return or a line feed.
pub(crate) fn is_separator(byte: u8) -> bool
    ensures { IsTrue result ↔ IsSeparator byte }
{
    byte == b' ' || byte == b'\t' || byte == b'\r' || byte == b'\n'
}

pub(crate) fn is_digit(byte: u8) -> bool
    ensures { IsTrue result ↔ IsDigit byte }
{
    b'0' <= byte && byte <= b'9'
}

pub(crate) fn is_letter(byte: u8) -> bool
    ensures { IsTrue result ↔ IsLetter byte }
{
    (b'A' <= byte && byte <= b'Z') || (b'a' <= byte && byte <= b'z')
}

fn has(class: Class, byte: u8) -> bool
    ensures { IsTrue result ↔ IsOf class byte }
{
    match class {
        Class::Name => is_letter(byte) || is_digit(byte) || byte == b'_',
        Class::Digit => is_digit(byte),
        Class::Comment => byte != b'\n',
    }
}

/// How many bytes of the class the text begins with.
pub(crate) fn run(text: &[u8], class: Class) -> usize
    ensures { IsRun (IsOf class) text.now result }
{
    for (count, byte) in text.iter().enumerate() {
        if !has(class, *byte) {
            return count;
        }
    }
    text.len()
}
