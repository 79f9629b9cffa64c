//! Short words: one byte, and one to three decimal digits. Most words of a schedule are.
ghost use Rattle.std.specs.Prelude.{◌≡◌, true, IfSome};
ghost use Rattle.uc_text.specs.Lines.{is_blank};
ghost use Rattle.uc_script.specs.Shorts.{IsFirstShort, EndsWord, is_mark};

/// A short word at the front of a text, what follows it and the byte behind it, and whether that byte ends the line.
#[derive(Clone, Copy, Debug)]
pub struct Short<'a> {
    pub mark: u8,
    pub number: u16,
    pub rest: &'a [u8],
    pub is_last: bool,
}

/// The first word of a text, where it is short, begins the text, and a blank or LF stands behind it.
#[inline(always)]
pub fn first_short(text: &[u8]) -> Option<Short<'_>>
    ensures { IfSome result
        (λ word. is_mark word.mark ≡ true → IsFirstShort text.now word.mark word.number word.rest.now word.is_last) }
{
    let [mark, one, after, rest @ ..] = text else {
        return None;
    };
    if *one < b'0' || *one > b'9' {
        return None;
    }
    let (mark, number) = (*mark, u16::from(*one - b'0'));
    if let Some(is_last) = ends_word(*after) {
        return Some(Short {
            mark,
            number,
            rest,
            is_last,
        });
    }
    let (two, [after, rest @ ..]) = (*after, rest) else {
        return None;
    };
    if two < b'0' || two > b'9' {
        return None;
    }
    let number = number * 10 + u16::from(two - b'0');
    if let Some(is_last) = ends_word(*after) {
        return Some(Short {
            mark,
            number,
            rest,
            is_last,
        });
    }
    let (three, [after, rest @ ..]) = (*after, rest) else {
        return None;
    };
    if three < b'0' || three > b'9' {
        return None;
    }
    let number = number * 10 + u16::from(three - b'0');
    let is_last = ends_word(*after)?;
    Some(Short {
        mark,
        number,
        rest,
        is_last,
    })
}

/// The first word of a text, where it has two bytes, begins the text, and a space stands behind it, or an LF where the
/// line is to end. No other shape is looked at, so that this stays small where it is laid into a loop.
#[inline(always)]
pub fn first_of_two_bytes(text: &[u8], is_last: bool) -> Option<Short<'_>>
    ensures { IfSome result
        (λ word. (is_mark word.mark ≡ true → IsFirstShort text.now word.mark word.number word.rest.now word.is_last)
        × (word.is_last ≡ is_last)) }
{
    let [mark, digit, after, rest @ ..] = text else {
        return None;
    };
    if *digit < b'0' || *digit > b'9' {
        return None;
    }
    if *after != end_of(is_last) {
        return None;
    }
    Some(Short {
        mark: *mark,
        number: u16::from(*digit - b'0'),
        rest,
        is_last,
    })
}

/// The byte behind a word with which the line goes on, or ends.
#[inline(always)]
fn end_of(is_last: bool) -> u8
    ensures { EndsWord result is_last }
{
    if is_last { b'\n' } else { b' ' }
}

/// Whether a byte behind a word ends the line too, where it ends the word.
#[inline(always)]
fn ends_word(byte: u8) -> Option<bool>
    ensures { IfSome result (EndsWord byte) }
{
    match byte {
        b' ' | b'\t' => Some(false),
        b'\n' => Some(true),
        _ => None,
    }
}

/// Whether a byte stands between words: a space or a tab.
#[inline(always)]
pub fn is_blank(byte: u8) -> bool
    ensures { result ≡ is_blank byte }
{
    byte == b' ' || byte == b'\t'
}
