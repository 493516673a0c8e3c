//! How a text that isn't the page's own is shown: no letter of it is markup, and none is invisible or turns the order of others.

ghost use Rattle.std.specs.Prelude.{◌≡◌, ◌<◌};
ghost use Rattle.std.specs.Str.{encode_utf8_all};
ghost use Rattle.texts.specs.Hex.{hex_text};
ghost use Rattle.texts.specs.PageViews.{Adds};
ghost use Rattle.page.specs.Escaping.{code_letters, is_control, is_hidden, is_no_character, seen_letter, escaped, shown_byte, shown_letter, turns_order};

use texts::{Page, four_digits, one_digit, say};

/// Whether a letter is a control. A tab is none here.
fn is_control(code: u32) -> bool
    ensures { result ≡ is_control code }
{
    (code < 32 && code != 9) || (127 <= code && code <= 159)
}

/// Whether a letter turns the order of others.
fn turns_order(code: u32) -> bool
    ensures { result ≡ turns_order code }
{
    code == 0x061C
        || code == 0x200E
        || code == 0x200F
        || (0x202A <= code && code <= 0x202E)
        || (0x2066 <= code && code <= 0x2069)
}

/// Whether a letter is a byte order mark, or no character at all.
fn is_no_character(code: u32) -> bool
    ensures { result ≡ is_no_character code }
{
    code == 0xFEFF || 0xFFFE <= code % 0x1_0000
}

/// Whether a letter is shown by its number, since nobody would see it.
#[tactic(auto, unfolding(crate::specs::Escaping::is_hidden))]
pub fn is_hidden(code: u32) -> bool
    ensures { result ≡ is_hidden code }
{
    is_control(code) || turns_order(code) || is_no_character(code)
}

/// The two digits of a byte, the higher first.
fn two_digits(byte: u8) -> [u8; 2]
    ensures { result ≡ hex_text 2 byte }
{
    [one_digit(byte / 16), one_digit(byte % 16)]
}

/// Adds the number of a letter, in four or six hexadecimal digits.
fn add_code(page: &mut Page, code: u32)
    requires { code < 0x11_0000 }
    ensures { Adds page.old page.new (encode_utf8_all (code_letters code)) }
{
    let low = four_digits((code % 0x1_0000) as u16);
    if code < 0x1_0000 {
        return say!(page; "\\u{", &low[..], "}");
    }
    let high = two_digits((code / 0x1_0000) as u8);
    say!(page; "\\u{", &high[..], &low[..], "}")
}

/// Adds a letter that can be seen, or the number of one that can't.
fn add_seen(page: &mut Page, letter: char)
    ensures { Adds page.old page.new (encode_utf8_all (seen_letter letter)) }
{
    let code = u32::from(letter);
    if is_hidden(code) {
        return add_code(page, code);
    }
    let mut bytes = [0; 4];
    page.bytes(letter.encode_utf8(&mut bytes).as_bytes())
}

/// Adds a letter: a reference for one that may be markup, its number for one that is hidden.
fn add_letter(page: &mut Page, letter: char)
    ensures { Adds page.old page.new (encode_utf8_all (shown_letter letter)) }
{
    if letter == '&' {
        return page.bytes(b"&amp;");
    }
    if letter == '<' {
        return page.bytes(b"&lt;");
    }
    if letter == '>' {
        return page.bytes(b"&gt;");
    }
    if letter == '"' {
        return page.bytes(b"&quot;");
    }
    add_seen(page, letter)
}

/// Adds a byte of a text that isn't UTF-8: as a letter if it is ASCII, else by its number.
fn add_byte(page: &mut Page, byte: u8)
    ensures { Adds page.old page.new (encode_utf8_all (shown_byte byte)) }
{
    if byte < 128 {
        return add_letter(page, char::from(byte));
    }
    say!(page; "\\x{", &two_digits(byte)[..], "}")
}

/// Adds a text so that all of it can be seen and none of it is markup, in an element as well as between double quotes.
pub fn add_shown(page: &mut Page, text: &[u8])
    ensures { Adds page.old page.new (escaped text.now) }
{
    match str::from_utf8(text) {
        Ok(letters) => {
            for letter in letters.chars() {
                add_letter(page, letter);
            }
        }
        Err(_) => {
            for byte in text {
                add_byte(page, *byte);
            }
        }
    }
}
