//! What token stands at the beginning of a text.

ghost use Rattle.std.specs.Prelude.{◌≡◌, ◌+◌, ◌<◌, ◌≤◌, ◌^◌, length, IfSome};
ghost use Rattle.std.specs.List.{position, prefix_len};
ghost use Rattle.xmcf_reader.specs.Bytes.{are_dashes, ends_declaration, ends_value, is_blank, is_digit, is_letter, is_of_name, is_past_ascii, is_quote, pairs};
ghost use Rattle.xmcf_reader.specs.lemmas.Cuts.{FrontWithin};
ghost use Rattle.xmcf_reader.specs.lemmas.Seen.{prefix_seen, token_of};
ghost use Rattle.xmcf_reader.specs.Tokens as tokens;

use crate::token::{Front, Stop, Token};

/// Whether the byte is a blank.
#[tactic(auto, unfolding(crate::specs::Bytes::is_blank))]
pub(crate) fn is_blank(byte: u8) -> bool
    ensures { result ≡ is_blank byte }
{
    byte == b' ' || byte == b'\t' || byte == b'\r' || byte == b'\n'
}

/// Whether the byte is a letter.
#[tactic(auto, unfolding(crate::specs::Bytes::is_letter))]
pub(crate) fn is_letter(byte: u8) -> bool
    ensures { result ≡ is_letter byte }
{
    (byte >= b'A' && byte <= b'Z') || (byte >= b'a' && byte <= b'z')
}

/// Whether the byte is a decimal digit.
#[tactic(auto, unfolding(crate::specs::Bytes::is_digit))]
fn is_digit(byte: u8) -> bool
    ensures { result ≡ is_digit byte }
{
    byte >= b'0' && byte <= b'9'
}

/// Whether the byte may stand in a name's token.
#[tactic(auto, unfolding(crate::specs::Bytes::is_of_name))]
fn is_of_name(byte: u8) -> bool
    ensures { result ≡ is_of_name byte }
{
    is_letter(byte) || is_digit(byte) || byte == b':'
}

/// Whether the byte is a quote.
#[tactic(auto, unfolding(crate::specs::Bytes::is_quote))]
pub(crate) fn is_quote(byte: u8) -> bool
    ensures { result ≡ is_quote byte }
{
    byte == b'"' || byte == b'\''
}

/// Whether the byte stands past ASCII.
#[tactic(auto, unfolding(crate::specs::Bytes::is_past_ascii))]
fn is_past_ascii(byte: u8) -> bool
    ensures { result ≡ is_past_ascii byte }
{
    byte >= 0x80
}

/// Whether a value ends or breaks at the byte.
#[tactic(auto, unfolding(crate::specs::Bytes::ends_value))]
fn ends_value(quote: u8, byte: u8) -> bool
    ensures { result ≡ ends_value quote byte }
{
    byte == quote || byte == b'<' || byte == b'&' || is_past_ascii(byte)
}

/// Whether a declaration ends or breaks at the byte.
#[tactic(auto, unfolding(crate::specs::Bytes::ends_declaration))]
fn ends_declaration(byte: u8) -> bool
    ensures { result ≡ ends_declaration byte }
{
    byte == b'?' || byte == b'&' || is_past_ascii(byte)
}

/// How many blanks stand at the beginning.
fn blanks(bytes: &[u8]) -> usize
    ensures count { result ≡ prefix_len is_blank bytes.now }
    ensures within { result ≤ length bytes.now }
{
    bytes.iter().take_while(|byte| is_blank(**byte)).count()
}

/// How many bytes of a name stand at the beginning.
fn name_size(bytes: &[u8]) -> usize
    ensures count { result ≡ prefix_len is_of_name bytes.now }
    ensures within { result ≤ length bytes.now }
{
    bytes.iter().take_while(|byte| is_of_name(**byte)).count()
}

/// Where a value ends or breaks.
fn value_end(quote: u8, bytes: &[u8]) -> Option<usize>
    ensures first { result ≡ position (ends_value quote) bytes.now }
    ensures within { IfSome result (λ at. at < length bytes.now) }
{
    bytes.iter().position(|byte| ends_value(quote, *byte))
}

/// Where a declaration ends or breaks.
fn declaration_end(bytes: &[u8]) -> Option<usize>
    ensures first { result ≡ position ends_declaration bytes.now }
    ensures within { IfSome result (λ at. at < length bytes.now) }
{
    bytes.iter().position(|byte| ends_declaration(*byte))
}

/// Where the first two dashes stand.
fn dashes(bytes: &[u8]) -> Option<usize>
    ensures first { result ≡ position are_dashes (pairs bytes.now) }
    ensures within { IfSome result (λ at. at + 1 < length bytes.now) }
{
    bytes
        .iter()
        .zip(bytes.iter().skip(1))
        .position(|(one, two)| *one == b'-' && *two == b'-')
}

/// The byte has to stand next: it ends the token, of which this many bytes stand before it.
#[tactic(auto, unfolding(crate::specs::Tokens::byte_token))]
fn closed<'a>(last: u8, token: Token<'a>, before: usize, bytes: &[u8]) -> Front<'a>
    requires { before < 2 ^ 34 }
    ensures token { prefix_seen result ≡ tokens.byte_token last (token_of token.entry) before bytes.now }
    ensures within { FrontWithin (prefix_seen result) (before + length bytes.now) }
{
    match bytes {
        [] => Front::Broken(Stop::Ended),
        [byte, ..] if *byte == last => Front::Found(token, before + 1),
        _ => Front::Broken(Stop::Break { at: before }),
    }
}

/// A comment, of which `<!--` stands before these bytes.
#[tactic(auto, unfolding(crate::specs::Tokens::comment))]
fn comment(bytes: &[u8]) -> Front<'_>
    requires { length bytes.now < 2 ^ 32 }
    ensures token { prefix_seen result ≡ tokens.comment bytes.now }
    ensures within { FrontWithin (prefix_seen result) (4 + length bytes.now) }
{
    match dashes(bytes) {
        None => Front::Broken(Stop::Ended),
        Some(at) => closed(b'>', Token::Comment, at + 6, &bytes[at + 2..]),
    }
}

/// What `<!` opens: a comment alone.
#[tactic(auto, unfolding(crate::specs::Tokens::remark))]
fn remark(bytes: &[u8]) -> Front<'_>
    requires { length bytes.now < 2 ^ 32 }
    ensures token { prefix_seen result ≡ tokens.remark bytes.now }
    ensures within { FrontWithin (prefix_seen result) (2 + length bytes.now) }
{
    match bytes {
        [] | [b'-'] => Front::Broken(Stop::Ended),
        [b'-', b'-', rest @ ..] => comment(rest),
        _ => Front::Broken(Stop::Break { at: 0 }),
    }
}

/// A declaration at the first byte that ends or breaks it.
#[tactic(auto, unfolding(crate::specs::Tokens::declaration_byte))]
fn declaration_byte(at: usize, byte: u8, bytes: &[u8]) -> Front<'_>
    requires { at < 2 ^ 32 }
    ensures token { prefix_seen result ≡ tokens.declaration_byte at byte bytes.now }
    ensures within { FrontWithin (prefix_seen result) (at + 7 + length bytes.now) }
{
    match byte {
        b'?' => closed(b'>', Token::Declaration, at + 7, bytes),
        b'&' => Front::Broken(Stop::Reference { at: at + 6 }),
        _ => Front::Broken(Stop::Break { at: at + 6 }),
    }
}

/// A declaration, of which `<?xml` and a blank stand before these bytes.
#[tactic(auto, unfolding(crate::specs::Tokens::declaration))]
fn declaration(bytes: &[u8]) -> Front<'_>
    requires { length bytes.now < 2 ^ 32 }
    ensures token { prefix_seen result ≡ tokens.declaration bytes.now }
    ensures within { FrontWithin (prefix_seen result) (6 + length bytes.now) }
{
    match declaration_end(bytes) {
        None => Front::Broken(Stop::Ended),
        Some(at) => declaration_byte(at, bytes[at], &bytes[at + 1..]),
    }
}

/// What `<?` opens at the text's first place: a declaration alone.
#[tactic(auto, unfolding(crate::specs::Tokens::declared))]
fn declared(bytes: &[u8]) -> Front<'_>
    requires { length bytes.now < 2 ^ 32 }
    ensures token { prefix_seen result ≡ tokens.declared bytes.now }
    ensures within { FrontWithin (prefix_seen result) (2 + length bytes.now) }
{
    if b"xml".starts_with(bytes) {
        return Front::Broken(Stop::Ended);
    }
    if bytes.starts_with(b"xml") && is_blank(bytes[3]) {
        return declaration(&bytes[4..]);
    }
    Front::Broken(Stop::Break { at: 0 })
}

/// A tag's opening or the name of an attribute, whose name has this many bytes.
#[tactic(auto, unfolding(crate::specs::Tokens::named_token))]
fn opening(size: usize, bytes: &[u8]) -> Front<'_>
    requires short { length bytes.now < 2 ^ 32 }
    requires within { size ≤ length bytes.now }
    ensures token { prefix_seen result ≡ tokens.named_token tokens.Opening 1 size bytes.now }
    ensures within { FrontWithin (prefix_seen result) (1 + length bytes.now) }
{
    if size < bytes.len() {
        Front::Found(Token::Opening(&bytes[..size]), 1 + size)
    } else {
        Front::Broken(Stop::Ended)
    }
}

/// The name of an attribute, which has this many bytes.
#[tactic(auto, unfolding(crate::specs::Tokens::named_token))]
fn attribute_name(size: usize, bytes: &[u8]) -> Front<'_>
    requires short { length bytes.now < 2 ^ 32 }
    requires some { 1 ≤ size }
    requires within { size ≤ length bytes.now }
    ensures token { prefix_seen result ≡ tokens.named_token tokens.Name 0 size bytes.now }
    ensures within { FrontWithin (prefix_seen result) (length bytes.now) }
{
    if size < bytes.len() {
        Front::Found(Token::Name(&bytes[..size]), size)
    } else {
        Front::Broken(Stop::Ended)
    }
}

/// An end tag, of which `</` and its name stand before these bytes.
#[tactic(auto, unfolding(crate::specs::Tokens::end_of_tag))]
fn end_of_tag<'a>(name: &'a [u8], size: usize, bytes: &[u8]) -> Front<'a>
    requires short { length bytes.now < 2 ^ 32 }
    requires small { size < 2 ^ 32 }
    ensures token { prefix_seen result ≡ tokens.end_of_tag name.now size bytes.now }
    ensures within { FrontWithin (prefix_seen result) (2 + size + length bytes.now) }
{
    let blanks = blanks(bytes);
    closed(
        b'>',
        Token::EndTag(name),
        2 + size + blanks,
        &bytes[blanks..],
    )
}

/// An end tag whose name has this many bytes, of which `</` stands before these bytes.
#[tactic(auto, unfolding(crate::specs::Tokens::end_named))]
fn end_named(size: usize, bytes: &[u8]) -> Front<'_>
    requires short { length bytes.now < 2 ^ 32 }
    requires within { size ≤ length bytes.now }
    ensures token { prefix_seen result ≡ tokens.end_named size bytes.now }
    ensures within { FrontWithin (prefix_seen result) (2 + length bytes.now) }
{
    let (name, rest) = bytes.split_at(size);
    end_of_tag(name, size, rest)
}

/// An end tag, of which `</` stands before these bytes.
#[tactic(auto, unfolding(crate::specs::Tokens::end_tag))]
fn end_tag(bytes: &[u8]) -> Front<'_>
    requires { length bytes.now < 2 ^ 32 }
    ensures token { prefix_seen result ≡ tokens.end_tag bytes.now }
    ensures within { FrontWithin (prefix_seen result) (2 + length bytes.now) }
{
    match bytes {
        [] => Front::Broken(Stop::Ended),
        [byte, ..] if is_letter(*byte) => end_named(name_size(bytes), bytes),
        _ => Front::Broken(Stop::Break { at: 2 }),
    }
}

/// What `<` opens.
#[tactic(auto, unfolding(crate::specs::Tokens::markup))]
fn markup(first: bool, bytes: &[u8]) -> Front<'_>
    requires { length bytes.now < 2 ^ 32 }
    ensures token { prefix_seen result ≡ tokens.markup first bytes.now }
    ensures within { FrontWithin (prefix_seen result) (1 + length bytes.now) }
{
    match bytes {
        [] => Front::Broken(Stop::Ended),
        [b'!', rest @ ..] => remark(rest),
        [b'?', rest @ ..] if first => declared(rest),
        [b'?', ..] => Front::Broken(Stop::Break { at: 0 }),
        [b'/', rest @ ..] => end_tag(rest),
        [byte, ..] if is_letter(*byte) => opening(name_size(bytes), bytes),
        _ => Front::Broken(Stop::Break { at: 1 }),
    }
}

/// A value at the first byte that ends or breaks it.
#[tactic(auto, unfolding(crate::specs::Tokens::value_byte))]
fn value_byte(quote: u8, at: usize, byte: u8, text: &[u8]) -> Front<'_>
    requires { at < 2 ^ 32 }
    ensures token { prefix_seen result ≡ tokens.value_byte quote at byte text.now }
    ensures within { FrontWithin (prefix_seen result) (at + 2) }
{
    if byte == quote {
        Front::Found(Token::Value(text), at + 2)
    } else if byte == b'&' {
        Front::Broken(Stop::Reference { at: at + 1 })
    } else {
        Front::Broken(Stop::Break { at: at + 1 })
    }
}

/// A value, of which the quote stands before these bytes.
#[tactic(auto, unfolding(crate::specs::Tokens::value))]
fn value(quote: u8, bytes: &[u8]) -> Front<'_>
    requires { length bytes.now < 2 ^ 32 }
    ensures token { prefix_seen result ≡ tokens.value quote bytes.now }
    ensures within { FrontWithin (prefix_seen result) (1 + length bytes.now) }
{
    match value_end(quote, bytes) {
        None => Front::Broken(Stop::Ended),
        Some(at) => value_byte(quote, at, bytes[at], &bytes[..at]),
    }
}

/// What stands at the beginning of a text, at its first place or at a later one.
#[tactic(auto, unfolding(crate::specs::Tokens::front))]
pub(crate) fn front(first: bool, bytes: &[u8]) -> Front<'_>
    requires { length bytes.now < 2 ^ 32 }
    ensures token { prefix_seen result ≡ tokens.front first bytes.now }
    ensures within { FrontWithin (prefix_seen result) (length bytes.now) }
{
    match bytes {
        [] => Front::Broken(Stop::Ended),
        [b'<', rest @ ..] => markup(first, rest),
        [byte, ..] if is_blank(*byte) => Front::Found(Token::Blanks, blanks(bytes)),
        [b'>', ..] => Front::Found(Token::TagEnd, 1),
        [b'/', rest @ ..] => closed(b'>', Token::EmptyEnd, 1, rest),
        [b'=', ..] => Front::Found(Token::Equals, 1),
        [byte, rest @ ..] if is_quote(*byte) => value(*byte, rest),
        [byte, ..] if is_letter(*byte) => attribute_name(name_size(bytes), bytes),
        _ => Front::Broken(Stop::Break { at: 0 }),
    }
}
