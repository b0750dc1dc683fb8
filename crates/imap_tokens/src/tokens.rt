//! The tokens of a command's arguments.
//!
//! A quoted string may hold bytes above 126 and control bytes other than NUL, CR and LF; an atom may not. An astring that is an
//! atom may hold `]`.
ghost use Rattle.std.specs.Prelude.{◌≡◌, ◌==◌, ◌||◌, ◌∷◌, [], ◌++◌, drop, IfOk, OnOk, option_map, if◌then◌else◌};
ghost use Rattle.imap_tokens.specs.Tokens.{is_word_byte, is_quoted_byte, started, with_byte, tokens_in, mark_byte, is_space, is_open, is_close, word_of, string_of, pattern_of, quoted_of, literal_of, with_first, tokens_of};
ghost use Rattle.imap_tokens.specs.Tokens as spec;

use crate::parts::{after, line_before};
use crate::words::{is_whole_atom, only_pattern_chars};
use std::alloc::Global;
use undo_base::{Copies, NoMemory, Sequence, Text};

/// A token. A word has printable bytes other than parentheses and quotation marks.
#[derive(Drop)]
pub enum Token {
    Space,
    Open,
    Close,
    Word(Text),
    Quoted(Text),
    Literal(Text),
}

/// The tokens of a command, in their order.
pub type Tokens = Sequence<Token>;

/// What of a token has come.
#[derive(Drop)]
pub enum Part {
    Between,
    Word(Text),
    Quoted(Text),
    /// A quoted string, and a `\` in it.
    Escape(Text),
}

/// Whether a byte is a parenthesis or a quotation mark.
fn is_delimiter(byte: u8) -> bool
    ensures { result ≡ (byte == 40 || byte == 41 || byte == 34) }
{
    byte == b'(' || byte == b')' || byte == b'"'
}

fn is_word_char(byte: u8) -> bool
    ensures { result ≡ is_word_byte byte }
{
    33 <= byte && byte <= 126 && !is_delimiter(byte)
}

fn is_quoted_char(byte: u8) -> bool
    ensures { result ≡ is_quoted_byte byte }
{
    !(byte == 0 || byte == b'\r' || byte == b'\n')
}

/// Adds a byte to a text.
fn with_char(text: Text, byte: u8) -> Result<Text, NoMemory>
    ensures { IfOk result (λ longer. longer ≡ text ++ byte ∷ []) }
{
    let mut text = text;
    text.extend(&[byte])?;
    Ok(text)
}

/// A byte that stands after a whole token.
fn start(alloc: Global, tokens: &mut Tokens, byte: u8) -> Result<Option<Part>, NoMemory>
    ensures { IfOk result (λ part. option_map (λ p. (tokens.new, p)) part ≡ started tokens.old byte) }
{
    if byte == b' ' {
        tokens.push(Token::Space)?;
        return Ok(Some(Part::Between));
    }
    if byte == b'(' {
        tokens.push(Token::Open)?;
        return Ok(Some(Part::Between));
    }
    if byte == b')' {
        tokens.push(Token::Close)?;
        return Ok(Some(Part::Between));
    }
    if byte == b'"' {
        return Ok(Some(Part::Quoted(Text::new(alloc))));
    }
    if is_word_char(byte) {
        return Ok(Some(Part::Word(with_char(Text::new(alloc), byte)?)));
    }
    Ok(None)
}

/// A byte in a quoted string.
fn in_quotes(tokens: &mut Tokens, text: Text, byte: u8) -> Result<Option<Part>, NoMemory>
    ensures { IfOk result (λ part. option_map (λ p. (tokens.new, p)) part ≡ spec.in_quotes tokens.old text byte) }
{
    if byte == b'"' {
        tokens.push(Token::Quoted(text))?;
        return Ok(Some(Part::Between));
    }
    if byte == b'\\' {
        return Ok(Some(Part::Escape(text)));
    }
    if is_quoted_char(byte) {
        return Ok(Some(Part::Quoted(with_char(text, byte)?)));
    }
    Ok(None)
}

/// A byte after a `\` in a quoted string.
fn escaped(text: Text, byte: u8) -> Result<Option<Part>, NoMemory>
    ensures { IfOk result (λ part. part ≡ spec.escaped text byte) }
{
    if byte == b'"' || byte == b'\\' {
        return Ok(Some(Part::Quoted(with_char(text, byte)?)));
    }
    Ok(None)
}

/// A byte in a word.
fn in_word(
    alloc: Global,
    tokens: &mut Tokens,
    text: Text,
    byte: u8,
) -> Result<Option<Part>, NoMemory>
    ensures { IfOk result (λ part. option_map (λ p. (tokens.new, p)) part ≡ spec.in_word tokens.old text byte) }
{
    if is_word_char(byte) {
        return Ok(Some(Part::Word(with_char(text, byte)?)));
    }
    tokens.push(Token::Word(text))?;
    start(alloc, tokens, byte)
}

/// One byte more.
fn add(alloc: Global, tokens: &mut Tokens, part: Part, byte: u8) -> Result<Option<Part>, NoMemory>
    ensures { IfOk result (λ next. option_map (λ p. (tokens.new, p)) next ≡ with_byte tokens.old part byte) }
{
    match part {
        Part::Between => start(alloc, tokens, byte),
        Part::Word(text) => in_word(alloc, tokens, text, byte),
        Part::Quoted(text) => in_quotes(tokens, text, byte),
        Part::Escape(text) => escaped(text, byte),
    }
}

/// Adds the tokens of a line, if it is made of tokens.
fn add_line(alloc: Global, tokens: &mut Tokens, line: &[u8]) -> Result<bool, NoMemory>
    ensures { IfOk result (λ good. tokens_in tokens.old line.now ≡ (if good then Some tokens.new else None)) }
{
    let mut part = Part::Between;
    for byte in line {
        match add(alloc, tokens, part, *byte)? {
            Some(next) => part = next,
            None => return Ok(false),
        }
    }
    match part {
        Part::Between => Ok(true),
        Part::Word(text) => {
            tokens.push(Token::Word(text))?;
            Ok(true)
        }
        Part::Quoted(_text) => Ok(false),
        Part::Escape(_text) => Ok(false),
    }
}

/// The byte of a space or of a parenthesis, or 0.
fn mark_of(token: &Token) -> u8
    ensures { result ≡ mark_byte token.now }
{
    match token {
        Token::Space => b' ',
        Token::Open => b'(',
        Token::Close => b')',
        Token::Word(_text) => 0,
        Token::Quoted(_text) => 0,
        Token::Literal(_text) => 0,
    }
}

/// Whether the token is a space.
pub fn is_space_token(token: &Token) -> bool
    ensures { result ≡ is_space token.now }
{
    mark_of(token) == b' '
}

/// Whether the token opens a list.
pub fn is_open_token(token: &Token) -> bool
    ensures { result ≡ is_open token.now }
{
    mark_of(token) == b'('
}

/// Whether the token closes a list.
pub fn is_close_token(token: &Token) -> bool
    ensures { result ≡ is_close token.now }
{
    mark_of(token) == b')'
}

/// The token's bytes, where it is a word.
pub fn word_in(token: &Token) -> Option<&[u8]>
    ensures { option_map (λ text. text.now) result ≡ word_of token.now }
{
    match token {
        Token::Space => None,
        Token::Open => None,
        Token::Close => None,
        Token::Word(text) => Some(text.bytes()),
        Token::Quoted(_text) => None,
        Token::Literal(_text) => None,
    }
}

/// An astring.
pub fn string_in(token: &Token) -> Option<&[u8]>
    ensures { option_map (λ text. text.now) result ≡ string_of token.now }
{
    match token {
        Token::Space => None,
        Token::Open => None,
        Token::Close => None,
        Token::Word(text) => {
            if is_whole_atom(text.bytes()) {
                Some(text.bytes())
            } else {
                None
            }
        }
        Token::Quoted(text) => Some(text.bytes()),
        Token::Literal(text) => Some(text.bytes()),
    }
}

/// An astring whose atom may hold `%` and `*`.
pub fn pattern_in(token: &Token) -> Option<&[u8]>
    ensures { option_map (λ text. text.now) result ≡ pattern_of token.now }
{
    match token {
        Token::Space => None,
        Token::Open => None,
        Token::Close => None,
        Token::Word(text) => {
            if only_pattern_chars(text.bytes()) {
                Some(text.bytes())
            } else {
                None
            }
        }
        Token::Quoted(text) => Some(text.bytes()),
        Token::Literal(text) => Some(text.bytes()),
    }
}

/// The token's text, where it was in quotes.
pub fn quoted_in(token: &Token) -> Option<&[u8]>
    ensures { option_map (λ text. text.now) result ≡ quoted_of token.now }
{
    match token {
        Token::Space => None,
        Token::Open => None,
        Token::Close => None,
        Token::Word(_text) => None,
        Token::Quoted(text) => Some(text.bytes()),
        Token::Literal(_text) => None,
    }
}

/// The token's bytes, where it was a literal.
pub fn literal_in(token: &Token) -> Option<&[u8]>
    ensures { option_map (λ text. text.now) result ≡ literal_of token.now }
{
    match token {
        Token::Space => None,
        Token::Open => None,
        Token::Close => None,
        Token::Word(_text) => None,
        Token::Quoted(_text) => None,
        Token::Literal(text) => Some(text.bytes()),
    }
}

fn add_literal(alloc: Global, tokens: &mut Tokens, literal: &Text) -> Result<(), NoMemory>
    ensures { OnOk result (tokens.new ≡ tokens.old ++ Token.Literal literal.now ∷ []) }
{
    tokens.push(Token::Literal(literal.copy(alloc)?))
}

/// Adds the literal behind the line at a place, if there is one.
fn add_literal_at(
    alloc: Global,
    tokens: &mut Tokens,
    literals: &[Text],
    place: usize,
) -> Result<(), NoMemory>
    ensures { OnOk result (tokens.new ≡ with_first tokens.old (drop place literals.now)) }
{
    match literals.get(place) {
        Some(literal) => add_literal(alloc, tokens, literal),
        None => Ok(()),
    }
}

/// Adds the tokens of the lines that follow in a command and of the literals that stand behind them, if the lines are made of tokens.
fn add_lines(
    alloc: Global,
    tokens: &mut Tokens,
    lines: &[Text],
    literals: &[Text],
) -> Result<bool, NoMemory>
    ensures { IfOk result (λ good. tokens_of tokens.old lines.now literals.now ≡ (if good then Some tokens.new else None)) }
{
    for (place, line) in lines.iter().enumerate() {
        let line = line_before(line.bytes(), after(lines, place + 1));
        if !add_line(alloc, tokens, line)? {
            return Ok(false);
        }
        add_literal_at(alloc, tokens, literals, place)?;
    }
    Ok(true)
}

/// The tokens of the rest of a line, of the lines that follow in the command and of the literals that stand behind them.
pub fn read_tokens(
    alloc: Global,
    line: &[u8],
    lines: &[Text],
    literals: &[Text],
) -> Result<Option<Tokens>, NoMemory>
    ensures { IfOk result (λ tokens. tokens ≡ spec.tokens_with line.now lines.now literals.now) }
{
    let mut tokens = Tokens::new(alloc);
    if !add_line(alloc, &mut tokens, line)? {
        return Ok(None);
    }
    add_literal_at(alloc, &mut tokens, literals, 0)?;
    if add_lines(alloc, &mut tokens, lines, behind_first(literals))? {
        Ok(Some(tokens))
    } else {
        Ok(None)
    }
}

/// Texts without the first.
fn behind_first(texts: &[Text]) -> &[Text]
    ensures { result.now ≡ drop 1 texts.now }
{
    match texts {
        [] => texts,
        [_first, rest @ ..] => rest,
    }
}
