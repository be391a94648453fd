//! The elements of a trace's JSON.

ghost use Rattle.std.specs.Prelude.{◌≡◌, ◌++◌, IfOk, IsSome, OnOk, Some, flat_map, option_and_then, reverse, string_bytes};
ghost use Rattle.json.specs.Find.{BeginsWith, InMembers};
ghost use Rattle.json.specs.Json.{Json, Members, document};
ghost use Rattle.ttree_chrome.specs.Text.{IsAtList, Lists, Opens, bracket_closed, bracket_opened, byte_read, closer, element_depth, elements_in, has_more, is_closing, is_cut, is_list_key, list_among, list_count, lists_among, mended, nothing_read, place_noted, read_in_text, read_outside, scan_of};

use json::{Error, MAX_DEPTH, Reader, Scratch, Token};
use std::alloc::{AllocError, Global};
use std::marker::Model;
use tracing_tree_base::text::Text;
use ttree_source::blanks::{first_byte, is_blank};

// Returns a reader of the elements that a JSON value lists. `None` if it isn't a trace. An error
// means that memory ran out.
pub(crate) fn elements_of<'a>(
    text: &'a str,
    scratch: &'a mut Scratch,
) -> Result<Option<Reader<'a>>, Error>
    requires valid { IsSome (document text.now) }
    ensures { IfOk result (λ found. Lists (option_and_then elements_in (document text.now)) found) }
{
    let count = list_count(text, scratch)?;
    let mut reader = Reader::new(text, scratch)?;
    let is_list = match enter(&mut reader) {
        Opening::Array => true,
        Opening::Object => find_list(&mut reader, count)?,
        Opening::Other => false,
    };
    if is_list { Ok(Some(reader)) } else { Ok(None) }
}

// Returns how many members of an object may list elements. The last one counts.
fn list_count(text: &str, scratch: &mut Scratch) -> Result<usize, Error>
    requires valid { IsSome (document text.now) }
    ensures { IfOk result (λ count. count ≡ list_count (document text.now)) }
{
    let mut reader = Reader::new(text, scratch)?;
    match enter(&mut reader) {
        Opening::Object => count_lists(&mut reader),
        Opening::Array | Opening::Other => Ok(0),
    }
}

// Returns how many of the members up to the object's end may list elements.
fn count_lists(reader: &mut Reader<'_>) -> Result<usize, Error>
    ensures { (all : Members) → InMembers reader.old all
        → IfOk result (λ count. count ≡ lists_among all) }
{
    let mut count: usize = 0;
    while let Some(key) = reader.next_key()? {
        if is_list_key(key) {
            count = count.checked_add(1).ok_or(Error::TooLong)?;
        }
        reader.skip_value(MAX_DEPTH)?;
    }
    Ok(count)
}

// Goes to the first element in the last of `count` members that may list elements. Returns whether
// that is a list.
fn find_list(reader: &mut Reader<'_>, count: usize) -> Result<bool, Error>
    ensures { (all : Members) → InMembers reader.old all → count ≡ lists_among all
        → IfOk result (λ is_list. IsAtList (list_among all) is_list reader.new) }
{
    let mut left = count;
    while left > 0 {
        let Some(key) = reader.next_key()? else {
            return Err(Error::Invalid);
        };
        if is_list_key(key) {
            left -= 1;
            if left == 0 {
                return Ok(enter_list(reader));
            }
        }
        reader.skip_value(MAX_DEPTH)?;
    }
    Ok(false)
}

// Returns whether an object's member with this key may list elements.
fn is_list_key(key: &str) -> bool
    ensures { result ≡ is_list_key key.now }
{
    key == "traceEvents"
}

// Goes to the first element in the value that follows. Returns whether that is a list.
fn enter_list(reader: &mut Reader<'_>) -> bool
    ensures { (value : Json) → BeginsWith reader.old value → IsAtList (Some value) result reader.new }
{
    match enter(reader) {
        Opening::Array => true,
        Opening::Object | Opening::Other => false,
    }
}

// What the first token of a value opens.
#[derive(Clone, Copy)]
enum Opening {
    Array,
    Object,
    // It is another value.
    Other,
}

// Takes the first token of a value.
fn enter(reader: &mut Reader<'_>) -> Opening
    ensures { (value : Json) → BeginsWith reader.old value → Opens value result reader.new }
{
    let Some(first) = reader.next() else {
        return Opening::Other;
    };
    match first {
        Token::BeginArray => Opening::Array,
        Token::BeginObject => Opening::Object,
        _ => Opening::Other,
    }
}

// A truncated trace, with its end added.
#[derive(Drop)]
pub(crate) struct MendedText {
    pub(crate) text: Text,
    // Whether an element was lost, and not only the end of the list.
    pub(crate) is_cut: bool,
}

// Returns the input up to the last place between two elements, and closes what is open there.
pub(crate) fn mended(alloc: Global, text: &str) -> Result<MendedText, AllocError>
    ensures { IfOk result (λ made. made ≡ record {
      text = mended text.now;
      is_cut = is_cut text.now;
    }) }
{
    let scan = scan_of(alloc, text.as_bytes())?;
    let mut out = String::with_capacity(alloc, text.len())?;
    out.push_str(&text[..scan.place])?;
    let is_cut = has_more(&text.as_bytes()[scan.place..]);
    push_closers(&mut out, scan.left_open)?;
    Ok(MendedText {
        text: Text::from(out),
        is_cut,
    })
}

// An opening bracket.
#[derive(Clone, Copy)]
enum Bracket {
    Square,
    Curly,
}

// Returns what closes a bracket.
fn closer(bracket: Bracket) -> &'static str
    ensures { result.now ≡ closer bracket }
{
    match bracket {
        Bracket::Square => "]",
        Bracket::Curly => "}",
    }
}

// Closes these brackets, the last first.
fn push_closers(out: &mut String, brackets: Vec<Bracket>) -> Result<(), AllocError>
    ensures { OnOk result (string_bytes out.new ≡ string_bytes out.old ++ flat_map closer (reverse
        brackets.items)) }
{
    let mut brackets = brackets;
    while let Some(bracket) = brackets.pop() {
        out.push_str(closer(bracket))?;
    }
    Ok(())
}

// The state after a part of the input.
#[derive(Drop)]
struct Scan {
    // The open brackets, innermost last.
    brackets: Vec<Bracket>,
    in_text: bool,
    is_escaped: bool,
    // The number of bytes up to the last place between two elements.
    place: usize,
    // The open brackets at that place, innermost last.
    left_open: Vec<Bracket>,
}

impl Model for Scan {
    ghost use Rattle.std.specs.Prelude.{reverse};
    ghost use Rattle.ttree_chrome.specs.Text.{ScanState};

    ghost Value = { ScanState };

    ghost view = { λ s. record {
      brackets = reverse s.brackets.items;
      in_text = s.in_text;
      is_escaped = s.is_escaped;
      place = s.place;
      left_open = reverse s.left_open.items;
    } };
}

impl Scan {
    fn new(alloc: Global) -> Scan
        ensures { result ≡ nothing_read }
    {
        Scan {
            brackets: Vec::new(alloc),
            in_text: false,
            is_escaped: false,
            place: 0,
            left_open: Vec::new(alloc),
        }
    }

    // Reads the byte at the place `at`.
    fn read(&mut self, level: usize, at: usize, byte: u8) -> Result<(), AllocError>
        ensures { OnOk result (self.new ≡ byte_read level at byte self.old) }
    {
        if self.in_text {
            self.read_in_text(byte);
            Ok(())
        } else {
            self.read_outside(level, at, byte)
        }
    }

    fn read_in_text(&mut self, byte: u8)
        ensures { self.new ≡ read_in_text byte self.old }
    {
        if self.is_escaped {
            self.is_escaped = false;
        } else if byte == b'\\' {
            self.is_escaped = true;
        } else if byte == b'"' {
            self.in_text = false;
        }
    }

    fn read_outside(&mut self, level: usize, at: usize, byte: u8) -> Result<(), AllocError>
        ensures { OnOk result (self.new ≡ read_outside level at byte self.old) }
    {
        match byte {
            b'"' => {
                self.in_text = true;
                return Ok(());
            }
            b'[' => self.push(Bracket::Square)?,
            b'{' => self.push(Bracket::Curly)?,
            b']' | b'}' => self.pop(),
            _ => return Ok(()),
        }
        self.note(level, at)
    }

    fn push(&mut self, bracket: Bracket) -> Result<(), AllocError>
        ensures { OnOk result (self.new ≡ bracket_opened bracket self.old) }
    {
        Ok(self.brackets.push(bracket)?)
    }

    fn pop(&mut self)
        ensures { self.new ≡ bracket_closed self.old }
    {
        self.brackets.pop();
    }

    // Records a place between two elements, at which only the list and what contains it are open.
    fn note(&mut self, level: usize, at: usize) -> Result<(), AllocError>
        ensures { OnOk result (self.new ≡ place_noted level at self.old) }
    {
        if self.brackets.len() != level {
            return Ok(());
        }
        self.place = at;
        self.left_open.clear();
        self.left_open.extend_from_slice(self.brackets.as_slice())
    }
}

fn scan_of(alloc: Global, text: &[u8]) -> Result<Scan, AllocError>
    ensures { IfOk result (λ scan. scan ≡ scan_of text.now) }
{
    let level = level_of(text);
    let mut scan = Scan::new(alloc);
    let mut at = 0;
    let mut rest = text;
    while let [byte, others @ ..] = rest {
        at += 1;
        scan.read(level, at, *byte)?;
        rest = others;
    }
    Ok(scan)
}

// Returns how many brackets are open between two elements: the list's, and that of an object that
// contains it.
fn level_of(text: &[u8]) -> usize
    ensures { result ≡ element_depth text.now }
{
    match first_byte(text) {
        Some(b'[') => 1,
        _ => 2,
    }
}

// Returns whether a byte may come after the last element of a list.
fn is_closing(byte: u8) -> bool
    ensures { result ≡ is_closing byte }
{
    match byte {
        b',' | b']' | b'}' => true,
        _ => is_blank(byte),
    }
}

// Returns whether any other byte comes there.
fn has_more(bytes: &[u8]) -> bool
    ensures { result ≡ has_more bytes.now }
{
    let mut rest = bytes;
    while let [byte, others @ ..] = rest {
        if !is_closing(*byte) {
            return true;
        }
        rest = others;
    }
    false
}
