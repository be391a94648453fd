//! The values at the keys of a call in a line's object, read in one pass.

ghost use Rattle.std.specs.Prelude.{◌≡◌, codes, true, None, MatchResult};
ghost use Rattle.json.specs.Json as json;
ghost use Rattle.tracing_tree_lines.specs.Lines.Borrowed.{RefusesFloat};
ghost use Rattle.tracing_tree_lines.specs.Lines.Parts.{no_parts, part_data, parts_members, with_key, IsObjectLine, ReadsObject, ReadsParts};
ghost use Rattle.tracing_tree_lines.specs.Lines.Taken.{opens_object, IsTaken, TakesFields, TakesList, TakesMember, TakesParts};

use super::LineCause;
use super::field_list::FieldList;
use super::number::number_part;
use super::pair::read_pair;
use super::part::{FieldsPart, Part};
use super::skip::{MEMBER_DEPTH, skip_rest};
use super::value::has_float;
use json::{Invalid, Reader, Scratch, Token};
use std::alloc::Global;

// The values at the keys of a call. If a key appears several times, the last member counts.
#[derive(Drop)]
pub(super) struct Parts<'a> {
    pub(super) call: Part<'a>,
    pub(super) id: Part<'a>,
    pub(super) name: Part<'a>,
    pub(super) level: Part<'a>,
    pub(super) target: Part<'a>,
    pub(super) parent: Part<'a>,
    pub(super) fields: FieldsPart<'a>,
    pub(super) current: Part<'a>,
    pub(super) thread: Part<'a>,
    pub(super) thread_name: Part<'a>,
    pub(super) mono: Part<'a>,
    pub(super) wall: Part<'a>,
    // Whether each number of the line is a whole number of 64 bits. If it is false, the line may
    // have a float.
    pub(super) is_whole: bool,
}

impl<'a> Parts<'a> {
    pub(super) fn new() -> Parts<'a>
        ensures absent { parts_members result ≡ no_parts }
        ensures whole { result.is_whole ≡ true }
    {
        Parts {
            call: Part::Absent,
            id: Part::Absent,
            name: Part::Absent,
            level: Part::Absent,
            target: Part::Absent,
            parent: Part::Absent,
            fields: FieldsPart::Absent,
            current: Part::Absent,
            thread: Part::Absent,
            thread_name: Part::Absent,
            mono: Part::Absent,
            wall: Part::Absent,
            is_whole: true,
        }
    }

    // Stores the value at a key, which is next. It is inlined, as is `read_part`, so the reader's
    // state stays in registers from a key to its value.
    #[inline(always)]
    fn read_member(
        &mut self,
        alloc: Global,
        reader: &mut Reader<'a>,
        key: &str,
    ) -> Result<(), LineCause>
        ensures { TakesMember key.now reader.old reader.new self.old self.new result }
    {
        match key {
            "fields" => self.fields = read_list(alloc, reader, &mut self.is_whole)?,
            _ => {
                let part = read_part(reader, &mut self.is_whole)?;
                self.set(key, part);
            }
        }
        Ok(())
    }

    // Stores a part at its key, except for the fields. An unknown key is ignored.
    fn set(&mut self, key: &str, part: Part<'a>)
        requires { key.now ≡ codes "fields" → ⊥ }
        ensures put { parts_members self.new
            ≡ with_key key.now (part_data part.entry) (parts_members self.old) }
        ensures whole { self.new.is_whole ≡ self.old.is_whole }
    {
        match key {
            "call" => self.call = part,
            "id" => self.id = part,
            "name" => self.name = part,
            "level" => self.level = part,
            "target" => self.target = part,
            "parent" => self.parent = part,
            "current" => self.current = part,
            "thread" => self.thread = part,
            "thread_name" => self.thread_name = part,
            "mono" => self.mono = part,
            "wall" => self.wall = part,
            _ => {}
        }
    }
}

// Reads the parts of a line. `NotACall` if the line isn't a JSON object, `Memory` if an allocation
// fails.
pub(super) fn read_object<'a>(
    alloc: Global,
    line: &'a str,
    scratch: &'a mut Scratch,
    parts: &mut Parts<'a>,
) -> Result<(), LineCause>
    requires absent { parts_members parts.old ≡ no_parts }
    requires whole { parts.old.is_whole ≡ true }
    ensures { ReadsObject line.now parts.new result }
{
    let mut reader = Reader::new(line, scratch)?;
    let first = reader.next().ok_or(LineCause::NotACall)?;
    if !opens_object(&first) {
        return Err(LineCause::NotACall);
    }
    read_members(alloc, &mut reader, parts)?;
    if reader.next().is_some() {
        return Err(LineCause::NotACall);
    }
    Ok(())
}

// Returns whether the token opens an object.
fn opens_object(token: &Token<'_>) -> bool
    ensures { result ≡ opens_object token.now }
{
    matches!(token, Token::BeginObject)
}

// Refuses the line of these parts with `NotACall` if it has a float. A float is a number that isn't
// a whole number of 64 bits, and whose key doesn't appear again in its object. `Memory` if an
// allocation fails.
pub(super) fn refuse_floats(alloc: Global, line: &[u8], parts: &Parts<'_>) -> Result<(), LineCause>
    requires { IsObjectLine line.now parts.now }
    ensures { ReadsParts line.now parts.now result }
{
    if parts.is_whole {
        return Ok(());
    }
    refuse_float(alloc, line)
}

// Reads the line again, as a tree that has the last member of each key, and refuses it if the tree
// has a float. Few lines get here, so this code is separate from what each line runs.
#[inline(never)]
fn refuse_float(alloc: Global, line: &[u8]) -> Result<(), LineCause>
    ensures { RefusesFloat line.now result }
{
    match serde_json::Value::from_slice(alloc, line) {
        Ok(value) if has_float(&value) => Err(LineCause::NotACall),
        Ok(_) => Ok(()),
        Err(error) if error.is_memory() => Err(LineCause::Memory),
        Err(_) => Err(LineCause::NotACall),
    }
}

// Reads the parts of an object after its `{`.
fn read_members<'a>(
    alloc: Global,
    reader: &mut Reader<'a>,
    parts: &mut Parts<'a>,
) -> Result<(), LineCause>
    requires absent { parts_members parts.old ≡ no_parts }
    requires whole { parts.old.is_whole ≡ true }
    ensures { TakesParts reader.old reader.new parts.new result }
{
    while let Some(key) = reader.next_key()? {
        parts.read_member(alloc, reader, key)?;
    }
    Ok(())
}

// Reads the next value. `is_whole` becomes false if a number in it isn't a whole number of 64 bits,
// also in `read_list` and `read_fields`.
#[inline(always)]
fn read_part<'a>(reader: &mut Reader<'a>, is_whole: &mut bool) -> Result<Part<'a>, Invalid>
    ensures { MatchResult result (IsTaken reader.old reader.new is_whole.old is_whole.new)
        (λ _. json.value 126 reader.old ≡ None) }
{
    match reader.next().ok_or(Invalid)? {
        Token::Null => Ok(Part::Absent),
        Token::String(text) => Ok(Part::Text(text)),
        Token::Number(text) => {
            let Some(part) = number_part(text) else {
                *is_whole = false;
                return Ok(Part::Other);
            };
            Ok(part)
        }
        first => {
            skip_rest(reader, first, MEMBER_DEPTH, is_whole)?;
            Ok(Part::Other)
        }
    }
}

// Reads the next value as a list of fields.
fn read_list<'a>(
    alloc: Global,
    reader: &mut Reader<'a>,
    is_whole: &mut bool,
) -> Result<FieldsPart<'a>, LineCause>
    ensures { TakesList reader.old reader.new is_whole.old is_whole.new result }
{
    match reader.next().ok_or(LineCause::NotACall)? {
        Token::Null => Ok(FieldsPart::Absent),
        Token::BeginArray => read_fields(alloc, reader, is_whole),
        first => {
            skip_rest(reader, first, MEMBER_DEPTH, is_whole)?;
            Ok(FieldsPart::Other)
        }
    }
}

// Reads the rest of an array of fields after its `[`.
fn read_fields<'a>(
    alloc: Global,
    reader: &mut Reader<'a>,
    is_whole: &mut bool,
) -> Result<FieldsPart<'a>, LineCause>
    ensures { TakesFields reader.old reader.new is_whole.old is_whole.new result }
{
    let mut fields = FieldList::new();
    let mut are_fields = true;
    while !reader.take_end_array() {
        let Some(field) = read_pair(reader, is_whole)? else {
            are_fields = false;
            continue;
        };
        fields.push(alloc, field)?;
    }
    if !are_fields {
        return Ok(FieldsPart::Other);
    }
    Ok(FieldsPart::Fields(fields))
}
