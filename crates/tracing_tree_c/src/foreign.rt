//! The values that C passes, and how they are read.

ghost use Rattle.std.specs.Prelude.{◌≡◌, ◌∷◌, [], ◌↔◌, ⊤, IsTrue, IsUtf8};
ghost use Rattle.tracing_tree_c.specs.Parts.{call_of_close, call_of_event, call_of_new};
ghost use Rattle.tracing_tree_c.specs.Trees.{written_of};
ghost use Rattle.tracing_tree_c.specs.Foreign.{Reads, IsUtf8Field, IsUtf8Fields, IsUtf8Context, IsUtf8New, IsUtf8Event, IsUtf8Time, IsSmallTime, IsSmallText, IsSmallField, IsSmallContext, IsSmallNew, IsKnownNew, IsKnownEvent, HasNoFields, IsContextOf, IsNewOf, IsEventOf, IsRecordOf, IsCloseOf, foreign_field, foreign_fields, level_of_number, parent_of, foreign_current, thread_name_of};

use crate::parts::{Close, LentEvent, NewSpan};
use crate::timer::Written;
use jiff::Timestamp;
use std::alloc::{AllocError, AllocFailed, Global};
use std::marker::Model;
use tracing_tree_base::field::{Field, Fields};
use tracing_tree_base::style::Level;
use tracing_tree_base::text::Text;
use tracing_tree_base::{Context, Id};
use tracing_tree_drawing::format::push_event_texts;
use tracing_tree_layer::call::Call;
use tracing_tree_layer::parts::EventParts;
use tracing_tree_spans::registry::{Attributes, Event, Parent, Record};
use tracing_tree_time::Moment;

/// Why a value that C passed could not be read.
#[derive(Clone, Copy, Debug, PartialEq, Eq)]
pub enum Unreadable {
    /// A kind of parent or a level is unknown.
    Unknown,

    /// A string isn't UTF-8.
    NotUtf8,

    /// An allocation failed.
    Starved,
}

impl From<AllocError> for Unreadable {
    ghost use Rattle.tracing_tree_c.specs.declared.foreign.Unreadable.TheVariants.{Starved};

    ghost from_gives = { λ _ fault. fault ≡ Starved };

    fn from(_error: AllocError) -> Unreadable {
        Unreadable::Starved
    }
}

impl<T: Drop> From<AllocFailed<T>> for Unreadable {
    ghost use Rattle.tracing_tree_c.specs.declared.foreign.Unreadable.TheVariants.{Starved};

    ghost from_gives = { λ _ fault. fault ≡ Starved };

    fn from(_error: AllocFailed<T>) -> Unreadable {
        Unreadable::Starved
    }
}

/// A field: its name, and its value as a string.
#[repr(C)]
#[derive(Clone, Copy)]
pub struct FieldRef<'a> {
    pub name: &'a [u8],
    pub value: &'a [u8],
}

/// The context of a call.
#[repr(C)]
#[derive(Clone, Copy)]
pub struct ContextRef<'a> {
    /// The current span's id, or 0.
    pub current: u64,

    /// The number of the thread.
    pub thread_id: u64,

    /// The name of the thread, if `has_thread_name` is on.
    pub thread_name: &'a [u8],

    /// Nanoseconds on the monotonic clock.
    pub mono: u64,

    /// Nanoseconds since 1970.
    pub wall: i64,

    pub has_thread_name: bool,
}

/// The parts of a new span.
#[repr(C)]
#[derive(Clone, Copy)]
pub struct AttributesRef<'a> {
    pub name: &'a [u8],
    pub target: &'a [u8],

    /// The parent's id, if `parent_kind` is 2.
    pub parent: u64,

    /// 0: a root, 1: the current span, 2: `parent`.
    pub parent_kind: u32,
}

/// An event.
#[repr(C)]
#[derive(Clone, Copy)]
pub struct EventRef<'a> {
    pub target: &'a [u8],

    /// The parent's id, if `parent_kind` is 2.
    pub parent: u64,

    /// 0: a root, 1: the current span, 2: `parent`.
    pub parent_kind: u32,

    /// 0: trace, 1: debug, 2: info, 3: warn, 4: error.
    pub level: u32,
}

/// The strings of the time, as the caller's own timer wrote them.
#[repr(C)]
#[derive(Clone, Copy)]
pub struct TimeRef<'a> {
    /// The moment.
    pub moment: &'a [u8],

    /// How long the current span has been open.
    pub elapsed: &'a [u8],
}

// Returns a string that stays in C's memory. `NotUtf8` exactly if it isn't UTF-8. A trusted string
// isn't checked: the caller must ensure that it is UTF-8.
#[inline(always)]
fn str_in<'a>(bytes: &'a [u8], trusted: bool) -> Result<&'a str, Unreadable>
    requires { IsTrue trusted → IsUtf8 bytes.now }
    ensures { Reads ⊤ (IsUtf8 bytes.now) ⊤ (λ text. text.now ≡ bytes.now) result }
{
    if trusted {
        return Ok(unsafe { str::from_utf8_unchecked(bytes) });
    }
    match str::from_utf8(bytes) {
        Ok(text) => Ok(text),
        Err(_) => Err(Unreadable::NotUtf8),
    }
}

// Returns a copy of a string, read like `str_in`.
#[inline(always)]
fn text_in(alloc: Global, bytes: &[u8], trusted: bool) -> Result<Text, Unreadable>
    requires { IsTrue trusted → IsUtf8 bytes.now }
    ensures { Reads ⊤ (IsUtf8 bytes.now) (IsSmallText bytes.now) (λ text. text ≡ bytes.now) result }
{
    let text = str_in(bytes, trusted)?;
    Ok(Text::from_str(alloc, text)?)
}

#[inline(always)]
fn field_in(alloc: Global, given: &FieldRef, trusted: bool) -> Result<Field, Unreadable>
    requires { IsTrue trusted → IsUtf8Field given.now }
    ensures { Reads ⊤ (IsUtf8Field given.now) (IsSmallField given.now)
        (λ field. field ≡ foreign_field given.now) result }
{
    let name = text_in(alloc, given.name, trusted)?;
    let value = text_in(alloc, given.value, trusted)?;
    Ok(Field { name, value })
}

#[inline(always)]
fn fields_in(alloc: Global, given: &[FieldRef], trusted: bool) -> Result<Fields, Unreadable>
    requires { IsTrue trusted → IsUtf8Fields given.now }
    ensures { Reads ⊤ (IsUtf8Fields given.now) (HasNoFields given.now)
        (λ fields. fields ≡ foreign_fields given.now) result }
{
    if given.len() == 1 {
        return field_alone_in(alloc, &given[0], trusted);
    }
    many_fields_in(alloc, given, trusted)
}

// Reads a single field, which needs no list.
#[inline(always)]
fn field_alone_in(alloc: Global, given: &FieldRef, trusted: bool) -> Result<Fields, Unreadable>
    requires { IsTrue trusted → IsUtf8Field given.now }
    ensures { Reads ⊤ (IsUtf8Field given.now) (IsSmallField given.now)
        (λ fields. fields ≡ foreign_field given.now ∷ []) result }
{
    match field_in(alloc, given, trusted) {
        Ok(field) => Ok(Fields::one(alloc, field)),
        Err(fault) => Err(fault),
    }
}

fn many_fields_in(alloc: Global, given: &[FieldRef], trusted: bool) -> Result<Fields, Unreadable>
    requires { IsTrue trusted → IsUtf8Fields given.now }
    ensures { Reads ⊤ (IsUtf8Fields given.now) (HasNoFields given.now)
        (λ fields. fields ≡ foreign_fields given.now) result }
{
    let mut fields = Vec::with_capacity(alloc, given.len())?;
    for field in given {
        match field_in(alloc, field, trusted) {
            Ok(read) => fields.push_reserved(read),
            Err(fault) => return Err(fault),
        }
    }
    Ok(Fields::from(fields))
}

fn level_in(number: u32) -> Option<Level>
    ensures { result ≡ level_of_number number }
{
    match number {
        0 => Some(Level::Trace),
        1 => Some(Level::Debug),
        2 => Some(Level::Info),
        3 => Some(Level::Warn),
        4 => Some(Level::Error),
        _ => None,
    }
}

fn parent_in(kind: u32, id: u64) -> Option<Parent>
    ensures { result ≡ parent_of kind id }
{
    match kind {
        0 => Some(Parent::Root),
        1 => Some(Parent::Current),
        2 => Some(Parent::Of(Id(id))),
        _ => None,
    }
}

fn current_in(id: u64) -> Option<Id>
    ensures { result ≡ foreign_current id }
{
    if id == 0 { None } else { Some(Id(id)) }
}

#[inline(always)]
fn thread_name_in(
    alloc: Global,
    given: &ContextRef,
    trusted: bool,
) -> Result<Option<Text>, Unreadable>
    requires { IsTrue trusted → IsUtf8Context given.now }
    ensures { Reads ⊤ (IsUtf8Context given.now) (IsSmallContext given.now)
        (λ name. name ≡ thread_name_of given.now) result }
{
    if !given.has_thread_name {
        return Ok(None);
    }
    Ok(Some(text_in(alloc, given.thread_name, trusted)?))
}

#[inline(always)]
pub(crate) fn context_in(
    alloc: Global,
    given: &ContextRef,
    trusted: bool,
) -> Result<Context, Unreadable>
    requires { IsTrue trusted → IsUtf8Context given.now }
    ensures { Reads ⊤ (IsUtf8Context given.now) (IsSmallContext given.now)
        (IsContextOf given.now) result }
{
    let thread_name = thread_name_in(alloc, given, trusted)?;
    let wall = Timestamp::from_nanosecond(i128::from(given.wall)).unwrap();
    Ok(Context {
        current: current_in(given.current),
        thread_id: given.thread_id,
        thread_name,
        moment: Moment {
            mono: given.mono,
            wall,
        },
    })
}

// Reads a new span. The caller must ensure that trusted strings are UTF-8.
#[inline(always)]
pub(crate) fn new_in(
    alloc: Global,
    given: &AttributesRef,
    fields: &[FieldRef],
    when: &ContextRef,
    trusted: bool,
) -> Result<NewSpan, Unreadable>
    requires { IsTrue trusted → IsUtf8New given.now fields.now when.now }
    ensures { Reads (IsKnownNew given.now) (IsUtf8New given.now fields.now when.now)
        (IsSmallNew given.now fields.now when.now)
        (λ parts. IsNewOf given.now fields.now when.now (call_of_new parts)) result }
{
    let parent = parent_in(given.parent_kind, given.parent).ok_or(Unreadable::Unknown)?;
    let name = text_in(alloc, given.name, trusted)?;
    let target = text_in(alloc, given.target, trusted)?;
    let fields = fields_in(alloc, fields, trusted)?;
    let context = context_in(alloc, when, trusted)?;
    let attributes = Attributes {
        name,
        target,
        parent,
        fields,
    };
    Ok(NewSpan {
        attributes,
        context,
    })
}

/// An event whose strings stay in C's memory. The registry stores no part of an event.
#[derive(Drop)]
pub struct EventTexts<'a> {
    level: Level,
    parent: Parent,
    target: &'a str,
    fields: &'a [FieldRef<'a>],
}

impl<'a> Model for EventTexts<'a> {
    ghost use Rattle.tracing_tree_spans.specs.declared.registry.Event.{Event};
    ghost use Rattle.tracing_tree_c.specs.Foreign.{IsUtf8Fields, foreign_fields};

    ghost Value = { Event };

    ghost view = { λ e. record {
      level = e.level;
      target = e.target.now;
      parent = e.parent;
      fields = foreign_fields e.fields.now;
    } };

    ghost invariant = { λ e. IsUtf8Fields e.fields.now };
}

impl EventParts for EventTexts<'_> {
    ghost whole = { λ event. event };

    fn level(&self) -> Level {
        self.level
    }

    fn target(&self) -> &str {
        self.target
    }

    fn parent(&self) -> Parent {
        self.parent
    }

    fn push_fields(&self, out: &mut String) -> Result<(), AllocError> {
        let mut comma = false;
        for field in self.fields {
            let (name, value) = field.texts();
            push_event_texts(out, &mut comma, name, value)?;
        }
        Ok(())
    }

    fn to_event(&self, alloc: Global) -> Result<Event, AllocError> {
        let Ok(fields) = fields_in(alloc, self.fields, true) else {
            return Err(AllocError);
        };
        Ok(Event {
            level: self.level,
            target: Text::from_str(alloc, self.target)?,
            parent: self.parent,
            fields,
        })
    }
}

impl FieldRef<'_> {
    // Returns the name and the value. The caller must ensure that they are UTF-8.
    #[inline(always)]
    fn texts(&self) -> (&str, &str)
        requires { IsUtf8Field self.now }
        ensures name { result.0.now ≡ self.now.name.now }
        ensures value { result.1.now ≡ self.now.value.now }
    {
        unsafe {
            (
                str::from_utf8_unchecked(self.name),
                str::from_utf8_unchecked(self.value),
            )
        }
    }

    // Returns whether the name and the value are UTF-8.
    fn is_text(&self) -> bool
        ensures { IsTrue result ↔ IsUtf8Field self.now }
    {
        str::from_utf8(self.name).is_ok() && str::from_utf8(self.value).is_ok()
    }
}

// Returns whether all fields are UTF-8.
fn are_texts(fields: &[FieldRef]) -> bool
    ensures { IsTrue result ↔ IsUtf8Fields fields.now }
{
    for field in fields {
        if !field.is_text() {
            return false;
        }
    }
    true
}

// Reads an event. The caller must ensure that trusted strings are UTF-8.
#[inline(always)]
pub(crate) fn event_in<'a>(
    alloc: Global,
    given: &EventRef<'a>,
    fields: &'a [FieldRef<'a>],
    when: &ContextRef,
    trusted: bool,
) -> Result<LentEvent<'a>, Unreadable>
    requires { IsTrue trusted → IsUtf8Event given.now fields.now when.now }
    ensures { Reads (IsKnownEvent given.now) (IsUtf8Event given.now fields.now when.now)
        (IsSmallContext when.now)
        (λ parts. IsEventOf given.now fields.now when.now (call_of_event parts)) result }
{
    let level = level_in(given.level).ok_or(Unreadable::Unknown)?;
    let parent = parent_in(given.parent_kind, given.parent).ok_or(Unreadable::Unknown)?;
    let target = str_in(given.target, trusted)?;
    if !trusted && !are_texts(fields) {
        return Err(Unreadable::NotUtf8);
    }
    let context = context_in(alloc, when, trusted)?;
    let event = EventTexts {
        level,
        parent,
        target,
        fields,
    };
    Ok(LentEvent { event, context })
}

// Reads a close.
#[inline(always)]
pub(crate) fn close_in(alloc: Global, id: u64, when: &ContextRef) -> Result<Close, Unreadable>
    ensures { Reads ⊤ (IsUtf8Context when.now) (IsSmallContext when.now)
        (λ parts. IsCloseOf id when.now (call_of_close parts)) result }
{
    let context = context_in(alloc, when, false)?;
    Ok(Close {
        id: Id(id),
        context,
    })
}

// Reads fields that are recorded later.
pub(crate) fn record_in(alloc: Global, id: u64, fields: &[FieldRef]) -> Result<Call, Unreadable>
    ensures { Reads ⊤ (IsUtf8Fields fields.now) (HasNoFields fields.now)
        (IsRecordOf id fields.now) result }
{
    let fields = fields_in(alloc, fields, false)?;
    Ok(Call::Record(Id(id), Record { fields }))
}

// Reads the strings of the time.
pub(crate) fn time_in(alloc: Global, given: &TimeRef) -> Result<Written, Unreadable>
    ensures { Reads ⊤ (IsUtf8Time given.now) (IsSmallTime given.now)
        (λ written. written ≡ written_of given.now) result }
{
    let moment = text_in(alloc, given.moment, false)?;
    let elapsed = text_in(alloc, given.elapsed, false)?;
    Ok(Written { moment, elapsed })
}
