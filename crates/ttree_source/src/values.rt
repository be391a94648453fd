//! Access to JSON values.

ghost use Rattle.std.specs.Prelude.{◌≡◌, IfOk, is_some, option_map};
ghost use Rattle.json.specs.Find.{as_object};
ghost use Rattle.json.specs.Json.{document};
ghost use Rattle.json.specs.Value.{items_view, value_view};
ghost use Rattle.ttree_source.specs.Values.{array_at, text_at};

use json::{Error, Scratch, Value};
use std::alloc::{AllocError, Global};

/// Returns the JSON value of a string, if it is one.
///
/// # Errors
///
/// `AllocError` if an allocation fails.
pub fn value_of<'a>(
    alloc: Global,
    text: &'a str,
    scratch: &'a mut Scratch,
) -> Result<Option<Value<'a>>, AllocError>
    ensures { IfOk result (λ value. option_map value_view value ≡ document text.now) }
{
    match Value::parse(alloc, text, scratch) {
        Ok(value) => Ok(Some(value)),
        Err(Error::Invalid) => Ok(None),
        Err(_) => Err(AllocError),
    }
}

/// Returns the string at this key, if there is one.
pub fn text_at<'v>(value: &'v Value<'_>, key: &str) -> Option<&'v str>
    ensures { option_map (λ s. s.now) result ≡ text_at key.now (value_view value.now) }
{
    value.get(key)?.as_str()
}

/// Returns whether a value is an object.
pub fn is_object(value: &Value<'_>) -> bool
    ensures { result ≡ is_some (as_object (value_view value.now)) }
{
    match value {
        Value::Object(_) => true,
        _ => false,
    }
}

/// Returns the items of the array at this key, if there is one.
pub fn array_at<'v, 'a>(value: &'v Value<'a>, key: &str) -> Option<&'v Vec<Value<'a>>>
    ensures { option_map (λ items. items_view items.now.items) result
        ≡ array_at key.now (value_view value.now) }
{
    match value.get(key)? {
        Value::Array(items) => Some(items),
        _ => None,
    }
}
