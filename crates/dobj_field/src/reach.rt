//! What a field reaches in an object.
ghost use Rattle.std.specs.Prelude.{◌≡◌, [], option_map};
ghost use Rattle.std.specs.List.{list_any, find};
ghost use Rattle.doip_json.specs.Meaning.{value_of};
ghost use Rattle.doip_json.specs.Value.{whole};
ghost use Rattle.dobj_field.specs.Reach.{reached, led_to, passes, is_scalar, is_from, is_to};
ghost use Rattle.dobj_field.specs.Scalar.{scalar_value, text_test};

use crate::field::Field;
use dobj_model::Object;
use doip_json::{Json, JsonList, Num, Str};

/// A test on a string, a number or a boolean.
#[derive(Debug, Drop)]
pub enum ScalarTest {
    /// Its text is this. The text of a number is its decimal form, that of a boolean `true` or `false`.
    Equals(Str),
    /// Its text begins with this.
    Begins(Str),
    /// It is a number from `low` to `high`, both included. An end that is absent is open.
    Between {
        /// The lowest number.
        low: Option<Num>,
        /// The highest number.
        high: Option<Num>,
    },
}

/// Whether a value that the field reaches passes the test. It takes no memory.
///
/// A pointer reaches values in `content`: a token steps to that key of a JSON object, and `_` steps on an array to each
/// item in order. `id` and `type` reach the texts of these properties.
pub fn reaches(object: &Object, field: &Field, test: &ScalarTest) -> bool
    ensures { result ≡ list_any (passes test.now) (reached field.now object.now) }
{
    match field {
        Field::Id => passes_text(test, object.id().get()),
        Field::OfType => passes_text(test, object.type_name().get()),
        Field::Pointer(tokens) => match object.content() {
            Some(content) => leads_to(tokens.as_slice(), content, test),
            None => false,
        },
    }
}

// Whether the tokens lead to a value that passes the test.
fn leads_to(tokens: &[Str], value: &Json, test: &ScalarTest) -> bool
    ensures { result ≡ list_any (passes test.now) (led_to tokens.now (value_of value.now)) }
{
    let Some((token, rest)) = tokens.split_first() else {
        return passes(test, value);
    };
    match value {
        Json::Table(map) => match map.get(token.get()) {
            Some(found) => leads_to(rest, found, test),
            None => false,
        },
        Json::Items(list) => {
            if token.get() != "_" {
                return false;
            }
            for item in list.items() {
                if leads_to(rest, item, test) {
                    return true;
                }
            }
            false
        }
        _ => false,
    }
}

fn passes(test: &ScalarTest, value: &Json) -> bool
    ensures { result ≡ passes test.now (value_of value.now) }
{
    match value {
        Json::Text(text) => passes_text(test, text.get()),
        Json::Truth(true) => passes_text(test, "true"),
        Json::Truth(false) => passes_text(test, "false"),
        Json::Whole(number) => passes_number(test, *number),
        _ => false,
    }
}

fn passes_text(test: &ScalarTest, text: &str) -> bool
    ensures { result ≡ text_test test.now text.now }
{
    match test {
        ScalarTest::Equals(word) => text == word.get(),
        ScalarTest::Begins(word) => text.starts_with(word.get()),
        ScalarTest::Between { low: _, high: _ } => false,
    }
}

fn passes_number(test: &ScalarTest, number: Num) -> bool
    ensures { result ≡ passes test.now (whole number) }
{
    if let ScalarTest::Between { low, high } = test {
        return is_from(low, number) && is_to(high, number);
    }
    let mut buffer = itoa::Buffer::new();
    passes_text(test, buffer.format(number.get()))
}

fn is_from(low: &Option<Num>, number: Num) -> bool
    ensures { result ≡ is_from low.now number }
{
    match low {
        Some(low) => low.get() <= number.get(),
        None => true,
    }
}

fn is_to(high: &Option<Num>, number: Num) -> bool
    ensures { result ≡ is_to high.now number }
{
    match high {
        Some(high) => number.get() <= high.get(),
        None => true,
    }
}

/// A string, a number or a boolean, lent.
#[derive(Clone, Copy)]
pub enum Scalar<'a> {
    /// A number.
    Number(Num),
    /// A string.
    Text(&'a str),
    /// A boolean.
    Truth(bool),
}

/// The first string, number or boolean that the field reaches, by which objects are sorted. It takes no memory.
pub fn first_scalar<'a>(object: &'a Object, field: &Field) -> Option<Scalar<'a>>
    ensures { option_map scalar_value result ≡ find is_scalar (reached field.now object.now) }
{
    match field {
        Field::Id => Some(Scalar::Text(object.id().get())),
        Field::OfType => Some(Scalar::Text(object.type_name().get())),
        Field::Pointer(tokens) => match object.content() {
            Some(content) => first_led_to(tokens.as_slice(), content),
            None => None,
        },
    }
}

fn first_led_to<'a>(tokens: &[Str], value: &'a Json) -> Option<Scalar<'a>>
    ensures { option_map scalar_value result ≡ find is_scalar (led_to tokens.now (value_of value.now)) }
{
    let Some((token, rest)) = tokens.split_first() else {
        return scalar_of(value);
    };
    match value {
        Json::Table(map) => match map.get(token.get()) {
            Some(found) => first_led_to(rest, found),
            None => None,
        },
        Json::Items(list) => {
            if token.get() != "_" {
                return None;
            }
            for item in list.items() {
                if let Some(scalar) = first_led_to(rest, item) {
                    return Some(scalar);
                }
            }
            None
        }
        _ => None,
    }
}

fn scalar_of<'a>(value: &'a Json) -> Option<Scalar<'a>>
    ensures { option_map scalar_value result ≡ find is_scalar (led_to [] (value_of value.now)) }
{
    match value {
        Json::Text(text) => Some(Scalar::Text(text.get())),
        Json::Truth(truth) => Some(Scalar::Truth(*truth)),
        Json::Whole(number) => Some(Scalar::Number(*number)),
        _ => None,
    }
}
