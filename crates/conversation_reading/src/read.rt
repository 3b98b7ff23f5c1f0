//! From values to entries.

ghost use Rattle.std.specs.Prelude.{◌≡◌, ◌||◌, IfOk, Some, codes, false, is_some, option_map, option_and_then};
ghost use Rattle.std.specs.Option.{option_map_or};
ghost use Rattle.json.specs.Find.{get, as_str};
ghost use Rattle.std.specs.Str.{bytes_eq};
ghost use Rattle.json.specs.Value.{value_view, items_view};
ghost use Rattle.conversation_reading.specs.Huge.{has_huge};
ghost use Rattle.conversation_reading.specs.Nesting.{is_deep_request};
ghost use Rattle.conversation_reading.specs.Inner.{AreMembers};
ghost use Rattle.conversation_reading.specs.Numbers.{is_whole};
ghost use Rattle.conversation_reading.specs.Strictly.{there_in, is_object, written_id, are_unfit, code_in, is_error, is_unfit_error, call_faults, answer_faults, faults_of, has_fault, is_null_value, is_array, is_bare, first_by, kind_of, entry_of, entries_of};

use crate::entry::{Entry, Faults, Kind, There, WrittenId};
use crate::first::First;
use crate::huge::has_huge;
use crate::lookup::{Members, first_of, members_of};
use crate::nesting::is_deep_request;
use crate::number::is_whole;
use crate::target::{cancels_none, read_target};
use json::Value;
use json_values::Text;
use std::alloc::{AllocError, Global};

/// What the elements of an array are, in their order.
pub(crate) fn read_entries(alloc: Global, values: &[Value<'_>]) -> Result<Vec<Entry>, AllocError>
    ensures { IfOk result (λ entries. entries.items ≡ entries_of (items_view values.now)) }
{
    let mut entries = Vec::with_capacity(alloc, values.len())?;
    for value in values {
        entries.push(read_entry(alloc, value)?)?;
    }
    Ok(entries)
}

/// What one value is.
pub(crate) fn read_entry(alloc: Global, value: &Value<'_>) -> Result<Entry, AllocError>
    ensures { IfOk result (λ entry. entry ≡ entry_of (value_view value.now)) }
{
    let members = members_of(value);
    let there = there_among(value, &members);
    let faults = faults_of(value, &members);
    let kind = kind_of(&there, has_fault(&faults), members.is_twice);
    Ok(Entry {
        kind,
        there,
        faults,
        id: read_id(alloc, members.id)?,
        method: copied(alloc, text_in(members.method))?,
        null_params: is_null(members.params),
        array_params: is_array(members.params),
        bare_result: is_bare(members.result),
        code: copied(alloc, code_among(members.error))?,
        target: read_target(alloc, members.method, members.params)?,
        cancels_none: cancels_none(members.method, members.params),
        first: read_first(alloc, value, members.is_twice)?,
        has_huge: may_be_refused(value, members.is_twice, kind),
    })
}

/// What else it may be to its reader, where a member stands twice in it.
fn read_first(alloc: Global, value: &Value<'_>, is_twice: bool) -> Result<Option<First>, AllocError>
    ensures { IfOk result (λ first. first ≡ first_by is_twice (value_view value.now)) }
{
    if !is_twice {
        return Ok(None);
    }
    let id = read_id(alloc, first_of(value, "id"))?;
    let method = first_of(value, "method");
    let target = read_target(alloc, method, first_of(value, "params"))?;
    Ok(Some(First::new(alloc, id, copied(alloc, text_in(method))?, target)?))
}

/// Whether a reader may refuse it all.
fn may_be_refused(value: &Value<'_>, is_twice: bool, kind: Kind) -> bool
    ensures { result ≡ (has_huge (value_view value.now) || (is_twice || is_deep_request kind (value_view value.now))) }
{
    has_huge(value) || is_twice || is_deep_request(kind, value)
}

fn there_among(value: &Value<'_>, members: &Members<'_, '_>) -> There
    requires { AreMembers members.now (value_view value.now) }
    ensures { result ≡ there_in (value_view value.now) }
{
    There {
        id: members.id.is_some(),
        method: members.method.is_some(),
        params: members.params.is_some(),
        result: members.result.is_some(),
        error: members.error.is_some(),
    }
}

pub(crate) fn is_object(value: &Value<'_>) -> bool
    ensures { result ≡ is_object (value_view value.now) }
{
    match value {
        Value::Object(_) => true,
        _ => false,
    }
}

/// Why a value is no message.
fn faults_of(value: &Value<'_>, members: &Members<'_, '_>) -> Faults
    requires { AreMembers members.now (value_view value.now) }
    ensures { result ≡ faults_of (value_view value.now) }
{
    if !is_object(value) {
        return Faults {
            object: true,
            version: false,
            method: false,
            params: false,
            id: false,
            outcome: false,
            error: false,
        };
    }
    if members.method.is_some() {
        call_faults(value, members)
    } else {
        answer_faults(value, members)
    }
}

fn call_faults(value: &Value<'_>, members: &Members<'_, '_>) -> Faults
    requires { AreMembers members.now (value_view value.now) }
    ensures { result ≡ call_faults (value_view value.now) }
{
    Faults {
        object: false,
        version: !is_version_2(members.version),
        method: text_in(members.method).is_none(),
        params: are_unfit(members.params),
        id: members.id.is_some() && !has_id(members.id),
        outcome: false,
        error: false,
    }
}

fn answer_faults(value: &Value<'_>, members: &Members<'_, '_>) -> Faults
    requires { AreMembers members.now (value_view value.now) }
    ensures { result ≡ answer_faults (value_view value.now) (there_in (value_view value.now)) }
{
    let has_result = members.result.is_some();
    let has_error = members.error.is_some();
    Faults {
        object: false,
        version: !is_version_2(members.version),
        method: false,
        params: false,
        id: !has_id(members.id) && (members.id.is_some() || has_result || has_error),
        outcome: (has_result && has_error) || !(has_result || has_error),
        error: is_unfit_error(members.error, members.result),
    }
}

fn has_fault(faults: &Faults) -> bool
    ensures { result ≡ has_fault faults.now }
{
    faults.object
        || faults.version
        || faults.method
        || faults.params
        || faults.id
        || faults.outcome
        || faults.error
}

fn kind_of(there: &There, is_faulty: bool, is_twice: bool) -> Kind
    ensures { result ≡ kind_of there.now is_faulty is_twice }
{
    if there.method {
        match (is_faulty, there.id) {
            (true, _) => Kind::Invalid,
            (false, true) => Kind::Request,
            (false, false) => Kind::Notification,
        }
    } else if there.result || there.error {
        if is_faulty || is_twice {
            Kind::BrokenAnswer
        } else {
            Kind::Answer
        }
    } else {
        Kind::Invalid
    }
}

/// Whether the member `jsonrpc` is exactly "2.0".
fn is_version_2(version: Option<&Value<'_>>) -> bool
    ensures { result ≡ option_map_or (bytes_eq (codes "2.0")) (option_and_then as_str (option_map (λ v. value_view v.now) version.entry)) false }
{
    match version {
        Some(version) => version.as_str() == Some("2.0"),
        None => false,
    }
}

/// Whether a member is an id that can be read.
fn has_id(id: Option<&Value<'_>>) -> bool
    ensures { result ≡ is_some (option_and_then written_id (option_map (λ v. value_view v.now) id.entry)) }
{
    match id {
        Some(Value::Null | Value::String(_) | Value::Number(_)) => true,
        _ => false,
    }
}

/// The text of a member that is a string.
pub(crate) fn text_in<'v>(member: Option<&'v Value<'_>>) -> Option<&'v str>
    ensures { option_map (λ s. s.now) result ≡ option_and_then as_str (option_map (λ v. value_view v.now) member.entry) }
{
    member?.as_str()
}

/// Whether params are there, and are neither an array nor an object.
fn are_unfit(params: Option<&Value<'_>>) -> bool
    ensures { result ≡ are_unfit (option_map (λ v. value_view v.now) params.entry) }
{
    match params {
        None | Some(Value::Array(_) | Value::Object(_)) => false,
        Some(_) => true,
    }
}

/// Whether an error is none. Beside a result it isn't looked into.
fn is_unfit_error(error: Option<&Value<'_>>, beside: Option<&Value<'_>>) -> bool
    ensures { result ≡ is_unfit_error (option_map (λ v. value_view v.now) error.entry)
        (option_map (λ v. value_view v.now) beside.entry) }
{
    match (error, beside) {
        (Some(error), None) => !is_error(error),
        _ => false,
    }
}

fn is_error(error: &Value<'_>) -> bool
    ensures { result ≡ is_error (value_view error.now) }
{
    has_whole_code(error) && has_message(error)
}

fn has_whole_code(error: &Value<'_>) -> bool
    ensures { result ≡ option_map_or is_whole (code_in (value_view error.now)) false }
{
    match code_in(error) {
        Some(code) => is_whole(code),
        None => false,
    }
}

fn has_message(error: &Value<'_>) -> bool
    ensures { result ≡ is_some (option_and_then as_str (get (codes "message") (value_view error.now))) }
{
    match error.get("message") {
        Some(message) => message.as_str().is_some(),
        None => false,
    }
}

fn code_in<'v>(error: &'v Value<'_>) -> Option<&'v str>
    ensures { option_map (λ s. s.now) result ≡ code_in (value_view error.now) }
{
    error.get("code")?.as_number()
}

fn code_among<'v>(error: Option<&'v Value<'_>>) -> Option<&'v str>
    ensures { option_map (λ s. s.now) result ≡ option_and_then code_in (option_map (λ v. value_view v.now) error.entry) }
{
    code_in(error?)
}

fn read_id(alloc: Global, member: Option<&Value<'_>>) -> Result<Option<WrittenId>, AllocError>
    ensures { IfOk result (λ id. id ≡ option_and_then written_id (option_map (λ v. value_view v.now) member.entry)) }
{
    match member {
        Some(Value::Null) => Ok(Some(WrittenId::Null)),
        Some(Value::String(text)) => Ok(Some(WrittenId::Text(Text::copy_of(alloc, text)?))),
        Some(Value::Number(text)) => Ok(Some(WrittenId::Number(Text::copy_of(alloc, text)?))),
        _ => Ok(None),
    }
}

fn copied(alloc: Global, text: Option<&str>) -> Result<Option<Text>, AllocError>
    ensures { IfOk result (λ copy. copy ≡ option_map (λ s. s.now) text.entry) }
{
    match text {
        Some(text) => Ok(Some(Text::copy_of(alloc, text)?)),
        None => Ok(None),
    }
}

/// Whether a member is there, and is null.
fn is_null(member: Option<&Value<'_>>) -> bool
    ensures { result ≡ option_map_or is_null_value (option_map (λ v. value_view v.now) member.entry) false }
{
    match member {
        Some(Value::Null) => true,
        _ => false,
    }
}

/// Whether a member is there, and is an array.
fn is_array(member: Option<&Value<'_>>) -> bool
    ensures { result ≡ option_map_or is_array (option_map (λ v. value_view v.now) member.entry) false }
{
    match member {
        Some(Value::Array(_)) => true,
        _ => false,
    }
}

/// Whether a member is there, and is no object.
fn is_bare(member: Option<&Value<'_>>) -> bool
    ensures { result ≡ option_map_or is_bare (option_map (λ v. value_view v.now) member.entry) false }
{
    match member {
        Some(value) => !is_object(value),
        None => false,
    }
}
