//! The members of a message, each looked for once.

ghost use Rattle.std.specs.Prelude.{◌≡◌, option_map};
ghost use Rattle.json.specs.Find.{get, get_member};
ghost use Rattle.json.specs.Value.{value_view, members_view};
ghost use Rattle.conversation_reading.specs.Inner.{AreMembers};
ghost use Rattle.conversation_reading.specs.Twice.{is_twice, is_member_twice, first_of, first_member};

use json::Value;

/// The members of a message (JSON-RPC 2.0, sections 4 and 5). Of a name that stands twice the last one counts.
#[derive(Clone, Copy)]
pub(crate) struct Members<'v, 'a> {
    pub(crate) version: Option<&'v Value<'a>>,
    pub(crate) id: Option<&'v Value<'a>>,
    pub(crate) method: Option<&'v Value<'a>>,
    pub(crate) params: Option<&'v Value<'a>>,
    pub(crate) result: Option<&'v Value<'a>>,
    pub(crate) error: Option<&'v Value<'a>>,
    /// Whether one of these names stands twice (RFC 8259, section 4).
    pub(crate) is_twice: bool,
}

/// The last member of a name, and whether it stands twice.
#[derive(Clone, Copy)]
struct Member<'v, 'a> {
    last: Option<&'v Value<'a>>,
    is_twice: bool,
}

pub(crate) fn members_of<'v, 'a>(value: &'v Value<'a>) -> Members<'v, 'a>
    ensures { AreMembers result (value_view value.now) }
{
    let version = find_member(value, "jsonrpc");
    let id = find_member(value, "id");
    let method = find_member(value, "method");
    let params = find_member(value, "params");
    let result = find_member(value, "result");
    let error = find_member(value, "error");
    Members {
        version: version.last,
        id: id.last,
        method: method.last,
        params: params.last,
        result: result.last,
        error: error.last,
        is_twice: version.is_twice
            || id.is_twice
            || method.is_twice
            || params.is_twice
            || result.is_twice
            || error.is_twice,
    }
}

fn find_member<'v, 'a>(value: &'v Value<'a>, name: &str) -> Member<'v, 'a>
    ensures last { option_map (λ v. value_view v.now) result.last ≡ get name.now (value_view value.now) }
    ensures is_twice { result.is_twice ≡ is_twice name.now (value_view value.now) }
{
    match value {
        Value::Object(members) => member_among(members, name),
        _ => Member {
            last: None,
            is_twice: false,
        },
    }
}

fn member_among<'v, 'a>(members: &'v Vec<(&'a str, Value<'a>)>, name: &str) -> Member<'v, 'a>
    ensures last { option_map (λ v. value_view v.now) result.last ≡ get_member name.now (members_view members.now.items) }
    ensures is_twice { result.is_twice ≡ is_member_twice name.now (members_view members.now.items) }
{
    let mut last = None;
    let mut is_twice = false;
    for member in members {
        if member.0 == name {
            is_twice = is_twice || last.is_some();
            last = Some(&member.1);
        }
    }
    Member { last, is_twice }
}

/// The first member of a name.
pub(crate) fn first_of<'v, 'a>(value: &'v Value<'a>, name: &str) -> Option<&'v Value<'a>>
    ensures { option_map (λ v. value_view v.now) result ≡ first_of name.now (value_view value.now) }
{
    match value {
        Value::Object(members) => first_member(members, name),
        _ => None,
    }
}

fn first_member<'v, 'a>(members: &'v Vec<(&'a str, Value<'a>)>, name: &str) -> Option<&'v Value<'a>>
    ensures { option_map (λ v. value_view v.now) result ≡ first_member name.now (members_view members.now.items) }
{
    for member in members {
        if member.0 == name {
            return Some(&member.1);
        }
    }
    None
}
