//! Assertions, each of which names what it fails at, and values.
use json_values::Json;
use serde_json::Value;
use std::alloc::{AllocError, Global};
use std::process::Abort;
use std::test::Fail;

/// Whether a text that was written is that one.
pub fn is_text(written: Result<String, AllocError>, want: &str) -> Result<bool, AllocError> {
    Ok(written?.as_bytes() == want.as_bytes())
}

/// The value of a text that has no fraction.
pub fn json(alloc: Global, text: &str) -> Result<Json, Fail> {
    match Json::new(Value::from_str(alloc, text)?) {
        Some(json) => Ok(json),
        None => Err("a fraction".into()),
    }
}

/// Fails by the first line of which it isn't so.
pub fn each_line<E, F: FnOnce(Global, &str) -> Result<bool, E> + Copy>(
    rt: &impl Abort,
    alloc: Global,
    lines: &str,
    is_so: F,
) -> Result<(), Fail>
where
    Fail: From<E>,
    requires { F.IsAlwaysCallable is_so }
{
    for line in lines.lines() {
        assert!(rt; is_so(alloc, line)?, "{line}");
    }
    Ok(())
}

/// Fails by the name of the first row of which it isn't so.
pub fn each_row<T, E, F: FnOnce(Global, &str, &T) -> Result<bool, E> + Copy>(
    rt: &impl Abort,
    alloc: Global,
    rows: &[(&str, T)],
    is_so: F,
) -> Result<(), Fail>
where
    Fail: From<E>,
    requires { F.IsAlwaysCallable is_so }
{
    for (name, row) in rows {
        assert!(rt; is_so(alloc, name, row)?, "{name}");
    }
    Ok(())
}

/// Fails by this name and the index of the first act that doesn't come out.
pub fn each_act<S, A, F: FnOnce(Global, &mut S, &A) -> Result<bool, Fail> + Copy>(
    rt: &impl Abort,
    alloc: Global,
    name: &str,
    state: &mut S,
    acts: &[A],
    comes_out: F,
) -> Result<(), Fail>
    requires { F.IsAlwaysCallable comes_out }
{
    for (index, act) in acts.iter().enumerate() {
        assert!(rt; comes_out(alloc, state, act)?, "{name}: act {index}");
    }
    Ok(())
}
