//! Reads a case from a line of JSON.

ghost use Rattle.std.specs.Prelude.{◌≡◌, option_map};
ghost use Rattle.serde_json.specs.View.{view};
ghost use Rattle.look_cases.specs.Case as def;

use serde_json::Value;

/// A text, and a trace if a run is asked for.
#[derive(Clone, Copy)]
pub struct Case<'a> {
    pub text: &'a [u8],
    pub trace: Option<&'a [u8]>,
}

/// Returns the case of a text and the member `trace` of a line; none if that isn't a string.
fn traced<'a>(text: &'a str, trace: Option<&'a Value>) -> Option<Case<'a>>
    ensures { option_map def.seen result
        ≡ def.with_trace text.entry.now (option_map (λ v. view v.now) trace.entry) }
{
    let text = text.as_bytes();
    match trace {
        None => Some(Case { text, trace: None }),
        Some(value) => match value.as_str() {
            None => None,
            Some(trace) => Some(Case {
                text,
                trace: Some(trace.as_bytes()),
            }),
        },
    }
}

/// Returns the case of a line: it has a string `text`, and `trace` is a string or absent.
pub fn case_of(line: &Value) -> Option<Case<'_>>
    ensures { option_map def.seen result ≡ def.case_of (view line.entry.now) }
{
    match line.get("text") {
        None => None,
        Some(value) => match value.as_str() {
            None => None,
            Some(text) => traced(text, line.get("trace")),
        },
    }
}
