use crate::{keep, without};
use std::alloc::Global;

// A text, a path, and the text without what is there.
const PRUNED: &str =
    r#" {"metadata": {"name":"p", "managedFields":[1]}} ~metadata/managedFields~{"metadata":{"name":"p"}}
{"a": {"b" :1}}~~{"a":{"b":1}}
{"metadata":[1]}~metadata/managedFields~{"metadata":[1]}
{"a":1,"b":2,"a":[3,{"a":4}]}~a~{"b":2}
{"b":1,"a":2,"c":{"a":3},"a":4}~a~{"b":1,"c":{"a":3}}
{"\u0061":1,"a\"":2,"a":3}~a~{"\u0061":1,"a\"":2}
[{"a":1},[{"a":1}],"a",{"b":"]},","a":[]}]~*/a~[{},[{"a":1}],"a",{"b":"]},"}]
{"*":{"a":1,"b":2}}~*/a~{"*":{"b":2}}
[1,[],{}]~*~[1,[],{}]
{"a":{"":1,"b":2}}~a/~{"a":{"b":2}}"#;

// A text, and what is kept of it without managed fields and with them.
const KEPT: &str =
    r#"{"kind":"PodList","items":[{"metadata":{"managedFields":[]}},3]}~{"kind":"PodList","items":[{"metadata":{}},3]}~{"kind":"PodList","items":[{"metadata":{"managedFields":[]}},3]}
{"managedFields":1,"spec":{"metadata":{"managedFields":2}},"metadata":{"managedFields":3,"x":4}}~{"managedFields":1,"spec":{"metadata":{"managedFields":2}},"metadata":{"x":4}}~{"managedFields":1,"spec":{"metadata":{"managedFields":2}},"metadata":{"managedFields":3,"x":4}}
{"items":{"metadata":{"managedFields":1}},"metadata":{"managedFields":1,"managedFields":2,"a":0}}~{"items":{"metadata":{"managedFields":1}},"metadata":{"a":0}}~{"items":{"metadata":{"managedFields":1}},"metadata":{"managedFields":1,"managedFields":2,"a":0}}
{"kind":"Table","rows":[{"cells":[1],"object":{"kind":"P","metadata":{"managedFields":[2],"name":"a"}}},{"object":null},3]}~{"kind":"Table","rows":[{"cells":[1],"object":{"kind":"P","metadata":{"name":"a"}}},{"object":null},3]}~{"kind":"Table","rows":[{"cells":[1],"object":{"kind":"P","metadata":{"managedFields":[2],"name":"a"}}},{"object":null},3]}
{"rows":[{"object":{"metadata":{"managedFields":1}}}],"a":{"kind":"x"},"kind":"Table"}~{"rows":[{"object":{"metadata":{}}}],"a":{"kind":"x"},"kind":"Table"}~{"rows":[{"object":{"metadata":{"managedFields":1}}}],"a":{"kind":"x"},"kind":"Table"}
{"kind":"Rows","rows":[{"object":{"metadata":{"managedFields":1}}}]}~{"kind":"Rows","rows":[{"object":{"metadata":{"managedFields":1}}}]}~{"kind":"Rows","rows":[{"object":{"metadata":{"managedFields":1}}}]}
{"kind":["Table"],"kind":"Table","rows":[{"object":{"metadata":{"managedFields":1}}}]}~{"kind":["Table"],"kind":"Table","rows":[{"object":{"metadata":{"managedFields":1}}}]}~{"kind":["Table"],"kind":"Table","rows":[{"object":{"metadata":{"managedFields":1}}}]}
["\ud800","\uDC00x","\u00e9"]~["\ufffd","\ufffdx","\u00e9"]~["\ufffd","\ufffdx","\u00e9"]
["\uD83d\uDe00","\ud83d\ud83d\ude00\ude00"]~["\uD83d\uDe00","\ufffd\ud83d\ude00\ufffd"]~["\uD83d\uDe00","\ufffd\ud83d\ude00\ufffd"]
{"\udbff":"\\ud800\ud800\n\ud800u"}~{"\ufffd":"\\ud800\ufffd\n\ufffdu"}~{"\ufffd":"\\ud800\ufffd\n\ufffdu"}
{"metadata":{"managedFields":"\ud800"}}~{"metadata":{}}~{"metadata":{"managedFields":"\ufffd"}}"#;

fn parts(row: &str) -> (&str, &str, &str) {
    let mut parts = row.split('~');
    let first = parts.next().unwrap_or("");
    let second = parts.next().unwrap_or("");
    (first, second, parts.next().unwrap_or(""))
}

fn is_pruned(alloc: Global, row: &str) -> bool {
    let (text, path, left) = parts(row);
    match without(alloc, text.as_bytes(), path) {
        Ok(pruned) => pruned.as_slice() == left.as_bytes(),
        Err(_) => false,
    }
}

fn is_kept(alloc: Global, text: &str, omit: bool, text_kept: &str) -> bool {
    match keep(alloc, text.as_bytes(), omit) {
        Ok(kept) => kept.as_slice() == text_kept.as_bytes(),
        Err(_) => false,
    }
}

#[test]
fn members_at_a_path(rt: HostRuntime) {
    for row in PRUNED.lines() {
        assert!(rt; is_pruned(rt.alloc(), row), "{row}");
    }
}

#[test]
fn what_an_event_records(rt: HostRuntime) {
    for row in KEPT.lines() {
        let (text, omitted, whole) = parts(row);
        assert!(rt; is_kept(rt.alloc(), text, true, omitted), "{row}");
        assert!(rt; is_kept(rt.alloc(), text, false, whole), "{row}");
    }
}
