// Objects of APIServices, and patches of them.
use apiservice_rows::{Row, read_row};
use avail_probe::{patch_text, told_of};
use case_rows::fields;
use std::alloc::{AllocError, Global};

/// The status member of an object by a sign: `+` for available, `-` for unavailable, anything else for none.
pub fn status_by(sign: &str) -> &'static str {
    match sign {
        "+" => r#","status":{"conditions":[{"status":"True","type":"Available"}]}"#,
        "-" => r#","status":{"conditions":[{"status":"False","type":"Available"}]}"#,
        _ => "",
    }
}

/// The object of an APIService of that group, of the version `v1`, with a service of that name in the namespace `s` unless the sign is `.`.
pub fn object_of(alloc: Global, group: &str, sign: &str) -> Result<String, AllocError> {
    let status = status_by(sign);
    let service = if sign == "." {
        String::new(alloc)
    } else {
        format!(in alloc; r#""service":{{"name":"{group}","namespace":"s"}},"#)?
    };
    format!(in alloc;
        r#"{{"apiVersion":"apiregistration.k8s.io/v1","kind":"APIService","metadata":{{"name":"v1.{group}"}},"spec":{{"group":"{group}","groupPriorityMinimum":100,{service}"version":"v1","versionPriority":10}}{status}}}"#
    )
}

fn show_row(alloc: Global, row: &Row, up: bool) -> Option<String> {
    let told = match told_of(alloc, row).ok()? {
        Some(true) => "up",
        Some(false) => "down",
        None => "nothing",
    };
    let patch = patch_text(alloc, row, up, "why", "when").ok()?;
    let size = patch.as_slice().len();
    let text = str::from_utf8(patch.as_slice()).ok()?;
    format!(in alloc; "{told} {size} {text}").ok()
}

/// What a row's object says, and the patch that says another condition.
pub fn show_object(alloc: Global, row: &str) -> Option<String> {
    let (word, text) = fields(row);
    let own = read_row(alloc, text.as_bytes()).ok()?;
    show_row(alloc, &own, word == "up")
}
