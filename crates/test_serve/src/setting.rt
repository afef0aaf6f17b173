// What the run is made of: two bays, a webhook whose batches have one event each, a delegate and a service.
use front_base::{Bytes, Text};
use front_ports::MemFiles;
use serve_command::Serve;
use std::alloc::{AllocError, Global};
use std::test::Fail;

const SERVICES: &str =
    r#"{"kind":"APIService","apiVersion":"apiregistration.k8s.io/v1","metadata":{"name":"v1."},
"spec":{"version":"v1","groupPriorityMinimum":18000,"versionPriority":1}}"#;

fn words_of(alloc: Global, hook: u16) -> Result<Vec<String>, AllocError> {
    let line = format!(in alloc;
        "serve|--bays=2|--token-auth-file=t|--apiservices=s|--endpoints=e|--batch-max-size=1|--audit-webhook-url=http://127.0.0.1:{hook}/"
    )?;
    let mut words = Vec::new(alloc);
    for word in line.split('|') {
        words.push(String::from_str(alloc, word)?)?;
    }
    Ok(words)
}

// These bytes, or none where memory refuses them.
fn bytes_of(alloc: Global, text: &str) -> Bytes {
    match text.as_bytes().to_vec(alloc) {
        Ok(bytes) => Bytes::new(bytes),
        Err(_) => Bytes::new(Vec::new(alloc)),
    }
}

fn files(alloc: Global, backend: u16) -> Result<MemFiles, Fail> {
    let to = format!(in alloc; "local,127.0.0.1:{backend}\ns/x:443,127.0.0.1:{backend}\n")?;
    let tokens = Text::copy_of(alloc, "t")?;
    let services = Text::copy_of(alloc, "s")?;
    let endpoints = Text::copy_of(alloc, "e")?;
    let all = vec![in alloc;
        (tokens, bytes_of(alloc, "t1,root,1,\"system:masters\"\n")),
        (services, bytes_of(alloc, SERVICES)),
        (endpoints, bytes_of(alloc, to.as_str())),
    ]?;
    Ok(MemFiles::new(all, Vec::new(alloc)))
}

pub fn configured(alloc: Global, hook: u16, backend: u16) -> Result<Serve, Fail> {
    let words = words_of(alloc, hook)?;
    let mut files = files(alloc, backend)?;
    match Serve::configure(alloc, &words, &mut files) {
        Ok(serve) => Ok(serve),
        Err(_) => Err(Fail::from("a configuration")),
    }
}
