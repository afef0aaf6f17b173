// The words and the files of a run.
use crate::script::fails;
use front_base::{Bytes, NoMemory, Text};
use front_ports::MemFiles;
use std::alloc::{AllocError, Global};

// What comes after `serve` and the number of bays.
const WORDS: &str =
    "--token-auth-file=t --audit-policy-file=p --apiservices=s --endpoints=e --audit-log-path=log \
--audit-log-mode=blocking-strict --audit-webhook-url=http://127.0.0.1:9400/ --batch-buffer=100 --batch-max-size=2";

const TOKENS: &str = "t1,ann,7,dev\nt2,root,1,\"system:masters\"\n";

const POLICY: &str =
    r#"{"kind":"Policy","apiVersion":"audit.k8s.io/v1","rules":[{"level":"Request"}]}"#;

const SERVICES: &str =
    r#"{"kind":"APIService","apiVersion":"apiregistration.k8s.io/v1","metadata":{"name":"v1."},
"spec":{"version":"v1","groupPriorityMinimum":18000,"versionPriority":1}}"#;

const ENDPOINTS: &str = "local,127.0.0.1:9001\ns/x:443,127.0.0.1:9002\n";

/// The words of a run with that option of bays.
pub fn words_of(alloc: Global, bays: &str) -> Result<Vec<String>, AllocError> {
    let mut words = Vec::new(alloc);
    words.push(String::from_str(alloc, "serve")?)?;
    words.push(String::from_str(alloc, bays)?)?;
    for word in WORDS.split(' ') {
        words.push(String::from_str(alloc, word)?)?;
    }
    Ok(words)
}

fn bytes_of(alloc: Global, text: &str) -> Result<Bytes, AllocError> {
    Ok(Bytes::new(text.as_bytes().to_vec(alloc)?))
}

/// The files `t`, `p`, `s` and `e` of tokens, policy, APIServices and endpoints, whose reads fail as a row says.
pub fn files_of(alloc: Global, row: &str) -> Result<MemFiles, NoMemory> {
    let tokens = (Text::copy_of(alloc, "t")?, bytes_of(alloc, TOKENS)?);
    let policy = (Text::copy_of(alloc, "p")?, bytes_of(alloc, POLICY)?);
    let services = (Text::copy_of(alloc, "s")?, bytes_of(alloc, SERVICES)?);
    let endpoints = (Text::copy_of(alloc, "e")?, bytes_of(alloc, ENDPOINTS)?);
    Ok(MemFiles::new(
        vec![in alloc; tokens, policy, services, endpoints]?,
        fails(alloc, row, "file"),
    ))
}
