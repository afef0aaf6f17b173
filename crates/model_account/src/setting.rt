// A core, and the requests that it is given.
ghost use Rattle.std.specs.Prelude.{◌≤◌, length, IfOk};
ghost use Rattle.front_base.specs.declared.line.TheConstants.{MOST_LINE_BYTES};

use crate::Wants;
use apiservice_rows::read_rows;
use apiservice_table::{RouteTable, read_rows_fit};
use audit_core::{Settings, SinkMode};
use front_base::{Bytes, Moment};
use http_edge::Request;
use http_head::{HeadAnswer, read_request};
use model_steps::Core;
use model_worlds::Limits;
use policy_json::read_policy;
use service_endpoints::read_endpoints;
use std::alloc::Global;
use std::test::Fail;
use token_users::read_tokens;

/// How the sinks are written to, how many lines a buffer may hold, and what a batch may have.
#[derive(Clone, Copy)]
pub struct Form {
    pub bays: u16,
    pub log: SinkMode,
    pub hook: SinkMode,
    pub capacity: u32,
    pub limits: Limits,
}

const TOKENS: &str = "t,root,1,\"system:masters\"\n";

// Nothing of secrets.
const POLICY: &str = "{\"kind\":\"Policy\",\"apiVersion\":\"audit.k8s.io/v1\",\"rules\":[\
{\"level\":\"None\",\"resources\":[{\"group\":\"\",\"resources\":[\"secrets\"]}]},\
{\"level\":\"Metadata\"}]}";

const ENDPOINTS: &str = "local,127.0.0.1:6443\n";

const SERVICE: &str =
    "{\"apiVersion\":\"apiregistration.k8s.io/v1\",\"kind\":\"APIService\",\"metadata\":{\"name\":\"v1.\"},\
\"spec\":{\"version\":\"v1\",\"groupPriorityMinimum\":18000,\"versionPriority\":1}}";

// The bytes of a text that may be read as a file.
fn file_of(text: &str) -> Result<&[u8], Fail>
    ensures { IfOk result (λ bytes. length bytes.now ≤ 16777216) }
{
    let bytes = text.as_bytes();
    if bytes.len() > 16_777_216 {
        return Err("a short text")?;
    }
    Ok(bytes)
}

// Texts are parameters, since a proof would otherwise read the constants.
fn settings_of(
    alloc: Global,
    form: Form,
    tokens: &str,
    policy: &str,
    endpoints: &str,
) -> Result<Settings, Fail>
    ensures { IfOk result (λ settings. settings.max_event ≤ MOST_LINE_BYTES) }
{
    Ok(Settings {
        tokens: read_tokens(alloc, file_of(tokens)?)?,
        policy: read_policy(alloc, file_of(policy)?)?,
        endpoints: read_endpoints(alloc, file_of(endpoints)?)?,
        max_event: 4_096,
        log: form.log,
        hook: form.hook,
    })
}

fn table_of(alloc: Global, text: &str) -> Result<RouteTable, Fail> {
    read_rows_fit();
    let rows = read_rows(alloc, text.as_bytes())?;
    Ok(RouteTable::from_rows(alloc, rows)?)
}

/// A core of the API `v1`, which a delegate serves.
pub fn core_of(alloc: Global, form: Form) -> Result<Core, Fail> {
    let table = table_of(alloc, SERVICE)?;
    let settings = settings_of(alloc, form, TOKENS, POLICY, ENDPOINTS)?;
    Ok(Core::start(
        alloc,
        settings,
        &table,
        0,
        form.bays,
        form.capacity,
        form.capacity,
        form.limits,
    )?)
}

fn line_of(wants: Wants) -> &'static str {
    match wants {
        Wants::Health => "GET /healthz",
        Wants::Pod => "GET /api/v1/namespaces/a/pods/p",
        Wants::Watch => "GET /api/v1/watch/pods",
        Wants::Secret => "GET /api/v1/namespaces/a/secrets/s",
        Wants::Delete => "DELETE /apis/apiregistration.k8s.io/v1/apiservices/v1.",
        Wants::Create => "POST /apis/apiregistration.k8s.io/v1/apiservices",
    }
}

fn body_of(wants: Wants) -> &'static [u8] {
    match wants {
        Wants::Create => SERVICE.as_bytes(),
        _ => b"".as_slice(),
    }
}

pub fn request_of(alloc: Global, wants: Wants) -> Result<Request, Fail> {
    let line = line_of(wants);
    let text = format!(in alloc; "{line} HTTP/1.1\r\nAuthorization: Bearer t\r\n\r\n")?;
    let body = Bytes::new(body_of(wants).to_vec(alloc)?);
    match read_request(alloc, text.as_bytes())? {
        HeadAnswer::Whole { head, .. } => Ok(Request { head, body }),
        _ => Err("a head")?,
    }
}

pub fn moment_of(micros: u64) -> Result<Moment, Fail> {
    Ok(Moment::new(micros).ok_or("a moment")?)
}
