// What help and `--version` print.
use crate::ending::finish_told;
use command_ends::{Ended, Status};
use command_options::Topic;
use refusal_text::Refusal;
use std::process::ExitCode;
use system_errors::reason_of;

const HELP: &str = "\
Usage: apiaggd COMMAND [OPTION]..
       apiaggd COMMAND --help
       apiaggd --help | --version

A front door for a Kubernetes API server: it routes requests to aggregated
APIs, and writes audit events.

Commands:
  explain    prints the audit events that requests cause
  check      says whether a log of audit events conforms to a policy
  serve      serves a cluster API, and writes its audit events
  ship       posts the lines of an audit log to a webhook
  resources  asks servers for their resources, and prints one document
  probe      asks services whether they answer, and tells a front door
  rehearse   serves requests in memory by threads, and sums them up

Options:
  -h, --help  prints this help, or after COMMAND that of the command;
              'apiaggd help' and 'apiaggd help COMMAND' do the same
  --version   prints the version

Exit status:
  0  all that was asked for was done
  2  the command line is invalid
  3  an option is out of its range, or a file is invalid
  4  a file or the input could not be read
  5  a socket or a sink could not be opened, or a listener failed
  6  memory ran out
  7  the output could not be written
  8  there are more than 2^48 requests or lines
  9  a request is malformed, too large or cut short
  10 a line of a log does not conform to its policy, or can't be shipped
  11 lines of a log were lost, or a front door has not taken what it was told
  12 no list of resources is fresh

With a status other than 0 one line on standard error names the status, and a
second one says what was refused, and why.
";

const EXPLAIN_HELP: &str = r#"Usage: apiaggd explain [OPTION].. < REQUESTS

Prints the audit events that requests to a Kubernetes API server cause, or
where the requests go. Reads HTTP/1.1 requests from standard input and writes
one line of JSON for each event to standard output.

Options are written --NAME=VALUE or --NAME VALUE.

Files, each of at most 16777216 bytes:
  --token-auth-file=FILE     known bearer tokens, as CSV (default: none)
  --audit-policy-file=FILE   audit policy, as JSON
                             (default: every request at level Metadata)
  --apiservices=FILE         APIService objects, as JSON: one, or a list of at
                             most 1024 (default: none)
  --endpoints=FILE           where services are reached, as CSV: the key
                             NAMESPACE/NAME:PORT, or local for APIs without a
                             service, or others for paths that nothing else
                             serves, and A.B.C.D:PORT (default: none)

Output:
  --max-event-size=BYTES     most bytes of an event's line: 256 to 4194304
                             (default: 1048576)
  --moment=MICROSECONDS      time of every event, since 1970: 0 to
                             253370764799999999 (default: 0)
  --routes                   one line for each request takes the place of its
                             events: its number, and backend with the address,
                             or local or refused with the status

  -h, --help                 prints this help

Examples, with the files of the folder examples. The first one prints two
lines, which are folded here:
  apiaggd explain < examples/list-pods.http
    {"kind":"Event","apiVersion":"audit.k8s.io/v1","level":"Metadata",
     "auditID":"00000000-0000-0000-0000-000000000000",
     "stage":"RequestReceived","requestURI":"/api/v1/namespaces/a/pods",
     "verb":"list","user":{"username":"system:anonymous", ..}, ..}
    {"kind":"Event", .., "stage":"ResponseComplete", ..,
     "responseStatus":{"metadata":{},"code":404}, ..}

  apiaggd explain --token-auth-file=examples/tokens.csv \
      --audit-policy-file=examples/audit-policy.json < examples/requests.http
"#;

const CHECK_HELP: &str = r#"Usage: apiaggd check [OPTION].. < LOG

Reads a log of audit events from standard input, as 'serve' and 'explain' write
it, and says whether it conforms to an audit policy: whether each line is
spelled as a server writes it, agrees with its request and with the policy, and
comes after earlier stages of that request. Lines that were taken out are not
found, nor is a line that was made up and conforms. Of a log that was rotated
all files are read in their order, as by cat. Of a log that still grows, or that
was cut within a line, all whole lines are read: the rest is told as cut, with
the number of the last good line.

Where all lines conform it prints 'events N'. Else it prints 'line N REASON'
for the first one that doesn't, and ends with status 10. The REASON is
  form     it is not the text of an event, byte for byte, or it was cut
  place    its object reference, status or bodies are not those of its request
  level    the policy records such a request at another level, or omits that
           stage of it
  stage    the same request had that stage before, or a later one

Options are written --NAME=VALUE or --NAME VALUE.

  --audit-policy-file=FILE   audit policy, as JSON, of at most 16777216 bytes
                             (default: every request at level Metadata)
  --summary                  below 'events N', a table for people: how many
                             lines and requests, and the requests by level,
                             verb, status, user and resource, at most ten rows
                             each. It is no part of what is proved of check
  --all                      goes on behind the first line that doesn't conform,
                             and lists up to 100 such lines

  -h, --help                 prints this help

Examples:
  apiaggd explain < examples/list-pods.http | apiaggd check
    events 2
  cat audit.log.1 audit.log | apiaggd check --summary
"#;

pub const VERSION: &str = "apiaggd 0.1.0\n";

const SERVE_HELP: &str = "\
Usage: apiaggd serve [OPTION]..

Answers requests to a Kubernetes API server, or sends them on to the backends
that APIServices name, and writes their audit events.

Options are written --NAME=VALUE or --NAME VALUE.

Files, each of at most 16777216 bytes:
  --token-auth-file=FILE     known bearer tokens, as CSV (default: none)
  --audit-policy-file=FILE   audit policy, as JSON
                             (default: every request at level Metadata)
  --apiservices=FILE         APIService objects, as JSON: one, or a list of at
                             most 1024 (default: none)
  --endpoints=FILE           where services are reached, as CSV: the key
                             NAMESPACE/NAME:PORT, or local for APIs without a
                             service, or others for paths that nothing else
                             serves, and A.B.C.D:PORT (default: none)

Listening:
  --listen=A.B.C.D:PORT      where connections are accepted; localhost:PORT
                             too (default: 127.0.0.1:8001)
  --bays=N                   connections served at once, of which a watch takes
                             one as long as it lasts: 1 to 1024 (default: 64)
  --reuse-port               other processes may listen at the same address,
                             where each of them has this option

Audit events go to a log, to a webhook, or to both:
  --audit-log-path=PATH      log of events, - for standard output
                             (default: no log)
  --audit-log-mode=MODE      how events go to the log (default: blocking)
  --audit-webhook-url=URL    webhook of events, over http to an IPv4 address or
                             localhost (default: no webhook)
  --audit-webhook-mode=MODE  how events go to the webhook (default: batch)
  --max-event-size=BYTES     most bytes of an event's line: 256 to 4194304
                             (default: 1048576)
  A MODE is
    blocking                 an event is written before its request goes on
    blocking-strict          the same, and a request whose arrival can't be
                             written is answered 500
    batch                    events wait in a buffer, and are written in batches

Batches, of the sinks in mode batch:
  --batch-buffer=N           most lines that wait for a sink: 1 to 100000; a
                             line that finds it full is lost (default: 10000)
  --batch-max-size=N         most lines of a batch: 1 to 10000 (default: 400)
  --batch-max-wait-ms=N      milliseconds that a batch waits for more lines: 0
                             to 3600000 (default: 30000)
  --max-batch-size=BYTES     most bytes of a batch: 256 to 67108864
                             (default: 10485760)

Timeouts, in milliseconds:
  --idle-timeout=N           how long a connection may be idle: 1 to 3600000
                             (default: 60000)
  --read-header-timeout=N    how long a request's head may take: 1 to 3600000
                             (default: 10000)
  --min-rate=N               bytes a second that a peer has to move, 0 for no
                             floor: 0 to 1000000 (default: 8192)
  --stall-timeout=N          how long a peer may move nothing: 1 to 3600000
                             (default: 30000)
  --dial-timeout=N           how long a connection to a backend may take to
                             open: 1 to 3600000 (default: 5000)
  --response-header-timeout=N
                             how long a reply's head may take: 1 to 3600000
                             (default: 60000)

Counts:
  --metrics-path=FILE        file that counts are written to, in the text format
                             of Prometheus (default: none)

End:
  --exit-on-stdin-eof        an end of standard input ends the run
  --connections=N            connections after which each bay ends, 0 for no
                             end (default: 0)
  --shutdown-timeout=N       milliseconds that requests in progress may go on
                             once the run ends: 0 to 3600000 (default: 20000)

  -h, --help                 prints this help
";

const SHIP_HELP: &str = "\
Usage: apiaggd ship [OPTION].. < LOG

Posts the lines of an audit log to a webhook, in batches and in their order, as
'serve' does in mode batch. A batch whose post fails is posted again after a
wait, and its lines are lost where the last try fails. No more is posted than a
throttle allows. Reads the lines from standard input.

At the end of the log it prints how many lines were read, posted and lost, and
how many posts there were, and ends with status 0 where no line was lost, and
else with status 11. At a line that is not a JSON text, has more than 4194304
bytes or no line feed it ends with status 10, once the lines before it are
shipped.

Options are written --NAME=VALUE or --NAME VALUE.

  --audit-webhook-url=URL    webhook of events, over http to an IPv4 address or
                             localhost. It must be given
  --batch-max-size=N         most lines of a batch: 1 to 10000 (default: 400)
  --max-batch-size=BYTES     most bytes of a batch: 256 to 67108864
                             (default: 10485760)
  --tries=N                  most posts of a batch: 1 to 10 (default: 3)
  --rate=N                   posts a second: 1 to 1000 (default: 10)
  --burst=N                  posts at once: 1 to 1000 (default: 15)
  --retry-wait-ms=N          milliseconds that the second try of a batch waits: 1 to
                             30000; the next waits are doubled, up to 30000
                             (default: 1000)
  --from-line=N              number of the first line that is shipped; those
                             before it are read past: 1 to 281474976710656
                             (default: 1)

  -h, --help                 prints this help

Example:
  apiaggd ship --audit-webhook-url=http://127.0.0.1:9400/audit < audit.log
    lines 2000
    posted 2000
    lost 0
    posts 5
";

const RESOURCES_HELP: &str = "\
Usage: apiaggd resources [OPTION]..

Asks the server of each group version for its list of resources, one after
another, and prints one document: a line of JSON for each group version, in the
order of discovery. A list is fresh where the server answered it in this run,
stale where an earlier document has it, and missing where neither does.

An unavailable APIService, or one without an address, is not asked. A server
that does not answer such a list in time is no fault of the run, which ends with
status 0 where some list is fresh, and with status 12 where none is.

Options are written --NAME=VALUE or --NAME VALUE.

  --apiservices=FILE         APIServiceList (default: none)
  --endpoints=FILE           addresses of services, and of the local server
                             (default: none)
  --previous=FILE            earlier document, as a run printed it
                             (default: none)
  --request-timeout-ms=N     milliseconds that one request may take in all: 1 to
                             600000 (default: 10000)

  -h, --help                 prints this help

Example:
  apiaggd resources --apiservices=apiservices.json --endpoints=endpoints.csv
    {\"groupVersion\":\"v1\",\"state\":\"fresh\",\"resources\":[..]}
    {\"groupVersion\":\"apps/v1\",\"state\":\"missing\",\"resources\":[]}
";

const PROBE_HELP: &str = "\
Usage: apiaggd probe [OPTION]..

Asks the services of APIServices whether they answer, and tells a front door of
each that is available now, or isn't any more: it changes the condition
Available of that APIService, as any client may.

In each round each service is asked, at its endpoint, for the resources of its
API. A status of 200 to 299 is good; any other answer is bad, and so is none, or
a service without an endpoint. Where the last probes were all good, or all bad,
and the condition is another one, the front door is told, and a line is printed:
  ROUND NAME up|down STATUS
with the status of the front door's answer, or none. It has taken what it was
told where that is 200. After any other answer it is told again in the next
round. At the end the status is 11 where some APIService's last answer was
another one, and else 0. It is 12 where the front door's list of APIServices
was asked for and not had; no line is printed then.

Options are written --NAME=VALUE or --NAME VALUE.

Files, each of at most 16777216 bytes:
  --apiservices=FILE   APIService objects, as JSON: one, or a list of at most
                       1024 (default: those that the front door lists)
  --endpoints=FILE     where services are reached, as CSV: the key
                       NAMESPACE/NAME:PORT, and A.B.C.D:PORT (default: none)

Front door:
  --front=ADDRESS      where it listens: A.B.C.D:PORT or localhost:PORT
                       (default: 127.0.0.1:8001)
  --token=TOKEN        bearer token of a user in the group system:masters, of the
                       characters '!' to '~' (default: none)
  --token-file=FILE    file with that token, --token-file=- for standard input;
                       not beside --token (default: none)

Probes:
  --every=SECONDS      time from the beginning of a round to that of the next
                       one: 1 to 86400. Rounds go on until standard input ends,
                       or for --rounds (default: no time between rounds)
  --rounds=N           how often each service is asked: 1 to 1000000 (default:
                       the number of --threshold, with --every 1000000)
  --threshold=N        how many probes one after another change a condition:
                       1 to 10 (default: 3)
  --request-timeout-ms=N
                       milliseconds that one request may take in all: 1 to
                       600000 (default: 10000)

  -h, --help           prints this help

Example:
  apiaggd probe --apiservices=apiservices.json --endpoints=endpoints.csv \\
      --token=admin --rounds=3 --threshold=2
    2 v1.g down 200
";

const REHEARSE_HELP: &str = "\
Usage: apiaggd rehearse START COUNT

Serves COUNT requests by four bays in threads, whose clients, delegate and
webhook are in memory, and compares all that they did with what was planned.
Prints how many requests were recorded at each level, how many events there
were of each stage, and how many requests were answered each status.

  START       the kind of the first request; the eight kinds follow one another
  COUNT       how many requests: 1 to 20000

  -h, --help  prints this help

Example:
  apiaggd rehearse 1 20000
";

/// A page of help.
pub fn help_on(topic: Topic) -> &'static str {
    match topic {
        Topic::Program => HELP,
        Topic::Explain => EXPLAIN_HELP,
        Topic::Check => CHECK_HELP,
        Topic::Serve => SERVE_HELP,
        Topic::Ship => SHIP_HELP,
        Topic::Resources => RESOURCES_HELP,
        Topic::Probe => PROBE_HELP,
        Topic::Rehearse => REHEARSE_HELP,
    }
}

/// Prints a text, and gives the status of the program.
pub fn print_text(rt: &HostRuntime, text: &str) -> ExitCode {
    match print!(rt; "{text}") {
        Ok(()) => ExitCode::from(0),
        Err(error) => {
            let ended = Ended::of(Status::WriteFault, Some(Refusal::Output));
            finish_told(rt, &[], &ended, Some(reason_of(&error)))
        }
    }
}
