// The command `resources`. Its top call is `resources_command::run_resources`.
use crate::reasons::Reasons;
use client_dial::{ClientDial, LastError};
use command_ends::{Ended, SystemFiles, WriterSink};
use explain_command::finish_told;
use front_base::Text;
use resources_command::{
    EarlierFiles, PreviousRefusal, ResourcesEnded, ResourcesWords, previous_text, read_resources,
    run_resources,
};
use std::net::{Net, TcpStream};
use std::process::ExitCode;
use std::rt;
use warned_files::WarnedFiles;

// What is known of the words before their files are read.
#[derive(Drop)]
struct Given {
    // The name of the earlier document.
    previous: Option<Text>,
    // How long one request may take, in milliseconds.
    request_timeout: u64,
}

// Words that are refused ask for nothing: `run_resources` refuses them before it dials.
fn given_by(host: &HostRuntime, words: &Vec<String>) -> Given {
    match read_resources(host.alloc(), words) {
        Ok(
            ResourcesWords {
                names: _,
                previous,
                request_timeout,
            },
        ) => Given {
            previous,
            request_timeout,
        },
        Err(_) => Given {
            previous: None,
            request_timeout: 0,
        },
    }
}

// Says why the earlier document was refused, if it was.
fn say_refused(host: &HostRuntime, refused: &Option<PreviousRefusal>, reason: Option<&str>) {
    if let Some(refused) = refused {
        if let Ok(text) = previous_text(host.alloc(), refused, reason) {
            let text = text.as_str();
            let _ = eprint!(host; "{text}");
        }
    }
}

/// Asks the servers that the words' files name for their lists of resources, prints one document, says of each list that isn't fresh why,
/// says how it ended, and gives the status of the program. A warning says what nobody reads of the files.
pub fn fetched<R: Net<Stream = TcpStream> + rt::Clock>(
    host: &HostRuntime,
    rt: &R,
    words: &Vec<String>,
) -> ExitCode {
    let Given {
        previous,
        request_timeout,
    } = given_by(host, words);
    let system = WarnedFiles::new(host, words.as_slice(), SystemFiles::new(host));
    let mut files = EarlierFiles::new(host, system, previous);
    let last = LastError::new();
    let mut dial = ClientDial::new(rt, &last, request_timeout);
    let mut out = WriterSink::new(host.stdout());
    let mut notes = Reasons::new(host, &last);
    let ResourcesEnded {
        status,
        why,
        previous,
    } = run_resources(
        host.alloc(),
        words,
        &mut files,
        &mut dial,
        &mut out,
        &mut notes,
    );
    let ended = Ended::of(status, why);
    let reason = ended.reason(files.files().files().reason(), None, out.reason());
    let code = finish_told(host, words.as_slice(), &ended, reason);
    say_refused(host, &previous, files.files().files().reason());
    code
}
