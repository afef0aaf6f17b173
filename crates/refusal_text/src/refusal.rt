use command_options::{BadWord, FileNames, Ranged};
use front_base::Text;
use front_config::LoadFault;
use http_edge::End;

/// Why a run ended, where there is more to tell than its status.
#[derive(Debug, Drop)]
pub enum Refusal {
    /// The words are no command line.
    Words(BadWord),
    /// A word isn't UTF-8.
    NotUtf8,
    /// The number of an option is out of its range.
    Limits { option: Ranged, number: u64 },
    /// The text of `--listen` is no address.
    Listen(Text),
    /// The text of `--audit-webhook-url` is no URL that a webhook can have.
    Webhook(Text),
    /// The URL of `--audit-webhook-url` leads to the address of `--listen`.
    OwnWebhook(Text),
    /// The text of `--front` is no address.
    Front(Text),
    /// The text of `--token` can't stand in a header.
    Token,
    /// The file of `--token-file` could not be read.
    UnreadToken(Text),
    /// What the file of `--token-file` holds can't stand in a header.
    BadToken(Text),
    /// The files that these names name weren't loaded.
    Files { names: FileNames, fault: LoadFault },
    /// A request of the input is refused or cut short: its number, and the number of its first byte in the input, both
    /// counted from 1.
    Request { number: u64, byte: u64, end: End },
    /// The input could not be read.
    Input,
    /// The output could not be written.
    Output,
}
