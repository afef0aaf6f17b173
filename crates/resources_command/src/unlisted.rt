// What is told of a group version that was not listed.
use resource_fetch::Listing;
use std::alloc::{AllocError, Global};

/// The line, with a line feed, that tells why a group version was not listed. `reason` is the system's for a call that failed, if it gave
/// one.
pub fn unlisted_text(
    alloc: Global,
    group_version: &str,
    why: &Listing,
    reason: Option<&str>,
) -> Result<String, AllocError> {
    if let Listing::OtherStatus(status) = why {
        return format!(in alloc; "apiaggd: {group_version}: status {status}\n");
    }
    let why = match why {
        Listing::NotAsked => "not asked: the APIService is not available, or has no endpoint",
        Listing::NotDialed => reason.unwrap_or("no connection"),
        Listing::LinkFault => reason.unwrap_or("the connection failed"),
        Listing::NoReply => reason.unwrap_or("no whole reply of HTTP"),
        Listing::TooLong => "the list is larger than 4 MiB",
        _ => "the reply is not the list of this group version",
    };
    format!(in alloc; "apiaggd: {group_version}: {why}\n")
}
