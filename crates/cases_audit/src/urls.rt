use std::io;
use webhook_sink::{check_url, read_url};

/// What a webhook makes of a URL. A row is the URL as it stands, without escapes.
pub fn show_url(rt: &HostRuntime, row: &str) -> io::Result<()> {
    let alloc = rt.alloc();
    println!(rt; "  {:?}", check_url(alloc, row))?;
    println!(rt; "  {:?}", read_url(alloc, row))
}
