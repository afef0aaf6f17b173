use front_base::Bytes;

/// What came of asking a server for a list: its array, or why there is none.
#[derive(Debug, Drop)]
pub enum Listing {
    /// A JSON array without white space.
    Listed(Bytes),
    /// The APIService isn't available, or nothing says where its server is reached: nobody was asked.
    NotAsked,
    /// No link was opened.
    NotDialed,
    /// A read or a write of the link failed.
    LinkFault,
    /// No whole reply came.
    NoReply,
    /// The reply's status, another one than 200.
    OtherStatus(u16),
    /// The reply's body has more than `MOST_LIST_BYTES` bytes.
    TooLong,
    /// The reply's body isn't the list of the group version (Kubernetes, `meta/v1`: APIResourceList).
    NoList,
}
