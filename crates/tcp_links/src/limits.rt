//! How long the program waits for others, in milliseconds.

/// Limits of time for connections.
#[derive(Clone, Copy)]
pub struct Limits {
    /// For the first byte on a client's new connection.
    pub fresh: u64,
    /// For the same, while another connection waits to be read.
    pub fresh_crowded: u64,
    /// For the first byte of a client's next request.
    pub idle: u64,
    /// For the same, while another connection waits to be read. So often that is asked.
    pub idle_crowded: u64,
    /// For each further piece of a request.
    pub piece: u64,
    /// For the same, while another connection waits to be read. So often that is asked.
    pub piece_crowded: u64,
    /// For a whole request, and a millisecond more for each byte of it.
    pub request: u64,
    /// For each piece of an origin's response.
    pub origin: u64,
    /// For a peer to take some bytes of what is written to it.
    pub write: u64,
    /// For a client to take some, while another connection waits to be read.
    pub write_crowded: u64,
    /// For one write of the system. Where it took some bytes and waits for room, it isn't told whether the peer takes any.
    pub write_turn: u64,
    /// For all that an origin sends or a peer takes of one message, and a millisecond more for each byte of it.
    pub whole: u64,
    /// For the same, while another connection waits to be read.
    pub whole_crowded: u64,
    /// For the addresses of an origin's host to answer, in all.
    pub connect: u64,
    /// For all that a client still sends after the last answer to it.
    pub linger: u64,
    /// For the same, while another connection waits to be read. So often that is asked.
    pub linger_crowded: u64,
    /// Before the next try where there is no room for a connection.
    pub pause: u64,
    /// How often that is tried where the system has no memory.
    pub most_pauses: u32,
    /// How many connections of clients are served or wait to be served at once.
    pub most_clients: u64,
}

/// The limits of the program.
///
/// - A browser keeps some 30 connections to a proxy open, and each worker serves one to its end. So one on which
///   nothing comes gives way at once to one that waits; with more, a page of 60 images starves.
/// - Where none waits it is kept half a second longer than crawlers pause (1, 2 or 5 seconds are usual), so that it
///   isn't closed just as the next request is on its way.
/// - The first byte on a new connection may be sent twice or thrice, a second apart and more (RFC 6298).
/// - Half a minute within a message is what a phone may take between two pieces in a tunnel. While a connection waits it
///   is five seconds within a request, so that clients which stop within a head, as many as there are workers, don't stop a server.
/// - A minute for a request and ten minutes for a response, and each a second more for every 1,000 bytes of it, end
///   what trickles, and let a body of 64 MiB pass on any line that carries 1,000 bytes a second. Ten minutes are one
///   while a connection waits, so that streams without an end, as many as there are workers, don't stop a server.
/// - An origin may compute for a minute before its first byte, as most proxies allow.
/// - A peer that takes nothing for half a minute has gone. While a connection waits it is five seconds for a client, so
///   that clients which take nothing, as many as there are workers, don't stop a server. An origin may be busy with what
///   it was sent.
/// - A write that waits for room tells at its end how many bytes the system took at its beginning. So it waits a second
///   at most, and what it took is no sign that the peer took some since.
/// - An origin's addresses share a quarter of a minute, for which a person may wait for a page.
/// - Two seconds after the last answer let it arrive before the connection is reset. While a connection waits it is a tenth of
///   one, so that clients which don't close their end, as many as there are workers, don't stop a server.
/// - Where there is no room, a twentieth of a second lets workers close what they serve.
/// - A process may have 1,024 descriptors, and 256 clients leave as many for origins and for files as are used.
pub const LIMITS: Limits = Limits {
    fresh: 10_000,
    fresh_crowded: 2_000,
    idle: 5_500,
    idle_crowded: 50,
    piece: 30_000,
    piece_crowded: 5_000,
    request: 60_000,
    origin: 60_000,
    write: 30_000,
    write_crowded: 5_000,
    write_turn: 1_000,
    whole: 600_000,
    whole_crowded: 60_000,
    connect: 15_000,
    linger: 2_000,
    linger_crowded: 100,
    pause: 50,
    most_pauses: 100,
    most_clients: 256,
};
