//! What operators ask for.

/// The pages that operators are shown by HTTP.
#[derive(Clone, Copy, Debug, PartialEq, Eq)]
pub enum Page {
    /// The figures, for people in a browser: at `/`.
    Overview,
    /// The figures, as metrics of Prometheus: at `/metrics`.
    Metrics,
    /// That the program serves: at `/healthz`.
    Health,
}

/// Why a request of HTTP is refused.
#[derive(Clone, Copy, Debug, PartialEq, Eq)]
pub enum Refusal {
    /// 400: it is no request of HTTP/1.0 or 1.1, has more fields than are read, or lacks the one field `Host` that it must
    /// have.
    BadRequest,
    /// 404: there is no such page.
    NotFound,
    /// 405: its method is not `GET`.
    NotAllowed,
    /// 405: its method is `HEAD`, so that the answer has no body.
    NoBody,
    /// 421: its `Host` is none of the program's.
    Misdirected,
    /// 431: its head has more bytes than are kept.
    TooLarge,
}

/// What a line, or a request of HTTP, asks for.
#[derive(Clone, Copy, Debug, PartialEq, Eq)]
pub enum AdminRequest {
    /// The figures, as memcached's statistics.
    Stats,
    /// The settings.
    Settings,
    /// The connected clients.
    Conns,
    /// Statistics that do not exist here.
    Nothing,
    /// The version of the protocol.
    Version,
    /// That the connection is closed.
    Quit,
    /// An unknown command.
    Unknown,
    /// The line has more bytes than are kept.
    TooLong,
    /// A page.
    Shown(Page),
    /// A refusal.
    Refused(Refusal),
}
