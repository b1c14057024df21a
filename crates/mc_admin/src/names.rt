//! The names of figures.
ghost use Rattle.std.specs.Prelude.{◌≡◌};
ghost use Rattle.mc_admin.specs.Names.{stat_name, metric_name, labels_of, kind_of, help_of};

/// The name of a figure.
#[derive(Clone, Copy, Debug, PartialEq, Eq)]
pub enum Name {
    /// Whether the program answers: 1.
    Up,
    /// The version of the protocol, as the command `version` answers it.
    Version,
    /// Seconds since the start.
    Uptime,
    /// Seconds since 1970.
    Time,
    /// The number of the process.
    Pid,
    /// Threads that serve.
    Threads,
    /// Clients that are connected.
    CurrConnections,
    /// The most clients at a time.
    MaxConnections,
    /// Clients that were accepted since the start.
    TotalConnections,
    /// Clients that were closed as they connected: for lack of a place or of memory, or as strangers.
    RejectedConnections,
    /// Requests and faulty lines that were taken.
    Requests,
    /// Bytes from clients.
    BytesRead,
    /// Bytes to clients.
    BytesWritten,
    /// Bytes that are kept for clients, items not among them.
    Buffered,
    /// The memory of the process, in bytes.
    Resident,
    /// Keys of retrievals.
    CmdGet,
    /// Keys of retrievals with a stored item.
    GetHits,
    /// Keys of retrievals without a stored item.
    GetMisses,
    /// Values that were stored, by any command.
    CmdSet,
    /// Items that are stored, expired ones among them.
    CurrItems,
    /// Values that were stored, by any command.
    TotalItems,
    /// What the stored items cost, in bytes of the budget.
    Bytes,
    /// The budget, in bytes.
    LimitMaxbytes,
    /// The most items.
    LimitItems,
    /// Items that were evicted to make room.
    Evictions,
    /// Expired items that were removed or replaced.
    Expired,
    /// How often the system gave no memory for a request.
    NoMemory,
    /// Requests of a proxy's clients that lost a command, and whose answers do not say so: they are misses, or silent.
    Missed,
    /// Whether a proxy's connection to a server is up: 1 or 0.
    ServerUp,
    /// How often the connection to a server was lost.
    ServerLosses,
    /// Commands that were sent on the connection to a server.
    ServerSent,
    /// Commands of these that had no reply when the connection was lost.
    ServerLost,
    /// Commands of these that have no reply yet.
    ServerWaiting,
}

impl Name {
    /// Returns its name among the statistics.
    #[tactic(auto, unfolding(crate::specs::Names::stat_name))]
    pub fn stat(self) -> &'static [u8]
        ensures { result.now ≡ stat_name self }
    {
        match self {
            Name::Up => b"up",
            Name::Version => b"version",
            Name::Uptime => b"uptime",
            Name::Time => b"time",
            Name::Pid => b"pid",
            Name::Threads => b"threads",
            Name::CurrConnections => b"curr_connections",
            Name::MaxConnections => b"max_connections",
            Name::TotalConnections => b"total_connections",
            Name::RejectedConnections => b"rejected_connections",
            Name::Requests => b"requests",
            Name::BytesRead => b"bytes_read",
            Name::BytesWritten => b"bytes_written",
            Name::Buffered => b"buffered_bytes",
            Name::Resident => b"resident_bytes",
            Name::CmdGet => b"cmd_get",
            Name::GetHits => b"get_hits",
            Name::GetMisses => b"get_misses",
            Name::CmdSet => b"cmd_set",
            Name::CurrItems => b"curr_items",
            Name::TotalItems => b"total_items",
            Name::Bytes => b"bytes",
            Name::LimitMaxbytes => b"limit_maxbytes",
            Name::LimitItems => b"limit_items",
            Name::Evictions => b"evictions",
            Name::Expired => b"expired",
            Name::NoMemory => b"no_memory",
            Name::Missed => b"missed",
            Name::ServerUp => b"up",
            Name::ServerLosses => b"losses",
            Name::ServerSent => b"sent",
            Name::ServerLost => b"lost",
            Name::ServerWaiting => b"waiting",
        }
    }

    /// Returns its metric.
    #[tactic(auto, unfolding(crate::specs::Names::metric_name))]
    pub fn metric(self) -> &'static [u8]
        ensures { result.now ≡ metric_name self }
    {
        match self {
            Name::Up => b"memcached_up",
            Name::Version => b"memcached_version",
            Name::Uptime => b"memcached_uptime_seconds",
            Name::Time => b"memcached_time_seconds",
            Name::Pid => b"wiersbol_process_id",
            Name::Threads => b"wiersbol_threads",
            Name::CurrConnections => b"memcached_current_connections",
            Name::MaxConnections => b"memcached_max_connections",
            Name::TotalConnections => b"memcached_connections_total",
            Name::RejectedConnections => b"memcached_connections_rejected_total",
            Name::Requests => b"wiersbol_requests_total",
            Name::BytesRead => b"memcached_read_bytes_total",
            Name::BytesWritten => b"memcached_written_bytes_total",
            Name::Buffered => b"wiersbol_buffered_bytes",
            Name::Resident => b"process_resident_memory_bytes",
            Name::CmdGet => b"wiersbol_retrievals_total",
            Name::GetHits => b"memcached_commands_total",
            Name::GetMisses => b"memcached_commands_total",
            Name::CmdSet => b"memcached_commands_total",
            Name::CurrItems => b"memcached_current_items",
            Name::TotalItems => b"memcached_items_total",
            Name::Bytes => b"memcached_current_bytes",
            Name::LimitMaxbytes => b"memcached_limit_bytes",
            Name::LimitItems => b"wiersbol_limit_items",
            Name::Evictions => b"memcached_items_evicted_total",
            Name::Expired => b"wiersbol_items_expired_total",
            Name::NoMemory => b"wiersbol_memory_refused_total",
            Name::Missed => b"wiersbol_requests_missed_total",
            Name::ServerUp => b"wiersbol_server_up",
            Name::ServerLosses => b"wiersbol_server_losses_total",
            Name::ServerSent => b"wiersbol_server_sent_total",
            Name::ServerLost => b"wiersbol_server_lost_total",
            Name::ServerWaiting => b"wiersbol_server_waiting",
        }
    }

    /// Returns the labels of its sample; none if its metric has one sample.
    #[tactic(auto, unfolding(crate::specs::Names::labels_of))]
    pub fn labels(self) -> &'static [u8]
        ensures { result.now ≡ labels_of self }
    {
        match self {
            Name::Version => b"{version=\"1.6.0\"}",
            Name::GetHits => b"{command=\"get\",status=\"hit\"}",
            Name::GetMisses => b"{command=\"get\",status=\"miss\"}",
            Name::CmdSet => b"{command=\"set\",status=\"hit\"}",
            _ => b"",
        }
    }

    /// Returns the type of its metric: `counter` if it counts since the start, or `gauge`.
    #[tactic(auto, unfolding(crate::specs::Names::kind_of))]
    pub fn kind(self) -> &'static [u8]
        ensures { result.now ≡ kind_of self }
    {
        match self {
            Name::Up => b"gauge",
            Name::Version => b"gauge",
            Name::Uptime => b"gauge",
            Name::Time => b"gauge",
            Name::Pid => b"gauge",
            Name::Threads => b"gauge",
            Name::CurrConnections => b"gauge",
            Name::MaxConnections => b"gauge",
            Name::Buffered => b"gauge",
            Name::Resident => b"gauge",
            Name::CurrItems => b"gauge",
            Name::Bytes => b"gauge",
            Name::LimitMaxbytes => b"gauge",
            Name::LimitItems => b"gauge",
            Name::ServerUp => b"gauge",
            Name::ServerWaiting => b"gauge",
            _ => b"counter",
        }
    }

    /// Returns its metric's meaning in words.
    #[tactic(auto, unfolding(crate::specs::Names::help_of))]
    pub fn help(self) -> &'static [u8]
        ensures { result.now ≡ help_of self }
    {
        match self {
            Name::Up => b"Whether it answers.",
            Name::Version => b"The version of the protocol.",
            Name::Uptime => b"Seconds since the start.",
            Name::Time => b"Seconds since 1970.",
            Name::Pid => b"The number of the process.",
            Name::Threads => b"Threads that serve.",
            Name::CurrConnections => b"Clients that are connected.",
            Name::MaxConnections => b"The most clients at a time.",
            Name::TotalConnections => b"Clients that were accepted.",
            Name::RejectedConnections => b"Clients that were closed as they came.",
            Name::Requests => b"Requests and faulty lines that were taken.",
            Name::BytesRead => b"Bytes from clients.",
            Name::BytesWritten => b"Bytes to clients.",
            Name::Buffered => b"Bytes that are kept for clients, items not among them.",
            Name::Resident => b"The memory of the process, in bytes.",
            Name::CmdGet => b"Keys of retrievals.",
            Name::GetHits => b"Keys of retrievals, by outcome, and values that were stored.",
            Name::GetMisses => b"Keys of retrievals, by outcome, and values that were stored.",
            Name::CmdSet => b"Keys of retrievals, by outcome, and values that were stored.",
            Name::CurrItems => b"Items that are stored.",
            Name::TotalItems => b"Values that were stored.",
            Name::Bytes => b"What the stored items cost, in bytes of the budget.",
            Name::LimitMaxbytes => b"What items may cost in all, in bytes.",
            Name::LimitItems => b"The most items.",
            Name::Evictions => b"Items that went to make room.",
            Name::Expired => b"Expired items that were taken out or replaced.",
            Name::NoMemory => b"Times that the system gave no memory for a request.",
            Name::Missed => b"Requests that lost a command, and whose answers do not say so.",
            Name::ServerUp => b"Whether the server is connected, and is not silent after a loss.",
            Name::ServerLosses => b"How often the connection to the server was lost.",
            Name::ServerSent => b"Commands that were put on the connection to the server.",
            Name::ServerLost => b"Commands that had no reply when the connection was lost.",
            Name::ServerWaiting => b"Commands that have no reply yet.",
        }
    }
}
