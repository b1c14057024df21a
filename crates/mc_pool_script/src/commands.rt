//! The names of a pool script's lines.
ghost use Rattle.std.specs.Prelude.{◌≡◌};
ghost use Rattle.mc_pool_script.specs.Commands.{client_command, way_command, link_command};
ghost use Rattle.mc_pool_script.specs.PoolLines.{command_of};

/// The command that a line's name stands for.
#[derive(Clone, Copy, Debug, PartialEq, Eq)]
pub enum Command {
    /// `bytes`
    Bytes,
    /// `gone`
    Gone,
    /// `turn`
    Turn,
    /// `emit`
    Emit,
    /// `takes`
    Takes,
    /// `toserver`
    ToServer,
    /// `serve`
    Serve,
    /// `toproxy`
    ToProxy,
    /// `reply`
    Reply,
    /// `lost`
    Lost,
    /// `back`
    Back,
    /// `end`
    End,
    /// `join`
    Join,
    /// `restart`
    Restart,
    /// `proxyrestart`
    ProxyRestart,
    /// `drain`
    Drain,
}

/// The command of a name.
pub fn command_of(name: &[u8]) -> Option<Command>
    ensures { result ≡ command_of name.now }
{
    client_command(name).or(way_command(name).or(link_command(name)))
}

#[tactic(auto, unfolding(crate::specs::Commands::client_command))]
fn client_command(name: &[u8]) -> Option<Command>
    ensures { result ≡ client_command name.now }
{
    match name {
        b"bytes" => Some(Command::Bytes),
        b"gone" => Some(Command::Gone),
        b"turn" => Some(Command::Turn),
        b"emit" => Some(Command::Emit),
        b"takes" => Some(Command::Takes),
        _ => None,
    }
}

#[tactic(auto, unfolding(crate::specs::Commands::way_command))]
fn way_command(name: &[u8]) -> Option<Command>
    ensures { result ≡ way_command name.now }
{
    if name == b"toserver".as_slice() {
        Some(Command::ToServer)
    } else if name == b"serve".as_slice() {
        Some(Command::Serve)
    } else if name == b"toproxy".as_slice() {
        Some(Command::ToProxy)
    } else if name == b"reply".as_slice() {
        Some(Command::Reply)
    } else {
        None
    }
}

#[tactic(auto, unfolding(crate::specs::Commands::link_command))]
fn link_command(name: &[u8]) -> Option<Command>
    ensures { result ≡ link_command name.now }
{
    if name == b"lost".as_slice() {
        Some(Command::Lost)
    } else if name == b"back".as_slice() {
        Some(Command::Back)
    } else if name == b"end".as_slice() {
        Some(Command::End)
    } else if name == b"join".as_slice() {
        Some(Command::Join)
    } else if name == b"restart".as_slice() {
        Some(Command::Restart)
    } else if name == b"proxyrestart".as_slice() {
        Some(Command::ProxyRestart)
    } else if name == b"drain".as_slice() {
        Some(Command::Drain)
    } else {
        None
    }
}
