//! What a proxy reports of itself to operators.

use crate::pools::Upstreams;
use crate::settings::ProxySettings;
use mc_admin::{
    ClientFigures, Setting, Sheet, Value, push_client_figures, push_link_figures, push_missed,
};
use mc_net::{Listed, Operators};
use mc_proxy::{Losses, MAX_SESSIONS, Proxy};
use std::alloc::{AllocError, Global};

/// What a proxy has done for its clients.
#[derive(Clone, Copy, Debug)]
pub struct Done {
    /// The clients, and their traffic.
    pub clients: ClientFigures,
    /// Their requests whose answers hide a loss; none if these are not counted.
    pub missed: Option<u64>,
}

/// Answers operators: the next clients to list, what a proxy has done for its clients, the state of its servers, and its settings.
/// Operators for whom there is no memory are turned away.
pub fn show(
    alloc: Global,
    operators: &mut Operators,
    listed: &Option<Listed>,
    done: &Done,
    pool: &Upstreams,
    proxy: &Proxy,
    settings: &ProxySettings,
) {
    let shown = try_show(alloc, operators, listed, done, pool, proxy, settings);
    if shown.is_err() {
        operators.turn_away();
    }
}

/// Answers operators, and returns an error if there is no memory.
fn try_show(
    alloc: Global,
    operators: &mut Operators,
    listed: &Option<Listed>,
    done: &Done,
    pool: &Upstreams,
    proxy: &Proxy,
    settings: &ProxySettings,
) -> Result<(), AllocError> {
    let links = pool.figures(proxy)?;
    let mut figures = Vec::new(alloc);
    push_client_figures(&done.clients, &mut figures)?;
    push_missed(done.missed, &mut figures)?;
    push_link_figures(links.as_slice(), &mut figures)?;
    let settings = settings_of(settings, pool.len());
    operators.serve(&Sheet {
        figures: figures.as_slice(),
        settings: &settings,
        part: listed.as_ref().map(|listed| listed.part()),
    });
    Ok(())
}

/// Returns the settings of a proxy of this number of servers, by memcached's names if it has them.
fn settings_of(settings: &ProxySettings, servers: usize) -> [Setting<'static>; 10] {
    [
        setting(b"maxconns", MAX_SESSIONS as u64),
        setting(b"num_threads", 1),
        setting(b"idle_timeout", settings.terms.idle),
        setting(b"servers", servers as u64),
        setting(b"buffers", settings.buffers),
        setting(b"held", settings.held),
        setting(b"answer", settings.answer),
        setting(b"timeout", settings.timeout),
        Setting {
            name: b"lost",
            value: Value::Word(word_of(settings.losses)),
        },
        setting(b"report", settings.terms.report),
    ]
}

/// Returns the word of `--lost` for a choice.
fn word_of(losses: Losses) -> &'static [u8] {
    match losses {
        Losses::Told => b"told",
        Losses::Missed => b"missed",
    }
}

/// Makes a setting of a number under its name.
fn setting(name: &'static [u8], number: u64) -> Setting<'static> {
    Setting {
        name,
        value: Value::Number(number),
    }
}
