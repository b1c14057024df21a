//! The figures of a server, for operators.
ghost use Rattle.std.specs.Prelude.{◌≡◌, codes, decimal, map};
ghost use Rattle.mc_serverd.specs.Settings.{cas_from_word, settings_shown, shown, store_word};

use crate::cas_from::CasFrom;
use crate::kinds::StoreKind;
use crate::settings::{Service, Settings};
use crate::store_stats::StoreStats;
use mc_admin::{Setting, Sheet, Value, push_client_figures, push_store_figures};
use mc_net::{Listed, Operators, Report, process_number, resident_memory};
use mc_server::MAX_CONNECTIONS;
use mc_text::VALUE_LIMIT;
use std::alloc::{AllocError, Global};
use std::fs::Files;

/// Serves operators: what a server has done for its clients, by the list of clients if an operator asked for it, what its store has
/// done, and its settings. Operators for whom there is no memory are turned away.
pub fn show<R: Files>(
    rt: &R,
    alloc: Global,
    operators: &mut Operators,
    listed: &Option<Listed>,
    done: &Report,
    counts: &StoreStats,
    settings: &Settings,
    moment: u64,
) {
    let shown = try_show(rt, alloc, operators, listed, done, counts, settings, moment);
    if shown.is_err() {
        operators.turn_away();
    }
}

/// Serves operators as [`show`] does, and returns whether there was memory.
fn try_show<R: Files>(
    rt: &R,
    alloc: Global,
    operators: &mut Operators,
    listed: &Option<Listed>,
    done: &Report,
    counts: &StoreStats,
    settings: &Settings,
    moment: u64,
) -> Result<(), AllocError> {
    let resident = resident_memory(rt);
    let clients = done.figures(process_number(), moment, resident, MAX_CONNECTIONS);
    let store = counts.figures(settings.budget, settings.items);
    let mut figures = Vec::new(alloc);
    push_client_figures(&clients, &mut figures)?;
    push_store_figures(&store, &mut figures)?;
    let settings = settings_of(settings);
    operators.serve(&Sheet {
        figures: figures.as_slice(),
        settings: &settings,
        part: listed.as_ref().map(|listed| listed.part()),
    });
    Ok(())
}

/// Returns the settings, by memcached's names if it has them.
#[tactic(auto, unfolding(crate::specs::Settings::settings_shown))]
fn settings_of(settings: &Settings) -> [Setting<'static>; 15]
    ensures { map shown result ≡ settings_shown settings.now }
{
    let Service {
        terms,
        answer,
        buffers,
        memory_exit,
        reserve,
    } = settings.service;
    [
        number(b"maxbytes", settings.budget),
        number(b"maxconns", MAX_CONNECTIONS as u64),
        number(b"num_threads", 1),
        number(b"item_size_max", VALUE_LIMIT as u64),
        word(b"evictions", b"on"),
        word(b"cas_enabled", b"yes"),
        number(b"idle_timeout", terms.idle),
        number(b"items", settings.items as u64),
        word(b"store", store_word(settings.kind)),
        cas_from_setting(settings.cas_from),
        number(b"answer", answer as u64),
        number(b"buffers", buffers),
        number(b"report", terms.report),
        number(b"memory_exit", memory_exit),
        number(b"reserve", reserve as u64),
    ]
}

/// Returns the name of a kind of stores.
fn store_word(kind: StoreKind) -> &'static [u8]
    ensures { result.now ≡ store_word kind }
{
    match kind {
        StoreKind::Table => b"table",
        StoreKind::Lru => b"lru",
    }
}

/// Returns the setting of `--cas-from`, as its operator stated it.
fn cas_from_setting(cas_from: CasFrom) -> Setting<'static>
    ensures { shown result ≡ (codes "cas_from", cas_from_word cas_from) }
{
    match cas_from {
        CasFrom::Last(last) => number(b"cas_from", last),
        CasFrom::Now => word(b"cas_from", b"now"),
    }
}

/// Returns a number under its name.
fn number(name: &'static [u8], number: u64) -> Setting<'static>
    ensures { shown result ≡ (name.entry.now, decimal number) }
{
    Setting {
        name,
        value: Value::Number(number),
    }
}

/// Returns a word under its name.
fn word(name: &'static [u8], word: &'static [u8]) -> Setting<'static>
    ensures { shown result ≡ (name.entry.now, word.entry.now) }
{
    Setting {
        name,
        value: Value::Word(word),
    }
}
