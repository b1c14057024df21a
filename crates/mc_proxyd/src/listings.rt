//! The file that lists the servers of a proxy, while the proxy runs.

use crate::changes::{Change, change_by};
use crate::limits::MAX_CHANGES;
use crate::lists::{Mistake, servers_in, text_of};
use crate::looks::Looks;
use crate::notices::{Notice, tell, tell_address, tell_other};
use crate::pools::Upstreams;
use crate::servers::NamedServer;
use mc_proxy::Proxy;
use mc_ring::{Address, Ring};
use std::alloc::{AllocError, Global};
use std::fs::Files;
use std::mem;

/// The file that lists the servers of a proxy, and the present servers.
#[derive(Drop)]
pub struct Listing<'a> {
    alloc: Global,
    /// Where the file is.
    path: &'a str,
    /// The present servers, by their places.
    servers: Vec<NamedServer>,
    /// What the last look has found, if there was one.
    found: Option<Result<String, Mistake>>,
    looks: Looks,
    /// Whether the last notice was that the list is not taken.
    refused: bool,
}

impl<'a> Listing<'a> {
    /// Makes the state of a file that was not looked at, with the servers of a ring at their addresses.
    pub fn new(
        alloc: Global,
        path: &'a str,
        ring: &Ring,
        addresses: &[Address],
    ) -> Result<Listing<'a>, AllocError> {
        let mut servers = Vec::with_capacity(alloc, ring.servers().len())?;
        for (place, name) in ring.servers().iter().enumerate() {
            let address = addresses.get(place).unwrap_or(name);
            servers.push(NamedServer {
                name: name.clone()?,
                address: address.clone()?,
            })?;
        }
        Ok(Listing {
            alloc,
            path,
            servers,
            found: None,
            looks: Looks::new(),
            refused: false,
        })
    }

    /// Returns when it is looked at next, in milliseconds.
    pub fn due(&self) -> u64 {
        self.looks.due()
    }

    /// Looks at the file if it is time for that, and makes the pool follow what is new in it: new addresses replace old ones, and servers
    /// join. A list with a mistake changes nothing, nor does one that would remove or rename a server. One notice says so, and another that
    /// the list is taken again. The result is whether a link was lost.
    pub fn look<R: Files + Eprint>(
        &mut self,
        rt: &R,
        pool: &mut Upstreams,
        proxy: &mut Proxy,
        now: u64,
    ) -> bool {
        if now < self.looks.due() {
            return false;
        }
        let found = text_of(rt, self.alloc, self.path);
        let same = self.was_found(&found);
        let take = self.looks.note(same, now);
        self.found = Some(found);
        take && self.take(rt, pool, proxy, now)
    }

    /// Returns whether the last look has found the same.
    fn was_found(&self, found: &Result<String, Mistake>) -> bool {
        match (&self.found, found) {
            (Some(Ok(before)), Ok(text)) => before.as_str() == text.as_str(),
            (Some(Err(before)), Err(mistake)) => before == mistake,
            _ => false,
        }
    }

    /// Makes the pool follow what the last look has found. The result is whether a link was lost.
    fn take<R: Eprint>(
        &mut self,
        rt: &R,
        pool: &mut Upstreams,
        proxy: &mut Proxy,
        now: u64,
    ) -> bool {
        let list = match &self.found {
            Some(Ok(text)) => servers_in(self.alloc, text.as_str()),
            Some(Err(mistake)) => Err(*mistake),
            None => return false,
        };
        match list {
            Ok(list) => self.follow(rt, pool, proxy, list.as_slice(), now),
            Err(mistake) => {
                self.refuse(rt, mistake);
                false
            }
        }
    }

    /// Reports that the list is not taken. It is tried again if there was no memory for it.
    fn refuse<R: Eprint>(&mut self, rt: &R, mistake: Mistake) {
        if mistake == Mistake::Memory {
            self.looks.again();
        }
        self.refused = true;
        tell(rt, self.path, Notice::NotTaken(mistake));
    }

    /// Reports that the list is taken, if it was not before.
    fn accept<R: Eprint>(&mut self, rt: &R) {
        if mem::replace(&mut self.refused, false) {
            tell(rt, self.path, Notice::TakenAgain);
        }
    }

    /// Makes the changes of a list, in sequence. The result is whether a link was lost.
    fn follow<R: Eprint>(
        &mut self,
        rt: &R,
        pool: &mut Upstreams,
        proxy: &mut Proxy,
        list: &[NamedServer],
        now: u64,
    ) -> bool {
        let mut lost = false;
        for _ in 0..MAX_CHANGES {
            let done = match change_by(self.servers.as_slice(), list) {
                Change::Nothing => {
                    self.accept(rt);
                    break;
                }
                Change::Missing(place) => {
                    self.keep(rt, list, place);
                    break;
                }
                Change::Moved(place) => self.relocate(rt, pool, proxy, list, place, now),
                Change::Joined(place) => self.join(rt, pool, proxy, list, place),
            };
            match done {
                Ok(was_up) => lost |= was_up,
                Err(mistake) => {
                    self.refuse(rt, mistake);
                    break;
                }
            }
        }
        lost
    }

    /// Reports that the list is not taken, since it lacks the server at a place there.
    fn keep<R: Eprint>(&mut self, rt: &R, list: &[NamedServer], place: usize) {
        self.refused = true;
        if let Some(name) = name_at(self.servers.as_slice(), place) {
            let number = place.saturating_add(1);
            tell_other(rt, self.path, number, name, name_at(list, place));
        }
    }

    /// Takes the new address of the server at a place from a list, and reports it. The result is whether its link was lost by that.
    fn relocate<R: Eprint>(
        &mut self,
        rt: &R,
        pool: &mut Upstreams,
        proxy: &mut Proxy,
        list: &[NamedServer],
        place: usize,
        now: u64,
    ) -> Result<bool, Mistake> {
        let (Some(server), Some(line)) = (self.servers.get_mut(place), list.get(place)) else {
            return Ok(false);
        };
        let address = line.address.clone()?;
        let was_up = pool.relocate(proxy, place, &line.address, now)?;
        server.address = address;
        if let (Ok(name), Ok(address)) = (
            str::from_utf8(server.name.as_bytes()),
            str::from_utf8(server.address.as_bytes()),
        ) {
            tell_address(rt, name, address);
        }
        Ok(was_up)
    }

    /// Makes the list's server at a place join. No link is lost by that, and no client waits for it.
    fn join<R: Eprint>(
        &mut self,
        rt: &R,
        pool: &mut Upstreams,
        proxy: &mut Proxy,
        list: &[NamedServer],
        place: usize,
    ) -> Result<bool, Mistake> {
        let Some(line) = list.get(place) else {
            return Ok(false);
        };
        let server = line.clone()?;
        self.servers.reserve(1)?;
        if pool.join(proxy, &server, false).is_err() {
            return Err(Mistake::Memory);
        }
        if let Ok(name) = str::from_utf8(server.name.as_bytes()) {
            tell(rt, name, Notice::Joined);
        }
        self.servers.push(server)?;
        Ok(false)
    }
}

/// Returns the name of the server at a place, if there is one.
fn name_at(servers: &[NamedServer], place: usize) -> Option<&str> {
    let server = servers.get(place)?;
    str::from_utf8(server.name.as_bytes()).ok()
}
