//! What happens on lost generations of a site, and how a proxy's link to it is lost and comes up again.
ghost use Rattle.std.specs.Prelude.{◌≡◌, ◌+◌, ◌-◌, ◌<◌, ◌^◌, ◌↔◌, true, Some, length, slice_get, IfOk, OnOk, OnErr};

use crate::errors::{Step, WorldError};
use crate::proxies::Proxies;
use crate::sites::Site;
use crate::stale_connections::{StaleConnection, tags_from};
use crate::turning::serve;
use crate::ways::Way;
use mc_server::ServerError;
use mc_store::Store;

impl<S: Store + Drop> Site<S> {
    ghost use Rattle.mc_server.specs.ServerState.{connection_at};
    ghost use Rattle.mc_server.specs.Turns.{waiting_of};
    ghost use Rattle.mc_proxy.specs.SessionState.{link_at};
    ghost use Rattle.mc_proxy.specs.LinkTurns.{lost_at};
    ghost use Rattle.mc_world.specs.Applies.{CanAdmit, lost_way};
    ghost use Rattle.mc_world.specs.Happens.{ArrivesLate, ComesBack, Does, Ends, EntersLate};
    ghost use Rattle.mc_world.specs.Pools.{cut_off};
    ghost use Rattle.mc_world.specs.Serving.{ServesProxy};
    ghost use Rattle.mc_world.specs.WorldState.{StaleState, proxy_in, with_proxy};

    /// The lost generations whose end the server has not seen.
    pub fn lost(&self) -> &[StaleConnection]
        ensures { result.now ≡ self.now.lost }
    {
        self.lost.as_slice()
    }

    /// The index of a lost generation of a proxy among them: the first of this number.
    pub(crate) fn lost_way(&self, proxy: usize, generation: u64) -> Option<usize>
        ensures { result ≡ lost_way proxy generation self.now.lost }
    {
        self.lost.iter().position(|way| way.proxy() == proxy && way.generation() == generation)
    }

    /// Bytes of a lost generation arrive: this number, or all that are on their way.
    pub(crate) fn arrive_late(&mut self, i: usize, count: usize) -> Result<(), WorldError>
        requires { i < length self.old.lost }
        ensures arrives { OnOk result (ArrivesLate i count self.old self.new) }
        ensures err { OnErr result (self.new ≡ self.old) }
    {
        let way = &mut self.lost[i];
        self.server.feed(way.connection(), way.first(count))?;
        way.arrive(count);
        Ok(())
    }

    /// The server takes a request of a lost generation, if a whole one has arrived.
    pub(crate) fn turn_late(&mut self, i: usize, moment: u64) -> Result<Step, WorldError>
        requires inside { i < length self.old.lost }
        requires moment { moment < 2 ^ 63 }
        requires serves { (way : StaleState) → slice_get self.old.lost i ≡ Some way → ServesProxy way.connection self.old.server }
        requires untaken { (way : StaleState) → slice_get self.old.lost i ≡ Some way
            → 0 < length (waiting_of (connection_at self.old.server way.connection)) → 0 < length way.untaken }
        ensures enters { IfOk result (λ step. Does step (EntersLate i moment self.old self.new) (self.new ≡ self.old)) }
        ensures applies { (way : StaleState) → slice_get self.old.lost i ≡ Some way
            → IfOk result (λ step. (step ≡ Step.Done) ↔ (0 < length (waiting_of (connection_at self.old.server way.connection)))) }
        ensures err { OnErr result (self.new ≡ self.old) }
        ensures err_applies { (way : StaleState) → slice_get self.old.lost i ≡ Some way
            → OnErr result (0 < length (waiting_of (connection_at self.old.server way.connection))) }
    {
        let way = &self.lost[i];
        let connection = way.connection();
        let Some(tag) = way.next() else {
            return Ok(Step::Nothing);
        };
        let Step::Done = serve(
            self.alloc,
            &mut self.server,
            &mut self.history,
            connection,
            tag,
            moment,
        )?
        else {
            return Ok(Step::Nothing);
        };
        self.lost[i].taken();
        Ok(Step::Done)
    }

    /// The server sees the end of a lost generation.
    pub(crate) fn end(&mut self, i: usize)
        requires inside { i < length self.old.lost }
        requires serves { (way : StaleState) → slice_get self.old.lost i ≡ Some way → ServesProxy way.connection self.old.server }
        ensures { Ends i self.old self.new }
    {
        self.server.close(self.lost[i].connection()).unwrap();
        self.lost.remove(i);
    }

    /// A proxy's link to the server, which is up, is lost. Its bytes go on their way, and the tags of the commands that the server
    /// has not taken are kept with them.
    pub(crate) fn cut_off(
        &mut self,
        proxies: &mut Proxies,
        proxy: usize,
        place: usize,
    ) -> Result<(), WorldError>
        requires { (link_at (proxy_in proxies.old proxy).links place).up ≡ true }
        ensures cut { OnOk result (self.new ≡ cut_off proxy (link_at (proxy_in proxies.old proxy).links place) self.old) }
        ensures lost { OnOk result (proxies.new ≡ with_proxy proxy (lost_at place (proxy_in proxies.old proxy)) proxies.old) }
        ensures err { OnErr result (self.new ≡ self.old) }
        ensures proxies_err { OnErr result (proxies.new ≡ proxies.old) }
    {
        let way = self.way(proxy);
        self.lost.reserve(1)?;
        let untaken = tags_from(self.alloc, proxies, proxy, place, way.ahead)?;
        let bytes = proxies.lost(proxy, place)?;
        self.lost.push_reserved(StaleConnection::new(
            proxy,
            way.generation,
            way.connection,
            bytes,
            untaken,
        ));
        Ok(())
    }

    /// A proxy's link to the server comes up, as this generation, if the server can admit a connection for it.
    pub(crate) fn come_back(&mut self, proxy: usize, generation: u64) -> Result<Step, WorldError>
        requires inside { proxy < length self.old.ways }
        ensures back { IfOk result (λ step. Does step (ComesBack proxy generation self.old self.new) (self.new ≡ self.old)) }
        ensures applies { IfOk result (λ step. (step ≡ Step.Done) ↔ CanAdmit self.old.server) }
        ensures err { OnErr result (self.new ≡ self.old) }
        ensures err_admits { OnErr result (CanAdmit self.old.server) }
    {
        let connection = match self.server.admit() {
            Ok(connection) => connection,
            Err(ServerError::TooMany) => return Ok(Step::Nothing),
            Err(_) => return Err(WorldError::Memory),
        };
        self.set_way(
            proxy,
            Way {
                generation,
                connection,
                ahead: 0,
            },
        );
        Ok(Step::Done)
    }
}
