//! A server of a pool restarts.
ghost use Rattle.std.specs.Prelude.{◌≡◌, ◌<◌, [], length};

use crate::pools::Pool;
use crate::sites::Site;
use mc_server::Server;
use mc_store::Store;

impl<S: Store + Drop> Site<S> {
    ghost use Rattle.mc_world.specs.Restarts.{restarted};

    /// Replaces the server by another, which has admitted nobody: what was on the ways of the one before is gone.
    pub(crate) fn restart(&mut self, server: Server<S>)
        requires fresh { server ≡ record { cache = server.cache; connections = []; admitted = 0 } }
        ensures { self.new ≡ restarted server.cache self.old }
    {
        self.server = server;
        self.begun = self.history.len();
        for way in self.ways.iter_mut() {
            way.ahead = 0;
        }
        self.lost.clear();
    }
}

impl<S: Store + Drop> Pool<S> {
    ghost use Rattle.mc_world.specs.Restarts.{ServerDies};

    /// The server of a place dies, and another, which has admitted nobody, takes its place. Each proxy's link to it is lost, if it was up.
    /// Every connection and every lost generation is gone, with its bytes. The call takes no memory.
    pub fn restart(&mut self, place: usize, server: Server<S>)
        requires inside { place < length self.old.sites }
        requires fresh { server ≡ record { cache = server.cache; connections = []; admitted = 0 } }
        ensures { ServerDies place server.cache self.old self.new }
    {
        self.proxies.lose_all(place);
        self.sites[place].restart(server);
    }
}
