//! A proxy of a pool restarts.
ghost use Rattle.std.specs.Prelude.{◌≡◌, ◌⊎◌, ◌↔◌, ◌≤◌, length, IfErr, IfOk, IsErrOf, OnErr, OnOk};

use crate::errors::{Step, WorldError};
use crate::events::Event;
use crate::worlds::World;
use mc_store::Store;

impl<S: Store + Drop> World<S> {
    ghost use Rattle.mc_world.specs.CourseHolds.{CourseHolds};
    ghost use Rattle.mc_world.specs.Courses.{CourseServes};
    ghost use Rattle.mc_world.specs.ProxyRestarts.{HasNoClient, IsAnew, ProxyDies, Stands};
    ghost use Rattle.mc_world.specs.Steps.{GivesAccount, StepsTo};
    ghost use Rattle.mc_world.specs.Worlds.{cache_of};
    ghost use Rattle.mc_world.specs.declared.events.Event.TheVariants.{ClientGone, LinkLost};

    /// A proxy dies and begins anew: each of its clients goes, and each of its links that is up is lost. What was emitted to each client stands,
    /// and what each server executed. Its clients do not come back, and it has none from then on: later clients are those of another proxy of the
    /// world. Its links come back by [`Event::LinkBack`].
    ///
    /// The error is `NoProxy` if no proxy has this number: nothing has changed. At `Memory` some of these events were done: the world
    /// gives account, and the call can be made again.
    pub fn restart_proxy(&mut self, proxy: usize) -> Result<(), WorldError>
        ensures dies { ProxyDies proxy self.old.course self.new.course }
        ensures anew { OnOk result (IsAnew proxy self.new.course.pool) }
        ensures stands { Stands self.old.course self.new.course }
        ensures opened { (self.new.opening ≡ self.old.opening) × (self.new.budget ≡ self.old.budget) × (self.new.items ≡ self.old.items) × (self.new.losses ≡ self.old.losses) }
        ensures account { GivesAccount self.new }
        ensures no_proxy { IsErrOf result WorldError.NoProxy ↔ (length self.old.course.pool.proxies ≤ proxy) }
        ensures unknown { IsErrOf result WorldError.NoProxy → self.new ≡ self.old }
        ensures only { IfErr result (λ e. (e ≡ WorldError.NoProxy) ⊎ (e ≡ WorldError.Memory)) }
    {
        self.holds();
        self.end_proxy(proxy)
    }

    /// A proxy dies, if there is one of this number.
    fn end_proxy(&mut self, proxy: usize) -> Result<(), WorldError>
        ensures dies { ProxyDies proxy self.old.course self.new.course }
        ensures anew { OnOk result (IsAnew proxy self.new.course.pool) }
        ensures opened { (self.new.opening ≡ self.old.opening) × (self.new.budget ≡ self.old.budget) × (self.new.items ≡ self.old.items) × (self.new.losses ≡ self.old.losses) }
        ensures account { GivesAccount self.new }
        ensures no_proxy { IsErrOf result WorldError.NoProxy ↔ (length self.old.course.pool.proxies ≤ proxy) }
        ensures unknown { IsErrOf result WorldError.NoProxy → self.new ≡ self.old }
        ensures only { IfErr result (λ e. (e ≡ WorldError.NoProxy) ⊎ (e ≡ WorldError.Memory)) }
    {
        self.gives_account();
        if proxy >= self.course.pool.proxies() {
            return Err(WorldError::NoProxy);
        }
        self.lose_clients(proxy)?;
        self.lose_links(proxy)
    }

    /// Each client of a proxy goes.
    fn lose_clients(&mut self, proxy: usize) -> Result<(), WorldError>
        ensures dies { ProxyDies proxy self.old.course self.new.course }
        ensures gone { OnOk result (HasNoClient proxy self.new.course.pool) }
        ensures homes { self.new.course.pool.homes ≡ self.old.course.pool.homes }
        ensures opened { (self.new.opening ≡ self.old.opening) × (self.new.budget ≡ self.old.budget) × (self.new.items ≡ self.old.items) × (self.new.losses ≡ self.old.losses) }
        ensures account { GivesAccount self.new }
        ensures cause { IfErr result (λ e. e ≡ WorldError.Memory) }
    {
        let clients = self.course.clients.len() as u64;
        for client in 0..clients {
            if self.course.pool.home(client) == proxy {
                self.lose_client(client)?;
            }
        }
        self.gives_account();
        self.serves();
        Ok(())
    }

    /// Each link of a proxy without clients is lost.
    fn lose_links(&mut self, proxy: usize) -> Result<(), WorldError>
        requires gone { HasNoClient proxy self.old.course.pool }
        ensures dies { ProxyDies proxy self.old.course self.new.course }
        ensures anew { OnOk result (IsAnew proxy self.new.course.pool) }
        ensures opened { (self.new.opening ≡ self.old.opening) × (self.new.budget ≡ self.old.budget) × (self.new.items ≡ self.old.items) × (self.new.losses ≡ self.old.losses) }
        ensures account { GivesAccount self.new }
        ensures cause { IfErr result (λ e. e ≡ WorldError.Memory) }
    {
        let servers = self.course.pool.sites.len();
        for server in 0..servers {
            self.lose_link(proxy, server)?;
        }
        self.gives_account();
        self.serves();
        Ok(())
    }

    /// The course of each world holds. The call does nothing: its contract is the law.
    fn holds(&self)
        ensures { CourseHolds self.now.opening (cache_of self.now) self.now.course }
    {
        let _ = self.course.log.len();
    }

    /// The servers of each world serve its proxies. The call does nothing: its contract is the law.
    fn serves(&self)
        ensures { CourseServes self.now.course }
    {
        let _ = self.course.log.len();
    }

    /// A client goes, if it has not gone.
    fn lose_client(&mut self, client: u64) -> Result<Step, WorldError>
        ensures steps { IfOk result (λ step. StepsTo (ClientGone client) step self.old.course self.new.course) }
        ensures opened { (self.new.opening ≡ self.old.opening) × (self.new.budget ≡ self.old.budget) × (self.new.items ≡ self.old.items) × (self.new.losses ≡ self.old.losses) }
        ensures account { GivesAccount self.new }
        ensures err { OnErr result (self.new ≡ self.old) }
        ensures cause { IfErr result (λ e. e ≡ WorldError.Memory) }
    {
        let event = Event::ClientGone { client };
        self.step(&event)
    }

    /// A link is lost, if it is up.
    fn lose_link(&mut self, proxy: usize, server: usize) -> Result<Step, WorldError>
        ensures steps { IfOk result (λ step. StepsTo (LinkLost proxy server) step self.old.course self.new.course) }
        ensures opened { (self.new.opening ≡ self.old.opening) × (self.new.budget ≡ self.old.budget) × (self.new.items ≡ self.old.items) × (self.new.losses ≡ self.old.losses) }
        ensures account { GivesAccount self.new }
        ensures err { OnErr result (self.new ≡ self.old) }
        ensures cause { IfErr result (λ e. e ≡ WorldError.Memory) }
    {
        let event = Event::LinkLost { proxy, server };
        self.step(&event)
    }
}
