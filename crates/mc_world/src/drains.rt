//! Drains: all that is left to do in a world is done.
ghost use Rattle.std.specs.Prelude.{◌≡◌, ◌<◌, ◌^◌, true, IfErr, IfOk, OnErr, OnOk};

use crate::acts::Act;
use crate::errors::{Step, WorldError};
use crate::worlds::World;
use mc_store::Store;

impl<S: Store + Drop> World<S> {
    ghost use Rattle.mc_world.specs.Acts.{HasDrained, IsIdle, IsOver, IsRested, NoClient, NoLink, NoServer};
    ghost use Rattle.mc_world.specs.Rounds.{Alternates, DrainsInRounds, EachClient, EachLink, EachServer, IsActed, IsRound, Repeats, SeesEnds, Then};
    ghost use Rattle.mc_world.specs.declared.acts.Act.TheVariants.{PutAnswer, ReachProxy, ReachServer, SeeEnd, Serve, TakeBytes, TakeReply, TakeRequest};
    ghost use Rattle.mc_world.specs.Drains.{Drains};
    ghost use Rattle.mc_world.specs.Quiet.{IsQuiet};
    ghost use Rattle.mc_world.specs.Steps.{GivesAccount};

    /// Does all that is left to do, at a moment, until the world is quiet. Then each whole request of each client that has not gone is
    /// answered and taken, and nothing is left on any way. It loses no link, and no link comes up.
    ///
    /// First the servers see the ends of all lost generations: servers in order, and of each in the order in which they were lost. Then it goes
    /// in rounds, until a round does nothing. In a round, for each client in order, its proxy takes every request that it can. On each proxy's
    /// link to each server, both in order, the server gets all bytes and takes every request that it can, in alternation until neither applies;
    /// then the proxy gets all its bytes, and takes all replies. Each client, in order, is sent every answer that is known, and takes all bytes.
    ///
    /// At `Memory` some of these events were done: the world gives account, and can be drained again.
    pub fn drain(&mut self, moment: u64) -> Result<(), WorldError>
        requires moment { moment < 2 ^ 63 }
        ensures drains { Drains moment self.old.course self.new.course }
        ensures rounds { OnOk result (DrainsInRounds moment self.old.course self.new.course) }
        ensures quiet { OnOk result (IsQuiet self.new.course) }
        ensures opened { (self.new.opening ≡ self.old.opening) × (self.new.budget ≡ self.old.budget) × (self.new.items ≡ self.old.items) × (self.new.losses ≡ self.old.losses) }
        ensures account { GivesAccount self.new }
        ensures err { IfErr result (λ e. e ≡ WorldError.Memory) }
    {
        let rested = self.rest(moment);
        self.gives_account();
        rested?;
        self.is_quiet(moment);
        Ok(())
    }

    /// Lets the servers see their ends, and then does rounds until one does nothing.
    fn rest(&mut self, moment: u64) -> Result<(), WorldError>
        requires moment { moment < 2 ^ 63 }
        ensures drained { HasDrained moment self.old self.new }
        ensures rounds { OnOk result (DrainsInRounds moment self.old.course self.new.course) }
        ensures rested { OnOk result (IsRested moment self.new.course) }
        ensures cause { IfErr result (λ e. e ≡ WorldError.Memory) }
    {
        self.see_ends(moment)?;
        while self.round(moment)? {}
        Ok(())
    }

    /// A world in which no act of a drain applies is quiet. The call does nothing: its contract is the law.
    fn is_quiet(&self, moment: u64)
        requires moment { moment < 2 ^ 63 }
        requires rested { IsRested moment self.now.course }
        ensures { IsQuiet self.now.course }
    {
        let _ = self.course.log.len();
    }

    /// Does a round, and returns whether anything was done in it.
    fn round(&mut self, moment: u64) -> Result<bool, WorldError>
        requires moment { moment < 2 ^ 63 }
        requires ended { NoServer moment SeeEnd self.old.course }
        ensures over { IfOk result (λ did. IsOver moment (IsRested moment) did self.old self.new) }
        ensures round { OnOk result (IsRound moment self.old.course self.new.course) }
        ensures err { OnErr result (HasDrained moment self.old self.new) }
        ensures cause { IfErr result (λ e. e ≡ WorldError.Memory) }
    {
        let taken = self.take_requests(moment)?;
        let served = self.serve_all(moment)?;
        let answered = self.answer_all(moment)?;
        Ok(taken | served | answered)
    }

    /// Lets the servers see the ends of the lost generations.
    fn see_ends(&mut self, moment: u64) -> Result<(), WorldError>
        requires moment { moment < 2 ^ 63 }
        ensures drained { HasDrained moment self.old self.new }
        ensures ends { OnOk result (SeesEnds moment self.old.course self.new.course) }
        ensures ended { OnOk result (NoServer moment SeeEnd self.new.course) }
        ensures cause { IfErr result (λ e. e ≡ WorldError.Memory) }
    {
        let places = self.course.pool.sites.len();
        for place in 0..places {
            self.repeat(Act::SeeEnd(place), moment)?;
        }
        Ok(())
    }

    /// Lets each client's proxy take its requests.
    fn take_requests(&mut self, moment: u64) -> Result<bool, WorldError>
        requires moment { moment < 2 ^ 63 }
        ensures over { IfOk result (λ did. IsOver moment (NoClient moment TakeRequest) did self.old self.new) }
        ensures requests { OnOk result (EachClient (λ client. Repeats moment (TakeRequest client)) self.old.course self.new.course) }
        ensures err { OnErr result (HasDrained moment self.old self.new) }
        ensures cause { IfErr result (λ e. e ≡ WorldError.Memory) }
    {
        let mut did = false;
        let clients = self.course.clients.len() as u64;
        for client in 0..clients {
            let one = self.repeat(Act::TakeRequest(client), moment)?;
            did |= one;
        }
        Ok(did)
    }

    /// Lets the servers get their bytes and take the requests in them, and the proxies get and take the replies: proxies in order.
    fn serve_all(&mut self, moment: u64) -> Result<bool, WorldError>
        requires moment { moment < 2 ^ 63 }
        ensures over { IfOk result (λ did. IsOver moment (λ c. NoLink moment ReachServer c × NoLink moment Serve c
            × NoLink moment ReachProxy c × NoLink moment TakeReply c) did self.old self.new) }
        ensures servers { OnOk result (EachLink (λ proxy place. Then (Alternates moment (ReachServer proxy place) (Serve proxy place))
            (Alternates moment (ReachProxy proxy place) (TakeReply proxy place))) self.old.course self.new.course) }
        ensures err { OnErr result (HasDrained moment self.old self.new) }
        ensures cause { IfErr result (λ e. e ≡ WorldError.Memory) }
    {
        let mut did = false;
        let proxies = self.course.pool.proxies();
        for proxy in 0..proxies {
            let one = self.serve_links(proxy, moment)?;
            did |= one;
        }
        Ok(did)
    }

    /// Lets the servers get the bytes of a proxy and take the requests in them, and the proxy get and take the replies: servers in order.
    fn serve_links(&mut self, proxy: usize, moment: u64) -> Result<bool, WorldError>
        requires moment { moment < 2 ^ 63 }
        ensures over { IfOk result (λ did. IsOver moment (λ c. NoServer moment (λ place. ReachServer proxy place) c × NoServer moment (λ place. Serve proxy place) c
            × NoServer moment (λ place. ReachProxy proxy place) c × NoServer moment (λ place. TakeReply proxy place) c) did self.old self.new) }
        ensures servers { OnOk result (EachServer (λ place. Then (Alternates moment (ReachServer proxy place) (Serve proxy place))
            (Alternates moment (ReachProxy proxy place) (TakeReply proxy place))) self.old.course self.new.course) }
        ensures err { OnErr result (HasDrained moment self.old self.new) }
        ensures cause { IfErr result (λ e. e ≡ WorldError.Memory) }
    {
        let mut did = false;
        let places = self.course.pool.sites.len();
        for place in 0..places {
            let served = self.alternate(
                Act::ReachServer(proxy, place),
                Act::Serve(proxy, place),
                moment,
            )?;
            let replied = self.alternate(
                Act::ReachProxy(proxy, place),
                Act::TakeReply(proxy, place),
                moment,
            )?;
            did |= served | replied;
        }
        Ok(did)
    }

    /// Emits answers to the clients, which take them.
    fn answer_all(&mut self, moment: u64) -> Result<bool, WorldError>
        requires moment { moment < 2 ^ 63 }
        ensures over { IfOk result (λ did. IsOver moment (λ c. NoClient moment PutAnswer c × NoClient moment TakeBytes c) did self.old self.new) }
        ensures answers { OnOk result (EachClient (λ client. Alternates moment (PutAnswer client) (TakeBytes client)) self.old.course self.new.course) }
        ensures err { OnErr result (HasDrained moment self.old self.new) }
        ensures cause { IfErr result (λ e. e ≡ WorldError.Memory) }
    {
        let mut did = false;
        let clients = self.course.clients.len() as u64;
        for client in 0..clients {
            let one = self.alternate(Act::PutAnswer(client), Act::TakeBytes(client), moment)?;
            did |= one;
        }
        Ok(did)
    }

    /// Does two acts in alternation, each as often as it applies, until neither does, and returns whether anything was done.
    fn alternate(&mut self, first: Act, second: Act, moment: u64) -> Result<bool, WorldError>
        requires moment { moment < 2 ^ 63 }
        ensures over { IfOk result (λ did. IsOver moment (λ c. IsIdle moment c.pool first × IsIdle moment c.pool second) did self.old self.new) }
        ensures alternates { OnOk result (Alternates moment first second self.old.course self.new.course) }
        ensures err { OnErr result (HasDrained moment self.old self.new) }
        ensures cause { IfErr result (λ e. e ≡ WorldError.Memory) }
    {
        let mut did = false;
        loop {
            let one = self.repeat(first, moment)?;
            let other = self.repeat(second, moment)?;
            if !one && !other {
                return Ok(did);
            }
            did = true;
        }
    }

    /// Does an act as often as it applies, and returns whether it did.
    fn repeat(&mut self, act: Act, moment: u64) -> Result<bool, WorldError>
        requires moment { moment < 2 ^ 63 }
        ensures over { IfOk result (λ did. IsOver moment (λ c. IsIdle moment c.pool act) did self.old self.new) }
        ensures repeats { OnOk result (Repeats moment act self.old.course self.new.course) }
        ensures err { OnErr result (HasDrained moment self.old self.new) }
        ensures cause { IfErr result (λ e. e ≡ WorldError.Memory) }
    {
        let mut did = false;
        while self.act(act, moment)? {
            did = true;
        }
        Ok(did)
    }

    /// Does an act if it applies, and returns whether it did.
    fn act(&mut self, act: Act, moment: u64) -> Result<bool, WorldError>
        requires moment { moment < 2 ^ 63 }
        ensures over { IfOk result (λ did. IsOver moment (λ c. IsIdle moment c.pool act) did self.old self.new) }
        ensures acted { IfOk result (λ did. did ≡ true → IsActed moment act self.old.course self.new.course) }
        ensures err { OnErr result (HasDrained moment self.old self.new) }
        ensures cause { IfErr result (λ e. e ≡ WorldError.Memory) }
    {
        let event = self.course.pool.event_of(act, moment);
        match self.step(&event)? {
            Step::Done => Ok(true),
            Step::Nothing => Ok(false),
        }
    }
}
