//! Worlds whose links are lost and come up again: they play pool scripts, line by line.
//!
//! A call that is refused memory is made again. So a script ends as with ample memory, or as with one store refused, whichever
//! allocation is refused: `tests/gate/refused.py` refuses each of them in turn.
ghost use Rattle.std.specs.Prelude.{◌<◌, ◌^◌};
ghost use Rattle.mc_pool_script.specs.PoolLines.{HasMoment};

use mc_pool_script::{PoolLine, PoolScript, read_pool_script};
use mc_ring::Address;
use mc_script::SimError;
use mc_server_tests::again;
use mc_store::ListStore;
use mc_text::Block;
use mc_world::{Event, Step, World, WorldError};
use std::alloc::Global;
use std::test::Fail;

/// A script, and the bytes that may have been emitted to its first client at the end: with ample memory, or with one store refused.
struct Script {
    text: &'static [u8],
    outputs: &'static [&'static [u8]],
}

const SCRIPTS: [Script; 6] = [
    // a command that never arrives, one that is served though its reply is lost, one that is served late, and one that arrives
    // after the end of its generation and is dropped
    Script {
        text: b"pool 1 1 67108864 1000
bytes 0 set n 0 0 1\\r\\n1\\r\\n
turn 0
toserver 0 1 all
serve 0 1 100
toproxy 0 all
reply 0
emit 0
bytes 0 incr n 1\\r\\n
turn 0
lost 0
end 0 1
back 0
emit 0
bytes 0 incr n 1\\r\\n
turn 0
toserver 0 2 10
serve 0 2 100
lost 0
emit 0
back 0
bytes 0 incr n 1\\r\\nincr n 5\\r\\n
turn 0
turn 0
lost 0
emit 0
emit 0
back 0
bytes 0 get n\\r\\nget n\\r\\n
turn 0
toserver 0 4 all
serve 0 4 101
toserver 0 3 10
serve 0 3 101
end 0 3
toserver 0 3 10
serve 0 3 101
turn 0
toserver 0 4 all
serve 0 4 102
toproxy 0 all
reply 0
reply 0
emit 0
emit 0
",
        outputs: &[
            b"STORED\r\nSERVER_ERROR link lost\r\nSERVER_ERROR link lost\r\nSERVER_ERROR link lost\r\nSERVER_ERROR link lost\r\nVALUE n 0 1\r\n2\r\nEND\r\nVALUE n 0 1\r\n3\r\nEND\r\n",
            b"SERVER_ERROR out of memory storing object\r\nSERVER_ERROR link lost\r\nSERVER_ERROR link lost\r\nSERVER_ERROR link lost\r\nSERVER_ERROR link lost\r\nEND\r\nEND\r\n",
        ],
    },
    // drains; each `incr` makes the value longer, and so may be refused too
    Script {
        text: b"pool 1 1 67108864 1000
bytes 0 set n 0 0 1\\r\\n9\\r\\nincr n 1\\r\\n
drain 100
bytes 0 incr n 90\\r\\n
turn 0
lost 0
back 0
toserver 0 1 all
serve 0 1 101
bytes 0 get n\\r\\n
drain 102
",
        outputs: &[
            b"STORED\r\n10\r\nSERVER_ERROR link lost\r\nVALUE n 0 3\r\n100\r\nEND\r\n",
            b"SERVER_ERROR out of memory storing object\r\nNOT_FOUND\r\nSERVER_ERROR link lost\r\nEND\r\n",
            b"STORED\r\nSERVER_ERROR out of memory storing object\r\nSERVER_ERROR link lost\r\nVALUE n 0 2\r\n99\r\nEND\r\n",
            b"STORED\r\n10\r\nSERVER_ERROR link lost\r\nVALUE n 0 2\r\n10\r\nEND\r\n",
        ],
    },
    // two servers: the first one's replies arrive first, and the second one owns the key that was asked for first
    Script {
        text: b"pool 2 1 67108864 1000
point 98500190 0
point b975c10c 1
bytes 0 set a 0 0 1\\r\\nx\\r\\nset abc 0 0 1\\r\\ny\\r\\nget a abc\\r\\n
turn 0
turn 0
turn 0
toserver 0 1 all
toserver 1 1 all
serve 0 1 100
serve 0 1 100
serve 1 1 100
serve 1 1 100
toproxy 0 all
reply 0
reply 0
emit 0
toproxy 1 all
reply 1
reply 1
emit 0
emit 0
emit 0
",
        outputs: &[
            b"STORED\r\nSTORED\r\nVALUE a 0 1\r\nx\r\nVALUE abc 0 1\r\ny\r\nEND\r\n",
            b"SERVER_ERROR out of memory storing object\r\nSTORED\r\nVALUE abc 0 1\r\ny\r\nEND\r\n",
            b"STORED\r\nSERVER_ERROR out of memory storing object\r\nVALUE a 0 1\r\nx\r\nEND\r\n",
        ],
    },
    // a lost command is served after a newer one
    Script {
        text: b"pool 1 1 67108864 1000
bytes 0 set n 0 0 1\\r\\n1\\r\\n
drain 100
bytes 0 incr n 1\\r\\n
turn 0
lost 0
emit 0
back 0
bytes 0 set n 0 0 1\\r\\n5\\r\\n
turn 0
toserver 0 2 all
serve 0 2 101
toproxy 0 all
reply 0
emit 0
toserver 0 1 10
serve 0 1 101
bytes 0 get n\\r\\n
drain 102
",
        outputs: &[
            b"STORED\r\nSERVER_ERROR link lost\r\nSTORED\r\nVALUE n 0 1\r\n6\r\nEND\r\n",
            b"SERVER_ERROR out of memory storing object\r\nSERVER_ERROR link lost\r\nSTORED\r\nVALUE n 0 1\r\n6\r\nEND\r\n",
        ],
    },
    // a drain drops a lost command
    Script {
        text: b"pool 1 1 67108864 1000
bytes 0 set n 0 0 1\\r\\n1\\r\\n
drain 100
bytes 0 incr n 1\\r\\n
turn 0
lost 0
emit 0
back 0
bytes 0 set n 0 0 1\\r\\n5\\r\\n
turn 0
toserver 0 2 all
serve 0 2 101
toproxy 0 all
reply 0
emit 0
bytes 0 get n\\r\\n
drain 102
",
        outputs: &[
            b"STORED\r\nSERVER_ERROR link lost\r\nSTORED\r\nVALUE n 0 1\r\n5\r\nEND\r\n",
            b"SERVER_ERROR out of memory storing object\r\nSERVER_ERROR link lost\r\nSTORED\r\nVALUE n 0 1\r\n5\r\nEND\r\n",
        ],
    },
    // two proxies: a server joins at one and the other learns it, and that one restarts, with a command that its server executes all the same
    Script {
        text: b"pool 1 1 67108864 1000 2
point 00000000 0
join 1 a:1
join a:1
back 1
bytes 0 set n 0 0 1\\r\\n1\\r\\n
drain 100
bytes 1 incr n 1\\r\\n
turn 1
toserver 1:0 1 all
toserver 1:1 1 all
proxyrestart 1
serve 1:0 1 101
serve 1:1 1 101
bytes 0 get n\\r\\n
drain 102
",
        outputs: &[
            b"STORED\r\nVALUE n 0 1\r\n2\r\nEND\r\n",
            b"SERVER_ERROR out of memory storing object\r\nEND\r\n",
        ],
    },
];

fn read(alloc: Global, text: &[u8]) -> Result<PoolScript, SimError> {
    again!(read_pool_script(alloc, text))
}

fn opened(alloc: Global, script: &PoolScript) -> Result<World<ListStore>, WorldError> {
    again!(opened_once(alloc, script))
}

/// The world that a script begins with: of one proxy, or of several and one server.
fn opened_once(alloc: Global, script: &PoolScript) -> Result<World<ListStore>, WorldError> {
    let Ok(ring) = script.ring(alloc) else {
        return Err(WorldError::Memory);
    };
    let (clients, budget, items) = (script.clients(), script.budget(), script.items());
    if script.proxies() == 1 {
        return World::new(alloc, ring, clients, budget, items);
    }
    let mut stores = Vec::new(alloc);
    stores.push(ListStore::new(alloc))?;
    let clients = vec![in alloc; clients; script.proxies()]?;
    let clients = clients.as_slice();
    World::with_proxies(alloc, ring, script.losses(), clients, budget, items, stores)
}

fn step(world: &mut World<ListStore>, event: &Event<Block>) -> Result<Step, WorldError> {
    again!(world.step(event))
}

fn drain(world: &mut World<ListStore>, moment: u64) -> Result<(), WorldError>
    requires { moment < 2 ^ 63 }
{
    again!(world.drain(moment))
}

fn join(
    alloc: Global,
    world: &mut World<ListStore>,
    proxy: usize,
    address: &Address,
) -> Result<usize, WorldError> {
    again!(join_once(alloc, world, proxy, address))
}

/// A server of this address joins at a proxy.
fn join_once(
    alloc: Global,
    world: &mut World<ListStore>,
    proxy: usize,
    address: &Address,
) -> Result<usize, WorldError> {
    match world.join_server_at(proxy, address.copy()?, ListStore::new(alloc)) {
        Ok(place) => Ok(place),
        Err((cause, _)) => Err(cause),
    }
}

fn learn(
    world: &mut World<ListStore>,
    proxy: usize,
    address: &Address,
) -> Result<usize, WorldError> {
    again!(learn_once(world, proxy, address))
}

/// A proxy learns the server of this address.
fn learn_once(
    world: &mut World<ListStore>,
    proxy: usize,
    address: &Address,
) -> Result<usize, WorldError> {
    world.learn_server(proxy, address.copy()?)
}

fn restart_proxy(world: &mut World<ListStore>, proxy: usize) -> Result<(), WorldError> {
    again!(world.restart_proxy(proxy))
}

fn put_out(world: &World<ListStore>) -> Result<Vec<u8>, WorldError> {
    again!(world.put_out(0))
}

/// Plays one line.
fn play(alloc: Global, world: &mut World<ListStore>, line: &PoolLine) -> Result<(), Fail>
    requires { HasMoment line.now (2 ^ 63) }
{
    match line {
        PoolLine::Event(event) => {
            step(world, event)?;
        }
        PoolLine::Drain(moment) => drain(world, *moment)?,
        PoolLine::Join(proxy, address) => {
            join(alloc, world, *proxy, address)?;
        }
        PoolLine::Learn(proxy, address) => {
            learn(world, *proxy, address)?;
        }
        PoolLine::ProxyRestart(proxy) => restart_proxy(world, *proxy)?,
        PoolLine::Restart(_) => return Err(Fail::from("a server is to restart")),
    }
    Ok(())
}

/// Plays all lines of a script.
fn play_all(alloc: Global, world: &mut World<ListStore>, script: &PoolScript) -> Result<(), Fail> {
    for line in script.lines() {
        play(alloc, world, line)?;
    }
    Ok(())
}

/// All bytes that were emitted to the first client of a script.
fn emitted_bytes(alloc: Global, script: &PoolScript) -> Result<Vec<u8>, Fail> {
    let mut world = opened(alloc, script)?;
    play_all(alloc, &mut world, script)?;
    Ok(put_out(&world)?)
}

/// Whether a script ends in one of the ways that it may end.
fn ends_so(alloc: Global, script: &Script) -> Result<bool, Fail> {
    let read = read(alloc, script.text)?;
    let bytes = emitted_bytes(alloc, &read)?;
    Ok(
        script
            .outputs
            .iter()
            .any(|output| bytes.as_slice() == *output),
    )
}

#[test]
fn links_are_lost_and_back(rt: HostRuntime) -> Result<(), Fail> {
    for script in &SCRIPTS {
        assert!(rt; ends_so(rt.alloc(), script)?);
    }
    Ok(())
}
