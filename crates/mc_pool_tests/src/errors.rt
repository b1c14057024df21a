//! The texts of errors.

use mc_link::LinkError;
use mc_proxy::ProxyError;
use mc_reply::ReplyError;
use mc_request::ReadError;
use mc_ring::RingError;
use mc_route::RouteError;
use mc_server::ServerError;
use mc_server_tests::read_so;
use mc_store::StoreError;
use mc_text::KeyError;
use mc_world::WorldError;
use std::test::Fail;

const OF_KEYS: [(KeyError, &'static str); 5] = [
    (KeyError::Empty, "empty key"),
    (KeyError::TooLong, "key longer than 250 bytes"),
    (KeyError::BadByte, "control byte or space in key"),
    (KeyError::BadBase64, "key is no base64"),
    (KeyError::Memory, "out of memory"),
];

const OF_STORES: [(StoreError, &'static str); 2] = [
    (StoreError::Memory, "out of memory"),
    (StoreError::TooMany, "too many items"),
];

const OF_SERVERS: [(ServerError, &'static str); 3] = [
    (ServerError::NoConnection, "no such connection"),
    (ServerError::TooMany, "too many connections"),
    (ServerError::Memory, "out of memory"),
];

const OF_RINGS: [(RingError, &'static str); 5] = [
    (RingError::NoServer, "no server"),
    (RingError::TooMany, "more than 64 servers"),
    (RingError::Doubled, "server given twice"),
    (RingError::BadAddress, "bad server address"),
    (RingError::Memory, "out of memory"),
];

const OF_LINKS: [(LinkError, &'static str); 2] = [
    (LinkError::State, "link is in the wrong state"),
    (LinkError::Memory, "out of memory"),
];

const OF_PROXIES: [(ProxyError, &'static str); 7] = [
    (ProxyError::NoSession, "no such session"),
    (ProxyError::TooManySessions, "too many sessions"),
    (ProxyError::NoLink, "no such link"),
    (ProxyError::LinkState, "link in the wrong state"),
    (ProxyError::Memory, "out of memory"),
    (ProxyError::RingFull, "ring is full"),
    (ProxyError::AlreadyThere, "server is in the ring"),
];

const OF_WORLDS: [(WorldError, &'static str); 7] = [
    (WorldError::Memory, "out of memory"),
    (WorldError::BadWorld, "bad world"),
    (WorldError::RingFull, "the ring is full"),
    (WorldError::AlreadyThere, "the server is there already"),
    (WorldError::NoServer, "no such server"),
    (WorldError::NoProxy, "no such proxy"),
    (WorldError::Behind, "the proxy has not learned all servers"),
];

#[test]
fn errors_have_texts(rt: HostRuntime) -> Result<(), Fail> {
    let alloc = rt.alloc();
    assert!(rt;
        read_so(alloc, &OF_KEYS) && read_so(alloc, &OF_STORES) && read_so(alloc, &OF_SERVERS)
    );
    assert!(rt;
        read_so(alloc, &OF_RINGS) && read_so(alloc, &OF_LINKS) && read_so(alloc, &OF_PROXIES)
    );
    assert!(rt;
        read_so(alloc, &[(ReplyError::Memory, "out of memory")])
            && read_so(alloc, &[(ReadError::Memory, "out of memory")])
            && read_so(alloc, &[(RouteError::Memory, "out of memory")])
            && read_so(alloc, &OF_WORLDS)
    );
    Ok(())
}
