//! How calls for a session, or for a link, keep a proxy's account. The functions do nothing: their contracts are the laws,
//! with those of the laws that they call.
ghost use Rattle.std.specs.Prelude.{ℕ, List};
ghost use Rattle.mc_proxy.specs.ProxyState.{ProxyState};
ghost use Rattle.mc_account.specs.Lanes.{Lane};
ghost use Rattle.mc_account.specs.Orders.{Order};
ghost use Rattle.mc_account.specs.Holds.{ProxyHolds};
ghost use Rattle.mc_proxy_pump.specs.Calls as sessions;
ghost use Rattle.mc_proxy_pump.specs.LinkCalls as links;
ghost use Rattle.mc_proxy_pump.specs.Laws.{HoldsAfterClient, HoldsAfterLink};

use mc_account::{bytes_sent_to_servers_hold, server_bytes_hold};

/// If a proxy is in the state of an order, then after calls for a session it is in the state of that order and of what they
/// took. The session's text has grown by the bytes that arrived, and its consumed output by the bytes that were sent.
pub fn proxies_hold_after_a_client()
    ensures { (texts sent : ℕ → List ℕ) (order : Order) (lanes : ℕ → Lane) (number : ℕ) (calls : List sessions.Call) (old new : ProxyState)
        → ProxyHolds texts sent order lanes old → sessions.Calls number calls old new
        → HoldsAfterClient number (sessions.came_of calls) (sessions.went_of calls) texts sent order lanes new }
{}

/// If a proxy is in the state of an order, then after calls for a link it is in the state of that order, with possibly more
/// known outcomes. The link's bytes have grown by those that arrived and those that were sent.
pub fn proxies_hold_after_a_link()
    ensures { (texts sent : ℕ → List ℕ) (order : Order) (lanes : ℕ → Lane) (place : ℕ) (calls : List links.LinkCall) (old new : ProxyState)
        → ProxyHolds texts sent order lanes old → links.LinkCalls place calls old new
        → HoldsAfterLink place (links.came_of calls) (links.went_of calls) texts sent order lanes new }
{
    bytes_sent_to_servers_hold();
    server_bytes_hold();
}
