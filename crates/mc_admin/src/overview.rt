//! The page that shows the figures to people, in a browser.
ghost use Rattle.std.specs.Prelude.{◌≡◌};
ghost use Rattle.mc_admin.specs.Answers.{overview_text, policy_text};

/// What a browser may do with the page: run its script, use its style, and ask where it came from. The sums are SHA-256 of the two texts
/// (`tests/gate/admin.py` compares them).
const POLICY: &[u8] =
    b"default-src 'none'; script-src 'sha256-7JQwHGg6u62PortZePzaYnpium0wOLaVO1T32I/ygP8='; style-src 'sha256-eTACCqm3Olx0bmzwYsT85WSghINSo5ClEYbRAAjwunM='; connect-src 'self'; img-src data:; base-uri 'none'; form-action 'none'; frame-ancestors 'none'";

/// The page: it asks for `/metrics` once a second, and shows the figures of a server or of a proxy.
const OVERVIEW: &[u8] = br#"<!doctype html>
<html lang="en">
<head>
<meta charset="utf-8">
<meta name="viewport" content="width=device-width">
<link rel="icon" href="data:,">
<title>Wiersbol</title>
<style>
:root{color-scheme:light dark}
body{font:15px/1.4 system-ui,sans-serif;max-width:62em;margin:1.5em auto;padding:0 1em}
h1{font-size:1.4em;margin:0}
#state.gone{font-weight:bold;border-left:.4em solid;padding-left:.6em}
.old{opacity:.5}
#own tbody{display:grid;grid-template-columns:repeat(auto-fill,minmax(14em,1fr));gap:.7em}
#own tr{display:block;border:1px solid GrayText;border-radius:.4em;padding:.4em .8em}
#own td{display:block}
#own td+td{font-size:1.35em;font-variant-numeric:tabular-nums}
#own td+td+td{font-size:1em;min-height:1.4em}
table{width:100%;border-spacing:0}
#servers{margin-top:1.2em}
#servers th,#servers td{text-align:right;padding:.3em .5em;border-bottom:1px solid GrayText;font-variant-numeric:tabular-nums}
#servers th:first-child,#servers td:first-child{text-align:left}
tr.down{font-weight:bold}
</style>
</head>
<body>
<h1 id="name">Wiersbol</h1>
<p id="state" role="status">Asking for /metrics</p>
<noscript>The numbers need this page's script. <a href="/metrics">/metrics</a> has them as text.</noscript>
<div id="all">
<table id="own"><tbody></tbody></table>
<table id="servers" hidden>
<thead><tr><th>Server<th>State<th>Sent/s<th>Share<th>Waiting<th>Losses<th>Lost</tr></thead>
<tbody></tbody>
</table>
</div>
<script>
"use strict";
const at = id => document.getElementById(id);
const number = n => Math.round(n).toLocaleString("en");
const bytes = n => {
  let unit = 0;
  for (; n >= 1000 && unit < 4; unit++) n /= 1000;
  return (unit && n < 100 ? n.toFixed(1) : number(n)) + [" bytes", " kB", " MB", " GB", " TB"][unit];
};
const part = (n, all) => all > 0 ? (100 * n / all).toFixed(1) + " %" : "-";
const past = [];
let before, answered;

function samples(text) {
  const found = new Map();
  for (const line of text.split("\n")) {
    const sample = /^(\w+(?:\{.*\})?) (\d+)$/.exec(line);
    if (sample) found.set(sample[1], Number(sample[2]));
  }
  return found;
}

function fill(table, rows) {
  const body = table.tBodies[0];
  while (body.rows.length > rows.length) body.deleteRow(-1);
  rows.forEach((texts, place) => {
    const row = body.rows[place] || body.insertRow();
    row.className = texts[1] === "down" ? "down" : "";
    texts.forEach((text, column) => {
      const cell = row.cells[column] || row.insertCell();
      if (cell.textContent !== text) cell.textContent = text;
    });
  });
}

function curve(n) {
  past.push(n);
  if (past.length > 16) past.shift();
  const top = Math.max(...past, 1);
  return past.map(each => String.fromCharCode(0x2581 + Math.floor(7.99 * each / top))).join("");
}

function show(now, seconds) {
  const m = name => now.get(name) || 0;
  const since = name => before ? Math.max(m(name) - (before.get(name) || 0), 0) : 0;
  const rate = name => before ? since(name) / seconds : 0;
  const isServer = now.has("memcached_current_items");
  const requests = rate("wiersbol_requests_total");
  const own = [
    ["Requests/s", number(requests), curve(requests)],
    ["Clients", number(m("memcached_current_connections")), "of " + number(m("memcached_max_connections"))],
    ["From clients/s", bytes(rate("memcached_read_bytes_total")), ""],
    ["To clients/s", bytes(rate("memcached_written_bytes_total")), ""],
    ["Clients refused", number(m("memcached_connections_rejected_total")), "since the start"],
  ];
  if (isServer) {
    const hits = 'memcached_commands_total{command="get",status="hit"}', keys = "wiersbol_retrievals_total";
    own.push(
      ["Hits/s", number(rate(hits)), "of " + number(rate(keys)) + " keys"],
      ["Hit rate", part(since(hits), since(keys)), part(m(hits), m(keys)) + " since the start"],
      ["Items", number(m("memcached_current_items")), "of " + number(m("wiersbol_limit_items"))],
      ["Items cost", bytes(m("memcached_current_bytes")), "of " + bytes(m("memcached_limit_bytes"))],
      ["Evictions/s", number(rate("memcached_items_evicted_total")), number(m("memcached_items_evicted_total")) + " since the start"],
      ["Memory refused", number(m("wiersbol_memory_refused_total")), "since the start"],
    );
  }
  if (now.has("process_resident_memory_bytes")) own.push(["Memory", bytes(m("process_resident_memory_bytes")), "of the process"]);
  fill(at("own"), own);
  const servers = [...now.keys()].map(key => /^wiersbol_server_up(.*)$/.exec(key)).filter(Boolean).map(found => found[1]);
  const of = (name, server) => "wiersbol_server_" + name + server;
  const sent = servers.reduce((sum, each) => sum + since(of("sent_total", each)), 0);
  fill(at("servers"), servers.map(each => [
    each.slice(9, -2), m(of("up", each)) ? "up" : "down", number(rate(of("sent_total", each))), part(since(of("sent_total", each)), sent),
    number(m(of("waiting", each))), number(m(of("losses_total", each))), number(m(of("lost_total", each))),
  ]));
  at("servers").hidden = !servers.length;
  const down = servers.filter(each => !m(of("up", each))).length;
  const name = (isServer ? "mc_serverd " : "mc_proxyd ") + location.host;
  at("name").textContent = name;
  document.title = (down ? down + " down: " : "") + name;
  at("state").textContent = "Up for " + number(m("memcached_uptime_seconds")) + " s, process " + m("wiersbol_process_id");
}

async function ask() {
  try {
    const answer = await fetch("/metrics", {cache: "no-store", signal: AbortSignal.timeout(5000)});
    if (!answer.ok) throw answer.status;
    const now = samples(await answer.text()), moment = performance.now();
    const up = "memcached_uptime_seconds", id = "wiersbol_process_id";
    if (before && (now.get(id) !== before.get(id) || now.get(up) < before.get(up))) before = undefined;
    show(now, (moment - answered) / 1000);
    [before, answered] = [now, moment];
    at("state").className = at("all").className = "";
  } catch (error) {
    const since = answered ? " for " + number((performance.now() - answered) / 1000) + " s. The numbers below are old" : "";
    at("state").textContent = "No answer" + since + ". Asking again each second.";
    at("state").className = "gone";
    at("all").className = "old";
    document.title = "no answer: " + location.host;
  }
  setTimeout(ask, 1000);
}
ask();
</script>
</body>
</html>
"#;

/// Returns the page.
#[tactic(auto, unfolding(crate::specs::Answers::overview_text))]
pub fn overview() -> &'static [u8]
    ensures { result.now ≡ overview_text }
{
    OVERVIEW
}

/// Returns what a browser may do with it.
#[tactic(auto, unfolding(crate::specs::Answers::policy_text))]
pub fn policy() -> &'static [u8]
    ensures { result.now ≡ policy_text }
{
    POLICY
}
