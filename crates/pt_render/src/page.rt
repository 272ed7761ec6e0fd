//! The page of a history, in parts. `tools/page.py` writes this file from crates/pt_render/page.

/// The page up to the history: a line of JSON for each event, for each letter left over, and for the verdict.
pub const PAGE_HEAD: &str = "<!doctype html>
<html lang=\"en\">
<head>
<meta charset=\"utf-8\">
<meta name=\"viewport\" content=\"width=device-width, initial-scale=1\">
<meta http-equiv=\"Content-Security-Policy\" content=\"default-src 'none'; style-src 'sha256-OE8a0qlcFmVKpY/yUYejEaeeqFydM/QBWGcrJvBQPGw='; script-src 'sha256-mw/qyxtHAzpjfRbaU7KotmuO431bRBBVE6jjbylb+9E='\">
<title>A history</title>
<style>
:root { --back:#fff; --band:#f5f7fa; --text:#1f2328; --dim:#59636e; --line:#d1d9e0; --life:#8c959f; --pick:#ddf4ff; --picked:#0969da;
 --message:#0a5cb0; --exit:#b00020; --link:#1a7f37; --monitor:#8a5200; --question:#6e40aa; --mark:#1f2328; color-scheme:light }
:root[data-theme=dark] { --back:#0d1117; --band:#151b23; --text:#f0f6fc; --dim:#9aa4b0; --line:#3d444d; --life:#656c76; --pick:#132e4b; --picked:#4493f8;
 --message:#6cb6ff; --exit:#ff7b72; --link:#57d364; --monitor:#e3a64f; --question:#c297ff; --mark:#f0f6fc; color-scheme:dark }
* { box-sizing:border-box }
html, body { height:100%; margin:0 }
body { display:flex; flex-direction:column; background:var(--back); color:var(--text); font:13px/1.4 system-ui, \"DejaVu Sans\", sans-serif }
header { display:flex; flex-wrap:wrap; gap:6px 16px; align-items:center; padding:6px 12px; border-bottom:1px solid var(--line) }
h1 { font-size:15px; margin:0 } h2 { font-size:14px; margin:12px 0 4px } h3 { font-size:13px; margin:0 }
header form { display:flex; flex-wrap:wrap; gap:4px 10px; align-items:center }
.tools { margin-left:auto; display:flex; gap:6px; align-items:center }
input, select, button { font:inherit; color:inherit; background:var(--back); border:1px solid var(--line); border-radius:4px; padding:2px 6px }
button:hover { background:var(--band) }
:focus-visible { outline:2px solid var(--picked); outline-offset:-1px }
#fault { margin:0; padding:6px 12px; color:var(--exit); border-bottom:1px solid var(--line); font-weight:bold } #fault[hidden] { display:none }
main { flex:1; display:flex; min-height:0 }
#chart { flex:1; min-width:0; min-height:0; display:flex; flex-direction:column }
#heads { position:relative; height:54px; border-bottom:1px solid var(--line); overflow:hidden; display:flex }
#corner { padding:32px 0 0 12px; color:var(--dim); flex:none }
#heads-canvas { position:absolute; top:0 }
#scroll { flex:1; overflow:auto; position:relative }
#space { position:relative }
#view { position:sticky; top:0; left:0; overflow:hidden }
#lanes { position:absolute; top:0 }
#rows { position:absolute; top:0; left:0; font-family:ui-monospace, \"DejaVu Sans Mono\", monospace; overflow:hidden }
.row { position:absolute; left:0; contain:strict; white-space:pre; overflow:hidden; text-overflow:ellipsis; padding-left:12px; cursor:pointer }
.row b { font-weight:normal; color:var(--dim); display:inline-block }
.row.at { background:var(--pick) }
.c-message { color:var(--message) } .c-exit { color:var(--exit) } .c-link { color:var(--link) } .c-monitor { color:var(--monitor) } .c-question { color:var(--question) }
#side { width:360px; flex:none; contain:strict; border-left:1px solid var(--line); overflow:auto; padding:8px 12px }
#side code, .mono { font-family:ui-monospace, \"DejaVu Sans Mono\", monospace; font-size:12px }
.steps { display:flex; gap:4px; margin:8px 0; flex-wrap:wrap }
.what { color:var(--dim) }
.proc { border:1px solid var(--line); border-radius:6px; padding:4px 8px; margin:6px 0; contain:content; content-visibility:auto; contain-intrinsic-height:auto 66px }
.proc.at { border-color:var(--picked); box-shadow:0 0 0 1px var(--picked) }
.proc.gone { opacity:.65 }
.proc h3 { display:flex; gap:8px; align-items:baseline } .proc h3 span { font-weight:normal; color:var(--dim) }
.proc ul { margin:2px 0; padding-left:16px } .proc li.new { color:var(--link); font-weight:bold }
.proc p { margin:2px 0; color:var(--dim) }
dialog { color:inherit; background:var(--back); border:1px solid var(--line); border-radius:8px } dialog td { padding:2px 10px 2px 0 }
@media (max-width:800px) { main { flex-direction:column } #side { width:auto; height:40%; border-left:0; border-top:1px solid var(--line) } }
@media print { header form, .tools, .steps { display:none } }
</style>
</head>
<body>
<header>
<h1>A history</h1>
<form id=\"filter\" role=\"search\" aria-label=\"Which events are shown\">
<label>Process <input id=\"f-pid\" list=\"pids\" autocomplete=\"off\" size=\"11\" placeholder=\"all\"></label>
<datalist id=\"pids\"></datalist>
<label>Desk <select id=\"f-desk\"><option value=\"\">all</option></select></label>
<label>Signal <select id=\"f-what\"><option value=\"\">all</option></select></label>
<label>Text <input id=\"f-text\" type=\"search\" size=\"14\" autocomplete=\"off\" placeholder=\"press /\"></label>
<button type=\"reset\">Clear</button>
<label><input id=\"f-slot\" type=\"checkbox\"> a lane a slot</label>
</form>
<span class=\"tools\">
<span id=\"count\" role=\"status\"></span>
<button id=\"smaller\" title=\"Smaller (-)\" aria-label=\"Smaller\">−</button>
<button id=\"larger\" title=\"Larger (+)\" aria-label=\"Larger\">+</button>
<button id=\"theme\" title=\"Light or dark (t)\">Theme</button>
<button id=\"help\" title=\"Keys (?)\">?</button>
</span>
</header>
<p id=\"fault\" role=\"alert\" hidden></p>
<main>
<section id=\"chart\" aria-label=\"The history\">
<div id=\"heads\"><div id=\"corner\">event</div><canvas id=\"heads-canvas\" aria-hidden=\"true\"></canvas></div>
<div id=\"scroll\" tabindex=\"0\" role=\"listbox\" aria-label=\"Events, oldest first\" aria-activedescendant=\"\">
<div id=\"space\">
<div id=\"view\"><div id=\"rows\"></div><canvas id=\"lanes\" aria-hidden=\"true\"></canvas></div>
</div>
</div>
</section>
<aside id=\"side\" aria-label=\"The event, and the processes at that moment\">
<div id=\"event\" aria-live=\"polite\"></div>
<div class=\"steps\">
<button id=\"b-first\" title=\"First (Home)\">⇤</button><button id=\"b-back\" title=\"Back (↑ or k)\">↑ back</button><button id=\"b-next\" title=\"Next (↓ or j)\">↓ next</button><button id=\"b-last\" title=\"Last (End)\">⇥</button>
<button id=\"b-follow\" title=\"To the other end of the letter (f)\">other end</button>
</div>
<div id=\"states\"></div>
</aside>
</main>
<dialog id=\"keys\"><h2>Keys</h2><table>
<tr><td>↑ ↓ or k j</td><td>the event before, after</td></tr>
<tr><td>← →</td><td>the event before, after of the same process</td></tr>
<tr><td>Page up, down; Home, End</td><td>twenty events; the first, the last</td></tr>
<tr><td>f</td><td>the other end of the letter</td></tr>
<tr><td>/ and Esc</td><td>search; show all again</td></tr>
<tr><td>+ − t</td><td>larger, smaller, light or dark</td></tr>
</table><h2>Lines and marks</h2><table>
<tr><td class=\"c-message\">full</td><td>a message</td></tr>
<tr><td class=\"c-exit\">full, red</td><td>an exit signal</td></tr>
<tr><td class=\"c-link\">long dashes</td><td>a link, or a spawn</td></tr>
<tr><td class=\"c-monitor\">short dashes</td><td>a monitor, or its DOWN</td></tr>
<tr><td class=\"c-question\">dots</td><td>a question whether a process is alive</td></tr>
<tr><td>an open head</td><td>in flight at the end</td></tr>
<tr><td>ring, dot, square</td><td>spawned, took an item, set the flag</td></tr>
<tr><td>cross, struck ring</td><td>exited, refused a call</td></tr>
</table><form method=\"dialog\"><button>Close</button></form></dialog>
<noscript>This page needs JavaScript. The history is in its source, a line an event.</noscript>
<script type=\"application/x-ndjson\" id=\"history\">";

/// What is between the history and the names of its processes, a JSON object from pids to names.
pub const PAGE_NAMES: &str = "</script>
<script type=\"application/json\" id=\"names\">";

/// The page behind the names.
pub const PAGE_END: &str = "</script>
<script>
'use strict';
{
// The events, as the program wrote them. Numbers of 64 bits are kept as texts: a number of JavaScript has 53 bits.
const begun = performance.now();
const $ = id => document.getElementById(id);
const names = JSON.parse($('names').textContent || '{}');
const lines = $('history').textContent.trim().replace(/\"(stamp|num)\":(-?\\d+)/g, '\"$1\":\"$2\"').split('\\n');
const all = JSON.parse('[' + lines.join(',') + ']');
// (a page that was cut off has no verdict)
const verdict = all.find(it => it.verdict) || { verdict: 'at fault', why: 'the page was cut off, and has no verdict' };
const events = all.filter(it => it.event && it.event !== 'left-over');
const leftOver = all.filter(it => it.event === 'left-over');
const told = events.length > 0 && events[0].then !== undefined;
const parsed = performance.now();

const placeOf = it => `${it.stamp}@${it.desk}`;
const addressed = () => { const place = decodeURIComponent(location.hash.slice(1)); return events.findIndex(it => placeOf(it) === place); };

// ---- texts, as `--print history` has them

const bodyText = it => `${it.kind} ${it.num}` + (it.who ? ` who ${it.who}` : '');

function signalText(it) {
  switch (it.signal) {
    case 'message': return `message ${bodyText(it)}`;
    case 'link': return `link ${it.link}`;
    case 'unlink': return `unlink ${it.links.join('+')}`;
    case 'exit': return `exit ${it.reason}`;
    case 'link-exit': return `link-exit ${it.links.join('+')} ${it.reason}`;
    case 'down': return `down ${it.ref} ${it.reason}`;
    case 'alive-say': return `alive-say ${it.ref} ${it.alive ? 'yes' : 'no'}`;
    default: return `${it.signal} ${it.ref}`;
  }
}

function itemText(it) {
  switch (it.item) {
    case 'user': return `user ${it.from} ${bodyText(it)}`;
    case 'exit': return `exit ${it.from} ${it.reason}`;
    case 'down': return `down ${it.ref} ${it.from} ${it.reason}`;
    default: return `alive ${it.ref} ${it.from} ${it.alive ? 'yes' : 'no'}`;
  }
}

function eventText(it) {
  switch (it.event) {
    case 'born': return `born ${it.pid}` + (it.by ? ` by ${it.by}` : '') + (it.link ? ` link ${it.link}` : '');
    case 'said': case 'came': return `${it.event} ${it.from} -> ${it.to} ${signalText(it)}`;
    // (the member 'kind' of a pick is 'of': 'kind' is that of the message)
    case 'took': return `took ${it.pid} ${it.pick}` + (it.of === undefined ? '' : ` ${it.of}`) + ` = ${itemText(it)}`;
    case 'flag': return `flag ${it.pid} ${it.on ? 'on' : 'off'}`;
    case 'left': return `left ${it.pid} ${it.reason}`;
    case 'refused': return `refused ${it.from} -> ${it.to}`;
  }
}

const FAMILY = { message: 'message', link: 'link', unlink: 'link', exit: 'exit', 'link-exit': 'exit', monitor: 'monitor',
  demonitor: 'monitor', down: 'monitor', 'alive-ask': 'question', 'alive-say': 'question' };
const owner = it => it.pid || (it.event === 'came' ? it.to : it.from);
const peer = it => it.event === 'came' ? it.from : it.event === 'born' ? it.by : it.to;

// ---- processes, letters, lives

const processes = new Map();   // pid -> {pid, desk, born, ended, column}
const letters = [];            // {from, to, sent, came, family, text}
const sentBy = new Map(), cameBy = new Map();   // event -> letters sent, the letter that came
const queues = new Map();
function meet(pid) {
  let it = processes.get(pid);
  if (!it) {
    const [desk, slot, version] = pid.slice(1, -1).split('.').map(Number);
    processes.set(pid, it = { pid, desk, slot, version, born: Infinity, ended: Infinity, column: 0 });
  }
  return it;
}
function send(from, to, it, at) {
  const key = from + to, letter = { from, to, sent: at, came: Infinity, family: FAMILY[it.signal], text: signalText(it) };
  letters.push(letter);
  if (!sentBy.has(at)) sentBy.set(at, []);
  sentBy.get(at).push(letter);
  let queue = queues.get(key);
  if (!queue) queues.set(key, queue = { list: [], front: 0 });
  queue.list.push(letter);
}
events.forEach((it, at) => {
  it.at = at;
  const own = meet(owner(it));
  if (peer(it)) meet(peer(it));
  if (it.event === 'born') own.born = at;
  // one that does something and was not born in this history lived before it
  if (it.event !== 'came' && own.born === Infinity) own.born = -1;
  if (it.event === 'said') send(it.from, it.to, it, at);
  if (it.event === 'came') {
    const queue = queues.get(it.from + it.to);
    const letter = queue && queue.list[queue.front++];
    if (letter) { letter.came = at; cameBy.set(at, letter); }
  }
  for (const change of it.then || []) {
    if (change.did === 'send') { send(change.of, change.to, change, at); continue; }
    const changed = meet(change.of);
    if (changed.born === Infinity) changed.born = -1;
    if (change.did === 'end') changed.ended = at;
  }
});
// (what they held before is not known here)
const earlier = [...processes.values()].filter(it => it.born < 0).map(it => it.pid);
const ordered = [...processes.values()].sort((a, b) => a.desk - b.desk || a.slot - b.slot || a.version - b.version);
const nameOf = pid => names[pid] || '';

// ---- what each process is at a moment: the changes that the program wrote, applied one after the other

// One state stands, at one moment. To go to another one, changes are applied, or undone: each keeps what it replaced. So a
// step costs its own changes, whatever the processes hold, and nothing is copied.
const state = new Map();
let moment = -1, living = 0;
// (a process has another count after each change, and each that is undone: where its count is the same, so is the process)
let counted = 0;
const newProcess = isEarlier => ({ count: ++counted, isEarlier, alive: true, traps: false, reason: '', box: [], links: new Map(), watches: new Map(), watched: new Map() });
function perform(it) {
  for (const change of it.then) {
    const process = state.get(change.of);
    if (process) process.count = ++counted;
    switch (change.did) {
      case 'born': state.set(change.of, newProcess(false)); living++; break;
      case 'end': change.was = process.box; process.box = []; process.alive = false; process.reason = change.reason; living--; break;
      case 'trap': case 'untrap': change.was = process.traps; process.traps = change.did === 'trap'; break;
      case 'queue': process.box.push(change); change.since = it.at; break;
      case 'take': change.was = process.box.splice(change.place, 1)[0]; break;
      case 'link': case 'unlink': change.was = process.links.get(change.peer); put(process.links, change.peer, change.links); break;
      case 'watch': case 'unwatch': change.was = process.watches.get(change.ref); put(process.watches, change.ref, change.did === 'watch' ? change.peer : undefined); break;
      case 'watched': case 'unwatched': change.was = process.watched.get(change.ref); put(process.watched, change.ref, change.did === 'watched' ? change.peer : undefined); break;
    }
  }
}
function undo(it) {
  for (let k = it.then.length - 1; k >= 0; k--) {
    const change = it.then[k], process = state.get(change.of);
    if (process) process.count = ++counted;
    switch (change.did) {
      case 'born': state.delete(change.of); living--; break;
      case 'end': process.box = change.was; process.alive = true; process.reason = ''; living++; break;
      case 'trap': case 'untrap': process.traps = change.was; break;
      case 'queue': process.box.pop(); break;
      case 'take': process.box.splice(change.place, 0, change.was); break;
      case 'link': case 'unlink': put(process.links, change.peer, change.was); break;
      case 'watch': case 'unwatch': put(process.watches, change.ref, change.was); break;
      case 'watched': case 'unwatched': put(process.watched, change.ref, change.was); break;
    }
  }
}
for (const pid of earlier) { state.set(pid, newProcess(true)); living++; }
function put(map, key, value) { if (value === undefined) map.delete(key); else map.set(key, value); }
function stateAt(at) {
  while (moment < at) perform(events[++moment]);
  while (moment > at) undo(events[moment--]);
  return state;
}

// ---- which events and columns are shown

let shown = [], rowOf = new Int32Array(events.length), columns = [], blocks = [], zoom = 1, bySlot = false;
const BLOCK = 64;
function texts() { events.forEach(it => { it.text = eventText(it); }); }
texts();
function refilter() {
  const pid = $('f-pid').value.trim(), desk = $('f-desk').value, what = $('f-what').value, text = $('f-text').value.trim().toLowerCase();
  const wanted = new Set(ordered.filter(it => it.pid === pid || nameOf(it.pid) === pid).map(it => it.pid));
  const some = pid !== '' && wanted.size > 0;
  shown = events.filter(it => (!some || wanted.has(owner(it)) || wanted.has(peer(it)))
    && (desk === '' || it.desk === +desk)
    && (what === '' || it.event === what || FAMILY[it.signal] === what)
    && (text === '' || `${it.stamp}@${it.desk} ${it.text} ${nameOf(owner(it))} ${nameOf(peer(it))}`.toLowerCase().includes(text)));
  rowOf.fill(-1);
  shown.forEach((it, row) => { rowOf[it.at] = row; });
  const met = new Set();
  shown.forEach(it => { met.add(owner(it)); if (peer(it)) met.add(peer(it)); });
  // a lane is of one process, or of one slot, whose processes lived one after the other
  columns = [];
  ordered.forEach(it => { it.column = -1; });
  for (const it of ordered.filter(one => met.has(one.pid))) {
    const lane = columns[columns.length - 1];
    if (bySlot && lane && lane.desk === it.desk && lane.slot === it.slot) lane.members.push(it);
    else columns.push({ desk: it.desk, slot: it.slot, members: [it] });
    it.column = columns.length - 1;
  }
  // the letters that cross each block of rows
  blocks = Array.from({ length: Math.ceil(shown.length / BLOCK) + 1 }, () => []);
  for (const letter of letters) {
    const from = rowOf[letter.sent], to = letter.came === Infinity ? -1 : rowOf[letter.came];
    if (from < 0 && to < 0) continue;
    letter.a = from < 0 ? to : from;
    letter.b = to < 0 ? letter.a : to;
    for (let block = Math.floor(letter.a / BLOCK); block <= Math.floor(letter.b / BLOCK); block++) blocks[block].push(letter);
  }
  $('count').textContent = shown.length === events.length ? `${events.length} events` : `${shown.length} of ${events.length} events`;
  resize();
  // the lane of a process that is asked for comes into view
  const lane = some && pid !== narrowed ? ordered.find(it => wanted.has(it.pid)).column : -1;
  narrowed = pid;
  if (lane >= 0) { moveTo((lane + 0.5) * columnWidth - (width - gutter) / 2, atTop); draw(); }
}
let narrowed = '';

// ---- drawing: only what is in view

const scroll = $('scroll'), lanes = $('lanes'), heads = $('heads-canvas'), rows = $('rows');
let width = 0, height = 0, rowHeight = 22, columnWidth = 110, gutter = 400, colours = {};
const pool = [];
function readColours() {
  const style = getComputedStyle(document.documentElement);
  for (const name of ['back', 'band', 'text', 'dim', 'line', 'life', 'pick', 'picked', 'message', 'exit', 'link', 'monitor', 'question', 'mark']) colours[name] = style.getPropertyValue('--' + name).trim();
}
function size(canvas, w, h) {
  const ratio = devicePixelRatio || 1;
  canvas.width = Math.max(1, Math.round(w * ratio)); canvas.height = Math.max(1, Math.round(h * ratio));
  canvas.style.width = w + 'px'; canvas.style.height = h + 'px';
  canvas.getContext('2d').setTransform(ratio, 0, 0, ratio, 0, 0);
}
function resize() {
  rowHeight = Math.max(4, Math.round(22 * zoom)); columnWidth = Math.max(24, Math.round(110 * zoom));
  width = scroll.clientWidth; height = scroll.clientHeight;
  gutter = Math.min(430, Math.round(width * 0.45));
  $('view').style.width = width + 'px'; $('view').style.height = height + 'px';
  $('space').style.width = gutter + columns.length * columnWidth + 20 + 'px';
  // (browsers place nothing below some 30 million pixels)
  $('space').style.height = Math.min(3e7, Math.max(height, (shown.length + 1) * rowHeight)) + 'px';
  size(lanes, width - gutter, height); lanes.style.left = gutter + 'px';
  headed = ''; size(heads, width - gutter, 54); heads.style.left = gutter + 'px';
  rows.style.width = gutter + 'px'; rows.style.height = height + 'px';
  look();
  draw();
}
// Where the view is. The page is asked for it where it may have moved, and not while something is drawn: it would be laid out anew.
let atTop = 0, atLeft = 0;
function look() { atTop = scroll.scrollTop; atLeft = scroll.scrollLeft; }
function moveTo(left, top) {
  if (left === atLeft && top === atTop) return;
  scroll.scrollLeft = Math.max(0, left); scroll.scrollTop = Math.max(0, top);
  look();
}
let wanted = false;
function ask() { if (!wanted) { wanted = true; requestAnimationFrame(draw); } }
const xOf = pid => { const column = processes.get(pid).column; return column < 0 ? -1 : (column + 0.5) * columnWidth - atLeft; };
function draw() {
  wanted = false;
  const start = performance.now();
  const top = atTop, first = Math.max(0, Math.floor(top / rowHeight) - 1), end = Math.min(shown.length, first + Math.ceil(height / rowHeight) + 3);
  const yOf = row => (row + 0.5) * rowHeight - top;
  const c = lanes.getContext('2d'), w = width - gutter;
  c.fillStyle = colours.back; c.fillRect(0, 0, w, height);
  // bands of the desks
  const left = Math.max(0, Math.floor(atLeft / columnWidth)), right = Math.min(columns.length, Math.ceil((atLeft + w) / columnWidth) + 1);
  c.fillStyle = colours.band;
  for (let k = left; k < right; k++) if (columns[k].desk % 2 === 0) c.fillRect(k * columnWidth - atLeft, 0, columnWidth, height);
  if (rowOf[cursor] >= 0) { c.fillStyle = colours.pick; c.fillRect(0, yOf(rowOf[cursor]) - rowHeight / 2, w, rowHeight); }
  // lives
  const firstAt = shown[first] ? shown[first].at : 0, lastAt = end > 0 && shown[end - 1] ? shown[end - 1].at : 0;
  for (let k = left; k < right; k++) {
    const x = (k + 0.5) * columnWidth - atLeft, members = columns[k].members;
    c.strokeStyle = colours.line; c.lineWidth = 1; c.setLineDash([2, 3]);
    c.beginPath(); c.moveTo(x, 0); c.lineTo(x, height); c.stroke(); c.setLineDash([]);
    c.strokeStyle = colours.life; c.lineWidth = 3;
    for (let one = Math.max(0, bornBefore(members, firstAt) - 1); one < members.length && members[one].born <= lastAt; one++) {
      const it = members[one];
      const from = it.born < 0 ? -1e9 : it.born > firstAt ? rowFor(it.born) : -1, to = it.ended <= lastAt ? rowFor(it.ended) : shown.length + 50;
      if (to < first) continue;
      c.beginPath(); c.moveTo(x, Math.max(-10, yOf(from))); c.lineTo(x, Math.min(height + 10, yOf(to))); c.stroke();
    }
  }
  // letters
  const seen = new Set(), passing = new Map();
  for (let block = Math.floor(first / BLOCK); block <= Math.floor(end / BLOCK) && block < blocks.length; block++) for (const letter of blocks[block]) {
    if (letter.b < first || letter.a > end || seen.has(letter)) continue;
    seen.add(letter);
    if (letter.a >= first || letter.b <= end) { arrow(c, letter, yOf); continue; }
    // one that only passes through: all of them in one faint stroke
    if (!passing.has(letter.family)) passing.set(letter.family, []);
    passing.get(letter.family).push(letter);
  }
  for (const [family, list] of passing) {
    c.strokeStyle = colours[family]; c.lineWidth = 1; c.setLineDash([]); c.globalAlpha = Math.max(0.08, Math.min(0.4, 20 / list.length));
    c.beginPath();
    for (const letter of list) { c.moveTo(xOf(letter.from), yOf(letter.a)); c.lineTo(xOf(letter.to), yOf(letter.b)); }
    c.stroke(); c.globalAlpha = 1;
  }
  // marks
  for (let row = first; row < end; row++) mark(c, shown[row], yOf(row));
  drawRows(first, end, top);
  const heading = `${bySlot} ${cursor} ${atLeft} ${zoom} ${width} ${columns.length} ${colours.back}`;
  if (heading !== headed) { headed = heading; drawHeads(left, right); }
  drawn = seen.size;
  frames.push(performance.now() - start);
}
const frames = [];
let headed = '', drawn = 0;
// how many of a lane were born by then
function bornBefore(members, at) {
  let low = 0, high = members.length;
  while (low < high) { const mid = (low + high) >> 1; if (members[mid].born <= at) low = mid + 1; else high = mid; }
  return low;
}
// the row of the first shown event at or after this one
function rowFor(at) {
  let low = 0, high = shown.length;
  while (low < high) { const mid = (low + high) >> 1; if (shown[mid].at < at) low = mid + 1; else high = mid; }
  return low;
}
const DASH = { message: [], exit: [], link: [7, 4], monitor: [4, 3], question: [1, 3] };
function arrow(c, letter, yOf) {
  const x = xOf(letter.from), to = xOf(letter.to);
  if (x < -0.5 && to < -0.5) return;
  const sent = rowOf[letter.sent], came = letter.came === Infinity ? -1 : rowOf[letter.came];
  const y1 = sent >= 0 ? yOf(sent) : yOf(came) - rowHeight, y2 = came >= 0 ? yOf(came) : y1 + rowHeight * 0.7;
  const lit = cursor === letter.sent || cursor === letter.came;
  c.strokeStyle = c.fillStyle = colours[letter.family]; c.lineWidth = lit ? 3 : 1.3; c.setLineDash(DASH[letter.family]);
  // one that did not come goes half of the way, and has an open head
  const far = letter.came === Infinity ? 0.5 : 1, tx = x === to ? x + 26 : x + (to - x) * far, ty = y2;
  c.beginPath(); c.moveTo(x, y1);
  if (x === to) c.bezierCurveTo(x + 40, y1, x + 40, ty, x, ty); else c.lineTo(tx, ty);
  c.stroke(); c.setLineDash([]);
  const angle = x === to ? Math.PI : Math.atan2(ty - y1, tx - x), hx = x === to ? x : tx, s = lit ? 9 : 7;
  c.beginPath(); c.moveTo(hx - s * Math.cos(angle - 0.45), ty - s * Math.sin(angle - 0.45)); c.lineTo(hx, ty); c.lineTo(hx - s * Math.cos(angle + 0.45), ty - s * Math.sin(angle + 0.45));
  if (letter.came === Infinity) c.stroke(); else { c.closePath(); c.fill(); }
}
function mark(c, it, y) {
  const x = xOf(owner(it)); if (x < -20 || x > width - gutter + 20) return;
  const r = Math.min(5, rowHeight / 3);
  c.lineWidth = 2; c.setLineDash([]);
  if (it.event === 'born') { c.fillStyle = colours.back; c.strokeStyle = colours.life; c.beginPath(); c.arc(x, y, r + 1, 0, 7); c.fill(); c.stroke();
    if (it.by) { const from = xOf(it.by); c.strokeStyle = colours.link; c.setLineDash([7, 4]); c.lineWidth = 1.3; c.beginPath(); c.moveTo(from, y); c.lineTo(x + (from < x ? -r - 1 : r + 1), y); c.stroke(); c.setLineDash([]); } }
  if (it.event === 'took') { c.fillStyle = colours.mark; c.beginPath(); c.arc(x, y, r, 0, 7); c.fill(); }
  if (it.event === 'flag') { c.fillStyle = colours.mark; c.fillRect(x - r, y - r, 2 * r, 2 * r); }
  if (it.event === 'refused') { c.strokeStyle = colours.exit; c.beginPath(); c.arc(x, y, r, 0, 7); c.moveTo(x - r, y + r); c.lineTo(x + r, y - r); c.stroke(); }
  const ends = it.event === 'left' || (it.then || []).some(change => change.did === 'end');
  if (ends) { c.strokeStyle = colours.exit; c.beginPath(); c.moveTo(x - r - 1, y - r - 1); c.lineTo(x + r + 1, y + r + 1); c.moveTo(x + r + 1, y - r - 1); c.lineTo(x - r - 1, y + r + 1); c.stroke(); }
}
function drawRows(first, end, top) {
  // (where rows are too low for texts, every so many of them has its stamp)
  const every = rowHeight >= 14 ? 1 : Math.ceil(18 / rowHeight), count = end - first;
  while (pool.length < count) {
    const row = document.createElement('div'); row.className = 'row'; row.setAttribute('role', 'option');
    pool.push(row); rows.appendChild(row);
  }
  const ring = pool.length;
  pool.forEach((row, place) => {
    // (a row keeps its element while it is in view)
    const k = ring === 0 ? 0 : ((place - first) % ring + ring) % ring;
    if (k >= count || ((first + k) % every !== 0 && shown[first + k].at !== cursor)) { row.hidden = true; return; }
    const it = shown[first + k];
    row.hidden = false;
    if (row.at !== it.at) {
      row.at = it.at; row.id = 'e' + it.at; row.innerHTML = '';
      const stamp = document.createElement('b'); stamp.textContent = `${it.stamp}@${it.desk}`; stamp.style.width = '64px';
      row.append(stamp, it.text); row.title = it.text;
      row.className = 'row' + (FAMILY[it.signal] ? ' c-' + FAMILY[it.signal] : it.event === 'left' ? ' c-exit' : '');
      row.setAttribute('aria-setsize', shown.length);
    }
    row.setAttribute('aria-posinset', first + k + 1);
    row.classList.toggle('at', it.at === cursor);
    row.setAttribute('aria-selected', it.at === cursor);
    row.style.transform = `translateY(${(first + k) * rowHeight - top}px)`;
    row.style.width = gutter + 'px'; row.style.height = row.style.lineHeight = Math.max(14, rowHeight) + 'px';
    row.style.fontSize = Math.max(9, Math.min(12, rowHeight * 0.6)) + 'px'; row.style.zIndex = it.at === cursor ? 1 : 0;
  });
}
function drawHeads(left, right) {
  const c = heads.getContext('2d'), w = width - gutter;
  c.fillStyle = colours.back; c.fillRect(0, 0, w, 54);
  c.textAlign = 'center';
  if (told && cursor >= 0) stateAt(cursor);
  for (let k = left; k < right; k++) {
    // (of a slot, the process that lived there last at the moment)
    const members = columns[k].members, it = members[Math.max(0, bornBefore(members, cursor) - 1)], x = (k + 0.5) * columnWidth - atLeft;
    if (it.desk % 2 === 0) { c.fillStyle = colours.band; c.fillRect(k * columnWidth - atLeft, 0, columnWidth, 54); }
    const starts = k === 0 || columns[k - 1].desk !== it.desk;
    // (that of the first lane in view stays there, until the next desk comes near)
    if (starts || (k === left && (k + 1 >= columns.length || columns[k + 1].desk === it.desk))) { c.fillStyle = colours.dim; c.textAlign = 'left'; c.font = '11px sans-serif'; c.fillText('desk ' + it.desk, Math.max(0, k * columnWidth - atLeft) + 4, 12); c.textAlign = 'center'; }
    const now = state.get(it.pid);
    c.fillStyle = !told || (now && now.alive) ? colours.text : colours.dim;
    c.font = columnWidth < 60 ? '9px monospace' : '12px ui-monospace, \"DejaVu Sans Mono\", monospace';
    // (a long name is cut at the column)
    const name = nameOf(it.pid), most = Math.max(1, Math.floor(columnWidth / 7.6));
    if (columnWidth < 60 && columnWidth >= 12) { c.save(); c.translate(x + 3, 52); c.rotate(-Math.PI / 3); c.textAlign = 'left'; c.fillText((name || it.pid).slice(0, 8), 0, 0); c.restore(); c.textAlign = 'center'; }
    else if (columnWidth >= 60) { c.fillText(name.length > most ? name.slice(0, most - 1) + '…' : name, x, 30); c.fillText(it.pid, x, 46); }
    if (now && !now.isEarlier && now.box.length > 0 && columnWidth >= 40) { c.fillStyle = colours.picked; c.font = '10px sans-serif'; c.fillText('✉' + now.box.length, x + columnWidth / 2 - 16, 14); }
    if (now && !now.alive && columnWidth >= 40) { c.fillStyle = colours.exit; c.fillText('✕', x + columnWidth / 2 - 12, 14); }
  }
}

// ---- one event, and the processes at that moment

let cursor = -1;
function element(name, className, text) { const it = document.createElement(name); if (className) it.className = className; if (text !== undefined) it.textContent = text; return it; }
function go(at, centre) {
  if (at < 0 || at >= events.length) return;
  cursor = at;
  const row = rowOf[at];
  if (row >= 0) {
    const y = row * rowHeight, x = processes.get(owner(events[at])).column * columnWidth;
    const top = centre || y < atTop ? y - height / 3 : y + rowHeight > atTop + height ? y - height * 2 / 3 : atTop;
    const left = x < atLeft || x + columnWidth > atLeft + width - gutter ? x - (width - gutter) / 2 : atLeft;
    moveTo(left, top);
  }
  tell(); ask();
  scroll.setAttribute('aria-activedescendant', 'e' + at);
  history.replaceState(null, '', '#' + placeOf(events[at]));
}
function tell() {
  const it = events[cursor], box = $('event');
  box.replaceChildren(element('div', 'what', `event ${cursor + 1} of ${events.length}, at stamp ${it.stamp} of desk ${it.desk}`), element('code', '', it.text));
  const letter = cameBy.get(cursor), sent = sentBy.get(cursor) || [];
  if (letter) box.append(element('p', 'what', `sent at ${events[letter.sent].stamp}@${events[letter.sent].desk}`));
  for (const one of sent) box.append(element('p', 'what', `${it.event === 'said' ? '' : one.text + ' to ' + one.to + ': '}` + (one.came === Infinity ? 'in flight at the end' : `arrives at ${events[one.came].stamp}@${events[one.came].desk}`)));
  if (it.then && it.event === 'came' && it.then.length === 0) box.append(element('p', 'what', 'it changes nothing'));
  $('b-follow').disabled = other() < 0;
  const list = $('states');
  if (!told) { list.replaceChildren(element('p', 'what', 'This history does not say what its events changed.')); return; }
  stateAt(cursor);
  const mine = [owner(it), peer(it)].filter(Boolean);
  const others = columns.map(lane => lane.members[Math.max(0, bornBefore(lane.members, cursor) - 1)].pid);
  const order = [...mine, ...others.filter(pid => !mine.includes(pid))].filter(pid => state.has(pid));
  if (!list.firstChild || list.firstChild.tagName !== 'H2') list.replaceChildren(element('h2'));
  list.firstChild.textContent = `${living} alive, ${state.size - living} exited`;
  showCards(order, mine, 0, list.firstChild.nextSibling);
}
// The cards are brought into this order. One is made anew only where its process has changed, and only a few in a frame: the
// others follow in the next ones.
const cards = new Map(), MOST_CARDS = 40, MOST_MADE = 2;
let asked = 0;
function showCards(order, mine, from, next) {
  const list = $('states'), mark = ++asked;
  let made = 0, k = from;
  for (; k < Math.min(order.length, MOST_CARDS) && made < MOST_MADE; k++) {
    const pid = order[k], it = state.get(pid), last = it.box[it.box.length - 1];
    const says = `${it.count} ${last !== undefined && last.since === cursor}`, old = cards.get(pid);
    let box = old && old.box;
    if (!old || old.says !== says) {
      box = card(pid, it); made++;
      cards.set(pid, { says, box });
      if (old && old.box === next) next = box;
      if (old && old.box.parentNode === list) old.box.replaceWith(box);
    }
    box.classList.toggle('at', mine.includes(pid));
    if (next && next !== box && next.nextSibling === box) { next.remove(); next = box; }
    if (next === box) next = next.nextSibling; else list.insertBefore(box, next);
  }
  if (k < Math.min(order.length, MOST_CARDS)) {
    list.setAttribute('aria-busy', 'true');
    requestAnimationFrame(() => { if (mark === asked) { stateAt(cursor); showCards(order, mine, k, next); } });
    return;
  }
  list.removeAttribute('aria-busy');
  while (next) { const gone = next; next = next.nextSibling; gone.remove(); }
  if (order.length > MOST_CARDS) list.append(element('p', 'what', `and ${order.length - MOST_CARDS} more: narrow them by the filter`));
  if (cards.size > 400) cards.clear();
}
function card(pid, it) {
  const box = element('div', 'proc' + (it.alive ? '' : ' gone')), head = element('h3');
  head.append(element('span', 'mono', pid), nameOf(pid), element('span', '', it.alive ? (it.traps ? 'alive, traps exits' : 'alive') : 'exited with ' + it.reason));
  box.append(head);
  if (!it.alive) return box;
  if (it.isEarlier) { box.append(element('p', '', 'it lived before this history: what it held then is not known here')); return box; }
  box.append(element('p', '', it.box.length === 0 ? 'mailbox empty' : `mailbox, ${it.box.length}:`));
  if (it.box.length > 0) { const list = element('ul', 'mono'); for (const item of it.box.slice(0, 12)) list.append(element('li', item.since === cursor ? 'new' : '', itemText(item))); if (it.box.length > 12) list.append(element('li', '', `and ${it.box.length - 12} more`)); box.append(list); }
  const few = (map, say) => { const list = [...map]; return list.slice(0, 8).map(say).join(', ') + (list.length > 8 ? ` and ${list.length - 8} more` : ''); };
  if (it.links.size) box.append(element('p', '', 'linked with ' + few(it.links, ([peer]) => peer)));
  if (it.watches.size) box.append(element('p', '', 'monitors ' + few(it.watches, ([ref, peer]) => `${peer} (${ref})`)));
  if (it.watched.size) box.append(element('p', '', 'monitored by ' + few(it.watched, ([ref, peer]) => `${peer} (${ref})`)));
  return box;
}
function other() {
  const letter = cameBy.get(cursor);
  if (letter) return letter.sent;
  const sent = (sentBy.get(cursor) || []).find(one => one.came < Infinity);
  return sent ? sent.came : -1;
}

// ---- what the reader does

function step(by) { const row = rowOf[cursor] < 0 ? rowFor(cursor) : rowOf[cursor] + by; go(shown[Math.max(0, Math.min(shown.length - 1, row))].at); }
function stepOf(by) { const pid = owner(events[cursor]); for (let at = cursor + by; at >= 0 && at < events.length; at += by) if (owner(events[at]) === pid && rowOf[at] >= 0) return go(at); }
function scale(by) { const row = atTop / rowHeight; zoom = Math.max(0.2, Math.min(3, zoom * by)); resize(); moveTo(atLeft, row * rowHeight); draw(); }
function setTheme(theme) { document.documentElement.dataset.theme = theme; readColours(); if (width) draw(); }
const media = matchMedia('(prefers-color-scheme: dark)');
media.addEventListener('change', () => setTheme(media.matches ? 'dark' : 'light'));
scroll.addEventListener('scroll', () => { look(); ask(); }, { passive: true });
scroll.addEventListener('wheel', event => { if (event.ctrlKey) { event.preventDefault(); scale(event.deltaY < 0 ? 1.1 : 1 / 1.1); } }, { passive: false });
let drag = null;
scroll.addEventListener('pointerdown', event => { drag = { x: event.clientX, y: event.clientY, left: scroll.scrollLeft, top: scroll.scrollTop, moved: false }; });
addEventListener('pointermove', event => { if (!drag || !(event.buttons & 1)) return; const dx = event.clientX - drag.x, dy = event.clientY - drag.y; if (Math.abs(dx) + Math.abs(dy) > 4) drag.moved = true; if (drag.moved) { scroll.scrollLeft = drag.left - dx; scroll.scrollTop = drag.top - dy; } });
addEventListener('pointerup', event => {
  if (drag && !drag.moved && scroll.contains(event.target)) {
    const box = scroll.getBoundingClientRect(), row = Math.floor((event.clientY - box.top + scroll.scrollTop) / rowHeight);
    if (shown[row]) go(shown[row].at);
  }
  drag = null;
});
addEventListener('resize', resize);
addEventListener('hashchange', () => { const at = addressed(); if (at >= 0 && at !== cursor) go(at, true); });
$('filter').addEventListener('input', refilter);
$('filter').addEventListener('submit', event => event.preventDefault());
$('filter').addEventListener('reset', () => setTimeout(() => { $('f-slot').checked = bySlot; refilter(); }));
$('larger').onclick = () => scale(1.25); $('smaller').onclick = () => scale(0.8);
$('f-slot').onchange = () => { bySlot = $('f-slot').checked; refilter(); go(cursor, true); };
$('theme').onclick = () => setTheme(document.documentElement.dataset.theme === 'dark' ? 'light' : 'dark');
$('help').onclick = () => $('keys').showModal();
$('b-first').onclick = () => go(shown[0].at); $('b-last').onclick = () => go(shown[shown.length - 1].at);
$('b-back').onclick = () => step(-1); $('b-next').onclick = () => step(1);
$('b-follow').onclick = () => { const at = other(); if (at >= 0) go(at, true); };
const KEYS = { ArrowDown: () => step(1), j: () => step(1), ArrowUp: () => step(-1), k: () => step(-1), ArrowRight: () => stepOf(1), ArrowLeft: () => stepOf(-1),
  PageDown: () => step(20), PageUp: () => step(-20), Home: () => go(shown[0].at), End: () => go(shown[shown.length - 1].at), f: () => $('b-follow').click(),
  '+': () => scale(1.25), '=': () => scale(1.25), '-': () => scale(0.8), t: () => $('theme').click(), '/': () => $('f-text').focus(), '?': () => $('help').click() };
addEventListener('keydown', event => {
  if (event.key === 'Escape') { $('filter').reset(); scroll.focus(); return; }
  if (event.ctrlKey || event.metaKey || event.altKey || event.target.matches('input, select') || shown.length === 0) return;
  if (KEYS[event.key]) { event.preventDefault(); KEYS[event.key](); }
});

for (const it of ordered) { const option = element('option'); option.value = it.pid; option.label = nameOf(it.pid); $('pids').append(option); }
for (const desk of [...new Set(events.map(it => it.desk))].sort((a, b) => a - b)) $('f-desk').append(new Option(desk, desk));
for (const what of ['message', 'exit', 'link', 'monitor', 'question', 'born', 'took', 'flag', 'left', 'refused']) $('f-what').append(new Option(what, what));
// where slots were used again and again, a lane each
bySlot = $('f-slot').checked = ordered.length > 1.5 * new Set(ordered.map(it => `${it.desk}.${it.slot}`)).size;
setTheme(media.matches ? 'dark' : 'light');
refilter();
if (events.length) go(addressed() >= 0 ? addressed() : verdict.why === undefined ? 0 : events.length - 1);
const ready = performance.now();

document.title = events.length === 1 ? 'History: 1 event' : `History: ${events.length} events`;
if (verdict.why !== undefined) { $('fault').textContent = 'At fault: ' + verdict.why; $('fault').hidden = false; }

// (for tests in a browser)
window.page = { go, step, refilter, stateAt, itemText, events, letters, leftOver, verdict, frames, times: { parsed: parsed - begun, ready: ready - begun, since: ready },
  get cursor() { return cursor; }, get drawn() { return drawn; }, get shown() { return shown.length; }, get columns() { return columns.length; } };
}
</script>
</body>
</html>";
