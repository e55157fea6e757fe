//! The frame of a page: its style, its headings and its script. What a report tells stands between these texts.

/// The head, with the style, up to the tally.
pub const HEAD: &[u8] = br#"<!doctype html>
<html lang="en">
<head>
<meta charset="utf-8">
<meta name="viewport" content="width=device-width, initial-scale=1">
<title>fwupdemu report</title>
<style>
:root {
  color-scheme: light dark;
  --u: 14px; --h: 26px; --label: 136px; --axis: 28px; --s: clamp(5px, calc(var(--u) - 3px), 11px);
  --paper: #f5f6f8; --card: #ffffff; --ink: #1b2430; --soft: #5f6c7b; --line: #e4e8ed; --band: #f1f4f9; --hover: #eef3fb;
  --blue: #2f6fde; --teal: #0d8f86; --violet: #7a4fd0; --green: #1f9254; --amber: #c27c0e; --red: #d3372f; --grey: #9aa6b3;
}
@media (prefers-color-scheme: dark) {
  :root {
    --paper: #10151c; --card: #171e27; --ink: #e5ebf2; --soft: #95a4b5; --line: #27313d; --band: #1d2631; --hover: #222d3a;
    --blue: #6ba1ff; --teal: #3cc9bd; --violet: #b496ff; --green: #4bcb86; --amber: #eeb04a; --red: #ff7a70; --grey: #6d7d8f;
  }
}
* { box-sizing: border-box; }
body { margin: 0 0 40px; background: var(--paper); color: var(--ink); font: 14px/1.5 system-ui, -apple-system, "Segoe UI", Roboto, "Helvetica Neue", Arial, sans-serif; }
header, section { max-width: 1440px; margin: 0 auto; padding: 0 28px; }
header { padding-top: 26px; }
h1 { margin: 0 0 12px; font-size: 22px; font-weight: 650; letter-spacing: -0.01em; }
h1 span { color: var(--soft); font-weight: 400; }
h2 { margin: 28px 0 10px; font-size: 16px; font-weight: 650; }
code, .board, td { font-family: ui-monospace, SFMono-Regular, Menlo, Consolas, "DejaVu Sans Mono", monospace; font-size: 12.5px; }
#tally { display: flex; flex-wrap: wrap; gap: 8px; margin: 0; padding: 0; list-style: none; }
#tally li { padding: 3px 13px; border: 1px solid var(--line); border-radius: 99px; background: var(--card); color: var(--soft); white-space: nowrap; }
#tally b { color: var(--ink); font-variant-numeric: tabular-nums; }
#tally .fine { border-color: var(--green); }
#tally .warn { border-color: var(--red); color: var(--red); }
#tally .warn b { color: inherit; }
.none { display: none; margin: 0; padding: 40px 20px; border: 1px dashed var(--line); border-radius: 12px; background: var(--card); color: var(--soft); text-align: center; }
.tools { display: flex; flex-wrap: wrap; align-items: center; gap: 4px 16px; margin: 0 0 10px; color: var(--soft); font-size: 12.5px; }
.tools > * { display: inline-flex; align-items: center; gap: 7px; white-space: nowrap; }
.tools .push { margin-left: auto; }
.tools em { position: relative; flex: none; width: 11px; height: 11px; --s: 11px; }
.tools em.wide { width: 26px; border-radius: 5px; }
input, select { font: inherit; color: inherit; background: var(--card); border: 1px solid var(--line); border-radius: 8px; padding: 5px 10px; }
input[type=range] { padding: 0; width: 120px; accent-color: var(--blue); }
#find { min-width: 260px; }
#frame { position: relative; overflow: auto; max-height: 74vh; border: 1px solid var(--line); border-radius: 12px; background: var(--card); }
#wide { position: relative; width: calc(var(--label) + (var(--n) + 2) * var(--u)); min-width: 100%; height: calc(var(--axis) + (var(--c) + var(--b)) * var(--h) + 1px); contain: layout style; }
#lanes { position: sticky; left: 0; z-index: 5; width: var(--label); height: 100%; padding-top: var(--axis); display: flex; flex-direction: column; background: var(--card); border-right: 1px solid var(--line); }
#lanes p { margin: 0; height: var(--h); flex: none; padding: 0 12px; line-height: var(--h); font-size: 12.5px; white-space: nowrap; overflow: hidden; text-overflow: ellipsis; color: var(--soft); border-top: 1px solid var(--line); }
#lanes p[style="order:0"] { font-size: 0; }
#lanes p[style="order:0"]::before { content: "daemon"; font-size: 12.5px; }
#lanes .board { order: 1000000000; color: var(--ink); font-size: 12px; }
#plot { position: absolute; inset: 0 0 0 var(--label); overflow: clip; }
#plot::after { content: ""; position: absolute; z-index: 1; inset: var(--axis) 0 0 0; pointer-events: none; background: repeating-linear-gradient(var(--line) 0 1px, transparent 1px var(--h)); }
#plot > * { position: absolute; left: calc(var(--x) * var(--u)); top: calc(var(--axis) + (var(--y, -99) + 0.5) * var(--h)); }
#plot i { z-index: 4; width: var(--s); height: var(--s); margin: calc(var(--s) / -2) 0 0 calc((var(--u) - var(--s)) / 2); cursor: default; }
#plot u { z-index: 2; width: calc((var(--w) + 1) * var(--u)); height: calc(var(--h) * 0.68); margin-top: calc(var(--h) * -0.34); border-radius: 6px; background: color-mix(in srgb, var(--k, var(--grey)) 17%, transparent); }
#plot s { z-index: 3; width: calc((var(--w) + 1) * var(--u)); height: calc(var(--h) * 0.3); margin-top: calc(var(--h) * -0.15); border-radius: 4px; pointer-events: none; }
s, .bar { background: var(--blue); }
s.torn, .torn { background: repeating-linear-gradient(135deg, var(--red) 0 4px, color-mix(in srgb, var(--red) 35%, var(--card)) 4px 8px); }
s.running { background: repeating-linear-gradient(135deg, var(--amber) 0 4px, color-mix(in srgb, var(--amber) 35%, var(--card)) 4px 8px); }
.success { --k: var(--green); } .failed { --k: var(--red); } .needs-reboot, .pending { --k: var(--amber); } .begun { --k: var(--blue); }
.refused { --k: var(--red); } .held { --k: var(--blue); } .kept, .given-back { --k: var(--grey); }
.ask, .recall { border: 2px solid var(--blue); border-radius: 50%; background: var(--card); }
.claim { border-radius: 50%; background: var(--blue); }
.schedule { border: 2px solid var(--violet); border-radius: 50%; background: var(--card); }
.resume { border-radius: 50%; background: var(--violet); }
.question { border-radius: 50%; background: var(--grey); scale: 0.55; }
.back { border: 2px solid var(--grey); background: var(--card); border-radius: 2px; scale: 0.8; }
.plug, .unplug { background: var(--teal); clip-path: polygon(50% 0, 100% 100%, 0 100%); }
.unplug { clip-path: polygon(0 0, 100% 0, 50% 100%); }
.plug.no, .unplug.no { background: var(--grey); }
.ask.kept, .claim.kept, .schedule.kept, .recall.kept { border-color: var(--grey); }
.ask.no, .claim.no, .schedule.no, .recall.no, .resume.no { border: 0; border-radius: 2px; background: var(--red); rotate: 45deg; scale: 0.85; }
.start, .end { background: linear-gradient(var(--grey) 0 0) center / 2px 100% no-repeat; }
.start.write, .end.write { background-image: linear-gradient(var(--blue) 0 0); }
#plot i.start, #plot i.end, #plot i.fault { height: calc(var(--h) * 0.4); margin-top: calc(var(--h) * -0.2); }
.fault { background: linear-gradient(var(--red) 0 0) center / 4px 100% no-repeat; }
.finish { border-radius: 50%; background: var(--k); box-shadow: 0 0 0 2px var(--card); }
.judge { border: 3px solid var(--k); border-radius: 3px; background: var(--card); }
#plot i.boot { z-index: 0; right: 0; top: 0; bottom: 0; width: auto; height: auto; margin: 0; background: var(--card); border-left: 1px solid var(--grey); pointer-events: none; }
#plot i.boot.even { background: var(--band); }
#plot i.cut { z-index: 3; top: 0; bottom: 0; width: var(--u); height: auto; margin: 0; background: linear-gradient(var(--red) 0 0) center / 2px 100% no-repeat; }
#plot b { position: sticky; top: 0; left: var(--label); display: inline-block; padding: 0 8px; line-height: var(--axis); font-style: normal; font-size: 12px; font-weight: 600; white-space: nowrap; pointer-events: auto; color: var(--soft); }
#plot .cut b { position: absolute; left: auto; right: calc(var(--u) / 2 + 1px); padding: 0 5px; margin-top: 5px; line-height: 17px; border-radius: 4px 0 0 4px; background: var(--red); color: var(--card); }
#plot i:hover:not(.boot):not(.cut) { outline: 2px solid var(--ink); outline-offset: 2px; z-index: 6; }
#plot .on { outline: 2px solid var(--ink); outline-offset: 1px; }
.rows { overflow: auto; max-height: 62vh; border: 1px solid var(--line); border-radius: 12px; background: var(--card); }
table { width: 100%; border-collapse: collapse; }
th { position: sticky; top: 0; background: var(--card); color: var(--soft); font-weight: 600; font-size: 12.5px; text-align: left; box-shadow: 0 1px var(--line); }
th, td { padding: 5px 14px; white-space: nowrap; }
td { border-top: 1px solid var(--line); font-variant-numeric: tabular-nums; }
tr:first-child td { border-top: 0; }
td:nth-child(7)::before { content: ""; display: inline-block; width: 8px; height: 8px; margin-right: 8px; border-radius: 50%; background: var(--k, var(--grey)); }
td:nth-child(8) { color: var(--soft); }
tbody tr { cursor: pointer; }
tbody tr:hover, tbody tr.on { background: var(--hover); }
tr[hidden] { display: none; }
#notes ul { margin: 0; padding: 10px 14px; list-style: none; border: 1px solid var(--red); border-radius: 12px; background: var(--card); overflow-wrap: anywhere; }
#notes li { color: var(--soft); } #notes code { color: var(--ink); margin-left: 8px; white-space: pre-wrap; }
#says { position: fixed; z-index: 9; display: none; max-width: min(760px, 92vw); max-height: 60vh; overflow: hidden; margin: 0; padding: 8px 12px; border-radius: 8px; background: var(--ink); color: var(--paper); box-shadow: 0 6px 24px rgb(0 0 0 / 28%); font: 12.5px/1.5 ui-monospace, SFMono-Regular, Menlo, Consolas, "DejaVu Sans Mono", monospace; white-space: pre-wrap; pointer-events: none; }
#chart:not(:has(i)) .none, #entries:not(:has(td)) .none { display: block; }
#chart:not(:has(i)) :is(.tools, #frame), #entries:not(:has(td)) :is(.tools, .rows), #notes:not(:has(li)) { display: none; }
</style>
</head>
<body>
<header>
<h1>fwupdemu <span>report</span></h1>
<ul id=tally>
"#;

/// The heading of the chart, up to the marks.
pub const CHART: &[u8] = br#"</ul>
</header>
<section id=chart>
<h2>What happened</h2>
<p class=none>No event was told: nothing happened.</p>
<div class=tools>
<span><em class=ask></em>asked</span>
<span><em class=claim></em>claimed</span>
<span><em class="ask no"></em>refused</span>
<span><em class=schedule></em>put off</span>
<span><em class=resume></em>resumed</span>
<span><em class=question></em>question</span>
<span><em class=plug></em><em class=unplug></em>plug, unplug</span>
<span><em class=back></em>given back</span>
<span><em class=start></em>step</span>
<span><em class="bar wide"></em>write</span>
<span><em class="torn wide"></em>cut off or faulty</span>
<span><em class="finish success"></em><em class="finish failed"></em><em class="finish needs-reboot"></em>ended: success, failed, needs reboot</span>
<span><em class="judge success"></em>judged</span>
<label class=push>narrow <input id=zoom type=range min=2 max=30 step=1> wide</label>
</div>
<div id=frame><div id=wide><div id=plot>
"#;

/// What stands between the drawing and the lanes' labels.
pub const LANES: &[u8] = br#"</div><div id=lanes>
"#;

/// What stands between the labels and the places of the lanes.
pub const RULES: &[u8] = br#"</div></div></div>
<style>
"#;

/// The heading of the table, up to its rows.
pub const TABLE: &[u8] = br#"</style>
</section>
<section id=entries>
<h2>Requests and entries</h2>
<p class=none>No request and no entry was told.</p>
<div class=tools>
<input id=find type=search placeholder="Search tag, device, version, refusal" autocomplete=off>
<select id=state><option value="">every state</option></select>
<span id=shown></span>
</div>
<div class=rows><table>
<thead><tr><th>entry<th>tag<th>device<th>version<th>client<th>write at events<th>state<th>told last by</thead>
<tbody>
"#;

/// What stands between the table and the lines that are none of a report.
pub const NOTES: &[u8] = br#"</tbody></table></div>
</section>
<section id=notes>
<h2>Not read</h2>
<ul>
"#;

/// The script, and the end.
pub const FOOT: &[u8] = br#"</ul>
</section>
<pre id=says></pre>
<script>
"use strict";
const $ = (id) => document.getElementById(id), root = document.documentElement.style;
const number = (name) => Number(getComputedStyle(document.documentElement).getPropertyValue(name));
const rows = [...document.querySelectorAll("tbody tr")], frame = $("frame"), plot = $("plot"), zoom = $("zoom"), says = $("says");

// The width of an event and the height of a lane, by how many there are.
const lanes = number("--c") + number("--b"), room = frame.clientWidth - 150;
root.setProperty("--h", (lanes > 60 ? 15 : lanes > 24 ? 20 : lanes > 8 ? 26 : 34) + "px");
const widen = (width) => root.setProperty("--u", width + "px");
zoom.value = Math.max(5, Math.min(26, Math.floor(room / (number("--n") + 2))));
widen(zoom.value);
zoom.oninput = () => {
  const middle = (frame.scrollLeft + frame.clientWidth / 2) / frame.scrollWidth;
  widen(zoom.value);
  frame.scrollLeft = middle * frame.scrollWidth - frame.clientWidth / 2;
};

// What an event says, beside it.
plot.onmouseover = (event) => {
  const mark = event.target.closest("i");
  if (!mark) { says.style.display = "none"; return; }
  if (mark.title) { mark.dataset.t = mark.title; mark.title = ""; }
  says.textContent = "event " + mark.id.slice(1) + "\n" + mark.dataset.t;
  says.style.display = "block";
  const at = event.target.getBoundingClientRect(), box = says.getBoundingClientRect();
  const below = at.bottom + 10 + box.height < innerHeight;
  says.style.left = Math.max(8, Math.min(at.left - 12, innerWidth - box.width - 8)) + "px";
  says.style.top = Math.max(8, below ? at.bottom + 10 : at.top - 10 - box.height) + "px";
};
plot.onmouseleave = () => { says.style.display = "none"; };

// The table: which rows are shown, and which one is looked at.
const states = [...new Set(rows.map((row) => row.className))];
for (const state of states) $("state").append(new Option(state));
const filter = () => {
  const words = $("find").value.toLowerCase().split(/\s+/), state = $("state").value;
  let count = 0;
  for (const row of rows) {
    const text = (row.dataset.s ??= row.textContent.toLowerCase());
    row.hidden = (state && !row.classList.contains(state)) || !words.every((word) => text.includes(word));
    count += !row.hidden;
  }
  $("shown").textContent = count + " of " + rows.length + " rows";
};
$("find").oninput = $("state").onchange = filter;
filter();
for (const row of rows) row.onclick = () => {
  for (const old of document.querySelectorAll(".on")) old.classList.remove("on");
  row.classList.add("on");
  const mark = $("e" + row.dataset.e);
  for (const found of [mark, ...document.querySelectorAll('#plot .n' + (row.cells[0].textContent || "none"))]) found.classList.add("on");
  frame.scrollTo({ left: mark.offsetLeft - 60, top: mark.offsetTop - frame.clientHeight / 2, behavior: "smooth" });
  frame.scrollIntoView({ block: "nearest", behavior: "smooth" });
};
</script>
</body>
</html>
"#;
