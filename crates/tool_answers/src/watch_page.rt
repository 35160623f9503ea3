//! The page of `etagere watch`, from tool/watch.html, by tool/watch_page.

/// What stands before the script.
pub const HEAD: &str = r##"<!DOCTYPE html>
<html lang="en">
<head>
<meta charset="utf-8">
<title>etagere watch</title>
<meta name="viewport" content="width=device-width, initial-scale=1">
<meta name="color-scheme" content="light dark">
<meta http-equiv="Content-Security-Policy" content="default-src 'none'; img-src data:; style-src 'unsafe-inline'; script-src 'unsafe-inline'">
<link rel="icon" href="data:,">
<style>
:root {
  color-scheme: light dark;
  --page: #fff;
  --ink: #1c2026;
  --quiet: #59616c;
  --rule: #b9c0c9;
  --unused: #8d96a3;
  --free: #d3d8df;
  --shelf: #eef1f4;
  --live: #aecbf3;
  --live-ink: #10233f;
  --placed: #57c27b;
  --returned: #c22f3d;
  --looked: #f2b632;
}
@media (prefers-color-scheme: dark) {
  :root {
    --page: #14171b;
    --ink: #e8ebef;
    --quiet: #a3acb8;
    --rule: #4a525d;
    --unused: #05070a;
    --free: #272c33;
    --shelf: #3d444e;
    --live: #3d6cb0;
    --live-ink: #f2f6fc;
    --placed: #1f8a48;
    --returned: #ff7d88;
    --looked: #a9780c;
  }
}
* { box-sizing: border-box; }
body {
  margin: 0 auto;
  max-width: 90rem;
  padding: 1rem;
  background: var(--page);
  color: var(--ink);
  font: 1rem/1.5 system-ui, sans-serif;
  font-variant-numeric: tabular-nums;
}
h1 { margin: 0 0 .5rem; font-size: 1.25rem; }
code, output { font-family: ui-monospace, monospace; }
:focus-visible { outline: 3px solid var(--looked); outline-offset: 2px; }
.view { max-height: calc(60vh + 2px); overflow: auto; border: 1px solid var(--rule); }
#atlas {
  display: block;
  width: calc(var(--zoom) * min(100%, 60vh * var(--ratio)));
  aspect-ratio: var(--ratio);
  margin: 0 auto;
}
#atlas rect { vector-effect: non-scaling-stroke; }
.unused { fill: var(--unused); }
.free { fill: var(--free); }
.shelf { fill: var(--shelf); }
.live { fill: var(--live); stroke: var(--live-ink); stroke-width: 1px; }
.placed { fill: var(--placed); stroke-width: 3px; }
.looked { fill: var(--looked); stroke-width: 3px; stroke-dasharray: 2 3; }
.returned { fill: none; stroke: var(--returned); stroke-width: 3px; stroke-dasharray: 8 5; pointer-events: none; }
#labels { fill: var(--live-ink); text-anchor: middle; dominant-baseline: central; pointer-events: none; }
#tip {
  position: fixed;
  z-index: 1;
  padding: .25rem .5rem;
  border: 1px solid var(--rule);
  background: var(--page);
  white-space: pre-line;
  pointer-events: none;
}
#said { display: block; min-height: 3em; margin: .5rem 0; white-space: pre-line; }
#said.bad { color: var(--returned); font-weight: bold; }
#chart { display: block; width: 100%; height: 3.5rem; background: var(--free); }
#chart path { vector-effect: non-scaling-stroke; }
#filled { fill: var(--live); }
#refusals { stroke: var(--returned); stroke-width: 2px; }
#now { stroke: var(--ink); stroke-width: 2px; }
#step { display: block; width: 100%; margin: 0; }
.controls { display: flex; flex-wrap: wrap; gap: .5rem; align-items: center; margin: .5rem 0; }
button { min-width: 2.75rem; min-height: 2.75rem; font: inherit; }
kbd { padding: 0 .3em; border: 1px solid var(--rule); border-radius: .2em; font-family: inherit; }
dl { display: flex; flex-wrap: wrap; gap: .25rem 2rem; margin: 1rem 0; }
dt { color: var(--quiet); }
dd { margin: 0; font-weight: bold; }
.key { display: flex; flex-wrap: wrap; gap: .25rem 1.5rem; margin: .5rem 0; padding: 0; list-style: none; color: var(--quiet); }
.key svg { width: 1.5rem; height: 1rem; margin-right: .4rem; border: 1px solid var(--rule); vertical-align: -.15rem; }
table { border-collapse: collapse; }
th, td { padding: .1rem .75rem; border-bottom: 1px solid var(--rule); text-align: right; }
</style>
</head>
<body>
<header>
  <h1 id="title">Atlas</h1>
</header>
<main>
  <div class="view" id="view" tabindex="0" role="group" aria-label="The page of the atlas">
    <svg id="atlas" role="img" aria-labelledby="title said">
      <g id="ground"></g>
      <g id="shelves"></g>
      <g id="items"></g>
      <g id="marks"></g>
      <g id="labels" aria-hidden="true"></g>
    </svg>
  </div>
  <output id="said" for="step"></output>
  <svg id="chart" preserveAspectRatio="none" aria-hidden="true">
    <path id="filled"/>
    <path id="refusals"/>
    <path id="now"/>
  </svg>
  <label for="step">Commands that have run: <span id="count"></span></label>
  <input type="range" id="step" min="0" step="1" aria-describedby="keys">
  <div class="controls">
    <button type="button" data-go="Home" aria-label="To the new atlas">⇤</button>
    <button type="button" data-go="ArrowLeft" aria-label="One command back">←</button>
    <button type="button" data-go="ArrowRight" aria-label="One command on">→</button>
    <button type="button" data-go="End" aria-label="To the last command">⇥</button>
    <button type="button" data-zoom="0.5" aria-label="Smaller">−</button>
    <button type="button" data-zoom="2" aria-label="Larger">+</button>
    <span id="keys"><kbd>←</kbd> <kbd>→</kbd> a command, <kbd>Page Up</kbd> <kbd>Page Down</kbd> <span id="leap"></span>
      on or back, <kbd>Home</kbd> <kbd>End</kbd>, <kbd>−</kbd> <kbd>+</kbd> the size</span>
  </div>
  <dl>
    <div><dt>Fill</dt><dd id="fill"></dd></div>
    <div><dt>Live</dt><dd id="live"></dd></div>
    <div><dt>Refused so far</dt><dd id="refused"></dd></div>
    <div><dt>Size</dt><dd id="size"></dd></div>
  </dl>
  <ul class="key" aria-label="Colours">
    <li><svg aria-hidden="true"><rect class="live" width="100%" height="100%"/></svg>live</li>
    <li><svg aria-hidden="true"><rect class="live placed" width="100%" height="100%"/></svg>placed by the last command</li>
    <li><svg aria-hidden="true"><rect class="returned" width="100%" height="100%"/></svg>given back by it</li>
    <li><svg aria-hidden="true"><rect class="live looked" width="100%" height="100%"/></svg>looked up by it</li>
    <li><svg aria-hidden="true"><rect class="shelf" width="100%" height="100%"/></svg>free, on a shelf with something live</li>
    <li><svg aria-hidden="true"><rect class="free" width="100%" height="100%"/></svg>free besides</li>
    <li><svg aria-hidden="true"><rect class="unused" width="100%" height="100%"/></svg>in no column</li>
  </ul>
  <details id="list">
    <summary>What is live, as a table</summary>
    <table>
      <caption id="listed"></caption>
      <thead>
        <tr><th scope="col">Line</th><th scope="col">Position</th><th scope="col">Id</th><th scope="col">Left</th>
          <th scope="col">Top</th><th scope="col">Width</th><th scope="col">Height</th></tr>
      </thead>
      <tbody id="rows"></tbody>
    </table>
  </details>
</main>
<div id="tip" role="tooltip" hidden></div>
<noscript>This page draws with JavaScript, which is switched off.</noscript>
<script type="text/plain" id="script">
"##;

/// What stands between the script and its replies.
pub const MIDDLE: &str = r##"</script>
<script type="text/plain" id="replies">
"##;

/// What stands behind the replies.
pub const TAIL: &str = r##"</script>
<script>
"use strict";

// A run is kept as its changes. An item is live after so many commands as stand from `born` up to before `dies`, so any
// step is drawn by one pass over the items, forwards as well as backwards, and only what differs is touched.
function readRun(script, replies) {
  const lines = [];
  // The first line feed is that behind the tag.
  script.split("\n").forEach((text, number) => {
    if (text !== "") lines.push({ text, number });
  });
  const [kind, ...words] = lines.shift().text.split(" ");
  const [width, height, alignWidth, alignHeight, columns] = words.map(Number);
  const isVertical = words[5] === "v";
  const run = {
    kind, isVertical, alignment: isVertical ? alignHeight : alignWidth, columns,
    lines, replies: replies.split("\n").filter((reply) => reply !== ""),
    items: [], itemAt: new Map(),
    sizes: [{ step: 0, width, height }],
    fill: new Float64Array(lines.length + 1),
    live: new Uint32Array(lines.length + 1),
    refused: new Uint32Array(lines.length + 1),
  };
  let kept = 0;
  const end = (item, step) => {
    item.dies = step;
    run.fill[step] -= item.width * item.height;
    run.live[step] -= 1;
  };
  lines.forEach(({ text }, position) => {
    const step = position + 1;
    const [name, ...numbers] = run.replies[position].split(" ");
    run.fill[step] = run.fill[position];
    run.live[step] = run.live[position];
    run.refused[step] = run.refused[position];
    if (name === "placed") {
      const [id, left, top, right, bottom] = numbers.map(Number);
      const item = { position, id, left, top, width: right - left, height: bottom - top, born: step, dies: Infinity };
      run.items.push(item);
      run.itemAt.set(position, item);
      run.fill[step] += item.width * item.height;
      run.live[step] += 1;
    } else if (name === "returned") {
      end(run.itemAt.get(Number(text.slice(2))), step);
    } else if (name === "cleared") {
      for (; kept < run.items.length; kept += 1) {
        if (run.items[kept].dies === Infinity) end(run.items[kept], step);
      }
    } else if (name === "grown") {
      const [w, h] = text.slice(2).split(" ").map(Number);
      run.sizes.push({ step, width: w, height: h });
    } else if (name === "refused" || name === "grow" || name === "no") {
      run.refused[step] += 1;
    }
  });
  return run;
}

function sizeAt(run, step) {
  return run.sizes.findLast((size) => size.step <= step);
}

function areaAt(run, step) {
  const { width, height } = sizeAt(run, step);
  return width * height;
}

const isLive = (item, step) => item.born <= step && step < item.dies;

// The width of a column along the shelves, and how far the columns reach: the rest of the side isn't used.
function columnsAt(run, step) {
  const along = (size) => (run.isVertical ? size.height : size.width);
  const aligned = (length) => length - length % run.alignment;
  const now = along(sizeAt(run, step));
  if (run.columns === 1) return { width: aligned(now), reach: aligned(now) };
  const width = aligned(Math.floor(along(run.sizes[0]) / run.columns));
  const isAsAsked = run.kind === "bucketed" && sizeAt(run, step).step === 0;
  return { width, reach: isAsAsked ? width * run.columns : now - now % width };
}

const byId = (id) => document.getElementById(id);
const run = readRun(byId("script").textContent, byId("replies").textContent);
const last = run.lines.length;
const leap = Math.max(10, Math.ceil(last / 20));
const largest = run.sizes[run.sizes.length - 1];
const slider = byId("step");
const drawn = new Map();
let current = 0;
let zoom = 1;

function svgNode(name, attributes) {
  const node = document.createElementNS("http://www.w3.org/2000/svg", name);
  for (const key in attributes) node.setAttribute(key, attributes[key]);
  return node;
}

function rectNode(kind, { left, top, width, height }) {
  return svgNode("rect", { class: kind, x: left, y: top, width, height });
}

// The rectangle that reaches from `from` to `to` along the shelves, and over the item or the size across.
function stripNode(kind, from, to, { left, top, width, height }) {
  return rectNode(kind, run.isVertical
    ? { left, width, top: from, height: to - from }
    : { top, height, left: from, width: to - from });
}

function drawGround(step) {
  const { width, height } = sizeAt(run, step);
  const whole = { left: 0, top: 0, width, height };
  byId("ground").replaceChildren(rectNode("unused", whole), stripNode("free", 0, columnsAt(run, step).reach, whole));
}

function drawShelves(step) {
  const { width } = columnsAt(run, step);
  const shelves = new Map();
  for (const { item } of drawn.values()) {
    const [along, across] = run.isVertical ? [item.top, item.left] : [item.left, item.top];
    const column = Math.floor(along / width);
    shelves.set(column * 65536 + across, stripNode("shelf", column * width, (column + 1) * width, item));
  }
  byId("shelves").replaceChildren(...shelves.values());
}

// Labels keep their size on the screen, and stand only where they fit, upright or turned.
function labelNode(item, scale) {
  const { id, left, top, width, height } = item;
  const font = Math.min(13, scale * Math.min(width, height) / 1.2) / scale;
  const length = (String(id).length + 1) * font * 0.62;
  if (font * scale < 9 || length > Math.max(width, height)) return null;
  const [x, y] = [left + width / 2, top + height / 2];
  const node = svgNode("text", { x, y, "font-size": font });
  if (length > width) node.setAttribute("transform", `rotate(-90 ${x} ${y})`);
  node.textContent = id;
  return node;
}

function scaleNow() {
  return byId("atlas").getScreenCTM().a;
}

function drawLabels() {
  const labels = [];
  const scale = scaleNow();
  for (const entry of drawn.values()) {
    entry.label = labelNode(entry.item, scale);
    if (entry.label) labels.push(entry.label);
  }
  byId("labels").replaceChildren(...labels);
}

function drawItems(step) {
  for (const [position, { item, rect, label }] of drawn) {
    if (isLive(item, step)) continue;
    rect.remove();
    label?.remove();
    drawn.delete(position);
  }
  const [rects, labels] = [document.createDocumentFragment(), document.createDocumentFragment()];
  const scale = scaleNow();
  for (const item of run.items) {
    if (item.born > step) break;
    if (!isLive(item, step) || drawn.has(item.position)) continue;
    const [rect, label] = [rectNode("live", item), labelNode(item, scale)];
    rect.dataset.position = item.position;
    rects.append(rect);
    if (label) labels.append(label);
    drawn.set(item.position, { item, rect, label });
  }
  byId("items").append(rects);
  byId("labels").append(labels);
}

// What the last command did stands out, by colour and by the line around it.
function drawMarks(step) {
  for (const node of document.querySelectorAll("#items .placed, #items .looked")) node.setAttribute("class", "live");
  const mark = (position, kind) => drawn.get(position).rect.setAttribute("class", `live ${kind}`);
  const position = step - 1;
  const [name] = (run.replies[position] ?? "").split(" ");
  if (name === "placed") mark(position, "placed");
  if (name === "at") mark(Number(run.lines[position].text.slice(2)), "looked");
  const gone = name === "returned" ? [run.itemAt.get(Number(run.lines[position].text.slice(2)))]
    : name === "cleared" ? run.items.filter((item) => item.dies === step) : [];
  byId("marks").replaceChildren(...gone.map((item) => rectNode("returned", item)));
}

function percent(part, whole) {
  return `${(100 * part / whole).toFixed(1)} %`;
}

function tell(step) {
  const { width, height } = sizeAt(run, step);
  const said = byId("said");
  if (step === 0) {
    said.textContent = "The new atlas, before the first command";
    said.className = "";
  } else {
    const { text, number } = run.lines[step - 1];
    const isBad = run.refused[step] > run.refused[step - 1];
    said.textContent = `Line ${number}: ${text}\n→ ${run.replies[step - 1]}`;
    said.className = isBad ? "bad" : "";
  }
  byId("count").textContent = `${step} of ${last}`;
  byId("fill").textContent = `${percent(run.fill[step], width * height)}, ${run.fill[step]} of ${width * height} pixels`;
  byId("live").textContent = run.live[step];
  byId("refused").textContent = run.refused[step];
  byId("size").textContent = `${width} × ${height}`;
  slider.value = step;
  slider.setAttribute("aria-valuetext", `${step} of ${last}`);
  byId("now").setAttribute("d", `M${step} 0V100`);
}

function listLive() {
  if (!byId("list").open) return;
  const most = 1000;
  const rows = [...drawn.values()].slice(0, most).map(({ item }) => {
    const row = document.createElement("tr");
    const { position, id, left, top, width, height } = item;
    for (const value of [run.lines[position].number, position, id, left, top, width, height]) {
      row.insertCell().textContent = value;
    }
    return row;
  });
  byId("listed").textContent = drawn.size > most ? `The first ${most} of ${drawn.size}` : `${drawn.size} in all`;
  byId("rows").replaceChildren(...rows);
}

function show(wanted) {
  current = Math.min(last, Math.max(0, Math.round(wanted) || 0));
  byId("tip").hidden = true;
  drawGround(current);
  drawItems(current);
  drawShelves(current);
  drawMarks(current);
  tell(current);
  listLive();
}

// The fill over all commands, at some thousand of them, with a tick where one was refused since the one before.
function drawChart() {
  const chart = byId("chart");
  const count = Math.min(last, 1000);
  const steps = Array.from({ length: count + 1 }, (_, index) => Math.round(index * last / Math.max(1, count)));
  const points = steps.map((step) => `${step} ${100 - 100 * run.fill[step] / areaAt(run, step)}`);
  const refusals = steps.filter((step, index) => index > 0 && run.refused[step] > run.refused[steps[index - 1]]);
  chart.setAttribute("viewBox", `0 0 ${Math.max(1, last)} 100`);
  byId("filled").setAttribute("d", `M0 100L${points.join("L")}V100Z`);
  byId("refusals").setAttribute("d", refusals.map((step) => `M${step} 92V100`).join(""));
  chart.addEventListener("pointerdown", (event) => {
    const { left, width } = chart.getBoundingClientRect();
    show(last * (event.clientX - left) / width);
  });
}

const steps = {
  ArrowLeft: () => current - 1,
  ArrowRight: () => current + 1,
  PageUp: () => current + leap,
  PageDown: () => current - leap,
  Home: () => 0,
  End: () => last,
};

function zoomBy(factor) {
  zoom = Math.min(64, Math.max(1, zoom * factor));
  byId("atlas").style.setProperty("--zoom", zoom);
}

function onKey(event) {
  const isScrolling = zoom > 1 && event.target === byId("view");
  if (isScrolling || event.altKey || event.ctrlKey || event.metaKey) return;
  if (event.key in steps) show(steps[event.key]());
  else if (event.key === "+") zoomBy(2);
  else if (event.key === "-") zoomBy(0.5);
  else return;
  event.preventDefault();
}

function onPointer(event) {
  const tip = byId("tip");
  const entry = drawn.get(Number(event.target.dataset?.position ?? -1));
  tip.hidden = !entry;
  if (!entry) return;
  const { position, id, left, top, width, height } = entry.item;
  const { text, number } = run.lines[position];
  tip.textContent = `id ${id}\n${width} × ${height} at ${left}, ${top}\nline ${number}: ${text} (position ${position})`;
  tip.style.left = `${Math.max(0, Math.min(event.clientX + 14, innerWidth - tip.offsetWidth - 4))}px`;
  tip.style.top = `${Math.max(0, Math.min(event.clientY + 14, innerHeight - tip.offsetHeight - 4))}px`;
}

function showAsked() {
  const asked = /^#step=(\d+)$/.exec(location.hash);
  show(asked ? Number(asked[1]) : last);
}

function start() {
  const kind = run.kind === "atlas" ? "Shelf atlas" : "Bucketed atlas";
  const shelves = run.isVertical ? "vertical" : "horizontal";
  byId("title").textContent = `${kind}, ${shelves} shelves, ${run.columns === 1 ? "one column" : `${run.columns} columns`}`;
  document.title = `${byId("title").textContent}: ${last} commands`;
  byId("leap").textContent = `${leap}`;
  slider.max = last;
  byId("atlas").setAttribute("viewBox", `0 0 ${largest.width} ${largest.height}`);
  byId("atlas").style.setProperty("--ratio", largest.width / largest.height);
  zoomBy(1);
  drawChart();
  showAsked();
  slider.addEventListener("input", () => show(slider.valueAsNumber));
  document.addEventListener("keydown", onKey);
  byId("atlas").addEventListener("pointermove", onPointer);
  byId("atlas").addEventListener("pointerdown", onPointer);
  byId("atlas").addEventListener("pointerleave", () => { byId("tip").hidden = true; });
  byId("list").addEventListener("toggle", listLive);
  for (const button of document.querySelectorAll("[data-go]")) {
    button.addEventListener("click", () => show(steps[button.dataset.go]()));
  }
  for (const button of document.querySelectorAll("[data-zoom]")) {
    button.addEventListener("click", () => zoomBy(Number(button.dataset.zoom)));
  }
  addEventListener("hashchange", showAsked);
  new ResizeObserver(drawLabels).observe(byId("atlas"));
}

start();
</script>
</body>
</html>
"##;
