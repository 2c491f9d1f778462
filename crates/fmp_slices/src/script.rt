//! What the page does: it shows the states and the lines of an event, what happened to a task or object, and zooms.

/// The script. Texts of the run come into the page as text alone, never as marks.
pub const SCRIPT: &str = r##""use strict";
const run = JSON.parse(document.getElementById("run").textContent);
const view = document.getElementById("view"), picture = view.querySelector("svg");
const slider = document.getElementById("moment"), shown = document.getElementById("now");
const stateBox = document.getElementById("states"), storyBox = document.getElementById("story");
const size = { wide: picture.viewBox.baseVal.width, high: picture.viewBox.baseVal.height };
let event = run.first, scale = 1;

// An element with a text and children. Texts of the run come in as text alone, never as marks.
function make(tag, text, ...children) {
  const made = document.createElement(tag);
  if (text !== null) made.textContent = text;
  for (const child of children) made.append(child);
  return made;
}

function button(text, act, ...children) {
  const made = make("button", text, ...children);
  made.type = "button";
  made.addEventListener("click", act);
  return made;
}

// All that has a state: processors, tasks, handlers and objects. A trace calls the handler of interrupt 3 `#3`.
const kinds = { processors: "Processors", tasks: "Tasks", handlers: "Handlers", objects: "Objects" };
const things = Object.keys(kinds).flatMap(kind => run[kind].map(({ name, states }) => {
  const title = kind === "processors" ? "processor " + name : name;
  return { kind, name, title, states, sign: name.replace(/^interrupt /, "#") };
}));

// The lines, with names in the calls in place of numbers.
const calls = new Map(run.calls);
const lines = run.lines.split("\n").filter(line => line !== "").map(line => {
  const [number, ...words] = line.split(" ");
  const named = words.length > 2 && words[2].includes("(") ? calls.get(Number(number)) : undefined;
  if (named !== undefined) words[2] = named;
  return { event: Number(number), words, text: words.join(" ") };
});

const linesOf = new Map();
for (const line of lines) linesOf.set(line.event, [...(linesOf.get(line.event) ?? []), line]);

// What a list of changes says after an event: the last change up to it.
function after(changes, at) {
  let low = 0, high = changes.length;
  while (low < high) {
    const middle = (low + high) >> 1;
    if (changes[middle][0] <= at) low = middle + 1; else high = middle;
  }
  return low > 0 ? changes[low - 1] : null;
}

// Whether a line tells of a thing: as its actor, as the one that goes on or begins, or in a call.
function tells(line, thing) {
  const words = line.words;
  const sign = thing.sign;
  if (thing.kind === "processors") return words[0] === "p" + sign;
  if (words[0] === "int") return sign === "#" + words[1];
  if (words[1] === sign || words[2] === sign) return true;
  const call = words.length > 2 ? words[2].match(/\((.*)\)$/) : null;
  return call !== null && call[1].split(",").includes(sign);
}

// What happened to a thing, in order: the lines that tell of it, and the first line of any other event that changes it.
function storyOf(thing) {
  const told = lines.filter(line => tells(line, thing));
  const seen = new Set(told.map(line => line.event));
  for (const at of new Set(thing.states.flatMap(changes => changes.slice(1).map(change => change[0])))) {
    if (!seen.has(at)) told.push(...(linesOf.get(at) ?? []).slice(0, 1));
  }
  return told.sort((a, b) => a.event - b.event);
}

// A thing's state after the event, and whether the event changed it. A dormant task has no priority.
function stateOf(thing) {
  const now = thing.states.map(changes => after(changes, event)).filter(change => change !== null && change[1] !== "");
  const isDormant = thing.kind === "tasks" && now.length > 0 && now[0][1].startsWith("dormant");
  const told = isDormant ? now.slice(0, 1) : now;
  const isNew = thing.states.some(changes => after(changes, event)?.[0] === event);
  return { text: told.map(change => change[1]).join(", "), isNew };
}

// The tables of the states, a row a thing, made once.
const rows = things.map(thing => {
  const name = button(thing.title, () => choose(thing));
  const cell = make("td", ""), head = make("th", null, name);
  head.scope = "row";
  return { thing, name, cell, row: make("tr", null, head, cell) };
});
const eventHead = make("h2", ""), eventLines = make("ol", null);
stateBox.append(eventHead, eventLines);
for (const [kind, title] of Object.entries(kinds)) {
  const body = make("tbody", null, ...rows.filter(({ thing }) => thing.kind === kind).map(({ row }) => row));
  if (body.children.length > 0) stateBox.append(make("h3", title), make("table", null, body));
}

function showState() {
  const clock = run.clocks[event - run.first];
  shown.textContent = `Event ${event} of ${run.first} to ${run.last}, clock ${clock}`;
  eventHead.textContent = event > 0 ? `After event ${event}` : "After setup";
  eventLines.replaceChildren(...(linesOf.get(event) ?? []).map(line => make("li", line.text)));
  for (const { thing, cell, row } of rows) {
    const { text, isNew } = stateOf(thing);
    cell.textContent = text;
    row.classList.toggle("new-state", isNew);
  }
}

// The chosen event's column, in the panel that has it.
const mark = document.createElementNS("http://www.w3.org/2000/svg", "rect");
mark.setAttribute("class", "chosen-event");

function placeOf(at) {
  const first = at - (at - run.first) % run.panel;
  const panel = picture.getElementById("e" + first);
  return { panel, x: run.left + (at - first) * run.column };
}

function showMark() {
  const { panel, x } = placeOf(event);
  mark.remove();
  const box = panel.getBBox();
  for (const [name, value] of Object.entries({ x, y: box.y, width: run.column, height: box.height }))
    mark.setAttribute(name, value);
  panel.append(mark);
}

// Scrolls the picture until the mark can be seen.
function follow() {
  const seen = view.getBoundingClientRect(), box = mark.getBoundingClientRect();
  if (box.left < seen.left + 40) view.scrollLeft -= seen.left + 80 - box.left;
  if (box.right > seen.right - 40) view.scrollLeft += box.right - seen.right + 80;
  if (box.bottom < seen.top + 20 || box.top > seen.bottom - 20) view.scrollTop += box.top - seen.top - 20;
}

// Marks the lines of the event in the list of what happened, and scrolls to them.
let items = [], current = [];
function showStory() {
  for (const item of current) item.button.removeAttribute("aria-current");
  current = items.filter(item => item.event === event);
  for (const item of current) item.button.setAttribute("aria-current", "true");
  if (current.length > 0) current[0].button.scrollIntoView({ block: "nearest" });
}

function go(to, moves = true) {
  event = Math.min(run.last, Math.max(run.first, to));
  slider.value = event;
  showState();
  showMark();
  showStory();
  if (moves) follow();
}

function choose(thing) {
  for (const { thing: other, name } of rows) name.setAttribute("aria-pressed", String(other === thing));
  items = storyOf(thing).map(({ event, text }) =>
    ({ event, button: button(null, () => go(event), make("b", event), make("span", text)) }));
  const head = make("h2", "What happened to " + thing.title);
  const list = items.map(item => make("li", null, item.button));
  storyBox.replaceChildren(head, list.length > 0 ? make("ol", null, ...list) : make("p", "Nothing."));
  showStory();
}

// Zoom and pan.
function zoom(to, x = view.clientWidth / 2, y = view.clientHeight / 2) {
  const old = scale;
  scale = Math.min(8, Math.max(0.1, to));
  picture.style.width = size.wide * scale + "px";
  picture.style.height = size.high * scale + "px";
  view.scrollLeft = (view.scrollLeft + x) * scale / old - x;
  view.scrollTop = (view.scrollTop + y) * scale / old - y;
}

view.addEventListener("wheel", at => {
  if (at.shiftKey) return;
  at.preventDefault();
  const box = view.getBoundingClientRect();
  zoom(scale * Math.exp(-at.deltaY / 500), at.clientX - box.left, at.clientY - box.top);
}, { passive: false });

let drag = null;
view.addEventListener("pointerdown", at => {
  if (at.button !== 0 || at.pointerType === "touch") return;
  drag = { x: at.clientX, y: at.clientY, left: view.scrollLeft, top: view.scrollTop, far: false };
});
window.addEventListener("pointermove", at => {
  if (drag === null) return;
  const x = at.clientX - drag.x, y = at.clientY - drag.y;
  drag.far = drag.far || Math.abs(x) + Math.abs(y) > 4;
  if (!drag.far) return;
  view.classList.add("dragged");
  view.scrollLeft = drag.left - x;
  view.scrollTop = drag.top - y;
});
window.addEventListener("pointerup", () => {
  view.classList.remove("dragged");
  if (drag !== null && drag.far) window.addEventListener("click", stop, { capture: true, once: true });
  setTimeout(() => window.removeEventListener("click", stop, true));
  drag = null;
});
function stop(at) { at.stopPropagation(); at.preventDefault(); }

// A click in the picture: the event of its column, and the thing of its lane.
function thingOf(label) {
  return things.find(({ kind, name }) =>
    kind === "processors" ? label === "Processor " + name
    : kind === "tasks" ? label.startsWith(`Task ${name} on `)
    : kind === "handlers" ? label === "Handler " + name
    : label.endsWith(" " + name));
}

picture.addEventListener("click", at => {
  const panel = at.target.closest("g[id]");
  const lane = at.target.closest("g[aria-label]");
  if (panel === null) return;
  const point = new DOMPoint(at.clientX, at.clientY).matrixTransform(picture.getScreenCTM().inverse());
  const column = Math.floor((point.x - run.left) / run.column);
  if (column >= 0) go(Number(panel.id.slice(1)) + Math.min(column, run.panel - 1), false);
  const thing = lane === panel ? undefined : thingOf(lane.getAttribute("aria-label"));
  if (thing !== undefined) choose(thing);
});

slider.addEventListener("input", () => go(Number(slider.value)));
document.getElementById("back").addEventListener("click", () => go(event - 1));
document.getElementById("on").addEventListener("click", () => go(event + 1));
document.getElementById("larger").addEventListener("click", () => zoom(scale * 1.25));
document.getElementById("smaller").addEventListener("click", () => zoom(scale / 1.25));
document.getElementById("whole").addEventListener("click", () => zoom(view.clientWidth / size.wide));
document.addEventListener("keydown", at => {
  if (at.ctrlKey || at.altKey || at.metaKey) return;
  const keys = { "+": () => zoom(scale * 1.25), "-": () => zoom(scale / 1.25), "0": () => zoom(1),
    ",": () => go(event - 1), ".": () => go(event + 1) };
  const act = keys[at.key];
  if (act === undefined) return;
  at.preventDefault();
  act();
});

slider.min = run.first;
slider.max = run.last;
go(run.first, false);
"##;
