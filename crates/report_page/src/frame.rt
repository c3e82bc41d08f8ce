//! The frame of the page, made of the files of viewer/ by tools/frame.

/// What stands before the text of the brief report.
pub const BEFORE: &str = r###"<!doctype html>
<html lang="en">
<head>
<meta charset="utf-8">
<meta name="viewport" content="width=device-width, initial-scale=1">
<meta name="color-scheme" content="light dark">
<meta http-equiv="Content-Security-Policy" content="default-src 'none'; style-src 'sha256-YyhRs2h6WGgG/k93DZLwBPQ487v1E0rfOYKil8B6SYk='; script-src 'sha256-2UYJOKytQSLXD+qj4wEVQitarPeJ3sBBWw1fY8fumZo='; base-uri 'none'; form-action 'none'">
<title>Paklour report</title>
<style>
:root {
  color-scheme: light dark;
  --ground: #ffffff;
  --raised: #f5f6f8;
  --ink: #1c232b;
  --muted: #58636f;
  --line: #d8dde3;
  --accent: #1f5fbf;
  --pass: #8a96a3;
  --unresolved: #4a5561;
  --fault: #fdf0d8;
  --code-0: #b93a0c;
  --code-1: #1d4ed8;
  --code-2: #86198f;
  --code-3: #8f5b00;
  --code-4: #04724d;
  --code-5: #0b6f8a;
  --code-6: #4338ca;
  --code-7: #57534e;
}

@media (prefers-color-scheme: dark) {
  :root {
    --ground: #14181d;
    --raised: #1d232a;
    --ink: #e4e9ee;
    --muted: #9ba7b4;
    --line: #37414b;
    --accent: #86b4f5;
    --pass: #71808f;
    --unresolved: #b6c1cc;
    --fault: #3a2f17;
    --code-0: #fb8a4c;
    --code-1: #6ea8fe;
    --code-2: #e48af5;
    --code-3: #f2c744;
    --code-4: #3fcf9b;
    --code-5: #35cbe6;
    --code-6: #a9aefb;
    --code-7: #cfcac4;
  }
}

* { box-sizing: border-box; }
html { scroll-padding-top: 1rem; }
body {
  margin: 0 auto;
  padding: 1.5rem 1rem 4rem;
  max-width: 70rem;
  background: var(--ground);
  color: var(--ink);
  font: 16px/1.5 system-ui, sans-serif;
  overflow-wrap: break-word;
}
h1, h2, h3, p, ul, ol { margin: 0 0 0.6rem; }
h1 { font-size: 1.6rem; line-height: 1.25; }
h2 { font-size: 1.2rem; margin-top: 2.4rem; padding-top: 1rem; border-top: 1px solid var(--line); }
h3 { font-size: 1rem; }
a { color: var(--accent); }
code, pre { font: 0.86em/1.5 ui-monospace, "DejaVu Sans Mono", monospace; }
pre { margin: 0.6rem 0; padding: 0.8rem; background: var(--raised); border-radius: 6px; white-space: pre-wrap; unicode-bidi: plaintext; }
code { unicode-bidi: isolate; }
:focus-visible { outline: 2px solid var(--accent); outline-offset: 2px; }
header p, section > p { max-width: 48rem; }
.kind { margin: 0; color: var(--muted); }
.outcome { margin: 0.8rem 0 1rem; padding: 0.7rem 1rem 0.6rem; max-width: 48rem; background: var(--raised); border-left: 6px solid var(--muted); border-radius: 4px; }
.outcome.fails { border-left-color: var(--code-0); }
.outcome.passes { border-left-color: var(--code-4); }
.outcome p, .outcome ul { margin: 0; }
.headline { font-size: 1.25rem; font-weight: 600; }
nav ul { display: flex; flex-wrap: wrap; gap: 0.2rem 1.2rem; margin: 1.2rem 0 0; padding: 0; list-style: none; }
.ways, .legend { display: flex; flex-wrap: wrap; gap: 0.2rem 1.4rem; padding: 0; list-style: none; }
.muted { color: var(--muted); font-size: 0.92rem; }
h1, .words, .scenario, p code, li, summary { overflow-wrap: anywhere; }
.whole, .open { padding-left: 0.8rem; border-left: 3px solid var(--line); }
.whole { border-left-color: var(--accent); }
.icon { margin-right: 0.4em; vertical-align: -0.1em; }
/* A name may be very long: what doesn't fit in so many lines can be had from the document. */
h1, .words, .scenario, td code, .verdict, .ways li, .legend li, .hit, .pointed {
  display: -webkit-box;
  -webkit-box-orient: vertical;
  -webkit-line-clamp: 5;
  overflow: hidden;
}
.verdict { display: -webkit-inline-box; vertical-align: top; -webkit-line-clamp: 2; }
.scenario { color: var(--muted); user-select: all; }
button, select, input {
  max-width: 100%;
  padding: 0.15rem 0.5rem;
  font: inherit;
  color: inherit;
  background: var(--raised);
  border: 1px solid var(--line);
  border-radius: 5px;
}
button { cursor: pointer; }
.more { font-size: 0.9rem; margin: 0.2rem 0; }
summary { cursor: pointer; }
#brief { margin-top: 2.4rem; padding-top: 1rem; border-top: 1px solid var(--line); color: var(--muted); }

/* first failures, causes, runs */
.finding, .chosen:not(:empty) { margin: 0.8rem 0; padding: 0.8rem 1rem; border: 1px solid var(--line); border-radius: 8px; }
.finding .words, .chosen .words { font-size: 1.08rem; }
.story { margin: 0.6rem 0; }
.story p { margin: 0 0 0.3rem; }
.story pre, .story ul, .story .scroll, .story .again { margin: 0 0 0.8rem; }
.story .scroll + .muted { margin-top: -0.5rem; }
.story th[scope="row"] { min-width: 4.5rem; white-space: normal; }
.story th[scope="row"] code { overflow-wrap: break-word; }
.story .pending .lost td { font-weight: 600; }
.files td { min-width: 6rem; }
.command { user-select: all; }
.group { margin: 0.4rem 0; }
.causes { padding: 0; list-style: none; }
.causes li { margin: 0.5rem 0; padding-left: 0.8rem; border-left: 2px solid var(--line); }
.causes p { margin: 0; }
.scroll { overflow-x: auto; }
table { border-collapse: collapse; font-size: 0.94rem; }
th, td { padding: 0.2rem 0.8rem 0.2rem 0; text-align: left; vertical-align: top; border-bottom: 1px solid var(--line); }
th { font-weight: 600; color: var(--muted); }
th[scope="row"] { white-space: nowrap; }
td code, .verdict, td { overflow-wrap: anywhere; }
.plans td:nth-child(2) { width: 9rem; min-width: 7rem; }
.plans td:first-child { width: 4rem; }
.plans .number { min-width: 3rem; }
.points td:first-child { min-width: 12rem; }
.number { text-align: right; font-variant-numeric: tabular-nums; white-space: nowrap; }
th.number { white-space: normal; }
.hits { margin: 0.4rem 0; min-width: min(100%, 24rem); }
.hits.two { width: 100%; }
.hits td, .hits th { border: 0; padding: 0.08rem 0.6rem; }
.hits.two td:nth-child(2), .hits.two td:nth-child(4) { width: 50%; }
.hits.two td:nth-child(3) { border-left: 1px solid var(--line); }
.hits .number { color: var(--muted); padding: 0.08rem 0.2rem; }
.hits .same td { color: var(--muted); }
.hits .near > span:first-child { font-weight: 600; color: var(--ink); }
.hits .alone { background: var(--raised); }
.hits .fault-line td { background: var(--fault); }
.hits .fault-line td:first-child::before { content: "\25b6\a0"; }
.hits .fault-line b { text-decoration: underline; text-underline-offset: 3px; }
.hits .ends td { padding-top: 0.35rem; }
.plans { width: 100%; }
.plans .words { min-width: 11rem; }
label { min-width: 0; max-width: 100%; }
.filters { display: flex; flex-wrap: wrap; gap: 0.5rem 1rem; margin: 0 0 0.6rem; }

/* the map */
.map-box { position: relative; border: 1px solid var(--line); border-radius: 8px; }
.map { max-height: min(85vh, 70rem); overflow: auto; padding: 0 10px 8px; border-bottom: 1px solid var(--line); scroll-padding: 3rem 1rem 1rem; }
.map-head, .map-band { display: flex; min-width: max-content; }
.map-head { position: sticky; top: 0; z-index: 2; padding: 8px 0 4px; background: var(--ground); border-bottom: 1px solid var(--line); margin-bottom: 8px; }
.map-label {
  position: sticky;
  left: 0;
  z-index: 1;
  flex: none;
  width: var(--labels);
  padding-right: 10px;
  overflow: hidden;
  background: var(--ground);
  font-size: 0.82rem;
  line-height: 14px;
  text-overflow: ellipsis;
  white-space: nowrap;
}
.map-head .map-label { color: var(--muted); line-height: 22px; }
.map-strips { position: relative; flex: none; }
.map-head .map-strips { height: 22px; }
.wide { border-top: 1px dashed var(--line); padding-top: 8px; }
.narrow .map-band { display: block; }
.narrow .map-band .map-label { width: max-content; max-width: 20rem; line-height: 18px; }
.narrow .map-head .map-label { display: none; }
.map-column { position: absolute; top: 0; }
.map-column button { width: 100%; height: 22px; padding: 0; font-size: 0.78rem; line-height: 20px; overflow: hidden; white-space: nowrap; }
.map-column button[aria-expanded="false"] { border-style: dashed; color: var(--muted); }
.strip { position: absolute; top: 0; line-height: 0; cursor: pointer; }
.strip svg { display: block; overflow: visible; }
.strip .closed { font-size: 0.78rem; line-height: 12px; color: var(--muted); cursor: default; }
#map-current { position: absolute; pointer-events: none; }
/* The room of two lines, three where it is narrow. */
.pointed { -webkit-line-clamp: 2; margin: 0.4rem 10px; height: 2.6rem; font-size: 0.9rem; line-height: 1.3rem; }
.narrow .pointed { -webkit-line-clamp: 3; height: 3.9rem; }
.swatch { display: inline-block; width: 13px; height: 13px; margin-right: 0.4em; vertical-align: -0.1em; border: 1.5px solid var(--ink); }
.mark-pass { fill: var(--pass); }
.mark-unresolved { fill: var(--unresolved); fill-rule: evenodd; }
.mark-code-0 { fill: var(--code-0); }
.mark-code-1 { fill: var(--code-1); }
.mark-code-2 { fill: var(--code-2); }
.mark-code-3 { fill: var(--code-3); }
.mark-code-4 { fill: var(--code-4); }
.mark-code-5 { fill: var(--code-5); }
.mark-code-6 { fill: var(--code-6); }
.mark-code-7 { fill: var(--code-7); }
.frame-first, .frame-selected, .frame-before { fill: none; stroke: var(--ink); stroke-width: 1.5; }
.frame-selected { stroke: var(--accent); stroke-width: 3; }
.frame-before { stroke: var(--accent); stroke-width: 1.5; stroke-dasharray: 3 2; }

@media (max-width: 640px) {
  body { padding: 1rem 0.7rem 3rem; }
  .hits td, .hits th { padding: 0.08rem 0.25rem; }
  .hits.two td:nth-child(3), .hits.two th:nth-child(3) { display: none; }
  .hits.two td:nth-child(4) { border-left: 1px solid var(--line); }
}

@media print {
  body { max-width: none; padding: 0; font-size: 10.5pt; }
  .map { max-height: none; overflow: visible; }
  .map-head { position: static; }
  .map-band, tr, .causes li { break-inside: avoid; }
  h2, h3, summary { break-after: avoid; }
  .run:not([open]) { display: none; }
  nav, .controls, .filters, .pointed, .more, #brief { display: none; }
  .fold .more { display: inline; border: 0; padding: 0; background: none; }
  .outcome, svg path, .hits td { print-color-adjust: exact; }
}
</style>
</head>
<body>
<main id="page"></main>
<details id="brief" open>
<summary>The report as text</summary>
<pre>"###;

/// What stands between that and the document.
pub const BETWEEN: &str = r###"</pre>
</details>
<script type="application/json" id="document">"###;

/// What stands behind the document.
pub const BEHIND: &str = r###"</script>
<script>
"use strict";
(() => {
// The plans of a campaign, from what its document tells of them: with a depth they grew, each from an earlier one, without one they follow from the census.

/** @typedef {{point: number, hit: number, kind: string}} Fault */
/**
 * A plan that has one fault more than an earlier one, or a text, where it grew from none.
 * @typedef {{parent: number|null, fault: Fault|null, text: string|null}} Row
 */

/** @type {Row} */
const WITHOUT_FAULTS = { parent: null, fault: null, text: "" };
const BETWEEN_FAULTS = "; ";
const FAULT = /^(\d+) (\d+) (1\*panic|(?:1\*)?return(?:\(.*\))?)$/s;

/**
 * The plans that grew: each is an earlier one's text with one fault more. Null stands where a text isn't that. Many
 * plans have the same fault, which is read once, and the same parent as the one before.
 * @param {any} told
 * @returns {(Row|null)[]}
 */
function grownRows({ census, about }) {
  const numbers = new Map();
  const faults = new Map();
  const faultOf = (text) => {
    if (!faults.has(text)) faults.set(text, readFault(text, census.length));
    return faults.get(text);
  };
  let [before, parent] = ["", 0];
  return about.grown.map((text, number) => {
    numbers.set(text, number);
    if (number === 0) return text === "" ? WITHOUT_FAULTS : null;
    const cut = text.lastIndexOf(BETWEEN_FAULTS);
    const isOfSame = before.length === Math.max(cut, 0) && text.startsWith(before);
    if (!isOfSame) [before, parent] = [text.slice(0, Math.max(cut, 0)), numbers.get(text.slice(0, Math.max(cut, 0)))];
    const fault = faultOf(cut < 0 ? text : text.slice(cut + BETWEEN_FAULTS.length));
    return parent === undefined || fault === null ? null : { parent, fault, text: null };
  });
}

/** @param {string} text @param {number} points how many there are @returns {Fault|null} */
function readFault(text, points) {
  const match = FAULT.exec(text);
  return match && Number(match[1]) < points ? { point: Number(match[1]), hit: Number(match[2]), kind: match[3] } : null;
}

/** The plans at hits of the run without faults: each fails once, from then on, and panics. @param {any} told @returns {Row[]} */
function hitRows({ census }) {
  const hits = census.flatMap(({ hits }, point) => Array.from({ length: hits }, (_, index) => ({ point, hit: index + 1 })));
  return hits.flatMap((hit) => ["1*return", "return", "1*panic"].map((kind) => ({ parent: 0, fault: { ...hit, kind }, text: null })));
}

/** The plans of two hits: both fail, and the second panics. @param {Row[]} rows those at hits, three of each @returns {Row[]} */
function pairRows(rows) {
  const firsts = rows.map((row, index) => ({ fault: row.fault, number: index + 1 })).filter((_, index) => index % 3 === 0);
  return firsts.flatMap(({ number }, index) => firsts.slice(index + 1).flatMap(({ fault }) =>
    ["1*return", "1*panic"].map((kind) => ({ parent: number, fault: { ...fault, kind }, text: null }))));
}

/**
 * All plans, in the order of their numbers. Null stands for one that can't be read.
 * @param {any} told
 * @returns {(Row|null)[]}
 */
function rowsOfPlans(told) {
  const { storms, listed } = told.about;
  const texts = [...storms, ...listed].map((text) => ({ parent: null, fault: null, text }));
  if (told.growth) return [...grownRows(told), ...texts];
  if (told.counts.plans === 0) return texts;
  const rows = hitRows(told);
  const pairs = told.counts.plans > 1 + rows.length + texts.length ? pairRows(rows) : [];
  return [WITHOUT_FAULTS, ...rows, ...pairs, ...texts];
}

// The syntax of scenarios, that of fail-rs: `POINT=TERM->TERM;POINT=TERM`, a term being `[PERCENT%][COUNT*]TASK[(ARGUMENT)]`.

/** @typedef {{percent: string|null, count: number|null, task: string, argument: string|null}} Term */
/** @typedef {{point: string, terms: Term[], chain: string}} Entry */
/**
 * Where a term acts: at the hits `first` to `last` of its point, counted from 1. `last` is Infinity where it goes on from then on. A term that
 * acts by chance has no certain hits: `percent` tells how often.
 * @typedef {{point: string, term: Term, first: number, last: number}} Clause
 */

/** The point at which a power cut asks for a change that is pending whether it is kept. */
const KEEP = "power::keep";
/** The point of the order of threads: a return lets the next one go first. */
const NEXT = "order::next";
/** The point at which a session asks what it is to do next. */
const WORK = "work::next";

const TASKS = new Set(["off", "yield", "print", "sleep", "delay", "return", "panic", "pause"]);
const PASSING = new Set(["off", "yield"]);
const TERM = /^(?:(\d+(?:\.\d{1,4})?)%)?(?:(\d+)\*)?([a-z]+)$/;

/**
 * @param {string} text
 * @returns {Term|null}
 */
function parseTerm(text) {
  const opening = text.indexOf("(");
  if (opening >= 0 && !text.endsWith(")")) return null;
  const head = opening < 0 ? text : text.slice(0, opening);
  const match = TERM.exec(head.trim());
  if (!match || !TASKS.has(match[3])) return null;
  return {
    percent: match[1] ?? null,
    count: match[2] === undefined ? null : Number(match[2]),
    task: match[3],
    argument: opening < 0 ? null : text.slice(opening + 1, -1),
  };
}

/**
 * @param {string} piece
 * @returns {Entry|null}
 */
function parseEntry(piece) {
  const equals = piece.indexOf("=");
  const point = piece.slice(0, Math.max(equals, 0)).trim();
  if (point === "") return null;
  const chain = piece.slice(equals + 1).trim();
  const terms = chain.split("->").map((term) => parseTerm(term.trim()));
  return terms.every((term) => term !== null) ? { point, terms: /** @type {Term[]} */ (terms), chain } : null;
}

/**
 * The entries of a scenario: none of `none` and of an empty text, null of one that isn't a scenario.
 * @param {string} text
 * @returns {Entry[]|null}
 */
function parseScenario(text) {
  if (text === "none") return [];
  const entries = text.split(";").filter((piece) => piece.trim() !== "").map(parseEntry);
  return entries.every((entry) => entry !== null) ? /** @type {Entry[]} */ (entries) : null;
}

/**
 * Where each term of an entry acts. Beside a term that acts by chance nobody knows which hits another one has: such a chain is one clause, its
 * task `drawn`.
 * @param {Entry} entry
 * @returns {Clause[]}
 */
function clausesOfEntry({ point, terms, chain }) {
  if (terms.length > 1 && terms.some((term) => term.percent !== null)) {
    return [{ point, term: { percent: null, count: null, task: "drawn", argument: chain }, first: 1, last: Infinity }];
  }
  const clauses = [];
  let next = 1;
  for (const term of terms) {
    const last = term.count === null ? Infinity : next + term.count - 1;
    if (!PASSING.has(term.task) && term.count !== 0) clauses.push({ point, term, first: next, last });
    next = last + 1;
  }
  return clauses;
}

/**
 * @param {string} text
 * @returns {Clause[]|null}
 */
function clausesOf(text) {
  const entries = parseScenario(text);
  return entries && entries.flatMap(clausesOfEntry);
}

/**
 * The terms of one point's faults, in the order of their hits. A fault that goes on from then on takes the same faults right before it into itself.
 * @param {{hit: number, kind: string}[]} faults
 */
function chainOf(faults) {
  const terms = [];
  let done = 0;
  for (const { hit, kind } of faults) {
    if (hit - 1 > done) terms.push(`${hit - 1 - done}*off`);
    while (!kind.startsWith("1*") && terms[terms.length - 1] === `1*${kind}`) terms.pop();
    terms.push(kind);
    done = hit;
  }
  return terms.join("->");
}

/** @typedef {{point: number, hit: number, kind: string}} SingleFault */
/** What a scenario says of one point. @typedef {{point: number, faults: SingleFault[], text: string}} Share */

/** @param {number} point @param {SingleFault[]} faults by their hits @param {string[]} names @returns {Share} */
function shareOf(point, faults, names) {
  return { point, faults, text: `${names[point]}=${chainOf(faults)}` };
}

/**
 * What the scenario of faults that each act at one hit, or from there on, says of each point, in the order of the catalogue.
 * @param {SingleFault[]} faults
 * @param {string[]} names
 * @returns {Share[]}
 */
function sharesOf(faults, names) {
  const points = [...new Set(faults.map(({ point }) => point))].sort((one, other) => one - other);
  return points.map((point) =>
    shareOf(point, faults.filter((fault) => fault.point === point).sort((one, other) => one.hit - other.hit), names));
}

/** The scenario of faults, as the program spells it. @param {SingleFault[]} faults @param {string[]} names */
function spell(faults, names) {
  return sharesOf(faults, names).map(({ text }) => text).join(";");
}

/**
 * A scenario with one fault more, of which what it says of other points stays.
 * @param {Share[]} shares
 * @param {SingleFault} fault
 * @param {string[]} names
 */
function spellWith(shares, fault, names) {
  const own = shares.find(({ point }) => point === fault.point);
  const [{ text: added }] = own ? sharesOf([...own.faults, fault], names) : [shareOf(fault.point, [fault], names)];
  let text = "";
  let isIn = false;
  for (const share of shares) {
    if (!isIn && share.point > fault.point) {
      text += text === "" ? added : `;${added}`;
      isIn = true;
    }
    if (share !== own) text += text === "" ? share.text : `;${share.text}`;
  }
  if (isIn) return text;
  return text === "" ? added : `${text};${added}`;
}

// Scenarios, runs and what was tried, in words.

/** @typedef {import("./scenario.js").Clause} Clause */
/** How a point is called. @typedef {(point: string) => string} Call */

const SHOWN_AS_CODE = /[\u0000-\u001f\u007f-\u009f\u061c\u200b-\u200f\u2028-\u202e\u2060-\u206f\ufeff\ufff9-\uffff]/g;

/**
 * A text of others, to be shown: characters that can't be seen, or that turn what follows them around, stand as their numbers.
 * @param {string} text
 */
function shown(text) {
  return text.replace(SHOWN_AS_CODE, (character) => `\u27e8U+${character.charCodeAt(0).toString(16).toUpperCase().padStart(4, "0")}\u27e9`);
}

/** @param {number} count @param {string} one @param {string} [many] */
function counted(count, one, many = `${one}s`) {
  return `${grouped(count)} ${count === 1 ? one : many}`;
}

/** @param {number} count */
function grouped(count) {
  return String(count).replace(/\B(?=(\d{3})+$)/g, "\u202f");
}

/** @param {number} number */
function ordinal(number) {
  const tens = number % 100;
  const ending = tens >= 11 && tens <= 13 ? "th" : ["th", "st", "nd", "rd"][number % 10] ?? "th";
  return `${grouped(number)}${ending}`;
}

/** @param {string[]} texts @param {string} [word] */
function listed(texts, word = "and") {
  if (texts.length < 2) return texts.join("");
  return `${texts.slice(0, -1).join(", ")} ${word} ${texts[texts.length - 1]}`;
}

/** @param {string} text */
function sentence(text) {
  return `${text.charAt(0).toUpperCase()}${text.slice(1)}.`;
}

/** A file as it is told: the supervisor names files from the folder of the data on, which is `.` itself. @param {string} name */
function fileWords(name) {
  return name === "." ? "the data folder" : name;
}

/** The points of calls of the system, as the supervisor of outside/ names them. */
const IS_CALL = /^(?:sys|libc)::/;

/** What is hit at points that aren't a program's calls. */
const NAMED = new Map([[KEEP, "change asked for"], [NEXT, "choice between threads"], [WORK, "request for an operation"]]);

/** What a return does in place of a failure, at a call of the system: as what the call does, and as a kind. */
const DEEDS = new Map([
  ["HALF", ["does its first half alone", "its first half alone"]],
  ["DROP", ["answers that all is done, and does nothing", "a loss that nobody is told"]],
  ["KILL", ["kills its process", "the end of its process alone"]],
  ["TERM", ["sends SIGTERM to its process", "a SIGTERM to its process"]],
  ["FULL", ["finds a disk that is full until room is given back", "a disk that is full until room is given back"]],
]);

/** @param {string} point @param {string} argument */
function deedOf(point, argument) {
  return IS_CALL.test(point) ? DEEDS.get(argument) : undefined;
}

/**
 * How points are called: by what stands behind the last `::`, where no other point is called so; `sys::write@a.db` is `write of a.db`. Files are told from
 * the data folder on, which is `.` itself.
 * @param {string[]} points
 * @returns {(point: string) => string}
 */
function callsOf(points) {
  const short = points.map(lastOf);
  const calls = new Map(NAMED);
  points.forEach((point, index) => {
    if (NAMED.has(point)) return;
    const alone = short.filter((name) => name === short[index]).length === 1;
    const [name, ...file] = (alone ? short[index] : point).split("@");
    const named = IS_CALL.test(point) ? fileWords(file.join("@")) : file.join("@");
    calls.set(point, file.length > 0 && name !== "" ? `${name} of ${named}` : name || point);
  });
  return (point) => calls.get(point) ?? point;
}

/** @param {string} point */
function lastOf(point) {
  const at = point.indexOf("@");
  const name = at < 0 ? point : point.slice(0, at);
  const colons = name.lastIndexOf("::");
  return colons >= 0 && colons + 2 < name.length ? point.slice(colons + 2) : point;
}

/** @param {Clause} clause @param {Call} call */
function hitWords({ point, first, last }, call) {
  const name = call(point);
  if (last === Infinity) return first === 1 ? `each ${name}` : `each ${name} from the ${ordinal(first)} on`;
  if (last > first) return `each ${name} from the ${ordinal(first)} to the ${ordinal(last)}`;
  return `the ${ordinal(first)} ${name}`;
}

/**
 * What a call comes to that a return answers. To points of a program's own an argument is a text, of which the program makes what it likes.
 * @param {string} point
 * @param {string|null} argument
 */
function failureWords(point, argument) {
  if (argument === null) return "fails";
  if (/^E[A-Z0-9]+$/.test(argument)) return `fails with ${argument}`;
  return deedOf(point, argument)?.[0] ?? `fails with the text \u201c${argument}\u201d`;
}

/** @param {Clause} clause @param {Call} call */
function actWords(clause, call) {
  const hit = hitWords(clause, call);
  const { point, term: { task, argument } } = clause;
  if (point === KEEP && (task === "return" || task === "panic")) return `${hit} is ${task === "return" ? "kept" : "lost all the same"}`;
  if (point === NEXT && task === "return") return `at ${hit} the next one goes first`;
  if (point === WORK && task === "return") return `at ${hit} operation ${argument} is given`;
  switch (task) {
    case "return": return `${hit} ${failureWords(point, argument)}`;
    case "panic": return `the program ends at ${hit}`;
    case "pause": return `the run is ended at ${hit}`;
    case "print": return `a note is taken at ${hit}`;
    case "drawn": return `what ${hit} answers is drawn by ${argument}`;
    default: return `${hit} takes ${argument} ms more`;
  }
}

/** What a hit of the power cut asks for ends so where a sync made the change last: whether the disk undoes it. */
const UNDONE = /,? undone$/;

/**
 * What an answer comes to at a hit of a run.
 * @param {string} point
 * @param {string|null} answer null where the hit goes on
 * @param {string} about what the hit asks for, or its file; empty where nobody tells it
 * @returns {string|null}
 */
function answerWords(point, answer, about) {
  const term = answer === null ? null : parseTerm(answer);
  const isReturn = term?.task === "return";
  if (point === KEEP) return `${isReturn ? "is" : "isn\u2019t"} ${UNDONE.test(about) ? "undone" : "kept"}`;
  if (term === null) return answer;
  if (isReturn && point === NEXT) return "the next one goes first";
  if (isReturn && point === WORK) return `operation ${term.argument} is given`;
  if (isReturn) return failureWords(point, term.argument);
  return term.task === "panic" ? "the program ends here" : answer;
}

/** Whether a power cut keeps something by this clause. @param {Clause} clause */
function isOfCut(clause) {
  return clause.point === KEEP && clause.term.task === "return" && clause.term.percent === null;
}

/** What a power cut keeps. @param {Clause[]} clauses @param {Call} call */
function cutWords(clauses, call) {
  return `the power cut keeps ${listed(clauses.map((clause) => hitWords(clause, call)))}`;
}

/** @param {Clause} clause @param {Call} call */
function clauseWords(clause, call) {
  const { percent } = clause.term;
  const words = actWords(clause, call);
  if (percent === null) return words;
  const times = clause.term.count === null ? "" : `, ${clause.term.count} times at most`;
  const anywhere = actWords({ ...clause, first: 1, last: Infinity }, call);
  return `${anywhere} by chance, in ${percent} of 100${times}`;
}

/**
 * What happens where these clauses act. Where they aren't in the order of time, what the power cut keeps stands last.
 * @param {Clause[]} clauses
 * @param {Call} call
 * @param {boolean} [inOrder]
 */
function wordsOfClauses(clauses, call, inOrder = false) {
  if (clauses.length === 0) return "no fault";
  const ordered = inOrder ? clauses : [...clauses.filter((clause) => !isOfCut(clause)), ...clauses.filter(isOfCut)];
  const parts = [];
  for (let begin = 0, end = 0; begin < ordered.length; begin = end) {
    end = begin + 1;
    if (!isOfCut(ordered[begin])) {
      parts.push(clauseWords(ordered[begin], call));
      continue;
    }
    while (end < ordered.length && isOfCut(ordered[end])) end += 1;
    parts.push(cutWords(ordered.slice(begin, end), call));
  }
  return parts.join("; ");
}

/**
 * @param {string} scenario
 * @param {Call} call
 */
function wordsOfScenario(scenario, call) {
  const clauses = clausesOf(scenario);
  return clauses === null ? "a scenario that this page can't put in words" : wordsOfClauses(clauses, call);
}

/**
 * A kind of fault, as `return(ENOSPC)`, in words.
 * @param {string} point
 * @param {string} kind
 */
function wordsOfKind(point, kind) {
  const { task, argument } = parseTerm(kind) ?? { task: kind, argument: null };
  if (task === "panic") return "the end of the program";
  if (point === NEXT) return "that the next one goes first";
  if (argument === null) return "a failure";
  if (point === WORK) return `operation ${argument}`;
  if (argument === "ENOSPC") return "a full disk (ENOSPC)";
  return deedOf(point, argument)?.[1] ?? (/^E[A-Z0-9]+$/.test(argument) ? argument : `a failure with the text \u201c${argument}\u201d`);
}

/**
 * A word of a command, as a shell reads it.
 * @param {string} word
 */
function quoted(word) {
  return /^[A-Za-z0-9_./=:@%+,-]+$/.test(word) ? word : `'${word.replace(/'/g, "'\\''")}'`;
}

// A run hit by hit, beside another one.

/** @typedef {{point: number, answer: string|null}} Step */
/** @typedef {{scenario: string, verdict: string, steps: Step[], more: number, end: string|null}} Run */
/** @typedef {{number: number, point: string, ordinal: number, answer: string|null, about?: string, kept?: boolean, near?: boolean}} Hit */
/**
 * What is known of a run's hits besides: what each is about, and the state of the last power cut, if the disk doesn't keep what the scenario says.
 * @typedef {{about: string[], state: string}} Known
 */
/** A run as a document tells it. @typedef {{explained: string, left_out?: number, parent?: {explained: string, left_out?: number}}} Told */
/**
 * A line of two runs side by side. `same` is where both hit the same point and are answered the same. Near is a hit of a file at whose hits a fault acts.
 * @typedef {{here: Hit|null, there: Hit|null, same: boolean, fault: boolean}} Line
 */
/** @typedef {{fold: false, line: Line}|{fold: true, lines: Line[]}} Piece */

/** A stretch of so many lines that are the same is folded. */
const FOLDED = 6;
const UNKNOWN = { about: [], state: "" };
const OF_BYTES = /^(?:length of|block) /;
/** Whether a state has what a power cut asks for, by its words. Each has what a sync made last. */
const HAS = new Map([
  ["names", (about) => !OF_BYTES.test(about) && !UNDONE.test(about)],
  ["contents", (about) => OF_BYTES.test(about)],
  ["live", (about) => !UNDONE.test(about)],
]);
const KEPT_BEFORE = 2;

/** Where the lines of `explain` are cut: names and tasks may have line feeds. Behind the last hit stands what stopped the run, and which faults were idle. */
const BEFORE_HIT = /\n(?=hit \d)/;
const BEHIND_HITS = /\n(?=stopped |idle |$)/;

/**
 * By what a run is known: its scenario, and where something in it may be left to chance, the plan whose numbers were drawn.
 * @param {number} number
 * @param {string} scenario
 */
function runKey(number, scenario) {
  return scenario.includes("%") ? `${number} ${scenario}` : scenario;
}

/**
 * The point and the answer of a hit, from its line behind `hit N `; null where the line isn't the next hit of any point. A name may have blanks, and
 * another one may begin with it: the longest counts.
 * @param {string} line
 * @param {Map<string, number>} places
 * @param {number[]} hits how often each point was hit before
 * @returns {Step|null}
 */
function readHit(line, places, hits) {
  for (let at = line.lastIndexOf(" "); at > 0; at = line.lastIndexOf(" ", at - 1)) {
    const point = places.get(line.slice(0, at));
    const next = point === undefined ? null : `${hits[point] + 1} `;
    if (next === null || !line.startsWith(next, at + 1)) continue;
    const task = line.slice(at + 1 + next.length);
    return { point, answer: task === "go" ? null : task };
  }
  return null;
}

/**
 * A run, from the lines of `explain`.
 * @param {string} scenario
 * @param {{explained: string, left_out?: number}} told
 * @param {string[]} names
 * @returns {Run}
 */
function readRun(scenario, { explained, left_out: more = 0 }, names) {
  const places = new Map(names.map((name, place) => [name, place]));
  const hits = names.map(() => 0);
  const steps = [];
  const lines = explained.split(BEFORE_HIT);
  const [last, ...behind] = lines.pop().split(BEHIND_HITS);
  const [first, ...hitLines] = [...lines, last];
  for (const line of hitLines) {
    const head = `hit ${steps.length + 1} `;
    const step = line.startsWith(head) ? readHit(line.slice(head.length), places, hits) : null;
    if (step) {
      hits[step.point] += 1;
      steps.push(step);
    } else if (steps.length > 0) steps[steps.length - 1].answer = `${steps[steps.length - 1].answer ?? "go"}\n${line}`;
  }
  const stopped = behind.find((line) => line.startsWith("stopped "));
  return { scenario, verdict: first.replace(/^verdict /, ""), steps, more, end: stopped ? stopped.slice("stopped ".length) : null };
}

/** The runs that a document tells. Each may have a thousand hits, so one is read where it is asked for. */
class Runs {
  /** @param {string[]} names */
  constructor(names) {
    this.names = names;
    /** @type {Map<string, {scenario: string, told: Told, before: string|null}>} */
    this.told = new Map();
    /** @type {Map<string, Run>} */
    this.read = new Map();
  }

  /**
   * @param {number} number
   * @param {string} scenario
   * @param {Told|null} told null where nobody told this run
   * @param {string|null} [parent] the scenario of the plan that this one grew from
   */
  add(number, scenario, told, parent = null) {
    if (told === null) return;
    const before = told.parent ? parent : null;
    const key = runKey(number, scenario);
    if (before !== null || !this.told.has(key)) this.told.set(key, { scenario, told, before });
    if (before !== null && !this.told.has(before)) this.told.set(before, { scenario: before, told: told.parent, before: null });
  }

  /** Whether a run is told. @param {number} number @param {string} scenario */
  has(number, scenario) {
    return this.told.has(runKey(number, scenario));
  }

  /** @param {number} number @param {string} scenario @returns {Run|null} */
  of(number, scenario) {
    return this.get(runKey(number, scenario));
  }

  /** @param {string} key @returns {Run|null} */
  get(key) {
    const known = this.told.get(key);
    if (known && !this.read.has(key)) this.read.set(key, readRun(known.scenario, known.told, this.names));
    return this.read.get(key) ?? null;
  }

  /**
   * The run to look at beside another one: its parent's; where that isn't told, that without the fault which acted last, else that without faults.
   * @param {Run} run
   * @returns {Run|null}
   */
  beside(run) {
    if (run.scenario === "") return null;
    const { before = null } = this.told.get(run.scenario) ?? {};
    if (before !== null) return this.get(before);
    const faults = run.more > 0 ? [] : singleFaults(run.scenario, this.names);
    const acted = hitsOf(run, this.names).flatMap((hit) => faults.filter((fault) => fault.hit === hit.ordinal && this.names[fault.point] === hit.point));
    const last = acted[acted.length - 1];
    const less = last && this.get(spell(faults.filter((fault) => fault !== last), this.names));
    return less ?? this.get("");
  }
}

/**
 * The hits of a run. Those of the last power cut are the last ones, as far as all hits are told.
 * @param {Run} run
 * @param {string[]} names
 * @param {Known} [known]
 * @returns {Hit[]}
 */
function hitsOf(run, names, known = UNKNOWN) {
  const ordinals = new Map();
  const cut = run.more > 0 ? Infinity : run.steps.findLastIndex(({ point }) => names[point] !== KEEP) + 1;
  return run.steps.map(({ point, answer }, index) => {
    const ordinal = (ordinals.get(point) ?? 0) + 1;
    ordinals.set(point, ordinal);
    const name = names[point];
    const about = name.includes("@") ? undefined : known.about[index];
    const kept = index >= cut && about !== undefined ? HAS.get(known.state)?.(about) : undefined;
    return { number: index + 1, point: name, ordinal, answer, ...(about !== undefined && { about }), ...(kept !== undefined && { kept }) };
  });
}

/** Whether an answer is a fault: the call fails, or the run stops there. @param {string|null} answer */
function isFault(answer) {
  return answer !== null && /^(return|panic|pause)/.test(answer);
}

/**
 * The faults of a scenario of which each acts at one hit, or from there on; none of any other scenario.
 * @param {string} scenario
 * @param {string[]} names
 */
function singleFaults(scenario, names) {
  const clauses = clausesOf(scenario) ?? [];
  const isSingle = ({ term, first, last }) => term.percent === null && term.task !== "drawn" && (last === first || last === Infinity);
  if (!clauses.every(isSingle)) return [];
  return clauses.map(({ point, term, first, last }) => {
    const kind = term.argument === null ? term.task : `${term.task}(${term.argument})`;
    return { point: names.indexOf(point), hit: first, kind: last === first ? `1*${kind}` : kind };
  });
}

/**
 * Which hits of two runs stand beside each other: as many as there can be at the same points in the same order, after those with which both begin.
 * @param {Hit[]} here
 * @param {Hit[]} there
 * @returns {[number, number][]}
 */
function pairsOf(here, there) {
  const isPair = (one, other) => here[one].point === there[other].point;
  const most = Math.min(here.length, there.length);
  let begin = 0;
  while (begin < most && isPair(begin, begin)) begin += 1;
  const pairs = Array.from({ length: begin }, (_, at) => /** @type {[number, number]} */ ([at, at]));
  const width = there.length + 1;
  // How many pairs there are at most from a hit of each on.
  const counts = new Uint16Array((here.length + 1) * width);
  for (let one = here.length - 1; one >= begin; one -= 1) {
    for (let other = there.length - 1; other >= begin; other -= 1) {
      const at = one * width + other;
      counts[at] = isPair(one, other) ? counts[at + width + 1] + 1 : Math.max(counts[at + width], counts[at + 1]);
    }
  }
  for (let one = begin, other = begin; one < here.length && other < there.length;) {
    const at = one * width + other;
    if (isPair(one, other)) pairs.push([one++, other++]);
    else if (counts[at + width] >= counts[at + 1]) one += 1;
    else other += 1;
  }
  return pairs;
}

/**
 * Two runs, line by line; `beside` is null where none is told. Hits of one run alone stand beside those of the other alone, as they come.
 * @param {Run} run
 * @param {Run|null} beside
 * @param {string[]} names
 * @param {(scenario: string) => Known} [known]
 * @returns {Line[]}
 */
function linesOf(run, beside, names, known = () => UNKNOWN) {
  const here = hitsOf(run, names, known(run.scenario));
  const there = beside ? hitsOf(beside, names, known(beside.scenario)) : [];
  const lines = [];
  const add = (one, other) => {
    const same = one !== null && other !== null && one.point === other.point && one.answer === other.answer && one.kept === other.kept;
    lines.push({ here: one, there: other, same, fault: isFault(one?.answer ?? null) });
  };
  let [nextHere, nextThere] = [0, 0];
  for (const [one, other] of [...pairsOf(here, there), [here.length, there.length]]) {
    const [alone, lacking] = [here.slice(nextHere, one), there.slice(nextThere, other)];
    for (let at = 0; at < Math.max(alone.length, lacking.length); at += 1) add(alone[at] ?? null, lacking[at] ?? null);
    if (one < here.length || other < there.length) add(here[one], there[other]);
    [nextHere, nextThere] = [one + 1, other + 1];
  }
  const files = filesOfFaults(lines);
  for (const hit of [...here, ...there]) hit.near = files.has(fileOf(hit));
  return lines;
}

/** The file of a hit; null where nobody tells it. @param {Hit} hit */
function fileOf({ point, about }) {
  const at = point.indexOf("@");
  return at >= 0 ? point.slice(at + 1) : point === KEEP ? null : about ?? null;
}

/** The files at whose hits a fault acts, where they are told. @param {Line[]} lines @returns {Set<string>} */
function filesOfFaults(lines) {
  const files = lines.filter(({ fault }) => fault).map(({ here }) => fileOf(here));
  return new Set(files.filter((file) => file !== null));
}

/**
 * Long stretches that are the same in both runs, folded. What a fault may have to do with stays.
 * @param {Line[]} lines
 * @returns {Piece[]}
 */
function foldLines(lines) {
  const pieces = [];
  let begin = 0;
  for (let at = 0; at <= lines.length; at += 1) {
    if (at < lines.length && lines[at].same && !lines[at].fault && !lines[at].here.near) continue;
    const stretch = lines.slice(begin, at);
    const folded = stretch.length >= FOLDED ? stretch.length - KEPT_BEFORE : 0;
    if (folded > 0) pieces.push({ fold: true, lines: stretch.slice(0, folded) });
    for (const line of stretch.slice(folded)) pieces.push({ fold: false, line });
    if (at < lines.length) pieces.push({ fold: false, line: lines[at] });
    begin = at + 1;
  }
  return pieces;
}

// Reads the report's document, checks it against what docs/report.schema.json says, and makes of it the campaign that the page shows.

/** @typedef {"pass"|"fail"|"unresolved"} Verdict */
/** @typedef {import("./grown.js").Fault} Fault */
/**
 * A part of the list of plans: `none`, `hits`, `pairs` without a depth; `level`, `onward` with one; `storms`, `listed`.
 * @typedef {{name: string, level: number|null, first: number, count: number}} Part
 */
/**
 * @typedef {{number: number, verdict: Verdict, code: string|null, part: Part, parent: number|null, fault: Fault|null, text: string}} Plan
 */

/** A document that can't be shown, with the first things that are wrong with it. */
class ReadError extends Error {
  /** @param {string[]} problems */
  constructor(problems) {
    super(problems.slice(0, 5).join("; "));
    this.problems = problems;
  }
}

const VERSION = 1;
const VERDICTS = ["pass", "fail", "unresolved"];

// ---- the checks: each tells what is wrong at a path

/** @typedef {(value: any, path: string) => string[]} Check */

/** @param {string} what @param {(value: any) => boolean} holds @returns {Check} */
const is = (what, holds) => (value, path) => (holds(value) ? [] : [`${path} isn't ${what}`]);
const isCount = (value) => Number.isInteger(value) && value >= 0;
const count = is("a whole number from 0", isCount);
const text = is("a text", (value) => typeof value === "string");
const digits = is("a text of digits", (value) => typeof value === "string" && /^(0|[1-9][0-9]*)$/.test(value));
const verdict = is("a verdict", (value) => VERDICTS.includes(value));
const orNull = (check) => (value, path) => (value === null ? [] : check(value, path));

/** Its items are checked once more where one is wrong: most lists are right, and may be long. @param {Check} check @returns {Check} */
const list = (check) => (value, path) => {
  if (!Array.isArray(value)) return [`${path} isn't a list`];
  if (value.every((item) => check(item, path).length === 0)) return [];
  return value.flatMap((item, index) => check(item, `${path}[${index}]`));
};

/** @param {Record<string, Check>} needed @param {Record<string, Check>} [optional] @returns {Check} */
const members = (needed, optional = {}) => (value, path) => {
  if (value === null || typeof value !== "object" || Array.isArray(value)) return [`${path} isn't an object`];
  const lacking = Object.keys(needed).filter((name) => !Object.hasOwn(value, name)).map((name) => `${path}.${name} lacks`);
  const wrong = Object.entries({ ...needed, ...optional })
    .filter(([name]) => Object.hasOwn(value, name))
    .flatMap(([name, check]) => check(value[name], `${path}.${name}`));
  return [...lacking, ...wrong];
};

const points = list(members({ point: text, hits: count }));
const growth = members(
  {
    depth: count, levels: list(count), onward: count, beyond: count, reached: points,
    causes: list(members({ number: count, code: text, scenario: text })),
  },
  { unseen: count },
);
const runAlone = { explained: text };
const run = members(runAlone, { left_out: count, parent: members(runAlone, { left_out: count }) });
const about = members({
  program_version: text, told_by: is("target or answers", (value) => value === "target" || value === "answers"), command: text, settings: text,
  storms: list(text), listed: list(text), grown: list(text), clean_run: orNull(run), finding_runs: list(orNull(run)),
  cause_runs: list(orNull(run)),
});
const report = members(
  {
    label: text, seed: digits, census: points, clean: members({ verdict, code: orNull(text) }),
    counts: members({ plans: count, pass: count, fail: count, unresolved: count }),
    not_passed: list(members({ number: count, verdict, code: orNull(text), scenario: text })),
    findings: list(members({ number: count, code: text, scenario: text, reduced: text, tests: count })),
    growth: orNull(growth), about,
  },
  { unmet: count },
);

/** What holds between members. @param {any} told @returns {string[]} */
function contradictions(told) {
  const { counts, not_passed: notPassed, findings, growth, about } = told;
  const found = [];
  if (counts.pass + counts.fail + counts.unresolved !== counts.plans) found.push("the counts don't add up");
  if (notPassed.length !== counts.fail + counts.unresolved) found.push("not_passed doesn't have as many plans as are counted");
  if ([...notPassed, ...findings, ...(growth?.causes ?? [])].some((item) => item.number >= counts.plans)) found.push("a plan has a number that no plan has");
  const grew = growth ? growth.levels.reduce((sum, size) => sum + size, growth.onward) : 0;
  if (about.grown.length !== grew) found.push("about.grown doesn't have as many plans as grew");
  if (about.finding_runs.length > findings.length) found.push("about.finding_runs has more runs than there are findings");
  if (about.cause_runs.length > (growth?.causes.length ?? 0)) found.push("about.cause_runs has more runs than there are causes");
  const parts = partsOf(told);
  const inParts = parts.reduce((sum, part) => sum + part.count, 0);
  if (inParts !== counts.plans || parts.some((part) => part.count < 0)) found.push("the parts of the list don't add up");
  return found;
}

/**
 * What a JSON text has, checked. A version that this page doesn't know is refused, members that it doesn't know are passed over.
 * @param {string} json @param {number} version @param {Check} check @param {string} name
 */
function readChecked(json, version, check, name) {
  let told;
  try {
    told = JSON.parse(json);
  } catch (error) {
    throw new ReadError([`this is no JSON: ${error.message}`]);
  }
  if (told === null || typeof told !== "object" || Array.isArray(told)) throw new ReadError([`the ${name} isn't an object`]);
  if (told.version !== version) throw new ReadError([`the ${name} has version ${JSON.stringify(told.version)}, and this page shows version ${version}`]);
  const problems = check(told, name);
  if (problems.length > 0) throw new ReadError(problems);
  return told;
}

/** The document, checked. @param {string} json */
function readDocument(json) {
  const told = readChecked(json, VERSION, report, "document");
  const found = contradictions(told);
  if (found.length > 0) throw new ReadError(found);
  return told;
}

// ---- the campaign

/**
 * The parts of the list of plans, in the order of their numbers; none is empty but for level 0.
 * @param {any} told
 * @returns {Part[]}
 */
function partsOf(told) {
  const { growth, counts, census, about: { storms, listed } } = told;
  const sizes = [];
  if (growth) {
    growth.levels.forEach((size, level) => sizes.push(["level", level, size]));
    sizes.push(["onward", growth.depth, growth.onward]);
  } else {
    const hits = 3 * census.reduce((sum, point) => sum + point.hits, 0);
    sizes.push(["none", 0, Math.min(1, counts.plans)], ["hits", 1, Math.min(hits, Math.max(0, counts.plans - 1))]);
    const before = sizes.reduce((sum, [, , size]) => sum + size, 0);
    sizes.push(["pairs", 2, counts.plans - before - storms.length - listed.length]);
  }
  sizes.push(["storms", null, storms.length], ["listed", null, listed.length]);
  return numbered(sizes.filter(([, , size]) => size !== 0));
}

/** @param {[string, number|null, number][]} sizes @returns {Part[]} */
function numbered(sizes) {
  let first = 0;
  return sizes.map(([name, level, count]) => {
    const part = { name, level, first, count };
    first += count;
    return part;
  });
}

/** @param {any} told @param {Part[]} parts @returns {Plan[]} */
function plansOf(told, parts) {
  const rows = rowsOfPlans(told);
  if (rows.length !== told.counts.plans) throw new ReadError(["the plans that are told aren't as many as are counted"]);
  if (rows.includes(null)) throw new ReadError([`about.grown[${rows.indexOf(null)}] isn't a plan that grew`]);
  const plans = [];
  for (const part of parts) {
    for (let number = part.first; number < part.first + part.count; number += 1) {
      const { parent, fault, text } = rows[number];
      plans.push({ number, part, verdict: "pass", code: null, parent, fault, text });
    }
  }
  for (const { number, verdict, code, scenario } of told.not_passed) Object.assign(plans[number], { verdict, code, text: scenario });
  return plans;
}

/** Spells the plans that grew. Those with the same parent follow each other mostly, so its scenario is made once. @param {Plan[]} plans @param {string[]} names */
function spellPlans(plans, names) {
  let [parent, shares] = [-1, []];
  for (const plan of plans) {
    if (plan.text !== null) continue;
    if (plan.parent !== parent) [parent, shares] = [plan.parent, sharesOf(faultsOf({ plans }, plans[plan.parent]), names)];
    plan.text = spellWith(shares, plan.fault, names);
  }
}

/** The runs that a document tells. @param {any} campaign */
function runsOf({ told: { findings, growth, about }, plans, names }) {
  const runs = new Runs(names);
  runs.add(0, "", about.clean_run);
  const add = (number, scenario, run) => {
    const { text, parent } = plans[number];
    runs.add(number, scenario, run, text === scenario && parent !== null ? plans[parent].text : null);
  };
  about.finding_runs.forEach((run, index) => add(findings[index].number, findings[index].reduced, run));
  about.cause_runs.forEach((run, index) => add(growth.causes[index].number, growth.causes[index].scenario, run));
  return runs;
}

/**
 * The campaign that a checked document tells.
 * @param {any} told
 */
function campaignOf(told) {
  const parts = partsOf(told);
  const plans = plansOf(told, parts);
  const codes = [...new Set(told.findings.map((finding) => finding.code))];
  const reached = told.growth && new Map(told.growth.reached.map((item) => [item.point, item.hits]));
  const names = told.census.map((item) => item.point);
  const campaign = {
    told, parts, plans, codes, names, call: callsOf(names),
    points: told.census.map(({ point, hits }) => ({ point, clean: hits, reached: reached ? reached.get(point) ?? null : null })),
  };
  spellPlans(plans, names);
  return { ...campaign, runs: runsOf(campaign) };
}

/**
 * The faults of a plan that grew from others, in the order of time; none of any other plan.
 * @param {{plans: Plan[]}} campaign
 * @param {Plan} plan
 * @returns {Fault[]}
 */
function faultsOf(campaign, plan) {
  const faults = [];
  for (let one = plan; one?.fault; one = campaign.plans[one.parent]) faults.push(one.fault);
  return faults.reverse();
}

/** The name of a plan's part, as filters know it. @param {Plan} plan */
function levelKeyOf(plan) {
  const { name, level } = plan.part;
  return name === "level" || name === "none" || name === "hits" || name === "pairs" ? String(level) : name;
}

/**
 * The plans that a filter lets through; a member that is empty lets all.
 * @param {{plans: Plan[], names: string[]}} campaign
 * @param {{verdict?: string, point?: string, level?: string, text?: string}} filter `verdict` is a verdict, or `fail` and a code behind a blank; `text` stands
 *   in the scenario, small or large, or in the number
 */
function filterPlans(campaign, { verdict = "", point = "", level = "", text = "" }) {
  const wanted = text.trim().toLowerCase();
  const place = campaign.names.indexOf(point);
  const lowered = wanted === "" ? [] : loweredTexts(campaign);
  return campaign.plans.filter((plan) =>
    (verdict === "" || verdict === plan.verdict || (plan.code !== null && verdict === `${plan.verdict} ${plan.code}`))
    && (level === "" || level === levelKeyOf(plan))
    && (point === "" || hasFaultAt(campaign, plan, point, place))
    && (wanted === "" || lowered[plan.number].includes(wanted) || String(plan.number).includes(wanted)));
}

/** The scenarios of all plans, in small letters. They are made once: a page asks for them before anybody filters. @param {any} campaign @returns {string[]} */
function loweredTexts(campaign) {
  campaign.lowered ??= campaign.plans.map((plan) => plan.text.toLowerCase());
  return campaign.lowered;
}

/** Whether a plan has a fault at this point. @param {any} campaign @param {Plan} plan @param {string} point @param {number} place */
function hasFaultAt({ plans }, plan, point, place) {
  if (!plan.fault) return (clausesOf(plan.text) ?? []).some((clause) => clause.point === point);
  for (let one = plan; one?.fault; one = plans[one.parent]) if (one.fault.point === place) return true;
  return false;
}

// Plans in words.

/** @typedef {import("./document.js").Plan} Plan */

/** A plan in words. One that grew has its faults in the order of time. @param {any} campaign @param {Plan} plan */
function planWords(campaign, plan) {
  const { names, call } = campaign;
  if (!plan.fault) return wordsOfScenario(plan.text, call);
  const clauses = faultsOf(campaign, plan).map(({ point, hit, kind }) =>
    ({ point: names[point], term: parseTerm(kind), first: hit, last: kind.startsWith("1*") ? hit : Infinity }));
  return wordsOfClauses(clauses, call, true);
}

/**
 * A scenario that a plan has, or that its own is reduced to.
 * @param {any} campaign
 * @param {number} number
 * @param {string} scenario
 */
function wordsOfNumbered(campaign, number, scenario) {
  const plan = campaign.plans[number];
  return plan.text === scenario ? planWords(campaign, plan) : wordsOfScenario(scenario, campaign.call);
}

/**
 * Scenarios grouped by the calls that they have a fault at, in the order of the first of each group.
 * @template {{scenario: string}} T
 * @param {T[]} items
 * @returns {{points: string[], items: T[]}[]}
 */
function groupByCalls(items) {
  const groups = new Map();
  for (const item of items) {
    const points = [...new Set((clausesOf(item.scenario) ?? []).map((clause) => clause.point))];
    const key = JSON.stringify(points);
    if (!groups.has(key)) groups.set(key, { points, items: [] });
    groups.get(key).items.push(item);
  }
  return [...groups.values()];
}

/** The command that tells a plan's run hit by hit. @param {{told_by: string}} about @param {Plan} plan */
function explainCommand({ told_by: toldBy }, plan) {
  if (toldBy === "target") return `paklour explain --plan ${plan.number} FILE`;
  return `paklour report --explain ${plan.text === "" ? "none" : quoted(plan.text)} FILE < ANSWERS`;
}

/** How many plans grew from one, and how many of these fail. @param {any} campaign @param {number} number */
function descendantsOf(campaign, number) {
  const among = new Set([number]);
  let fail = 0;
  for (const plan of campaign.plans) {
    if (plan.parent === null || plan.number <= number || !among.has(plan.parent)) continue;
    among.add(plan.number);
    if (plan.verdict === "fail") fail += 1;
  }
  return { plans: among.size - 1, fail };
}

// How a verdict is marked: by a shape and a colour, so that either alone tells codes apart.

/** As many shapes there are, and as many colours (style.css has them as --code-0 and on). */
const SHAPES = 8;

/**
 * @param {{verdict: string, code: string|null}} plan
 * @param {string[]} codes
 * @returns {number} 0 of a pass, 1 of what is unresolved, from 2 on of the codes in their order
 */
function markOf({ verdict, code }, codes) {
  if (verdict === "pass") return 0;
  return verdict === "unresolved" ? 1 : 2 + Math.max(0, codes.indexOf(code));
}

/** The class that colours a mark: each shape comes in each colour before a mark comes again. @param {number} mark */
function markClass(mark) {
  if (mark < 2) return mark === 0 ? "mark-pass" : "mark-unresolved";
  const code = mark - 2;
  return `mark-code-${(code + Math.floor(code / SHAPES)) % SHAPES}`;
}

/** @typedef {(x: number, y: number, s: number) => string} Shape */

/** @type {Shape[]} */
const CODE_SHAPES = [
  (x, y, s) => `M${x} ${y}h${s}v${s}h${-s}z`,
  (x, y, s) => `M${x + s / 2} ${y}l${s / 2} ${s / 2}l${-s / 2} ${s / 2}l${-s / 2} ${-s / 2}z`,
  (x, y, s) => `M${x + s / 2} ${y}l${s / 2} ${s}h${-s}z`,
  (x, y, s) => cross(x, y, s, s / 4),
  (x, y, s) => `M${x} ${y + s / 2}a${s / 2} ${s / 2} 0 1 0 ${s} 0a${s / 2} ${s / 2} 0 1 0 ${-s} 0z`,
  (x, y, s) => `M${x} ${y}h${s}l${-s / 2} ${s}z`,
  (x, y, s) => `M${x} ${y}h${s}v${s * 0.35}h${-s}zM${x} ${y + s * 0.65}h${s}v${s * 0.35}h${-s}z`,
  (x, y, s) => `M${x} ${y}h${s}l${-s} ${s}h${s}z`,
];

/** @param {number} x @param {number} y @param {number} s @param {number} w */
function cross(x, y, s, w) {
  const arm = s / 2 - w;
  const turns = [[w, -w], [arm, arm], [arm, -arm], [w, w], [-arm, arm], [arm, arm], [-w, w], [-arm, -arm], [-arm, arm], [-w, -w], [arm, -arm]];
  return `M${x} ${y + w}${turns.map(([right, down]) => `l${right} ${down}`).join("")}z`;
}

/**
 * The outline of a mark in a cell: a pass is a small square, what is unresolved a frame, each code a shape of its own.
 * @param {number} mark
 * @param {number} x
 * @param {number} y
 * @param {number} cell
 */
function markPath(mark, x, y, cell) {
  if (mark === 0) {
    const side = Math.round(cell / 3);
    const inset = (cell - side) / 2;
    return `M${x + inset} ${y + inset}h${side}v${side}h${-side}z`;
  }
  const side = cell - 3;
  if (mark > 1) return CODE_SHAPES[(mark - 2) % SHAPES](x + 1.5, y + 1.5, side);
  const inner = side - 4;
  return `M${x + 1.5} ${y + 1.5}h${side}v${side}h${-side}zM${x + 3.5} ${y + 3.5}v${inner}h${inner}v${-inner}z`;
}

/** A frame around a cell. @param {number} x @param {number} y @param {number} cell */
function framePath(x, y, cell) {
  return `M${x} ${y}h${cell}v${cell}h${-cell}z`;
}

// Elements, made without a text ever being read as HTML: what a document names goes into text nodes and attributes alone.

const SVG = "http://www.w3.org/2000/svg";

/** @typedef {Node|string|null} Child */

/**
 * @param {string} name
 * @param {Record<string, string|number|boolean|null>} [attributes] one that is null or false is left out
 * @param {...Child} children
 * @returns {HTMLElement}
 */
function element(name, attributes = {}, ...children) {
  return /** @type {HTMLElement} */ (filled(document.createElement(name), attributes, children));
}

/** @param {string} name @param {Record<string, string|number>} [attributes] @param {...Child} children */
function svgElement(name, attributes = {}, ...children) {
  return filled(document.createElementNS(SVG, name), attributes, children);
}

/** @param {Element} made @param {Record<string, string|number|boolean|null>} attributes @param {Child[]} children */
function filled(made, attributes, children) {
  for (const [key, value] of Object.entries(attributes)) {
    if (value !== null && value !== false) made.setAttribute(key, value === true ? "" : shown(String(value)));
  }
  made.append(...children.filter((child) => child !== null).map((child) => (typeof child === "string" ? shown(child) : child)));
  return made;
}

/** A text of several lines, as it stands. @param {string} text */
function preformatted(text) {
  const lines = text.split("\n").map((line) => line.split("\t").map(shown).join("\t"));
  const made = element("pre");
  made.append(lines.join("\n"));
  return made;
}

/** A mark as it stands in the map. @param {number} mark @param {number} [size] */
function markIcon(mark, size = 13) {
  const path = svgElement("path", { d: markPath(mark, 0, 0, size), class: markClass(mark) });
  return svgElement("svg", { class: "icon", width: size, height: size, viewBox: `0 0 ${size} ${size}`, "aria-hidden": "true" }, path);
}

/** @param {string} title @param {string} id @param {...Child} children */
function section(title, id, ...children) {
  return element("section", { id, "aria-labelledby": `${id}-title` }, element("h2", { id: `${id}-title` }, title), ...children);
}

/**
 * A list of which the first members are shown, and a button that shows as many more again.
 * @template T
 * @param {T[]} items
 * @param {number} step
 * @param {HTMLElement} into
 * @param {(item: T) => Node} draw
 * @returns {HTMLElement} the button, hidden where all is shown
 */
function drawSome(items, step, into, draw) {
  let done = 0;
  const button = element("button", { type: "button", class: "more" });
  const more = () => {
    into.append(...items.slice(done, done + step).map(draw));
    done = Math.min(items.length, done + step);
    button.textContent = `Show ${Math.min(step, items.length - done)} more of ${items.length - done}`;
    button.hidden = done === items.length;
  };
  button.addEventListener("click", more);
  more();
  return button;
}

// Where each plan of a campaign lies in the map. Down the map stand the first faults, in the order of the run without faults; across it the levels, side by
// side. Where a first fault and a level meet, a strip holds the plans that begin with that fault, in lines of cells, in the order of their numbers.

/** @typedef {import("./document.js").Plan} Plan */
/** @typedef {{key: string, level: number|null, plans: number, open: boolean, slots: number, left: number, width: number}} Column */
/** @typedef {{column: number|null, left: number, slots: number, numbers: number[]}} Strip */
/** @typedef {{row: number, part: number, top: number, firstLine: number, lines: number, height: number, strips: Strip[]}} Band */
/** @typedef {{kind: "none"|"site"|"wide", point: string|null, hit: number, name: string|null}} Row */
/**
 * @typedef {{cell: number, gap: number, width: number, height: number, rows: Row[], columns: Column[], bands: Band[],
 *   lineBands: number[], places: Map<number, {band: number, strip: number, index: number}>}} Layout
 */

/** Between two columns, and between two bands; between bands of one line each there is less. */
const GAP = 10;
const TIGHT = 4;
/** The room of a closed column: its count is told there. */
const CLOSED = 44;
/** As many lines has a band at most, so that a page that is printed can end between two. */
const LINES = 24;

const FEWEST_SLOTS = 4;

/**
 * The rows of the map, and the row of each plan: the run without faults; a first fault's hit; a list that didn't grow (storms and the like).
 * @param {{plans: Plan[], names: string[]}} campaign
 */
function rowsOf(campaign) {
  const rows = [];
  const indexes = new Map();
  /** @type {number[]} */
  const rowOf = [];
  const add = (key, row) => {
    if (!indexes.has(key)) indexes.set(key, rows.push(row) - 1);
    return indexes.get(key);
  };
  for (const plan of campaign.plans) rowOf.push(rowOfPlan(plan, campaign, rowOf, add));
  return { rows, rowOf };
}

/** @param {Plan} plan @param {{names: string[]}} campaign @param {number[]} rowOf @param {(key: string, row: Row) => number} add */
function rowOfPlan(plan, { names }, rowOf, add) {
  const { name, level } = plan.part;
  if (name === "storms" || name === "listed") return add(name, { kind: "wide", point: null, hit: 0, name });
  if (level === 0 && name !== "onward") return add("none", { kind: "none", point: null, hit: 0, name: null });
  if (plan.parent) return rowOf[plan.parent];
  const { point, hit } = plan.fault;
  return add(`${hit} ${point}`, { kind: "site", point: names[point], hit, name: null });
}

/**
 * How many cells a line has in each column, of so many in all: each column gets a few, and of the rest as much as its share of the plans, but none more than
 * its longest strip.
 * @param {{plans: number, longest: number}[]} columns
 * @param {number} room
 * @returns {number[]}
 */
function shareSlots(columns, room) {
  const slots = columns.map(({ longest }) => Math.min(longest, FEWEST_SLOTS));
  let left = room - slots.reduce((sum, count) => sum + count, 0);
  let growing = columns.map((_, index) => index).filter((index) => slots[index] < columns[index].longest);
  while (left > 0 && growing.length > 0) {
    const plans = growing.reduce((sum, index) => sum + columns[index].plans, 0);
    const before = left;
    for (const index of growing) {
      const more = Math.min(Math.ceil((before * columns[index].plans) / plans), columns[index].longest - slots[index], left);
      slots[index] += more;
      left -= more;
    }
    growing = growing.filter((index) => slots[index] < columns[index].longest);
  }
  return slots;
}

/**
 * The strips of each row: for each column, or across all of them, the numbers of the plans.
 * @param {{plans: Plan[]}} campaign
 * @param {Row[]} rows
 * @param {number[]} rowOf
 */
function gather(campaign, rows, rowOf) {
  const strips = rows.map(() => new Map());
  for (const plan of campaign.plans) {
    const row = rowOf[plan.number];
    const key = rows[row].kind === "wide" ? null : levelKeyOf(plan);
    const numbers = strips[row].get(key);
    if (numbers) numbers.push(plan.number);
    else strips[row].set(key, [plan.number]);
  }
  return strips;
}

/**
 * @param {{parts: {name: string, level: number|null, count: number}[], plans: Plan[]}} campaign
 * @param {Map<string|null, number[]>[]} strips
 * @param {{width: number, cell: number, closed: Set<string>}} options
 * @returns {Column[]}
 */
function columnsOf(campaign, strips, { width, cell, closed }) {
  const keys = [];
  for (const part of campaign.parts) if (part.level !== null) keys.push({ key: levelKeyOf({ part }), level: part.level });
  const sizes = keys.map(({ key }) => {
    const lengths = strips.map((strip) => strip.get(key)?.length ?? 0);
    return { plans: lengths.reduce((sum, length) => sum + length, 0), longest: Math.max(1, ...lengths) };
  });
  const opened = keys.map(({ key }) => !closed.has(key));
  const room = Math.floor((width - keys.length * GAP - opened.filter((open) => !open).length * CLOSED) / cell);
  const shares = shareSlots(sizes.filter((_, index) => opened[index]), room);
  let left = 0;
  return keys.map(({ key, level }, index) => {
    const slots = opened[index] ? shares.shift() : 0;
    const column = { key, level, plans: sizes[index].plans, open: opened[index], slots, left, width: opened[index] ? slots * cell : CLOSED };
    left += column.width + GAP;
    return column;
  });
}

/**
 * The bands of a row: as many as its longest strip needs.
 * @param {Map<string|null, number[]>} strips
 * @param {number} row
 * @param {Column[]} columns
 * @param {{width: number, cell: number}} options
 */
function bandsOf(strips, row, columns, { width, cell }) {
  const whole = [...strips].map(([key, numbers]) => {
    const column = key === null ? null : columns.findIndex((one) => one.key === key);
    const wide = { left: 0, open: true, slots: Math.max(FEWEST_SLOTS, Math.floor(width / cell)) };
    const { left, slots, open } = column === null ? wide : columns[column];
    return { column, left, slots, open, numbers };
  });
  const lines = Math.max(1, ...whole.map((strip) => (strip.open ? Math.ceil(strip.numbers.length / strip.slots) : 1)));
  return Array.from({ length: Math.ceil(lines / LINES) }, (_, part) => ({
    row, part,
    strips: whole
      .map(({ open, ...strip }) => ({
        ...strip,
        numbers: open ? strip.numbers.slice(part * LINES * strip.slots, (part + 1) * LINES * strip.slots) : part === 0 ? strip.numbers : [],
      }))
      .filter((strip) => strip.numbers.length > 0)
      .sort((one, other) => one.left - other.left),
    lines: Math.min(LINES, lines - part * LINES),
  }));
}

/**
 * The map of a campaign, `width` wide where its levels find room in that, with cells of this size. Plans of closed levels have no place.
 * @param {any} campaign
 * @param {{width: number, cell: number, closed?: Set<string>}} options
 * @param {{rows: Row[], rowOf: number[]}} [known] the rows, where they are known
 * @returns {Layout}
 */
function layoutMap(campaign, { width, cell, closed = new Set() }, { rows, rowOf } = rowsOf(campaign)) {
  const strips = gather(campaign, rows, rowOf);
  const columns = columnsOf(campaign, strips, { width, cell, closed });
  const whole = Math.max(width, ...columns.map((column) => column.left + column.width));
  const unstacked = strips.flatMap((strip, row) => bandsOf(strip, row, columns, { width: whole, cell }));
  const gap = unstacked.every((band) => band.lines === 1) ? TIGHT : GAP;
  const bands = stack(unstacked, cell, gap);
  const lineBands = bands.flatMap((band, index) => Array.from({ length: band.lines }, () => index));
  const height = bands.reduce((sum, band) => sum + band.height + gap, 0);
  let places = null;
  return {
    cell, gap, width: whole, height, rows, columns, bands, lineBands,
    // Only keys and a plan that is chosen ask for it.
    get places() {
      places ??= placesOf(bands);
      return places;
    },
  };
}

/** One band below the other. @param {{lines: number}[]} bands @param {number} cell @param {number} gap @returns {Band[]} */
function stack(bands, cell, gap) {
  let top = 0;
  let firstLine = 0;
  return bands.map((band) => {
    const placed = { ...band, top, firstLine, height: band.lines * cell };
    top += placed.height + gap;
    firstLine += band.lines;
    return placed;
  });
}

/** @param {Band[]} bands */
function placesOf(bands) {
  const places = new Map();
  bands.forEach((band, index) => band.strips.forEach((strip, at) => {
    if (strip.slots > 0) strip.numbers.forEach((number, slot) => places.set(number, { band: index, strip: at, index: slot }));
  }));
  return places;
}

/**
 * Where a plan's cell begins; null of a plan that has no place.
 * @param {Layout} layout
 * @param {number} number
 */
function placeOf(layout, number) {
  const place = layout.places.get(number);
  if (!place) return null;
  const band = layout.bands[place.band];
  const strip = band.strips[place.strip];
  return {
    x: strip.left + (place.index % strip.slots) * layout.cell,
    y: band.top + Math.floor(place.index / strip.slots) * layout.cell,
  };
}

/**
 * The plan at a place of a strip; null where none is.
 * @param {Strip} strip
 * @param {number} cell
 * @param {number} x from the strip's left
 * @param {number} y from the band's top
 */
function planIn(strip, cell, x, y) {
  const slot = Math.floor(x / cell);
  if (slot < 0 || slot >= strip.slots || y < 0) return null;
  return strip.numbers[Math.floor(y / cell) * strip.slots + slot] ?? null;
}

/** The cells of a line, of all lines of the map. @param {Layout} layout @param {number} at */
function lineAt(layout, at) {
  const band = layout.bands[layout.lineBands[at]];
  const line = at - band.firstLine;
  return band.strips.filter((strip) => strip.slots > 0).flatMap((strip) =>
    strip.numbers.slice(line * strip.slots, (line + 1) * strip.slots).map((number, slot) => ({ number, x: strip.left + slot * layout.cell })));
}

/** The next line that has a cell, from this one in this direction. @param {Layout} layout @param {number} line @param {1|-1} step */
function lineBeside(layout, line, step) {
  for (let at = line + step; at >= 0 && at < layout.lineBands.length; at += step) {
    const cells = lineAt(layout, at);
    if (cells.length > 0) return { line: at, cells };
  }
  return null;
}

/** @param {{number: number, x: number}[]} cells @param {number} x */
function nearest(cells, x) {
  return cells.reduce((best, cell) => (Math.abs(cell.x - x) < Math.abs(best.x - x) ? cell : best)).number;
}

/**
 * The plan that a key leads to from another: arrows to the next cell, Home and End to the line's ends, Page Up and Page Down by ten lines. Where the map ends,
 * the plan itself.
 * @param {Layout} layout
 * @param {number} number
 * @param {string} key
 */
function planBeside(layout, number, key) {
  const place = layout.places.get(number);
  if (!place) return number;
  const band = layout.bands[place.band];
  const line = band.firstLine + Math.floor(place.index / band.strips[place.strip].slots);
  const cells = lineAt(layout, line);
  const at = cells.findIndex((cell) => cell.number === number);
  switch (key) {
    case "ArrowRight": return (cells[at + 1] ?? lineBeside(layout, line, 1)?.cells[0] ?? cells[at]).number;
    case "ArrowLeft": return (cells[at - 1] ?? lineBeside(layout, line, -1)?.cells.at(-1) ?? cells[at]).number;
    case "Home": return cells[0].number;
    case "End": return cells[cells.length - 1].number;
    case "ArrowDown": return linesAway(layout, line, cells[at], 1);
    case "ArrowUp": return linesAway(layout, line, cells[at], -1);
    case "PageDown": return linesAway(layout, line, cells[at], 10);
    case "PageUp": return linesAway(layout, line, cells[at], -10);
    default: return number;
  }
}

/** @param {Layout} layout @param {number} line @param {{number: number, x: number}} cell @param {number} lines */
function linesAway(layout, line, cell, lines) {
  let found = { line, cells: [cell] };
  for (let left = Math.abs(lines); left > 0; left -= 1) found = lineBeside(layout, found.line, lines > 0 ? 1 : -1) ?? found;
  return nearest(found.cells, cell.x);
}

// What was tried, exactly, and what came of it, in sentences.

/** How many plans fail with each code, in the order of the codes. @param {any} campaign @returns {[string, number][]} */
function failuresByCode({ told, codes }) {
  return codes.map((code) => [code, told.not_passed.filter((item) => item.verdict === "fail" && item.code === code).length]);
}

/** What came of it. @param {any} campaign */
function headline(campaign) {
  const { counts, clean } = campaign.told;
  const plans = counted(counts.plans, "plan");
  const ended = counts.unresolved === 0 ? "" : `; ${counted(counts.unresolved, "run was", "runs were")} ended without a verdict`;
  if (counts.fail === 0) return `None of ${plans} fails${ended}.`;
  const already = clean.verdict === "fail" ? "The run without faults fails already: " : "";
  return `${already}${grouped(counts.fail)} of ${plans} ${counts.fail === 1 ? "fails" : "fail"}${ended}.`;
}

/**
 * The kinds of faults that were tried at each point where plans grew, in the order in which they were tried.
 * @param {any} campaign
 * @returns {Map<string, string[]>}
 */
function kindsByPoint({ plans, names }) {
  const kinds = names.map(() => new Set());
  for (const { part, fault } of plans) if (part.name === "level" && fault) kinds[fault.point].add(fault.kind.slice("1*".length));
  return new Map(names.map((name, point) => [name, [...kinds[point]]]).filter(([, tried]) => tried.length > 0));
}

/** The points by the kinds that were tried at them, in words, the most common kinds last. @param {Map<string, string[]>} kinds @param {any} campaign */
function pointsByKinds(kinds, { call }) {
  const groups = new Map();
  for (const [point, tried] of kinds) {
    if (point === KEEP) continue;
    const words = listed(tried.map((kind) => wordsOfKind(point, kind)), "or");
    groups.set(words, [...(groups.get(words) ?? []), call(point)]);
  }
  return [...groups].sort((one, other) => one[1].length - other[1].length);
}

/** What a fault is, in words. @param {any} campaign */
function faultsWords(campaign) {
  const kinds = kindsByPoint(campaign);
  const groups = pointsByKinds(kinds, campaign);
  const parts = groups.map(([words, points], index) =>
    `${words} at ${index < groups.length - 1 ? listed(points) : groups.length > 1 ? "each other point that is hit" : "any point that is hit"}`);
  if ((kinds.get(KEEP) ?? []).some((kind) => kind.startsWith("return"))) parts.push("a pending change that the power cut keeps");
  return parts.length > 2 ? `${parts.slice(0, -1).join("; ")}; or ${parts[parts.length - 1]}` : parts.join(", or ");
}

/** @param {any} campaign */
function triedToDepth(campaign) {
  const { growth: { depth, onward }, about } = campaign.told;
  if (about.grown.length <= 1) return ["Tried was the run without faults, and no fault."];
  const faults = depth === 1 ? "at most one fault acts" : `at most ${depth} faults act`;
  const sentences = [`Tried was each behaviour in which ${faults}. A fault is ${faultsWords(campaign)}.`];
  if (onward > 0) sentences.push(`In ${counted(onward, "plan")} more the ${depth === 1 ? "fault" : `last of ${depth} faults`} acts at each later hit of its point too.`);
  return sentences;
}

/** @param {any} campaign */
function triedAtHits({ parts }) {
  const size = (name) => parts.find((part) => part.name === name)?.count ?? 0;
  const hits = size("hits") / 3;
  if (hits === 0) return ["Tried was the run without faults."];
  const sentences = [`Tried was one fault at each of ${counted(hits, "hit")} of the run without faults: a failure, failures from then on, and the end of the program.`];
  if (size("pairs") > 0) sentences.push(`In ${counted(size("pairs"), "plan")} more two of these hits have a fault: both fail, or the program ends at the second.`);
  return sentences;
}

/** What was tried. @param {any} campaign @returns {string[]} */
function tried(campaign) {
  const size = (name) => campaign.parts.find((part) => part.name === name)?.count ?? 0;
  const sentences = campaign.told.growth ? triedToDepth(campaign) : triedAtHits(campaign);
  if (size("storms") > 0) sentences.push(`${counted(size("storms"), "storm")} ${size("storms") === 1 ? "has" : "have"} faults that were drawn by the seed.`);
  if (size("listed") > 0) sentences.push(`${counted(size("listed"), "scenario")} ${size("listed") === 1 ? "was" : "were"} listed by the settings.`);
  return sentences;
}


/** Whether it is whole, and what of it isn't. @param {any} campaign @returns {{whole: boolean, sentences: string[]}} */
function wholeness({ told }) {
  const { growth, counts, unmet = 0 } = told;
  const whole = growth !== null && growth.beyond === 0 && counts.unresolved === 0;
  const sentences = [];
  if (growth === null) sentences.push("Without a depth, hits that only a fault leads to, as those of clean-up, got no fault of their own.");
  else if (growth.beyond > 0) sentences.push(`${counted(growth.beyond, "plan with one fault more is", "plans with one fault more are")} left for the next depth.`);
  else if (whole) sentences.push("Whole: no run has a hit left for one fault more, so more such faults show nothing else.");
  if (counts.unresolved > 0) sentences.push(endedWords(counts.unresolved, growth !== null && growth.beyond === 0));
  if (growth?.unseen) sentences.push(`Nobody knows the hits of ${counted(growth.unseen, "ended run")}: nothing grew from there.`);
  if (unmet > 0) sentences.push(`${counted(unmet, "plan passes without meeting each of its", "plans pass without meeting each of their")} faults.`);
  return { whole, sentences };
}

/** What runs mean that were ended. @param {number} ended @param {boolean} wholeElse */
function endedWords(ended, wholeElse) {
  if (!wholeElse) return `Besides, ${counted(ended, "run was", "runs were")} ended: what would have come after that isn\u2019t known.`;
  return `Whole but for ${counted(ended, "run that was", "runs that were")} ended: what would have come after that isn\u2019t tried.`;
}

/** What holds only if something else does, and what is never in it. @param {any} campaign */
function limits({ told }) {
  const sentences = [];
  if (told.about.told_by === "answers") sentences.push("This rests on recorded runs: it holds of a program that does the same whenever its calls come to the same.");
  sentences.push("No campaign tries other orders of threads, other times, other kinds of faults or other work for the program.");
  return sentences;
}

/** What a part of the list is called. @param {{name: string, level: number|null}} part */
function partWords({ name, level }) {
  switch (name) {
    case "none": return "no fault";
    case "level": return level === 0 ? "no fault" : counted(level, "fault");
    case "hits": return "1 fault";
    case "pairs": return "2 faults";
    case "onward": return level === 1 ? "1 fault, from then on" : `${level} faults, the last from then on`;
    case "storms": return "storms";
    default: return "listed scenarios";
  }
}

/**
 * What a row of the map is called.
 * @param {{kind: string, point: string|null, hit: number, name: string|null}} row
 * @param {(point: string) => string} call
 */
function rowWords({ kind, point, hit, name }, call) {
  if (kind === "none") return "no fault";
  if (kind === "wide") return partWords({ name, level: null });
  return `${ordinal(hit)} ${call(point)}`;
}

// Draws the map, and leads pointer and keys to its plans.

/** @typedef {import("./map.js").Layout} Layout */
/** @typedef {import("./map.js").Band} Band */
/** @typedef {import("./map.js").Strip} Strip */

const NARROW = 640;
/** The room of a label: by its characters, between these, and of a share of the map at most. */
const LABEL = { character: 6.9, least: 120, most: 340, share: 0.36 };
/** What a printed page has room for. */
const PRINTED_WIDTH = 700;
/** What the map's box has left and right of it. */
const SIDES = 24;
/** A map that would be far taller than this is made wider than its box, and scrolls. */
const TALL = 12000;
/** A column's head of this width has words in it. */
const ROOM_FOR_WORDS = 90;
const SMALLEST = 12;
const CELLS = [{ most: 400, size: 20 }, { most: 3000, size: 16 }];
const HINT = "Point at a mark to see its plan here, or press the arrow keys; a click or Enter tells more.";
const MOVES = new Set(["ArrowLeft", "ArrowRight", "ArrowUp", "ArrowDown", "Home", "End", "PageUp", "PageDown"]);

/** The size of a cell: large where there are few. @param {number} plans */
function cellFor(plans) {
  return CELLS.find(({ most }) => plans <= most)?.size ?? SMALLEST;
}

/** The room for labels of which the longest has so many characters, in a map of this width. @param {number} characters @param {number} width */
function labelWidth(characters, width) {
  return Math.round(Math.max(LABEL.least, Math.min(characters * LABEL.character + 12, LABEL.most, width * LABEL.share)));
}

/** The marks of a strip, one path for each that it has. @param {any} campaign @param {Strip} strip @param {number} cell */
function stripPaths(campaign, strip, cell) {
  const paths = new Map();
  strip.numbers.forEach((number, index) => {
    const mark = markOf(campaign.plans[number], campaign.codes);
    const path = markPath(mark, (index % strip.slots) * cell, Math.floor(index / strip.slots) * cell, cell);
    paths.set(mark, (paths.get(mark) ?? "") + path);
  });
  return paths;
}

/** How many plans a strip has, and how many fail. @param {any} campaign @param {Strip} strip */
function stripWords(campaign, strip) {
  const fail = strip.numbers.filter((number) => campaign.plans[number].verdict === "fail").length;
  return `${counted(strip.numbers.length, "plan")}${fail > 0 ? `, ${grouped(fail)} ${fail === 1 ? "fails" : "fail"}` : ""}`;
}

/** The map of a campaign: an element, and what chooses a plan in it. */
class MapView {
  /**
   * @param {any} campaign
   * @param {{label: (row: any) => string, tell: (number: number) => string, chosen: (number: number) => void}} options what a row and a plan are called
   */
  constructor(campaign, { label, tell, chosen }) {
    Object.assign(this, { campaign, label, tell, chosen });
    this.closed = new Set();
    this.cell = cellFor(campaign.plans.length);
    this.known = rowsOf(campaign);
    this.longest = this.known.rows.reduce((most, row) => Math.max(most, label(row).length), 0);
    this.selected = null;
    this.firsts = new Set(campaign.told.findings.map((finding) => finding.number));
    this.grid = element("div", { class: "map", role: "grid", tabindex: "0", "aria-label": "Map of plans", "aria-describedby": "map-keys" });
    this.pointed = element("p", { class: "pointed" }, HINT);
    this.box = element("div", { class: "map-box" }, this.grid, this.pointed);
    this.listen();
  }

  listen() {
    this.grid.addEventListener("pointermove", (event) => this.point(this.planUnder(event)));
    this.grid.addEventListener("pointerleave", () => this.point(null));
    this.grid.addEventListener("click", (event) => {
      const number = this.planUnder(event);
      if (number !== null) this.choose(number);
    });
    this.grid.addEventListener("focus", () => this.begin());
    this.grid.addEventListener("keydown", (event) => this.press(event));
    new ResizeObserver(() => this.fit(this.box.clientWidth)).observe(this.box);
    addEventListener("beforeprint", () => this.fit(PRINTED_WIDTH, Infinity));
    addEventListener("afterprint", () => this.fit(this.box.clientWidth));
  }

  /** Where keys lead to the map a plan is selected; a pointer selects its own. */
  begin() {
    const isSelected = this.selected !== null && this.layout.places.has(this.selected);
    if (!isSelected && this.grid.matches(":focus-visible")) this.select(this.firstPlan());
  }

  firstPlan() {
    const failing = this.campaign.told.findings[0]?.number;
    return this.layout.places.has(failing) ? failing : [...this.layout.places.keys()][0] ?? null;
  }

  /** Draws the map for this width, or wider where it would be far taller than `tall`. @param {number} width @param {number} [tall] */
  fit(width, tall = TALL) {
    if (width === 0 || (width === this.width && tall === this.tall)) return;
    Object.assign(this, { width, tall });
    this.draw();
  }

  /** @param {number} cell */
  resize(cell) {
    this.cell = cell;
    this.draw();
  }

  draw() {
    const labels = this.width < NARROW ? 0 : labelWidth(this.longest, this.width);
    const width = Math.max(this.width - labels - SIDES, Math.ceil((this.campaign.plans.length * this.cell ** 2) / this.tall));
    this.layout = layoutMap(this.campaign, { width, cell: this.cell, closed: this.closed }, this.known);
    this.box.classList.toggle("narrow", labels === 0);
    this.box.style.setProperty("--labels", `${labels}px`);
    this.grid.setAttribute("aria-rowcount", String(this.layout.bands.length + 1));
    this.grid.setAttribute("aria-colcount", String(this.layout.columns.length + 1));
    this.grid.replaceChildren(this.drawHead(), ...this.layout.bands.map((band, index) => this.drawBand(band, index)));
    for (const strips of this.grid.querySelectorAll(".map-strips")) strips.style.width = `${this.layout.width}px`;
    this.drawSelection();
  }

  drawHead() {
    const strips = element("div", { class: "map-strips", role: "presentation" });
    for (const column of this.layout.columns) {
      const part = this.campaign.parts.find((one) => one.level === column.level && (one.name === "onward") === (column.key === "onward"));
      const words = partWords(part);
      const [short, long] = column.key === "onward" ? ["on", "from then on"] : [column.key, words];
      const title = `${words}: ${counted(column.plans, "plan")}`;
      const attributes = { type: "button", "aria-expanded": String(column.open), title, "aria-label": title };
      const button = element("button", attributes, column.width >= ROOM_FOR_WORDS ? long : short);
      button.addEventListener("click", () => this.toggle(column.key));
      const head = element("div", { role: "columnheader", class: "map-column" }, button);
      Object.assign(head.style, { left: `${column.left}px`, width: `${Math.max(column.width, 18)}px` });
      strips.append(head);
    }
    const label = element("div", { role: "columnheader", class: "map-label" }, "first fault \u2193  faults \u2192");
    return element("div", { role: "row", class: "map-head", "aria-rowindex": "1" }, label, strips);
  }

  /** @param {string} key */
  toggle(key) {
    if (!this.closed.delete(key)) this.closed.add(key);
    this.draw();
    const at = this.layout.columns.findIndex((column) => column.key === key);
    this.grid.querySelectorAll(".map-column button")[at]?.focus();
  }

  /** @param {Band} band @param {number} index */
  drawBand(band, index) {
    const row = this.layout.rows[band.row];
    const words = this.label(row);
    const label = element("div", { role: "rowheader", class: "map-label", title: row.point }, band.part === 0 ? words : `${words}, further`);
    const strips = element("div", { class: "map-strips", role: "presentation" }, ...band.strips.map((strip, at) => this.drawStrip(band, strip, index, at)));
    label.style.lineHeight = this.width < NARROW ? null : `${this.cell}px`;
    strips.style.height = `${band.height}px`;
    const made = element("div", { role: "row", class: row.kind === "wide" ? "map-band wide" : "map-band", "aria-rowindex": String(index + 2) }, label, strips);
    made.style.marginBottom = `${this.layout.gap}px`;
    return made;
  }

  /** @param {Band} band @param {Strip} strip @param {number} bandAt @param {number} stripAt */
  drawStrip(band, strip, bandAt, stripAt) {
    const words = stripWords(this.campaign, strip);
    const index = strip.column === null ? null : strip.column + 2;
    const made = element("div", { role: "gridcell", class: "strip", "aria-colindex": index, "aria-label": words });
    made.style.left = `${strip.left}px`;
    if (strip.slots === 0) {
      made.append(element("span", { class: "closed", title: words }, grouped(strip.numbers.length)));
      return made;
    }
    Object.assign(made.dataset, { band: String(bandAt), strip: String(stripAt) });
    const width = Math.min(strip.slots, strip.numbers.length) * this.cell;
    const height = Math.ceil(strip.numbers.length / strip.slots) * this.cell;
    const picture = svgElement("svg", { width, height, viewBox: `0 0 ${width} ${height}`, "aria-hidden": "true" });
    for (const [mark, d] of stripPaths(this.campaign, strip, this.cell)) picture.append(svgElement("path", { d, class: markClass(mark) }));
    const frames = strip.numbers.flatMap((number, at) => (this.firsts.has(number) ? [this.frameAt(strip, at)] : []));
    if (frames.length > 0) picture.append(svgElement("path", { d: frames.join(""), class: "frame-first" }));
    made.append(picture);
    return made;
  }

  /** @param {Strip} strip @param {number} index */
  frameAt(strip, index) {
    return framePath((index % strip.slots) * this.cell, Math.floor(index / strip.slots) * this.cell, this.cell);
  }

  /** @param {MouseEvent} event @returns {number|null} */
  planUnder(event) {
    const strip = /** @type {Element} */ (event.target).closest?.(".strip[data-band]");
    if (!strip) return null;
    const { left, top } = strip.getBoundingClientRect();
    const { band, strip: at } = /** @type {HTMLElement} */ (strip).dataset;
    return planIn(this.layout.bands[Number(band)].strips[Number(at)], this.cell, event.clientX - left, event.clientY - top);
  }

  /** Tells the plan under the pointer, or else the one that is selected. @param {number|null} number */
  point(number) {
    const told = number ?? this.selected;
    this.pointed.textContent = told === null ? HINT : this.tell(told);
  }

  /** @param {KeyboardEvent} event */
  press(event) {
    if (event.target !== this.grid || this.selected === null || event.altKey || event.metaKey) return;
    if (event.key === "Enter" || event.key === " ") this.choose(this.selected);
    else if (MOVES.has(event.key)) this.select(this.target(event));
    else return;
    event.preventDefault();
  }

  /** @param {KeyboardEvent} event */
  target({ key, ctrlKey }) {
    const numbers = [...this.layout.places.keys()];
    if (ctrlKey && key === "Home") return numbers[0];
    if (ctrlKey && key === "End") return numbers[numbers.length - 1];
    return planBeside(this.layout, /** @type {number} */ (this.selected), key);
  }

  /** @param {number} number */
  choose(number) {
    this.select(number);
    this.chosen(number);
  }

  /** Marks a plan, and those that it grew from. @param {number|null} number */
  select(number) {
    this.selected = number;
    this.drawSelection();
    this.point(null);
    this.grid.querySelector("#map-current")?.scrollIntoView({ block: "nearest", inline: "nearest" });
  }

  drawSelection() {
    for (const old of this.grid.querySelectorAll(".frame-selected, .frame-before, #map-current")) old.remove();
    this.grid.removeAttribute("aria-activedescendant");
    if (this.selected === null) return;
    let plan = this.campaign.plans[this.selected];
    this.frame(this.selected, "frame-selected");
    while (plan?.parent !== null && plan !== undefined) {
      this.frame(plan.parent, "frame-before");
      plan = this.campaign.plans[plan.parent];
    }
    this.drawCurrent(this.selected);
  }

  /** @param {number} number @returns {Element|null} */
  stripOf(number) {
    const place = this.layout.places.get(number);
    return place ? this.grid.querySelector(`.strip[data-band="${place.band}"][data-strip="${place.strip}"]`) : null;
  }

  /** @param {number} number @param {string} name */
  frame(number, name) {
    const place = this.layout.places.get(number);
    if (!place) return;
    const strip = this.layout.bands[place.band].strips[place.strip];
    this.stripOf(number)?.querySelector("svg")?.append(svgElement("path", { d: this.frameAt(strip, place.index), class: name }));
  }

  /** What a reader of screens is told: a cell that stands where the selected plan does. @param {number} number */
  drawCurrent(number) {
    const strip = this.stripOf(number);
    const place = placeOf(this.layout, number);
    if (!strip || !place) return;
    const band = this.layout.bands[this.layout.places.get(number).band];
    const current = element("div", { id: "map-current", role: "gridcell", "aria-label": this.tell(number), "aria-selected": "true" });
    Object.assign(current.style, { left: `${place.x}px`, top: `${place.y - band.top}px`, width: `${this.cell}px`, height: `${this.cell}px` });
    strip.parentElement.append(current);
    this.grid.setAttribute("aria-activedescendant", "map-current");
  }
}

// What the loop has added to a page: the program, and a story for each finding and cause. A page of another origin has none.

/** @typedef {{kind: string, mode: string, length: number, begin: number, text: string, more: number}} Side */
/** @typedef {{name: string, before: Side|null, after: Side|null}} Difference */
/**
 * @typedef {{
 *   scenario: string, verdict: string, words: string, state: string, pending: {what: string, kept: string}[], promised: string[], promised_before: number,
 *   files: {differences: Difference[], more: number, same: number, unjudged: number}|null, judge: string[], program: string[], hits: string[],
 *   again: string, further: string[]
 * }} Story
 */

const VERSION_TOLD = 1;
const oneSide = members({ kind: text, mode: text, length: count, begin: count, text, more: count });
const oneDifference = members({ name: text, before: orNull(oneSide), after: orNull(oneSide) });
const oneStory = members({
  scenario: text, verdict: text, words: text, state: text, pending: list(members({ what: text, kept: text })), promised: list(text), promised_before: count,
  files: orNull(members({ differences: list(oneDifference), more: count, same: count, unjudged: count })),
  judge: list(text), program: list(text), hits: list(text), again: text, further: list(text),
});
const appendix = members({
  title: text,
  program: members({ name: text, run: list(text), version: text, files: list(members({ name: text, digest: text, changed: text })) }),
  date: text, command: text, sample: text, clean: list(text), stories: list(oneStory),
});

/** What the loop tells, by scenario. */
class Appendix {
  /** @param {any} told */
  constructor(told) {
    this.told = told;
    /** @type {Map<string, Story>} */
    this.stories = new Map(told.stories.map((story) => [story.scenario === "none" ? "" : story.scenario, story]));
  }

  /** @param {string} scenario @returns {Story|null} */
  storyOf(scenario) {
    return this.stories.get(scenario) ?? null;
  }

  /** What is known of the hits of a run besides. @param {string} scenario */
  hitsOf(scenario) {
    const story = this.storyOf(scenario);
    return story === null ? { about: scenario === "" ? this.told.clean : [], state: "" } : { about: story.hits, state: story.state };
  }

  /** The command that makes a run again. @param {string} scenario */
  again(scenario) {
    return `${this.told.command} --try ${quoted(scenario === "" ? "none" : scenario)}`;
  }
}

/** The appendix, checked. @param {string} json */
function readAppendix(json) {
  return new Appendix(readChecked(json, VERSION_TOLD, appendix, "appendix"));
}

/** A story's words without its verdict, which stands before them. @param {Story} story */
function wordsOfStory({ verdict, words }) {
  return words.slice(`${verdict}: `.length);
}

const STATES = new Map([
  ["names", "of the changes that weren\u2019t synced yet, the disk keeps those of names, modes and shorter lengths, such as a renamed file, and loses those of contents"],
  ["contents", "of the changes that weren\u2019t synced yet, the disk keeps those of contents, and loses those of names, modes and shorter lengths, such as a renamed file"],
  ["live", "nothing is lost: all that the program did is there, as after a kill of the program alone"],
]);

/** What the power cut did to the changes that were pending. @param {Story} story */
function cutSentence({ state, pending }) {
  if (state === "live") return `Then ${STATES.get(state)}.`;
  if (pending.length === 0) return "Then the power went. Every change was synced, so nothing was lost by that.";
  if (STATES.has(state)) return `Then the power went: ${STATES.get(state)}.`;
  if (pending.every(({ kept }) => kept === "lost")) return "Then the power went: all changes that weren\u2019t synced yet are lost.";
  return "Then the power went: of the changes that weren\u2019t synced yet, the disk keeps some, and loses the others.";
}

// Draws the story of a failing run: what was pending, what lay there before and after, what was promised, and how the run is made again.

/** @typedef {import("./told.js").Story} Story */
/** @typedef {import("./told.js").Side} Side */

/** @param {string[]} heads @param {HTMLElement[]} rows @param {string} kind */
function drawTable(heads, rows, kind) {
  const head = element("thead", {}, element("tr", {}, ...heads.map((words) => element("th", {}, words))));
  return element("div", { class: "scroll" }, element("table", { class: kind }, head, element("tbody", {}, ...rows)));
}

/** @param {Story} story */
function drawPending(story) {
  if (story.pending.length === 0) return [element("p", {}, cutSentence(story))];
  const rows = story.pending.map(({ what, kept }) =>
    element("tr", { class: kept === "lost" ? "lost" : null }, element("td", {}, element("code", {}, what)), element("td", {}, kept)));
  return [element("p", {}, cutSentence(story)), drawTable(["change that wasn\u2019t synced yet", "on the disk"], rows, "pending")];
}

/** @param {Side} side @param {Side|null} other */
function sideNotes({ kind, mode, length, begin }, other) {
  const notes = kind === "file" ? [length === 0 ? "empty" : counted(length, "byte")] : [kind];
  if (begin > 0) notes.push(`shown from byte ${grouped(begin)} on`);
  if (other !== null && other.mode !== mode) notes.push(`mode ${mode}`);
  return notes.join(", ");
}

/** @param {Side|null} side @param {Side|null} other */
function drawSide(side, other) {
  if (side === null) return element("td", { class: "muted" }, "isn\u2019t there");
  const text = `${side.begin > 0 ? "\u2026" : ""}${side.text}${side.text !== "" && side.more > 0 ? "\u2026" : ""}`;
  return element("td", {}, text === "" ? null : element("code", {}, text), element("div", { class: "muted" }, sideNotes(side, other)));
}

/** @param {Story} story */
function drawFiles({ files }) {
  if (files === null) return [];
  const same = files.same > 0 ? `${counted(files.same, "other file is", "other files are")} as before the run.` : null;
  const more = files.more > 0 ? `${counted(files.more, "more name differs", "more names differ")}.` : null;
  const unjudged = files.unjudged > 0 ? `${counted(files.unjudged, "file differs", "files differ")} into which the judge doesn\u2019t look.` : null;
  const notes = [more, same, unjudged].filter((note) => note !== null).join(" ");
  if (files.differences.length === 0) {
    const none = files.same + files.unjudged === 0;
    return [element("p", {}, none ? "No file was there, before the run or after it." : "When the judge looked, each file was as before the run.")];
  }
  const rows = files.differences.map(({ name, before, after }) =>
    element("tr", {}, element("th", { scope: "row" }, element("code", {}, name)), drawSide(before, after), drawSide(after, before)));
  const table = drawTable(["file", "before the run", "after it, when the judge looked"], rows, "files");
  return [table, ...(notes === "" ? [] : [element("p", { class: "muted" }, notes)])];
}

/** @param {Story} story */
function drawPromised({ promised, promised_before: before }) {
  if (promised.length === 0) return [element("p", {}, "The program had promised nothing by then: it had printed no line.")];
  const more = before > 0 ? ` (${counted(before, "line")} before these)` : "";
  return [element("p", {}, `What the program had printed by then, and so had promised${more}:`), preformatted(promised.join("\n"))];
}

/** @param {Story} story */
function drawLines({ verdict, files, judge, program }) {
  const code = verdict.replace(/^fail /, "");
  if (files !== null) {
    const said = judge.length > 0 ? [preformatted(judge.join("\n"))] : [];
    return [element("p", {}, `The judge, which checks what is left, says: ${code}${judge.length > 0 ? ". Its last lines:" : "."}`), ...said];
  }
  return program.length > 0 ? [element("p", {}, "The last lines that the program wrote to standard error:"), preformatted(program.join("\n"))] : [];
}

/** @param {string} command */
function drawAgainCommand(command) {
  return element("p", { class: "again" }, "This run again: ", element("code", { class: "command" }, command));
}

/** @param {Story} story */
function drawStory(story) {
  const further = story.further.length > 0 ? [element("ul", {}, ...story.further.map((words) => element("li", {}, words)))] : [];
  const parts = [...(story.files === null ? [] : drawPending(story)), ...drawFiles(story), ...drawPromised(story), ...drawLines(story), ...further];
  if (/\(\.\)/.test(story.words)) parts.unshift(element("p", { class: "muted" }, "The file . is the data folder itself, in which the program runs."));
  return element("div", { class: "story" }, ...parts, drawAgainCommand(story.again));
}

// Draws the page: what came of a campaign, from its document.

/** @typedef {import("./document.js").Plan} Plan */

const SHOWN_PLANS = 50;
const SHOWN_CAUSES = 10;
const KEYS = "Arrow keys lead from plan to plan, Home and End along a line, Page Up and Page Down further; Enter tells more of a plan.";

/** @param {{verdict: string, code: string|null}} plan */
function verdictWords({ verdict, code }) {
  return code === null ? verdict : `${verdict} ${code}`;
}

/** @param {any} campaign @param {{verdict: string, code: string|null}} plan */
function verdictMark({ codes }, plan) {
  return element("span", { class: "verdict" }, markIcon(markOf(plan, codes)), verdictWords(plan));
}

/** @param {number} number */
function planLink(number) {
  return element("a", { href: `#plan-${number}` }, `plan ${number}`);
}

/** @param {string} text */
function scenarioCode(text) {
  return element("code", { class: "scenario" }, text === "" ? "none" : text);
}

// ---- the verdict

/** What the page is about. @param {any} campaign */
function titleOf({ told, appendix }) {
  return appendix?.told.title ?? told.label;
}

/** @param {any} campaign @returns {HTMLElement[]} */
function drawProgram({ told, appendix }) {
  if (!appendix) return [];
  const { title, program: { name, run, version } } = appendix.told;
  const command = run.length > 0 ? ["Run as ", element("code", {}, run[0]), run.length > 1 ? " \u2026 " : ". "] : [];
  return [element("p", { class: "muted" }, version === "" ? null : `Version: ${version}. `, ...command,
    title === told.label ? `Harness: ${name}.` : `Campaign: ${told.label}.`)];
}

/** The story of a scenario, or null. @param {any} campaign @param {string} scenario */
function storyOf({ appendix }, scenario) {
  return appendix?.storyOf(scenario) ?? null;
}

/**
 * What a plan or a scenario does: as the loop says it, or else by the names of the points.
 * @param {any} campaign
 * @param {number} number
 * @param {string} scenario
 */
function wordsOf(campaign, number, scenario) {
  const story = storyOf(campaign, scenario);
  return sentence(story ? wordsOfStory(story) : wordsOfNumbered(campaign, number, scenario));
}

/** @param {any} campaign */
function drawHeader(campaign) {
  const { told, appendix, problems } = campaign;
  const { sentences, whole } = wholeness(campaign);
  const { fail, unresolved } = told.counts;
  const ways = failuresByCode(campaign).map(([code, count]) =>
    element("li", {}, markIcon(markOf({ verdict: "fail", code }, campaign.codes)), `${code}: ${counted(count, "plan")}`));
  return element("header", {},
    element("p", { class: "kind" }, appendix ? `Paklour report, ${appendix.told.date}` : "Paklour report"),
    element("h1", {}, titleOf(campaign)),
    ...drawProgram(campaign),
    element("div", { class: `outcome ${fail > 0 ? "fails" : unresolved > 0 ? "ended" : "passes"}` },
      element("p", { class: "headline" }, headline(campaign)),
      ways.length > 0 ? element("ul", { class: "ways" }, ...ways) : null),
    element("p", {}, ["A plan is one run of the program, with its faults.", ...tried(campaign)].join(" ")),
    element("p", { class: whole ? "whole" : "open" }, sentences.join(" ")),
    appendix && appendix.told.sample !== "" ? element("p", { class: "open" }, appendix.told.sample) : null,
    element("p", { class: "muted" }, limits(campaign).join(" ")),
    problems.length > 0 ? element("p", {}, `What the loop adds to this page can\u2019t be read: ${problems.slice(0, 3).join("; ")}.`) : null);
}

/** Links to the sections that there are. @param {HTMLElement[]} sections */
function drawContents(sections) {
  const links = sections.map((one) => element("li", {}, element("a", { href: `#${one.id}` }, one.querySelector("h2").textContent)));
  return element("nav", { "aria-label": "Contents" }, element("ul", {}, ...links));
}

// ---- runs

/** @param {(point: string) => string} call @param {import("./run.js").Hit|null} hit */
function drawHit(call, hit) {
  if (hit === null) return element("div", { class: "hit muted" }, "\u2013");
  const answer = answerWords(hit.point, hit.kept ? "return" : hit.kept === false ? null : hit.answer, hit.about ?? "");
  const about = hit.about === undefined ? "" : ` (${fileWords(hit.point === KEEP ? hit.about.replace(UNDONE, "") : hit.about)})`;
  const name = element("span", {}, `${ordinal(hit.ordinal)} ${call(hit.point)}${about}`);
  return element("div", { class: hit.near ? "hit near" : "hit" }, name, ...(answer === null ? [] : [" ", element(isFault(hit.answer) ? "b" : "span", {}, answer)]));
}

/** @param {(point: string) => string} call @param {import("./run.js").Line} line @param {boolean} beside */
function drawLine(call, { here, there, same, fault }, beside) {
  const cells = (hit, isAlone) => [
    element("td", { class: "number" }, hit === null ? "" : String(hit.number)),
    element("td", { class: isAlone ? "alone" : null }, drawHit(call, hit)),
  ];
  const isAlone = (hit, other) => beside && hit !== null && hit.point !== other?.point;
  const kind = fault ? "fault-line" : same || !beside ? "same" : null;
  return element("tr", { class: kind }, ...cells(here, isAlone(here, there)), ...(beside ? cells(there, isAlone(there, here)) : []));
}

/** @param {(point: string) => string} call @param {{lines: any[]}} piece @param {boolean} beside */
function drawFold(call, { lines }, beside) {
  const button = element("button", { type: "button", class: "more" }, `${lines.length} hits${beside ? " that are the same in both" : " without a fault"}`);
  const row = element("tr", { class: "fold" }, element("td", { class: "number" }, "\u22ee"), element("td", { colspan: beside ? "3" : null }, button));
  button.addEventListener("click", () => row.replaceWith(...lines.map((line) => drawLine(call, line, beside))));
  return row;
}

/** What came of two runs, below their hits. @param {any} campaign @param {import("./run.js").Run} run @param {import("./run.js").Run|null} other */
function drawEnds(campaign, run, other) {
  const cells = ({ verdict }) => {
    const [word, code = null] = verdict.startsWith("fail ") ? ["fail", verdict.slice("fail ".length)] : [verdict];
    return [element("td"), element("td", {}, verdictMark(campaign, { verdict: word, code }))];
  };
  return element("tr", { class: "ends" }, ...cells(run), ...(other ? cells(other) : []));
}

/** @param {import("./run.js").Run} other */
function besideWords({ scenario }) {
  return `the run ${scenario === "" ? "without faults" : "without its last fault"}`;
}

/** @param {any} campaign @param {import("./run.js").Run} run @param {import("./run.js").Run|null} other */
function drawHits(campaign, run, other) {
  const { names, call, appendix } = campaign;
  const beside = other !== null;
  const lines = linesOf(run, other, names, appendix ? (scenario) => appendix.hitsOf(scenario) : undefined);
  const pieces = foldLines(beside ? lines : lines.map((line) => ({ ...line, same: true })));
  const rows = pieces.map((piece) => (piece.fold ? drawFold(call, piece, beside) : drawLine(call, piece.line, beside)));
  const head = (words) => [element("th", { class: "number" }, "hit"), element("th", {}, words)];
  const heads = element("thead", {}, element("tr", {}, ...head("this run"), ...(other ? head(besideWords(other)) : [])));
  const files = [...filesOfFaults(lines)];
  const notes = [
    files.length > 0 ? `In bold: hits of the same file as ${files.length === 1 ? "the fault\u2019s" : "a fault\u2019s"}, ${listed(files.map(fileWords))}.` : null,
    lines.some(({ here, there }) => here?.point === KEEP || there?.point === KEEP)
      ? "What is asked for at the power cut wasn\u2019t synced yet, so the disk may keep or lose it." : null,
    run.more > 0 ? `${counted(run.more, "further hit")} of this run ${run.more === 1 ? "isn\u2019t" : "aren\u2019t"} told.` : null,
    endWords(run),
  ];
  return [
    element("div", { class: "scroll" }, element("table", { class: beside ? "hits two" : "hits" }, heads, element("tbody", {}, ...rows, drawEnds(campaign, run, other)))),
    ...notes.filter((note) => note !== null).map((note) => element("p", { class: "muted" }, note)),
  ];
}

/** A run hit by hit, beside another one, read and drawn when it is opened. @param {any} campaign @param {{number: number, scenario: string}} plan @param {boolean} open */
function drawRun(campaign, { number, scenario }, open) {
  const { runs } = campaign;
  if (!runs.has(number, scenario)) return null;
  const made = element("details", { class: "run", open }, element("summary", {}, "The run, hit by hit"));
  const draw = () => {
    const run = runs.of(number, scenario);
    made.append(...drawHits(campaign, run, runs.beside(run)));
  };
  if (open) draw();
  else made.addEventListener("toggle", draw, { once: true });
  return made;
}

/** @param {{end: string|null}} run */
function endWords({ end }) {
  if (end === "limit") return "The run was ended there: it has as many steps as max_hits allows.";
  if (end === "pause") return "The run was ended there by a pause.";
  return end === "panic" ? "A panic ended the program in this run." : null;
}

// ---- first failures and causes

/** @param {any} campaign @param {any} finding @param {number} index */
function drawFinding(campaign, finding, index) {
  const story = storyOf(campaign, finding.reduced);
  const planned = finding.reduced === finding.scenario ? null
    : element("p", { class: "muted" }, `Reduced, in ${counted(finding.tests, "test")}, from `, scenarioCode(finding.scenario));
  return element("article", { id: `first-${finding.number}`, class: "finding" },
    element("h3", {}, verdictMark(campaign, { verdict: "fail", code: finding.code }), ", ", planLink(finding.number)),
    element("p", { class: "words" }, wordsOf(campaign, finding.number, finding.reduced)),
    element("p", {}, scenarioCode(finding.reduced)),
    planned,
    story ? drawStory(story) : null,
    drawRun(campaign, { number: finding.number, scenario: finding.reduced }, index === 0));
}

/** @param {any} campaign */
function drawFindings(campaign) {
  const { findings } = campaign.told;
  if (findings.length === 0) return null;
  const about = findings.length === 1 ? "The first plan that fails, reduced to faults of which none can be left out."
    : "The first plan that fails with each code, reduced to faults of which none can be left out.";
  return section(findings.length === 1 ? "First failure" : "First failures", "first", element("p", { class: "muted" }, about),
    ...findings.map((finding, index) => drawFinding(campaign, finding, index)));
}

/** @param {any} campaign @param {any} cause */
function drawCause(campaign, cause) {
  const mark = verdictMark(campaign, { verdict: "fail", code: cause.code });
  const story = storyOf(campaign, cause.scenario);
  return element("li", { id: `cause-${cause.number}` },
    element("p", {}, mark, ", ", planLink(cause.number), ": ", wordsOf(campaign, cause.number, cause.scenario)),
    scenarioCode(cause.scenario),
    story ? element("details", {}, element("summary", {}, "What was left"), drawStory(story)) : null,
    drawRun(campaign, cause, false));
}

/** @param {any} campaign @param {string[]} points */
function groupWords({ call }, points) {
  const calls = points.filter((point) => point !== KEEP).map(call);
  return listed([...calls, ...(points.includes(KEEP) ? ["what the power cut keeps"] : [])]) || "no fault";
}

/** @param {{depth: number, causes: any[]}} growth */
function causesWords({ depth, causes }) {
  const what = causes.length === 1 ? "One failing plan needs each of its faults: without any one of them it doesn\u2019t fail so."
    : `${grouped(causes.length)} failing plans need each of their faults: without any one of them they don\u2019t fail so.`;
  return `${what} Each plan with at most ${counted(depth, "fault")} that fails has the faults of one of these.`;
}

/** @param {any} campaign */
function drawCauses(campaign) {
  const { growth } = campaign.told;
  if (!growth || growth.causes.length === 0) return null;
  const groups = groupByCalls(growth.causes).map(({ points, items }) => {
    const entries = element("ol", { class: "causes" });
    const button = drawSome(items, SHOWN_CAUSES, entries, (cause) => drawCause(campaign, cause));
    return element("details", { class: "group", open: growth.causes.length <= SHOWN_CAUSES },
      element("summary", {}, `${groupWords(campaign, points)}: ${counted(items.length, "cause")}`), entries, button);
  });
  return section("Causes, by call", "causes",
    element("p", { class: "muted" }, causesWords(growth)),
    ...groups);
}

// ---- the map

/** @param {any} campaign @param {number} number */
function tellPlan(campaign, number) {
  const plan = campaign.plans[number];
  return `plan ${number}, ${verdictWords(plan)}: ${planWords(campaign, plan)}`;
}

/** @param {any} campaign */
function drawLegend(campaign) {
  const { told, codes } = campaign;
  const entry = (plan, words) => element("li", {}, markIcon(markOf(plan, codes)), words);
  const pass = entry({ verdict: "pass", code: null }, `pass (${grouped(told.counts.pass)})`);
  const open = told.counts.unresolved > 0 ? [entry({ verdict: "unresolved", code: null }, `ended without a verdict (${grouped(told.counts.unresolved)})`)] : [];
  const fails = failuresByCode(campaign).map(([code, count]) => entry({ verdict: "fail", code }, `fail ${code} (${grouped(count)})`));
  const first = told.findings.length > 0 ? [element("li", {}, element("span", { class: "swatch" }), "framed: the first that fails with its code")] : [];
  return element("ul", { class: "legend" }, pass, ...open, ...fails, ...first);
}

/** @param {any} campaign @param {(number: number) => void} chosen */
function drawMap(campaign, chosen) {
  const view = new MapView(campaign, { label: (row) => rowWords(row, campaign.call), tell: (number) => tellPlan(campaign, number), chosen });
  const sizes = choice("cell-size", "Marks", [["12", "small"], ["16", "middle"], ["20", "large"]]);
  sizes.select.value = String(view.cell);
  sizes.select.addEventListener("change", () => view.resize(Number(sizes.select.value)));
  const made = section("Map", "map",
    element("p", {}, mapWords(campaign)),
    drawLegend(campaign),
    element("p", { class: "controls" }, sizes.label),
    element("p", { id: "map-keys", hidden: true }, KEYS),
    view.box);
  return { made, view };
}

/** What the map shows. Only of plans that grew it is known which fault acts first. @param {any} campaign */
function mapWords({ told }) {
  const down = told.growth ? "acts first, in the order of the run without faults" : "its scenario names first";
  const onward = told.growth?.onward > 0 ? " In the last column the last fault goes on from then on." : "";
  return `Each mark is a plan. Down stands the fault that ${down}; across, how many faults it has.${onward} In a row the marks stand in the order of their `
    + "plans\u2019 numbers. A column closes and opens by its head.";
}

/** What is told of the plan that was chosen. @param {any} campaign @param {number} number */
function drawChosen(campaign, number) {
  const plan = campaign.plans[number];
  if (!plan) return [element("p", {}, `Plan ${number} isn\u2019t in this campaign.`)];
  const story = storyOf(campaign, plan.text);
  return [
    element("h3", {}, `Plan ${number} `, verdictMark(campaign, plan)),
    element("p", { class: "words" }, wordsOf(campaign, number, plan.text)),
    element("p", {}, scenarioCode(plan.text)),
    plan.parent === null ? null : element("p", {}, "It grew from ", planLink(plan.parent), "."),
    drawDescendants(campaign, number),
    story ? drawStory(story) : drawAgainCommand(campaign.appendix?.again(plan.text) ?? explainCommand(campaign.told.about, plan)),
    drawRun(campaign, { number, scenario: plan.text }, true),
  ].filter((child) => child !== null);
}

/** @param {any} campaign @param {number} number */
function drawDescendants(campaign, number) {
  const { plans, fail } = descendantsOf(campaign, number);
  if (plans === 0) return null;
  const failing = fail === 0 ? "none fails" : `${grouped(fail)} ${fail === 1 ? "fails" : "fail"}`;
  return element("p", {}, `${counted(plans, "plan")} grew from it; of these ${failing}.`);
}

// ---- points

/** How many of the plans that fail have a fault at each point. @param {any} campaign @returns {Map<string, number>} */
function failuresByPoint({ told }) {
  const counts = new Map();
  for (const { verdict, scenario } of told.not_passed) {
    if (verdict !== "fail") continue;
    for (const point of new Set((clausesOf(scenario) ?? []).map((clause) => clause.point))) counts.set(point, (counts.get(point) ?? 0) + 1);
  }
  return counts;
}

/** @param {any} campaign */
function drawPoints(campaign) {
  const { told } = campaign;
  const failures = failuresByPoint(campaign);
  const grown = told.growth !== null;
  const cell = (count) => element("td", { class: count === 0 ? "number muted" : "number" }, count === 0 ? "none" : grouped(count));
  const rows = campaign.points.map(({ point, clean, reached }) =>
    element("tr", {}, element("td", {}, element("code", {}, point)), cell(clean), grown ? cell(reached ?? 0) : null, cell(failures.get(point) ?? 0)));
  const heads = ["point", "hits without faults", ...(grown ? ["most hits of any run"] : []), "failing plans with a fault there"];
  return section("Points", "points",
    element("p", { class: "muted" }, grown ? "A point that no run hits got no fault." : "A point that the run without faults doesn\u2019t hit got no fault."),
    element("div", { class: "scroll" }, element("table", { class: "points" },
      element("thead", {}, element("tr", {}, ...heads.map((head, index) => element("th", { class: index > 0 ? "number" : null }, head)))),
      element("tbody", {}, ...rows))));
}

// ---- all plans

/**
 * A choice among values, each shown as a text. The value is told as it was given: attributes show characters that can't be seen by their numbers.
 * @param {string} id
 * @param {string} words
 * @param {[string, string][]} options
 */
function choice(id, words, options) {
  const select = element("select", { id }, ...options.map(([value, text]) => element("option", { value }, text)));
  return { select, label: element("label", { for: id }, `${words} `, select), value: () => options[select.selectedIndex][0] };
}

/** @param {any} campaign @returns {[string, string][]} */
function verdictChoices({ told, codes }) {
  const fails = codes.length > 1 ? codes.map((code) => [`fail ${code}`, `fail ${code}`]) : [];
  const unresolved = told.counts.unresolved > 0 ? [["unresolved", "unresolved"]] : [];
  return [["", "any"], ["fail", "fail"], ...fails, ...unresolved, ["pass", "pass"]];
}

/** @param {any} campaign @param {Plan} plan */
function drawPlan(campaign, plan) {
  return element("tr", {},
    element("td", { class: "number" }, element("a", { href: `#plan-${plan.number}` }, String(plan.number))),
    element("td", {}, verdictMark(campaign, plan)),
    element("td", {}, element("div", { class: "words" }, planWords(campaign, plan)), scenarioCode(plan.text)));
}

/** @param {any} campaign */
function drawPlans(campaign) {
  const { told, call } = campaign;
  const levels = campaign.parts.map((part) => [levelKeyOf({ part }), partWords(part)]);
  const verdict = choice("by-verdict", "Verdict", verdictChoices(campaign));
  const point = choice("by-point", "Fault at", [["", "any point"], ...campaign.names.map((name) => [name, call(name)])]);
  const level = choice("by-level", "With", [["", "any faults"], ...levels]);
  const text = element("input", { id: "by-text", type: "search", autocomplete: "off" });
  const status = element("p", { role: "status", class: "muted" });
  const body = element("tbody");
  const after = element("div");
  const show = () => {
    const wanted = { verdict: verdict.value(), point: point.value(), level: level.value(), text: text.value };
    const found = filterPlans(campaign, wanted);
    status.textContent = `${counted(found.length, "plan")} of ${grouped(campaign.plans.length)}`;
    body.replaceChildren();
    after.replaceChildren(drawSome(found, SHOWN_PLANS, body, (plan) => drawPlan(campaign, plan)));
  };
  for (const input of [verdict.select, point.select, level.select, text]) input.addEventListener("input", show);
  if (told.counts.fail > 0) verdict.select.value = "fail";
  show();
  const head = element("thead", {}, element("tr", {}, element("th", { class: "number" }, "plan"), element("th", {}, "verdict"), element("th", {}, "scenario")));
  return section("Plans", "plans",
    element("form", { class: "filters" }, verdict.label, point.label, level.label, element("label", { for: "by-text" }, "Number or text ", text)),
    status, element("div", { class: "scroll" }, element("table", { class: "plans" }, head, body)), after);
}

// ---- again

/** The program that was tested, and the command of the campaign. @param {any} appendix @returns {[string, string][]} */
function itemsOfLoop(appendix) {
  if (!appendix) return [];
  const { program, date, command } = appendix.told;
  const files = program.files.map(({ name, digest, changed }) => ["program\u2019s file", `${name}, SHA-256 ${digest}\u2026, changed ${changed}`]);
  const version = program.version === "" ? [] : [["program\u2019s version", program.version]];
  return [["program, run as", program.run.join("\n")], ...version, ...files, ["date", date], ["campaign by", command]];
}

/** @param {any} campaign */
function drawAgain({ told: { seed, about }, appendix }) {
  const items = [...itemsOfLoop(appendix), ["seed", seed], ["report by", `paklour ${about.program_version}`], ["command", about.command]];
  const lines = (value) => value.split("\n").map((line) => element("div", {}, element("code", {}, line)));
  const rows = items.map(([name, value]) => element("tr", {}, element("th", { scope: "row" }, name), element("td", {}, ...lines(value))));
  return section("Make it again", "again",
    element("table", {}, element("tbody", {}, ...rows)),
    element("p", { class: "muted" }, "Settings, as they stand in FILE:"),
    preformatted(about.settings));
}

// ---- the page

/** @param {any} campaign */
function drawPage(campaign) {
  const chosen = element("div", { id: "chosen", class: "chosen", tabindex: "-1", "aria-live": "polite" });
  const choose = (number) => {
    chosen.replaceChildren(...drawChosen(campaign, number));
    if (location.hash !== `#plan-${number}`) history.replaceState(null, "", `#plan-${number}`);
  };
  const { made, view } = drawMap(campaign, choose);
  made.append(chosen);
  const parts = [drawFindings(campaign), drawCauses(campaign), made, drawPoints(campaign), drawPlans(campaign), drawAgain(campaign)];
  const sections = parts.filter((part) => part !== null);
  document.getElementById("page").replaceChildren(drawHeader(campaign), drawContents(sections), ...sections);
  view.fit(view.box.clientWidth);
  followHash(view, choose, chosen);
}

/**
 * A link to a plan leads to the map, and to what is told of the plan.
 * @param {MapView} view
 * @param {(number: number) => void} choose
 * @param {HTMLElement} chosen
 */
function followHash(view, choose, chosen) {
  const follow = () => {
    const match = /^#plan-(\d+)$/.exec(location.hash);
    if (!match) return;
    const number = Number(match[1]);
    view.select(number < view.campaign.plans.length ? number : null);
    choose(number);
    chosen.scrollIntoView({ block: "center" });
  };
  addEventListener("hashchange", follow);
  document.getElementById("page").addEventListener("click", (event) => {
    const link = /** @type {Element} */ (event.target).closest("a");
    if (link && link.getAttribute("href") === location.hash) follow();
  });
  follow();
}

/** @param {unknown} error */
function drawError(error) {
  const problems = error instanceof ReadError ? error.problems : [String(error)];
  document.getElementById("page").replaceChildren(
    element("h1", {}, "This report can\u2019t be shown"),
    element("ul", {}, ...problems.slice(0, 5).map((problem) => element("li", {}, problem))),
    element("p", {}, "Its text stands below."));
}

/** What the loop has added, or null. If it can't be read, the report is shown without it. */
function appendixInPage() {
  const added = document.getElementById("told-by-the-loop");
  try {
    return { appendix: added && readAppendix(added.textContent), problems: [] };
  } catch (error) {
    if (!(error instanceof ReadError)) throw error;
    return { appendix: null, problems: error.problems };
  }
}

/** Shows the report that stands in this page. The text that is there without a script is folded then. */
function start() {
  try {
    const campaign = { ...campaignOf(readDocument(document.getElementById("document").textContent)), ...appendixInPage() };
    drawPage(campaign);
    requestIdleCallback(() => loweredTexts(campaign));
    document.title = shown([titleOf(campaign), ...(campaign.appendix ? [campaign.appendix.told.date] : []), "Paklour"].join(" \u2013 "));
    document.getElementById("brief").open = false;
  } catch (error) {
    drawError(error);
  }
}

// What the page does when it is opened.

start();
})();
</script>
</body>
</html>
"###;
