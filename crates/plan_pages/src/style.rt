//! What is the same on every page. Nothing is fetched: the page forbids it, and of scripts it allows the one below by its sum (SHA-256).

/// How a page begins.
pub const HEAD: &str = "<!DOCTYPE html>
<html lang=\"en\">
<head><meta charset=\"utf-8\"><meta name=\"viewport\" content=\"width=device-width, initial-scale=1\">
<meta http-equiv=\"Content-Security-Policy\" content=\"default-src 'none'; img-src data:; style-src 'unsafe-inline'; script-src 'sha256-Nx4vxVRz2fvljfe1O1p/skPAYGELbhlChq9joVUJoWQ='\">
<title>Plans</title>
";

/// The field that finds words, and the switches of units.
pub const TOOLS: &str =
    "<input id=\"find\" type=\"search\" placeholder=\"find\" aria-label=\"find\"><fieldset aria-label=\"rates\"><label><input type=\"radio\" name=\"rates\" id=\"seconds\" checked>per second</label><label><input type=\"radio\" name=\"rates\" id=\"minutes\">per minute</label></fieldset><fieldset aria-label=\"power\"><label><input type=\"radio\" name=\"power\" id=\"best\" checked>W to GW</label><label><input type=\"radio\" name=\"power\" id=\"kilo\">kW</label><label><input type=\"radio\" name=\"power\" id=\"mega\">MW</label></fieldset></header>
";

/// Colours for light and for dark, tables that become lists where it is narrow, and how it is printed.
pub const STYLE: &str =
    ":root{color-scheme:light dark;--back:#faf9f7;--card:#fff;--ink:#1d1c1a;--soft:#66625b;--line:#dedbd4;--mark:#f1eee8;--glow:#ffe9b3;--bad:#b3261e;--link:#1b5e86;--item:#3f5f80;--fluid:#1a6d97;--special:#865c00;--tech:#6f45a8;--recipe:#2f6b3d;--source:#76592c;--machine:#55524c}
@media(prefers-color-scheme:dark){:root{--back:#15161a;--card:#1e2025;--ink:#e9e6e0;--soft:#a5a19a;--line:#373a41;--mark:#282b31;--glow:#4a3d16;--bad:#ff8a80;--link:#7cc4ee;--item:#a3bdd8;--fluid:#64bfe8;--special:#e6b450;--tech:#c3a3f0;--recipe:#8ccb9c;--source:#d1ae78;--machine:#b9b5ae}}
*{box-sizing:border-box}
html{scroll-padding-top:5rem}
body{margin:0 auto;padding:0 1.25rem 4rem;max-width:100rem;background:var(--back);color:var(--ink);font:15px/1.5 system-ui,sans-serif;font-variant-numeric:tabular-nums;overflow-wrap:anywhere}
header{display:flex;flex-wrap:wrap;gap:.4rem 1.2rem;align-items:center;padding:.7rem 0;position:sticky;top:0;background:var(--back);border-bottom:1px solid var(--line);z-index:2}
h1{font-size:1.2rem;letter-spacing:-.01em;margin:0}
h2{display:inline;font-size:1.15rem;letter-spacing:-.01em}
h3{margin:1.6rem 0 .4rem;font-size:.8rem;font-weight:600;letter-spacing:.06em;text-transform:uppercase;color:var(--soft)}
header p{margin:0;color:var(--soft)}
header input[type=search]{font:inherit;flex:1;min-width:8rem;max-width:22rem;padding:.25rem .6rem;border:1px solid var(--line);border-radius:6px;background:var(--card);color:inherit}
fieldset{display:flex;gap:0;margin:0;padding:0;border:1px solid var(--line);border-radius:6px;overflow:hidden}
fieldset label{position:relative;padding:.2rem .6rem;font-size:.85rem;color:var(--soft);cursor:pointer}
fieldset label+label{border-left:1px solid var(--line)}
fieldset input{position:absolute;opacity:0;inset:0;margin:0;cursor:pointer}
fieldset label:has(:checked){background:var(--ink);color:var(--back)}
fieldset label:has(:focus-visible){outline:2px solid var(--link);outline-offset:-2px}
body:not(:has(#minutes:checked)) .m,body:has(#minutes:checked) .s,body:not(:has(#kilo:checked)) .k,body:not(:has(#mega:checked)) .w,body:has(#kilo:checked) .p,body:has(#mega:checked) .p{display:none}
nav{display:flex;flex-wrap:wrap;gap:.3rem .9rem;padding:.6rem 0}
a{color:var(--link);text-decoration-color:color-mix(in srgb,currentColor 35%,transparent);text-underline-offset:.15em}
summary{cursor:pointer}
.plan,.part{margin:1.1rem 0;padding:.9rem 1.2rem 1.2rem;background:var(--card);border:1px solid var(--line);border-radius:10px}
.plan>summary span,.part>summary span{margin-left:.6rem}
small,i{color:var(--soft);font-size:.85em;font-style:normal}
.bad{color:var(--bad)}
.wide{overflow-x:auto}
table{border-collapse:separate;border-spacing:0;font-size:.9rem}
.rows{width:100%}
th,td{padding:.35rem .8rem;border-bottom:1px solid var(--line);text-align:right;vertical-align:top}
th:first-child,td[data-l=does],td[data-l=by],.rows th:nth-child(2),.rows th:nth-child(3){text-align:left}
th{font-weight:600}
thead th{color:var(--soft);font-weight:500;vertical-align:bottom;white-space:nowrap}
thead button{all:unset;cursor:pointer}
thead button:hover{color:var(--ink)}
thead button:focus-visible{outline:2px solid var(--link);outline-offset:2px}
[aria-sort=ascending] button::after{content:\" ↑\"}
[aria-sort=descending] button::after{content:\" ↓\"}
tbody tr:hover{background:var(--mark)}
tr:target,tr:target:hover{background:var(--glow)}
tfoot th,tfoot td{font-weight:600;border-bottom:0}
.idle{color:var(--soft)}
td[data-v=\"0\"]{color:var(--soft)}
td ul{list-style:none;margin:.15rem 0 0;padding:0;font-size:.88em}
td ul ul{margin:0 0 0 1.2em}
td ul:empty{display:none}
td small{display:block}
li small{display:inline}
.f{display:inline-block;text-align:inherit;max-width:100%}
.f>summary{list-style:none;text-decoration:underline dotted color-mix(in srgb,currentColor 45%,transparent);text-underline-offset:.25em}
.f>summary::-webkit-details-marker{display:none}
.f>i{display:block;max-width:16em;font-size:.8em}
.i{display:none;width:1.35em;height:1.35em;margin-right:.35em;vertical-align:-.3em}
.icons .i{display:inline-block}
.hold{position:absolute;width:0;height:0;overflow:hidden}
.item{color:var(--item)}.fluid{color:var(--fluid)}.special{color:var(--special)}.tech{color:var(--tech)}.recipe{color:var(--recipe)}.source{color:var(--source)}.machine{color:var(--machine)}
.part p,.part details{margin:.3rem 0}
.part p span,.part summary b{margin:0 .5rem}
code{background:var(--mark);padding:.08rem .35rem;border-radius:4px;font-size:.88em}
pre{white-space:pre-wrap;font-size:.82em}
.chart{overflow:auto;max-height:80vh;margin-top:.6rem;border:1px solid var(--line);border-radius:8px;background:var(--back)}
.chart:focus-visible{outline:2px solid var(--link)}
.chart.held{cursor:grabbing;user-select:none}
.flow{display:block}
.tools{display:flex;gap:.3rem;margin-top:.8rem}
.tools button{font:inherit;font-size:.85rem;min-width:2.2rem;padding:.15rem .6rem;border:1px solid var(--line);border-radius:6px;background:var(--card);color:inherit;cursor:pointer}
.tools button:hover{background:var(--mark)}
.flow text{font:11.5px system-ui,sans-serif;fill:var(--ink);font-variant-numeric:tabular-nums}
.flow .name{font-weight:600;font-size:13px}
.flow .what{fill:var(--soft)}
.flow .right,.flow .end{text-anchor:end}
.icons .flow .left{transform:translateX(18px)}
.icons .flow .right{transform:translateX(-18px)}
.flow .i{width:15px;height:15px}
.flow rect{fill:var(--card);stroke:var(--line);stroke-width:1.5}
.flow .import rect,.flow .surplus rect{stroke-dasharray:5 3}
.flow .want rect{stroke:var(--ink)}
.flow a{text-decoration:none}
.flow a:hover rect{stroke:var(--link)}
.flow a:focus-visible{outline:2px solid var(--link)}
.flow .card:target rect{fill:var(--glow);stroke:var(--special);stroke-width:2.5}
.flow path{fill:none;stroke-width:1.6;opacity:.6}
.flow g.line:hover path{stroke-width:3.5;opacity:1}
.flow .item path{stroke:var(--item)}.flow .fluid path{stroke:var(--fluid)}.flow .special path{stroke:var(--special);stroke-dasharray:2 4}.flow .tech path{stroke:var(--tech)}
.flow text.item{fill:var(--item)}.flow text.fluid{fill:var(--fluid)}.flow text.special{fill:var(--special)}.flow text.tech{fill:var(--tech)}
.flow .item circle{fill:var(--item)}.flow .fluid circle{fill:var(--fluid)}.flow .special circle{fill:var(--special)}.flow .tech circle{fill:var(--tech)}
[hidden]{display:none!important}
@media screen and (max-width:68rem){
.rows,.rows thead,.rows tbody,.rows tfoot,.rows tr{display:block}
.rows thead tr{display:flex;flex-wrap:wrap}
.rows thead th{border:0;padding:.2rem .8rem .2rem 0}
.rows tbody tr,.rows tfoot tr{display:grid;grid-template-columns:repeat(auto-fill,minmax(7rem,1fr));gap:.35rem .8rem;padding:.7rem 0;border-bottom:1px solid var(--line)}
.rows tbody th,.rows tbody td,.rows tfoot th,.rows tfoot td{padding:0;border:0;text-align:left}
.rows tbody th,.rows tfoot th,.rows td[data-l=does],.rows td[data-l=by]{grid-column:1/-1}
.rows td[data-v]::before{content:attr(data-l);display:block;color:var(--soft);font-size:.75rem;font-weight:400}
.rows .e{display:none}
}
@media screen and (max-width:46rem){
body{padding:0 .6rem 3rem;font-size:14px}
header{position:static}
html{scroll-padding-top:1rem}
.plan,.part{padding:.6rem .7rem .9rem}
.goods,.goods thead,.goods tbody,.goods tr{display:block}
.goods thead tr{display:flex;flex-wrap:wrap}
.goods thead th{border:0;padding:.2rem .8rem .2rem 0}
.goods tbody tr{display:grid;grid-template-columns:repeat(auto-fill,minmax(7rem,1fr));gap:.35rem .8rem;padding:.6rem 0;border-bottom:1px solid var(--line)}
.goods tbody th,.goods tbody td{padding:0;border:0;text-align:left}
.goods tbody th{grid-column:1/-1}
.goods td[data-v]::before{content:attr(data-l);display:block;color:var(--soft);font-size:.75rem}
.goods td:empty{display:none}
th,td{padding:.3rem .5rem}
}
@media print{
@page{margin:12mm}
:root{--back:#fff;--card:#fff;--ink:#000;--soft:#444;--line:#bbb;--mark:#eee;--glow:#fff;--item:#234;--fluid:#145;--special:#640;--tech:#426;--recipe:#243;--source:#542;--machine:#333;--link:#000}
body{padding:0;max-width:none;font-size:9pt}
header{position:static;padding:0 0 .3rem}
header input,header fieldset,nav,.tools,.f>i{display:none}
a{text-decoration:none}
.plan,.part{border:0;padding:0;margin:0 0 1rem}
.plan+.plan{break-before:page}
.chart{overflow:visible;max-height:none;border:0}
.flow{width:100%;height:auto;max-height:17cm}
.wide{overflow:visible}
table{font-size:7.5pt;width:100%}
th,td{padding:.12rem .25rem}
thead th{white-space:normal}
thead{display:table-header-group}
tr,li{break-inside:avoid}
h3{break-after:avoid}
.f>summary{text-decoration:none}
}
";

/// The search, the order of tables, and charts that zoom and are drawn along. It holds no name.
pub const SCRIPT: &str = "
const find = document.getElementById('find');
const opened = new Set();
find.addEventListener('input', () => {
  const word = find.value.trim().toLowerCase();
  const has = (part) => part.textContent.toLowerCase().includes(word);
  const isHeaded = (entry) => {
    for (let fold = entry.closest('details'); fold; fold = fold.parentElement.closest('details')) {
      if (has(fold.firstElementChild)) return true;
    }
    return false;
  };
  for (const entry of document.querySelectorAll('[data-f]')) {
    entry.hidden = !has(entry) && !isHeaded(entry);
  }
  for (const fold of document.querySelectorAll('details:not(.f)')) {
    if (word !== '' && !fold.open && fold.querySelector('[data-f]:not([hidden])')) {
      fold.open = true;
      opened.add(fold);
    }
  }
  for (const plan of document.querySelectorAll('.plan')) {
    plan.hidden = !plan.querySelector('[data-f]:not([hidden])');
  }
  if (word === '') {
    for (const fold of opened) fold.open = false;
    opened.clear();
  }
});

const isNumber = (key) => /^-?[0-9]+([/][0-9]+)?$/.test(key);
const compared = (a, b) => {
  if (isNumber(a) !== isNumber(b)) return isNumber(a) ? -1 : 1;
  if (!isNumber(a)) return a.localeCompare(b, 'en', {numeric: true});
  const [m, n = '1'] = a.split('/');
  const [p, q = '1'] = b.split('/');
  const left = BigInt(m) * BigInt(q);
  const right = BigInt(p) * BigInt(n);
  return left < right ? -1 : left > right ? 1 : 0;
};
const keyAt = (row, at) => row.cells[at].dataset.v ?? row.cells[at].textContent;
for (const head of document.querySelectorAll('thead th')) {
  const button = document.createElement('button');
  button.type = 'button';
  button.append(...head.childNodes);
  head.append(button);
  button.addEventListener('click', () => {
    const body = head.closest('table').tBodies[0];
    const at = head.cellIndex;
    const isRising = head.getAttribute('aria-sort') !== 'ascending';
    for (const other of head.parentElement.cells) other.removeAttribute('aria-sort');
    head.setAttribute('aria-sort', isRising ? 'ascending' : 'descending');
    const rows = [...body.rows].sort((a, b) => (isRising ? 1 : -1) * compared(keyAt(a, at), keyAt(b, at)));
    body.append(...rows);
  });
}

for (const box of document.querySelectorAll('.chart')) {
  const drawing = box.querySelector('svg');
  const width = Number(drawing.getAttribute('width'));
  const height = Number(drawing.getAttribute('height'));
  let scale = 1;
  const zoom = (wanted, x = box.clientWidth / 2, y = box.clientHeight / 2) => {
    const next = Math.min(4, Math.max(0.1, wanted));
    const left = (box.scrollLeft + x) / scale;
    const top = (box.scrollTop + y) / scale;
    scale = next;
    drawing.setAttribute('width', width * scale);
    drawing.setAttribute('height', height * scale);
    box.scrollLeft = left * scale - x;
    box.scrollTop = top * scale - y;
  };
  const fit = () => zoom(Math.min(box.clientWidth / width, (0.8 * innerHeight - 20) / height, 1.5), 0, 0);
  const tools = document.createElement('div');
  tools.className = 'tools';
  for (const [name, label, act] of [['+', 'zoom in', () => zoom(scale * 1.25)], ['−', 'zoom out', () => zoom(scale / 1.25)],
    ['fit', 'show the whole chart', fit], ['1:1', 'full size', () => zoom(1)]]) {
    const button = document.createElement('button');
    button.type = 'button';
    button.textContent = name;
    button.title = label;
    button.setAttribute('aria-label', label);
    button.addEventListener('click', act);
    tools.append(button);
  }
  box.before(tools);
  box.addEventListener('wheel', (event) => {
    if (!event.ctrlKey && !event.metaKey) return;
    event.preventDefault();
    const at = box.getBoundingClientRect();
    zoom(scale * Math.exp(-event.deltaY / 400), event.clientX - at.left, event.clientY - at.top);
  }, {passive: false});
  box.addEventListener('keydown', (event) => {
    const act = {'+': () => zoom(scale * 1.25), '=': () => zoom(scale * 1.25), '-': () => zoom(scale / 1.25), '0': fit, '1': () => zoom(1)}[event.key];
    if (!act || event.ctrlKey || event.metaKey || event.altKey) return;
    event.preventDefault();
    act();
  });
  let held = null;
  let moved = false;
  box.addEventListener('pointerdown', (event) => {
    moved = false;
    if (event.pointerType === 'mouse' && event.button === 0) held = {x: event.clientX + box.scrollLeft, y: event.clientY + box.scrollTop, from: event};
  });
  addEventListener('pointermove', (event) => {
    if (!held) return;
    if (Math.abs(event.clientX - held.from.clientX) + Math.abs(event.clientY - held.from.clientY) > 4) {
      moved = true;
      box.classList.add('held');
    }
    if (!moved) return;
    box.scrollLeft = held.x - event.clientX;
    box.scrollTop = held.y - event.clientY;
  });
  addEventListener('pointerup', () => {
    held = null;
    box.classList.remove('held');
  });
  box.addEventListener('dragstart', (event) => event.preventDefault());
  box.addEventListener('click', (event) => {
    if (moved) event.preventDefault();
  }, true);
  const begin = () => zoom(Math.min(1, Math.max(0.55, box.clientWidth / width)), 0, 0);
  if (box.clientWidth > 0) begin();
}

const show = () => {
  const target = document.getElementById(decodeURIComponent(location.hash.slice(1)));
  if (target && target.closest('svg')) target.scrollIntoView({block: 'center', inline: 'center'});
};
addEventListener('hashchange', show);
show();
";
