// Made by tools/embed_page from the files of page/: change these, and run the tool again.

/// The page's client.
pub(crate) fn text() -> &'static str {
    r##"(() => {
'use strict';

const origin = globalThis.location?.origin ?? 'http://localhost';

const hex = (byte) => byte.charCodeAt(0).toString(16).toUpperCase().padStart(2, '0');
const unhex = (_, digits) => String.fromCharCode(parseInt(digits, 16));

function isOfServer(url) {
return String(url).startsWith(`${origin}/`);
}

function nameOf(url) {
const { pathname } = new URL(url, `${origin}/`);
const bytes = pathname.replace(/%([\dA-F]{2})/gi, unhex);
const path = bytes.endsWith('/') ? `${bytes}index.html` : bytes;
return path.replace(/\.(?=-)|[^\w.\/-]/g, (byte) => `.-${hex(byte)}`);
}

function plainUrl(name) {
const bytes = name.replace(/\.-([\dA-F]{2})/gi, unhex);
return bytes.replace(/[\0-\x20\x7F-\xFF"#%<>?\\^`{}]/g, (byte) => `%${hex(byte)}`);
}

function shown(name) {
const url = plainUrl(name);
try {
return decodeURIComponent(url);
} catch {
return url;
}
}

function urlOf(plan, name) {
return plan === '' ? plainUrl(name) : `${plainUrl(name)}?hmr=${plan}`;
}

function planOf(url) {
const found = /^[^?#]*(?:\?hmr=(\d+\.\d+))?$/.exec(url);
return found === null ? undefined : found[1] ?? '';
}

function isScript(name) {
return /\.m?js$/.test(name);
}

function resolve(importer, specifier) {
return nameOf(new URL(specifier, absolute(plainUrl(importer))));
}

function absolute(url) {
return new URL(url, `${origin}/`).href;
}

const STYLE = `
:host { all: initial }
#badge { position: fixed; right: 12px; bottom: 12px; z-index: 2147483646; font: 12px system-ui; padding: 4px 10px;
border: 0; border-radius: 12px; color: #fff; background: #287d4f; cursor: pointer }
#badge.stale { background: #b35900 } #badge.fault { background: #b3261e } #badge.away { background: #666 }
#list { position: fixed; right: 12px; bottom: 44px; z-index: 2147483646; margin: 0; padding: 10px 14px; list-style: none;
font: 12px/1.5 system-ui; color: #eee; background: #222; border-radius: 8px; max-width: 60vw; max-height: 60vh; overflow: auto }
#overlay { position: fixed; inset: 6vh 5vw auto; z-index: 2147483645; max-height: 80vh; overflow: auto; padding: 8px 20px;
font: 14px/1.5 system-ui; color: #fee; background: #2a0d0b; border: 2px solid #b3261e; border-radius: 8px }
[hidden] { display: none } #overlay > div { margin: 12px 0 } b { color: #ffb4ab } small { color: #ccc }
pre { margin: 4px 0; white-space: pre-wrap; font: 14px/1.4 ui-monospace, monospace }
`;

let host = null;

function part(id) {
if (host === null || !host.isConnected) build();
return host.shadowRoot.getElementById(id);
}

function element(tag, text) {
return Object.assign(document.createElement(tag), { textContent: text });
}

function build() {
host = document.createElement('hmr-page');
const root = host.attachShadow({ mode: 'open' });
const sheet = new CSSStyleSheet();
sheet.replaceSync(STYLE);
root.adoptedStyleSheets = [sheet];
for (const [tag, id] of [['div', 'overlay'], ['ul', 'list'], ['button', 'badge']]) {
root.append(Object.assign(document.createElement(tag), { id, hidden: id !== 'badge' }));
}
document.documentElement.append(host);
part('badge').onclick = () => part('list').toggleAttribute('hidden');
part('overlay').onclick = hideOverlay;
addEventListener('keydown', ({ key }) => { if (key === 'Escape') hideOverlay(); });
}

function hideOverlay() {
part('overlay').hidden = true;
}

function staleEdges(page) {
const found = [];
for (const { name, module, links } of page.live.values()) {
if (module.kind !== 'js') continue;
links.forEach((held, to) => {
const now = page.live.get(to);
if (held === undefined || held === now) return;
for (const what of bound(module, to)) found.push({ name, what, to, held, now });
});
}
return found;
}

function bound({ imports, stars }, to) {
const names = imports.filter((each) => each.to === to && !each.dynamic).flatMap((each) => each.names);
return new Set(stars.includes(to) ? [...names, '*'] : names);
}

function staleWords({ name, what, to, held, now }) {
const which = what === '*' ? shown(to) : `${what} of ${shown(to)}`;
return `${shown(name)} still has ${which} v${held.module.version} (now ${after(held, now)})`;
}

function after(held, now) {
if (now === undefined) return 'gone';
const { version } = now.module;
return version === held.module.version ? `v${version} anew` : `v${version}`;
}

function stopWords({ name, to, held }) {
const paths = held.accepts.filter(({ acceptedPath }) => acceptedPath === to).map(({ path }) => path);
if (paths.includes(name)) return `accepted by ${shown(name)}`;
return paths.includes(to) ? `${shown(to)} accepts itself` : '';
}

function showBadge(page) {
const { stale } = page;
const badge = part('badge');
const unfollowed = [...page.unfollowed].map((name) => element('li', `${shown(name)} isn't followed`));
const rows = [...stale.map(asRow), ...unfollowed];
[badge.className, badge.textContent] = face(page, stale.length);
badge.hidden = badge.className === 'good' && rows.length === 0;
part('list').replaceChildren(...rows, element('li', doings(page)));
if (badge.hidden) part('list').hidden = true;
}

function face(page, stale) {
if (page.isAway) return ['away', 'hmr: no server'];
if (page.faults.size > 0) return ['fault', 'hmr: fault'];
return stale > 0 ? ['stale', `${stale} stale`] : ['good', 'hmr'];
}

function asRow(edge) {
const row = element('li', staleWords(edge));
row.append(element('small', ` ${stopWords(edge)}`));
return row;
}

function doings({ last, number, live }) {
const where = `page ${number}, ${live.size} modules`;
if (last === null || last.kind === 'load') return where;
return `${where}; the last update: ${last.triggeredBy.map(shown).join(', ')}`;
}

let last = '';

function showFaults({ faults }) {
const all = [...faults.values()];
const told = all.map(({ name, line, column, message, stays }) => [name, line, column, message, stays].join()).join();
if (told === last) return;
last = told;
const overlay = part('overlay');
overlay.hidden = all.length === 0;
overlay.replaceChildren(...all.map(asElement));
}

function asElement({ name, line, column, message, stays = '' }) {
const box = document.createElement('div');
const isHere = name?.startsWith('/');
const place = [isHere ? shown(name) : name, line, column].filter((each) => each !== undefined);
const text = element('pre', '');
box.append(element('b', place.join(':')), element('pre', message), text, element('small', stays));
if (isHere && line !== undefined) showLine(text, name, line, column);
return box;
}

async function showLine(place, name, line, column) {
const answer = await fetch(`/@hmr/file${plainUrl(name)}`).catch(() => null);
if (answer === null || !answer.ok) return;
const found = (await answer.text()).split('\n')[line - 1];
if (found === undefined || found.length > 500) return;
const blanks = found.slice(0, (column ?? 1) - 1).replace(/[^\t]/g, ' ');
place.textContent = column === undefined ? found : `${found}\n${blanks}^`;
}

function restyle(name, url) {
for (const link of document.querySelectorAll('link[rel~=stylesheet][href]')) {
if (!isOfServer(link.href) || nameOf(link.href) !== name || link.isReplaced) continue;
const next = Object.assign(link.cloneNode(), { href: url });
link.isReplaced = true;
next.onload = next.onerror = () => link.remove();
link.after(next);
}
}

const LINKED = { toString: () => 'hmr: everything is linked' };

class Browser {
constructor(isQuiet) {
this.isQuiet = isQuiet;
this.counts = {};
this.turns = [];
this.times = [];
this.locating = null;
addEventListener('error', (event) => this.locating?.(event), true);
}

note(request, answer) {
const kind = request.type === 'ask' ? answer.type : request.type;
this.counts[kind] = (this.counts[kind] ?? 0) + 1;
if (answer.type === 'update') this.begun = performance.now();
if (kind === 'applied') this.times.push(performance.now() - this.begun);
if (kind !== 'idle') this.turns = [...this.turns.slice(-99), [request, answer]];
}

show(page) {
if (this.isQuiet || document.body === null) return;
showBadge(page);
showFaults(page);
}

report(error) {
reportError(error);
}

pause(milliseconds) {
return new Promise((done) => { setTimeout(done, milliseconds); });
}

async importModule(url, options) {
if (options === undefined) return import(url);
return new Function('url', 'options', 'return import(url, options)')(url, options);
}

tellPlan(plan) {
return this.post('/@hmr/plan', plan);
}

async reportsOf(made) {
return (await this.post('/@hmr/about', { made })).json();
}

async post(path, value) {
const answer = await fetch(path, { method: 'POST', body: JSON.stringify(value) });
if (!answer.ok) throw new Error(`${path}: ${answer.status} ${await answer.text()}`);
return answer;
}

wake(page) {
if (page.isAsking) fetch('/@hmr/wake', { method: 'POST' }).catch(() => {});
}

async link(address) {
const error = await import(address).then(() => null, (thrown) => thrown);
return error === LINKED ? null : { error, ...await this.locate(address) };
}

locate(address) {
return new Promise((done) => {
let found = {};
this.locating = (event) => {
if (event.target !== window || !(event.error instanceof SyntaxError)) return;
event.preventDefault();
event.stopImmediatePropagation();
const { filename, lineno: line, colno: column, message } = event;
const name = isOfServer(filename) ? nameOf(filename) : filename;
found = { name, line, column, message: message.replace(/^Uncaught /, '') };
};
const script = Object.assign(document.createElement('script'), { type: 'module', src: address });
script.onload = script.onerror = () => {
this.locating = null;
script.remove();
done(found);
};
document.head.append(script);
});
}

restyle(name, url) {
restyle(name, url);
}
}

function placeOf(error) {
const [, url, line, column] = /(https?:\/\/[^\s()]+?):(\d+):(\d+)/.exec(error?.stack ?? '') ?? [];
const message = String(error);
if (url === undefined || !isOfServer(url)) return { message };
return { message, url, name: nameOf(url), line: Number(line), column: Number(column) };
}

const IMPORT = /^import "([^"]*)";$/gm;
const MOST_TRIES = 40;

function readModule(name, version, text) {
const targets = [...text.matchAll(IMPORT)].map(([, to]) => to);
const imports = targets.map((to) => ({ to, names: [] }));
const unknown = { kind: kindOf(name), imports, exports: [], stars: [], through: [], isKnown: false };
return { name, version, targets, ...unknown };
}

function kindOf(name) {
const [, ending] = /\.(\w+)$/.exec(name) ?? [];
return { css: 'css', json: 'json', html: 'html', htm: 'html' }[ending] ?? 'js';
}

async function learn(page, modules) {
let unknown = modules.filter(({ isKnown }) => !isKnown);
for (let tries = 0; unknown.length > 0 && tries < MOST_TRIES; tries += 1) {
if (tries > 0) await page.browser.pause(50);
const reports = await page.browser.reportsOf(versionsOf(unknown));
for (const module of unknown) {
const report = reports[module.name];
if (report) Object.assign(module, report, { isKnown: true });
}
unknown = unknown.filter(({ isKnown }) => !isKnown);
}
}

function versionsOf(modules) {
return Object.fromEntries(modules.map(({ name, version }) => [name, version]));
}

const noHandlers = () => ({ own: [], onDependencies: [], disposer: null, pruner: null, listeners: [] });

class Instance {
constructor(name, plan) {
this.name = name;
this.plan = plan;
this.url = urlOf(plan, name);
this.module = null;
this.number = 0;
this.links = new Map();
this.state = 'made';
this.error = null;
this.namespace = undefined;
this.hasBegun = false;
this.isOver = false;
this.accepts = [];
Object.assign(this, noHandlers());
}

end() {
this.isOver = true;
Object.assign(this, noHandlers());
}

get failed() {
return this.state === 'faulted' || this.state === 'unrun';
}
}

function falling(instances) {
return instances.filter((each) => each !== undefined).sort((one, other) => other.number - one.number);
}

function run(page, instance, handler, value) {
try {
handler(value)?.then?.(undefined, (error) => page.browser.report(error));
} catch (error) {
page.browser.report(error);
if (instance !== undefined) {
page.faults.set(instance.name, { ...placeOf(error), instance, stays: 'A handler failed.' });
page.show();
}
}
}

function dispose(page, instance) {
const { disposer } = instance;
instance.disposer = null;
if (disposer !== null) run(page, instance, disposer, page.bag(instance.name));
}

function fire(page, event, value) {
const listening = [...page.live.values()].filter(({ listeners }) => listeners.length > 0);
for (const instance of falling(listening).reverse()) {
for (const each of [...instance.listeners]) if (each.event === event) run(page, instance, each.callback, value);
}
}

const KINDS = { connected: 'load', update: 'update', 'full-reload': 'reload' };

function beginsPlan(answer) {
return answer.type in KINDS;
}

function beginPlan(page, answer) {
const { batch = 0, triggeredBy = [], replaced = [], updates = [], cause = null, path = [] } = answer;
page.plans += 1;
const id = `${page.id}.${page.plans}`;
const told = { kind: KINDS[answer.type], batch, triggeredBy, replaced, updates, reason: { cause, path } };
const progress = { walk: walkOf(page), staged: new Map() };
page.plan = { id, ...told, ...progress, cause: null, isFirst: false };
}

function entryOf(page, name) {
const { plan } = page;
const isKept = plan.kind === 'update' && !plan.replaced.includes(name);
return (isKept ? page.live.get(name)?.module : undefined) ?? plan.staged.get(name);
}

function walkOf({ roots }) {
return { met: new Set(), left: [], ahead: [...roots].reverse() };
}

function goOn(page, { met, left, ahead }, follows = () => true) {
while (ahead.length > 0) {
const next = ahead.pop();
if (typeof next !== 'string') left.push(next);
else if (!met.has(next)) {
const entry = entryOf(page, next);
if (entry === undefined) {
ahead.push(next);
return next;
}
met.add(next);
ahead.push(entry, ...entry.targets.filter((to) => follows(entry, to)).reverse());
}
}
return undefined;
}

function walk(page, follows) {
const whole = walkOf(page);
while (goOn(page, whole, follows) !== undefined) whole.met.add(whole.ahead.pop());
return whole;
}

function unfetched(page) {
return goOn(page, page.plan.walk);
}

function importersOf(page, name) {
return walk(page).left.filter(({ targets }) => targets.includes(name));
}

function newModules(page) {
const { plan: { kind, staged }, live } = page;
const isKept = ({ name, version }) => kind === 'load' && live.get(name)?.module.version === version;
return page.plan.walk.left.filter((module) => staged.get(module.name) === module && !isKept(module));
}

function tableAfter(page) {
const { plan: { kind, walk: { left } }, live } = page;
const after = new Map();
if (kind === 'update') live.forEach(({ module }, name) => after.set(name, module.version));
left.forEach(({ name, version }) => after.set(name, version));
const isSame = page.names.length === after.size && page.names.every((name) => after.has(name));
if (!isSame) page.names = [...after.keys()].sort();
return page.names.map((name) => [name, after.get(name)]);
}

const WORDS = {
'open-string': 'The string or template that begins here isn\'t closed.',
'open-comment': 'The comment that begins here isn\'t closed.',
unexpected: 'This is unexpected here, or a bracket before it isn\'t closed.',
'bad-byte': 'JavaScript has no such character.',
};

function told(page, key, fault) {
page.faults.set(key, fault);
page.show();
}

function tellText(page, { path, line, column, kind }) {
const message = WORDS[kind] ?? kind;
told(page, path, { message, name: path, line, column, had: page.live.get(path)?.module.version });
fire(page, 'vite:error', { type: 'error', err: { message, id: path } });
}

function forgetMended(page, plan) {
page.faults.delete('');
if (page.hurt === null && plan.kind === 'update') page.faults.delete('load');
page.faults.forEach(({ had, instance }, key) => {
const live = page.live.get(key);
const isMended = instance === undefined ? live?.module.version !== had : live !== instance;
if (isMended && key !== 'load') page.faults.delete(key);
});
}

function giveUp(page) {
const { kind, cause } = page.plan;
const fault = faultOf(page, page.plan.cause);
page.faults.delete('load');
if (!(cause.cause === 'broken' && cause.at === undefined && page.faults.has(cause.path))) {
const isWhole = kind !== 'load' || page.isAdopted;
const stays = isWhole ? 'The page is as it was before.' : 'The page couldn\'t be loaded whole.';
told(page, '', { ...fault, stays });
}
const extra = kind === 'load' ? lostExtra(page, cause) : undefined;
if (extra !== undefined) {
const { refuse } = page.extras.get(extra);
page.extras.delete(extra);
refuse?.(new TypeError(`${fault.message} (${fault.name}:${fault.line})`));
page.isFollowing = true;
} else if (kind === 'load') {
page.isSpoiled = true;
}
fire(page, 'vite:error', { type: 'error', err: { ...fault, id: fault.name } });
page.plan = null;
}

function lostExtra({ extras }, { path }) {
const news = [...extras].find(([, { done }]) => done !== undefined);
return news?.[0] ?? [...extras.keys()].find((name) => name === path);
}

function faultOf(page, { cause, path, from, name, at }) {
const { line, column } = at ?? {};
switch (cause) {
case 'missing': {
const [importer] = importersOf(page, path);
const found = importer?.imports.find(({ to }) => to === path);
return { message: `${shown(path)} isn't there.`, name: importer?.name, line: found?.line };
}
case 'link':
return { message: `${shown(from)} has no export ${name}.`, name: path, line, column };
default:
return { message: at?.message ?? 'It can\'t be read.', name: at?.place ?? path, line, column };
}
}

const LATE = 'late';
const LATE_AFTER = 5000;
const STUCK = {
message: 'Its evaluation hasn\'t ended: an await at its top is still open.',
stays: 'The update waits for it.',
};

function eagerOf(page, plan, begun, made) {
const reached = new Set();
const reach = (first) => {
const left = [first];
while (left.length > 0) {
const instance = left.pop();
if (instance === undefined || reached.has(instance)) continue;
reached.add(instance);
instance.module.lazy ??= lazyTargets(instance.module);
const { links, module: { lazy } } = instance;
links.forEach((to, name) => lazy.has(name) || left.push(to));
}
};
for (const { path, acceptedPath } of plan.updates) {
const isCalled = path !== acceptedPath && hasCallback(page.live.get(path), acceptedPath);
if (isCalled || begun.has(acceptedPath)) reach(page.live.get(acceptedPath));
}
if (made.every((instance) => reached.has(instance))) return reached;
for (const name of [page.root, ...page.extras.keys()]) reach(page.live.get(name));
return reached;
}

function hasCallback(instance, accepted) {
return instance?.onDependencies.some(({ names }) => names.includes(accepted)) ?? false;
}

function lazyTargets({ imports }) {
const isLazy = ({ dynamic, role }) => dynamic || role === 'map';
const lazy = new Set(imports.filter(isLazy).map(({ to }) => to));
for (const each of imports) if (!isLazy(each)) lazy.delete(each.to);
return lazy;
}

async function evaluate(page, instance) {
if (instance.module.kind !== 'js') {
instance.state = 'done';
return;
}
const watch = setTimeout(() => told(page, LATE, { ...STUCK, name: instance.name }), LATE_AFTER);
await page.browser.importModule(entryTo(instance).url).catch(() => {});
try {
instance.namespace = await page.browser.importModule(instance.url);
instance.state = 'done';
} catch (error) {
instance.error = error;
instance.state = isOwn(page, instance, error) ? 'faulted' : 'unrun';
if (instance.state === 'faulted') {
page.browser.report(error);
const stays = 'It counts as applied; callbacks get undefined.';
told(page, instance.name, { ...placeOf(error), instance, stays });
}
}
clearTimeout(watch);
page.faults.delete(LATE);
}

function isOwn(page, instance, error) {
if ([...instance.links.values()].some((to) => to !== instance && to?.error === error)) return false;
const { url } = placeOf(error);
const thrower = url === undefined ? undefined : page.instanceOf(url);
return thrower === undefined || thrower === instance;
}

function entryTo(instance, seen = new Set([instance])) {
let entry = instance;
for (const to of instance.links.values()) {
if (to === undefined || seen.has(to) || to.state !== 'made' || to.module.kind !== 'js') continue;
if (instance.module.imports.every((each) => each.to !== to.name || each.dynamic)) continue;
const other = entryTo(to, seen.add(to));
if (other.number > entry.number) entry = other;
}
return entry;
}

async function carryOut(page) {
const { plan } = page;
const modules = plan.made;
page.plan = null;
if (plan.kind === 'load') load(page, plan, modules);
else await update(page, plan, modules);
page.forced.clear();
page.last = { ...plan, made: modules.map(({ name }) => name) };
page.stale = staleEdges(page);
forgetMended(page, plan);
}

function prune(page, names) {
if (names.length > 0) fire(page, 'vite:beforePrune', { type: 'prune', paths: names });
for (const instance of falling(names.map((name) => page.live.get(name)))) {
const { pruner } = instance;
dispose(page, instance);
if (pruner !== null) run(page, instance, pruner, page.bag(instance.name));
end(page, instance);
page.bags.delete(instance.name);
page.forced.delete(instance.name);
page.faults.delete(instance.name);
}
page.stale = staleEdges(page);
}

function end(page, instance) {
instance.end();
page.live.delete(instance.name);
}

function load(page, plan, modules) {
const gone = page.isAdopted ? [...page.live.keys()].filter((name) => !plan.staged.has(name)) : [];
make(page, modules, plan.isFirst ? '' : plan.id);
if (plan.isFirst) takeLoaded(page, modules);
prune(page, gone);
page.isAdopted = true;
page.adopt();
page.extras.forEach(({ done }, name) => {
if (!page.roots.includes(name)) return;
page.extras.set(name, {});
done?.();
});
}

function takeLoaded(page, modules) {
for (const { name } of modules) page.live.get(name).state = 'done';
const begun = modules.find(({ name }) => name === page.root).imports
.filter(({ to, role }) => role === 'module' && page.live.get(to)?.module.kind === 'js');
for (const { to } of begun) {
page.browser.importModule(to).catch((error) => {
page.hurt = error;
const stays = 'The page was loaded in part. It is loaded again at the next change.';
told(page, 'load', { ...placeOf(error), stays });
});
}
}

function make(page, modules, plan) {
const made = modules.map((module) => {
const instance = page.instanceAt(plan, module.name);
page.made += 1;
instance.number = page.made;
instance.module = module;
page.live.set(module.name, instance);
return instance;
});
for (const instance of made) {
for (const to of instance.module.targets) instance.links.set(to, page.live.get(to));
}
return made;
}

async function update(page, plan, modules) {
fire(page, 'vite:beforeUpdate', { type: 'update', updates: plan.updates });
const setAside = new Map();
const begun = new Set();
for (const instance of falling(modules.map(({ name }) => page.live.get(name)))) {
if (instance.hasBegun) begun.add(instance.name);
dispose(page, instance);
setAside.set(instance.name, instance.own);
instance.accepts = plan.updates;
end(page, instance);
}
const made = make(page, modules, plan.id);
const eager = eagerOf(page, plan, begun, made);
page.isEvaluating = true;
for (const instance of made) if (eager.has(instance)) await evaluate(page, instance);
page.isEvaluating = false;
const isMade = new Set(made.map(({ name }) => name));
const isCalled = ({ acceptedPath }) => isMade.has(acceptedPath) || page.forced.has(acceptedPath);
for (const pair of plan.updates.filter(isCalled)) await callBack(page, pair, isMade, setAside);
fire(page, 'vite:afterUpdate', { type: 'update', updates: plan.updates });
}

async function callBack(page, { path, acceptedPath }, isMade, setAside) {
const accepted = page.live.get(acceptedPath);
if (path === page.root && accepted.module.kind === 'css') page.browser.restyle(acceptedPath, accepted.url);
if (path === acceptedPath && isMade.has(path)) {
for (const callback of setAside.get(path) ?? []) {
run(page, page.live.get(path), callback, await namespaceOf(page, acceptedPath));
}
} else {
for (const { names, isList, callback } of [...page.live.get(path).onDependencies]) {
if (!names.includes(acceptedPath)) continue;
const value = await namespaceOf(page, acceptedPath);
const values = names.map((name) => (name === acceptedPath ? value : undefined));
run(page, page.live.get(path), callback, isList ? values : value);
}
}
}

async function namespaceOf(page, name) {
const instance = page.live.get(name);
if (instance === undefined || instance.failed) return undefined;
const { kind } = instance.module;
const options = kind === 'css' || kind === 'json' ? { with: { type: kind } } : undefined;
instance.namespace ??= await page.browser.importModule(instance.url, options).catch(() => undefined);
return instance.namespace;
}

const MOST_EXTRAS = 15;

function followEarly(page) {
const { met } = walk(page);
const unmet = [...page.early].filter((name) => !met.has(name));
page.early.clear();
unmet.slice(0, MOST_EXTRAS).forEach((name) => page.extras.set(name, {}));
unmet.slice(MOST_EXTRAS).forEach((name) => page.unfollowed.add(name));
page.isFollowing = unmet.length > 0;
return page.isFollowing;
}

async function importLive(page, importer, specifier, options) {
const text = String(specifier);
if (!/^(\.{0,2}\/(?!\/)|https?:)/.test(text)) return page.browser.importModule(text, options);
const { href, search, hash } = new URL(text, importer);
const name = nameOf(href);
const isFollowed = isOfServer(href) && search === '' && hash === '' && isScript(name);
if (!isFollowed) return page.browser.importModule(href, options);
if (!page.saidHello) {
page.early.add(name);
} else {
await page.adopted;
if (!page.live.has(name) && canFollow(page)) await follow(page, name);
if (page.live.has(name)) return page.browser.importModule(absolute(page.live.get(name).url), options);
page.unfollowed.add(name);
}
return page.browser.importModule(href, options);
}

function canFollow({ extras, isEvaluating }) {
return extras.size < MOST_EXTRAS && !isEvaluating;
}

function follow(page, name) {
return new Promise((done, refuse) => {
page.extras.set(name, { done, refuse });
page.isFollowing = true;
page.browser.wake(page);
});
}

async function linkFault(page, modules) {
await tellPlan(page, modules);
const address = `/@hmr/check/${page.plan.id}`;
const fault = await page.browser.link(address);
return fault === null ? null : causeOf(page, modules, fault);
}

function tellPlan(page, modules) {
const { plan } = page;
const made = new Set(modules.map(({ name }) => name));
const kept = {};
for (const to of modules.flatMap(({ targets }) => targets)) {
const held = made.has(to) ? undefined : page.live.get(to);
if (held !== undefined) kept[to] = [held.plan, held.module.version];
}
const { met } = page.plan.walk.left.some(hasClassic) ? walk(page, isImported) : page.plan.walk;
const linked = modules.filter(({ name }) => !isScript(name) || met.has(name));
return page.browser.tellPlan({ plan: plan.id, plain: plan.isFirst, made: versionsOf(linked), kept });
}

function hasClassic({ imports }) {
return imports.some(({ role }) => role === 'script');
}

function isImported({ imports }, name) {
return imports.some(({ to, role }) => to === name && role !== 'script' && role !== 'style');
}

function causeOf(page, modules, { error, name: place, line, column, message = String(error) }) {
const lacking = lackingImport(page, modules);
const at = { line, column, message, place };
if (lacking !== undefined) return { cause: 'link', ...lacking, at };
const path = modules.some(({ name }) => name === place) ? place : modules[0].name;
return { cause: 'broken', path, at };
}

function lackingImport(page, modules) {
const fresh = new Map(modules.map((module) => [module.name, module]));
const asLive = (instance) => instance && {
module: instance.module,
to: (name) => asLive(instance.links.get(name)),
};
const asMade = (module) => ({
module,
to: (name) => (fresh.has(name) ? asMade(fresh.get(name)) : asLive(page.live.get(name))),
});
for (const module of modules) {
for (const { to: from, names, dynamic } of module.imports) {
const name = dynamic ? undefined : names.find((each) => !exports(asMade(module).to(from), each));
if (name !== undefined) return { path: module.name, from, name };
}
}
return undefined;
}

function exports(at, name, seen = new Set()) {
if (at === undefined || name === '*' || at.module.kind !== 'js') return true;
const key = `${at.module.name} ${name}`;
if (seen.has(key)) return false;
seen.add(key);
const through = at.module.through.find(([own]) => own === name);
if (through !== undefined) return through[1] === null || exports(at.to(through[1]), through[2], seen);
if (at.module.exports.includes(name)) return true;
const mayHave = (star) => star === null || exports(at.to(star), name, seen);
return name !== 'default' && at.module.stars.some(mayHave);
}

async function decide(page) {
const { plan } = page;
plan.isFirst = plan.kind === 'load' && !page.isAdopted && !page.isSpoiled;
if (plan.isFirst && followEarly(page)) return;
const modules = newModules(page);
plan.made = modules;
await learn(page, modules);
plan.cause = await linkFault(page, modules);
if (plan.cause === null && wantsReload(page, modules)) {
fire(page, 'vite:beforeFullReload', { type: 'full-reload', path: plan.reason.path });
page.isLeaving = true;
}
}

function wantsReload(page, modules) {
const { plan } = page;
switch (plan.kind) {
case 'reload':
return true;
case 'load':
if (plan.isFirst) return modules.some(({ version }) => version > page.count);
return !page.isAdopted || modules.some(({ name }) => page.live.has(name));
default:
return page.hurt !== null || keepsFailed(page, plan);
}
}

function keepsFailed({ live }, { replaced }) {
return [...live.values()].some(({ name, failed }) => failed && !replaced.includes(name));
}

const ANSWERS = {
hello: ['connected', 'refused'],
ask: ['connected', 'error', 'prune', 'full-reload', 'update', 'idle'],
fetch: ['text', 'not-yet', 'broken', 'missing'],
applied: ['done', 'refused'],
aborted: ['done'],
invalidate: ['done', 'refused'],
bye: ['done'],
};

async function pendingRequest(page) {
if (page.number === 0) {
page.saidHello = true;
page.isFollowing = false;
page.plan = null;
return { type: 'hello', format: 2, roots: [page.root, ...page.extras.keys()] };
}
if (page.isLeaving) return { type: 'bye' };
const { plan } = page;
if (plan === null) {
if (page.isFollowing) return { type: 'bye' };
return page.invalidations[0] ?? { type: 'ask' };
}
if (plan.cause === null) {
const path = unfetched(page);
if (path !== undefined) return { type: 'fetch', path };
await decide(page);
}
if (plan.cause !== null) {
const { cause, path, from = null, name = null } = plan.cause;
return { type: 'aborted', cause, path, from, name };
}
const isPutOff = plan.isFirst && page.isFollowing;
return page.isLeaving || isPutOff ? { type: 'bye' } : { type: 'applied', table: tableAfter(page) };
}

async function take(page, request, answer) {
const { type, path } = answer;
if (!ANSWERS[request.type].includes(type)) {
throw new Error(`${JSON.stringify(request)} was answered ${JSON.stringify(answer)}`);
}
switch (request.type) {
case 'applied':
if (type === 'refused') throw new Error(`applied was refused: ${JSON.stringify(answer)}`);
break;
case 'aborted':
giveUp(page);
break;
case 'invalidate':
page.invalidations.shift();
if (type === 'done') page.forced.add(request.path);
break;
case 'hello':
if (type === 'refused') tellRefusal(page, answer.code);
break;
}
if (type === 'connected') {
page.number = answer.client;
page.roots = answer.roots;
}
if (beginsPlan(answer)) beginPlan(page, answer);
if (type === 'prune') prune(page, answer.paths);
if (type === 'error' || type === 'broken') tellText(page, answer);
if (type === 'broken') page.plan.cause = { cause: 'broken', path };
if (type === 'missing') {
page.plan.cause = { cause: 'missing', path };
await learn(page, importersOf(page, path));
}
if (type === 'text') page.plan.staged.set(path, moduleOf(page, answer));
else page.show();
}

function moduleOf(page, { path, version, text }) {
const known = page.live.get(path)?.module;
return known?.version === version ? known : readModule(path, version, text);
}

function tellRefusal(page, code) {
const isFull = code === 2;
told(page, '', {
message: isFull ? 'The server has 32 pages open, as many as it takes.' : `The server refused this page (${code}).`,
stays: isFull ? 'This one is loaded once another one is gone.' : 'Nothing is updated here.',
});
}

const CLOSED = new Error('the connection was closed');

async function stayConnected(page) {
while (!page.isLeaving) {
const fault = await speak(page).then(() => null, (error) => error);
if (fault === null && (page.isLeaving || page.isFollowing)) continue;
if (fault !== null && fault !== CLOSED) console.error('hmr:', fault);
page.number = 0;
page.plan = null;
await serverIsBack(page);
}
location.reload();
}

async function speak(page) {
page.number = 0;
const scheme = location.protocol === 'https:' ? 'wss' : 'ws';
const socket = new WebSocket(`${scheme}://${location.host}/@hmr/ws?page=${page.id}`);
page.cut = () => socket.close();
const next = (text) => new Promise((done, refuse) => {
socket.onopen = socket.onmessage = done;
socket.onclose = () => refuse(CLOSED);
if (socket.readyState >= WebSocket.CLOSING) refuse(CLOSED);
else if (text !== undefined) socket.send(text);
});
try {
await next();
for (let isOver = false; !isOver;) {
const request = await pendingRequest(page);
page.isAsking = request.type === 'ask';
const answered = next(JSON.stringify(request));
answered.catch(() => {});
if (request.type === 'applied') await carryOut(page);
const answer = JSON.parse((await answered).data);
page.isAsking = false;
page.browser.note(request, answer);
await take(page, request, answer);
if (answer.type === 'not-yet') await page.browser.pause(50);
isOver = request.type === 'bye' || (answer.type === 'refused' && request.type === 'hello');
}
} finally {
socket.close();
}
}

async function serverIsBack(page) {
for (let wait = 300; ; wait = Math.min(wait * 1.5, 3000)) {
await page.browser.pause(wait);
const told = await fetch('/@hmr/run').then((answer) => answer.json()).catch(() => null);
page.isAway = told === null;
page.show();
if (page.isAway) continue;
if (String(told.run) !== page.run) page.isLeaving = true;
return;
}
}

function enter(page, meta) {
const instance = entered(page, meta.url);
instance.hasBegun = true;
meta.hot = hotOf(page, instance);
meta.hotImport = function hotImport(specifier, options) {
return importLive(page, meta.url, specifier, options);
};
}

function entered(page, url) {
if (url.split('#')[0] === document.URL.split('#')[0]) return page.instanceAt('', page.root);
const plan = planOf(url);
return plan === undefined ? new Instance(nameOf(url), '') : page.instanceAt(plan, nameOf(url));
}

function hotOf(page, instance) {
const { name } = instance;
const whileLive = (act) => (...words) => { if (!instance.isOver) act(...words); };
return {
get data() { return page.bag(name); },
accept: whileLive((first, callback) => {
if (typeof first === 'function') instance.own.push(first);
else if (first !== undefined && callback !== undefined) {
const names = [first].flat().map((each) => resolve(name, each));
instance.onDependencies.push({ names, isList: Array.isArray(first), callback });
}
}),
dispose: whileLive((handler) => { instance.disposer = handler; }),
prune: whileLive((handler) => { instance.pruner = handler; }),
decline() {},
on: whileLive((event, callback) => instance.listeners.push({ event, callback })),
off(event, callback) {
const isOther = (each) => each.event !== event || each.callback !== callback;
instance.listeners = instance.listeners.filter(isOther);
},
invalidate(message = '') {
const version = page.live.get(name)?.module?.version;
if (version === undefined) return;
page.invalidations.push({ type: 'invalidate', path: name, version, message: String(message) });
fire(page, 'vite:invalidate', { path: name, message });
page.browser.wake(page);
},
};
}

class Page {
constructor({ id, root, run, count }, browser) {
this.id = id;
this.root = root;
this.run = run;
this.count = count;
this.browser = browser;

this.cut = () => {};
this.number = 0;
this.roots = [];
this.saidHello = false;
this.isAsking = false;
this.isAway = false;
this.isLeaving = false;
this.isFollowing = false;
this.isAdopted = false;
this.isEvaluating = false;
this.isSpoiled = false;
this.hurt = null;

this.plan = null;
this.plans = 0;
this.names = [];
this.stale = [];
this.last = null;

this.made = 0;
this.byUrl = new Map();
this.live = new Map();
this.bags = new Map();
this.extras = new Map();
this.early = new Set();
this.unfollowed = new Set();
this.invalidations = [];
this.forced = new Set();
this.faults = new Map();
this.adopted = new Promise((done) => { this.adopt = done; });
}

instanceOf(url) {
return isOfServer(url) ? this.byUrl.get(urlOf(planOf(url), nameOf(url))) : undefined;
}

instanceAt(plan, name) {
const url = urlOf(plan, name);
if (!this.byUrl.has(url)) this.byUrl.set(url, new Instance(name, plan));
return this.byUrl.get(url);
}

bag(name) {
if (!this.bags.has(name)) this.bags.set(name, {});
return this.bags.get(name);
}

show() {
this.browser.show(this);
}
}

const { dataset } = document.currentScript;
const sent = { id: dataset.page, root: dataset.root, run: dataset.run, count: Number(dataset.count) };
const isQuiet = new URLSearchParams(location.search).has('hmr-quiet');
const page = new Page(sent, new Browser(isQuiet));

globalThis.__hmr = {
page,
stop: LINKED,
enter: (meta) => enter(page, meta),
fire: (event, value) => fire(page, event, value),
edges: () => page.stale,
stale: () => page.stale.map(staleWords),
cut: () => page.cut(),
};

addEventListener('error', ({ target, filename, lineno: line, colno: column, message, defaultPrevented }) => {
if (page.isAdopted || target !== window || !filename || !isOfServer(filename) || defaultPrevented) return;
const fault = { name: nameOf(filename), line, column, message: message.replace(/^Uncaught /, '') };
told(page, 'load', { ...fault, stays: 'While the page was loaded.' });
}, true);
addEventListener('pageshow', ({ persisted }) => { if (persisted) location.reload(); });
addEventListener('DOMContentLoaded', () => {
page.show();
stayConnected(page);
});
})();
"##
}
