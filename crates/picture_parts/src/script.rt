// The script of the page. It loads nothing, knows no library, and writes what a history says as text alone.

/// The sum of the script by which the page's policy knows it. A browser runs no other, and this one only while the sum is right:
/// `tests/page` says the right one where it is not.
pub const SCRIPT_SUM: &str = "sha256-kVWbm4LU9WPwwMOAbXnUUaRY7i5Ss2hZ8S+xapC43YY=";

/// The script.
pub const SCRIPT: &str = r###"
'use strict';
(() => {
const byId = id => document.getElementById(id);
const box = byId('box'), picture = byId('picture'), list = byId('events'), told = byId('told'), tree = byId('tree');
const events = [...list.children];
const tasks = new Map([...document.querySelectorAll('tr[data-task]')].map(row => [row.dataset.task, [...row.cells].map(cell => cell.textContent)]));
const meanings = {
  root: 'A command started the task.',
  'root-rejected': 'The task of a command found no free slot.',
  ask: 'The task sent a request to a node.',
  put: 'A request was delivered, and its task is there.',
  reject: 'A request was delivered, and the node had no free slot.',
  pass: 'The first step of a child: it found no ban of its parent on its node.',
  work: 'A turn of work.',
  write: 'A document was written.',
  answered: 'The answer to an ask was delivered.',
  end: 'The task ended.',
  cancel: 'A command cancels the task.',
  'not-found': 'A command found no live task to cancel.',
  mark: 'The task was marked as cancelled, and bans went to each node that owes it an answer.',
  ban: 'A ban was delivered: it stands on the node, and its listing of the children begins.',
  listed: 'The listing ended: each child that was found on the node is marked.',
  acked: 'An acknowledgement was delivered: the ban stands on that node, and each child listed there has ended or has its own bans placed.',
  unban: 'An unban was delivered: the ban is gone from the node.',
  refuse: 'The first step of a child met a ban of its parent: it ended as cancelled, and did nothing.',
  placed: 'A cancel that does not wait was answered: its bans are placed.',
  complete: 'A cancel that waits was answered: nothing of the tree runs any more.',
  tick: 'The clock moved on.',
};
const ofScript = new Set(['root', 'root-rejected', 'cancel', 'not-found', 'tick']);
const messages = { request: 'a request', answer: 'an answer', ban: 'a ban', ack: 'an acknowledgement', unban: 'an unban' };
const numbers = text => text ? text.split(' ').map(Number) : [];
let chosen = 0; // the number of an event, from 1, or 0
let shown = events.map((_, at) => at + 1); // those of the tree that is shown, in order
let lit = [];

// The lines that begin or end at each event, and the first and last event of each command.
const lines = new Map(), commands = new Map();
for (const line of picture.querySelectorAll('[data-from]')) {
  for (const end of new Set([line.dataset.from, line.dataset.to])) {
    if (!lines.has(end)) lines.set(end, []);
    lines.get(end).push(line);
  }
}
events.forEach((event, at) => {
  const command = event.dataset.command;
  if (command) commands.set(command, [commands.get(command)?.[0] ?? at + 1, at + 1]);
});

// Makes an element. What the history says comes in as text alone, and never as markup.
function make(name, kind, ...parts) {
  const made = document.createElement(name);
  if (kind) made.className = kind;
  made.append(...parts);
  return made;
}

// A button of what is told. It goes away with what it stands in, so the events take the keys after it.
function button(kind, text, act) {
  const made = make('button', kind, text);
  made.type = 'button';
  made.onclick = () => { act(); list.focus({ preventScroll: true }); };
  return made;
}

// A button that leads to an event.
const lead = kind => number => button(kind, `${number}: ${events[number - 1].dataset.text}`, () => choose(number));

// Says what is known of an event.
function tell(number) {
  const { text, task, trees, command, causes, effects, sent } = events[number - 1].dataset;
  const facts = make('dl');
  const fact = (name, values) => values.length && facts.append(make('dt', '', name), ...values.map(value => make('dd', '', value)));
  const sendings = sent ? sent.split(',').map(one => one.split(' ')) : [];
  const delivered = sendings.map(([, , to]) => Number(to));
  const word = text.split(' ')[0];
  fact('Came of', causes ? numbers(causes).map(lead('cause')) : [ofScript.has(word) ? 'the script' : 'no event that is told']);
  fact('Sent', sendings.map(([kind, node, to]) => {
    const what = `${messages[kind]} to ${node}, `;
    return to ? make('span', '', what + 'delivered by', lead('effect')(to)) : what + 'still in flight';
  }));
  fact('What came of it', numbers(effects).filter(one => !delivered.includes(one)).map(lead('effect')));
  if (task) {
    const [, , span, action, works, opaque] = tasks.get(task) ?? [];
    fact('Task', [action ? `${task}, ${action}` : task, works, opaque && `opaque id ${opaque}`, span && `events ${span}`].filter(Boolean));
  }
  if (command) {
    const [first, last] = commands.get(command);
    fact('Command of the script', [first < last ? `${command}, events ${first} to ${last}` : command]);
  }
  if (trees) fact('Tree', trees.split(' ').map(root => button('', tree.value ? 'Show all trees' : `Show ${root} alone`, () => alone(tree.value ? '' : root))));
  told.replaceChildren(make('h2', '', `Event ${number} of ${events.length}`), make('code', '', text), make('p', '', meanings[word] ?? ''), facts);
}

// Chooses an event: it is told, and what it came of and what came of it is lit.
function choose(number) {
  if (!events[number - 1]) return;
  for (const one of lit) one.classList.remove('cause', 'effect', 'lit');
  events[chosen - 1]?.setAttribute('aria-selected', 'false');
  chosen = number;
  const event = events[number - 1];
  event.setAttribute('aria-selected', 'true');
  list.setAttribute('aria-activedescendant', event.id);
  lit = lines.get(String(number)) ?? [];
  for (const line of lit) line.classList.add('lit');
  for (const kind of ['cause', 'effect']) {
    for (const other of numbers(event.dataset[kind + 's']).map(one => events[one - 1])) {
      other.classList.add(kind);
      lit = [...lit, other];
    }
  }
  tell(number);
  inSight(event.firstElementChild);
}

// Scrolls the picture until a row is in sight, below the names of the lanes. It never moves sideways.
function inSight(row) {
  const at = row.getBoundingClientRect(), frame = box.getBoundingClientRect();
  const above = at.top - frame.top - 3 * at.height, below = at.bottom - frame.bottom + 2 * at.height;
  if (above < 0) box.scrollTop += above;
  else if (below > 0) box.scrollTop += below;
}

// Goes so many events on among those that are shown.
function go(by) {
  const at = shown.findIndex(number => number >= chosen);
  const from = at < 0 ? shown.length : shown[at] === chosen || by < 0 ? at : at - 1;
  choose(shown[Math.max(0, Math.min(shown.length - 1, from + by))]);
}

// Shows one tree alone, or all. The rows of others are folded away: each height is mapped to what is left above it. The name of a bar that
// began in such a row moves on into the next.
const only = document.head.appendChild(make('style'));
let parts;
function alone(root) {
  if (!events.length) return;
  tree.value = root;
  only.textContent = root ? `[data-trees]:not([data-trees~="${root}"]){display:none}` : '';
  const keeps = events.map(({ dataset: { trees } }) => !root || trees === undefined || trees.split(' ').includes(root));
  shown = events.map((_, at) => at + 1).filter(number => keeps[number - 1]);
  const acting = new Set(shown.map(number => events[number - 1].dataset.command));
  for (const bound of picture.querySelectorAll('.bound')) bound.classList.toggle('away', !acting.has(bound.dataset.of));
  fold(keeps);
  if (chosen) choose(shown.find(number => number >= chosen) ?? shown.at(-1));
}

function fold(keeps) {
  parts ??= [...picture.querySelectorAll('svg > g :is(rect, text, circle, use, path)')]
    .map(part => [part, part.matches('text, .plate'), ...['y', 'height', 'cy', 'd'].map(name => part.getAttribute(name))]);
  const [top, high] = ['y', 'height'].map(name => Number(events[0].firstElementChild.getAttribute(name)));
  const above = [0];
  for (const keep of keeps) above.push(above.at(-1) + keep);
  const folded = (y, isName) => {
    const row = Math.min(keeps.length, Math.floor((y - top) / high));
    return row < 0 ? y : top + above[row] * high + (isName || (keeps[row] ?? true) ? y - top - row * high : 0);
  };
  for (const [part, isName, y, height, cy, way] of parts) {
    if (y) part.setAttribute('y', folded(+y, isName));
    if (height && !isName) part.setAttribute('height', folded(+y + +height) - folded(+y));
    if (cy) part.setAttribute('cy', folded(+cy));
    if (way) part.setAttribute('d', way.replace(/([ML]\S+? |V)(-?[\d.]+)/g, (_, before, at) => before + folded(+at)));
  }
  const { x, y, width } = picture.viewBox.baseVal;
  const whole = folded(+picture.dataset.end) - y;
  picture.setAttribute('viewBox', `${x} ${y} ${width} ${whole}`);
  picture.setAttribute('height', whole);
}

const steps = { ArrowDown: 1, ArrowUp: -1, PageDown: 10, PageUp: -10, Home: -Infinity, End: Infinity };
document.addEventListener('keydown', key => {
  if (key.altKey || key.ctrlKey || key.metaKey || key.shiftKey || key.target === tree) return;
  const data = events[chosen - 1]?.dataset;
  if (key.key in steps) go(steps[key.key]);
  else if (key.key === 'ArrowLeft') choose(numbers(data?.causes)[0]);
  else if (key.key === 'ArrowRight') choose(numbers(data?.effects)[0]);
  else if (key.key === 'Escape') alone('');
  else if (key.key === 'Enter' && key.target === list && data?.trees) alone(tree.value ? '' : data.trees.split(' ')[0]);
  else return;
  key.preventDefault();
});
const under = pointer => events.indexOf(pointer.target.closest('.event')) + 1;
list.addEventListener('click', pointer => { if (under(pointer)) choose(under(pointer)); list.focus({ preventScroll: true }); });
// Pointing tells of an event and chooses none. Where the picture moved and not the pointer, as after a key, nothing is told.
let last = '';
list.addEventListener('pointermove', pointer => {
  const place = `${pointer.screenX} ${pointer.screenY}`, number = under(pointer);
  if (last !== place && pointer.pointerType === 'mouse' && number) tell(number);
  last = place;
});
list.addEventListener('pointerleave', () => { if (chosen) tell(chosen); });
tree.addEventListener('change', () => alone(tree.value));
byId('back').onclick = () => go(-1);
byId('on').onclick = () => go(1);
if (/^#e\d+$/.test(location.hash)) choose(Number(location.hash.slice(2)));
})();
"###;
