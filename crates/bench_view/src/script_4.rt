//! Part 4 of what stands behind the data of a page: its script. `page/make` makes it.

pub(crate) static SCRIPT_4: &str = "\
    // The place of the message with a number of the file, or of the next one.\n\
    function placeOf(number) {\n\
    \x20 let low = 0, high = data.count;\n\
    \x20 while (low < high) {\n\
    \x20   const middle = low + high >> 1;\n\
    \x20   if (data.number[middle] < number) low = middle + 1; else high = middle;\n\
    \x20 }\n\
    \x20 return Math.min(low, data.count - 1);\n\
    }\n\
    \n\
    // The next in a list of places by time, or the one before: from the chosen message where it is seen, else f\
    rom where\n\
    // what is seen begins or ends.\n\
    function besideChosen(places, step) {\n\
    \x20 const begin = seen.chosen >= 0 ? data.begin[seen.chosen] : NaN, isSeen = begin >= seen.from && begin <=\
    \x20seen.to;\n\
    \x20 const [now, chosen] = isSeen ? [begin, seen.chosen] : [step > 0 ? seen.from : seen.to, -1];\n\
    \x20 const isBehind = (i) => data.begin[i] > now || data.begin[i] === now && i > chosen;\n\
    \x20 let low = 0, high = places.length;\n\
    \x20 while (low < high) {\n\
    \x20   const middle = low + high >> 1;\n\
    \x20   if (isBehind(places[middle])) high = middle; else low = middle + 1;\n\
    \x20 }\n\
    \x20 if (step > 0) return low < places.length ? places[low] : -1;\n\
    \x20 const before = low - 1 >= 0 && places[low - 1] === chosen ? low - 2 : low - 1;\n\
    \x20 return before >= 0 ? places[before] : -1;\n\
    }\n\
    function nextError(step) {\n\
    \x20 const i = besideChosen(data.errors, step);\n\
    \x20 if (i >= 0) choose(i); else say(step > 0 ? 'no error behind this' : 'no error in front of this');\n\
    }\n\
    function nextMessage(step) {\n\
    \x20 const i = besideChosen(data.whole.places, step);\n\
    \x20 if (i >= 0) choose(i);\n\
    }\n\
    function zoomToChosen() {\n\
    \x20 if (seen.chosen < 0) return;\n\
    \x20 const begin = data.begin[seen.chosen], span = data.end[seen.chosen] - begin;\n\
    \x20 show(begin - span * 0.6, begin + span * 1.6);\n\
    }\n\
    \n\
    // A time as --from takes it, in ticks behind the origin; NaN where a text is none.\n\
    function readTime(text) {\n\
    \x20 const found = /^(\\d+(?:\\.\\d*)?)\\s*(s|ms|us|\\u00b5s)$/.exec(text.trim());\n\
    \x20 if (!found) return NaN;\n\
    \x20 const [whole, part = ''] = found[1].split('.'), places = { s: 7, ms: 4 }[found[2]] || 1;\n\
    \x20 const ticks = BigInt(whole + part.padEnd(places, '0').slice(0, places));\n\
    \x20 return Number(ticks - data.origin);\n\
    }\n\
    \n\
    // Shows so many ticks about a time; the list goes there too.\n\
    function showAbout(time, span) {\n\
    \x20 show(time - span / 2, time + span / 2);\n\
    \x20 const { places, count } = data.whole;\n\
    \x20 if (count) list.reveal(places[Math.min(data.whole.from(time), count - 1)]);\n\
    \x20 list.render();\n\
    }\n\
    \n\
    // Goes to a time or to the message with a number; answers whether the text is either.\n\
    function goTo(text) {\n\
    \x20 const time = readTime(text);\n\
    \x20 if (!Number.isNaN(time)) {\n\
    \x20   showAbout(time, Math.min(seen.to - seen.from, (data.last - data.first) / 10));\n\
    \x20   return true;\n\
    \x20 }\n\
    \x20 if (!/^\\d+$/.test(text.trim())) return false;\n\
    \x20 choose(placeOf(+text));\n\
    \x20 return true;\n\
    }\n\
    \n\
    // The address of the page: the middle of what is seen, its width, and the message that is chosen.\n\
    let kept = 0;\n\
    function keepAddress() {\n\
    \x20 clearTimeout(kept);\n\
    \x20 kept = setTimeout(() => history.replaceState(null, '', '#' + addressText()), 150);\n\
    }\n\
    function addressText() {\n\
    \x20 const width = optionText({ origin: 0n }, seen.to - seen.from);\n\
    \x20 const parts = [`t=${optionText(data, (seen.from + seen.to) / 2)}`, `w=${width}`];\n\
    \x20 if (seen.chosen >= 0) parts.push(`m=${data.number[seen.chosen]}`);\n\
    \x20 if (seen.mode !== 'lines') parts.push(`by=${seen.mode}`);\n\
    \x20 return parts.join('&');\n\
    }\n\
    function readAddress(text) {\n\
    \x20 const parts = new Map(text.replace(/^#/, '').split('&').map((part) => part.split('=')));\n\
    \x20 if (/^(light|dark)$/.test(parts.get('theme'))) setTheme(parts.get('theme'));\n\
    \x20 if (parts.get('by') === 'terminals') setMode('terminals');\n\
    \x20 if (parts.has('m')) choose(placeOf(+parts.get('m')));\n\
    \x20 const time = readTime(parts.get('t') || '');\n\
    \x20 if (Number.isNaN(time)) return;\n\
    \x20 const asked = readTime(parts.get('w') || '') + Number(data.origin);\n\
    \x20 const width = Number.isNaN(asked) ? Math.min(SECOND, data.last - data.first) : asked;\n\
    \x20 if (parts.has('m')) show(time - width / 2, time + width / 2); else showAbout(time, width);\n\
    }\n\
    \n\
    // What is seen as options: times, or where stamps are times of day the numbers of the messages.\n\
    function optionsText() {\n\
    \x20 const from = Math.max(0, Math.floor(seen.from)), to = Math.ceil(seen.to);\n\
    \x20 if (!data.ofDay.includes(1)) return `--from ${optionText(data, from)} --to ${optionText(data, to)}`;\n\
    \x20 let [least, most] = [Infinity, 0];\n\
    \x20 for (const i of data.whole.places.subarray(data.whole.from(seen.from), data.whole.from(seen.to))) {\n\
    \x20   least = Math.min(least, data.number[i]);\n\
    \x20   most = Math.max(most, data.number[i]);\n\
    \x20 }\n\
    \x20 return most ? `--from ${least} --to ${most}` : '';\n\
    }\n\
    \n\
    // ---------------------------------------------------------------------------------------------- the list\n\
    // The list has rows in the document for what is seen of it alone; a screen reader is told of how many there\
    \x20are.\n\
    const ROW_HEIGHT = 22;\n\
    const list = {\n\
    \x20 places: null,\n\
    \x20 size() { return this.places ? this.places.length : data.count; },\n\
    \x20 at(row) { return this.places ? this.places[row] : row; },\n\
    \x20 rowOf(i) {\n\
    \x20   if (!this.places) return i;\n\
    \x20   let low = 0, high = this.places.length;\n\
    \x20   while (low < high) {\n\
    \x20     const middle = low + high >> 1;\n\
    \x20     if (this.places[middle] < i) low = middle + 1; else high = middle;\n\
    \x20   }\n\
    \x20   return low;\n\
    \x20 },\n\
    \x20 height() { return Math.min(this.size() * ROW_HEIGHT, 15e6); },\n\
    \x20 // (of very many rows a pixel of the scroll bar stands for more than one)\n\
    \x20 firstRow() {\n\
    \x20   const scroll = byId('scroll'), most = Math.max(1, this.height() - scroll.clientHeight + 24);\n\
    \x20   const rows = Math.max(0, this.size() - Math.floor((scroll.clientHeight - 24) / ROW_HEIGHT));\n\
    \x20   return Math.min(rows, Math.round(Math.min(1, scroll.scrollTop / most) * rows));\n\
    \x20 },\n\
    \x20 render() {\n\
    \x20   const scroll = byId('scroll'), first = this.firstRow();\n\
    \x20   const shown = Math.ceil(scroll.clientHeight / ROW_HEIGHT) + 1;\n\
    \x20   byId('space').style.height = this.height() + 24 + 'px';\n\
    \x20   byId('table').style.top = scroll.scrollTop + 'px';\n\
    \x20   byId('table').setAttribute('aria-rowcount', this.size() + 1);\n\
    \x20   const rows = [];\n\
    \x20   for (let row = first; row < Math.min(first + shown, this.size()); row++) rows.push(rowElement(this.at\
    (row), row));\n\
    \x20   byId('rows').replaceChildren(...rows);\n\
    \x20   const chosen = rows.find((row) => row.getAttribute('aria-selected') === 'true');\n\
    \x20   if (chosen) byId('table').setAttribute('aria-activedescendant', chosen.id);\n\
    \x20   else byId('table').removeAttribute('aria-activedescendant');\n\
    \x20 },\n\
    \x20 // Brings the row of a message into view: one beside the rows that are seen to their edge, another to t\
    he middle.\n\
    \x20 reveal(i) {\n\
    \x20   const scroll = byId('scroll'), row = this.rowOf(i), first = this.firstRow();\n\
    \x20   const visible = Math.floor((scroll.clientHeight - 24) / ROW_HEIGHT);\n\
    \x20   if (row >= first && row < first + visible) return;\n\
    \x20   const rows = Math.max(1, this.size() - visible), most = Math.max(1, this.height() - scroll.clientHeig\
    ht + 24);\n\
    \x20   const beside = row === first - 1 || row === first + visible, edge = row < first ? 0 : visible - 1;\n\
    \x20   scroll.scrollTop = Math.max(0, Math.min(1, (row - (beside ? edge : visible >> 1)) / rows)) * most;\n\
    \x20 },\n\
    \x20 move(step) {\n\
    \x20   const now = seen.chosen < 0 ? (step > 0 ? -1 : 0) : this.rowOf(seen.chosen);\n\
    \x20   const row = Math.max(0, Math.min(this.size() - 1, now + step));\n\
    \x20   if (this.size()) choose(this.at(row));\n\
    \x20 },\n\
    };\n\
    \n\
    function element(tag, text, attributes = {}) {\n\
    \x20 const made = document.createElement(tag);\n\
    \x20 if (text !== undefined) made.textContent = text;\n\
    \x20 for (const [name, value] of Object.entries(attributes)) made.setAttribute(name, value);\n\
    \x20 return made;\n\
    }\n\
    \n\
    function rowElement(i, row) {\n\
    \x20 const p = partsOf(data, i), made = element('tr', undefined, {\n\
    \x20   id: `row${i}`, 'aria-rowindex': row + 2, 'aria-selected': String(i === seen.chosen),\n\
    \x20 });\n\
    \x20 made.dataset.place = i;\n\
    \x20 const bad = data.block[i] >> 12 & 1;\n\
    \x20 if (bad) made.className = 'bad';\n\
    \x20 for (const text of [p.number, p.seconds, p.channel, p.line, p.form, p.replies]) made.append(element('td\
    ', text));\n\
    \x20 const last = element('td', (p.words + p.then + p.values).trim());\n\
    \x20 if (p.names) last.append(element('span', p.names, bad ? { class: 'bad' } : {}));\n\
    \x20 made.append(last);\n\
    \x20 return made;\n\
    }\n\
    \n\
    // What the filter asks of a message.\n\
    function filterAsked() {\n\
    \x20 const text = byId('byText').value.trim().toLowerCase();\n\
    \x20 const number = (id) => (byId(id).value === '' ? -1 : +byId(id).value);\n\
    \x20 return {\n\
    \x20   channel: number('byChannel'), terminal: number('byTerminal'), subaddress: number('bySubaddress'),\n\
    \x20   form: number('byForm'), error: byId('byError').checked, text,\n\
    \x20 };\n\
    }\n\
    const asksNothing = (f) => f.channel < 0 && f.terminal < 0 && f.subaddress < 0 && f.form < 0 && !f.error && \
    !f.text;\n\
    \n\
    function passes(f, i) {\n\
    \x20 if (f.channel >= 0 && data.channel[i] !== f.channel) return false;\n\
    \x20 if (f.form >= 0 && data.form[i] !== f.form) return false;\n\
    \x20 if (f.error && !(data.block[i] >> 12 & 1)) return false;\n\
    \x20 const first = Math.floor(data.called[i] / 65536), second = data.called[i] % 65536;\n\
    \x20 if (f.terminal >= 0 && addressOf(first) !== f.terminal && addressOf(second) !== f.terminal) return fals\
    e;\n\
    \x20 if (f.subaddress >= 0 && subaddressOf(first) !== f.subaddress && subaddressOf(second) !== f.subaddress)\
    \x20return false;\n\
    \x20 return !f.text || decodeLine(data, i).toLowerCase().includes(f.text);\n\
    }\n\
    \n\
    // Filters a part of the messages at a time, so that the page goes on.\n\
    let filtering = 0;\n\
    function filter() {\n\
    \x20 const turn = ++filtering, asked = filterAsked();\n\
    \x20 if (asksNothing(asked)) return takeMatches(null, null);\n\
    \x20 const matches = new Uint8Array(data.count), places = [];\n\
    \x20 const part = (from) => {\n\
    \x20   if (turn !== filtering) return;\n\
    \x20   const to = Math.min(data.count, from + 20000);\n\
    \x20   for (let i = from; i < to; i++) if (passes(asked, i)) { matches[i] = 1; places.push(i); }\n\
    \x20   if (to < data.count) { byId('matches').value = `${countText(places.length)} ..`; setTimeout(part, 0, \
    to); return; }\n\
    \x20   takeMatches(matches, Uint32Array.from(places));\n\
    \x20 };\n\
    \x20 part(0);\n\
    }\n\
    function takeMatches(matches, places) {\n\
    \x20 seen.matches = matches;\n\
    \x20 list.places = places;\n\
    \x20 for (const channel of data.channels) {\n\
    \x20   for (const track of [...channel.lines, ...channel.terminals.map((one) => one.track)]) track.match(mat\
    ches);\n\
    \x20 }\n\
    \x20 byId('matches').value = places ? `${countText(places.length)} of ${countText(data.count)}` : '';\n\
    \x20 byId('scroll').scrollTop = 0;\n\
    \x20 if (seen.chosen >= 0) list.reveal(seen.chosen);\n\
    \x20 list.render();\n\
    \x20 redraw();\n\
    }\n\
    \n\
    // ---------------------------------------------------------------------------------------------- the detail\
    s\n\
    function tableOf(rows, names) {\n\
    \x20 const made = element('table'), head = element('tr');\n\
    \x20 for (const name of names) head.append(element('th', name, { scope: 'col' }));\n\
    \x20 made.append(element('thead'));\n\
    \x20 made.firstChild.append(head);\n\
    \x20 const body = element('tbody');\n\
    \x20 for (const cells of rows) {\n\
    \x20   const row = element('tr');\n\
    \x20   for (const cell of cells) row.append(cell instanceof Node ? cell : element('td', cell));\n\
    \x20   body.append(row);\n\
    \x20 }\n\
    \x20 made.append(body);\n\
    \x20 return made;\n\
    }\n\
    \n\
    function commandText(word) {\n\
    \x20 const called = isBroadcast(word) ? '31 (all)' : addressOf(word);\n\
    \x20 const side = `terminal ${called}, ${transmits(word) ? 'transmit' : 'receive'}`;\n\
    \x20 if (isMode(word)) return `${side}, mode code ${codeOf(word)}: ${modeName(word)}`;\n\
    \x20 return `${side}, subaddress ${subaddressOf(word)}, ${countOf(word)} word${countOf(word) > 1 ? 's' : ''}\
    `;\n\
    }\n\
    \n\
    // A word with what it is.\n\
    function wordRow(i, layout, place) {\n\
    \x20 const word = wordAt(data, i, place), isCommand = place < layout.commands;\n\
    \x20 const isData = !isCommand && place >= layout.start && place < layout.end;\n\
    \x20 const role = isCommand ? 'command' : isData ? 'data' : 'status', cell = element('td');\n\
    \x20 cell.append(element('span', undefined, { class: 'role', style: `background:var(--${role})` }), role);\n\
    \x20 const signed = word > 32767 ? `, ${word - 65536}` : '';\n\
    \x20 const meaning = isCommand ? commandText(word) : isData ? `${word}${signed}`\n\
    \x20   : `terminal ${addressOf(word)}${bitNames(word).replace(/ /g, ', ').replace(/_/g, ' ')}`;\n\
    \x20 return [cell, element('td', hex(word)), element('td', meaning)];\n\
    }\n\
    \n\
    function showDetails(i) {\n\
    \x20 const p = partsOf(data, i), box = byId('details'), name = data.names.get(data.channel[i]);\n\
    \x20 const day = Number.isNaN(data.begin[i]) ? '' : dayText(data, data.begin[i], data.ofDay[i]);\n\
    \x20 const parts = [\n\
    \x20   element('h2', `Message ${p.number}: ${p.form}`),\n\
    \x20   element('p', `channel ${p.channel}${name ? ` (${name})` : ''}, number ${p.there} there, line ${p.line\
    }`,\n\
    \x20     { class: 'where' }),\n\
    \x20   element('p', p.seconds === '-' ? 'no known time' : `${p.seconds} s${day ? `   ${day}` : ''}`),\n\
    \x20 ];\n\
    \x20 const names = p.names.trim().replace(/ /g, ', ').replace(/_/g, ' ');\n\
    \x20 if (names) parts.push(element('p', names, { class: data.block[i] >> 12 & 1 ? 'bad' : '' }));\n\
    \x20 const values = valuesOf(data, i).map(([index, text]) => {\n\
    \x20   const signal = signalAt(data, index);\n\
    \x20   return [signal.name, `${text || 'no value'} ${signal.unit}`];\n\
    \x20 });\n\
    \x20 if (values.length) parts.push(element('h3', 'Signals'), tableOf(values, ['name', 'value']));\n\
    \x20 const rows = [];\n\
    \x20 for (let place = 0; place < p.layout.words; place++) rows.push(wordRow(i, p.layout, place));\n\
    \x20 if (rows.length) parts.push(element('h3', 'Words'), tableOf(rows, ['kind', 'word', 'meaning']));\n\
    \x20 const gaps = [p.layout.first, p.layout.second].filter((gap) => gap > 0).map((gap) => gapText(gap).trim(\
    ));\n\
    \x20 if (gaps.length) parts.push(element('h3', 'Response times'), element('p', gaps.join(', ')));\n\
    \x20 const line = decodeLine(data, i).trim().replace(/ {2,}/g, '  ');\n\
    \x20 parts.push(element('h3', 'As bench dump --decode has it'), element('pre', line));\n\
    \x20 box.replaceChildren(...parts);\n\
    }\n\
    \n\
    // ---------------------------------------------------------------------------------------------- the page\n\
    // Says something for a while.\n\
    let saying = 0;\n\
    function say(text) {\n\
    \x20 byId('said').textContent = text;\n\
    \x20 clearTimeout(saying);\n\
    \x20 saying = setTimeout(() => { byId('said').textContent = ''; }, 2500);\n\
    }\n\
    \n\
    const countText = (count) => count.toLocaleString('en');\n\
    \n\
    function summarize() {\n\
    \x20 const many = (count, name) => `${countText(count)} ${name}${count === 1 ? '' : 's'}`;\n\
    \x20 const parts = [many(data.count, 'message'), many(data.channels.length, 'channel'), many(data.errors.len\
    gth, 'error')];\n\
    \x20 if (data.whole.count) parts.push(`${lengthText(data.last - data.first)} from ${optionText(data, data.fi\
    rst)}`);\n\
    \x20 const day = data.whole.count ? dayText(data, data.first, data.ofDay[data.whole.places[0]]) : '';\n\
    \x20 if (day) parts.push(day);\n\
    \x20 if (data.chosen > data.count) {\n\
    \x20   parts.push(`the first ${countText(data.count)} of ${countText(data.chosen)} that were chosen`);\n\
    \x20 }\n\
    \x20 byId('summary').textContent = parts.join('\\u00a0\\u00b7 ');\n\
    }\n\
    \n\
    function fillFilter() {\n\
    \x20 const add = (id, value, text) => byId(id).append(element('option', text, { value }));\n\
    \x20 for (const one of data.channels) add('byChannel', one.channel, `${channelText(one)} ${one.name}`);\n\
    \x20 const addresses = new Set(), subaddresses = new Set(), forms = new Set(data.form);\n\
    \x20 for (let i = 0; i < data.count; i++) {\n\
    \x20   for (const word of [Math.floor(data.called[i] / 65536), data.called[i] % 65536]) {\n\
    \x20     addresses.add(addressOf(word));\n\
    \x20     subaddresses.add(subaddressOf(word));\n\
    \x20   }\n\
    \x20 }\n\
    \x20 const rising = (set) => [...set].sort((a, b) => a - b);\n\
    \x20 for (const a of rising(addresses)) add('byTerminal', a, a === 31 ? 'broadcast' : `terminal ${a}`);\n\
    \x20 for (const s of rising(subaddresses)) add('bySubaddress', s, s === 0 || s === 31 ? `mode (${s})` : `sub\
    address ${s}`);\n\
    \x20 for (const f of rising(forms)) add('byForm', f, FORMS[f] === 'unknown' ? 'no known form' : FORMS[f]);\n\
    }\n\
    \n\
    function setMode(mode) {\n\
    \x20 seen.mode = mode;\n\
    \x20 byId('lines').setAttribute('aria-pressed', String(mode === 'lines'));\n\
    \x20 byId('terminals').setAttribute('aria-pressed', String(mode === 'terminals'));\n\
    \x20 sizeCanvas();\n\
    \x20 redraw();\n\
    \x20 keepAddress();\n\
    }\n\
    \n\
    function setTheme(theme) {\n\
    \x20 document.documentElement.dataset.theme = theme;\n\
    \x20 readColors();\n\
    \x20 redraw();\n\
    }\n\
    \n\
    async function copyOptions() {\n\
    \x20 const text = optionsText();\n\
    \x20 try { await navigator.clipboard.writeText(text); say(`copied: ${text}`); } catch { say(text); }\n\
    }\n\
    \n\
    // The message under a point of the lanes, or -1.\n\
    function messageAt(x, y) {\n\
    \x20 const row = rowsOf().rows.find((one) => y >= one.top && y < one.top + one.height);\n\
    \x20 if (!row || !row.track || x < GUTTER) return -1;\n\
    \x20 const { track } = row, time = toTime(x), k = track.from(time);\n\
    \x20 const far = (m) => (m < 0 || m >= track.count ? Infinity : Math.max(track.begin[m] - time, time - track\
    .end[m], 0));\n\
    \x20 const best = far(k - 1) <= far(k) ? k - 1 : k;\n\
    \x20 return far(best) <= 6 / (canvasSize.width - GUTTER) * (seen.to - seen.from) ? track.places[best] : -1;\
    \n\
    }\n\
    \n\
    function placeOfMouse(event) {\n\
    \x20 const box = byId('canvas').getBoundingClientRect();\n\
    ";
