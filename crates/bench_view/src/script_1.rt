//! Part 1 of what stands behind the data of a page: its script. `page/make` makes it.

pub(crate) static SCRIPT_1: &str = "\
    </script>\n\
    <script>\n\
    'use strict';\n\
    // The script of the page of `bench view`. Its parts: the data, the decode, tracks, the picture, the list, t\
    he\n\
    // details, the page, the self-check. Times are ticks of 0.1 us; a place is that of a message on the page, f\
    rom 0.\n\
    \n\
    const faults = [];\n\
    window.addEventListener('error', (event) => faults.push(String(event.message)));\n\
    const byId = (id) => document.getElementById(id);\n\
    const SECOND = 1e7;\n\
    const WORD_TIME = 200;\n\
    \n\
    // ---------------------------------------------------------------------------------------------- the data\n\
    // Numbers are written by 64 letters, the highest place first; a word is three of them.\n\
    const LETTERS = '0123456789ABCDEFGHIJKLMNOPQRSTUVWXYZabcdefghijklmnopqrstuvwxyz_.';\n\
    const VALUES = new Uint8Array(128).fill(255);\n\
    for (let i = 0; i < 64; i++) VALUES[LETTERS.charCodeAt(i)] = i;\n\
    \n\
    // A text in which `%` and two digits stand for a byte.\n\
    function readText(word) {\n\
    \x20 try { return decodeURIComponent(word); } catch { return unescape(word); }\n\
    }\n\
    \n\
    // The notes behind the messages.\n\
    function readNotes(lines, data) {\n\
    \x20 for (const line of lines) {\n\
    \x20   const words = line.split(' ');\n\
    \x20   if (words[0] === 'recording') data.recording = readText(words[1]);\n\
    \x20   if (words[0] === 'channel') data.names.set(+words[1], readText(words[2]));\n\
    \x20   if (words[0] === 'mark') {\n\
    \x20     data.marks.push({ stamp: BigInt(words[1]), ofYear: words[2] === 'year', ticks: BigInt(words[3]) });\
    \n\
    \x20   }\n\
    \x20   if (words[0] === 'signal') {\n\
    \x20     data.signals.push({ name: readText(words[1]), named: words[2] === 'names', unit: readText(words[3] \
    || '') });\n\
    \x20   }\n\
    \x20 }\n\
    \x20 data.marks.sort((a, b) => (a.stamp < b.stamp ? -1 : a.stamp > b.stamp ? 1 : 0));\n\
    }\n\
    \n\
    // The data of the page: arrays with an entry for each message.\n\
    function readData(text) {\n\
    \x20 const data = { text, recording: '', names: new Map(), marks: [], signals: [], count: 0, chosen: 0, orig\
    in: 0n };\n\
    \x20 const [counts, ...notes] = text.slice(text.lastIndexOf('\\n#end ') + 1).split('\\n');\n\
    \x20 const count = data.count = +counts.split(' ')[1] || 0;\n\
    \x20 data.chosen = +counts.split(' ')[2] || 0;\n\
    \x20 readNotes(notes, data);\n\
    \x20 let at = text.indexOf('\\n') + 1;\n\
    \x20 Object.assign(data, {\n\
    \x20   number: new Float64Array(count), channel: new Uint16Array(count), there: new Float64Array(count),\n\
    \x20   begin: new Float64Array(count), end: new Float64Array(count), ofDay: new Uint8Array(count),\n\
    \x20   words: new Uint32Array(count), size: new Uint16Array(count), values: new Uint32Array(count),\n\
    \x20   block: new Uint16Array(count), gaps: new Uint16Array(count),\n\
    \x20 });\n\
    \x20 const number = () => {\n\
    \x20   let value = 0;\n\
    \x20   for (let v; (v = VALUES[text.charCodeAt(at)]) < 64; at++) value = value * 64 + v;\n\
    \x20   at++;\n\
    \x20   return value;\n\
    \x20 };\n\
    \x20 let first = true;\n\
    \x20 for (let i = 0; i < count; i++) {\n\
    \x20   data.number[i] = number();\n\
    \x20   data.channel[i] = number();\n\
    \x20   data.there[i] = number();\n\
    \x20   if (text[at] === '-') { data.begin[i] = NaN; at += 2; } else {\n\
    \x20     if (text[at] === '@') { data.ofDay[i] = 1; at++; }\n\
    \x20     const from = at;\n\
    \x20     const ticks = number();\n\
    \x20     if (ticks > Number.MAX_SAFE_INTEGER) {\n\
    \x20       let exact = 0n;\n\
    \x20       for (let k = from; k < at - 1; k++) exact = exact * 64n + BigInt(VALUES[text.charCodeAt(k)]);\n\
    \x20       if (first) data.origin = exact;\n\
    \x20       data.begin[i] = Number(exact - data.origin);\n\
    \x20     } else data.begin[i] = ticks - Number(data.origin);\n\
    \x20     first = false;\n\
    \x20   }\n\
    \x20   data.words[i] = at;\n\
    \x20   while (VALUES[text.charCodeAt(at)] < 64) at++;\n\
    \x20   data.size[i] = (at - data.words[i]) / 3 - 2;\n\
    \x20   if (text[at] === ' ') { data.values[i] = at; at = text.indexOf('\\n', at); }\n\
    \x20   at++;\n\
    \x20   data.block[i] = wordAt(data, i, -2);\n\
    \x20   data.gaps[i] = wordAt(data, i, -1);\n\
    \x20 }\n\
    \x20 return data;\n\
    }\n\
    \n\
    // The word at a place of a message; its block status word and gap times word stand in front, at -2 and -1.\
    \n\
    function wordAt(data, i, place) {\n\
    \x20 const at = data.words[i] + 6 + 3 * place, text = data.text;\n\
    \x20 const value = (place) => VALUES[text.charCodeAt(place)];\n\
    \x20 return value(at) * 4096 + value(at + 1) * 64 + value(at + 2);\n\
    }\n\
    \n\
    // The values of signals of a message, as [index, text].\n\
    function valuesOf(data, i) {\n\
    \x20 if (!data.values[i]) return [];\n\
    \x20 const line = data.text.slice(data.values[i] + 1, data.text.indexOf('\\n', data.values[i]));\n\
    \x20 return line.split(' ').map((word) => {\n\
    \x20   const at = word.indexOf('=');\n\
    \x20   return [[...word.slice(0, at)].reduce((sum, l) => sum * 64 + VALUES[l.charCodeAt(0)], 0), word.slice(\
    at + 1)];\n\
    \x20 });\n\
    }\n\
    \n\
    // The signal at a place of the dictionary.\n\
    const signalAt = (data, index) => data.signals[index] || { name: `signal${index}`, named: false, unit: '' };\
    \n\
    \n\
    // ---------------------------------------------------------------------------------------------- the decode\
    \n\
    // Command and status words (MIL-STD-1553B 4.3.3.5).\n\
    const addressOf = (word) => word >> 11;\n\
    const transmits = (word) => (word >> 10 & 1) === 1;\n\
    const subaddressOf = (word) => word >> 5 & 31;\n\
    const isMode = (word) => subaddressOf(word) === 0 || subaddressOf(word) === 31;\n\
    const isBroadcast = (word) => addressOf(word) === 31;\n\
    const codeOf = (word) => word & 31;\n\
    const countOf = (word) => (word & 31) || 32;\n\
    const hex = (word) => word.toString(16).toUpperCase().padStart(4, '0');\n\
    \n\
    const MODES = {\n\
    \x20 T0: 'dynamic bus control', T1: 'synchronize', T2: 'transmit status word', T3: 'initiate self test',\n\
    \x20 T4: 'transmitter shutdown', T5: 'override transmitter shutdown', T6: 'inhibit terminal flag',\n\
    \x20 T7: 'override inhibit terminal flag', T8: 'reset remote terminal', T16: 'transmit vector word',\n\
    \x20 R17: 'synchronize with data', T18: 'transmit last command', T19: 'transmit BIT word',\n\
    \x20 R20: 'selected transmitter shutdown', R21: 'override selected transmitter shutdown',\n\
    };\n\
    const modeKey = (word) => (transmits(word) ? 'T' : 'R') + codeOf(word);\n\
    \n\
    function modeName(word) {\n\
    \x20 const code = codeOf(word), key = modeKey(word);\n\
    \x20 const kept = code >= 22 || transmits(word) && code >= 9 && code <= 15;\n\
    \x20 return MODES[key] || (kept ? 'reserved' : 'undefined') + (transmits(word) ? ', T/R 1' : ', T/R 0');\n\
    }\n\
    \n\
    // How many data words go with a command.\n\
    function dataWordsOf(word) {\n\
    \x20 if (!isMode(word)) return countOf(word);\n\
    \x20 const code = codeOf(word);\n\
    \x20 if (transmits(word)) return code === 16 || code === 18 || code === 19 || code >= 22 ? 1 : 0;\n\
    \x20 return code === 17 || code >= 20 ? 1 : 0;\n\
    }\n\
    \n\
    // Which words of a message are commands, status words and data words, by its block status word and gap time\
    s word.\n\
    function layoutOf(data, i) {\n\
    \x20 const words = data.size[i], between = (data.block[i] >> 11 & 1) === 1;\n\
    \x20 const first = data.gaps[i] & 255, second = data.gaps[i] >> 8;\n\
    \x20 const commands = words === 0 ? 0 : between && words > 1 ? 2 : 1;\n\
    \x20 const command = words ? wordAt(data, i, 0) : 0;\n\
    \x20 const front = commands < words && first !== 0 && (between || transmits(command) && !isBroadcast(command\
    ));\n\
    \x20 const start = front ? commands + 1 : commands;\n\
    \x20 const last = between ? second : front ? 0 : first;\n\
    \x20 const back = start < words && last !== 0;\n\
    \x20 return { words, commands, start, end: back ? words - 1 : words, front, back, between, first, second, la\
    st };\n\
    }\n\
    \n\
    // The tick at which a word begins, behind the begin of its message.\n\
    function wordBegin(layout, place) {\n\
    \x20 const pause = (gap) => Math.max(0, gap - 20);\n\
    \x20 return WORD_TIME * place + (layout.front && place >= layout.commands ? pause(layout.first) : 0) +\n\
    \x20   (layout.back && place >= layout.end ? pause(layout.last) : 0);\n\
    }\n\
    \n\
    // The form of a message by its first command words: its word in a script, and whom it calls.\n\
    const FORMS = ['rx', 'tx', 'rt', 'mode', 'brx', 'brt', 'bmode', 'unknown'];\n\
    function formOfCommand(word) {\n\
    \x20 if (isMode(word)) return isBroadcast(word) ? 'bmode' : 'mode';\n\
    \x20 if (transmits(word)) return isBroadcast(word) ? 'unknown' : 'tx';\n\
    \x20 return isBroadcast(word) ? 'brx' : 'rx';\n\
    }\n\
    function formOf(data, i) {\n\
    \x20 if (data.size[i] === 0) return 'unknown';\n\
    \x20 const first = wordAt(data, i, 0);\n\
    \x20 if (!(data.block[i] >> 11 & 1) || data.size[i] < 2) return formOfCommand(first);\n\
    \x20 const second = wordAt(data, i, 1);\n\
    \x20 const fits = !transmits(first) && !isMode(second) && transmits(second) && !isBroadcast(second) &&\n\
    \x20   countOf(first) === countOf(second);\n\
    \x20 return fits ? isBroadcast(first) ? 'brt' : 'rt' : 'unknown';\n\
    }\n\
    \n\
    // A form in the words of a script.\n\
    function formText(form, first, second) {\n\
    \x20 const zero = subaddressOf(first) === 0 ? '0' : '';\n\
    \x20 switch (form) {\n\
    \x20   case 'rx': case 'tx': return `${form} ${addressOf(first)} ${subaddressOf(first)} ${countOf(first)}`;\
    \n\
    \x20   case 'brx': return `brx ${subaddressOf(first)} ${countOf(first)}`;\n\
    \x20   case 'mode': return `mode${zero} ${addressOf(first)} ${codeOf(first)} ${modeName(first)}`;\n\
    \x20   case 'bmode': return `bmode${zero} ${codeOf(first)} ${modeName(first)}`;\n\
    \x20   case 'rt': return `rt ${addressOf(second)} ${subaddressOf(second)} ${addressOf(first)} ` +\n\
    \x20     `${subaddressOf(first)} ${countOf(first)}`;\n\
    \x20   case 'brt': return `brt ${addressOf(second)} ${subaddressOf(second)} ${subaddressOf(first)} ${countOf\
    (first)}`;\n\
    \x20   default: return 'no known form';\n\
    \x20 }\n\
    }\n\
    \n\
    const STATUS_BITS = [[1 << 10, 'message_error'], [1 << 9, 'instrumentation'], [1 << 8, 'service_request'],\n\
    \x20 [7 << 5, 'reserved'], [1 << 4, 'broadcast'], [1 << 3, 'busy'], [1 << 2, 'subsystem'], [1 << 1, 'control\
    '],\n\
    \x20 [1, 'terminal']];\n\
    const BLOCK_BITS = [[12, 'message_error'], [11, 'terminal_to_terminal'], [10, 'format_error'],\n\
    \x20 [9, 'response_timeout'], [5, 'word_count_error'], [4, 'sync_type_error'], [3, 'invalid_word_error']];\n\
    const bitNames = (status) => STATUS_BITS.filter(([bits]) => status & bits).map(([, name]) => ' ' + name).joi\
    n('');\n\
    const blockNames = (block) => BLOCK_BITS.filter(([bit]) => block >> bit & 1).map(([, name]) => ' ' + name).j\
    oin('');\n\
    const gapText = (gap) => ` ${Math.floor(gap / 10)}.${gap % 10} us`;\n\
    \n\
    function replyText(status, due, gap) {\n\
    \x20 return hex(status) + (addressOf(status) !== due ? ` from ${addressOf(status)}` : '') + bitNames(status)\
    \x20+\n\
    \x20   gapText(gap);\n\
    }\n\
    \n\
    // The place of a second command, which supersedes the first (MIL-STD-1553B 4.4.3.2), or -1.\n\
    function secondCommand(data, i, layout) {\n\
    \x20 const suspect = (data.block[i] >> 5 & 1 || data.block[i] >> 4 & 1) && layout.first !== 0 && layout.seco\
    nd === 0;\n\
    \x20 if (!suspect) return -1;\n\
    \x20 const word = (place) => place < layout.words ? wordAt(data, i, place) : 0;\n\
    \x20 if (layout.front) {\n\
    \x20   const status = word(layout.commands);\n\
    \x20   const own = addressOf(status) === addressOf(word(layout.commands - 1)) && !(status & 0x2E0);\n\
    \x20   if (own) return -1;\n\
    \x20 }\n\
    \x20 const first = word(0);\n\
    \x20 const most = layout.commands === 2 || transmits(first) ? 0 : dataWordsOf(first);\n\
    \x20 for (let place = layout.commands; place <= layout.commands + most; place++) {\n\
    \x20   const command = word(place), answer = word(transmits(command) ? place + 1 : layout.words - 1);\n\
    \x20   const answerable = !isBroadcast(command) && (!isMode(command) || MODES[modeKey(command)]);\n\
    \x20   const whole = layout.words === place + 2 + dataWordsOf(command);\n\
    \x20   const excused = transmits(command) && layout.words === place + 2 && answer & 0x408;\n\
    \x20   if (place + 1 < layout.words && answerable && addressOf(answer) === addressOf(command) && (whole || e\
    xcused)) {\n\
    \x20     return place;\n\
    \x20   }\n\
    \x20 }\n\
    \x20 return -1;\n\
    }\n\
    \n\
    // From where on the words of a message can't be told apart, or -1.\n\
    function unclearFrom(data, i, layout) {\n\
    \x20 if (!(data.block[i] >> 5 & 1)) return -1;\n\
    \x20 const address = (place) => addressOf(wordAt(data, i, place));\n\
    \x20 if (layout.front && address(layout.commands) !== address(layout.commands - 1)) return layout.commands;\
    \n\
    \x20 return layout.back && address(layout.end) !== address(0) ? layout.start : -1;\n\
    }\n\
    \n\
    // The status words as they stand in a dump, and which words are shown as data words.\n\
    function repliesOf(data, i, layout) {\n\
    \x20 const word = (place) => wordAt(data, i, place), { commands, words } = layout;\n\
    \x20 const front = layout.front ? replyText(word(commands), addressOf(word(commands - 1)), layout.first) : '\
    ';\n\
    \x20 const second = secondCommand(data, i, layout);\n\
    \x20 if (second >= 0) {\n\
    \x20   const command = word(second), sends = transmits(command);\n\
    \x20   const reply = replyText(word(sends ? second + 1 : words - 1), addressOf(command), layout.first);\n\
    \x20   return {\n\
    \x20     text: `second command ${formText(formOfCommand(command), command)}: ${reply}`, from: commands, to: \
    second,\n\
    \x20     then: sends ? [second + 2, words] : [second + 1, words - 1],\n\
    \x20   };\n\
    \x20 }\n\
    \x20 const unclear = unclearFrom(data, i, layout);\n\
    \x20 if (unclear >= 0) {\n\
    \x20   const told = commands < unclear;\n\
    \x20   return {\n\
    \x20     text: (told ? front + ', ' : '') + 'words not told apart' + (!told && layout.first ? gapText(layout\
    .first) : '') +\n\
    \x20       (layout.second ? gapText(layout.second) : ''), from: unclear, to: words, then: [0, 0],\n\
    \x20   };\n\
    \x20 }\n\
    \x20 const parts = [];\n\
    \x20 if (layout.front) parts.push(front);\n\
    \x20 if (layout.back) parts.push(replyText(word(layout.end), addressOf(word(0)), layout.last));\n\
    \x20 const firstTold = layout.front || layout.back && !layout.between;\n\
    \x20 if (!firstTold && layout.first) parts.push('no status word' + gapText(layout.first));\n\
    \x20 if (!(layout.back && layout.between) && layout.second) parts.push('no status word' + gapText(layout.sec\
    ond));\n\
    \x20 return { text: parts.join(', ') || '-', from: layout.start, to: layout.end, then: [0, 0] };\n\
    }\n\
    \n\
    function wordsText(data, i, from, to) {\n\
    \x20 let text = '';\n\
    \x20 for (let place = from; place < to; place++) text += ' ' + hex(wordAt(data, i, place));\n\
    \x20 return text;\n\
    }\n\
    \n\
    // What stands in the columns of a message.\n\
    function partsOf(data, i) {\n\
    \x20 const layout = layoutOf(data, i), form = formOf(data, i), block = data.block[i];\n\
    \x20 const first = layout.words ? wordAt(data, i, 0) : 0, second = layout.words > 1 ? wordAt(data, i, 1) : 0\
    ;\n\
    \x20 const known = form !== 'unknown';\n\
    \x20 const replies = known ? repliesOf(data, i, layout)\n\
    \x20   : { text: `block ${hex(block)} gaps ${hex(data.gaps[i])}`, from: 0, to: layout.words, then: [0, 0] };\
    \n\
    \x20 const told = ([index, text]) => {\n\
    \x20   const signal = signalAt(data, index);\n\
    \x20   return ` ${signal.name}=${text}${signal.unit ? ' ' + signal.unit : ''}`;\n\
    \x20 };\n\
    \x20 return {\n\
    \x20   number: String(data.number[i]), seconds: secondsText(data, data.begin[i]), channel: String(data.chann\
    el[i]),\n\
    \x20   there: String(data.there[i]), line: block >> 13 & 1 ? 'B' : 'A', form: formText(form, first, second),\
    \n\
    \x20   replies: replies.text, words: wordsText(data, i, replies.from, replies.to),\n\
    \x20   then: replies.then[0] < replies.then[1] ? ' then' + wordsText(data, i, ...replies.then) : '',\n\
    \x20   values: known ? valuesOf(data, i).map(told).join('') : '', names: blockNames(block), layout,\n\
    \x20 };\n\
    }\n\
    \n\
    // A message as a line of `bench dump --decode`, column by column.\n\
    function decodeLine(data, i) {\n\
    \x20 const p = partsOf(data, i);\n\
    \x20 const pad = (text, column) => text + ' '.repeat(Math.max(1, column - text.length));\n\
    \x20 let line = p.number.padStart(7) + ' ';\n\
    \x20 line = p.seconds === '-' ? line.padEnd(20) + '-' : line + p.seconds.padStart(13);\n\
    \x20 line = pad(line + ' ' + p.channel.padStart(7) + ' ' + p.there.padStart(7), 38);\n\
    \x20 line = pad(pad(line + p.line, 43) + p.form, 77) + p.replies;\n\
    \x20 if (p.words || p.names) line = line.padEnd(102) + p.words;\n\
    \x20 if (p.then) line = line.padEnd(102) + p.then;\n\
    \x20 return line + p.values + p.names;\n\
    }\n\
    \n\
    // ---------------------------------------------------------------------------------------------- times\n\
    function secondsText(data, offset) {\n\
    \x20 if (Number.isNaN(offset)) return '-';\n\
    \x20 const ticks = data.origin + BigInt(Math.round(offset)), whole = ticks / 10000000n;\n\
    \x20 return `${whole}.${String(ticks - whole * 10000000n).padStart(7, '0')}`;\n\
    }\n\
    \n\
    // A time as --from and --to take it.\n\
    const optionText = (data, offset) => secondsText(data, offset).replace(/\\.?0+$/, '') + 's';\n\
    \n\
    // A length of time.\n\
    function lengthText(ticks) {\n\
    \x20 const [unit, size] = ticks >= SECOND ? ['s', SECOND] : ticks >= 1e4 ? ['ms', 1e4] : ['\\u00b5s', 10];\n\
    \x20 return `${+(ticks / size).toPrecision(4)} ${unit}`;\n\
    }\n\
    \n\
    // The time of day: that of the last time packet at or before a stamp, and what has passed since.\n\
    function dayText(data, offset, ofDay) {\n\
    \x20 const pad = (n, digits = 2) => String(n).padStart(digits, '0');\n\
    \x20 const clock = (ticks) => {\n\
    \x20   const second = Number(ticks / 10000000n % 86400n);\n\
    \x20   return `${pad(Math.floor(second / 3600))}:${pad(Math.floor(second / 60) % 60)}:${pad(second % 60)}` +\
    \n\
    \x20     `.${pad(ticks % 10000000n, 7)}`;\n\
    \x20 };\n\
    \x20 const utc = (ticks) => new Date(Number(ticks / 864000000000n) * 864e5).toISOString().slice(0, 11) + clo\
    ck(ticks);\n\
    \x20 const ticks = data.origin + BigInt(Math.round(offset));\n\
    \x20 if (ofDay) return utc(ticks);\n\
    \x20 let mark = null;\n\
    \x20 for (let low = 0, high = data.marks.length; low < high;) {\n\
    \x20   const middle = low + high >> 1;\n\
    \x20   if (data.marks[middle].stamp <= ticks) { mark = data.marks[middle]; low = middle + 1; } else high = m\
    iddle;\n\
    \x20 }\n\
    \x20 if (!mark) return '';\n\
    \x20 const now = mark.ticks + ticks - mark.stamp;\n\
    \x20 return mark.ofYear ? `${pad(now / 864000000000n + 1n, 3)}:${clock(now)}` : utc(now);\n\
    }\n\
    \n\
    // ---------------------------------------------------------------------------------------------- tracks\n\
    // Messages of a lane in the order of their times, with sums that tell the load and the errors of any span a\
    t once.\n\
    ";
