//! Part 2 of what stands behind the data of a page: its script. `page/make` makes it.

pub(crate) static SCRIPT_2: &str = "\
    class Track {\n\
    \x20 constructor(data, places) {\n\
    \x20   const timed = places.filter((i) => !Number.isNaN(data.begin[i]));\n\
    \x20   let sorted = true;\n\
    \x20   for (let k = 1; k < timed.length && sorted; k++) sorted = data.begin[timed[k - 1]] <= data.begin[time\
    d[k]];\n\
    \x20   if (!sorted) timed.sort((a, b) => data.begin[a] - data.begin[b] || a - b);\n\
    \x20   this.places = Uint32Array.from(timed);\n\
    \x20   const count = this.count = timed.length;\n\
    \x20   this.begin = new Float64Array(count);\n\
    \x20   this.end = new Float64Array(count);\n\
    \x20   this.busy = new Float64Array(count + 1);\n\
    \x20   this.errors = new Uint32Array(count + 1);\n\
    \x20   this.matched = null;\n\
    \x20   for (let k = 0; k < count; k++) {\n\
    \x20     const i = timed[k];\n\
    \x20     this.begin[k] = data.begin[i];\n\
    \x20     this.end[k] = data.end[i];\n\
    \x20     this.busy[k + 1] = this.busy[k] + this.end[k] - this.begin[k];\n\
    \x20     this.errors[k + 1] = this.errors[k] + (data.block[i] >> 12 & 1);\n\
    \x20   }\n\
    \x20 }\n\
    \n\
    \x20 // The first message that begins at a time or behind it.\n\
    \x20 from(time) {\n\
    \x20   let low = 0, high = this.count;\n\
    \x20   while (low < high) {\n\
    \x20     const middle = low + high >> 1;\n\
    \x20     if (this.begin[middle] < time) low = middle + 1; else high = middle;\n\
    \x20   }\n\
    \x20   return low;\n\
    \x20 }\n\
    \n\
    \x20 // The first message that ends behind a time.\n\
    \x20 endingBehind(time) {\n\
    \x20   const k = this.from(time);\n\
    \x20   return k > 0 && this.end[k - 1] > time ? k - 1 : k;\n\
    \x20 }\n\
    \n\
    \x20 // How many ticks up to a time messages took, by these sums; so many of them begin before it.\n\
    \x20 upTo(time, sums, k = this.from(time)) {\n\
    \x20   if (k === 0) return 0;\n\
    \x20   const open = this.end[k - 1] > time ? (this.end[k - 1] - time) / (this.end[k - 1] - this.begin[k - 1]\
    ) : 0;\n\
    \x20   return sums[k] - open * (sums[k] - sums[k - 1]);\n\
    \x20 }\n\
    \n\
    \x20 // Of so many columns of a step each: the load, that of what a filter leaves, and how many errors there\
    \x20are.\n\
    \x20 columns(from, step, count) {\n\
    \x20   const found = { load: new Float64Array(count), matched: new Float64Array(count), errors: new Uint32Ar\
    ray(count) };\n\
    \x20   const { busy, matched, errors } = this;\n\
    \x20   let k = this.from(from), all = this.upTo(from, busy, k), left = matched ? this.upTo(from, matched, k)\
    \x20: 0;\n\
    \x20   for (let c = 0; c < count; c++) {\n\
    \x20     const time = from + (c + 1) * step, next = this.from(time), sum = this.upTo(time, busy, next);\n\
    \x20     found.load[c] = (sum - all) / step;\n\
    \x20     found.errors[c] = errors[next] - errors[k];\n\
    \x20     if (matched) {\n\
    \x20       const other = this.upTo(time, matched, next);\n\
    \x20       found.matched[c] = (other - left) / step;\n\
    \x20       left = other;\n\
    \x20     }\n\
    \x20     k = next;\n\
    \x20     all = sum;\n\
    \x20   }\n\
    \x20   return found;\n\
    \x20 }\n\
    \n\
    \x20 // The part of a span that messages took.\n\
    \x20 load(from, to) { return this.columns(from, to - from, 1).load[0]; }\n\
    \n\
    \x20 // Takes over which messages a filter leaves; none where all are.\n\
    \x20 match(matches) {\n\
    \x20   this.matched = matches ? new Float64Array(this.count + 1) : null;\n\
    \x20   for (let k = 0; matches && k < this.count; k++) {\n\
    \x20     this.matched[k + 1] = this.matched[k] + (matches[this.places[k]] ? this.end[k] - this.begin[k] : 0)\
    ;\n\
    \x20   }\n\
    \x20 }\n\
    }\n\
    \n\
    // Whether a time is a period, but for an eighth of it.\n\
    const isNear = (time, period) => Math.abs(time - period) <= period / 8;\n\
    \n\
    // The period of a command's messages: the time from one to the next in the middle of all by size, where thr\
    ee in four\n\
    // are near it; 0 where there is none.\n\
    function periodOf(begins) {\n\
    \x20 const times = Float64Array.from(begins.slice(1), (begin, k) => begin - begins[k]).sort();\n\
    \x20 const middle = times.length < 3 ? 0 : times[times.length >> 1];\n\
    \x20 return middle > 0 && times.filter((time) => isNear(time, middle)).length * 4 >= times.length * 3 ? midd\
    le : 0;\n\
    }\n\
    \n\
    // The commands of a channel that recur with a period, each with the begins of the frames that it would begi\
    n.\n\
    function rhythmsOf(data, places) {\n\
    \x20 const commands = new Map();\n\
    \x20 let latest = -Infinity;\n\
    \x20 for (const i of places) {\n\
    \x20   const between = data.block[i] >> 11 & 1 && data.size[i] > 1;\n\
    \x20   const key = (wordAt(data, i, 0) * 65536 + (between ? wordAt(data, i, 1) : 0)) * 2 + (data.block[i] >>\
    \x2013 & 1);\n\
    \x20   if (!commands.has(key) && commands.size < 64) commands.set(key, { begins: [], pause: Infinity });\n\
    \x20   const command = commands.get(key);\n\
    \x20   if (command) {\n\
    \x20     command.begins.push(data.begin[i]);\n\
    \x20     command.pause = Math.min(command.pause, data.begin[i] - latest);\n\
    \x20   }\n\
    \x20   latest = Math.max(latest, data.end[i]);\n\
    \x20 }\n\
    \x20 if (commands.size < 2) return [];\n\
    \x20 const found = [...commands.values()].map(({ begins, pause }) => ({ period: periodOf(begins), pause, beg\
    ins }));\n\
    \x20 return found.filter(({ period }) => period > 0).map((one) => {\n\
    \x20   let next = -Infinity;\n\
    \x20   const kept = one.begins.filter((begin) => begin >= next && ((next = begin + one.period * 7 / 8), true\
    ));\n\
    \x20   return { ...one, begins: Float64Array.from(kept) };\n\
    \x20 });\n\
    }\n\
    \n\
    // The frames that are marked where so many ticks have the room of a mark: those of the shortest period that\
    \x20has it,\n\
    // begun by the command with the longest pause in front of it.\n\
    function framesOf(rhythms, least) {\n\
    \x20 let best = null;\n\
    \x20 for (const one of rhythms) {\n\
    \x20   if (one.period < least) continue;\n\
    \x20   const better = !best || (isNear(one.period, best.period) ? one.pause > best.pause : one.period < best\
    .period);\n\
    \x20   if (better) best = one;\n\
    \x20 }\n\
    \x20 return best;\n\
    }\n\
    \n\
    // The values of a signal in a channel over time, in blocks with the least and the greatest of each.\n\
    class Series {\n\
    \x20 constructor(signal, channel, points) {\n\
    \x20   points.sort((a, b) => a[0] - b[0]);\n\
    \x20   const count = this.count = points.length;\n\
    \x20   Object.assign(this, { signal, channel, texts: points.map((point) => point[1]) });\n\
    \x20   this.begin = Float64Array.from(points, (point) => point[0]);\n\
    \x20   this.value = Float64Array.from(this.texts, (text) => (text === '' ? NaN : Number(text)));\n\
    \x20   this.runs = Uint32Array.from(this.texts.keys()).filter((k) => k === 0 || this.texts[k] !== this.texts\
    [k - 1]);\n\
    \x20   this.names = new Map();\n\
    \x20   for (const k of signal.named ? this.runs : []) {\n\
    \x20     if (!this.names.has(this.texts[k])) this.names.set(this.texts[k], this.names.size);\n\
    \x20   }\n\
    \x20   this.low = new Float64Array(Math.ceil(count / 16)).fill(Infinity);\n\
    \x20   this.high = new Float64Array(Math.ceil(count / 16)).fill(-Infinity);\n\
    \x20   for (let k = 0; k < count; k++) {\n\
    \x20     if (this.value[k] < this.low[k >> 4]) this.low[k >> 4] = this.value[k];\n\
    \x20     if (this.value[k] > this.high[k >> 4]) this.high[k >> 4] = this.value[k];\n\
    \x20   }\n\
    \x20 }\n\
    \n\
    \x20 // The place of the value that stands at a time, -1 in front of the first.\n\
    \x20 at(time) {\n\
    \x20   let low = 0, high = this.count;\n\
    \x20   while (low < high) {\n\
    \x20     const middle = low + high >> 1;\n\
    \x20     if (this.begin[middle] <= time) low = middle + 1; else high = middle;\n\
    \x20   }\n\
    \x20   return low - 1;\n\
    \x20 }\n\
    \n\
    \x20 // The least and the greatest from one place up to another.\n\
    \x20 range(from, to) {\n\
    \x20   let low = Infinity, high = -Infinity;\n\
    \x20   for (let k = from; k < to;) {\n\
    \x20     const whole = (k & 15) === 0 && k + 16 <= to;\n\
    \x20     low = Math.min(low, whole ? this.low[k >> 4] : Number.isNaN(this.value[k]) ? Infinity : this.value[\
    k]);\n\
    \x20     high = Math.max(high, whole ? this.high[k >> 4] : Number.isNaN(this.value[k]) ? -Infinity : this.va\
    lue[k]);\n\
    \x20     k += whole ? 16 : 1;\n\
    \x20   }\n\
    \x20   return [low, high];\n\
    \x20 }\n\
    }\n\
    \n\
    // What lies over all: the lanes of lines and of terminals, the frames, the plots, and what a filter asks of\
    \x20messages.\n\
    function indexData(data) {\n\
    \x20 const { count } = data;\n\
    \x20 const byKey = (map, key, i) => { const list = map.get(key); if (list) list.push(i); else map.set(key, [\
    i]); };\n\
    \x20 const lines = new Map(), terminals = new Map(), channels = new Map(), points = new Map();\n\
    \x20 data.form = new Uint8Array(count);\n\
    \x20 data.called = new Uint32Array(count);\n\
    \x20 for (let i = 0; i < count; i++) {\n\
    \x20   const layout = layoutOf(data, i), form = formOf(data, i), channel = data.channel[i];\n\
    \x20   data.form[i] = FORMS.indexOf(form);\n\
    \x20   data.end[i] = data.begin[i] + Math.max(WORD_TIME, wordBegin(layout, layout.words));\n\
    \x20   const first = layout.words ? wordAt(data, i, 0) : 0;\n\
    \x20   const second = layout.commands === 2 ? wordAt(data, i, 1) : first;\n\
    \x20   data.called[i] = first * 65536 + second;\n\
    \x20   byKey(channels, channel, i);\n\
    \x20   byKey(lines, channel * 2 + (data.block[i] >> 13 & 1), i);\n\
    \x20   if (layout.words) byKey(terminals, channel * 32 + addressOf(first), i);\n\
    \x20   if (layout.words && addressOf(second) !== addressOf(first)) byKey(terminals, channel * 32 + addressOf\
    (second), i);\n\
    \x20   for (const [index, text] of Number.isNaN(data.begin[i]) ? [] : valuesOf(data, i)) {\n\
    \x20     byKey(points, index * 65536 + channel, [data.begin[i], text]);\n\
    \x20   }\n\
    \x20 }\n\
    \x20 const inOrder = (map) => [...map.keys()].sort((a, b) => a - b);\n\
    \x20 data.whole = new Track(data, [...Array(count).keys()]);\n\
    \x20 data.channels = inOrder(channels).map((channel) => {\n\
    \x20   const places = channels.get(channel).filter((i) => !Number.isNaN(data.begin[i]));\n\
    \x20   const all = new Track(data, places);\n\
    \x20   return {\n\
    \x20     channel, name: data.names.get(channel) || '', all, rhythms: rhythmsOf(data, all.places),\n\
    \x20     lines: [0, 1].map((line) => new Track(data, lines.get(channel * 2 + line) || [])),\n\
    \x20     terminals: inOrder(terminals).filter((key) => key >> 5 === channel)\n\
    \x20       .map((key) => ({ address: key & 31, track: new Track(data, terminals.get(key)) })),\n\
    \x20   };\n\
    \x20 });\n\
    \x20 data.series = inOrder(points).map((key) => {\n\
    \x20   const index = Math.floor(key / 65536);\n\
    \x20   return new Series(signalAt(data, index), key % 65536, points.get(key));\n\
    \x20 });\n\
    \x20 data.errors = Uint32Array.from(data.whole.places.filter((i) => data.block[i] >> 12 & 1));\n\
    \x20 const { begin, end } = data.whole;\n\
    \x20 data.first = begin.length ? begin[0] : 0;\n\
    \x20 data.last = end.reduce((last, time) => Math.max(last, time), data.first + 10);\n\
    \x20 return data;\n\
    }\n\
    \n\
    // ---------------------------------------------------------------------------------------------- the pictur\
    e\n\
    const GUTTER = 152;\n\
    const OVERVIEW = 34;\n\
    const AXIS = 26;\n\
    const LANE = 46;\n\
    const ROW = 15;\n\
    const PLOT = 58;\n\
    \n\
    // What is seen: a span of time, a message that is chosen, where in x the mouse is, and how the lanes are.\n\
    const seen = { from: 0, to: 1, chosen: -1, cursor: null, mode: 'lines', matches: null, drawn: null };\n\
    let data = null, colors = {};\n\
    \n\
    // The rows of the picture from the top, each with its height and how it is drawn.\n\
    function rowsOf() {\n\
    \x20 const rows = [{ kind: 'overview', height: OVERVIEW, columns: overview }, { kind: 'axis', height: AXIS }\
    ];\n\
    \x20 for (const channel of data.channels) {\n\
    \x20   if (seen.mode === 'lines') {\n\
    \x20     channel.lines.forEach((track, line) => rows.push({ kind: 'lane', height: LANE, channel, track, line\
    \x20}));\n\
    \x20   } else {\n\
    \x20     rows.push({ kind: 'heading', height: ROW + 5, channel });\n\
    \x20     for (const { address, track } of channel.terminals) {\n\
    \x20       rows.push({ kind: 'terminal', height: ROW, channel, track, address });\n\
    \x20     }\n\
    \x20   }\n\
    \x20 }\n\
    \x20 for (const series of data.series) rows.push({ kind: 'plot', height: PLOT, series });\n\
    \x20 let top = 0;\n\
    \x20 for (const row of rows) { row.top = top; top += row.height; }\n\
    \x20 return { rows, height: top + 6 };\n\
    }\n\
    \n\
    const toX = (time) => GUTTER + (time - seen.from) / (seen.to - seen.from) * (canvasSize.width - GUTTER);\n\
    const toTime = (x) => seen.from + (x - GUTTER) / (canvasSize.width - GUTTER) * (seen.to - seen.from);\n\
    const canvasSize = { width: 1000, height: 300, ratio: 1 };\n\
    \n\
    // The time whose values are told: at the mouse, else at the chosen message, else at the end of what is seen\
    .\n\
    function toldTime() {\n\
    \x20 if (seen.cursor !== null) return toTime(seen.cursor);\n\
    \x20 const begin = seen.chosen >= 0 ? data.begin[seen.chosen] : NaN;\n\
    \x20 return begin >= seen.from && begin <= seen.to ? begin : seen.to;\n\
    }\n\
    \n\
    function readColors() {\n\
    \x20 const style = getComputedStyle(document.documentElement);\n\
    \x20 for (const name of ['page', 'panel', 'ink', 'soft', 'rule', 'accent', 'chosen', 'load', 'loaded', 'matc\
    h', 'command',\n\
    \x20   'data', 'status', 'error', 'frame', 'plot', 'inbar', 'hover']) {\n\
    \x20   colors[name] = style.getPropertyValue('--' + name).trim();\n\
    \x20 }\n\
    }\n\
    \n\
    // (the height comes first: with it the bar that scrolls the lanes comes or goes, and the width with that)\n\
    function sizeCanvas() {\n\
    \x20 const canvas = byId('canvas'), { height } = rowsOf(), ratio = window.devicePixelRatio || 1;\n\
    \x20 canvas.style.height = height + 'px';\n\
    \x20 const width = byId('lanes').clientWidth;\n\
    \x20 if (canvasSize.width !== width) overview = null;\n\
    \x20 Object.assign(canvasSize, { width, height, ratio });\n\
    \x20 canvas.width = Math.round(width * ratio);\n\
    \x20 canvas.height = Math.round(height * ratio);\n\
    }\n\
    \n\
    // Draws anew with the next picture of the screen.\n\
    let asked = false;\n\
    function redraw() {\n\
    \x20 if (asked) return;\n\
    \x20 asked = true;\n\
    \x20 requestAnimationFrame(() => { asked = false; draw(); });\n\
    }\n\
    \n\
    function draw() {\n\
    \x20 if (byId('lanes').clientWidth !== canvasSize.width) sizeCanvas();\n\
    \x20 const pen = byId('canvas').getContext('2d');\n\
    \x20 pen.setTransform(canvasSize.ratio, 0, 0, canvasSize.ratio, 0, 0);\n\
    \x20 pen.clearRect(0, 0, canvasSize.width, canvasSize.height);\n\
    \x20 pen.textBaseline = 'middle';\n\
    \x20 const layout = rowsOf();\n\
    \x20 const drawers = { overview: drawOverview, axis: drawAxis, lane: drawLane, heading: drawHeading,\n\
    \x20   terminal: drawTerminal, plot: drawPlot };\n\
    \x20 drawFrames(pen, layout.rows);\n\
    \x20 for (const row of layout.rows) drawers[row.kind](pen, row);\n\
    \x20 drawCursor(pen, layout);\n\
    }\n\
    \n\
    function write(pen, text, x, y, color, font = '12px system-ui, sans-serif', align = 'left') {\n\
    \x20 pen.font = font;\n\
    \x20 pen.textAlign = align;\n\
    \x20 pen.fillStyle = color;\n\
    \x20 pen.fillText(text, x, y);\n\
    }\n\
    const SMALL = '11px system-ui, sans-serif';\n\
    const TINY = '10px system-ui, sans-serif';\n\
    const CODE = '11px ui-monospace, Menlo, Consolas, \"DejaVu Sans Mono\", monospace';\n\
    const BOLD = '600 12px system-ui, sans-serif';\n\
    \n\
    // The columns of the overview, which are those of each picture of a width.\n\
    let overview = null;\n\
    \n\
    // The whole recording: the load of all channels, where errors are, and what is seen of it.\n\
    function drawOverview(pen, row) {\n\
    \x20 const width = canvasSize.width - GUTTER, span = data.last - data.first, foot = row.top + OVERVIEW - 5;\
    \n\
    \x20 write(pen, 'whole recording', 12, row.top + OVERVIEW / 2, colors.soft, SMALL);\n\
    \x20 if (!row.columns || row.columns.width !== width) {\n\
    \x20   row.columns = data.whole.columns(data.first, span / width * 2, Math.ceil(width / 2));\n\
    \x20   row.columns.width = width;\n\
    \x20   overview = row.columns;\n\
    \x20 }\n\
    \x20 const { load, errors } = row.columns;\n\
    \x20 for (let c = 0; c < load.length; c++) {\n\
    \x20   const high = Math.max(1, Math.min(1, Math.sqrt(Math.max(0, load[c]) / Math.max(1, data.channels.lengt\
    h))) * 22);\n\
    \x20   pen.fillStyle = colors.loaded;\n\
    \x20   if (load[c] > 0) pen.fillRect(GUTTER + c * 2, foot - high, 2, high);\n\
    \x20   pen.fillStyle = colors.error;\n\
    \x20   if (errors[c]) pen.fillRect(GUTTER + c * 2, row.top + 2, 2, 5);\n\
    \x20 }\n\
    \x20 const left = GUTTER + Math.max(0, (seen.from - data.first) / span) * width;\n\
    \x20 const right = GUTTER + Math.min(1, (seen.to - data.first) / span) * width - 1;\n\
    \x20 pen.strokeStyle = colors.accent;\n\
    \x20 pen.lineWidth = 1.5;\n\
    \x20 pen.globalAlpha = 0.12;\n\
    \x20 pen.fillStyle = colors.accent;\n\
    \x20 pen.fillRect(left, row.top + 1, Math.max(2, right - left), OVERVIEW - 4);\n\
    \x20 pen.globalAlpha = 1;\n\
    \x20 pen.strokeRect(left, row.top + 1, Math.max(2, right - left), OVERVIEW - 4);\n\
    \x20 pen.lineWidth = 1;\n\
    }\n\
    \n\
    // The step of an axis: 1, 2 or 5 times a power of ten ticks, with some room.\n\
    function stepOf(span, width) {\n\
    \x20 let step = 1;\n\
    \x20 for (let power = 1; ; power *= 10) {\n\
    \x20   for (const part of [1, 2, 5]) {\n\
    \x20     step = part * power;\n\
    \x20     if (step / span * width >= 90) return step;\n\
    \x20   }\n\
    \x20 }\n\
    }\n\
    \n\
    function drawAxis(pen, row) {\n\
    \x20 const step = stepOf(seen.to - seen.from, canvasSize.width - GUTTER), y = row.top + AXIS - 9;\n\
    \x20 const [unit, size] = step >= 1e6 ? ['s', SECOND] : step >= 1e3 ? ['ms', 1e4] : ['\\u00b5s', 10];\n\
    ";
