//! Part 3 of what stands behind the data of a page: its script. `page/make` makes it.

pub(crate) static SCRIPT_3: &str = "\
    \x20 write(pen, data.origin || data.whole.count && data.ofDay[data.whole.places[0]] ? `${unit}, from the beg\
    in` : unit,\n\
    \x20   12, y, colors.soft, SMALL);\n\
    \x20 // (of stamps that are times of day the axis counts from the first)\n\
    \x20 pen.strokeStyle = colors.rule;\n\
    \x20 pen.beginPath();\n\
    \x20 for (let tick = Math.ceil(seen.from / step) * step; tick <= seen.to; tick += step) {\n\
    \x20   const x = Math.round(toX(tick)) + 0.5;\n\
    \x20   pen.moveTo(x, row.top + AXIS - 3);\n\
    \x20   pen.lineTo(x, canvasSize.height);\n\
    \x20   const text = String(+(tick / size).toFixed(4)), half = pen.measureText(text).width / 2;\n\
    \x20   if (x + half < canvasSize.width) write(pen, text, x, y, colors.soft, SMALL, 'center');\n\
    \x20 }\n\
    \x20 pen.stroke();\n\
    }\n\
    \n\
    // What stands left of a row: a title, and lines below it; an empty one takes no room.\n\
    function drawLabel(pen, row, texts) {\n\
    \x20 const lines = texts.map((text, k) => [text, k ? colors.soft : colors.ink, k ? SMALL : BOLD]).filter(([t\
    ext]) => text);\n\
    \x20 pen.save();\n\
    \x20 pen.beginPath();\n\
    \x20 pen.rect(0, row.top + 1, GUTTER - 4, row.height - 2);\n\
    \x20 pen.clip();\n\
    \x20 pen.fillStyle = colors.panel;\n\
    \x20 pen.fillRect(0, row.top + 1, GUTTER - 1, row.height - 2);\n\
    \x20 const first = row.top + row.height / 2 - (lines.length - 1) * 7;\n\
    \x20 lines.forEach(([text, color, font], k) => write(pen, text, 12, first + 14 * k, color, font));\n\
    \x20 pen.restore();\n\
    }\n\
    \n\
    const channelText = (channel) => `channel ${channel.channel}`;\n\
    \n\
    // Where frames begin, as dashed lines over the lanes of a channel.\n\
    function drawFrames(pen, rows) {\n\
    \x20 for (const channel of data.channels) {\n\
    \x20   const own = rows.filter((row) => row.channel === channel);\n\
    \x20   if (!own.length) continue;\n\
    \x20   const frames = framesOf(channel.rhythms, (seen.to - seen.from) * 14 / (canvasSize.width - GUTTER));\n\
    \x20   channel.frames = frames;\n\
    \x20   if (!frames) continue;\n\
    \x20   const top = own[0].top + 1, end = own[own.length - 1].top + own[own.length - 1].height;\n\
    \x20   pen.strokeStyle = colors.frame;\n\
    \x20   pen.setLineDash([3, 3]);\n\
    \x20   pen.beginPath();\n\
    \x20   for (const begin of frames.begins) {\n\
    \x20     if (begin < seen.from || begin > seen.to) continue;\n\
    \x20     const x = Math.round(toX(begin)) - 0.5;\n\
    \x20     pen.moveTo(x, top);\n\
    \x20     pen.lineTo(x, end);\n\
    \x20   }\n\
    \x20   pen.stroke();\n\
    \x20   pen.setLineDash([]);\n\
    \x20 }\n\
    }\n\
    \n\
    function drawLane(pen, row) {\n\
    \x20 const { track, channel, line } = row, width = canvasSize.width - GUTTER;\n\
    \x20 pen.strokeStyle = colors.rule;\n\
    \x20 pen.beginPath();\n\
    \x20 pen.moveTo(0, row.top + (line ? LANE - 0.5 : 0.5));\n\
    \x20 pen.lineTo(canvasSize.width, row.top + (line ? LANE - 0.5 : 0.5));\n\
    \x20 pen.stroke();\n\
    \x20 const from = track.endingBehind(seen.from), to = track.from(seen.to), count = to - from;\n\
    \x20 const clear = count <= 24 || count * 5 <= width;\n\
    \x20 pen.save();\n\
    \x20 pen.beginPath();\n\
    \x20 pen.rect(GUTTER, row.top, width, LANE);\n\
    \x20 pen.clip();\n\
    \x20 const columns = track.columns(seen.from, (seen.to - seen.from) / width * 2, Math.ceil(width / 2));\n\
    \x20 if (clear) drawMessages(pen, row, from, to); else drawLoad(pen, row, columns);\n\
    \x20 drawErrors(pen, row, columns.errors);\n\
    \x20 pen.restore();\n\
    \x20 const load = count ? percentText(track.load(seen.from, seen.to)) : '';\n\
    \x20 const frames = channel.frames ? `frames of ${lengthText(channel.frames.period)}` : '';\n\
    \x20 drawLabel(pen, row, [line ? '' : channelText(channel), `line ${line ? 'B' : 'A'}   ${load}`,\n\
    \x20   line ? '' : channel.name || frames, line && channel.name ? frames : '']);\n\
    }\n\
    \n\
    // A part of the time in percent; one that is not none is never shown as 0.\n\
    const percentText = (part) => (part > 0 && part < 0.0005 ? '< 0.1 %' : `${(100 * part).toFixed(1)} %`);\n\
    \n\
    // The load of a lane in steps of two pixels, as a square root so that little is seen too; what a filter lea\
    ves is\n\
    // darker.\n\
    function drawLoad(pen, row, { load, matched }) {\n\
    \x20 const foot = row.top + LANE - 5, high = LANE - 16, { track } = row;\n\
    \x20 const put = (loads, color) => {\n\
    \x20   pen.fillStyle = color;\n\
    \x20   for (let c = 0; c < loads.length; c++) {\n\
    \x20     const height = Math.max(1, Math.min(1, Math.sqrt(Math.max(0, loads[c]))) * high);\n\
    \x20     if (loads[c] > 0) pen.fillRect(GUTTER + c * 2, foot - height, 2, height);\n\
    \x20   }\n\
    \x20 };\n\
    \x20 put(load, track.matched ? colors.load : colors.loaded);\n\
    \x20 if (track.matched) put(matched, colors.match);\n\
    }\n\
    \n\
    // Errors as red marks at the top of a lane, at every scale.\n\
    function drawErrors(pen, row, errors) {\n\
    \x20 pen.fillStyle = colors.error;\n\
    \x20 for (let c = 0; c < errors.length; c++) if (errors[c]) pen.fillRect(GUTTER + c * 2 - 1, row.top + 2, 4,\
    \x205);\n\
    }\n\
    \n\
    const isFaint = (i) => seen.matches && !seen.matches[i];\n\
    \n\
    // The messages of a lane as bars, down to their words.\n\
    function drawMessages(pen, row, from, to) {\n\
    \x20 const scale = (canvasSize.width - GUTTER) / (seen.to - seen.from), top = row.top + 19, height = LANE - \
    25;\n\
    \x20 let free = -1e9;\n\
    \x20 for (let k = from; k < to; k++) {\n\
    \x20   const i = row.track.places[k], left = toX(row.track.begin[k]), right = toX(row.track.end[k]);\n\
    \x20   pen.globalAlpha = isFaint(i) ? 0.2 : 1;\n\
    \x20   if (i === seen.chosen) {\n\
    \x20     pen.fillStyle = colors.chosen;\n\
    \x20     pen.fillRect(left - 3, row.top + 3, Math.max(8, right - left + 6), LANE - 6);\n\
    \x20   }\n\
    \x20   if (WORD_TIME * scale < 1.5) {\n\
    \x20     pen.fillStyle = colors.command;\n\
    \x20     pen.fillRect(left, top, Math.max(1.5, right - left), height);\n\
    \x20   } else drawWords(pen, i, left, scale, top, height);\n\
    \x20   if (data.block[i] >> 12 & 1) {\n\
    \x20     pen.fillStyle = colors.error;\n\
    \x20     pen.fillRect(left, top + height, Math.max(3, right - left), 3);\n\
    \x20   }\n\
    \x20   const label = `${data.number[i]}  ${shortForm(i)}`, bad = data.block[i] >> 12 & 1;\n\
    \x20   if (left > free && right > GUTTER) {\n\
    \x20     const x = Math.max(left + (bad ? 4 : 0), GUTTER + 2);\n\
    \x20     pen.font = SMALL;\n\
    \x20     const end = x + pen.measureText(label).width;\n\
    \x20     const next = k + 1 < to ? toX(row.track.begin[k + 1]) : Infinity;\n\
    \x20     if (end < canvasSize.width && (end < next || right - left > end - x)) {\n\
    \x20       write(pen, label, x, row.top + 12, bad ? colors.error : colors.soft, SMALL);\n\
    \x20       free = end + 6;\n\
    \x20     }\n\
    \x20   }\n\
    \x20 }\n\
    \x20 pen.globalAlpha = 1;\n\
    }\n\
    \n\
    // Whom a message calls: terminal, T or R, subaddress.\n\
    function shortForm(i) {\n\
    \x20 const form = FORMS[data.form[i]], first = Math.floor(data.called[i] / 65536), second = data.called[i] %\
    \x2065536;\n\
    \x20 const side = (word) => `${addressOf(word)}${transmits(word) ? 'T' : 'R'}${subaddressOf(word)}`;\n\
    \x20 if (form === 'rt') return `${side(second)}\\u2192${side(first)}`;\n\
    \x20 if (form === 'brt') return `${side(second)}\\u2192all`;\n\
    \x20 if (form === 'mode') return `${addressOf(first)} mode ${codeOf(first)}`;\n\
    \x20 if (form === 'bmode') return `all mode ${codeOf(first)}`;\n\
    \x20 if (form === 'brx') return `all R${subaddressOf(first)}`;\n\
    \x20 return form === 'unknown' ? '?' : side(first);\n\
    }\n\
    \n\
    // The words of a message: commands, status words and data words by their colours, with their digits where t\
    hey have\n\
    // the room.\n\
    function drawWords(pen, i, left, scale, top, height) {\n\
    \x20 const layout = layoutOf(data, i), width = Math.max(1, WORD_TIME * scale - (WORD_TIME * scale > 6 ? 1 : \
    0));\n\
    \x20 for (let place = 0; place < layout.words; place++) {\n\
    \x20   const x = left + wordBegin(layout, place) * scale;\n\
    \x20   if (x > canvasSize.width || x + width < GUTTER) continue;\n\
    \x20   const isCommand = place < layout.commands, isData = place >= layout.start && place < layout.end;\n\
    \x20   pen.fillStyle = isCommand ? colors.command : isData ? colors.data : colors.status;\n\
    \x20   pen.fillRect(x, top, width, height);\n\
    \x20   const from = Math.max(x, GUTTER), to = Math.min(x + width, canvasSize.width);\n\
    \x20   if (to - from < 32) continue;\n\
    \x20   write(pen, hex(wordAt(data, i, place)), (from + to) / 2, top + height / 2, colors.inbar, CODE, 'cente\
    r');\n\
    \x20 }\n\
    }\n\
    \n\
    function drawHeading(pen, row) {\n\
    \x20 drawLabel(pen, row, [channelText(row.channel)]);\n\
    \x20 const frames = row.channel.frames ? `   frames of ${lengthText(row.channel.frames.period)}` : '';\n\
    \x20 write(pen, row.channel.name + frames, GUTTER, row.top + row.height / 2, colors.soft, SMALL);\n\
    }\n\
    \n\
    // A terminal over time: the more it talked the darker, red where it had errors.\n\
    function drawTerminal(pen, row) {\n\
    \x20 const { track } = row, width = canvasSize.width - GUTTER, size = row.height - 2;\n\
    \x20 const from = track.endingBehind(seen.from), to = track.from(seen.to);\n\
    \x20 pen.fillStyle = colors.hover;\n\
    \x20 pen.fillRect(GUTTER, row.top, width, size);\n\
    \x20 if ((to - from) * 3 <= width) {\n\
    \x20   for (const bad of [0, 1]) {\n\
    \x20     for (let k = from; k < to; k++) {\n\
    \x20       const i = track.places[k], left = Math.max(GUTTER, toX(track.begin[k])), right = toX(track.end[k]\
    );\n\
    \x20       if ((data.block[i] >> 12 & 1) !== bad) continue;\n\
    \x20       pen.globalAlpha = isFaint(i) ? 0.2 : 1;\n\
    \x20       pen.fillStyle = bad ? colors.error : i === seen.chosen ? colors.status : colors.command;\n\
    \x20       pen.fillRect(left, row.top, Math.max(1.5 + bad, right - left), size);\n\
    \x20     }\n\
    \x20   }\n\
    \x20 } else {\n\
    \x20   const found = track.columns(seen.from, (seen.to - seen.from) / width * 3, Math.ceil(width / 3));\n\
    \x20   const loads = track.matched ? found.matched : found.load;\n\
    \x20   for (let c = 0; c < loads.length; c++) {\n\
    \x20     const bad = found.errors[c] > 0;\n\
    \x20     pen.globalAlpha = bad ? 1 : Math.min(1, 0.12 + Math.sqrt(Math.max(0, loads[c])));\n\
    \x20     pen.fillStyle = bad ? colors.error : colors.command;\n\
    \x20     if (loads[c] > 0 || bad) pen.fillRect(GUTTER + c * 3, row.top, 3, size);\n\
    \x20   }\n\
    \x20 }\n\
    \x20 pen.globalAlpha = 1;\n\
    \x20 pen.fillStyle = colors.panel;\n\
    \x20 pen.fillRect(0, row.top, GUTTER - 1, row.height);\n\
    \x20 const name = row.address === 31 ? 'broadcast' : `terminal ${row.address}`;\n\
    \x20 const errors = track.errors[to] - track.errors[from];\n\
    \x20 write(pen, name, 12, row.top + size / 2, colors.ink, SMALL);\n\
    \x20 if (errors) write(pen, `${errors}`, GUTTER - 8, row.top + size / 2, colors.error, SMALL, 'right');\n\
    }\n\
    \n\
    // A signal over time, as steps or as bands of its names, with its value at the cursor.\n\
    function drawPlot(pen, row) {\n\
    \x20 const { series } = row, width = canvasSize.width - GUTTER;\n\
    \x20 pen.strokeStyle = colors.rule;\n\
    \x20 pen.strokeRect(-1, row.top + 0.5, canvasSize.width + 2, PLOT);\n\
    \x20 pen.save();\n\
    \x20 pen.beginPath();\n\
    \x20 pen.rect(GUTTER, row.top, width, PLOT);\n\
    \x20 pen.clip();\n\
    \x20 if (series.signal.named) drawBands(pen, row); else drawSteps(pen, row);\n\
    \x20 pen.restore();\n\
    \x20 const k = series.at(toldTime());\n\
    \x20 const value = k < 0 ? '-' : `${shortValue(series.texts[k])} ${series.signal.unit}`;\n\
    \x20 const others = data.series.some((one) => one !== series && one.signal === series.signal);\n\
    \x20 drawLabel(pen, row, [series.signal.name, value, others ? channelText(series) : '']);\n\
    }\n\
    \n\
    // The text of a value, of a long one six digits.\n\
    const shortValue = (text) => (text === '' ? 'no value' : text.length > 11 ? String(+(+text).toPrecision(6)) \
    : text);\n\
    \n\
    // A bound of a plot, legible over its line.\n\
    function writeOver(pen, text, y) {\n\
    \x20 pen.font = TINY;\n\
    \x20 pen.fillStyle = colors.panel;\n\
    \x20 pen.globalAlpha = 0.8;\n\
    \x20 pen.fillRect(GUTTER + 1, y - 7, pen.measureText(text).width + 7, 14);\n\
    \x20 pen.globalAlpha = 1;\n\
    \x20 write(pen, text, GUTTER + 4, y, colors.soft, TINY);\n\
    }\n\
    \n\
    function drawSteps(pen, row) {\n\
    \x20 const { series } = row;\n\
    \x20 const [least, greatest] = series.range(Math.max(0, series.at(seen.from)), series.at(seen.to) + 1);\n\
    \x20 const span = greatest - least;\n\
    \x20 const y = (value) => row.top + PLOT - 10 - (span > 0 ? (value - least) / span : 0.5) * (PLOT - 20);\n\
    \x20 const dense = series.at(seen.to) - series.at(seen.from) > canvasSize.width;\n\
    \x20 pen.strokeStyle = colors.plot;\n\
    \x20 pen.lineWidth = 1.5;\n\
    \x20 pen.beginPath();\n\
    \x20 let before = series.at(seen.from), height = before >= 0 ? y(series.value[before]) : NaN, x = GUTTER;\n\
    \x20 const to = (nextX, nextY) => {\n\
    \x20   if (!Number.isNaN(height)) { pen.moveTo(x, height); pen.lineTo(nextX, height); }\n\
    \x20   if (!Number.isNaN(height) && !Number.isNaN(nextY)) pen.lineTo(nextX, nextY);\n\
    \x20   x = nextX; height = nextY;\n\
    \x20 };\n\
    \x20 if (dense) {\n\
    \x20   for (let pixel = GUTTER; pixel < canvasSize.width; pixel++) {\n\
    \x20     const next = series.at(toTime(pixel + 1)), [low, high] = series.range(before + 1, next + 1);\n\
    \x20     if (low <= high) { pen.moveTo(pixel, y(low)); pen.lineTo(pixel, y(high)); }\n\
    \x20     if (next > before) to(pixel, y(series.value[next]));\n\
    \x20     before = next;\n\
    \x20   }\n\
    \x20 } else {\n\
    \x20   for (let k = before + 1; k < series.count && series.begin[k] <= seen.to; k++) {\n\
    \x20     to(toX(series.begin[k]), y(series.value[k]));\n\
    \x20   }\n\
    \x20 }\n\
    \x20 if (series.count) to(Math.min(canvasSize.width, toX(data.last)), height);\n\
    \x20 pen.stroke();\n\
    \x20 pen.lineWidth = 1;\n\
    \x20 if (!(least <= greatest)) return;\n\
    \x20 if (span > 0) writeOver(pen, String(+greatest.toPrecision(6)), row.top + 9);\n\
    \x20 writeOver(pen, String(+least.toPrecision(6)), row.top + PLOT - 9);\n\
    }\n\
    \n\
    function drawBands(pen, row) {\n\
    \x20 const { series } = row, runs = series.runs, first = series.at(seen.from);\n\
    \x20 let r = 0;\n\
    \x20 for (let high = runs.length; r < high;) {\n\
    \x20   const middle = r + high >> 1;\n\
    \x20   if (runs[middle] <= first) r = middle + 1; else high = middle;\n\
    \x20 }\n\
    \x20 let drawn = -1;\n\
    \x20 for (r = Math.max(0, r - 1); r < runs.length && series.begin[runs[r]] <= seen.to; r++) {\n\
    \x20   const left = Math.max(GUTTER, toX(series.begin[runs[r]]));\n\
    \x20   const right = Math.min(canvasSize.width, r + 1 < runs.length ? toX(series.begin[runs[r + 1]]) : toX(d\
    ata.last));\n\
    \x20   if (right < drawn + 0.5) continue;\n\
    \x20   drawn = right;\n\
    \x20   const text = series.texts[runs[r]];\n\
    \x20   pen.fillStyle = `hsl(${(150 + series.names.get(text) * 137) % 360} 55% 50% / .28)`;\n\
    \x20   pen.fillRect(left, row.top + 14, Math.max(1, right - left), PLOT - 28);\n\
    \x20   pen.font = SMALL;\n\
    \x20   if (right - left > pen.measureText(text).width + 8) {\n\
    \x20     write(pen, text, left + 4, row.top + PLOT / 2, colors.ink, SMALL);\n\
    \x20   }\n\
    \x20 }\n\
    }\n\
    \n\
    // The cursor with its time, the message that is chosen, and what is drawn over.\n\
    function drawCursor(pen, layout) {\n\
    \x20 const stroke = (time, color) => {\n\
    \x20   const x = Math.round(toX(time)) + 0.5;\n\
    \x20   if (x < GUTTER) return;\n\
    \x20   pen.strokeStyle = color;\n\
    \x20   pen.beginPath();\n\
    \x20   pen.moveTo(x, OVERVIEW);\n\
    \x20   pen.lineTo(x, layout.height);\n\
    \x20   pen.stroke();\n\
    \x20 };\n\
    \x20 if (seen.chosen >= 0) stroke(data.begin[seen.chosen], colors.accent);\n\
    \x20 if (seen.drawn) {\n\
    \x20   pen.globalAlpha = 0.18;\n\
    \x20   pen.fillStyle = colors.accent;\n\
    \x20   pen.fillRect(seen.drawn[0], OVERVIEW, seen.drawn[1] - seen.drawn[0], layout.height);\n\
    \x20   pen.globalAlpha = 1;\n\
    \x20 }\n\
    \x20 if (seen.cursor === null) return;\n\
    \x20 const time = toTime(seen.cursor);\n\
    \x20 stroke(time, colors.soft);\n\
    \x20 const day = dayText(data, time, data.whole.count > 0 && data.ofDay[data.whole.places[0]]);\n\
    \x20 const text = `${optionText(data, time)}${day ? `  ${day}` : ''}`;\n\
    \x20 pen.font = SMALL;\n\
    \x20 const wide = pen.measureText(text).width + 12;\n\
    \x20 const x = Math.max(GUTTER, Math.min(canvasSize.width - wide, seen.cursor - wide / 2));\n\
    \x20 pen.fillStyle = colors.ink;\n\
    \x20 pen.fillRect(x, OVERVIEW + 1, wide, 18);\n\
    \x20 write(pen, text, x + 6, OVERVIEW + 10, colors.panel, SMALL);\n\
    }\n\
    \n\
    // ---------------------------------------------------------------------------------------------- what is se\
    en\n\
    // Shows a span of time, at least 20 us and within the recording but for some room.\n\
    function show(from, to) {\n\
    \x20 const room = (data.last - data.first) * 0.02 + 100, most = data.last - data.first + 2 * room;\n\
    \x20 const span = Math.min(Math.max(to - from, 200), most);\n\
    \x20 const middle = (from + to) / 2;\n\
    \x20 seen.from = Math.min(Math.max(middle - span / 2, data.first - room), data.last + room - span);\n\
    \x20 seen.to = seen.from + span;\n\
    \x20 byId('tip').hidden = true;\n\
    \x20 redraw();\n\
    \x20 keepAddress();\n\
    }\n\
    const showAll = () => show(data.first, data.last);\n\
    function zoom(factor, about = (seen.from + seen.to) / 2) {\n\
    \x20 const span = Math.max(200, (seen.to - seen.from) * factor), part = (about - seen.from) / (seen.to - see\
    n.from);\n\
    \x20 show(about - part * span, about - part * span + span);\n\
    }\n\
    function pan(part) {\n\
    \x20 const span = (seen.to - seen.from) * part;\n\
    \x20 show(seen.from + span, seen.to + span);\n\
    }\n\
    \n\
    // Brings a time into view, in the middle where it was not there.\n\
    function bring(time) {\n\
    \x20 const span = seen.to - seen.from;\n\
    \x20 if (time < seen.from + span * 0.05 || time > seen.to - span * 0.05) show(time - span / 2, time + span /\
    \x202);\n\
    }\n\
    \n\
    // Chooses a message, and shows it in the lanes, the list and the details.\n\
    function choose(i, scroll = true) {\n\
    \x20 if (i < 0 || i >= data.count) return;\n\
    \x20 seen.chosen = i;\n\
    \x20 if (!Number.isNaN(data.begin[i])) bring(data.begin[i]);\n\
    \x20 showDetails(i);\n\
    \x20 if (scroll) list.reveal(i);\n\
    \x20 list.render();\n\
    \x20 redraw();\n\
    \x20 keepAddress();\n\
    }\n\
    \n\
    ";
