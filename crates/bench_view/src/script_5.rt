//! Part 5 of what stands behind the data of a page: its script. `page/make` makes it.

pub(crate) static SCRIPT_5: &str = "\
    \x20 return [event.clientX - box.left, event.clientY - box.top];\n\
    }\n\
    \n\
    function showTip(x, y) {\n\
    \x20 const i = messageAt(x, y), tip = byId('tip');\n\
    \x20 tip.hidden = i < 0;\n\
    \x20 if (i < 0) return;\n\
    \x20 const p = partsOf(data, i);\n\
    \x20 tip.textContent = `${p.number}  ${p.form}\\n${p.replies}${p.words ? `\\n${p.words.trim().slice(0, 79)}`\
    \x20: ''}` +\n\
    \x20   `${p.values ? `\\n${p.values.trim().slice(0, 79)}` : ''}${p.names ? `\\n${p.names.trim()}` : ''}`;\n\
    \x20 const box = byId('canvas').getBoundingClientRect(), below = box.top + y + 16;\n\
    \x20 const fits = below + tip.offsetHeight < window.innerHeight;\n\
    \x20 tip.style.left = box.left + Math.max(0, Math.min(x + 14, canvasSize.width - tip.offsetWidth - 8)) + 'px\
    ';\n\
    \x20 tip.style.top = (fits ? below : box.top + y - 10 - tip.offsetHeight) + 'px';\n\
    }\n\
    \n\
    // Moving through time by mouse, pen and touch: the time between the points stays there, so that one drags a\
    nd two zoom.\n\
    function watchPointers() {\n\
    \x20 const canvas = byId('canvas'), points = new Map();\n\
    \x20 let start = null, moved = false, held = null;\n\
    \x20 const jumpTo = (x) => {\n\
    \x20   const time = data.first + (x - GUTTER) / (canvasSize.width - GUTTER) * (data.last - data.first);\n\
    \x20   const span = seen.to - seen.from;\n\
    \x20   show(time - span / 2, time + span / 2);\n\
    \x20 };\n\
    \x20 const between = () => {\n\
    \x20   const [one, other = one] = points.values();\n\
    \x20   return { x: (one.x + other.x) / 2, apart: Math.hypot(one.x - other.x, one.y - other.y) };\n\
    \x20 };\n\
    \x20 const hold = () => {\n\
    \x20   if (!points.size) return;\n\
    \x20   const { x, apart } = between();\n\
    \x20   held = { time: toTime(x), apart, scale: (seen.to - seen.from) / (canvasSize.width - GUTTER) };\n\
    \x20 };\n\
    \x20 const follow = () => {\n\
    \x20   const { x, apart } = between();\n\
    \x20   const scale = held.scale * (Math.min(apart, held.apart) > 8 ? held.apart / apart : 1);\n\
    \x20   const from = held.time - (x - GUTTER) * scale;\n\
    \x20   show(from, from + scale * (canvasSize.width - GUTTER));\n\
    \x20 };\n\
    \x20 canvas.addEventListener('pointerdown', (event) => {\n\
    \x20   const [x, y] = placeOfMouse(event);\n\
    \x20   byId('tip').hidden = true;\n\
    \x20   points.set(event.pointerId, { x, y });\n\
    \x20   canvas.setPointerCapture(event.pointerId);\n\
    \x20   start = { x, over: event.shiftKey, overview: y < OVERVIEW };\n\
    \x20   moved = points.size > 1;\n\
    \x20   hold();\n\
    \x20   if (start.overview) jumpTo(x);\n\
    \x20 });\n\
    \x20 canvas.addEventListener('pointermove', (event) => {\n\
    \x20   const [x, y] = placeOfMouse(event);\n\
    \x20   seen.cursor = x >= GUTTER && y > OVERVIEW ? x : null;\n\
    \x20   if (!points.has(event.pointerId)) { showTip(x, y); redraw(); return; }\n\
    \x20   points.set(event.pointerId, { x, y });\n\
    \x20   if (points.size > 1) { follow(); return; }\n\
    \x20   if (Math.abs(x - start.x) > 3) moved = true;\n\
    \x20   if (start.overview) { jumpTo(x); return; }\n\
    \x20   if (start.over) { seen.drawn = [start.x, x]; redraw(); return; }\n\
    \x20   if (moved) follow();\n\
    \x20 });\n\
    \x20 const release = (event) => {\n\
    \x20   const [x, y] = placeOfMouse(event);\n\
    \x20   points.delete(event.pointerId);\n\
    \x20   hold();\n\
    \x20   if (seen.drawn) {\n\
    \x20     const [from, to] = [...seen.drawn].sort((a, b) => a - b);\n\
    \x20     seen.drawn = null;\n\
    \x20     if (to - from > 4) show(toTime(from), toTime(to)); else redraw();\n\
    \x20   } else if (!moved && event.type === 'pointerup' && start && !start.overview) {\n\
    \x20     const i = messageAt(x, y);\n\
    \x20     if (i >= 0) { choose(i); showTip(x, y); }\n\
    \x20   }\n\
    \x20 };\n\
    \x20 canvas.addEventListener('pointerup', release);\n\
    \x20 canvas.addEventListener('pointercancel', release);\n\
    \x20 // (where a finger has left, what it touched stays told)\n\
    \x20 canvas.addEventListener('pointerleave', (event) => {\n\
    \x20   seen.cursor = null;\n\
    \x20   if (event.pointerType !== 'touch') byId('tip').hidden = true;\n\
    \x20   redraw();\n\
    \x20 });\n\
    \x20 document.addEventListener('scroll', (event) => {\n\
    \x20   if (event.target !== byId('scroll')) byId('tip').hidden = true;\n\
    \x20 }, true);\n\
    \x20 canvas.addEventListener('dblclick', (event) => zoom(0.25, toTime(placeOfMouse(event)[0])));\n\
    \x20 canvas.addEventListener('wheel', (event) => {\n\
    \x20   const [x] = placeOfMouse(event);\n\
    \x20   if (x < GUTTER) return;\n\
    \x20   event.preventDefault();\n\
    \x20   const turn = event.deltaMode === 1 ? event.deltaY * 33 : event.deltaY;\n\
    \x20   if (Math.abs(event.deltaX) > Math.abs(event.deltaY)) pan(event.deltaX / (canvasSize.width - GUTTER));\
    \n\
    \x20   else if (event.shiftKey) pan(turn / (canvasSize.width - GUTTER));\n\
    \x20   else zoom(Math.exp(Math.max(-120, Math.min(120, turn)) * 0.003), toTime(x));\n\
    \x20 }, { passive: false });\n\
    }\n\
    \n\
    const KEYS = {\n\
    \x20 '+': () => zoom(0.5), '=': () => zoom(0.5), '-': () => zoom(2), 0: showAll, e: () => nextError(1),\n\
    \x20 E: () => nextError(-1), n: () => nextMessage(1), p: () => nextMessage(-1), z: zoomToChosen,\n\
    \x20 g: () => byId('goto').focus(), f: () => byId('byText').focus(), '/': () => byId('byText').focus(),\n\
    \x20 l: () => setMode(seen.mode === 'lines' ? 'terminals' : 'lines'), c: copyOptions,\n\
    \x20 t: () => setTheme(document.documentElement.dataset.theme === 'dark' ? 'light' : 'dark'),\n\
    \x20 '?': () => byId('keys').showModal(),\n\
    };\n\
    const LANE_KEYS = {\n\
    \x20 ArrowLeft: (event) => pan(event.shiftKey ? -0.9 : -0.15), ArrowRight: (event) => pan(event.shiftKey ? 0\
    .9 : 0.15),\n\
    \x20 Home: () => show(data.first, data.first + seen.to - seen.from),\n\
    \x20 End: () => show(data.last - seen.to + seen.from, data.last),\n\
    \x20 Enter: zoomToChosen,\n\
    };\n\
    const LIST_KEYS = {\n\
    \x20 ArrowDown: () => list.move(1), ArrowUp: () => list.move(-1),\n\
    \x20 PageDown: () => list.move(15), PageUp: () => list.move(-15),\n\
    \x20 Home: () => list.move(-Infinity), End: () => list.move(Infinity), Enter: zoomToChosen,\n\
    };\n\
    \n\
    function watchKeys() {\n\
    \x20 document.addEventListener('keydown', (event) => {\n\
    \x20   if (event.ctrlKey || event.metaKey || event.altKey || byId('keys').open) return;\n\
    \x20   const at = document.activeElement;\n\
    \x20   if (/^(INPUT|SELECT|TEXTAREA)$/.test(at.tagName) && at.type !== 'checkbox') {\n\
    \x20     if (event.key === 'Escape') at.blur();\n\
    \x20     return;\n\
    \x20   }\n\
    \x20   const own = byId('scroll').contains(at) ? LIST_KEYS : at.tagName === 'BUTTON' ? {} : LANE_KEYS;\n\
    \x20   const act = own[event.key] || KEYS[event.key] || (at === document.body ? LIST_KEYS[event.key] : null)\
    ;\n\
    \x20   if (!act) return;\n\
    \x20   event.preventDefault();\n\
    \x20   act(event);\n\
    \x20 });\n\
    }\n\
    \n\
    function watchControls() {\n\
    \x20 const click = (id, act) => byId(id).addEventListener('click', act);\n\
    \x20 click('next', () => nextError(1));\n\
    \x20 click('before', () => nextError(-1));\n\
    \x20 click('in', () => zoom(0.5));\n\
    \x20 click('out', () => zoom(2));\n\
    \x20 click('all', showAll);\n\
    \x20 click('lines', () => setMode('lines'));\n\
    \x20 click('terminals', () => setMode('terminals'));\n\
    \x20 click('copy', copyOptions);\n\
    \x20 click('theme', KEYS.t);\n\
    \x20 click('help', KEYS['?']);\n\
    \x20 byId('jump').addEventListener('submit', (event) => {\n\
    \x20   event.preventDefault();\n\
    \x20   if (!goTo(byId('goto').value)) say('a time as 3.0s, 350ms or 12us, or the number of a message');\n\
    \x20 });\n\
    \x20 byId('filter').addEventListener('submit', (event) => event.preventDefault());\n\
    \x20 byId('filter').addEventListener('input', filter);\n\
    \x20 byId('scroll').addEventListener('scroll', () => list.render());\n\
    \x20 byId('rows').addEventListener('click', (event) => {\n\
    \x20   const row = event.target.closest('tr');\n\
    \x20   if (row) { byId('table').focus({ preventScroll: true }); choose(+row.dataset.place, false); }\n\
    \x20 });\n\
    \x20 window.addEventListener('resize', () => { sizeCanvas(); list.render(); redraw(); });\n\
    \x20 window.addEventListener('hashchange', () => readAddress(location.hash));\n\
    \x20 const dark = matchMedia('(prefers-color-scheme: dark)');\n\
    \x20 dark.addEventListener('change', () => setTheme(dark.matches ? 'dark' : 'light'));\n\
    }\n\
    \n\
    // ---------------------------------------------------------------------------------------------- the self-c\
    heck\n\
    // With `#selfcheck` in its address the page writes into itself what it has, as JSON: counts, messages as li\
    nes (all up\n\
    // to 20,000, of more the first and the last hundred), how long pictures took at many zooms, and faults of t\
    he script.\n\
    function selfCheck() {\n\
    \x20 const lines = [];\n\
    \x20 const isTold = (i) => data.count <= 20000 || i < 100 || i >= data.count - 100;\n\
    \x20 for (let i = 0; i < data.count; i++) if (isTold(i)) lines.push(decodeLine(data, i));\n\
    \x20 const times = [];\n\
    \x20 draw();\n\
    \x20 for (const mode of ['lines', 'terminals']) {\n\
    \x20   setMode(mode);\n\
    \x20   for (let span = data.last - data.first; span > 1000; span /= 2) {\n\
    \x20     show(data.first, data.first + span);\n\
    \x20     const begun = performance.now();\n\
    \x20     draw();\n\
    \x20     times.push(performance.now() - begun);\n\
    \x20   }\n\
    \x20 }\n\
    \x20 const found = {\n\
    \x20   messages: data.count, chosen: data.chosen, errors: data.errors.length, channels: data.channels.length\
    ,\n\
    \x20   rows: byId('rows').childElementCount, series: data.series.length, faults,\n\
    \x20   slowest: Math.ceil(Math.max(0, ...times)), usual: Math.ceil(times.sort((a, b) => a - b)[times.length \
    >> 1]), lines,\n\
    \x20 };\n\
    \x20 document.body.append(element('pre', JSON.stringify(found), { id: 'found' }));\n\
    }\n\
    \n\
    function begin() {\n\
    \x20 data = indexData(readData(byId('data').textContent.trimStart()));\n\
    \x20 document.title = `${data.recording || 'recording'} - messages`;\n\
    \x20 byId('title').textContent = data.recording || 'Messages of a recording';\n\
    \x20 document.documentElement.dataset.theme = matchMedia('(prefers-color-scheme: dark)').matches ? 'dark' : \
    'light';\n\
    \x20 readColors();\n\
    \x20 summarize();\n\
    \x20 fillFilter();\n\
    \x20 sizeCanvas();\n\
    \x20 watchPointers();\n\
    \x20 watchKeys();\n\
    \x20 watchControls();\n\
    \x20 seen.from = data.first;\n\
    \x20 seen.to = data.last;\n\
    \x20 showAll();\n\
    \x20 list.render();\n\
    \x20 if (location.hash === '#selfcheck') selfCheck(); else readAddress(location.hash);\n\
    \x20 draw();\n\
    }\n\
    begin();\n\
    </script>\n\
    </body>\n\
    </html>\n\
    ";
