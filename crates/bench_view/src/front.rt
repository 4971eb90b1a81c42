//! What stands in front of the data of a page. `page/make` makes it.

pub(crate) static FRONT: &str = "\
    <!DOCTYPE html>\n\
    <html lang=\"en\">\n\
    <head>\n\
    <meta charset=\"utf-8\">\n\
    <meta name=\"viewport\" content=\"width=device-width,initial-scale=1\">\n\
    <title>Messages of a recording</title>\n\
    <style>\n\
    /* The page of bench view: light and dark. */\n\
    :root {\n\
    \x20 color-scheme: light;\n\
    \x20 --page: #f6f7f9; --panel: #ffffff; --ink: #1b2330; --soft: #5d6878; --rule: #dfe3e9; --hover: #eef3fd;\
    \n\
    \x20 --accent: #2460d8; --chosen: #dbe7ff; --load: #c9d9f8; --loaded: #6b93e6; --match: #2460d8;\n\
    \x20 --command: #2f66d0; --data: #64778f; --status: #18825a; --error: #c4211a; --frame: #8592a5;\n\
    \x20 --plot: #8a4bc9; --inbar: #ffffff;\n\
    }\n\
    :root[data-theme=\"dark\"] {\n\
    \x20 color-scheme: dark;\n\
    \x20 --page: #0f1318; --panel: #171c24; --ink: #e5e9f0; --soft: #9aa6b7; --rule: #2a323e; --hover: #1e2734;\
    \n\
    \x20 --accent: #7eaaff; --chosen: #22345a; --load: #22345a; --loaded: #4a75c4; --match: #7eaaff;\n\
    \x20 --command: #5b8df2; --data: #8093ad; --status: #35b383; --error: #ff7366; --frame: #66758a;\n\
    \x20 --plot: #c08bf5; --inbar: #0f1318;\n\
    }\n\
    * { box-sizing: border-box; }\n\
    html, body { height: 100%; margin: 0; }\n\
    body {\n\
    \x20 display: flex; flex-direction: column; background: var(--page); color: var(--ink);\n\
    \x20 font: 14px/1.4 system-ui, -apple-system, \"Segoe UI\", Roboto, \"Noto Sans\", sans-serif;\n\
    }\n\
    [hidden] { display: none !important; }\n\
    header { display: flex; flex-wrap: wrap; align-items: center; gap: 4px 16px; padding: 8px 14px; }\n\
    h1 { font-size: 16px; font-weight: 650; margin: 0; overflow-wrap: anywhere; }\n\
    #summary { color: var(--soft); margin: 0; flex: 1 1 240px; font-size: 13px; text-wrap: balance; }\n\
    .tools, .group { display: flex; align-items: center; }\n\
    .tools { gap: 6px 10px; flex-wrap: wrap; }\n\
    #jump { display: flex; align-items: center; gap: 6px; color: var(--soft); font-size: 13px; }\n\
    button, input, select {\n\
    \x20 font: inherit; font-size: 13px; color: var(--ink); background: var(--panel); border: 1px solid var(--ru\
    le);\n\
    \x20 border-radius: 6px; padding: 3px 9px; min-height: 28px;\n\
    }\n\
    button { cursor: pointer; }\n\
    button:hover { background: var(--hover); }\n\
    button[aria-pressed=\"true\"] { background: var(--chosen); border-color: var(--accent); }\n\
    .group button { border-radius: 0; margin-left: -1px; }\n\
    .group button:first-child { border-radius: 6px 0 0 6px; margin-left: 0; }\n\
    .group button:last-child { border-radius: 0 6px 6px 0; }\n\
    :focus-visible { outline: 2px solid var(--accent); outline-offset: 1px; }\n\
    #lanes {\n\
    \x20 position: relative; flex: none; max-height: 62vh; overflow-x: hidden; overflow-y: auto; background: var\
    (--panel);\n\
    \x20 border-top: 1px solid var(--rule); border-bottom: 1px solid var(--rule); touch-action: pan-y; user-sele\
    ct: none;\n\
    }\n\
    #canvas { display: block; width: 100%; cursor: crosshair; }\n\
    #tip {\n\
    \x20 position: fixed; pointer-events: none; background: var(--ink); color: var(--panel); padding: 4px 8px;\n\
    \x20 border-radius: 6px; font-size: 12px; white-space: pre; z-index: 2; max-width: 60ch; overflow: hidden;\n\
    }\n\
    main { flex: 1; min-height: 0; display: flex; }\n\
    #listing { flex: 1 1 auto; min-width: 0; display: flex; flex-direction: column; }\n\
    #filter { display: flex; flex-wrap: wrap; gap: 6px; align-items: center; padding: 8px 14px; }\n\
    #filter label { font-size: 13px; display: flex; align-items: center; gap: 4px; }\n\
    #filter input[type=\"checkbox\"] { min-height: 0; accent-color: var(--error); }\n\
    #byText { flex: 1 1 130px; min-width: 0; max-width: 260px; }\n\
    #matches { color: var(--soft); font-size: 13px; min-width: 118px; }\n\
    #scroll { position: relative; flex: 1; min-height: 120px; overflow: auto; background: var(--panel);\n\
    \x20 border-top: 1px solid var(--rule); }\n\
    #space { position: absolute; top: 0; left: 0; width: 1px; }\n\
    table { border-collapse: collapse; font: 12.5px/22px ui-monospace, \"SF Mono\", Menlo, Consolas, \"DejaVu Sa\
    ns Mono\",\n\
    \x20 monospace; white-space: pre; }\n\
    #table { position: relative; min-width: 100%; }\n\
    #table thead th { position: sticky; top: 0; z-index: 1; background: var(--page); color: var(--soft); font-we\
    ight: 600;\n\
    \x20 text-align: left; padding: 0 10px; height: 24px; box-shadow: inset 0 -1px var(--rule); }\n\
    #rows td { height: 22px; padding: 0 10px; }\n\
    #rows td:nth-child(-n+3), #table th:nth-child(-n+3) { text-align: right; }\n\
    #rows tr { cursor: pointer; }\n\
    #rows tr:hover { background: var(--hover); }\n\
    #rows tr[aria-selected=\"true\"] { background: var(--chosen); }\n\
    .bad { color: var(--error); }\n\
    tr.bad td:first-child { box-shadow: inset 3px 0 var(--error); }\n\
    #details { flex: 0 0 400px; overflow: auto; padding: 10px 16px; border-left: 1px solid var(--rule);\n\
    \x20 background: var(--panel); }\n\
    #details h2, dialog h2 { font-size: 15px; margin: 2px 0 6px; }\n\
    #details h3 { font-size: 11px; margin: 14px 0 2px; color: var(--soft); font-weight: 600; letter-spacing: .04\
    em;\n\
    \x20 text-transform: uppercase; }\n\
    #details p { margin: 2px 0; }\n\
    #details table { width: 100%; line-height: 20px; white-space: normal; }\n\
    #details td, #details th { text-align: left; padding: 1px 10px 1px 0; vertical-align: top;\n\
    \x20 border-top: 1px solid var(--rule); font-weight: 400; }\n\
    #details pre { margin: 4px 0; padding: 6px 8px; background: var(--page); border-radius: 6px; white-space: pr\
    e-wrap;\n\
    \x20 overflow-wrap: anywhere; font: 12px/1.5 ui-monospace, Menlo, Consolas, \"DejaVu Sans Mono\", monospace;\
    \x20}\n\
    #details td:first-child { white-space: nowrap; }\n\
    #details .where { color: var(--soft); }\n\
    .role { display: inline-block; width: 9px; height: 9px; border-radius: 2px; margin-right: 6px; }\n\
    .hint { color: var(--soft); }\n\
    #said {\n\
    \x20 position: fixed; left: 50%; bottom: 18px; transform: translateX(-50%); z-index: 3; margin: 0; pointer-e\
    vents: none;\n\
    \x20 background: var(--ink); color: var(--panel); border-radius: 8px;\n\
    }\n\
    #said:not(:empty) { padding: 6px 14px; }\n\
    dialog { border: 1px solid var(--rule); border-radius: 12px; background: var(--panel); color: var(--ink);\n\
    \x20 padding: 18px 24px; }\n\
    dialog::backdrop { background: #0006; }\n\
    dl { display: grid; grid-template-columns: auto auto; gap: 4px 18px; }\n\
    dt { font: 13px ui-monospace, Menlo, Consolas, monospace; }\n\
    dd { margin: 0; }\n\
    @media (max-width: 860px) {\n\
    \x20 main { flex-direction: column; }\n\
    \x20 #details { flex: 0 1 38vh; border-left: 0; border-top: 1px solid var(--rule); }\n\
    \x20 body { height: auto; min-height: 100%; }\n\
    \x20 #scroll { height: 50vh; flex: none; }\n\
    }\n\
    @media print { .tools, #filter { display: none; } }\n\
    </style>\n\
    </head>\n\
    <body>\n\
    <header>\n\
    <h1 id=\"title\">Messages of a recording</h1>\n\
    <p id=\"summary\"></p>\n\
    <div class=\"tools\">\n\
    <form id=\"jump\" role=\"search\">\n\
    <label for=\"goto\">Go to</label>\n\
    <input id=\"goto\" size=\"16\" placeholder=\"3.0s or 1234\" autocomplete=\"off\" spellcheck=\"false\">\n\
    </form>\n\
    <span class=\"group\" role=\"group\" aria-label=\"Errors\">\n\
    <button id=\"before\" aria-label=\"error before\" title=\"Error before (E)\">&#9664; error</button>\n\
    <button id=\"next\" aria-label=\"next error\" title=\"Next error (e)\">error &#9654;</button>\n\
    </span>\n\
    <span class=\"group\" role=\"group\" aria-label=\"Zoom\">\n\
    <button id=\"out\" aria-label=\"zoom out\" title=\"Zoom out (-)\">&#8722;</button>\n\
    <button id=\"in\" aria-label=\"zoom in\" title=\"Zoom in (+)\">+</button>\n\
    <button id=\"all\" aria-label=\"all: whole recording\" title=\"Whole recording (0)\">all</button>\n\
    </span>\n\
    <span class=\"group\" role=\"group\" aria-label=\"Lanes\">\n\
    <button id=\"lines\" aria-pressed=\"true\" title=\"Lanes by bus line (l)\">lines</button>\n\
    <button id=\"terminals\" aria-pressed=\"false\" title=\"Lanes by terminal (l)\">terminals</button>\n\
    </span>\n\
    <span class=\"group\" role=\"group\" aria-label=\"Page\">\n\
    <button id=\"copy\" title=\"Copy what is seen as options --from and --to (c)\">copy options</button>\n\
    <button id=\"theme\" aria-label=\"light or dark\" title=\"Light or dark (t)\">&#9680;</button>\n\
    <button id=\"help\" aria-label=\"keys\" title=\"Keys (?)\" aria-haspopup=\"dialog\">?</button>\n\
    </span>\n\
    </div>\n\
    </header>\n\
    <section id=\"lanes\" tabindex=\"0\" role=\"application\" aria-label=\"Messages over time. The table below h\
    as the same.\">\n\
    <canvas id=\"canvas\"></canvas>\n\
    <div id=\"tip\" hidden></div>\n\
    </section>\n\
    <main>\n\
    <section id=\"listing\" aria-label=\"List of messages\">\n\
    <form id=\"filter\" role=\"search\" aria-label=\"Filter\">\n\
    <select id=\"byChannel\" aria-label=\"Channel\"><option value=\"\">all channels</option></select>\n\
    <select id=\"byTerminal\" aria-label=\"Terminal\"><option value=\"\">all terminals</option></select>\n\
    <select id=\"bySubaddress\" aria-label=\"Subaddress\"><option value=\"\">all subaddresses</option></select>\
    \n\
    <select id=\"byForm\" aria-label=\"Form\"><option value=\"\">all forms</option></select>\n\
    <label><input type=\"checkbox\" id=\"byError\"> errors</label>\n\
    <input id=\"byText\" type=\"search\" placeholder=\"text, as busy\" aria-label=\"Text\" spellcheck=\"false\">\
    \n\
    <output id=\"matches\"></output>\n\
    </form>\n\
    <div id=\"scroll\" tabindex=\"-1\">\n\
    <div id=\"space\"></div>\n\
    <table id=\"table\" role=\"grid\" aria-label=\"Messages\" tabindex=\"0\">\n\
    <thead><tr>\n\
    <th scope=\"col\">message</th><th scope=\"col\">seconds</th><th scope=\"col\">channel</th><th scope=\"col\">\
    line</th>\n\
    <th scope=\"col\">form</th><th scope=\"col\">status words, responses</th><th scope=\"col\">data words, block\
    \x20status</th>\n\
    </tr></thead>\n\
    <tbody id=\"rows\"></tbody>\n\
    </table>\n\
    </div>\n\
    </section>\n\
    <section id=\"details\" tabindex=\"0\" aria-label=\"Message decoded\" aria-live=\"polite\">\n\
    <p class=\"hint\">Click a message, or go through them with the arrow keys.</p></section>\n\
    </main>\n\
    <p id=\"said\" role=\"status\"></p>\n\
    <dialog id=\"keys\" aria-label=\"Keys\">\n\
    <h2>Keys</h2>\n\
    <dl>\n\
    <dt>wheel, + &#8722;, pinch</dt><dd>zoom</dd>\n\
    <dt>drag, &#8592; &#8594;</dt><dd>move through time (shift: a whole width)</dd>\n\
    <dt>shift drag</dt><dd>zoom to what was drawn over</dd>\n\
    <dt>Home End</dt><dd>begin, end</dd>\n\
    <dt>0</dt><dd>whole recording</dd>\n\
    <dt>e E</dt><dd>next error, error before</dd>\n\
    <dt>n p</dt><dd>next message, message before</dd>\n\
    <dt>z</dt><dd>zoom to the message</dd>\n\
    <dt>g</dt><dd>go to a time or a number</dd>\n\
    <dt>f or /</dt><dd>filter by text</dd>\n\
    <dt>l</dt><dd>lanes by line or by terminal</dd>\n\
    <dt>c</dt><dd>copy what is seen as --from and --to</dd>\n\
    <dt>t</dt><dd>light or dark</dd>\n\
    <dt>&#8593; &#8595; PgUp PgDn</dt><dd>in the list: message by message</dd>\n\
    </dl>\n\
    <p>The address of the page has what is seen, to be kept or sent.</p>\n\
    <form method=\"dialog\"><button>close</button></form>\n\
    </dialog>\n\
    <script type=\"text/plain\" id=\"data\">\n\
    messages\n\
    ";
