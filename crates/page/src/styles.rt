//! The style of a page: light and dark by what the reader's system prefers, narrow below 900 units, and on paper.

/// The style of words, of the head and of columns.
pub(crate) const WORDS_STYLE: &str = "\
    :root{color-scheme:light dark;--bg:#fff;--ink:#15181c;--mute:#59616b;--line:#d9dde3;--soft:#f2f4f6;--mode:#0b57a4;--tint:#eef4fb;--shade:#e6ebf1;\
    --bad:#b3211a;--badbg:#fdefed;--warn:#8a4f00;--warnbg:#fcf3e2;--yes:#14693a;\
    --sans:system-ui,-apple-system,\"Segoe UI\",Roboto,\"Helvetica Neue\",\"Noto Sans\",\"Liberation Sans\",Arial,sans-serif;\
    --mono:ui-monospace,SFMono-Regular,Menlo,Consolas,\"Liberation Mono\",\"DejaVu Sans Mono\",monospace}\
    @media (prefers-color-scheme:dark){:root{--bg:#101317;--ink:#e3e6ea;--mute:#98a1ac;--line:#2b313a;--soft:#191d23;--mode:#7ab5f3;--tint:#141f2c;\
    --shade:#27303b;--bad:#ff8b80;--badbg:#331816;--warn:#e6b566;--warnbg:#2c2413;--yes:#6fcd95}}\
    *{box-sizing:border-box}\
    html{-webkit-text-size-adjust:100%;text-size-adjust:100%;scroll-padding-top:16px}\
    body{margin:0 auto;max-width:1104px;padding:28px 24px 64px;background:var(--bg);color:var(--ink);font:15px/1.5 var(--sans)}\
    header,main>section>p,details,footer{overflow-wrap:anywhere}\
    p,ul,ol,dl,dd,h1,h2,h3,table{margin:0;padding:0}\
    ul,ol{list-style:none}\
    a{color:inherit;text-decoration:underline;text-decoration-color:var(--mute);text-decoration-thickness:1px;text-underline-offset:3px}\
    a:hover{text-decoration-color:currentColor}\
    :focus-visible{outline:2px solid var(--mode);outline-offset:2px}\
    code{font:12px/18px var(--mono)}\
    h2{margin:48px 0 4px;font-size:19px;line-height:26px;font-weight:650}\
    h3{margin:28px 0 6px;font-size:15px;line-height:22px;font-weight:650}\
    .h{max-width:46em;margin-bottom:16px;color:var(--mute)}\
    small{font-size:13px;line-height:20px;color:var(--mute)}\
    .bad{color:var(--bad)}.warn{color:var(--warn)}.mode{color:var(--mode)}.mute{color:var(--mute)}\
    .file{display:flex;flex-wrap:wrap;gap:0 18px;padding-bottom:10px;border-bottom:1px solid var(--line);color:var(--mute);font-size:13px}\
    .file b{color:var(--ink);font-weight:650}\
    .file nav{margin-left:auto;display:flex;flex-wrap:wrap;gap:0 14px}\
    h1{margin:26px 0 8px;font-size:30px;line-height:38px;font-weight:700;letter-spacing:-.01em}\
    h1 b{font-weight:700}\
    h1 b.yes{color:var(--yes)}h1 b.no{color:var(--bad)}h1 b.open{color:var(--warn)}\
    .lead{max-width:46em;font-size:17px;line-height:26px}\
    .lead code{font-size:14px}\
    .two{display:grid;grid-template-columns:1fr 1fr;gap:0 48px;margin-top:22px}\
    .two h3{margin:0 0 6px;padding-top:10px;border-top:1px solid var(--line)}\
    .two li{margin:0 0 7px;font-size:14px;line-height:21px}\
    .two li li{margin:2px 0 0;font:12px/19px var(--mono)}\
    .tag{font-weight:650}\
    .x{overflow-x:auto}\
    svg{display:block}\
    svg text{font:12px var(--mono);fill:var(--ink);white-space:pre}\
    svg .t{font:650 14px var(--mono)}svg .b{font-weight:700}\
    svg .mute{fill:var(--mute)}svg .bad{fill:var(--bad)}svg .warn{fill:var(--warn)}svg .mode{fill:var(--mode)}\
    ";

/// The style of the picture and of the rights.
pub(crate) const PICTURE_STYLE: &str = "\
    svg .off{fill:none;stroke:var(--mute);stroke-dasharray:3 3}\
    svg .on{fill:var(--tint);stroke:var(--mode);stroke-width:2}\
    svg .rim{fill:none;stroke:var(--mode)}\
    svg .g{fill:var(--soft);stroke:none}svg .n{fill:none;stroke:var(--line);stroke-dasharray:3 3}\
    svg .w{fill:none;stroke:var(--ink);stroke-width:1.5}\
    svg .w.warn{stroke:var(--warn)}svg .w.bad{stroke:var(--bad);stroke-dasharray:6 3}svg .w.mode{stroke:var(--mode)}svg .w.thin{stroke:var(--mute);\
    stroke-width:1}\
    svg .d{fill:var(--ink)}svg .d.warn{fill:var(--warn)}svg .d.bad{fill:var(--bad)}svg .d.mode{fill:var(--mode)}svg .d.thin{fill:var(--mute)}\
    .narrow{display:none}\
    details{margin-top:12px;font-size:13px;line-height:20px}\
    summary{cursor:pointer;color:var(--mute);width:fit-content}\
    details li{margin:3px 0 3px 18px}\
    .mx{border-collapse:separate;border-spacing:0;font-size:13px}\
    .mx th{font-weight:400;text-align:left}\
    .mx thead th{vertical-align:bottom;padding:0 0 4px;color:var(--mute)}\
    .mx thead span{display:block;margin:0 auto;writing-mode:vertical-rl;transform:rotate(180deg);font:11px/24px var(--mono);white-space:nowrap}\
    .mx thead .o{padding:0 2px 6px}\
    .mx thead .o b{display:block;padding-bottom:3px;border-bottom:1px solid var(--mute);font:600 11px/15px var(--sans);text-align:center}\
    .mx tbody .p th{padding:14px 0 4px;font-weight:650}\
    .mx tbody .r th{padding:0 14px 0 0;white-space:nowrap}\
    .mx td{width:24px;height:25px;padding:0;border-top:1px solid var(--bg);text-align:center;vertical-align:middle}\
    .mx td.a{background:var(--shade)}\
    .mx td.v{width:auto;padding:0 0 0 18px;text-align:left;white-space:nowrap}\
    .mx i,.key i{display:inline-block;overflow:hidden;font-size:0;width:11px;height:11px;border:2px solid var(--ink);border-radius:50%;\
    vertical-align:-1px}\
    .mx i.u,.key i.u{background:var(--ink)}\
    .mx i.y,.key i.y{border-color:var(--warn);border-radius:0}\
    .mx i.z,.key i.z{border-color:var(--bad);background:var(--bad);border-radius:0}\
    .key{display:flex;flex-wrap:wrap;gap:2px 22px;margin-top:12px;font-size:13px;color:var(--mute)}\
    .key i{margin-right:7px}\
    .key .a{display:inline-block;width:14px;height:14px;margin-right:7px;background:var(--shade);vertical-align:-2px}\
    .ls{width:100%;border-collapse:separate;border-spacing:0;font:12px/20px var(--mono)}\
    .ls td,.ls th{padding:0 8px 0 0;vertical-align:top;text-align:left;font-weight:400}\
    .ls thead th{padding-bottom:4px;color:var(--mute);font-size:11px}\
    .ls .k{width:1px;padding:0 8px 0 10px;border-left:4px solid transparent;text-align:right;color:var(--mute)}\
    .ls .q{width:1px;text-align:right}\
    .ls .o{width:1px;padding-right:12px;white-space:nowrap;color:var(--mute);font-size:11px}\
    .ls .c{padding-left:calc(14px + 10ch);text-indent:-10ch;white-space:pre-wrap;overflow-wrap:anywhere}\
    ";

/// The style of programs and of runs.
pub(crate) const LISTING_STYLE: &str = "\
    .ls .g{display:grid;grid-template-columns:1fr 280px;column-gap:12px}\
    .ls .c s,.ls .c i{text-decoration:none;font-style:normal;color:var(--mute)}\
    .ls .g>*+*{text-indent:0}\
    .ls li{padding-left:2ch;text-indent:-2ch;font-size:11px}\
    .ls .on{background:var(--tint)}\
    .ls .on .k{border-left-color:var(--mode)}\
    .ls .may .k{border-left:4px dotted var(--mode)}\
    .ls .non .c{color:var(--mute);text-decoration:line-through}\
    .ls .l{width:11px;min-width:11px;padding:0;font-size:11px;text-align:left}\
    .ls td.l::before{content:\"\";display:block}\
    .ls td.l{border-left:4px solid transparent}\
    .ls td.G{border-left-color:var(--ink)}.ls td.S{border-left-color:var(--mode)}.ls td.N{border-left-color:var(--bad)}\
    .ls td.W{border-left-color:var(--warn)}\
    .ls td.e{border-left-style:dotted}\
    .ls .B .c u{text-decoration:underline wavy var(--bad) 1px;text-underline-offset:3px}\
    .ls .E td{padding:4px 12px 10px 12px;border-left:4px solid var(--bad);background:var(--badbg);font:13px/20px var(--sans);overflow-wrap:anywhere}\
    .ls .E p{max-width:64em}\
    .ls .W td{border-left-color:var(--warn);background:var(--warnbg)}\
    .ls .M td{border-left-color:var(--mode);background:var(--tint);color:var(--mode)}\
    .ls tr:target td{background:var(--shade)}\
    .run{position:relative;width:max-content;min-width:100%;font:12px/22px var(--mono)}\
    .run svg{position:absolute;left:0;top:0}\
    .run li{display:grid;grid-template-columns:var(--g) var(--t) var(--e) max-content;height:22px;padding-left:var(--p);white-space:pre;column-gap:14px}\
    .run li>*{overflow:hidden;text-overflow:ellipsis}\
    .run .f{background:var(--badbg)}\
    .run s{text-decoration:none;color:var(--mute)}\
    .run .n{color:var(--mute)}.run a.n{text-decoration:none}.run a.n:hover{text-decoration:underline}\
    .run li>:first-child,.run a.n{text-align:right}\
    .end{padding:8px 12px;border-left:4px solid var(--bad);background:var(--badbg);font-size:14px;line-height:21px}\
    .rule{margin:14px 0 0;max-width:52em}\
    footer{margin-top:56px;padding-top:12px;border-top:1px solid var(--line);color:var(--mute);font-size:13px;line-height:20px}\
    @media (max-width:899px){.wide{display:none}.narrow{display:block}.two{grid-template-columns:1fr;gap:18px}.mx td.v{display:none}}\
    @media (max-width:640px){body{padding:16px 16px 40px}h1{font-size:25px;line-height:32px}.lead{font-size:16px;line-height:24px}.file nav{margin-left:0}\
    h2{margin-top:38px}\
    .mx thead span{line-height:17px}.mx td{width:17px}.mx tbody .r th{padding-right:8px;white-space:normal;overflow-wrap:anywhere}.mx tbody .r small{display:none}.mx i,.key i{width:9px;height:9px}\
    .ls{font-size:11px;line-height:18px}.ls .o,.ls thead .g div+div{display:none}.ls .k{padding:0 5px 0 4px}.ls .q{padding-right:4px}.ls .l{width:8px;\
    ";

/// The style on narrow screens and on paper.
pub(crate) const NARROW_STYLE: &str = "\
    min-width:8px;font-size:9px}.ls .c{padding:0 0 0 6px}\
    .ls .g{display:block}.ls .c,.ls .g div{padding-left:18px;text-indent:-12px}.ls .g div{padding-left:0}.ls .c i{display:block;white-space:normal}\
    .ls ul{margin:0 0 4px -6px;padding:0 0 0 6px;border-left:1px solid var(--line);text-indent:0}.ls li{font-size:10px;line-height:15px}\
    .run{font-size:11px}.run li{column-gap:9px;grid-template-columns:var(--g) var(--s) var(--e) max-content}.run s{display:none}}\
    @media print{:root{--bg:#fff;--ink:#000;--mute:#444;--line:#bbb;--soft:#f2f4f6;--mode:#0b57a4;--tint:#eef4fb;--shade:#e6ebf1;--bad:#b3211a;\
    --badbg:#fdefed;--warn:#8a4f00;--warnbg:#fcf3e2;--yes:#14693a}\
    *{-webkit-print-color-adjust:exact;print-color-adjust:exact}body{max-width:none;padding:0;font-size:10pt;line-height:1.45}.wide{display:block}\
    .narrow,.file nav,details{display:none}.x{overflow:visible}.wide svg{max-width:100%;height:auto}.two{grid-template-columns:1fr 1fr;gap:0 32px}\
    h2{margin-top:28px}h2,h3,.h{break-after:avoid}tr,li,svg,.mx,.h,.end{break-inside:avoid}.mx td.v{display:table-cell}\
    .ls,.run{font-size:7.5pt}.ls{line-height:11pt}.ls li{font-size:7pt}.ls .g{grid-template-columns:1fr 200px}.run li{column-gap:8px}\
    a{text-decoration:none}}\
    ";
