//! The parts that are the same in all pages.
//!
//! A style never decides a number that is read: it gives a bar the length of the numbers on its row.

/// What stands before the title.
pub(crate) const HEAD: &str = "<!DOCTYPE html>
<html lang=\"en\">
<head>
<meta charset=\"utf-8\">
<meta http-equiv=\"Content-Security-Policy\" content=\"default-src 'none'; style-src 'unsafe-inline'; base-uri 'none'; form-action 'none'\">
<meta name=\"viewport\" content=\"width=device-width, initial-scale=1\">
<meta name=\"generator\" content=\"deosk-show page\">
<title>Design review: ";

/// What stands between the title and the name at the top: the style sheet, which draws each bar from the numbers on its row.
pub(crate) const STYLE: &str = "</title>
<style>
:root{color-scheme:light dark;
--ground:#fff;--raised:#f6f7f8;--ink:#1b1b1b;--soft:#5a5f66;--line:#d4d7db;--strong:#9aa0a7;
--blue:#2873a9;--blue-soft:#d7e8f4;--amber:#f3c04b;--amber-ink:#6b4a00;
--alert:#b8320a;--alert-soft:#fbe9e2;--good:#0a6b4c;--good-soft:#e1f2ec;--warn-soft:#fdf3d8}
@media screen and (prefers-color-scheme:dark){:root{
--ground:#15181b;--raised:#1d2125;--ink:#e9e9e9;--soft:#a5abb2;--line:#33383d;--strong:#62686f;
--blue:#4a9ad4;--blue-soft:#1b3346;--amber:#c8901a;--amber-ink:#ffe2a0;
--alert:#ff8a5c;--alert-soft:#3a2019;--good:#5fd3ab;--good-soft:#12362b;--warn-soft:#352b10}}
*{box-sizing:border-box}
body{margin:0;background:var(--ground);color:var(--ink);font:15px/1.5 system-ui,-apple-system,'Segoe UI',Roboto,'DejaVu Sans',sans-serif;
-webkit-text-size-adjust:100%;print-color-adjust:exact;-webkit-print-color-adjust:exact}
code,pre,.number,.name{font-family:ui-monospace,SFMono-Regular,Menlo,Consolas,'DejaVu Sans Mono',monospace}
.number{font-variant-numeric:tabular-nums;text-align:right;white-space:nowrap;font-size:.87em}
code{font-size:.87em}
.skip{position:absolute;left:-999em}.skip:focus{left:1rem;top:.5rem;background:var(--ground);padding:.4rem .8rem;z-index:9;border:2px solid var(--blue)}
.hidden{position:absolute;width:1px;height:1px;overflow:hidden;clip-path:inset(50%);white-space:nowrap}
:focus-visible{outline:2px solid var(--blue);outline-offset:2px}
.sheet{max-width:1080px;margin:0 auto;padding:0 1.5rem 4rem}
header{border-bottom:3px solid var(--ink);padding:2rem 0 1rem}
h1{margin:.1rem 0 0;font-size:1.9rem;line-height:1.15;overflow-wrap:anywhere}
.kicker{margin:0;color:var(--soft);font-size:.8rem;letter-spacing:.09em;text-transform:uppercase;font-weight:600}
h2{font-size:1.22rem;margin:0;line-height:1.3}
section{margin:0 0 2.6rem}
.head{display:flex;flex-wrap:wrap;align-items:baseline;gap:.3rem .8rem;border-bottom:1px solid var(--strong);padding-bottom:.3rem;margin-bottom:.7rem}
.scope{margin-left:auto;font-size:.75rem;font-weight:600;padding:.1rem .55rem;border-radius:1rem;border:1px solid currentColor;white-space:nowrap}
.scope.every{color:var(--good)}.scope.programs{color:var(--amber-ink)}.scope.layout{color:var(--ink)}.scope.one{color:var(--blue)}.scope.given{color:var(--soft)}
.why{margin:.2rem 0 .9rem;break-inside:avoid;color:var(--soft);max-width:78ch}
.tiles{display:grid;grid-template-columns:repeat(auto-fit,minmax(165px,1fr));gap:.7rem;margin:1.2rem 0 2rem;padding:0;list-style:none}
.tile{border:1px solid var(--line);border-left:5px solid var(--strong);border-radius:4px;padding:.55rem .8rem;background:var(--raised)}
.tile b{display:block;font-size:1.22rem;line-height:1.25}
.tile span{display:block;font-size:.8rem;color:var(--soft);line-height:1.35}
.tile .what{font-weight:600;text-transform:uppercase;letter-spacing:.05em;font-size:.7rem}
.tile.good{border-left-color:var(--good);background:var(--good-soft)}.tile.good b{color:var(--good)}
.tile.bad{border-left-color:var(--alert);background:var(--alert-soft)}.tile.bad b{color:var(--alert)}
.tile.look{border-left-color:var(--amber);background:var(--warn-soft)}.tile.look b{color:var(--amber-ink)}
.scroll{overflow-x:auto}
table{border-collapse:collapse;width:100%;font-size:.93rem}
th,td{padding:.28rem .6rem;border-bottom:1px solid var(--line);vertical-align:middle;text-align:left}
th.number,td.number{text-align:right}
caption:not(.hidden){text-align:left;font-weight:600;padding:1.2rem 0 .3rem}
thead th{font-size:.75rem;font-weight:600;color:var(--soft);vertical-align:bottom;border-bottom:1px solid var(--strong);line-height:1.25}
thead th.number{font-family:inherit;font-size:.75rem}
tbody th{font-weight:400;white-space:nowrap}
.tight{color:var(--alert);font-weight:700}
td{font-variant-numeric:tabular-nums}
td.fill{width:24%;min-width:9rem}
.bar{position:relative;height:14px;background:var(--raised);box-shadow:inset 0 0 0 1px var(--line);border-radius:2px;overflow:hidden}
.bar i{position:absolute;top:0;bottom:0;left:0}
#levels tr:not([data-kind=level]) .bar,#by-when tr:not([data-kind=process]) .bar,#room tr:is([data-kind=growth],[data-kind=switch]) .bar{display:none}
#levels tr[data-kind=level] td{font-weight:600;border-top:1px solid var(--strong)}
#levels tr{--whole:max(var(--c6),var(--c7) + var(--c8))}
#levels .bar i:nth-child(1){background:var(--blue);width:calc(var(--c7)/var(--whole)*100%)}
#levels .bar i:nth-child(2){background:repeating-linear-gradient(45deg,var(--amber) 0 5px,var(--warn-soft) 5px 9px);left:calc(var(--c7)/var(--whole)*100%);width:calc(var(--c8)/var(--whole)*100%)}
#levels .bar i:nth-child(3){width:3px;background:var(--alert);left:calc(var(--c6)/var(--whole)*100% - 3px)}
#by-when .bar i:nth-child(1){background:repeating-linear-gradient(135deg,var(--blue) 0 2px,var(--blue-soft) 2px 5px);bottom:50%;left:min((var(--c5) - 1)/var(--c3)*100%,100% - 2px);width:calc((var(--c6) - var(--c5) + 1)/var(--c3)*100%);min-width:2px}
#by-when .bar i:nth-child(2){background:var(--blue);top:50%;left:min((var(--c7) - 1)/var(--c3)*100%,100% - 2px);width:calc((var(--c8) - var(--c7) + 1)/var(--c3)*100%);min-width:2px}
#room .bar i:nth-child(1){background:var(--blue);width:calc(var(--c5)/var(--c7)*100%)}
#windows .bar i:nth-child(1){background:var(--blue-soft);width:calc(var(--c10)/var(--c13)*100%)}
#windows .bar i:nth-child(2){background:var(--blue);width:calc(var(--c9)/var(--c13)*100%)}
#levels :is(td,th):nth-child(n+4):nth-child(-n+11),#by-when :is(td,th):nth-child(n+3):nth-child(-n+12),#room :is(td,th):nth-child(n+5):nth-child(-n+10),#windows :is(td,th):nth-child(n+3):nth-child(-n+20),#inputs :is(td,th):nth-child(3){text-align:right}
#windows :is(td,th):is(:nth-child(8),:nth-child(9),:nth-child(16),:nth-child(18),:nth-child(20)){display:none}
#windows :is(td,th){padding-left:.35rem;padding-right:.35rem}
#needs tr[data-kind=missed] td:first-child{color:var(--alert);font-weight:700}#needs tr[data-kind=open] td:first-child{color:var(--amber-ink);font-weight:700}#needs tr[data-kind=met] td:first-child{color:var(--good);font-weight:600}
#needs :is(td,th):nth-child(n+5):nth-child(-n+6){text-align:right}#needs .fill{display:none}
#totals td:is(:nth-child(odd),.fill){color:var(--soft)}#totals td:nth-child(even){text-align:right}
#totals tr:not([data-kind=process]) .fill{display:none}
#totals tr[data-kind=process] td:nth-child(2){text-align:left;font-weight:600}
#totals tr[data-kind=kernel] td:is(:nth-child(2),:nth-child(4)){color:var(--soft);text-align:left}#totals tr[data-kind=kernel] td:is(:nth-child(3),:nth-child(5)){color:var(--ink);text-align:right}
#totals table{font-size:.84rem}#totals td{padding-left:.25rem;padding-right:.25rem}#totals td.fill{width:auto;min-width:5rem}
#totals tr{--whole:max(1,var(--c3) + var(--c5) + var(--c7) + var(--c9) + var(--c11) + var(--c13))}
#totals .bar i:nth-child(1){background:var(--amber);width:calc((var(--c3) + var(--c9))/var(--whole)*100%)}
#totals .bar i:nth-child(2){background:var(--blue);left:calc((var(--c3) + var(--c9))/var(--whole)*100%);width:calc((var(--c5) + var(--c7))/var(--whole)*100%)}
#totals .bar i:nth-child(3){background:var(--blue-soft);left:calc((var(--c3) + var(--c5) + var(--c7) + var(--c9))/var(--whole)*100%);width:calc((var(--c11) + var(--c13))/var(--whole)*100%)}
#matrix{width:auto;min-width:60%}#matrix .fill,#tenths .fill,#chains tr:not([data-kind=process]) .fill,#chains tr[data-kind=end]{display:none}
#matrix :is(td,th):nth-child(n+3){text-align:right}#matrix td:first-child{color:var(--soft)}
#matrix td:nth-child(n+3):not(.fill):empty::after{content:'·'/'';color:var(--soft)}
#matrix tr:is([data-kind=period],[data-kind=demand],[data-kind=blocking],[data-kind=spare],[data-kind=over]) td{font-weight:600}
#matrix tr[data-kind=demand] td{border-top:1px solid var(--strong)}#matrix tr[data-kind=over] td:nth-child(n+3){color:var(--alert)}
#tenths :is(td,th):nth-child(2){text-align:right}#tenths :is(td,th):nth-child(n+3){text-align:center;padding-left:.15rem;padding-right:.15rem}
#tenths td:nth-child(3){--n:var(--c2)}#tenths td:nth-child(4){--n:var(--c3)}#tenths td:nth-child(5){--n:var(--c4)}#tenths td:nth-child(6){--n:var(--c5)}
#tenths td:nth-child(7){--n:var(--c6)}#tenths td:nth-child(8){--n:var(--c7)}#tenths td:nth-child(9){--n:var(--c8)}#tenths td:nth-child(10){--n:var(--c9)}
#tenths td:nth-child(11){--n:var(--c10)}#tenths td:nth-child(12){--n:var(--c11)}#tenths td:nth-child(13){--n:var(--c12)}
#tenths td{vertical-align:bottom}
#tenths td:nth-child(n+3){padding-top:2.6rem;font-size:.8em;background:linear-gradient(var(--blue),var(--blue)) no-repeat left 2px bottom 1.9em/calc(100% - 4px) max(min(2px,var(--n)*2px),var(--n)/max(1,var(--c1))*2.2rem)}
.scroll+.why{margin-top:.6rem}
h3{font-size:1rem;margin:1.2rem 0 .2rem;overflow-wrap:anywhere}
#chains table{font-size:.84rem}#chains td{padding-left:.25rem;padding-right:.25rem}#chains td.fill{min-width:8rem}
#chains td:is(:nth-child(1),:nth-child(3),:nth-child(5),:nth-child(7)){color:var(--soft)}
#chains tr[data-kind=process] td:is(:nth-child(9),:nth-child(11),:nth-child(12),:nth-child(14),:nth-child(15),:nth-child(17),:nth-child(19)){color:var(--soft)}
#chains tr[data-kind=process] td:is(:nth-child(4),:nth-child(6),:nth-child(10),:nth-child(13),:nth-child(16),:nth-child(18),:nth-child(20)){text-align:right}
#chains tr[data-kind=process] td:nth-child(2),#chains tr[data-kind=reaction] td{font-weight:600}
#chains tr:not([data-kind=process],[data-kind=end]){display:block;width:0;white-space:nowrap;padding:.28rem 0}#chains tr:not([data-kind=process]) td{border:0}
#chains tr:not([data-kind=process],[data-kind=end]) td:not(.fill){display:inline}
#chains .bar i:nth-child(1){background:repeating-linear-gradient(135deg,var(--blue-soft) 0 4px,transparent 4px 8px);left:calc(var(--c9)/var(--reaction)*100%);width:calc((var(--c12) - var(--c9))/var(--reaction)*100%)}
#chains .bar i:nth-child(2){background:var(--blue);left:min((var(--c12) - 1)/var(--reaction)*100%,100% - 2px);width:calc((var(--c15) - var(--c12) + 1)/var(--reaction)*100%);min-width:2px}
.picture{overflow-x:auto}.picture svg{display:block;min-width:60rem}
.legend{display:flex;flex-wrap:wrap;gap:.2rem 1rem;margin:.5rem 0 0;padding:0;list-style:none;font-size:.8rem;color:var(--soft)}
.legend i{display:inline-block;width:14px;height:11px;margin-right:.35em;vertical-align:-1px;box-shadow:inset 0 0 0 1px var(--line)}
.legend .demand,.legend .work,.legend .now{background:var(--blue)}
.legend .switching{background:var(--amber)}
.legend .most{background:var(--blue-soft)}
.legend .blocking{background:repeating-linear-gradient(45deg,var(--amber) 0 5px,var(--warn-soft) 5px 9px)}
.legend .first{background:repeating-linear-gradient(135deg,var(--blue) 0 2px,var(--blue-soft) 2px 5px)}
.legend .wait{background:repeating-linear-gradient(135deg,var(--blue-soft) 0 4px,transparent 4px 8px)}
.legend .limit{background:var(--alert);width:3px;box-shadow:none}
.note{border-left:4px solid var(--alert);background:var(--alert-soft);padding:.5rem .8rem;margin:.4rem 0;border-radius:2px}
details{border:1px solid var(--line);border-radius:4px;margin:.5rem 0;background:var(--raised)}
summary{cursor:pointer;padding:.4rem .8rem;font-size:.9rem;overflow-wrap:anywhere}
summary code{font-weight:600}
pre{margin:0;padding:.6rem .8rem;overflow-x:auto;font-size:12px;line-height:1.4;background:var(--ground)}
section>pre{border:1px solid var(--line);border-radius:4px}
details>pre{border-top:1px solid var(--line)}
.hash{overflow-wrap:anywhere;font-size:.8rem;min-width:14rem}
.sign{display:grid;grid-template-columns:repeat(3,1fr);gap:1.2rem 1.5rem;margin-top:1rem}
.sign div{border-top:1px solid var(--ink);padding-top:.25rem;margin-top:2.4rem;font-size:.8rem;color:var(--soft)}
@media (max-width:720px){.sheet{padding:0 .8rem 3rem}.sign{grid-template-columns:1fr}td.fill{min-width:6rem}}
@media (forced-colors:active){.bar i,.legend i{forced-color-adjust:none}}
@page{size:A4;margin:14mm 13mm 15mm;@bottom-right{content:'page ' counter(page) ' of ' counter(pages);font:8pt system-ui,sans-serif;color:#555}}
@media print{body{font-size:9.5pt;line-height:1.4}
.sheet{max-width:none;padding:0}.skip{display:none}
header{padding-top:0}h1{font-size:19pt}h3{font-size:9.5pt}
section{margin-bottom:1.5rem}.head,.why,h3,caption{break-after:avoid}
tr,.tile,.note,.sign{break-inside:avoid}thead{display:table-header-group}
table{font-size:8.6pt}th,td{padding:.18rem .45rem}
#chains table,#totals table,#by-when table,#matrix{font-size:7.4pt}#matrix :is(th,td){padding-left:.2rem;padding-right:.2rem}#chains td{padding-left:.15rem;padding-right:.15rem}#chains td.fill{min-width:5rem}
.tiles{grid-template-columns:repeat(3,1fr);gap:.4rem}
details{border:0;background:none}details>pre{border:1px solid var(--line)}pre{white-space:pre-wrap;font-size:7.2pt}
details::details-content{content-visibility:visible;display:block;height:auto;block-size:auto}
summary{list-style:none;padding:.3rem 0;break-after:avoid}
.scroll,.picture{overflow:visible}.picture svg{min-width:0}}
</style>
</head>
<body>
<a class=\"skip\" href=\"#content\">Skip to the content</a>
<div class=\"sheet\">
<header><p class=\"kicker\">Design review of a layout</p><h1>";

/// What stands before the tiles.
pub(crate) const TILES: &str = "</h1></header>
<main id=\"content\">
<ul class=\"tiles\" aria-label=\"Findings\">
";

/// The tile of a certified configuration.
pub(crate) const CERTIFIED_TILE: &str =
    "<li class=\"tile good\"><span class=\"what\">Certification</span><b>certified</b><span>holds for every run</span></li>
";

/// The tile of a document that isn't that of a configuration.
pub(crate) const FAULTS_TILE: &str =
    "<li class=\"tile bad\"><span class=\"what\">Document</span><b>refused</b><span>it isn’t that of a configuration</span></li>
";

/// What stands between the tiles and the rows of the files.
pub(crate) const INPUTS: &str = "</ul>
<section id=\"inputs\" aria-labelledby=\"inputs-title\">
<div class=\"head\"><h2 id=\"inputs-title\">Inputs</h2><span class=\"scope given\">input</span></div>
<p class=\"why\">What this page was made of. The same words, files and program give it again, byte for byte.</p>
<div class=\"scroll\"><table><caption class=\"hidden\">Files with their lengths and checksums</caption>
<thead><tr><th scope=\"col\">What</th><th scope=\"col\">File</th><th scope=\"col\" class=\"number\">Bytes</th><th scope=\"col\">SHA-256</th></tr></thead>
<tbody>
";

/// The end of a table and its section.
pub(crate) const TABLE_END: &str = "</tbody></table></div>
</section>
";

/// What stands before the document of a configuration.
pub(crate) const DOCUMENT: &str =
    "<section id=\"configuration\" aria-labelledby=\"configuration-title\">
<div class=\"head\"><h2 id=\"configuration-title\">Configuration</h2><span class=\"scope given\">input</span></div>
<p class=\"why\">The document, word for word. All times are ticks.</p>
<pre tabindex=\"0\">
";

/// What stands before the rows of a certified configuration.
pub(crate) const CERTIFIED: &str =
    "<section id=\"certification\" aria-labelledby=\"certification-title\">
<div class=\"head\"><h2 id=\"certification-title\">Certification</h2><span class=\"scope every\">holds for every run</span></div>
<p class=\"why\">Certified: at no level do the demand of a window and the longest blocking exceed the period. So each thread gets its whole budget in each of its windows in which it neither waits nor is stopped, in every run, whatever the programs do. All numbers are ticks.</p>
<div class=\"scroll\"><table id=\"levels\"><caption class=\"hidden\">Certification, level by level</caption>
<thead><tr><th scope=\"col\">Of</th><th scope=\"col\">Name</th><th scope=\"col\">User</th><th scope=\"col\">Level</th><th scope=\"col\">Release of</th><th scope=\"col\">Ticks</th><th scope=\"col\">Period</th><th scope=\"col\">Demand</th><th scope=\"col\">Blocking</th><th scope=\"col\">Spare</th><th scope=\"col\">Over</th><th class=\"fill\" aria-hidden=\"true\"></th></tr></thead>
<tbody>
";

/// What stands before the rows of a configuration that isn't certified.
pub(crate) const UNCERTIFIED: &str =
    "<section id=\"certification\" aria-labelledby=\"certification-title\">
<div class=\"head\"><h2 id=\"certification-title\">Certification</h2><span class=\"scope layout\">of the configuration</span></div>
<p class=\"why\"><strong class=\"tight\">Not certified.</strong> At some level the demand of a window and the longest blocking exceed the period, so nothing is said of any run. All numbers are ticks.</p>
<div class=\"scroll\"><table id=\"levels\"><caption class=\"hidden\">Certification, level by level</caption>
<thead><tr><th scope=\"col\">Of</th><th scope=\"col\">Name</th><th scope=\"col\">User</th><th scope=\"col\">Level</th><th scope=\"col\">Release of</th><th scope=\"col\">Ticks</th><th scope=\"col\">Period</th><th scope=\"col\">Demand</th><th scope=\"col\">Blocking</th><th scope=\"col\">Spare</th><th scope=\"col\">Over</th><th class=\"fill\" aria-hidden=\"true\"></th></tr></thead>
<tbody>
";

/// What stands behind the rows of certification, what their bars show, and before the sums as one matrix.
pub(crate) const LEVELS_END: &str = "</tbody></table></div>
<ul class=\"legend\" aria-hidden=\"true\"><li><i class=\"demand\"></i>demand</li><li><i class=\"blocking\"></i>blocking</li><li><i></i>spare</li><li><i class=\"limit\"></i>the end of the period</li></ul>
<div class=\"scroll\"><table id=\"matrix\"><caption>The sums as one matrix</caption>
<thead>
";

/// What stands between the names of the columns of a table and its rows.
pub(crate) const COLUMNS_END: &str = "</thead>
<tbody>
";

/// What stands before the rows of by when.
pub(crate) const BY_WHEN: &str = "<section id=\"by-when\" aria-labelledby=\"by-when-title\">
<div class=\"head\"><h2 id=\"by-when-title\">By when</h2><span class=\"scope every\">holds for every run</span></div>
<p class=\"why\">After so many ticks of each of its windows a process’s main thread has had its first tick, and its whole budget, in every run, whatever the programs do: not before the first number, and by the second, unless it waited or was stopped before. Each jitter is the second less the first: so much may the tick vary from window to window. The margin is what is left of the period. All numbers are ticks.</p>
<div class=\"scroll\"><table><caption class=\"hidden\">By when each main thread has its ticks</caption>
<thead><tr><th scope=\"col\">Of</th><th scope=\"col\">Name</th><th scope=\"col\">Level</th><th scope=\"col\">Period</th><th scope=\"col\">Budget</th><th scope=\"col\">Begins from</th><th scope=\"col\">By</th><th scope=\"col\">Done from</th><th scope=\"col\">By</th><th scope=\"col\">Jitter, begins</th><th scope=\"col\">Jitter, done</th><th scope=\"col\">Margin</th><th class=\"fill\" aria-hidden=\"true\"></th></tr></thead>
<tbody>
";

/// What stands behind the rows of by when: what their bars show.
pub(crate) const BY_WHEN_END: &str = "</tbody></table></div>
<ul class=\"legend\" aria-hidden=\"true\"><li><i class=\"first\"></i>its first tick comes in here</li><li><i class=\"work\"></i>the last of its whole budget comes in here</li></ul>
</section>
";

/// What stands in place of by when where the configuration isn't certified.
pub(crate) const NOT_BY_WHEN: &str = "<section id=\"by-when\" aria-labelledby=\"by-when-title\">
<div class=\"head\"><h2 id=\"by-when-title\">By when</h2><span class=\"scope layout\">of the configuration</span></div>
<p class=\"note\">The configuration isn’t certified, so there is no tick by which a process has its budget.</p>
</section>
";

/// What stands before how far each number can go.
pub(crate) const ROOM: &str = "<section id=\"room\" aria-labelledby=\"room-title\">
<div class=\"head\"><h2 id=\"room-title\">Room</h2><span class=\"scope layout\">of the configuration</span></div>
<p class=\"why\">The greatest value of each number with which the configuration is certified, all else as it is, and what stands in the way of one more. They hold one by one: two numbers that grow together are asked anew.</p>
<div class=\"scroll\"><table><caption class=\"hidden\">How far each number can go</caption>
<thead><tr><th scope=\"col\">Number</th><th scope=\"col\">Of</th><th scope=\"col\">Limited by</th><th scope=\"col\">Process</th><th scope=\"col\">Level</th><th scope=\"col\">Now</th><th scope=\"col\">Body</th><th scope=\"col\">Up to</th><th scope=\"col\">Up to %</th><th scope=\"col\">By level</th><th class=\"fill\" aria-hidden=\"true\"></th></tr></thead>
<tbody>
";

/// What stands behind that.
pub(crate) const ROOM_END: &str = "</tbody></table></div>
<ul class=\"legend\" aria-hidden=\"true\"><li><i class=\"now\"></i>now</li><li><i></i>up to</li></ul>
</section>
";

/// What stands before the warnings.
pub(crate) const WARNINGS: &str = "<section id=\"warnings\" aria-labelledby=\"warnings-title\">
<div class=\"head\"><h2 id=\"warnings-title\">Warnings</h2><span class=\"scope layout\">of the configuration</span></div>
<p class=\"why\">What the configuration allows and can’t be meant. None is an error. Where the configuration is certified, each is a theorem about every run, or about certification.</p>
<pre tabindex=\"0\">
";

/// The end of a text and its section.
pub(crate) const TEXT_END: &str = "</pre>
</section>
";

/// What stands before the faults of a document.
pub(crate) const FAULTS: &str = "<section id=\"faults\" aria-labelledby=\"faults-title\">
<div class=\"head\"><h2 id=\"faults-title\">Faults</h2><span class=\"scope given\">of the document</span></div>
<p class=\"why\">The document isn’t that of a configuration, so nothing is certified, and nothing is said of any run.</p>
<pre tabindex=\"0\">
";

/// The tile of needs that are all met.
pub(crate) const MET_TILE: &str =
    "<li class=\"tile good\"><span class=\"what\">Requirements</span><b>all met</b><span>in every run</span></li>
";

/// The tile of needs that aren't.
pub(crate) const UNMET_TILE: &str =
    "<li class=\"tile bad\"><span class=\"what\">Requirements</span><b>not all met</b><span>some are missed, or open</span></li>
";

/// The tile of a document that isn't one of needs of the configuration.
pub(crate) const REFUSED_TILE: &str =
    "<li class=\"tile bad\"><span class=\"what\">Requirements</span><b>refused</b><span>nothing is decided</span></li>
";

/// What stands before the needs.
pub(crate) const NEEDS: &str = "<section id=\"needs\" aria-labelledby=\"needs-title\">
<div class=\"head\"><h2 id=\"needs-title\">Requirements</h2><span class=\"scope every\">holds for every run</span></div>
<p class=\"why\">What is needed of the layout, need by need, with the number that is promised of every run, or how far a number of the configuration can go, and what is asked of it. What the programs or a ledger decide is open here: <code>deosk-show check</code> asks them.</p>
<div class=\"scroll\"><table><caption class=\"hidden\">What is needed, and whether it is met</caption>
<thead><tr><th scope=\"col\">Verdict</th><th scope=\"col\">Name</th><th scope=\"col\">Of</th><th scope=\"col\">Measure</th><th scope=\"col\">Number</th><th scope=\"col\">Asked</th><th scope=\"col\">Reason</th><th class=\"fill\" aria-hidden=\"true\"></th></tr></thead>
<tbody>
";

/// What stands before why nothing is decided of needs.
pub(crate) const NEEDS_REFUSED: &str = "<section id=\"needs\" aria-labelledby=\"needs-title\">
<div class=\"head\"><h2 id=\"needs-title\">Requirements</h2><span class=\"scope given\">of the document</span></div>
<p class=\"why\">The document isn’t one of needs of this configuration, so nothing is decided.</p>
<pre tabindex=\"0\">
";

/// What stands before the chains.
pub(crate) const CHAINS: &str = "<section id=\"chains\" aria-labelledby=\"chains-title\">
<div class=\"head\"><h2 id=\"chains-title\">Chains</h2><span class=\"scope every\">holds for every run</span></div>
<p class=\"why\">How long each process of a chain takes to answer what the one before found, the last within the reaction time, in every run, whatever the programs do. All ticks are counted from an event that has to wait longest. A bar begins where the window starts in which the process answers; the whole length is the reaction time. What the processes wait for their windows, and take from then on, is that time together. In fewer ticks than the shortest no chain of whole budgets has answered.</p>
";

/// What stands before the names of a chain.
pub(crate) const CHAIN: &str = "<h3>";

/// What stands between them and the reaction time.
pub(crate) const CHAIN_NAMED: &str = "</h3>
<div class=\"scroll\" style=\"--reaction:";

/// What stands before the lines of a chain.
pub(crate) const CHAIN_LINES: &str =
    "\"><table><caption class=\"hidden\">When the chain has answered, line by line</caption>
<tbody>
";

/// What stands behind them.
pub(crate) const CHAIN_END: &str = "</tbody></table></div>
";

/// What stands behind the chains: what their bars show.
pub(crate) const CHAINS_END: &str =
    "<ul class=\"legend\" aria-hidden=\"true\"><li><i></i>before its window</li><li><i class=\"wait\"></i>its first tick comes in here</li><li><i class=\"work\"></i>it is done by the end of this</li></ul>
</section>
";

/// The tile of a run that repeats as a whole.
pub(crate) const REPEATING_TILE: &str =
    "<li class=\"tile good\"><span class=\"what\">The run</span><b>repeats</b><span>with these programs, for ever</span></li>
";

/// What stands before what repeats.
pub(crate) const REPEATS: &str = "<section id=\"repeats\" aria-labelledby=\"repeats-title\">
<div class=\"head\"><h2 id=\"repeats-title\">What repeats</h2><span class=\"scope programs\">of these programs, for ever</span></div>
<p class=\"why\">What the run does with these programs, from the tick that is told on, for ever; what is told of a process by itself holds in every run in which it has this program. What isn’t found to repeat may repeat all the same.</p>
<pre tabindex=\"0\">
";

/// The tile of a ledger that passed.
pub(crate) const PASSED_TILE: &str =
    "<li class=\"tile good\"><span class=\"what\">Audit</span><b>passed</b><span>this ledger follows the rules</span></li>
";

/// The tile of a ledger that didn't.
pub(crate) const FAILED_TILE: &str =
    "<li class=\"tile bad\"><span class=\"what\">Audit</span><b>not passed</b><span>this ledger breaks a rule</span></li>
";

/// What stands before what the audit finds.
pub(crate) const AUDIT: &str = "<section id=\"audit\" aria-labelledby=\"audit-title\">
<div class=\"head\"><h2 id=\"audit-title\">Audit</h2><span class=\"scope one\">of this ledger</span></div>
<p class=\"why\">Whether the ledger follows the rules for this configuration, whatever the programs were. One that passes keeps what is promised above: each thread had its whole budget in each window in which it neither waited nor was stopped, nobody went past a budget but on slack, and slack came only where it fitted.</p>
<pre tabindex=\"0\">
";

/// What stands before the picture.
pub(crate) const PICTURE: &str = "<section id=\"picture\" aria-labelledby=\"picture-title\">
<div class=\"head\"><h2 id=\"picture-title\">Picture</h2><span class=\"scope one\">of this ledger</span></div>
<p class=\"why\">A row is a thread, and a bar a line of the ledger. Point at a bar, a mark or a window, and it tells its line.</p>
<div class=\"picture\">
";

/// What stands behind it.
pub(crate) const PICTURE_END: &str = "</div>
</section>
";

/// What stands before what each thread did in its windows.
pub(crate) const RUN: &str = "<section id=\"run\" aria-labelledby=\"run-title\">
<div class=\"head\"><h2 id=\"run-title\">Use of windows</h2><span class=\"scope one\">of this ledger</span></div>
<p class=\"why\">What each thread did in its windows that have ended: in how many it waited, was stopped, or overran (it had ticks of its budget, and neither waited nor was stopped), the least and the most ticks of its budget in one, and the first and the last tick of a window with which it was done; then what befell its process. All times are ticks.</p>
<div class=\"scroll\"><table id=\"windows\"><caption class=\"hidden\">What each thread did in its windows</caption>
<thead><tr><th scope=\"col\">Process</th><th scope=\"col\">Thread</th><th scope=\"col\">Serial</th><th scope=\"col\">Windows</th><th scope=\"col\">Waited</th><th scope=\"col\">Stopped</th><th scope=\"col\">Overran</th><th scope=\"col\">First window</th><th scope=\"col\">First tick</th><th scope=\"col\">Used least</th><th scope=\"col\">Used most</th><th scope=\"col\">Done first</th><th scope=\"col\">Done last</th><th scope=\"col\">Budget</th><th scope=\"col\">Refused</th><th scope=\"col\">First refused</th><th scope=\"col\">Faults</th><th scope=\"col\">First fault</th><th scope=\"col\">Slack</th><th scope=\"col\">First slack</th><th class=\"fill\" aria-hidden=\"true\"></th></tr></thead>
<tbody>
";

/// What stands behind that: what its bars show; and before the tenths of the budgets.
pub(crate) const RUN_END: &str = "</tbody></table></div>
<ul class=\"legend\" aria-hidden=\"true\"><li><i class=\"now\"></i>used least</li><li><i class=\"most\"></i>used most</li><li><i></i>budget</li></ul>
<div class=\"scroll\"><table id=\"tenths\"><caption>Windows by tenths of the budget</caption>
<thead>
";

/// What stands behind the tenths.
pub(crate) const TENTHS_END: &str = "</tbody></table></div>
<p class=\"why\">In how many of its windows each main used how many whole tenths of its budget: the first column counts those with less than one, the last those with the whole budget. A bar is as high as its part of all windows.</p>
</section>
";

/// What stands before the totals.
pub(crate) const TOTALS: &str = "<section id=\"totals\" aria-labelledby=\"totals-title\">
<div class=\"head\"><h2 id=\"totals-title\">Totals</h2><span class=\"scope one\">of this ledger</span></div>
<p class=\"why\">Whose the ticks of the ledger are: of all of them, of the kernel level by level, and of each process, whose bar has its switches, its work and its slack side by side; then the threads that it created, its refused calls and its faults.</p>
<div class=\"scroll\"><table><caption class=\"hidden\">Totals, line by line</caption>
<tbody>
";

/// What stands behind them: what their bars show.
pub(crate) const TOTALS_END: &str = "</tbody></table></div>
<ul class=\"legend\" aria-hidden=\"true\"><li><i class=\"switching\"></i>switches</li><li><i class=\"work\"></i>work</li><li><i class=\"most\"></i>slack</li></ul>
</section>
";

/// What stands before the outputs: what the page says, and what not.
pub(crate) const OUTPUTS: &str = "<section id=\"says\" aria-labelledby=\"says-title\">
<div class=\"head\"><h2 id=\"says-title\">What this page says, and what not</h2><span class=\"scope given\">scope</span></div>
<p class=\"why\">The parts marked “holds for every run” are proved of this configuration, with any programs. The parts marked “of the configuration” are exact for it, and say nothing of a run by themselves. The parts marked “of these programs, for ever” are proved of this configuration with the programs that it names, from the tick that they tell on; what they tell of a process by itself holds with any programs of the others. The parts marked “of this ledger” are exact for the ledger with the checksum above, and say nothing of another run. The checksums tell of which files.</p>
<p class=\"why\">deosk is a model of a time-partitioned kernel on a small simulated processor. Nothing here is a statement about real hardware, wall-clock time or the real system. What a tick is in the real system, and whether the budgets are enough for its work, is for this review to decide.</p>
</section>
<section id=\"outputs\" aria-labelledby=\"outputs-title\">
<div class=\"head\"><h2 id=\"outputs-title\">The outputs, word for word</h2><span class=\"scope given\">evidence</span></div>
<p class=\"why\">The numbers of the tables above stand in these texts. Each text is what the command writes, byte for byte.</p>
";

/// The end of the page, with lines for signatures.
pub(crate) const ENDING: &str = "</section>
<section id=\"record\" aria-labelledby=\"record-title\">
<div class=\"head\"><h2 id=\"record-title\">Record of the review</h2></div>
<div class=\"sign\"><div>Prepared by</div><div>Reviewed by</div><div>Approved by</div><div>Date and signature</div><div>Date and signature</div><div>Date and signature</div></div>
</section>
</main>
</div>
</body>
</html>
";
