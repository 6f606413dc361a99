//! The parts of a picture that are the same in all of them.

/// Colours and bands. Each state has a form of its own too, which stays in grey, in print and for the colour-blind: its
/// height, its half of the row, or bands along the bar.
pub(crate) const STYLE: &str = "<style>
@page{margin:10mm}
.bg{fill:#fff}text{fill:#1b1b1b}.m{fill:#666}.x{text-anchor:end}.c{text-anchor:middle}.s{font-size:9px}
.b{font-size:14px}
.l{fill:#f6f6f6}.g{fill:#dcdcdc}.w{fill:#b9b9b9}.z{fill:#ededed}.y{fill:#d6d6d6}.e{fill:#1b1b1b}
.u{fill:#c2350a;font-weight:bold}
.k{fill:#1b1b1b}.i{fill:none;pointer-events:all}.n,.o{fill:#8c8c8c}.r{fill:#4a9ad4}rect.c{fill:#00456e}
.tn,.tr{fill:url(#t)}.tc{fill:url(#u)}.rn,.rr{fill:url(#q)}.rc{fill:url(#v)}.h{fill:#f3c04b}
.ti{stop-color:#0a9a72}.tj{stop-color:#005a42}.tb{stop-color:#d9f0e8}.ri{stop-color:#a8489a}
.rj{stop-color:#6d2360}.rb{stop-color:#f4e2ef}
.d rect{vector-effect:non-scaling-stroke;stroke-width:.7px}
.d .k{stroke:#1b1b1b}.d .n,.d .o{stroke:#8c8c8c}.d .r{stroke:#4a9ad4}.d .c{stroke:#00456e}.d .h{stroke:#f3c04b}
.d .tn,.d .tr,.d .tc{stroke:#0a9a72}.d .rn,.d .rr,.d .rc{stroke:#a8489a}.kt,.ht{font-size:9px}.kt{fill:#fff}
@media screen and (prefers-color-scheme:dark){
.bg{fill:#15181b}text{fill:#e9e9e9}.m{fill:#a0a0a0}.g{fill:#33383d}.w{fill:#565c63}.z{fill:#23282c}
.y{fill:#363c42}.l{fill:#1c2024}
.k,.e{fill:#f4f4f4}.n,.o{fill:#8b9299}.r{fill:#2f86c4}rect.c{fill:#bfe2fa}.u{fill:#ff8a5c}.h{fill:#c8901a}
.ti{stop-color:#2db389}.tj{stop-color:#a6efd6}.tb{stop-color:#12362b}.ri{stop-color:#c678b6}
.rj{stop-color:#f5c9ec}.rb{stop-color:#3a2136}
.d .k{stroke:#f4f4f4}.d .n,.d .o{stroke:#8b9299}.d .r{stroke:#2f86c4}
.d .c{stroke:#bfe2fa}
.d .tn,.d .tr,.d .tc{stroke:#2db389}.d .rn,.d .rr,.d .rc{stroke:#c678b6}.d .h{stroke:#c8901a}.kt,.ht{fill:#000}}
</style>
<defs>
<linearGradient id='t' x2='0' y2='1'><stop class='ti' offset='33%'/><stop class='tb' offset='33%'/>
<stop class='tb' offset='67%'/><stop class='ti' offset='67%'/></linearGradient>
<linearGradient id='u' x2='0' y2='1'><stop class='tj' offset='33%'/><stop class='tb' offset='33%'/>
<stop class='tb' offset='67%'/><stop class='tj' offset='67%'/></linearGradient>
<linearGradient id='q' x2='0' y2='1'><stop class='ri' offset='17%'/><stop class='rb' offset='17%'/>
<stop class='rb' offset='42%'/><stop class='ri' offset='42%'/><stop class='ri' offset='58%'/>
<stop class='rb' offset='58%'/><stop class='rb' offset='83%'/><stop class='ri' offset='83%'/></linearGradient>
<linearGradient id='v' x2='0' y2='1'><stop class='rj' offset='17%'/><stop class='rb' offset='17%'/>
<stop class='rb' offset='42%'/><stop class='rj' offset='42%'/><stop class='rj' offset='58%'/>
<stop class='rb' offset='58%'/><stop class='rb' offset='83%'/><stop class='rj' offset='83%'/></linearGradient>
</defs>
";

/// The heads of the columns of the levels.
pub(crate) const WINDOWS_HEAD: &str = "<text class='m' x='8' y='44'>windows</text>
<text class='m x' x='192' y='44'>period</text>
<text class='m x' x='1232' y='44'>demand</text>
<text class='m x' x='1304' y='44'>blocking</text>
<text class='m x' x='1376' y='44'>spare</text>
";

/// What the bars' colours and the marks stand for, below the axis.
pub(crate) const LEGEND: &str =
    "<rect class='k' x='8' y='26' width='12' height='12'/><text x='26' y='36'>kernel</text>
<rect class='n' x='82' y='32' width='12' height='6'/><rect class='o' x='95' y='26' width='12' height='6'/>
<text x='113' y='36'>in, out</text>
<rect class='r' x='176' y='26' width='12' height='12'/><text x='194' y='36'>run</text>
<rect class='c' x='229' y='26' width='12' height='12'/><text x='247' y='36'>call</text>
<rect class='tn' x='289' y='32' width='12' height='6'/><rect class='tr' x='302' y='26' width='12' height='12'/>
<rect class='tc' x='315' y='26' width='12' height='12'/><text x='333' y='36'>slack, timeline</text>
<rect class='rn' x='452' y='32' width='12' height='6'/><rect class='rr' x='465' y='26' width='12' height='12'/>
<rect class='rc' x='478' y='26' width='12' height='12'/><text x='496' y='36'>slack, reclaimed</text>
<rect class='h' x='622' y='26' width='12' height='10'/><text x='640' y='36'>mutex held</text>
<rect class='w' x='738' y='21' width='1' height='23'/><text x='746' y='36'>a window begins</text>
<rect class='e' x='872' y='38' width='24' height='1'/><text x='904' y='36'>until the main is done</text>
<path class='e' d='M13 52m-3 -3h2v7h-2zm4 0h2v7h-2z'/><text x='21' y='56'>wait</text>
<path class='e' d='M67 52m-3 -3h7v7h-7z'/><text x='75' y='56'>exit</text>
<path class='e' d='M121 52m-1 -3h2v2h2v2h-2v2h-2v-2h-2v-2h2z'/><text x='129' y='56'>create</text>
<path class='e' d='M189 52m-3 -1h6v2h-6z'/><text x='197' y='56'>delete</text>
<path class='e' d='M257 52m-3 0h2v-3h3v3h2v4h-7z'/><text x='265' y='56'>lock</text>
<path class='e' d='M311 52m-3 0h2v-3h1v3h4v4h-7z'/><text x='319' y='56'>unlock</text>
<path class='e' d='M379 52m0 -4l4 8h-8z'/><text x='387' y='56'>slack</text>
<path class='e' d='M440 52m0 -4l4 4l-4 4l-4 -4z'/><text x='448' y='56'>put</text>
<path class='u' d='M487 52m0 5l4 -9h-8z'/><text x='495' y='56'>refused</text>
<path class='u' d='M562 52m-4 -2l2 -2l2 2l2 -2l2 2l-2 2l2 2l-2 2l-2 -2l-2 2l-2 -2l2 -2z'/>
<text x='570' y='56'>fault</text>
<text class='m s x' x='646' y='56'>9/15</text><text x='654' y='56'>used/budget of a window</text>
<text class='u s x' x='860' y='56'>15/15</text><text x='868' y='56'>it was overrun</text>
<text class='s' x='988' y='56'>7</text><text x='1000' y='56'>so many marks</text>
<rect class='h' x='1104' y='49' width='24' height='4'/><rect class='e' x='1104' y='53' width='24' height='1'/>
<text x='1136' y='56'>a hold kept the main waiting</text>
</g>
</svg>
";
